//! Thousands of names at once, for which `tests/library/large.py` gives little time and memory.

use super::mapping::{item_of, target};
use bstr::BStr;
use gix_refspec::match_group::{Item, Mapping};
use gix_refspec::oid::ObjectId;
use gix_refspec::parsing::Operation;
use gix_refspec::{MatchGroup, parse};
use std::alloc::{AllocError, Global};
use std::process::Abort;
use std::test::Fail;

// So many names, each with this in front of a number of its own.
fn numbered(alloc: Global, start: &str, count: usize) -> Result<Vec<String>, AllocError> {
    let mut names = Vec::with_capacity(alloc, count)?;
    for number in 0..count {
        names.push(format!(in alloc; "{start}{number:05}")?)?;
    }
    Ok(names)
}

// Items with these names.
fn items_of<'a>(
    alloc: Global,
    names: &'a [String],
    target: &'a ObjectId,
) -> Result<Vec<Item<'a>>, AllocError> {
    let mut items = Vec::with_capacity(alloc, names.len())?;
    for name in names {
        items.push(item_of(name.as_bytes(), target))?;
    }
    Ok(items)
}

// The group of these fetches.
fn group_of(alloc: Global, specs: &[String]) -> Result<MatchGroup<'_>, Fail> {
    let mut group = MatchGroup::new(alloc);
    for spec in specs {
        let spec = parse(alloc, BStr::new(spec.as_bytes()), Operation::Fetch)?;
        group.specs.push(spec)?;
    }
    Ok(group)
}

// Looks whether the mappings are those of all items in order, each by the spec at the index of its item.
fn check_names(rt: &impl Abort, mappings: &[Mapping<'_, '_>], count: usize) {
    assert_eq!(rt; mappings.len(), count);
    for (place, mapping) in mappings.iter().enumerate() {
        let indexes = (mapping.item_index, mapping.spec_index);
        assert_eq!(rt; indexes, (Some(place), place));
    }
}

// A spec for each source and the destination at its index.
fn joined(
    alloc: Global,
    sources: &[String],
    destinations: &[String],
) -> Result<Vec<String>, AllocError> {
    let mut specs = Vec::with_capacity(alloc, sources.len())?;
    for (source, destination) in sources.iter().zip(destinations) {
        specs.push(format!(in alloc; "{source}:{destination}")?)?;
    }
    Ok(specs)
}

// Looks whether a group maps each of these names by the spec at its index, also after a validation.
fn check_there(
    rt: &(impl Abort + AllocGlobal),
    group: MatchGroup<'_>,
    names: &[String],
) -> Result<(), Fail> {
    let target = target();
    let items = items_of(rt.alloc(), names, &target)?;
    let there = group.match_lhs(rt.alloc(), items.as_slice())?;
    check_names(rt, there.mappings.as_slice(), names.len());
    assert!(rt; there.indexes_fit());
    let (kept, fixes) = there.validated(rt.alloc())?;
    check_names(rt, kept.mappings.as_slice(), names.len());
    assert!(rt; fixes.is_empty());
    Ok(())
}

// Likewise from right to left.
fn check_back(
    rt: &(impl Abort + AllocGlobal),
    group: MatchGroup<'_>,
    names: &[String],
) -> Result<(), Fail> {
    let target = target();
    let items = items_of(rt.alloc(), names, &target)?;
    let back = group.match_rhs(rt.alloc(), items.as_slice())?;
    check_names(rt, back.mappings.as_slice(), names.len());
    Ok(())
}

// Looks whether specs from each name on the left to the one at its index on the right map them, in both
// directions.
fn check_joined(
    rt: &(impl Abort + AllocGlobal),
    left: &[String],
    right: &[String],
) -> Result<(), Fail> {
    let specs = joined(rt.alloc(), left, right)?;
    let group = group_of(rt.alloc(), specs.as_slice())?;
    check_there(rt, group.clone(rt.alloc())?, left)?;
    check_back(rt, group, right)
}

#[test]
fn maps_many_full_names(rt: HostRuntime) -> Result<(), Fail> {
    let left = numbered(rt.alloc(), "refs/heads/", 30_000)?;
    let right = numbered(rt.alloc(), "refs/x/", 30_000)?;
    check_joined(&rt, left.as_slice(), right.as_slice())
}

#[test]
fn maps_many_refs(rt: HostRuntime) -> Result<(), Fail> {
    let alloc = rt.alloc();
    let target = target();
    let names = numbered(alloc, "refs/heads/", 50_000)?;
    let remote = items_of(alloc, names.as_slice(), &target)?;
    let text = BStr::new(b"refs/heads/*:refs/x/*");
    let group = MatchGroup::from_fetch_specs(alloc, [parse(alloc, text, Operation::Fetch)?])?;
    let outcome = group.match_lhs(alloc, remote.as_slice())?;
    assert_eq!(rt; outcome.mappings.len(), 50_000);
    for (place, mapping) in outcome.mappings.iter().enumerate() {
        let indexes = (mapping.item_index, mapping.spec_index);
        assert_eq!(rt; indexes, (Some(place), 0));
    }
    Ok(())
}

// Patterns from one folder to so many others.
fn patterns(alloc: Global, count: usize) -> Result<Vec<String>, AllocError> {
    let mut specs = Vec::with_capacity(alloc, count)?;
    for number in 0..count {
        specs.push(format!(in alloc; "refs/heads/*:refs/x{number}/*")?)?;
    }
    Ok(specs)
}

// Patterns from so many folders to one.
fn turned_patterns(alloc: Global, count: usize) -> Result<Vec<String>, AllocError> {
    let mut specs = Vec::with_capacity(alloc, count)?;
    for number in 0..count {
        specs.push(format!(in alloc; "refs/x{number}/*:refs/heads/*")?)?;
    }
    Ok(specs)
}

// Items of which each has a name of its own, and then so many of one more name.
fn repeated<'a>(
    alloc: Global,
    names: &'a [String],
    name: &'a [u8],
    count: usize,
    target: &'a ObjectId,
) -> Result<Vec<Item<'a>>, AllocError> {
    let mut items = items_of(alloc, names, target)?;
    for _ in 0..count {
        items.push(item_of(name, target))?;
    }
    Ok(items)
}

// How many mappings specs have from left to right.
fn count_there(alloc: Global, specs: &[String], items: &[Item<'_>]) -> Result<usize, Fail> {
    let there = group_of(alloc, specs)?.match_lhs(alloc, items)?;
    Ok(there.mappings.len())
}

// Likewise from right to left.
fn count_back(alloc: Global, specs: &[String], items: &[Item<'_>]) -> Result<usize, Fail> {
    let back = group_of(alloc, specs)?.match_rhs(alloc, items)?;
    Ok(back.mappings.len())
}

// How many mappings so many patterns have from left to right, and as many turned ones from right to left.
fn counts(alloc: Global, count: usize, items: &[Item<'_>]) -> Result<(usize, usize), Fail> {
    let there = count_there(alloc, patterns(alloc, count)?.as_slice(), items)?;
    let back = count_back(alloc, turned_patterns(alloc, count)?.as_slice(), items)?;
    Ok((there, back))
}

#[test]
fn maps_one_name_listed_often(rt: HostRuntime) -> Result<(), Fail> {
    let alloc = rt.alloc();
    let target = target();
    let names = numbered(alloc, "refs/heads/", 299)?;
    let name = b"refs/heads/main";
    let items = repeated(alloc, names.as_slice(), name, 100_000, &target)?;
    assert_eq!(rt; counts(alloc, 20, items.as_slice())?, (6_000, 6_000));
    Ok(())
}

// A name of so many bytes.
fn long_name(alloc: Global, len: usize) -> Result<Vec<u8>, AllocError> {
    let mut name = Vec::new(alloc);
    name.extend_from_slice(b"refs/heads/")?;
    name.resize(len, b'a')?;
    Ok(name)
}

#[test]
fn maps_one_long_name_by_many_patterns(rt: HostRuntime) -> Result<(), Fail> {
    let alloc = rt.alloc();
    let target = target();
    let name = long_name(alloc, 16_000)?;
    let items = repeated(alloc, &[], name.as_slice(), 100, &target)?;
    assert_eq!(rt; counts(alloc, 100, items.as_slice())?, (100, 100));
    Ok(())
}

// So many patterns, each with a longer prefix than the one before it. The last prefix is left.
fn nested_patterns(
    alloc: Global,
    prefix: &mut String,
    count: usize,
) -> Result<Vec<String>, AllocError> {
    let mut specs = Vec::with_capacity(alloc, count)?;
    for number in 0..count {
        prefix.push_str("a/")?;
        specs.push(format!(in alloc; "{prefix}*:refs/{number:05}/*")?)?;
    }
    Ok(specs)
}

#[test]
fn maps_nested_prefixes(rt: HostRuntime) -> Result<(), Fail> {
    let alloc = rt.alloc();
    let target = target();
    let mut name = format!(in alloc; "refs/")?;
    let specs = nested_patterns(alloc, &mut name, 1_000)?;
    name.push('b')?;
    let items = repeated(alloc, &[], name.as_bytes(), 100, &target)?;
    let count = count_there(alloc, specs.as_slice(), items.as_slice())?;
    assert_eq!(rt; count, 1_000);
    Ok(())
}
