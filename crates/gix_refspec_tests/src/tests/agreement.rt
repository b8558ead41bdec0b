//! Both directions of matching agree on the names of two lists, where specs go both ways.

use super::mapping::{group_of, items_of, target};
use gix_refspec::match_group::{Item, Mapping, SourceRef, has_id_destination};
use gix_refspec::parsing::Operation;
use gix_refspec::{MatchGroup, laws};
use std::alloc::Global;
use std::process::Abort;
use std::test::Fail;

// Whether one of the items has the name.
fn has_name(items: &[Item<'_>], name: &[u8]) -> bool {
    items
        .iter()
        .any(|item: &Item<'_>| item.full_ref_name.as_bytes() == name)
}

// The pairs of mappings from these items to those, one a line.
fn pairs(
    alloc: Global,
    mappings: &[Mapping<'_, '_>],
    from: &[Item<'_>],
    to: &[Item<'_>],
) -> Result<String, Fail> {
    let mut text = String::new(alloc);
    for mapping in mappings {
        if let (SourceRef::FullName(source), Some(destination)) = (&mapping.lhs, &mapping.rhs) {
            let source = source.as_bstr();
            let destination = destination.as_bstr();
            if has_name(from, source.as_bytes()) && has_name(to, destination.as_bytes()) {
                writeln!(text, "{source} {destination}")?;
            }
        }
    }
    Ok(text)
}

// The pairs that a group maps from the left items to the right ones, and back.
fn pairs_of(
    alloc: Global,
    group: MatchGroup<'_>,
    left: &[Item<'_>],
    right: &[Item<'_>],
) -> Result<(String, String), Fail> {
    let there = group.match_lhs(alloc, left)?;
    let forward = pairs(alloc, there.mappings.as_slice(), left, right)?;
    let backward = pairs_back(alloc, there.group, left, right)?;
    Ok((forward, backward))
}

// The pairs that a group maps back.
fn pairs_back(
    alloc: Global,
    group: MatchGroup<'_>,
    left: &[Item<'_>],
    right: &[Item<'_>],
) -> Result<String, Fail> {
    let back = group.match_rhs(alloc, right)?;
    pairs(alloc, back.mappings.as_slice(), left, right)
}

// Specs, whether they go both ways, items on the left, items on the right, and the pairs of these that are mapped from
// left to right, and from right to left.
const ROWS: &[(&str, bool, &str, &str, &str, &str)] = &[
    (
        "refs/heads/*:refs/x/* refs/heads/a:refs/y/a ^refs/heads/b main",
        true,
        "refs/heads/a refs/heads/b refs/heads/a",
        "refs/x/a refs/x/b refs/y/a",
        "refs/heads/a refs/x/a\nrefs/heads/a refs/y/a\n",
        "refs/heads/a refs/x/a\nrefs/heads/a refs/y/a\n",
    ),
    (
        "main:refs/x/main",
        false,
        "refs/tags/main",
        "refs/x/main",
        "refs/tags/main refs/x/main\n",
        "",
    ),
    (
        "HEAD:refs/x/h",
        false,
        "HEAD",
        "refs/x/h",
        "HEAD refs/x/h\n",
        "",
    ),
    (
        "refs/heads/a:b",
        false,
        "refs/heads/a",
        "refs/tags/b",
        "",
        "refs/heads/a refs/tags/b\n",
    ),
    // One spec among others that doesn't.
    (
        "refs/heads/*:refs/x/* refs/heads/a:b ^refs/heads/c",
        false,
        "refs/heads/a",
        "refs/x/a",
        "refs/heads/a refs/x/a\n",
        "refs/heads/a refs/x/a\n",
    ),
];

// Whether specs go both ways, and map pairs from left to right and from right to left, as is written.
fn check(
    rt: &(impl Abort + AllocGlobal),
    specs: &str,
    left: &[Item<'_>],
    right: &[Item<'_>],
    wanted: (bool, &str, &str),
) -> Result<(), Fail> {
    let group = group_of(rt.alloc(), Operation::Fetch, specs)?;
    let goes = group.goes_both_ways();
    laws::transpose(&group, left, right);
    let (there, back) = pairs_of(rt.alloc(), group, left, right)?;
    assert_eq!(rt; (goes, there.as_str(), back.as_str()), wanted, "{specs}");
    Ok(())
}

#[test]
fn agrees_in_both_directions(rt: HostRuntime) -> Result<(), Fail> {
    let target = target();
    for (specs, both, left, right, forward, backward) in ROWS {
        let left = items_of(rt.alloc(), left, &target)?;
        let right = items_of(rt.alloc(), right, &target)?;
        let wanted = (*both, *forward, *backward);
        check(&rt, specs, left.as_slice(), right.as_slice(), wanted)?;
    }
    Ok(())
}

// Specs, and whether the destination of none is an object id.
const BY_NAME: &[(&str, bool)] = &[
    ("refs/heads/a:refs/x/a", true),
    ("refs/heads/a", true),
    ("^refs/heads/a refs/heads/*:refs/x/*", true),
    (
        "aaaaaaaaaaaaaaaaaaaaaaaaaaaaaaaaaaaaaaaa:refs/heads/a",
        true,
    ),
    ("refs/heads/a:aaaaaaaaaaaaaaaaaaaaaaaaaaaaaaaaaaaaaaa", true),
    (
        "refs/heads/a:aaaaaaaaaaaaaaaaaaaaaaaaaaaaaaaaaaaaaaaa",
        false,
    ),
    (
        "refs/heads/b:refs/x/b +refs/heads/a:AAAAAAAAAAAAAAAAAAAAAAAAAAAAAAAAAAAAAAAA",
        false,
    ),
];

#[test]
fn finds_ids_as_destinations(rt: HostRuntime) -> Result<(), Fail> {
    for (specs, none) in BY_NAME {
        let group = group_of(rt.alloc(), Operation::Fetch, specs)?;
        let found = group.specs.iter().any(|spec| has_id_destination(spec));
        assert_eq!(rt; (group.asks_for_no_id(), found), (*none, !none), "{specs}");
    }
    Ok(())
}
