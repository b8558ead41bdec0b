//! Names, groups and outcomes that no tool makes, and how long what a call answers lives.

use super::mapping::{
    Direction, check, check_forward, check_lines, check_match_lhs, group_of, item_of, items_of,
    mapped, target,
};
use bstr::BStr;
use gix_refspec::match_group::{Mapping, NameRef, Outcome, match_lhs, match_rhs};
use gix_refspec::oid::ObjectId;
use gix_refspec::parsing::Operation;
use gix_refspec::{MatchGroup, parse};
use std::alloc::{AllocError, Global};
use std::process::Abort;
use std::test::Fail;

#[test]
fn maps_names_of_any_bytes(rt: HostRuntime) -> Result<(), Fail> {
    const ROWS: &[(&str, &str, &str)] = &[
        // The ends of a pattern don't overlap.
        (
            "refs/heads/aba*aba:refs/x/*",
            "refs/heads/aba refs/heads/ababa refs/heads/abaaba refs/heads/aba-aba",
            "2 0 refs/heads/abaaba =refs/x/\n3 0 refs/heads/aba-aba =refs/x/-\n",
        ),
        (
            "refs/heads/*:refs/x/* ^refs/heads/a*a",
            "refs/heads/a refs/heads/aa",
            "0 0 refs/heads/a =refs/x/a\n",
        ),
        (
            "refs/heads/*:refs/x/*",
            "refs/heads/*",
            "0 0 refs/heads/* =refs/x/*\n",
        ),
        // The empty name.
        ("*:refs/x/*", "", "0 0  =refs/x/\n"),
    ];
    check_forward(&rt, ROWS)
}

#[test]
fn maps_names_that_are_no_text(rt: HostRuntime) -> Result<(), Fail> {
    let alloc = rt.alloc();
    let target = target();
    let items = [item_of(b"refs/heads/\xff\x00", &target)];
    let group = group_of(alloc, Operation::Fetch, "refs/heads/*:refs/x/*")?;
    let outcome = group.match_lhs(alloc, &items)?;
    let mapping = outcome.mappings.first().ok_or("no mapping")?;
    let destination = mapping.rhs.as_ref().ok_or("no destination")?;
    assert_eq!(rt;
        destination.as_bstr().as_bytes(),
        b"refs/x/\xff\x00".as_slice()
    );
    Ok(())
}

#[test]
fn maps_groups_made_by_hand(rt: HostRuntime) -> Result<(), Fail> {
    let alloc = rt.alloc();
    let target = target();
    // A fetch that a negative push leaves something out of.
    let negative = parse(alloc, BStr::new(b"^refs/heads/a"), Operation::Push)?;
    let mut group = group_of(alloc, Operation::Fetch, "refs/heads/*:refs/x/*")?;
    group.specs.push(negative)?;
    let items = [
        item_of(b"refs/heads/a", &target),
        item_of(b"refs/heads/b", &target),
    ];
    check_match_lhs(&rt, group, &items, "1 0 refs/heads/b =refs/x/b\n")
}

// What deletes, and all matching branches, in either direction.
#[test]
fn maps_nothing_without_a_side(rt: HostRuntime) -> Result<(), Fail> {
    const ROWS: &[(&str, &str, &str)] = &[(":x :", "refs/heads/x", "")];
    check(&rt, Direction::Forward, Operation::Push, ROWS)?;
    check(&rt, Direction::Backward, Operation::Push, ROWS)
}

#[test]
fn needs_no_spec_without_mappings(rt: HostRuntime) {
    let alloc = rt.alloc();
    let empty = match_lhs::Outcome {
        group: MatchGroup::new(alloc),
        mappings: Vec::new(alloc),
    };
    assert!(rt; empty.indexes_fit());
}

// A clone of an outcome that ends here, and so of its mappings and names.
fn cloned<'s, 'l, 'r, const FORWARD: bool>(
    alloc: Global,
    outcome: Outcome<'s, 'l, 'r, FORWARD>,
) -> Result<Outcome<'s, 'l, 'r, FORWARD>, AllocError> {
    outcome.clone(alloc)
}

// A clone of a mapping that ends here.
fn cloned_mapping<'l, 'r>(
    alloc: Global,
    mapping: Mapping<'l, 'r>,
) -> Result<Mapping<'l, 'r>, AllocError> {
    mapping.clone(alloc)
}

// A clone of a name that ends here.
fn cloned_name<'n>(alloc: Global, name: NameRef<'n>) -> Result<NameRef<'n>, AllocError> {
    name.clone(alloc)
}

// The destination of a mapping that ends here, by a clone of the mapping and one of the name.
fn cloned_destination<'l, 'r>(
    alloc: Global,
    mapping: Mapping<'l, 'r>,
) -> Result<NameRef<'r>, Fail> {
    let copy = cloned_mapping(alloc, mapping)?;
    let name = copy.rhs.ok_or("no destination")?;
    Ok(cloned_name(alloc, name)?)
}

// Two specs, of which the first fills a name, and the second hands one on.
const FILLED_AND_BORROWED: &str = "refs/heads/*:refs/x/* refs/heads/a:refs/y/a";

// What they map `refs/heads/a` to.
const BOTH: &str = "0 0 refs/heads/a =refs/x/a\n0 1 refs/heads/a refs/y/a\n";

#[test]
fn answers_outlive_lists_and_what_they_are_clones_of(rt: HostRuntime) -> Result<(), Fail> {
    let alloc = rt.alloc();
    let target = target();
    let there = mapped(alloc, FILLED_AND_BORROWED, "refs/heads/a", &target)?;
    let there = cloned(alloc, there)?;
    check_lines(&rt, there.mappings.as_slice(), BOTH)?;
    check_first(&rt, there.mappings.as_slice())
}

// Looks whether the first mapping's destination is the filled name, after clones of both have ended.
fn check_first(rt: &(impl Abort + AllocGlobal), mappings: &[Mapping<'_, '_>]) -> Result<(), Fail> {
    let first = mappings.first().ok_or("no mapping")?;
    let name = cloned_destination(rt.alloc(), first.clone(rt.alloc())?)?;
    assert_eq!(rt; name.as_bstr().as_bytes(), b"refs/x/a".as_slice());
    Ok(())
}

// What the two specs map back over a list of items that ends here.
fn mapped_back<'i>(
    alloc: Global,
    names: &'i str,
    target: &'i ObjectId,
) -> Result<match_rhs::Outcome<'static, 'i>, Fail> {
    let items = items_of(alloc, names, target)?;
    Ok(group_of(alloc, Operation::Fetch, FILLED_AND_BORROWED)?.match_rhs(alloc, items.as_slice())?)
}

#[test]
fn answers_from_right_to_left_outlive_lists(rt: HostRuntime) -> Result<(), Fail> {
    let alloc = rt.alloc();
    let target = target();
    let back = mapped_back(alloc, "refs/x/a refs/y/a", &target)?;
    let back = cloned(alloc, back)?;
    let wanted = "0 0 =refs/heads/a refs/x/a\n1 1 refs/heads/a refs/y/a\n";
    check_lines(&rt, back.mappings.as_slice(), wanted)
}

// A validation hands the names on as they were, borrowed or owned.
#[test]
fn validations_hand_names_on(rt: HostRuntime) -> Result<(), Fail> {
    let alloc = rt.alloc();
    let target = target();
    let there = mapped(alloc, FILLED_AND_BORROWED, "refs/heads/a", &target)?;
    assert!(rt; there.indexes_fit());
    let (left, fixes) = there.validated(alloc)?;
    assert!(rt; fixes.is_empty());
    check_lines(&rt, left.mappings.as_slice(), BOTH)
}
