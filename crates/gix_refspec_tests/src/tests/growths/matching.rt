//! Matching in both directions, clones of outcomes, and validation.

use super::super::mapping::{
    check_lines, check_match_lhs, check_match_rhs, group_of, items_of, lines, mapped, target,
};
use super::{answer_of, mark, marked, say_answered, say_refused};
use gix_refspec::MatchGroup;
use gix_refspec::match_group::validate::Refusal;
use gix_refspec::match_group::{Outcome, match_lhs};
use gix_refspec::parsing::Operation;
use std::process::Abort;
use std::test::Fail;

// Patterns, full and partial names and an id on both sides, repeats, and negative names and patterns.
const SPECS: &str =
    "refs/heads/*:refs/x/* refs/heads/a:refs/y/a v:refs/z/v v:w 1111111111111111111111111111111111111111:refs/i refs/heads/a:refs/y/a refs/q:u refs/tags/t:2222222222222222222222222222222222222222 ^refs/heads/n ^refs/heads/p*";
// Names that the left sides take, some twice; and names that the right sides take.
const LEFT: &str =
    "refs/heads/a refs/heads/n refs/heads/p1 refs/heads/a refs/heads/v refs/tags/v refs/q refs/heads/o";

const MAPPED: &str = "- 4 1111111111111111111111111111111111111111 refs/i\n\
    0 0 refs/heads/a =refs/x/a\n4 0 refs/heads/v =refs/x/v\n7 0 refs/heads/o =refs/x/o\n\
    0 1 refs/heads/a refs/y/a\n5 2 refs/tags/v refs/z/v\n5 3 refs/tags/v =refs/heads/w\n\
    6 6 refs/q =refs/heads/u\n";

const RIGHT: &str =
    "refs/x/a refs/y/a refs/x/n refs/z/v w refs/heads/w refs/tags/w refs/heads/u refs/x/a refs/i";

const TRACKED: &str = "0 0 =refs/heads/a refs/x/a\n1 1 refs/heads/a refs/y/a\n\
    3 2 =refs/heads/v refs/z/v\n4 3 =refs/heads/v w\n5 3 =refs/heads/v refs/heads/w\n\
    6 3 =refs/heads/v refs/tags/w\n9 4 =refs/heads/1111111111111111111111111111111111111111 refs/i\n\
    7 6 refs/q refs/heads/u\n";

// Looks whether a group has the specs.
fn check_specs(
    rt: &(impl Abort + AllocGlobal + Print),
    group: &MatchGroup<'_>,
) -> Result<(), Fail> {
    let given = group_of(rt.alloc(), Operation::Fetch, SPECS)?;
    assert!(rt; group.specs.as_slice() == given.specs.as_slice());
    Ok(())
}

// Says that a call answered, with the specs and with these mappings.
fn say_mapped<const FORWARD: bool>(
    rt: &(impl Abort + AllocGlobal + Print),
    outcome: &Outcome<'_, '_, '_, FORWARD>,
    wanted: &str,
) -> Result<(), Fail> {
    check_specs(rt, &outcome.group)?;
    check_lines(rt, outcome.mappings.as_slice(), wanted)?;
    say_answered(rt)
}

// Has the specs match items of these names by a call, from left to right or back. The group is the same
// after it, and if memory ran out it matches the same items at the next call.
macro_rules! check_matching {
    ($rt:expr, $call:ident, $check:ident, $names:expr, $wanted:expr) => {{
        let alloc = $rt.alloc();
        let target = target();
        let items = items_of(alloc, $names, &target)?;
        let group = group_of(alloc, Operation::Fetch, SPECS)?;
        match marked!(alloc, group.$call(alloc, items.as_slice())) {
            Ok(outcome) => say_mapped($rt, &outcome, $wanted),
            Err(refused) => {
                check_specs($rt, &refused.group)?;
                $check($rt, refused.group, items.as_slice(), $wanted)?;
                say_refused($rt)
            }
        }
    }};
}

#[test]
fn maps_from_left_to_right(rt: HostRuntime) -> Result<(), Fail> {
    check_matching!(&rt, match_lhs, check_match_lhs, LEFT, MAPPED)
}

// Whether the specs map items of these names back as is written.
fn check_back(
    rt: &(impl Abort + AllocGlobal + Print),
    names: &str,
    wanted: &str,
) -> Result<(), Fail> {
    check_matching!(rt, match_rhs, check_match_rhs, names, wanted)
}

#[test]
fn maps_from_right_to_left(rt: HostRuntime) -> Result<(), Fail> {
    check_back(&rt, RIGHT, TRACKED)
}

// No name is that of a destination, or a candidate of one.
#[test]
fn maps_nothing(rt: HostRuntime) -> Result<(), Fail> {
    check_back(&rt, "refs/notes/a refs/notes/b", "")
}

#[test]
fn clones_outcomes(rt: HostRuntime) -> Result<(), Fail> {
    let alloc = rt.alloc();
    let target = target();
    let outcome = mapped(alloc, SPECS, LEFT, &target)?;
    if let Some(copy) = answer_of(&rt, marked!(alloc, outcome.clone(alloc)))? {
        check_lines(&rt, copy.mappings.as_slice(), MAPPED)?;
    }
    Ok(())
}

// Says that memory ran out for a call, which left an outcome as it was: of so many specs, and with these
// mappings.
fn say_left(
    rt: &(impl Abort + AllocGlobal + Print),
    outcome: &match_lhs::Outcome<'_, '_>,
    specs: usize,
    mappings: &str,
) -> Result<(), Fail> {
    assert_eq!(rt; outcome.group.specs.len(), specs);
    check_lines(rt, outcome.mappings.as_slice(), mappings)?;
    say_refused(rt)
}

#[test]
fn validates_and_fixes(rt: HostRuntime) -> Result<(), Fail> {
    let alloc = rt.alloc();
    let target = target();
    let specs = "refs/heads/*:foo/* +refs/heads/*:refs/x/*";
    let given = mapped(alloc, specs, "refs/heads/a refs/heads/b", &target)?;
    let before = lines(alloc, given.mappings.as_slice())?;
    assert!(&rt; given.indexes_fit());
    match marked!(alloc, given.validated(alloc)) {
        Ok((left, fixes)) => {
            let wanted = "0 1 refs/heads/a =refs/x/a\n1 1 refs/heads/b =refs/x/b\n";
            check_lines(&rt, left.mappings.as_slice(), wanted)?;
            assert_eq!(&rt; fixes.len(), 2);
            say_answered(&rt)
        }
        Err(Refusal::Memory(outcome)) => say_left(&rt, &outcome, 2, before.as_str()),
        Err(refusal) => Err(refusal.into()),
    }
}

#[test]
fn leaves_bad_names_out(rt: HostRuntime) -> Result<(), Fail> {
    let alloc = rt.alloc();
    let target = target();
    let names = "refs/heads/a refs/heads/../b refs/heads/c.";
    let given = mapped(alloc, "refs/heads/*:refs/x/*", names, &target)?;
    let before = lines(alloc, given.mappings.as_slice())?;
    match marked!(alloc, given.without_invalid_names(alloc)) {
        Ok((left, bad)) => {
            let wanted = "0 0 refs/heads/a =refs/x/a\n";
            check_lines(&rt, left.mappings.as_slice(), wanted)?;
            assert_eq!(&rt; bad.len(), 2);
            say_answered(&rt)
        }
        Err(refused) => say_left(&rt, &refused.outcome, 1, before.as_str()),
    }
}

#[test]
fn validates_and_reports(rt: HostRuntime) -> Result<(), Fail> {
    let alloc = rt.alloc();
    let target = target();
    let specs = "refs/heads/*:refs/x/* refs/tags/*:refs/x/*";
    let given = mapped(alloc, specs, "refs/heads/a refs/tags/a", &target)?;
    let before = lines(alloc, given.mappings.as_slice())?;
    assert!(&rt; given.indexes_fit());
    match marked!(alloc, given.validated(alloc)) {
        Err(Refusal::Conflicts(error)) => {
            assert_eq!(&rt; error.issues.len(), 1);
            say_answered(&rt)
        }
        Err(Refusal::Memory(outcome)) => say_left(&rt, &outcome, 2, before.as_str()),
        Ok(_) => Err("no conflict".into()),
    }
}
