//! What groups match.

use bstr::BStr;
use gix_refspec::match_group::{Item, Mapping, NameRef, Outcome, SourceRef, match_lhs};
use gix_refspec::oid::{Kind, ObjectId};
use gix_refspec::parsing::Operation;
use gix_refspec::{MatchGroup, parse};
use std::alloc::{AllocError, Global};
use std::process::Abort;
use std::test::Fail;

// The digits of what items point to.
const TARGET: &str = "1111111111111111111111111111111111111111";

// What items point to. `TARGET` is an id, so this is never the null one.
pub(super) fn target() -> ObjectId {
    ObjectId::from_hex(TARGET.as_bytes()).unwrap_or(ObjectId::null(Kind::Sha1))
}

// From which side specs are matched.
#[derive(Clone, Copy)]
pub(super) enum Direction {
    // From the left one.
    Forward,
    // From the right one.
    Backward,
}

// The group of these specs, one a word.
pub(super) fn group_of<'a>(
    alloc: Global,
    operation: Operation,
    specs: &'a str,
) -> Result<MatchGroup<'a>, Fail> {
    let mut group = MatchGroup::new(alloc);
    for spec in specs.split(' ') {
        group
            .specs
            .push(parse(alloc, BStr::new(spec.as_bytes()), operation)?)?;
    }
    Ok(group)
}

// The item of a name.
pub(super) fn item_of<'a>(name: &'a [u8], target: &'a ObjectId) -> Item<'a> {
    Item {
        full_ref_name: BStr::new(name),
        target,
        object: None,
    }
}

// Items with these names, one a word.
pub(super) fn items_of<'a>(
    alloc: Global,
    names: &'a str,
    target: &'a ObjectId,
) -> Result<Vec<Item<'a>>, AllocError> {
    let mut items = Vec::new(alloc);
    for name in names.split(' ') {
        items.push(item_of(name.as_bytes(), target))?;
    }
    Ok(items)
}

// What rows write before a name: a `=` if it is owned.
fn mark_of(name: &NameRef<'_>) -> &'static str {
    match name {
        NameRef::Borrowed(_) => "",
        NameRef::Owned(_) => "=",
    }
}

// Adds a mapping as rows write it: the indexes of item and spec, source and destination, with `-` for
// what is missing and a `=` before a name that is owned.
pub(super) fn add_line(text: &mut String, mapping: &Mapping<'_, '_>) -> Result<(), AllocError> {
    let spec = mapping.spec_index;
    let source = &mapping.lhs;
    let mark = match source {
        SourceRef::FullName(name) => mark_of(name),
        SourceRef::ObjectId(_) => "",
    };
    match mapping.item_index {
        None => write!(text, "- {spec} {mark}{source} ")?,
        Some(item) => write!(text, "{item} {spec} {mark}{source} ")?,
    }
    match &mapping.rhs {
        None => writeln!(text, "-"),
        Some(name) => writeln!(text, "{}{}", mark_of(name), name.as_bstr()),
    }
}

// Adds `source:destination`, or `source` without a destination.
pub(super) fn add_pair(text: &mut String, mapping: &Mapping<'_, '_>) -> Result<(), AllocError> {
    let source = &mapping.lhs;
    match &mapping.rhs {
        None => writeln!(text, "{source}"),
        Some(name) => writeln!(text, "{source}:{}", name.as_bstr()),
    }
}

// Mappings as rows write them, one a line.
pub(super) fn lines(alloc: Global, mappings: &[Mapping<'_, '_>]) -> Result<String, AllocError> {
    let mut text = String::new(alloc);
    for mapping in mappings {
        add_line(&mut text, mapping)?;
    }
    Ok(text)
}

// Whether mappings are as rows write them.
pub(super) fn check_lines(
    rt: &(impl Abort + AllocGlobal),
    mappings: &[Mapping<'_, '_>],
    wanted: &str,
) -> Result<(), Fail> {
    let found = lines(rt.alloc(), mappings)?;
    assert_eq!(rt; found.as_str(), wanted);
    Ok(())
}

// Whether a group maps items from left to right as rows write it.
pub(super) fn check_match_lhs(
    rt: &(impl Abort + AllocGlobal),
    group: MatchGroup<'_>,
    items: &[Item<'_>],
    wanted: &str,
) -> Result<(), Fail> {
    let outcome = group.match_lhs(rt.alloc(), items)?;
    check_lines(rt, outcome.mappings.as_slice(), wanted)
}

// Likewise from right to left.
pub(super) fn check_match_rhs(
    rt: &(impl Abort + AllocGlobal),
    group: MatchGroup<'_>,
    items: &[Item<'_>],
    wanted: &str,
) -> Result<(), Fail> {
    let outcome = group.match_rhs(rt.alloc(), items)?;
    check_lines(rt, outcome.mappings.as_slice(), wanted)
}

// What fetches map over a list of items that ends here, from left to right. It borrows the specs and the
// names.
pub(super) fn mapped<'s, 'i>(
    alloc: Global,
    specs: &'s str,
    names: &'i str,
    target: &'i ObjectId,
) -> Result<match_lhs::Outcome<'s, 'i>, Fail> {
    let items = items_of(alloc, names, target)?;
    Ok(group_of(alloc, Operation::Fetch, specs)?.match_lhs(alloc, items.as_slice())?)
}

// Whether fetches map items from left to right as is written beside them.
pub(super) fn check_forward(
    rt: &(impl Abort + AllocGlobal),
    rows: &[(&str, &str, &str)],
) -> Result<(), Fail> {
    check(rt, Direction::Forward, Operation::Fetch, rows)
}

// Likewise from right to left.
pub(super) fn check_backward(
    rt: &(impl Abort + AllocGlobal),
    rows: &[(&str, &str, &str)],
) -> Result<(), Fail> {
    check(rt, Direction::Backward, Operation::Fetch, rows)
}

// Whether specs map items as is written beside them, and a copy of the outcome says the same.
pub(super) fn check(
    rt: &(impl Abort + AllocGlobal),
    direction: Direction,
    operation: Operation,
    rows: &[(&str, &str, &str)],
) -> Result<(), Fail> {
    let alloc = rt.alloc();
    for (specs, names, wanted) in rows {
        let group = group_of(alloc, operation, specs)?;
        let (found, copied) = in_direction(alloc, direction, group, names)?;
        assert_eq!(rt;
            (found.as_str(), copied.as_str()),
            (*wanted, *wanted),
            "{specs} over {names}"
        );
    }
    Ok(())
}

// What a group maps items of these names to in a direction, and a copy of the outcome, as rows write
// them.
fn in_direction(
    alloc: Global,
    direction: Direction,
    group: MatchGroup<'_>,
    names: &str,
) -> Result<(String, String), Fail> {
    let target = target();
    let items = items_of(alloc, names, &target)?;
    match direction {
        Direction::Forward => with_copy(alloc, &group.match_lhs(alloc, items.as_slice())?),
        Direction::Backward => with_copy(alloc, &group.match_rhs(alloc, items.as_slice())?),
    }
}

// The mappings of an outcome, and of a copy of it, as rows write them.
fn with_copy<const FORWARD: bool>(
    alloc: Global,
    outcome: &Outcome<'_, '_, '_, FORWARD>,
) -> Result<(String, String), Fail> {
    let copy = outcome.clone(alloc)?;
    Ok((
        lines(alloc, outcome.mappings.as_slice())?,
        lines(alloc, copy.mappings.as_slice())?,
    ))
}

#[test]
fn maps_from_left_to_right(rt: HostRuntime) -> Result<(), Fail> {
    const ROWS: &[(&str, &str, &str)] = &[
        (
            "refs/heads/a*a:refs/x/b*",
            "refs/heads/a refs/heads/aa",
            "1 0 refs/heads/aa =refs/x/b\n",
        ),
        (
            "refs/heads/*:refs/remotes/origin/* ^refs/heads/x* ^main",
            "refs/heads/main refs/heads/x1 refs/heads/main",
            "0 0 refs/heads/main =refs/remotes/origin/main\n",
        ),
        (
            "refs/heads/a:refs/y/a AAAAAAAAAAAAAAAAAAAAAAAAAAAAAAAAAAAAAAAA:x",
            "refs/heads/a",
            "- 1 aaaaaaaaaaaaaaaaaaaaaaaaaaaaaaaaaaaaaaaa =refs/heads/x\n0 0 refs/heads/a refs/y/a\n",
        ),
        (
            "AAAAAAAAAAAAAAAAAAAAAAAAAAAAAAAAAAAAAAAA:refs/heads/x ^refs/heads/aaaaaaaaaaaaaaaaaaaaaaaaaaaaaaaaaaaaaaaa",
            "refs/heads/x",
            "- 0 aaaaaaaaaaaaaaaaaaaaaaaaaaaaaaaaaaaaaaaa refs/heads/x\n",
        ),
        // By spec, and for each by item.
        (
            "refs/heads/*:refs/x/* refs/tags/*:refs/y/*",
            "refs/tags/b refs/heads/b refs/tags/a refs/heads/a",
            "1 0 refs/heads/b =refs/x/b\n3 0 refs/heads/a =refs/x/a\n\
             0 1 refs/tags/b =refs/y/b\n2 1 refs/tags/a =refs/y/a\n",
        ),
        // The ids are first. One that an item points to doesn't map this item.
        (
            "refs/heads/*:refs/x/* 1111111111111111111111111111111111111111:refs/a aaaaaaaaaaaaaaaaaaaaaaaaaaaaaaaaaaaaaaaa",
            "refs/heads/b refs/a",
            "- 1 1111111111111111111111111111111111111111 refs/a\n\
             - 2 aaaaaaaaaaaaaaaaaaaaaaaaaaaaaaaaaaaaaaaa -\n\
             0 0 refs/heads/b =refs/x/b\n",
        ),
        (
            "refs/heads/a*b/c:refs/x/d*e/f",
            "refs/heads/ab/c refs/heads/axyb/c refs/heads/axb/cc xrefs/heads/axb/c refs/heads/axb/",
            "0 0 refs/heads/ab/c =refs/x/de/f\n1 0 refs/heads/axyb/c =refs/x/dxye/f\n",
        ),
        // The ends of a pattern don't overlap where it excludes either.
        (
            "refs/heads/*:refs/x/* ^refs/heads/a*a ^refs/heads/c",
            "refs/heads/a refs/heads/aa refs/heads/aba refs/heads/ab refs/heads/c refs/heads/cc",
            "0 0 refs/heads/a =refs/x/a\n3 0 refs/heads/ab =refs/x/ab\n5 0 refs/heads/cc =refs/x/cc\n",
        ),
        (
            "HEAD:refs/x heads/HEAD:refs/y ^@",
            "HEAD refs/heads/HEAD",
            "1 1 refs/heads/HEAD refs/y\n",
        ),
    ];
    check_forward(&rt, ROWS)
}

#[test]
fn keeps_each_pair_once(rt: HostRuntime) -> Result<(), Fail> {
    const ROWS: &[(&str, &str, &str)] = &[
        // A pair is a source and a destination, and its first mapping stays.
        (
            "refs/heads/a refs/heads/a:refs/x refs/heads/a:refs/y refs/heads/b:refs/x +refs/heads/a:refs/x",
            "refs/heads/b refs/heads/a refs/heads/a",
            "1 0 refs/heads/a -\n1 1 refs/heads/a refs/x\n1 2 refs/heads/a refs/y\n0 3 refs/heads/b refs/x\n",
        ),
        // A matcher that told names apart by a 64-bit hash would take these for one.
        (
            "refs/heads/*:refs/x/*",
            "refs/heads/ce9518687c2ca417 refs/heads/4b2c557329ca4bff",
            "0 0 refs/heads/ce9518687c2ca417 =refs/x/ce9518687c2ca417\n\
             1 0 refs/heads/4b2c557329ca4bff =refs/x/4b2c557329ca4bff\n",
        ),
    ];
    check_forward(&rt, ROWS)
}

// Specs, names of which some repeat, and what is mapped from left to right.
const REPEATED: &[(&str, &str, &str)] = &[
    // Each spec takes the first item of a name, and indexes are those among all items.
    (
        "refs/heads/*:refs/x/* refs/heads/a:refs/y b:refs/z",
        "refs/tags/b refs/heads/b refs/tags/b refs/heads/a refs/heads/b refs/heads/a refs/heads/c",
        "1 0 refs/heads/b =refs/x/b\n3 0 refs/heads/a =refs/x/a\n6 0 refs/heads/c =refs/x/c\n\
         3 1 refs/heads/a refs/y\n0 2 refs/tags/b refs/z\n",
    ),
    (
        "refs/heads/*:refs/x/* ^refs/heads/a",
        "refs/heads/a refs/heads/a refs/heads/b refs/heads/b",
        "2 0 refs/heads/b =refs/x/b\n",
    ),
    (
        "AAAAAAAAAAAAAAAAAAAAAAAAAAAAAAAAAAAAAAAA:refs/a refs/heads/*:refs/x/*",
        "refs/tags/a refs/tags/a refs/heads/a refs/heads/a",
        "- 0 aaaaaaaaaaaaaaaaaaaaaaaaaaaaaaaaaaaaaaaa refs/a\n2 1 refs/heads/a =refs/x/a\n",
    ),
    // More mappings than items, though no name repeats.
    (
        "refs/heads/*:refs/x/* refs/heads/*:refs/y/* refs/heads/*:refs/x/*",
        "refs/heads/a",
        "0 0 refs/heads/a =refs/x/a\n0 1 refs/heads/a =refs/y/a\n",
    ),
    // Two names of one 64-bit hash, each of them twice.
    (
        "refs/heads/*:refs/x/*",
        "refs/heads/ce9518687c2ca417 refs/heads/4b2c557329ca4bff refs/heads/ce9518687c2ca417 refs/heads/4b2c557329ca4bff",
        "0 0 refs/heads/ce9518687c2ca417 =refs/x/ce9518687c2ca417\n\
         1 0 refs/heads/4b2c557329ca4bff =refs/x/4b2c557329ca4bff\n",
    ),
];

// Likewise from right to left.
const REPEATED_BACK: &[(&str, &str, &str)] = &[
    (
        "refs/heads/*:refs/x/* refs/tags/main:refs/x/main refs/q:main",
        "refs/z refs/x/main refs/x/main refs/heads/main refs/z refs/main refs/heads/main",
        "1 0 =refs/heads/main refs/x/main\n1 1 refs/tags/main refs/x/main\n\
         3 2 refs/q refs/heads/main\n5 2 refs/q refs/main\n",
    ),
    // An id takes items by what they point to.
    (
        "main:1111111111111111111111111111111111111111 refs/heads/*:refs/x/*",
        "refs/a refs/x/b refs/a refs/x/b",
        "0 0 =refs/heads/main refs/a\n1 0 =refs/heads/main refs/x/b\n1 1 =refs/heads/b refs/x/b\n",
    ),
];

#[test]
fn maps_repeated_names_once(rt: HostRuntime) -> Result<(), Fail> {
    check_forward(&rt, REPEATED)?;
    check_backward(&rt, REPEATED_BACK)
}

// Of specs with the same sides the first one maps, forced or not. Of the others each maps what it did.
const EQUAL: &[(&str, &str, &str)] = &[
    (
        "refs/heads/*:refs/x/* ^refs/heads/b +refs/heads/*:refs/x/* refs/heads/*:refs/y/* refs/heads/*:refs/y/*",
        "refs/heads/a refs/heads/b refs/heads/c",
        "0 0 refs/heads/a =refs/x/a\n2 0 refs/heads/c =refs/x/c\n0 3 refs/heads/a =refs/y/a\n2 3 refs/heads/c =refs/y/c\n",
    ),
    (
        "main:refs/x refs/heads/main:refs/x main:refs/y main:refs/x refs/tags/main:refs/y main:refs/y",
        "refs/heads/main refs/tags/main",
        "1 0 refs/tags/main refs/x\n0 1 refs/heads/main refs/x\n1 2 refs/tags/main refs/y\n",
    ),
];

// Likewise from right to left.
const EQUAL_BACK: &[(&str, &str, &str)] = &[(
    "refs/heads/*:refs/x/* refs/tags/*:refs/x/* +refs/heads/*:refs/x/* refs/tags/*:refs/x/*",
    "refs/x/a refs/y/a refs/x/b",
    "0 0 =refs/heads/a refs/x/a\n2 0 =refs/heads/b refs/x/b\n0 1 =refs/tags/a refs/x/a\n2 1 =refs/tags/b refs/x/b\n",
)];

#[test]
fn maps_equal_specs_once(rt: HostRuntime) -> Result<(), Fail> {
    check_forward(&rt, EQUAL)?;
    check_backward(&rt, EQUAL_BACK)
}

// Two items of one name, of which the second one points to the id that is asked for.
#[test]
fn takes_the_item_that_points_to_an_id(rt: HostRuntime) -> Result<(), Fail> {
    let target = target();
    let other = ObjectId::from_hex(b"2222222222222222222222222222222222222222")?;
    let items = [
        item_of(b"refs/a", &other),
        item_of(b"refs/a", &other),
        item_of(b"refs/a", &target),
    ];
    let specs = "main:1111111111111111111111111111111111111111";
    let group = group_of(rt.alloc(), Operation::Fetch, specs)?;
    check_match_rhs(&rt, group, &items, "2 0 =refs/heads/main refs/a\n")
}

#[test]
fn looks_full_and_partial_names_up(rt: HostRuntime) -> Result<(), Fail> {
    const FORWARD: &[(&str, &str, &str)] = &[
        (
            "refs/heads/main",
            "refs/heads/main2 refs/heads/mai refs/refs/heads/main heads/main refs/heads/main",
            "4 0 refs/heads/main -\n",
        ),
        (
            "refs/heads/b:refs/x/b refs/heads/a:refs/x/a refs/heads/c:refs/x/c main:refs/y refs/heads/b",
            "refs/heads/a refs/heads/main refs/heads/b main",
            "2 0 refs/heads/b refs/x/b\n0 1 refs/heads/a refs/x/a\n3 3 main refs/y\n2 4 refs/heads/b -\n",
        ),
    ];
    check_forward(&rt, FORWARD)?;
    const BACKWARD: &[(&str, &str, &str)] = &[
        (
            "refs/heads/main:refs/q",
            "refs/r refs/q refs/q",
            "1 0 refs/heads/main refs/q\n",
        ),
        // By item, whichever candidate of a partial name it is.
        (
            "refs/heads/main:main",
            "refs/heads/main main",
            "0 0 refs/heads/main refs/heads/main\n1 0 refs/heads/main main\n",
        ),
        // The six names that a partial one may stand for, and names near them.
        (
            "refs/q:main",
            "xmain main/HEAD refs/remotes/main/HEAD refs/remotes/main refs/heads/main refs/tags/main refs/main main refs/heads/main/HEAD refs/x/main heads/main",
            "2 0 refs/q refs/remotes/main/HEAD\n3 0 refs/q refs/remotes/main\n4 0 refs/q refs/heads/main\n\
             5 0 refs/q refs/tags/main\n6 0 refs/q refs/main\n7 0 refs/q main\n",
        ),
        // One partial name is another with a folder before it, and each name is taken by both or by one.
        (
            "refs/a:heads/x refs/b:x",
            "refs/refs/heads/x refs/heads/x refs/remotes/x/HEAD refs/heads/heads/x heads/x",
            "1 0 refs/a refs/heads/x\n3 0 refs/a refs/heads/heads/x\n4 0 refs/a heads/x\n\
             1 1 refs/b refs/heads/x\n2 1 refs/b refs/remotes/x/HEAD\n",
        ),
    ];
    check_backward(&rt, BACKWARD)
}

// Specs whose source is partial, names of items, and what is mapped from left to right.
const FIRST: &[(&str, &str, &str)] = &[
    // The tag, wherever it is listed.
    (
        "main:refs/remotes/origin/main",
        "refs/tags/main refs/heads/main",
        "0 0 refs/tags/main refs/remotes/origin/main\n",
    ),
    (
        "main:refs/x/main",
        "refs/heads/main refs/tags/main",
        "1 0 refs/tags/main refs/x/main\n",
    ),
    // Of the six names each where those before it are missing, among names near them.
    (
        "main",
        "xmain main/HEAD refs/remotes/main/HEAD refs/remotes/main refs/heads/main refs/tags/main refs/main main refs/heads/main/HEAD",
        "7 0 main -\n",
    ),
    (
        "main",
        "refs/x/main refs/remotes/main/HEAD refs/remotes/main refs/heads/main refs/tags/main refs/main heads/main",
        "5 0 refs/main -\n",
    ),
    (
        "main",
        "refs/remotes/main/HEAD refs/remotes/main refs/heads/main refs/tags/main",
        "3 0 refs/tags/main -\n",
    ),
    (
        "main",
        "refs/remotes/main/HEAD refs/remotes/main refs/heads/main",
        "2 0 refs/heads/main -\n",
    ),
    (
        "main",
        "refs/remotes/main/HEAD refs/remotes/main",
        "1 0 refs/remotes/main -\n",
    ),
    (
        "x:refs/y",
        "refs/remotes/x/HEAD",
        "0 0 refs/remotes/x/HEAD refs/y\n",
    ),
    ("main", "xmain main/HEAD refs/x/main heads/main", ""),
    ("HEAD", "refs/heads/HEAD HEAD", "1 0 HEAD -\n"),
    (
        "main:refs/x/main",
        "refs/heads/main main refs/tags/main refs/heads/main",
        "1 0 main refs/x/main\n",
    ),
    // Of equal names the first is kept.
    (
        "main",
        "refs/heads/main refs/heads/main",
        "0 0 refs/heads/main -\n",
    ),
    // Where the first one is excluded, none of the others is taken.
    (
        "main:refs/x/main ^refs/tags/main",
        "refs/tags/main refs/heads/main",
        "",
    ),
    // One partial name is another with a folder before it.
    (
        "heads/x:refs/y/a x:refs/y/b",
        "refs/refs/heads/x refs/remotes/x/HEAD refs/heads/heads/x refs/heads/x",
        "3 0 refs/heads/x refs/y/a\n3 1 refs/heads/x refs/y/b\n",
    ),
    // Each spec by itself.
    (
        "main:refs/x/a main:refs/x/b",
        "refs/heads/main refs/tags/main",
        "1 0 refs/tags/main refs/x/a\n1 1 refs/tags/main refs/x/b\n",
    ),
];

// So many patterns that they are looked up by what is before their stars. The indexes of items and
// specs follow from the names, by hand.
#[test]
fn looks_patterns_up(rt: HostRuntime) -> Result<(), Fail> {
    const FORWARD: &[(&str, &str, &str)] = &[(
        "refs/heads/a*:refs/x0/* refs/heads/ab*:refs/x1/* refs/heads/a/*:refs/x2/* refs/heads/*:refs/x3/* \
         refs/*:refs/x4/* refs/heads/a*b:refs/x5/* *:refs/x6/* refs/heads/abc*c:refs/x7/* \
         refs/tags/*:refs/x8/* refs/heads/b*:refs/x9/*",
        "refs/heads/abc refs/heads/a refs/tags/a refs/heads/a/b refs/heads/ab refs/heads/abcc HEAD refs/heads/b refs/head",
        "0 0 refs/heads/abc =refs/x0/bc\n1 0 refs/heads/a =refs/x0/\n3 0 refs/heads/a/b =refs/x0//b\n\
         4 0 refs/heads/ab =refs/x0/b\n5 0 refs/heads/abcc =refs/x0/bcc\n\
         0 1 refs/heads/abc =refs/x1/c\n4 1 refs/heads/ab =refs/x1/\n5 1 refs/heads/abcc =refs/x1/cc\n\
         3 2 refs/heads/a/b =refs/x2/b\n\
         0 3 refs/heads/abc =refs/x3/abc\n1 3 refs/heads/a =refs/x3/a\n3 3 refs/heads/a/b =refs/x3/a/b\n\
         4 3 refs/heads/ab =refs/x3/ab\n5 3 refs/heads/abcc =refs/x3/abcc\n7 3 refs/heads/b =refs/x3/b\n\
         0 4 refs/heads/abc =refs/x4/heads/abc\n1 4 refs/heads/a =refs/x4/heads/a\n\
         2 4 refs/tags/a =refs/x4/tags/a\n3 4 refs/heads/a/b =refs/x4/heads/a/b\n\
         4 4 refs/heads/ab =refs/x4/heads/ab\n5 4 refs/heads/abcc =refs/x4/heads/abcc\n\
         7 4 refs/heads/b =refs/x4/heads/b\n8 4 refs/head =refs/x4/head\n\
         3 5 refs/heads/a/b =refs/x5//\n4 5 refs/heads/ab =refs/x5/\n\
         0 6 refs/heads/abc =refs/x6/refs/heads/abc\n1 6 refs/heads/a =refs/x6/refs/heads/a\n\
         2 6 refs/tags/a =refs/x6/refs/tags/a\n3 6 refs/heads/a/b =refs/x6/refs/heads/a/b\n\
         4 6 refs/heads/ab =refs/x6/refs/heads/ab\n5 6 refs/heads/abcc =refs/x6/refs/heads/abcc\n\
         6 6 HEAD =refs/x6/HEAD\n7 6 refs/heads/b =refs/x6/refs/heads/b\n8 6 refs/head =refs/x6/refs/head\n\
         5 7 refs/heads/abcc =refs/x7/\n\
         2 8 refs/tags/a =refs/x8/a\n\
         7 9 refs/heads/b =refs/x9/\n",
    )];
    check_forward(&rt, FORWARD)?;
    const BACKWARD: &[(&str, &str, &str)] = &[(
        "refs/x0/*:refs/h/a* refs/x1/*:refs/h/ab* refs/x2/*:refs/h/a/* refs/x3/*:refs/h/b* refs/x4/*:refs/h/c* \
         refs/x5/*:refs/t/* refs/x6/*:refs/h/d* refs/x7/*:refs/h/e*a",
        "refs/h/ab refs/t/a refs/h/a/b refs/h/ea refs/h/a",
        "0 0 =refs/x0/b refs/h/ab\n2 0 =refs/x0//b refs/h/a/b\n4 0 =refs/x0/ refs/h/a\n\
         0 1 =refs/x1/ refs/h/ab\n2 2 =refs/x2/b refs/h/a/b\n1 5 =refs/x5/a refs/t/a\n3 7 =refs/x7/ refs/h/ea\n",
    )];
    check_backward(&rt, BACKWARD)
}

#[test]
fn takes_the_first_candidate(rt: HostRuntime) -> Result<(), Fail> {
    check_forward(&rt, FIRST)
}

#[test]
fn maps_pushes_without_a_destination(rt: HostRuntime) -> Result<(), Fail> {
    const ROWS: &[(&str, &str, &str)] = &[
        ("main", "refs/heads/main", "0 0 refs/heads/main -\n"),
        (
            "main:main",
            "refs/heads/main",
            "0 0 refs/heads/main =refs/heads/main\n",
        ),
        // What is deleted, and all matching branches, have no source.
        (
            ":refs/heads/x : refs/heads/* ^refs/heads/x",
            "refs/heads/x refs/heads/a",
            "1 2 refs/heads/a -\n",
        ),
    ];
    check(&rt, Direction::Forward, Operation::Push, ROWS)
}

#[test]
fn fills_destinations(rt: HostRuntime) -> Result<(), Fail> {
    const ROWS: &[(&str, &str, &str)] = &[
        (
            "refs/q:refs/heads/main",
            "refs/q",
            "0 0 refs/q refs/heads/main\n",
        ),
        ("refs/q:main", "refs/q", "0 0 refs/q =refs/heads/main\n"),
        ("refs/q:HEAD", "refs/q", "0 0 refs/q =refs/heads/HEAD\n"),
        ("refs/q:tags/x", "refs/q", "0 0 refs/q =refs/tags/x\n"),
        ("refs/q:remotes/x", "refs/q", "0 0 refs/q =refs/remotes/x\n"),
        ("refs/q:tagsx", "refs/q", "0 0 refs/q =refs/heads/tagsx\n"),
        (
            "refs/q:AAAAAAAAAAAAAAAAAAAAAAAAAAAAAAAAAAAAAAAA",
            "refs/q",
            "0 0 refs/q =refs/heads/aaaaaaaaaaaaaaaaaaaaaaaaaaaaaaaaaaaaaaaa\n",
        ),
        (
            "refs/q/*:refs/x/*",
            "refs/q/a/b",
            "0 0 refs/q/a/b =refs/x/a/b\n",
        ),
        ("refs/q*:refs/x/b*", "refs/q", "0 0 refs/q =refs/x/b\n"),
        ("*:*", "HEAD", "0 0 HEAD =HEAD\n"),
    ];
    check_forward(&rt, ROWS)
}

#[test]
fn maps_from_right_to_left(rt: HostRuntime) -> Result<(), Fail> {
    const ROWS: &[(&str, &str, &str)] = &[
        (
            "refs/heads/*:refs/remotes/origin/* ^refs/heads/x",
            "refs/remotes/origin/x refs/remotes/origin/y",
            "1 0 =refs/heads/y refs/remotes/origin/y\n",
        ),
        // The name of an item excludes nothing.
        (
            "refs/heads/*:refs/x/* ^refs/x/y",
            "refs/x/y",
            "0 0 =refs/heads/y refs/x/y\n",
        ),
        (
            "refs/heads/main:main",
            "refs/tags/main refs/heads/main",
            "0 0 refs/heads/main refs/tags/main\n1 0 refs/heads/main refs/heads/main\n",
        ),
        ("main", "refs/heads/main", ""),
        // By spec, and for each by item.
        (
            "refs/heads/*:refs/x/* refs/tags/*:refs/y/*",
            "refs/y/b refs/x/b refs/y/a refs/x/a",
            "1 0 =refs/heads/b refs/x/b\n3 0 =refs/heads/a refs/x/a\n\
             0 1 =refs/tags/b refs/y/b\n2 1 =refs/tags/a refs/y/a\n",
        ),
        // What a source becomes, of which pairs the first stay, and which of them are excluded.
        (
            "tags/v:refs/x main:refs/x main:refs/x HEAD:refs/x refs/q:refs/x ^refs/heads/HEAD",
            "refs/x refs/x",
            "0 0 =refs/tags/v refs/x\n0 1 =refs/heads/main refs/x\n0 4 refs/q refs/x\n",
        ),
        (
            "refs/heads/a*b:refs/x/c*d",
            "refs/x/cd refs/x/c refs/x/d refs/x/cxdd",
            "0 0 =refs/heads/ab refs/x/cd\n3 0 =refs/heads/axdb refs/x/cxdd\n",
        ),
    ];
    check_backward(&rt, ROWS)
}

#[test]
fn maps_ids_from_right_to_left(rt: HostRuntime) -> Result<(), Fail> {
    const ROWS: &[(&str, &str, &str)] = &[
        // As a source an id is the branch of that name, which may be excluded.
        (
            "AAAAAAAAAAAAAAAAAAAAAAAAAAAAAAAAAAAAAAAA:refs/heads/x ^refs/heads/aaaaaaaaaaaaaaaaaaaaaaaaaaaaaaaaaaaaaaaa",
            "refs/heads/x",
            "",
        ),
        (
            "AAAAAAAAAAAAAAAAAAAAAAAAAAAAAAAAAAAAAAAA:refs/heads/x",
            "refs/heads/x",
            "0 0 =refs/heads/aaaaaaaaaaaaaaaaaaaaaaaaaaaaaaaaaaaaaaaa refs/heads/x\n",
        ),
        // Each item that points to an id.
        (
            "main:1111111111111111111111111111111111111111",
            "refs/a refs/b",
            "0 0 =refs/heads/main refs/a\n1 0 =refs/heads/main refs/b\n",
        ),
    ];
    check_backward(&rt, ROWS)
}

#[test]
fn maps_pushes_from_right_to_left(rt: HostRuntime) -> Result<(), Fail> {
    // Only the last one has both sides.
    const ROWS: &[(&str, &str, &str)] = &[(
        ":refs/heads/x : refs/heads/x ^refs/heads/a refs/heads/*:refs/heads/*",
        "refs/heads/x refs/heads/a",
        "0 4 =refs/heads/x refs/heads/x\n",
    )];
    check(&rt, Direction::Backward, Operation::Push, ROWS)
}

#[test]
fn matches_tags_by_their_objects(rt: HostRuntime) -> Result<(), Fail> {
    let alloc = rt.alloc();
    let target = target();
    let object = ObjectId::from_hex(b"aaaaaaaaaaaaaaaaaaaaaaaaaaaaaaaaaaaaaaaa")?;
    let items = [Item {
        full_ref_name: BStr::new(b"refs/q"),
        target: &target,
        object: Some(&object),
    }];
    let specs = "main:aaaaaaaaaaaaaaaaaaaaaaaaaaaaaaaaaaaaaaaa";
    let outcome = group_of(alloc, Operation::Fetch, specs)?.match_rhs(alloc, &items)?;
    let wanted = "0 0 =refs/heads/main refs/q\n";
    check_lines(&rt, outcome.mappings.as_slice(), wanted)
}
