//! Mappings of which a side is no name of a ref.

use super::mapping::{add_pair, group_of, mapped, target};
use bstr::BStr;
use gix_refspec::match_group::ref_names::{InvalidSide, OutOfMemory, is_ref_name};
use gix_refspec::match_group::validate::is_writable;
use gix_refspec::match_group::{Mapping, NameRef, SourceRef, match_lhs};
use gix_refspec::parsing::Operation;
use std::alloc::Global;
use std::test::Fail;

// The mappings that are kept, and then those that are left out with their side, each in a line.
fn checked(alloc: Global, outcome: match_lhs::Outcome<'_, '_>) -> Result<String, Fail> {
    let (left, bad) = outcome.without_invalid_names(alloc)?;
    let mut told = String::new(alloc);
    for mapping in &left.mappings {
        add_pair(&mut told, mapping)?;
    }
    for out in &bad {
        write!(told, "{:?} ", out.side)?;
        add_pair(&mut told, &out.mapping)?;
    }
    Ok(told)
}

// Specs, names of items, and what is kept and left out of what they map.
const CHECKED: &[(&str, &str, &str)] = &[
    ("refs/heads/*:refs/x/*", "", ""),
    (
        "refs/heads/*:refs/x/*",
        "refs/heads/main refs/heads/a/b",
        "refs/heads/main:refs/x/main\nrefs/heads/a/b:refs/x/a/b\n",
    ),
    // A path that leads out of the repository, between two that don't.
    (
        "refs/heads/*:refs/remotes/origin/*",
        "refs/heads/a refs/heads/../../../hooks/x refs/heads/b",
        "refs/heads/a:refs/remotes/origin/a\nrefs/heads/b:refs/remotes/origin/b\n\
         Both refs/heads/../../../hooks/x:refs/remotes/origin/../../../hooks/x\n",
    ),
    // A good name may be filled into a bad one, and a bad one into a good one.
    (
        "refs/heads/a*:refs/q/*",
        "refs/heads/a.b refs/heads/ab",
        "refs/heads/ab:refs/q/b\nDestination refs/heads/a.b:refs/q/.b\n",
    ),
    (
        "refs/heads/a.*:refs/q/*",
        "refs/heads/a.lock refs/heads/a.b",
        "refs/heads/a.b:refs/q/b\nSource refs/heads/a.lock:refs/q/lock\n",
    ),
    // Without a destination the source alone counts. A partial name takes `main` itself first.
    (
        "main refs/heads/a",
        "main refs/heads/main refs/heads/a",
        "refs/heads/a\nSource main\n",
    ),
    // A control character, an empty component, a dot first, and a dot last.
    (
        "refs/heads/*:refs/x/*",
        "refs/heads/\u{1} refs/heads/a//b refs/heads/.a refs/heads/a.",
        "Both refs/heads/\u{1}:refs/x/\u{1}\nBoth refs/heads/a//b:refs/x/a//b\n\
         Both refs/heads/.a:refs/x/.a\nBoth refs/heads/a.:refs/x/a.\n",
    ),
    // On each side of what a ref may be called.
    (
        "*:*",
        "HEAD refs refs/ refs/x HEADS main FETCH_HEAD Refs/x",
        "HEAD:HEAD\nrefs/x:refs/x\nBoth refs:refs\nBoth refs/:refs/\nBoth HEADS:HEADS\n\
         Both main:main\nBoth FETCH_HEAD:FETCH_HEAD\nBoth Refs/x:Refs/x\n",
    ),
    (
        "refs/heads/*:foo/*",
        "refs/heads/a",
        "Destination refs/heads/a:foo/a\n",
    ),
    // An id is a good source.
    (
        "1111111111111111111111111111111111111111:refs/i",
        "refs/heads/a",
        "1111111111111111111111111111111111111111:refs/i\n",
    ),
    (
        "1111111111111111111111111111111111111111",
        "refs/heads/a",
        "1111111111111111111111111111111111111111\n",
    ),
];

#[test]
fn keeps_names_of_refs(rt: HostRuntime) -> Result<(), Fail> {
    let alloc = rt.alloc();
    let target = target();
    for (texts, names, told) in CHECKED {
        let answer = checked(alloc, mapped(alloc, texts, names, &target)?)?;
        assert_eq!(rt; answer.as_str(), *told, "at {texts}");
    }
    Ok(())
}

#[test]
fn keeps_names_of_refs_after_a_validation(rt: HostRuntime) -> Result<(), Fail> {
    let alloc = rt.alloc();
    let target = target();
    let specs = "refs/heads/*:refs/x/* refs/heads/*:y/*";
    let outcome = mapped(alloc, specs, "refs/heads/a refs/heads/../b", &target)?;
    assert!(&rt; outcome.indexes_fit());
    let (left, fixes) = outcome.validated(alloc)?;
    assert_eq!(&rt; fixes.len(), 2);
    let answer = checked(alloc, left)?;
    assert_eq!(&rt;
        answer.as_str(),
        "refs/heads/a:refs/x/a\nBoth refs/heads/../b:refs/x/../b\n"
    );
    Ok(())
}

// Texts, whether they are valid ref names, as `git check-ref-format` says of those that begin `refs/`, and whether a
// destination of this name is written.
const TEXTS: &[(&str, bool, bool)] = &[
    ("refs/heads/main", true, true),
    ("refs/a", true, true),
    ("refs/heads/é", true, true),
    ("HEAD", true, true),
    ("refs/heads/../x", false, true),
    ("refs/heads/a.lock", false, true),
    ("refs/heads/a b", false, true),
    ("refs/heads/", false, true),
    ("refs/", false, true),
    ("refs", false, false),
    ("heads/main", false, false),
    ("FETCH_HEAD", false, false),
    ("", false, false),
];

#[test]
fn recognises_ref_names(rt: HostRuntime) {
    for (text, is_name, writable) in TEXTS {
        let found = (is_ref_name(text.as_bytes()), is_writable(text.as_bytes()));
        assert_eq!(rt; found, (*is_name, *writable), "at {text}");
    }
}

#[test]
fn compares_bad_sides_and_prints_the_refusal(rt: HostRuntime) -> Result<(), Fail> {
    let alloc = rt.alloc();
    assert!(&rt;
        InvalidSide::Both == InvalidSide::Both && InvalidSide::Source != InvalidSide::Destination
    );
    let mut mappings = Vec::new(alloc);
    mappings.push(Mapping {
        item_index: None,
        lhs: SourceRef::FullName(NameRef::Borrowed(BStr::new(b"a"))),
        rhs: None,
        spec_index: 0,
    })?;
    let outcome = match_lhs::Outcome {
        group: group_of(alloc, Operation::Fetch, "a")?,
        mappings,
    };
    let refusal = OutOfMemory { outcome };
    assert_eq!(&rt; format!(in alloc; "{refusal}")?.as_str(), "out of memory");
    Ok(())
}
