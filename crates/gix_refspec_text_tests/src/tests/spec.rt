//! The sides of specs, their copies, and what they are for.

use super::canonical;
use bstr::BStr;
use gix_refspec_text::name::name_partial;
use gix_refspec_text::parsing::Operation;
use gix_refspec_text::side::written_name;
use gix_refspec_text::{RefSpecRef, parse};
use std::alloc::{AllocError, Global};
use std::process::Abort;
use std::test::Fail;

// A side as a row writes it.
fn side(text: Option<&str>) -> Option<BStr<'_>> {
    match text {
        None => None,
        Some(text) => Some(BStr::new(text.as_bytes())),
    }
}

// The source, the destination, the side on the remote and the local side.
type Sides<'a> = (
    Option<&'a str>,
    Option<&'a str>,
    Option<&'a str>,
    Option<&'a str>,
);

// Texts, and their sides.
const SIDES: &[(Operation, &str, Sides<'static>)] = &[
    (
        Operation::Fetch,
        "a:b",
        (Some("a"), Some("b"), Some("a"), Some("b")),
    ),
    (
        Operation::Push,
        "a:b",
        (Some("a"), Some("b"), Some("b"), Some("a")),
    ),
    // A push of one side has that as its destination only when it says what to do.
    (
        Operation::Push,
        "main",
        (Some("main"), None, None, Some("main")),
    ),
    (
        Operation::Push,
        "main:main",
        (Some("main"), Some("main"), Some("main"), Some("main")),
    ),
    (
        Operation::Push,
        ":/message:refs/heads/x",
        (
            Some(":/message"),
            Some("refs/heads/x"),
            Some("refs/heads/x"),
            Some(":/message"),
        ),
    ),
    (
        Operation::Push,
        "::x",
        (Some(":"), Some("x"), Some("x"), Some(":")),
    ),
    (
        Operation::Fetch,
        "refs/heads/*:refs/remotes/origin/*",
        (
            Some("refs/heads/*"),
            Some("refs/remotes/origin/*"),
            Some("refs/heads/*"),
            Some("refs/remotes/origin/*"),
        ),
    ),
];

#[test]
fn gives_the_sides(rt: HostRuntime) -> Result<(), Fail> {
    for (operation, text, sides) in SIDES {
        let spec = parse(rt.alloc(), BStr::new(text.as_bytes()), *operation)?;
        let (source, destination, remote, local) = *sides;
        assert_eq!(rt;
            (
                spec.source(),
                spec.destination(),
                spec.remote(),
                spec.local()
            ),
            (side(source), side(destination), side(remote), side(local)),
            "{operation:?} at {text}"
        );
    }
    Ok(())
}

// Whether a copy of a spec is equal to it, with the same sides, and prints so.
fn check_copy(
    rt: &impl Abort,
    alloc: Global,
    spec: RefSpecRef<'_>,
    copy: RefSpecRef<'_>,
    wanted: &str,
) -> Result<(), AllocError> {
    assert_eq!(rt; copy, spec);
    let printed = canonical(alloc, copy)?;
    assert_eq!(rt;
        (printed.as_str(), copy.source(), copy.destination()),
        (wanted, spec.source(), spec.destination()),
        "{spec:?}"
    );
    Ok(())
}

#[test]
fn copies_print_and_say_the_same(rt: HostRuntime) -> Result<(), Fail> {
    const ROWS: &[(Operation, &str, &str)] = &[
        (Operation::Push, ":", ":"),
        (Operation::Push, "+", "+:"),
        (Operation::Push, "+:x", ":x"),
        (Operation::Push, "main", "main:main"),
        (Operation::Push, "+a", "+a:a"),
        (
            Operation::Push,
            ":/message:refs/heads/x",
            ":/message:refs/heads/x",
        ),
        (Operation::Push, "^a", "^a"),
        (Operation::Fetch, "", "HEAD"),
        (Operation::Fetch, "++foo", "++foo"),
        (Operation::Fetch, "^a", "^a"),
        (Operation::Fetch, "+a:b", "+a:b"),
    ];
    let alloc = rt.alloc();
    for (operation, text, wanted) in ROWS {
        let spec = parse(alloc, BStr::new(text.as_bytes()), *operation)?;
        let owned = spec.to_owned(alloc)?;
        let clone = owned.clone(alloc)?;
        check_copy(&rt, alloc, spec, spec, wanted)?;
        check_copy(&rt, alloc, spec, owned.to_ref(), wanted)?;
        check_copy(&rt, alloc, spec, clone.to_ref(), wanted)?;
        let operations = (spec.instruction().operation(), spec.operation());
        assert_eq!(rt; operations, (*operation, *operation), "at {text}");
    }
    Ok(())
}

#[test]
fn keeps_a_sign_that_no_instruction_has(rt: HostRuntime) -> Result<(), Fail> {
    const ROWS: &[(Operation, &str, bool)] = &[
        (Operation::Fetch, "+", true),
        (Operation::Fetch, "+main", true),
        (Operation::Fetch, "main", false),
        (Operation::Fetch, "^main", false),
        (Operation::Push, "+:x", true),
        (Operation::Push, ":+x", false),
        (Operation::Push, "main", false),
        (Operation::Push, "^main", false),
    ];
    let alloc = rt.alloc();
    for (operation, text, forced) in ROWS {
        let spec = parse(alloc, BStr::new(text.as_bytes()), *operation)?;
        let owned = spec.to_owned(alloc)?;
        let clone = owned.clone(alloc)?;
        let found = (
            spec.allow_non_fast_forward(),
            owned.allow_non_fast_forward(),
            clone.allow_non_fast_forward(),
        );
        assert_eq!(rt;
            found,
            (*forced, *forced, *forced),
            "{operation:?} at {text}"
        );
    }
    Ok(())
}

#[test]
fn completes_destinations(rt: HostRuntime) -> Result<(), Fail> {
    // As git 2.39 writes them.
    const ROWS: &[(&str, &str)] = &[
        ("refs/x", "refs/x"),
        ("heads/x", "refs/heads/x"),
        ("tags/x", "refs/tags/x"),
        ("remotes/x/y", "refs/remotes/x/y"),
        ("x", "refs/heads/x"),
        ("tags", "refs/heads/tags"),
        ("notes/x", "refs/heads/notes/x"),
        ("HEAD", "refs/heads/HEAD"),
    ];
    for (destination, name) in ROWS {
        let written = written_name(rt.alloc(), destination.as_bytes())?;
        assert_eq!(&rt; written.as_bytes(), name.as_bytes(), "{destination}");
    }
    Ok(())
}

#[test]
fn makes_specs(rt: HostRuntime) -> Result<(), Fail> {
    let (main, head) = (BStr::new(b"refs/heads/main"), BStr::new(b"HEAD"));
    assert!(&rt; name_partial(main).is_ok() && name_partial(head).is_ok());
    let rows = [
        (RefSpecRef::fetch_of(main), "refs/heads/main"),
        (RefSpecRef::fetch_of(head), "HEAD"),
        (RefSpecRef::fetch_of_all_tags(), "refs/tags/*:refs/tags/*"),
    ];
    for (made, text) in rows {
        let printed = made.to_bstring(rt.alloc())?;
        assert_eq!(&rt; printed.as_bytes(), text.as_bytes(), "{text}");
    }
    Ok(())
}
