//! Which specs are equal, and how others are ordered.

use super::{canonical, check_equal};
use bstr::BStr;
use gix_refspec_text::parsing::Operation;
use gix_refspec_text::{Instruction, RefSpecRef, parse};
use std::alloc::{AllocError, Global};
use std::cmp::Ordering;
use std::fmt::Debug;
use std::hash::Hash;
use std::process::Abort;
use std::test::Fail;

// Whether two values compare so.
fn check_order<T: Ord + Hash + Debug>(rt: &impl Abort, a: &T, b: &T, wanted: Ordering) {
    let found = (a.cmp(b), a.partial_cmp(b), *a < *b);
    let is_less = wanted == Ordering::Less;
    assert_eq!(rt;
        found,
        (wanted, Some(wanted), is_less),
        "at {a:?} and {b:?}"
    );
    check_equal(rt, a, b, wanted == Ordering::Equal);
}

// Whether two specs compare so, and also their instructions, and copies that own their sides.
fn check_specs(
    rt: &impl Abort,
    alloc: Global,
    a: RefSpecRef<'_>,
    b: RefSpecRef<'_>,
    wanted: Ordering,
) -> Result<(), AllocError> {
    check_order(rt, &a, &b, wanted);
    check_order(rt, &a.instruction(), &b.instruction(), wanted);
    match (a.instruction(), b.instruction()) {
        (Instruction::Push(a), Instruction::Push(b)) => check_order(rt, &a, &b, wanted),
        (Instruction::Fetch(a), Instruction::Fetch(b)) => check_order(rt, &a, &b, wanted),
        _ => {}
    }
    let owned_a = a.to_owned(alloc)?;
    let owned_b = b.to_owned(alloc)?;
    check_order(rt, &owned_a, &owned_b, wanted);
    Ok(())
}

#[test]
fn puts_push_before_fetch(rt: HostRuntime) {
    let operations = [Operation::Push, Operation::Fetch];
    for (i, a) in operations.iter().enumerate() {
        for (j, b) in operations.iter().enumerate() {
            check_order(&rt, a, b, i.cmp(&j));
        }
    }
}

#[test]
fn rises_by_operation_kind_and_sides(rt: HostRuntime) -> Result<(), Fail> {
    // The source is looked at before the destination, and the sign last. Sides rise byte by byte,
    // whatever their lengths.
    const ROWS: &[(Operation, &str)] = &[
        (Operation::Push, ":"),
        (Operation::Push, "+"),
        (Operation::Push, ":a"),
        (Operation::Push, ":aa"),
        (Operation::Push, ":x"),
        (Operation::Push, "a"),
        (Operation::Push, "+a"),
        (Operation::Push, "a:aa"),
        (Operation::Push, "a:ab"),
        (Operation::Push, "a:b"),
        (Operation::Push, "+a:b"),
        (Operation::Push, "aa:a"),
        (Operation::Push, "aa:b"),
        (Operation::Push, "b:a"),
        (Operation::Push, "é:a"),
        (Operation::Push, "^a"),
        (Operation::Push, "^aa"),
        (Operation::Push, "^b"),
        (Operation::Fetch, "a"),
        (Operation::Fetch, "aa"),
        (Operation::Fetch, "b"),
        (Operation::Fetch, "é"),
        (Operation::Fetch, "^a"),
        (Operation::Fetch, "^aa"),
        (Operation::Fetch, "^b"),
        (Operation::Fetch, "a:aa"),
        (Operation::Fetch, "a:ab"),
        (Operation::Fetch, "a:b"),
        (Operation::Fetch, "+a:b"),
        (Operation::Fetch, "aa:a"),
        (Operation::Fetch, "aa:b"),
        (Operation::Fetch, "b:a"),
        (Operation::Fetch, "+b:a"),
    ];
    let alloc = rt.alloc();
    for (i, (operation, text)) in ROWS.iter().enumerate() {
        let a = parse(alloc, BStr::new(text.as_bytes()), *operation)?;
        for (j, (operation, text)) in ROWS.iter().enumerate() {
            let b = parse(alloc, BStr::new(text.as_bytes()), *operation)?;
            check_specs(&rt, alloc, a, b, i.cmp(&j))?;
        }
    }
    Ok(())
}

#[test]
fn equals_what_says_the_same(rt: HostRuntime) -> Result<(), Fail> {
    // A canonical text, and texts that say the same. Specs of different rows are not equal.
    const ROWS: &[(Operation, &str, &[&str])] = &[
        (
            Operation::Fetch,
            "HEAD",
            &["HEAD", "", "+", ":", "+:", "@", "HEAD:", "+HEAD"],
        ),
        (Operation::Fetch, "++foo", &["++foo", "++foo:"]),
        (Operation::Fetch, "HEAD:@", &["@:@"]),
        (Operation::Fetch, "^HEAD", &["^@"]),
        (Operation::Fetch, "^a", &["^a"]),
        (Operation::Push, "^a", &["^a"]),
        (Operation::Push, "^HEAD", &["^@"]),
        (Operation::Push, "main:main", &["main", "main:main"]),
        (Operation::Push, ":x", &[":x", "+:x"]),
        (Operation::Push, "HEAD:HEAD", &["@", "HEAD", "HEAD:HEAD"]),
        (Operation::Push, "a:a", &["a", "a:a"]),
        (Operation::Push, "+a:a", &["+a", "+a:a"]),
        (Operation::Push, ":+x", &[":+x"]),
        (Operation::Push, "::x", &["::x"]),
        (Operation::Push, ":", &[":"]),
        (Operation::Push, "+:", &["+", "+:"]),
    ];
    let alloc = rt.alloc();
    for (i, (operation, printed, texts)) in ROWS.iter().enumerate() {
        let again = parse(alloc, BStr::new(printed.as_bytes()), *operation)?;
        let found = canonical(alloc, again)?;
        assert_eq!(rt;
            found.as_str(),
            *printed,
            "{operation:?} again at {printed}"
        );
        for text in *texts {
            let spec = parse(alloc, BStr::new(text.as_bytes()), *operation)?;
            let found = canonical(alloc, spec)?;
            assert_eq!(rt; found.as_str(), *printed, "{operation:?} at {text:?}");
            check_specs(&rt, alloc, spec, again, Ordering::Equal)?;
        }
        for (j, (operation, printed, _)) in ROWS.iter().enumerate() {
            let other = parse(alloc, BStr::new(printed.as_bytes()), *operation)?;
            check_equal(&rt, &again, &other, i == j);
        }
    }
    Ok(())
}
