//! What the refusals print, and that the fault of a name becomes one.

use bstr::{BStr, BString};
use gix_refspec_text::name::{self, name_partial};
use gix_refspec_text::oid;
use gix_refspec_text::parsing::Error;
use std::alloc::{AllocError, Global};
use std::process::Abort;
use std::test::Fail;

// Refuses what is no name, through `?`.
fn only_names(text: &str) -> Result<(), Error> {
    name_partial(BStr::new(text.as_bytes()))?;
    Ok(())
}

// Whether a refusal has this name, text and explanation.
fn check_refusal(
    rt: &(impl Abort + AllocGlobal),
    error: &Error,
    said: &str,
) -> Result<(), AllocError> {
    let (reason, explanation) = (error.reason(), error.explanation());
    let found = format!(in rt.alloc(); "{reason}: {error}\n{explanation}")?;
    assert_eq!(rt; found.as_str(), said);
    Ok(())
}

#[test]
fn explains_refusals(rt: HostRuntime) -> Result<(), Fail> {
    let pattern = BString::from_slice(rt.alloc(), b"a*b*")?;
    let cases = [
        (
            Error::Empty,
            "Empty: Empty refspecs are invalid\n\
             A refspec for a push must not be empty.",
        ),
        (
            Error::InvalidFetchDestination,
            "InvalidFetchDestination: Fetch destinations must be ref-names, like 'HEAD:refs/heads/branch'\n\
             The destination of a fetch must be the name of a ref.",
        ),
        (
            Error::PushToEmpty,
            "PushToEmpty: Cannot push into an empty destination\n\
             A push needs a destination after the colon.",
        ),
        (
            Error::PatternUnsupported { pattern },
            "PatternUnsupported: refspec patterns may only contain a single '*' character, found \"a*b*\"\n\
             A side of a refspec must not have more than one `*`.",
        ),
        (
            Error::PatternUnbalanced,
            "PatternUnbalanced: Both sides of a two-sided specification need a pattern, like 'a/*:b/*'\n\
             Either both sides of a refspec have a `*`, or neither has.",
        ),
        (
            Error::ReferenceName(name::Error::LockSuffix),
            "ReferenceName: LockSuffix\n\
             No part of a ref name between slashes may end with `.lock`.",
        ),
        (
            Error::ReferenceName(name::Error::InvalidByte { byte: b' ' }),
            "ReferenceName: InvalidByte\n\
             A ref name must not have a control character, a space or one of ~ ^ : ? [ \\ in it.",
        ),
        (
            Error::Memory,
            "Memory: out of memory\n\
             There was not enough memory to read the refspec.",
        ),
    ];
    for (error, said) in cases {
        check_refusal(&rt, &error, said)?;
    }
    Ok(())
}

#[test]
fn explains_refusals_of_negative_specs(rt: HostRuntime) -> Result<(), Fail> {
    let cases = [
        (
            Error::NegativeWithDestination,
            "NegativeWithDestination: Negative refspecs cannot have destinations as they exclude sources\n\
             A refspec that begins with `^` must not have a destination.",
        ),
        (
            Error::NegativeEmpty,
            "NegativeEmpty: Negative specs must not be empty\n\
             A refspec that begins with `^` needs a source after the `^`.",
        ),
        (
            Error::NegativeObjectHash,
            "NegativeObjectHash: Negative specs must not be object hashes\n\
             A refspec that begins with `^` must not have an object id as its source.",
        ),
        (
            Error::NegativePartialName,
            "NegativePartialName: Negative specs must be full ref names, starting with \"refs/\"\n\
             A refspec that begins with `^` needs a full name, which begins with `refs/`.",
        ),
        (
            Error::NegativeGlobPattern,
            "NegativeGlobPattern: Negative glob patterns are not allowed\n\
             A refspec that begins with `^` must not have a pattern.",
        ),
    ];
    for (error, said) in cases {
        check_refusal(&rt, &error, said)?;
    }
    Ok(())
}

#[test]
fn explains_faults_of_names_and_ids(rt: HostRuntime) {
    const NAMES: &[(name::Error, &str)] = &[
        (name::Error::Empty, "A ref name must not be empty."),
        (
            name::Error::EmptyComponent,
            "A ref name must not begin or end with a slash, or have two slashes in a row.",
        ),
        (
            name::Error::StartsWithDot,
            "No part of a ref name between slashes may begin with a dot.",
        ),
        (
            name::Error::LockSuffix,
            "No part of a ref name between slashes may end with `.lock`.",
        ),
        (
            name::Error::EndsWithDot,
            "A ref name must not end with a dot.",
        ),
        (
            name::Error::RepeatedDot,
            "A ref name must not have two dots in a row.",
        ),
        (
            name::Error::ReflogPortion,
            "A ref name must not have `@{` in it.",
        ),
        (
            name::Error::Asterisk,
            "A ref name must not have a `*` in it.",
        ),
        (
            name::Error::InvalidByte { byte: b'~' },
            "A ref name must not have a control character, a space or one of ~ ^ : ? [ \\ in it.",
        ),
    ];
    for (fault, text) in NAMES {
        assert_eq!(rt; fault.explanation(), *text, "at {fault:?}");
    }
    const IDS: &[(oid::Error, &str)] = &[
        (
            oid::Error::Length { len: 3 },
            "An object id has 40 or 64 hexadecimal digits.",
        ),
        (
            oid::Error::Digit,
            "An object id has no characters but 0 to 9, a to f and A to F.",
        ),
    ];
    for (fault, text) in IDS {
        assert_eq!(rt; fault.explanation(), *text, "at {fault:?}");
    }
}

// A side of several stars is refused with this text.
fn several_stars(alloc: Global, text: &str) -> Result<Error, AllocError> {
    Ok(Error::PatternUnsupported {
        pattern: BString::from_slice(alloc, text.as_bytes())?,
    })
}

#[test]
fn compares_refusals(rt: HostRuntime) -> Result<(), Fail> {
    let alloc = rt.alloc();
    // Whether the first of a row equals the second.
    let rows = [
        (Error::Empty, Error::Empty, true),
        (Error::Empty, Error::Memory, false),
        (
            Error::ReferenceName(name::Error::Empty),
            Error::ReferenceName(name::Error::Empty),
            true,
        ),
        (
            Error::ReferenceName(name::Error::Empty),
            Error::ReferenceName(name::Error::EndsWithDot),
            false,
        ),
    ];
    for (first, second, same) in rows {
        assert_eq!(rt; first == second, same, "at {first:?} and {second:?}");
    }
    const SIDES: &[(&str, &str, bool)] = &[("a*b*", "a*b*", true), ("a*b*", "a*b**", false)];
    for (first, second, same) in SIDES {
        let equal = several_stars(alloc, first)? == several_stars(alloc, second)?;
        assert_eq!(rt; equal, *same, "at {first} and {second}");
    }
    Ok(())
}

#[test]
fn faults_of_names_become_refusals(rt: HostRuntime) {
    let error = Error::from(name::Error::EndsWithDot);
    assert!(rt;
        matches!(&error, Error::ReferenceName(name::Error::EndsWithDot)),
        "{error:?}"
    );
    let refused = only_names("a..b");
    assert!(rt;
        matches!(
            &refused,
            Err(Error::ReferenceName(name::Error::RepeatedDot))
        ),
        "{refused:?}"
    );
    let accepted = only_names("a.b");
    assert!(rt; accepted.is_ok(), "{accepted:?}");
}
