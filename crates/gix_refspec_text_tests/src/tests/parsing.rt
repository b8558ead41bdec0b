//! Which texts are read, how they print, what they say to do, and why others are refused.

use super::canonical;
use bstr::{BStr, ByteSlice};
use gix_refspec_text::instruction::Fetch;
use gix_refspec_text::parsing::{Error, Operation};
use gix_refspec_text::{Instruction, parse};
use std::alloc::{AllocError, Global};
use std::process::Abort;
use std::test::Fail;

// `^` and hex digits: one less than an id of an object has, as many, and one more. Then as many with
// a colon alone, and with destinations: a name, one with several stars, and no name.
const DIGITS_39: &str = "^aaaaaaaaaaaaaaaaaaaaaaaaaaaaaaaaaaaaaaa";

const DIGITS_40: &str = "^aaaaaaaaaaaaaaaaaaaaaaaaaaaaaaaaaaaaaaaa";

const DIGITS_41: &str = "^aaaaaaaaaaaaaaaaaaaaaaaaaaaaaaaaaaaaaaaaa";

const DIGITS_40_TO_NOTHING: &str = "^aaaaaaaaaaaaaaaaaaaaaaaaaaaaaaaaaaaaaaaa:";

const DIGITS_40_TO: &str = "^aaaaaaaaaaaaaaaaaaaaaaaaaaaaaaaaaaaaaaaa:b";

const DIGITS_40_TO_STARS: &str = "^aaaaaaaaaaaaaaaaaaaaaaaaaaaaaaaaaaaaaaaa:b*c*";

const DIGITS_40_TO_DOTS: &str = "^aaaaaaaaaaaaaaaaaaaaaaaaaaaaaaaaaaaaaaaa:b..c";

const UPPER_40: &str = "^AAAAAAAAAAAAAAAAAAAAAAAAAAAAAAAAAAAAAAAA";

// The name of a refusal, with what it holds.
fn variant(alloc: Global, error: &Error) -> Result<String, AllocError> {
    format!(in alloc; "{error:?}")
}

// The canonical text of a spec, or why it is refused.
fn canon(alloc: Global, text: &str, operation: Operation) -> Result<String, AllocError> {
    match parse(alloc, BStr::new(text.as_bytes()), operation) {
        Ok(spec) => canonical(alloc, spec),
        Err(error) => variant(alloc, &error),
    }
}

// What a text says to do. The spec ends with the call, and the text outlives it.
fn instruction_of<'a>(
    alloc: Global,
    text: BStr<'a>,
    operation: Operation,
) -> Result<Instruction<'a>, Error> {
    let spec = parse(alloc, text, operation)?;
    Ok(spec.instruction())
}

// What a spec tells of its sides.
#[derive(Clone, Copy)]
struct Sides<'a> {
    source: Option<BStr<'a>>,
    destination: Option<BStr<'a>>,
    local: Option<BStr<'a>>,
    remote: Option<BStr<'a>>,
    prefix: Option<BStr<'a>>,
}

// The sides in a text. The spec ends with the call, and the text outlives it.
fn sides_of<'a>(alloc: Global, text: BStr<'a>, operation: Operation) -> Result<Sides<'a>, Error> {
    let spec = parse(alloc, text, operation)?;
    Ok(Sides {
        source: spec.source(),
        destination: spec.destination(),
        local: spec.local(),
        remote: spec.remote(),
        prefix: spec.prefix(),
    })
}

// A spec with two equal sides: `refs/heads/`, as many `b` as asked for, a star and the end.
fn doubled(alloc: Global, letters: usize, end: &str) -> Result<String, AllocError> {
    let mut side = String::new(alloc);
    side.push_str("refs/heads/")?;
    for _ in 0..letters {
        side.push('b')?;
    }
    side.push('*')?;
    side.push_str(end)?;
    format!(in alloc; "{side}:{side}")
}

// Whether each text of a table prints as is written beside it, or is refused so.
fn check_rows(
    rt: &impl Abort,
    alloc: Global,
    operation: Operation,
    rows: &[(&str, &str)],
) -> Result<(), AllocError> {
    for (text, want) in rows {
        let found = canon(alloc, text, operation)?;
        assert_eq!(rt; found.as_str(), *want, "{operation:?} at {text}");
    }
    Ok(())
}

#[test]
fn reads_fetches(rt: HostRuntime) -> Result<(), Fail> {
    const ROWS: &[(&str, &str)] = &[
        ("", "HEAD"),
        ("+", "HEAD"),
        (":", "HEAD"),
        ("+:", "HEAD"),
        ("@", "HEAD"),
        ("HEAD:", "HEAD"),
        ("+HEAD", "HEAD"),
        (":d", "HEAD:d"),
        ("@:@", "HEAD:@"),
        ("++", "++"),
        ("++foo", "++foo"),
        ("+a:b", "+a:b"),
        (
            "refs/heads/*:refs/remotes/origin/*",
            "refs/heads/*:refs/remotes/origin/*",
        ),
    ];
    check_rows(&rt, rt.alloc(), Operation::Fetch, ROWS)?;
    Ok(())
}

#[test]
fn reads_pushes(rt: HostRuntime) -> Result<(), Fail> {
    const ROWS: &[(&str, &str)] = &[
        (":", ":"),
        ("+", "+:"),
        ("+:", "+:"),
        ("@", "HEAD:HEAD"),
        ("@:x", "HEAD:x"),
        ("main", "main:main"),
        ("refs/heads/*", "refs/heads/*:refs/heads/*"),
        ("+:x", ":x"),
        (":+x", ":+x"),
        ("::x", "::x"),
        (":/message:refs/heads/x", ":/message:refs/heads/x"),
        ("+^x:y", "+^x:y"),
        ("++", "++:+"),
    ];
    check_rows(&rt, rt.alloc(), Operation::Push, ROWS)?;
    Ok(())
}

#[test]
fn refuses_fetches(rt: HostRuntime) -> Result<(), Fail> {
    const ROWS: &[(&str, &str)] = &[
        ("::", "ReferenceName(InvalidByte { byte: 58 })"),
        ("x*.lock:y*", "ReferenceName(LockSuffix)"),
        ("a*:b*c*", "PatternUnsupported { pattern: \"b*c*\" }"),
        ("a*:b", "PatternUnbalanced"),
        (":a*", "PatternUnbalanced"),
        ("a*", "PatternUnbalanced"),
        ("a*:", "PatternUnbalanced"),
        ("refs/heads/*", "PatternUnbalanced"),
        // Two reasons each. Several stars come before a bad name on the same side.
        ("a..b**:c", "PatternUnsupported { pattern: \"a..b**\" }"),
        ("a:b..c**", "PatternUnsupported { pattern: \"b..c**\" }"),
        // The source comes before the destination.
        ("a*b*:c*d*", "PatternUnsupported { pattern: \"a*b*\" }"),
        ("a*b*:c..d", "PatternUnsupported { pattern: \"a*b*\" }"),
        ("a..b:c*d*", "ReferenceName(RepeatedDot)"),
        ("a*.lock:c*d*", "ReferenceName(LockSuffix)"),
        ("a..b:c.lock", "ReferenceName(RepeatedDot)"),
        ("a*.lock:c..d", "ReferenceName(LockSuffix)"),
        ("a*b*:c*.lock", "PatternUnsupported { pattern: \"a*b*\" }"),
        ("a..b:c*.lock", "ReferenceName(RepeatedDot)"),
        ("a*.lock:c*..d", "ReferenceName(LockSuffix)"),
        // Both come before a star on one side alone.
        ("a*b*", "PatternUnsupported { pattern: \"a*b*\" }"),
        ("a*b*:", "PatternUnsupported { pattern: \"a*b*\" }"),
        ("+a*b*:c", "PatternUnsupported { pattern: \"a*b*\" }"),
        ("a:b*c*", "PatternUnsupported { pattern: \"b*c*\" }"),
        (":b*c*", "PatternUnsupported { pattern: \"b*c*\" }"),
        ("a*.lock", "ReferenceName(LockSuffix)"),
        ("+a*.lock:b", "ReferenceName(LockSuffix)"),
        ("a..b:c*", "ReferenceName(RepeatedDot)"),
        ("a:b*.lock", "ReferenceName(LockSuffix)"),
        (":b*.lock", "ReferenceName(LockSuffix)"),
        ("a*:b..c", "ReferenceName(RepeatedDot)"),
    ];
    check_rows(&rt, rt.alloc(), Operation::Fetch, ROWS)?;
    Ok(())
}

#[test]
fn refuses_pushes(rt: HostRuntime) -> Result<(), Fail> {
    const ROWS: &[(&str, &str)] = &[
        ("", "Empty"),
        ("::", "PushToEmpty"),
        ("a*b*:", "PushToEmpty"),
        (":a*b*", "PatternUnsupported { pattern: \"a*b*\" }"),
        (":*.lock", "ReferenceName(LockSuffix)"),
        (":a*", "PatternUnbalanced"),
        ("x:a*", "PatternUnbalanced"),
        // Two reasons each. No destination comes before what is wrong with the source.
        ("+a*b*:", "PushToEmpty"),
        ("a..b*:", "PushToEmpty"),
        ("a*.lock:", "PushToEmpty"),
        ("a..b:", "PushToEmpty"),
        ("a*:", "PushToEmpty"),
        // Several stars come before a bad name on the same side.
        ("a..b**", "PatternUnsupported { pattern: \"a..b**\" }"),
        ("a..b**:c*", "PatternUnsupported { pattern: \"a..b**\" }"),
        ("a:b..c**", "PatternUnsupported { pattern: \"b..c**\" }"),
        // The source comes before the destination.
        ("a*b*:c*d*", "PatternUnsupported { pattern: \"a*b*\" }"),
        ("a*b*:c..d", "PatternUnsupported { pattern: \"a*b*\" }"),
        ("a*.lock:c*d*", "ReferenceName(LockSuffix)"),
        ("a*.lock:c..d", "ReferenceName(LockSuffix)"),
        ("a*b*:c*.lock", "PatternUnsupported { pattern: \"a*b*\" }"),
        ("a*.lock:c*..d", "ReferenceName(LockSuffix)"),
        // Both come before a star on one side alone.
        ("+a*b*:c", "PatternUnsupported { pattern: \"a*b*\" }"),
        ("a:b*c*", "PatternUnsupported { pattern: \"b*c*\" }"),
        ("+a*.lock:b", "ReferenceName(LockSuffix)"),
        ("a:b*.lock", "ReferenceName(LockSuffix)"),
        ("a*:b..c", "ReferenceName(RepeatedDot)"),
        // A source without a star need not be a name where there is a destination.
        ("a..b:c*d*", "PatternUnsupported { pattern: \"c*d*\" }"),
        ("a..b:c.lock", "ReferenceName(LockSuffix)"),
        ("a..b:c*", "PatternUnbalanced"),
    ];
    check_rows(&rt, rt.alloc(), Operation::Push, ROWS)?;
    Ok(())
}

#[test]
fn answers_both_operations_alike(rt: HostRuntime) -> Result<(), Fail> {
    const ROWS: &[(&str, &str)] = &[
        ("^@", "^HEAD"),
        ("^+x", "^+x"),
        (DIGITS_39, DIGITS_39),
        (DIGITS_40, "NegativeObjectHash"),
        (DIGITS_41, "NegativeObjectHash"),
        (UPPER_40, "NegativeObjectHash"),
        ("^", "NegativeEmpty"),
        ("^a:b", "NegativeWithDestination"),
        ("^x:y", "NegativeWithDestination"),
        ("^a..b", "ReferenceName(RepeatedDot)"),
        ("+^x", "ReferenceName(InvalidByte { byte: 94 })"),
        ("a\x07b", "ReferenceName(InvalidByte { byte: 7 })"),
        ("a\tb", "ReferenceName(InvalidByte { byte: 9 })"),
        ("a\x0bb", "ReferenceName(InvalidByte { byte: 11 })"),
        ("a\x1eb", "ReferenceName(InvalidByte { byte: 30 })"),
        ("^a\"b", "^a\"b"),
        ("a\"b:\"c", "a\"b:\"c"),
        // Two reasons or more each. A destination of a negative spec comes before all else.
        ("^:", "NegativeWithDestination"),
        ("^:b", "NegativeWithDestination"),
        ("^:b*c*", "NegativeWithDestination"),
        ("^:b..c", "NegativeWithDestination"),
        ("^a:", "NegativeWithDestination"),
        (DIGITS_40_TO_NOTHING, "NegativeWithDestination"),
        (DIGITS_40_TO, "NegativeWithDestination"),
        (DIGITS_40_TO_STARS, "NegativeWithDestination"),
        (DIGITS_40_TO_DOTS, "NegativeWithDestination"),
        ("^a*b*:c", "NegativeWithDestination"),
        ("^a..b:c", "NegativeWithDestination"),
        ("^a*.lock:c", "NegativeWithDestination"),
        ("^a:b*c*", "NegativeWithDestination"),
        ("^a:b..c", "NegativeWithDestination"),
        ("^a:b*.lock", "NegativeWithDestination"),
        ("^a*:b", "NegativeWithDestination"),
        ("^a..b**", "PatternUnsupported { pattern: \"a..b**\" }"),
        ("^a*b*", "PatternUnsupported { pattern: \"a*b*\" }"),
        ("^a*.lock", "ReferenceName(LockSuffix)"),
        // Without a destination no side is wanting its star.
        ("^a*", "^a*"),
    ];
    check_rows(&rt, rt.alloc(), Operation::Fetch, ROWS)?;
    check_rows(&rt, rt.alloc(), Operation::Push, ROWS)?;
    Ok(())
}

// Examples of git-fetch(1) and git-push(1), and what git-check-ref-format(1) says of names and
// patterns.
#[test]
fn reads_the_examples_of_the_manuals(rt: HostRuntime) -> Result<(), Fail> {
    const FETCHES: &[(&str, &str)] = &[
        ("+seen:seen", "+seen:seen"),
        ("maint:tmp", "maint:tmp"),
        (
            "+refs/heads/*:refs/remotes/origin/*",
            "+refs/heads/*:refs/remotes/origin/*",
        ),
        ("foo/bar*/baz:foo/bar*/baz", "foo/bar*/baz:foo/bar*/baz"),
        (
            "foo/bar*/baz*:foo/bar*/baz*",
            "PatternUnsupported { pattern: \"foo/bar*/baz*\" }",
        ),
        ("foo..bar", "ReferenceName(RepeatedDot)"),
        ("foo.lock/bar", "ReferenceName(LockSuffix)"),
    ];
    check_rows(&rt, rt.alloc(), Operation::Fetch, FETCHES)?;
    const PUSHES: &[(&str, &str)] = &[
        (":", ":"),
        ("master", "master:master"),
        ("HEAD", "HEAD:HEAD"),
        ("HEAD:master", "HEAD:master"),
        (
            "master:refs/heads/experimental",
            "master:refs/heads/experimental",
        ),
        (":experimental", ":experimental"),
        ("+dev:master", "+dev:master"),
        ("master:satellite/master", "master:satellite/master"),
        ("refs/heads/*:refs/tmp/*", "refs/heads/*:refs/tmp/*"),
    ];
    check_rows(&rt, rt.alloc(), Operation::Push, PUSHES)?;
    Ok(())
}

// Whether each text of a table says to do what is written beside it.
fn check_said(
    rt: &impl Abort,
    alloc: Global,
    operation: Operation,
    rows: &[(&str, &str)],
) -> Result<(), Fail> {
    for (text, said) in rows {
        let found = instruction_of(alloc, BStr::new(text.as_bytes()), operation)?;
        let found = format!(in alloc; "{found:?}")?;
        assert_eq!(rt; found.as_str(), *said, "{operation:?} at {text}");
    }
    Ok(())
}

#[test]
fn says_what_a_push_does(rt: HostRuntime) -> Result<(), Fail> {
    const ROWS: &[(&str, &str)] = &[
        (
            ":",
            "Push(AllMatchingBranches { allow_non_fast_forward: false })",
        ),
        (
            "+:",
            "Push(AllMatchingBranches { allow_non_fast_forward: true })",
        ),
        (":x", "Push(Delete { ref_or_pattern: \"x\" })"),
        (":+x", "Push(Delete { ref_or_pattern: \"+x\" })"),
        // A forced deletion is one like any other.
        ("+:x", "Push(Delete { ref_or_pattern: \"x\" })"),
        (
            "main",
            "Push(Matching { src: \"main\", dst: \"main\", allow_non_fast_forward: false })",
        ),
        (
            "+a:b",
            "Push(Matching { src: \"a\", dst: \"b\", allow_non_fast_forward: true })",
        ),
        (
            ":/message:refs/heads/x",
            "Push(Matching { src: \":/message\", dst: \"refs/heads/x\", allow_non_fast_forward: false })",
        ),
        (
            "::x",
            "Push(Matching { src: \":\", dst: \"x\", allow_non_fast_forward: false })",
        ),
        ("^main", "Push(Exclude { src: \"main\" })"),
    ];
    check_said(&rt, rt.alloc(), Operation::Push, ROWS)
}

#[test]
fn says_what_a_fetch_does(rt: HostRuntime) -> Result<(), Fail> {
    const ROWS: &[(&str, &str)] = &[
        ("", "Fetch(Only { src: \"HEAD\" })"),
        ("main", "Fetch(Only { src: \"main\" })"),
        // Where no local ref is updated there is nothing to force.
        ("+main", "Fetch(Only { src: \"main\" })"),
        ("++foo", "Fetch(Only { src: \"+foo\" })"),
        ("++", "Fetch(Only { src: \"+\" })"),
        ("^main", "Fetch(Exclude { src: \"main\" })"),
        (
            "a:b",
            "Fetch(AndUpdate { src: \"a\", dst: \"b\", allow_non_fast_forward: false })",
        ),
        (
            "+a:b",
            "Fetch(AndUpdate { src: \"a\", dst: \"b\", allow_non_fast_forward: true })",
        ),
    ];
    check_said(&rt, rt.alloc(), Operation::Fetch, ROWS)
}

#[test]
fn sides_outlive_the_spec(rt: HostRuntime) -> Result<(), Fail> {
    let text = BStr::new(b"main:topic");
    let Instruction::Fetch(Fetch::AndUpdate { src, dst, .. }) = instruction_of(
        rt.alloc(),
        text,
        Operation::Fetch,
    )?
    else {
        return Err(Fail::new("no update of a local ref"));
    };
    assert_eq!(rt; (src, dst), (BStr::new(b"main"), BStr::new(b"topic")));
    let text = BStr::new(b"refs/tags/*:refs/heads/*");
    let sides = sides_of(rt.alloc(), text, Operation::Push)?;
    let tags = Some(BStr::new(b"refs/tags/*"));
    let heads = Some(BStr::new(b"refs/heads/*"));
    let prefix = Some(BStr::new(b"refs/heads/"));
    assert_eq!(rt;
        (
            sides.source,
            sides.destination,
            sides.local,
            sides.remote,
            sides.prefix
        ),
        (tags, heads, tags, heads, prefix)
    );
    Ok(())
}

#[test]
fn checks_long_patterns(rt: HostRuntime) -> Result<(), Fail> {
    let alloc = rt.alloc();
    // With 244 letters a side has 256 bytes.
    const ROWS: &[(usize, &str, Option<&str>)] = &[
        (244, "", None),
        (245, "", None),
        (245, ".lock", Some("ReferenceName(LockSuffix)")),
    ];
    for (letters, end, refusal) in ROWS {
        let text = doubled(alloc, *letters, end)?;
        let found = canon(alloc, text.as_str(), Operation::Fetch)?;
        let wanted = refusal.unwrap_or(text.as_str());
        assert_eq!(rt; found.as_str(), wanted, "at {letters} letters");
    }
    Ok(())
}
