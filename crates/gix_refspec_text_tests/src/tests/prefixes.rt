//! What a client asks a server to advertise for one spec.

use bstr::{BStr, BString};
use gix_refspec_text::parse;
use gix_refspec_text::parsing::Operation;
use std::alloc::{AllocError, Global};
use std::process::Abort;
use std::test::Fail;

const ID: &str = "aaaaaaaaaaaaaaaaaaaaaaaaaaaaaaaaaaaaaaaa";

const ID_UPPER: &str = "AAAAAAAAAAAAAAAAAAAAAAAAAAAAAAAAAAAAAAAA";

const ID_MIXED: &str = "0123456789abcdefABCDEF0123456789abcdefAB";

const ID_64: &str = "0123456789abcdef0123456789abcdef0123456789abcdef0123456789abcdef";

const ID_64_UPPER: &str = "FFFFFFFFFFFFFFFFFFFFFFFFFFFFFFFFFFFFFFFFFFFFFFFFFFFFFFFFFFFFFFFF";

const ID_PUSHED: &str = "main:aaaaaaaaaaaaaaaaaaaaaaaaaaaaaaaaaaaaaaaa";

const ID_PUSHED_UPPER: &str = "main:FFFFFFFFFFFFFFFFFFFFFFFFFFFFFFFFFFFFFFFF";

const ID_64_PUSHED: &str = "main:ffffffffffffffffffffffffffffffffffffffffffffffffffffffffffffffff";

// What is nearly an id, and the names that it may be short for.
const DIGITS_41: &str = "11111111111111111111111111111111111111111";

const CANDIDATES_41: &str =
    "11111111111111111111111111111111111111111\nrefs/11111111111111111111111111111111111111111\nrefs/tags/11111111111111111111111111111111111111111\nrefs/heads/11111111111111111111111111111111111111111\nrefs/remotes/11111111111111111111111111111111111111111\nrefs/remotes/11111111111111111111111111111111111111111/HEAD\n";

const NO_DIGIT: &str = "aaaaaaaaaaaaaaaaaaaaaaaaaaaaaaaaaaaaaaag";

const CANDIDATES_NO_DIGIT: &str =
    "aaaaaaaaaaaaaaaaaaaaaaaaaaaaaaaaaaaaaaag\nrefs/aaaaaaaaaaaaaaaaaaaaaaaaaaaaaaaaaaaaaaag\nrefs/tags/aaaaaaaaaaaaaaaaaaaaaaaaaaaaaaaaaaaaaaag\nrefs/heads/aaaaaaaaaaaaaaaaaaaaaaaaaaaaaaaaaaaaaaag\nrefs/remotes/aaaaaaaaaaaaaaaaaaaaaaaaaaaaaaaaaaaaaaag\nrefs/remotes/aaaaaaaaaaaaaaaaaaaaaaaaaaaaaaaaaaaaaaag/HEAD\n";

// What the entries are, one a line.
fn lines(alloc: Global, entries: &[BString]) -> Result<String, AllocError> {
    let mut text = String::new(alloc);
    for entry in entries {
        let line = format!(in alloc; "{entry}\n")?;
        text.push_str(line.as_str())?;
    }
    Ok(text)
}

// Whether the prefix of each spec and what it is expanded to are as written beside it. The entries
// are added after one that was there.
fn check_rows(
    rt: &impl Abort,
    alloc: Global,
    operation: Operation,
    rows: &[(&str, Option<&str>, &str)],
) -> Result<(), Fail> {
    for (text, prefix, entries) in rows {
        let spec = parse(alloc, BStr::new(text.as_bytes()), operation)?;
        let mut out = vec![in alloc; BString::from_slice(alloc, b"kept")?]?;
        spec.expand_prefixes(alloc, &mut out)?;
        let found = lines(alloc, out.as_slice())?;
        let wanted = format!(in alloc; "kept\n{entries}")?;
        let asked = prefix.map(|prefix| BStr::new(prefix.as_bytes()));
        assert_eq!(rt;
            (spec.prefix(), found.as_str()),
            (asked, wanted.as_str()),
            "{operation:?} at {text}"
        );
    }
    Ok(())
}

#[test]
fn asks_for_a_fetch(rt: HostRuntime) -> Result<(), Fail> {
    const ROWS: &[(&str, Option<&str>, &str)] = &[
        ("HEAD", Some("HEAD"), "HEAD\n"),
        (
            "main",
            None,
            "main\nrefs/main\nrefs/tags/main\nrefs/heads/main\nrefs/remotes/main\nrefs/remotes/main/HEAD\n",
        ),
        ("refs/a]b", Some("refs/a]b"), "refs/a]b\n"),
        (
            "refs/heads/*:refs/remotes/origin/*",
            Some("refs/heads/"),
            "refs/heads/\n",
        ),
        (
            "refs/heads/*/suffix:refs/x/*",
            Some("refs/heads/"),
            "refs/heads/\n",
        ),
        ("refs/a*/b:refs/x/*", Some("refs/a"), "refs/a\n"),
        // A `]` in a pattern leaves no prefix, and with a further slash no entry.
        ("refs/a]*:refs/b*", None, "refs/a]*\n"),
        ("refs/a]*/b:refs/x/*", None, ""),
        ("refs/*:refs/x/*", None, "refs/*\n"),
        (
            "*:refs/x/*",
            None,
            "*\nrefs/*\nrefs/tags/*\nrefs/heads/*\nrefs/remotes/*\nrefs/remotes/*/HEAD\n",
        ),
        (ID, None, ""),
        (ID_UPPER, None, ""),
        (ID_MIXED, None, ""),
        (ID_64, None, ""),
        (ID_64_UPPER, None, ""),
        // One digit too many, and a letter that is no digit.
        (DIGITS_41, None, CANDIDATES_41),
        (NO_DIGIT, None, CANDIDATES_NO_DIGIT),
        // A name may have quotes.
        (
            "refs/heads/\"x\"",
            Some("refs/heads/\"x\""),
            "refs/heads/\"x\"\n",
        ),
        ("", Some("HEAD"), "HEAD\n"),
        (":x", Some("HEAD"), "HEAD\n"),
        ("^main", None, ""),
        ("^refs/heads/main", None, ""),
        ("^refs/heads/*", None, ""),
    ];
    check_rows(&rt, rt.alloc(), Operation::Fetch, ROWS)?;
    Ok(())
}

#[test]
fn asks_for_a_push(rt: HostRuntime) -> Result<(), Fail> {
    const ROWS: &[(&str, Option<&str>, &str)] = &[
        (
            "a:x",
            None,
            "x\nrefs/x\nrefs/tags/x\nrefs/heads/x\nrefs/remotes/x\nrefs/remotes/x/HEAD\n",
        ),
        ("main", None, ""),
        (":", None, ""),
        (ID_PUSHED, None, ""),
        (ID_PUSHED_UPPER, None, ""),
        (ID_64_PUSHED, None, ""),
        // The source of a push is not asked for.
        ("main:HEAD", Some("HEAD"), "HEAD\n"),
        (":HEAD", Some("HEAD"), "HEAD\n"),
        ("HEAD:refs/heads/x", Some("refs/heads/x"), "refs/heads/x\n"),
        (":refs/heads/x", Some("refs/heads/x"), "refs/heads/x\n"),
        ("HEAD", None, ""),
        (
            "refs/heads/*:refs/remotes/origin/*",
            Some("refs/remotes/origin/"),
            "refs/remotes/origin/\n",
        ),
        ("a*:refs/x*/b", Some("refs/x"), "refs/x\n"),
        ("refs/heads/*:refs/*", None, "refs/*\n"),
        ("refs/heads/*:refs/a]*", None, "refs/a]*\n"),
        ("refs/heads/*:refs/a]/*", None, ""),
        (
            "refs/a]*:refs/heads/*",
            Some("refs/heads/"),
            "refs/heads/\n",
        ),
        (
            "refs/heads/*:*",
            None,
            "*\nrefs/*\nrefs/tags/*\nrefs/heads/*\nrefs/remotes/*\nrefs/remotes/*/HEAD\n",
        ),
        ("refs/heads/*", None, ""),
        ("^HEAD", None, ""),
        ("^refs/heads/*", None, ""),
    ];
    check_rows(&rt, rt.alloc(), Operation::Push, ROWS)?;
    Ok(())
}
