//! What a prefetch applies in place of a spec.

use bstr::BStr;
use gix_refspec_remote::prefetched;
use gix_refspec_text::parse;
use gix_refspec_text::parsing::Operation;
use std::test::Fail;

#[test]
fn says_what_a_prefetch_applies(rt: HostRuntime) -> Result<(), Fail> {
    // The destinations are the refs that `git fetch --prefetch` of Git 2.39.5 writes.
    const ROWS: &[(&str, Option<&str>)] = &[
        (
            "refs/heads/*:refs/remotes/o/*",
            Some("+refs/heads/*:refs/prefetch/remotes/o/*"),
        ),
        ("^refs/heads/x", Some("^refs/heads/x")),
        ("refs/heads/main", None),
        ("main:y", Some("+main:refs/prefetch/y")),
        (":z", Some("+HEAD:refs/prefetch/z")),
        ("tags/t:y", Some("+tags/t:refs/prefetch/y")),
        ("refs/tags/t:y", None),
        ("refs/tags/*:refs/tags/*", None),
        (
            "refs/*:refs/mirror/*",
            Some("+refs/*:refs/prefetch/mirror/*"),
        ),
        (
            "refs/heads/x:refs/prefetch/x",
            Some("+refs/heads/x:refs/prefetch/prefetch/x"),
        ),
        (
            "refs/heads/x:HEAD",
            Some("+refs/heads/x:refs/prefetch/HEAD"),
        ),
    ];
    let alloc = rt.alloc();
    for (text, expected) in ROWS {
        let spec = parse(alloc, BStr::new(text.as_bytes()), Operation::Fetch)?;
        let found = prefetched(alloc, &spec)?;
        let text = match &found {
            None => None,
            Some(text) => Some(text.as_bytes()),
        };
        let expected = match expected {
            None => None,
            Some(text) => Some(text.as_bytes()),
        };
        assert_eq!(rt; text, expected, "{spec:?}");
    }
    Ok(())
}
