//! Which bytes of a refused text are wrong. The indexes are counted by hand.

use bstr::BStr;
use gix_refspec_text::locate;
use gix_refspec_text::parsing::Operation::{self, Fetch, Push};
use gix_refspec_text::parsing::Side::{self, Destination, Source};
use gix_refspec_text::parsing::Span;

// A text that is refused, the side that is wrong, the index of the first wrong byte, and the wrong bytes.
const WRONG: &[(Operation, &str, Side, usize, &str)] = &[
    // Each fault of a name, within it and at its borders.
    (Fetch, "a..b", Source, 1, ".."),
    (Fetch, "+a:b..", Destination, 4, ".."),
    (Fetch, "/a", Source, 0, "/"),
    (Fetch, "//a", Source, 0, "/"),
    (Fetch, "a//b", Source, 1, "//"),
    (Fetch, "a/", Source, 1, "/"),
    (Fetch, "a//", Source, 1, "//"),
    (Fetch, ".a", Source, 0, "."),
    (Fetch, "a/.b", Source, 1, "/."),
    (Fetch, "a.lock/b", Source, 1, ".lock"),
    (Fetch, "a.lock", Source, 1, ".lock"),
    (Fetch, ".lock", Source, 0, "."),
    (Fetch, "a/.lock", Source, 1, "/."),
    (Fetch, "a.", Source, 1, "."),
    (Fetch, ".", Source, 0, "."),
    (Fetch, "a@{1}", Source, 1, "@{"),
    (Fetch, "a b", Source, 1, " "),
    (Fetch, "a:b:c", Source, 1, ":"),
    // The first of several, also beside a star.
    (Fetch, "a.lock.b..c.lock", Source, 8, ".."),
    (Fetch, "a b..c", Source, 1, " "),
    (Fetch, "a..b c:d e", Source, 1, ".."),
    (Fetch, "a*/.b", Source, 2, "/."),
    (Fetch, "*.lock:b", Source, 1, ".lock"),
    // A second star, in the first such side, whatever else is wrong with it.
    (Fetch, "a*b*c", Source, 3, "*"),
    (Fetch, "a..b**:c", Source, 5, "*"),
    (Fetch, "+a*:*/*", Destination, 6, "*"),
    (Push, "a*b*:c..d", Source, 3, "*"),
    // A lone star.
    (Fetch, "a*:b", Source, 1, "*"),
    (Fetch, "a:b*", Destination, 3, "*"),
    (Fetch, "+refs/heads/*", Source, 12, "*"),
    (Push, ":a/*", Destination, 3, "*"),
    // The source of a push may be any expression.
    (Push, "main~2:b..c", Destination, 8, ".."),
    (Push, "main~2", Source, 4, "~"),
    // Negative specs.
    (Fetch, "^a:b", Destination, 3, "b"),
    (Fetch, "^a b", Source, 2, " "),
    (
        Push,
        "^1111111111111111111111111111111111111111",
        Source,
        1,
        "1111111111111111111111111111111111111111",
    ),
];

// Specs, and texts in which something is missing.
const NOT_WRONG: &[(Operation, &str)] = &[
    (Fetch, "+refs/heads/*:refs/remotes/origin/*"),
    (Push, "main~2:main"),
    (Push, "refs/heads/*"),
    (Fetch, ""),
    (Push, ""),
    (Push, "main:"),
    (Fetch, "^"),
    (Fetch, "^a:"),
];

#[test]
fn locates_wrong_bytes(rt: HostRuntime) {
    for (operation, text, side, start, wrong) in WRONG {
        let span = Span {
            side: *side,
            start: *start,
            len: wrong.len(),
        };
        let found = locate(BStr::new(text.as_bytes()), *operation);
        assert_eq!(rt; found, Some(span), "at {text}");
    }
}

#[test]
fn locates_nothing_where_nothing_is_wrong(rt: HostRuntime) {
    for (operation, text) in NOT_WRONG {
        let found = locate(BStr::new(text.as_bytes()), *operation);
        assert_eq!(rt; found, None, "at {text}");
    }
}
