//! Refspecs from their parts.

use bstr::BStr;
use gix_refspec_remote::{PartsError, Sign, SpecParts, from_parts};
use gix_refspec_text::parsing::Operation;
use std::alloc::Global;
use std::test::Fail;

// The canonical text of the spec with these parts, or why there is none.
fn text_of(alloc: Global, parts: SpecParts<'_>) -> Result<String, Fail> {
    match from_parts(alloc, parts) {
        Ok(spec) => {
            let text = spec.to_ref().to_bstring(alloc)?;
            Ok(format!(in alloc; "{text}")?)
        }
        Err(PartsError::Text(error)) => Ok(String::from_str(alloc, error.reason())?),
        Err(PartsError::OtherParts) => Ok(String::from_str(alloc, "other parts")?),
        Err(PartsError::Memory) => Ok(String::from_str(alloc, "no memory")?),
    }
}

#[test]
fn makes_specs_from_parts(rt: HostRuntime) -> Result<(), Fail> {
    const FETCH: Operation = Operation::Fetch;
    const PUSH: Operation = Operation::Push;
    // Which of these texts Git 2.39.5 accepts, `git fetch` and `git push --dry-run` say.
    const ROWS: &[(Operation, Sign, &str, Option<&str>, &str)] = &[
        (
            FETCH,
            Sign::Plus,
            "refs/heads/*",
            Some("refs/remotes/o/*"),
            "+refs/heads/*:refs/remotes/o/*",
        ),
        (FETCH, Sign::None, "@", None, "HEAD"),
        (FETCH, Sign::Caret, "refs/heads/x", None, "^refs/heads/x"),
        (FETCH, Sign::None, "a", Some(""), "a"),
        (FETCH, Sign::None, "+a", None, "other parts"),
        (FETCH, Sign::None, "^a", None, "other parts"),
        (FETCH, Sign::None, "a:b", None, "other parts"),
        (FETCH, Sign::None, "a", Some("b:c"), "other parts"),
        (FETCH, Sign::None, "a:b", Some("c"), "ReferenceName"),
        (PUSH, Sign::None, ":/fix", Some("c"), ":/fix:c"),
        (PUSH, Sign::Plus, "+a", Some("c"), "++a:c"),
        (PUSH, Sign::None, "", Some("c"), ":c"),
        (PUSH, Sign::None, "", None, "Empty"),
        (FETCH, Sign::None, "a*", Some("b"), "PatternUnbalanced"),
        (
            FETCH,
            Sign::Caret,
            "a",
            Some("b"),
            "NegativeWithDestination",
        ),
    ];
    let alloc = rt.alloc();
    for (operation, sign, source, destination, expected) in ROWS {
        let parts = SpecParts {
            operation: *operation,
            sign: *sign,
            source: BStr::new(source.as_bytes()),
            destination: match destination {
                None => None,
                Some(destination) => Some(BStr::new(destination.as_bytes())),
            },
        };
        assert_eq!(rt;
            text_of(alloc, parts)?.as_str(),
            *expected,
            "{source} and {destination:?}"
        );
    }
    Ok(())
}
