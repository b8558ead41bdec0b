//! How many stars the sides of specs have, of which two laws speak.

use bstr::BStr;
use gix_refspec::parsing::Operation;
use gix_refspec::{laws, parse};
use std::test::Fail;

// How many stars a side has; none where it isn't there.
fn stars(side: Option<BStr<'_>>) -> usize {
    match side {
        None => 0,
        Some(side) => side.as_bytes().iter().filter(|byte| **byte == b'*').count(),
    }
}

#[test]
fn sides_have_one_star_or_none(rt: HostRuntime) -> Result<(), Fail> {
    // How many stars the source and the destination have.
    const ROWS: &[(Operation, &str, usize, usize)] = &[
        (Operation::Fetch, "refs/heads/*:refs/x/*", 1, 1),
        (Operation::Fetch, "main:refs/x", 0, 0),
        (Operation::Fetch, "^refs/heads/*", 1, 0),
        (Operation::Push, "refs/heads/*:refs/x/*", 1, 1),
        (Operation::Push, "refs/heads/*", 1, 0),
        (Operation::Push, "main~2:refs/x", 0, 0),
        (Operation::Push, ":refs/x", 0, 0),
    ];
    let alloc = rt.alloc();
    for (operation, text, of_source, of_destination) in ROWS {
        let spec = parse(alloc, BStr::new(text.as_bytes()), *operation)?;
        laws::sides_agree(&spec);
        laws::owned_sides_agree(&spec.to_owned(alloc)?);
        assert_eq!(rt;
            (stars(spec.source()), stars(spec.destination())),
            (*of_source, *of_destination),
            "at {text}"
        );
    }
    Ok(())
}
