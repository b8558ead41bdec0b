//! Sources that no ref of the remote has.

use super::mapping::{group_of, items_of, target};
use gix_refspec::RefSpecRef;
use gix_refspec::match_group::Item;
use gix_refspec::parsing::Operation;
use gix_refspec_match::missing_sources;
use std::alloc::{AllocError, Global};
use std::test::Fail;

// The indexes of the specs whose source is missing.
fn missing(
    alloc: Global,
    specs: &[RefSpecRef<'_>],
    items: &[Item<'_>],
) -> Result<String, AllocError> {
    let mut text = String::new(alloc);
    for index in &missing_sources(alloc, specs, items)? {
        let space = if text.is_empty() { "" } else { " " };
        write!(text, "{space}{index}")?;
    }
    Ok(text)
}

#[test]
fn finds_missing_sources(rt: HostRuntime) -> Result<(), Fail> {
    let alloc = rt.alloc();
    let target = target();
    // Specs, names of refs, and the indexes of the specs whose source is missing.
    const ROWS: &[(&str, &str, &str)] = &[
        (
            "refs/heads/main refs/heads/next:refs/x",
            "refs/heads/main",
            "1",
        ),
        ("main next", "refs/heads/main", "1"),
        ("main", "refs/remotes/main/HEAD", ""),
        ("main", "refs/heads/main/x", "0"),
        ("HEAD HEAD", "refs/heads/main", "0 1"),
        // Patterns, ids and negative specs lack nothing.
        (
            "refs/x/*:refs/y/* 1111111111111111111111111111111111111111 ^refs/x",
            "refs/heads/main",
            "",
        ),
    ];
    for (specs, names, indexes) in ROWS {
        let group = group_of(alloc, Operation::Fetch, specs)?;
        let items = items_of(alloc, names, &target)?;
        let text = missing(alloc, group.specs.as_slice(), items.as_slice())?;
        assert_eq!(&rt; text.as_str(), *indexes, "{specs} among {names}");
    }
    Ok(())
}
