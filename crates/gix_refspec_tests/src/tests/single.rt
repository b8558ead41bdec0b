//! What one spec makes of one name.

use super::mapping::add_line;
use bstr::BStr;
use gix_refspec::match_group::{MapName, Mapping};
use gix_refspec::parse;
use gix_refspec::parsing::Operation;
use std::alloc::{AllocError, Global};
use std::process::Abort;
use std::test::Fail;

// A mapping as rows write it, and nothing where there is none.
fn line(alloc: Global, mapping: &Option<Mapping<'_, '_>>) -> Result<String, AllocError> {
    let mut text = String::new(alloc);
    if let Some(mapping) = mapping {
        add_line(&mut text, mapping)?;
    }
    Ok(text)
}

// What Git 2.39.5 writes where the remote has this ref and the command line this spec.
fn check_maps(rt: &(impl Abort + AllocGlobal), rows: &[(&str, &str, &str)]) -> Result<(), Fail> {
    let alloc = rt.alloc();
    for (text, name, expected) in rows {
        let spec = parse(alloc, BStr::new(text.as_bytes()), Operation::Fetch)?;
        let mapping = spec.map(alloc, BStr::new(name.as_bytes()))?;
        assert_eq!(rt;
            line(alloc, &mapping)?.as_str(),
            *expected,
            "{name} by {text}"
        );
    }
    Ok(())
}

#[test]
fn maps_one_name_by_a_pattern(rt: HostRuntime) -> Result<(), Fail> {
    const ROWS: &[(&str, &str, &str)] = &[
        (
            "+refs/heads/*:refs/remotes/origin/*",
            "refs/heads/main",
            "0 0 refs/heads/main =refs/remotes/origin/main\n",
        ),
        ("+refs/heads/*:refs/remotes/origin/*", "refs/tags/v1", ""),
        (
            "refs/pull/*/head:refs/remotes/origin/pr/*",
            "refs/pull/7/head",
            "0 0 refs/pull/7/head =refs/remotes/origin/pr/7\n",
        ),
        (
            "refs/pull/*/head:refs/remotes/origin/pr/*",
            "refs/pull/7/merge",
            "",
        ),
        ("refs/heads/a*a:refs/x/*", "refs/heads/a", ""),
        ("^refs/heads/*", "refs/heads/main", ""),
    ];
    check_maps(&rt, ROWS)
}

#[test]
fn maps_one_name_by_a_partial_name(rt: HostRuntime) -> Result<(), Fail> {
    const ROWS: &[(&str, &str, &str)] = &[
        (
            "main:refs/x",
            "refs/heads/main",
            "0 0 refs/heads/main refs/x\n",
        ),
        (
            "main:x",
            "refs/heads/main",
            "0 0 refs/heads/main =refs/heads/x\n",
        ),
        ("main", "refs/heads/main", "0 0 refs/heads/main -\n"),
        ("main", "refs/heads/main/main", ""),
        ("other", "refs/other", "0 0 refs/other -\n"),
        (
            "v1:refs/x/v1",
            "refs/tags/v1",
            "0 0 refs/tags/v1 refs/x/v1\n",
        ),
        (
            "up:refs/x/up",
            "refs/remotes/up/HEAD",
            "0 0 refs/remotes/up/HEAD refs/x/up\n",
        ),
        ("up:refs/x/up", "refs/remotes/down/HEAD", ""),
        (
            "e69de29bb2d1d6434b8b29ae775ad8c2e48c5391:refs/x/id",
            "refs/heads/main",
            "",
        ),
    ];
    check_maps(&rt, ROWS)
}

#[test]
fn maps_one_name_back(rt: HostRuntime) -> Result<(), Fail> {
    // Which ref Git 2.39.5 merges into a branch that is made from this one by `git branch --track`.
    const ROWS: &[(&str, &str, &str)] = &[
        (
            "+refs/heads/*:refs/remotes/origin/*",
            "refs/remotes/origin/main",
            "0 0 =refs/heads/main refs/remotes/origin/main\n",
        ),
        (
            "refs/pull/*/head:refs/remotes/origin/pr/*",
            "refs/remotes/origin/pr/7",
            "0 0 =refs/pull/7/head refs/remotes/origin/pr/7\n",
        ),
        (
            "refs/heads/main:refs/remotes/x",
            "refs/remotes/x",
            "0 0 refs/heads/main refs/remotes/x\n",
        ),
        ("+refs/heads/*:refs/remotes/origin/*", "refs/heads/main", ""),
        ("refs/heads/main", "refs/heads/main", ""),
        ("^refs/heads/main", "refs/heads/main", ""),
    ];
    let alloc = rt.alloc();
    for (text, name, expected) in ROWS {
        let spec = parse(alloc, BStr::new(text.as_bytes()), Operation::Fetch)?;
        let mapping = spec.map_back(alloc, BStr::new(name.as_bytes()))?;
        assert_eq!(rt;
            line(alloc, &mapping)?.as_str(),
            *expected,
            "{name} by {text}"
        );
    }
    Ok(())
}
