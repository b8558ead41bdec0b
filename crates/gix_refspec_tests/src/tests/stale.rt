//! Which local refs look stale, held against `git fetch --prune` of git 2.39. Each test says what that does with its rows.

use super::mapping::{items_of, target};
use super::plans::specs_of;
use gix_refspec_plan::stale::{Stale, stale_refs};
use std::alloc::Global;
use std::process::Abort;
use std::test::Fail;

// An object that is asked for by its id.
const ID: &str = "1111111111111111111111111111111111111111:refs/x";

// The index of the local ref, and whether it is stale or kept by a spec.
fn text_of(alloc: Global, found: &[Stale]) -> Result<String, Fail> {
    let mut text = String::new(alloc);
    for one in found {
        match one.kept_by {
            None => writeln!(text, "{} stale", one.item_index)?,
            Some(spec) => writeln!(text, "{} kept by {spec}", one.item_index)?,
        }
    }
    Ok(text)
}

// What is told of specs, refs of the remote and local ones, one a word.
fn told(alloc: Global, specs: &str, remote: &str, local: &str) -> Result<String, Fail> {
    let target = target();
    let specs = specs_of(alloc, specs)?;
    let remote = items_of(alloc, remote, &target)?;
    let local = items_of(alloc, local, &target)?;
    let found = stale_refs(alloc, specs.as_slice(), remote.as_slice(), local.as_slice())?;
    text_of(alloc, found.as_slice())
}

// The specs, the refs of the remote, and the local ones, one a word; and what is told.
fn check(rt: &(impl Abort + AllocGlobal), rows: &[(&str, &str, &str, &str)]) -> Result<(), Fail> {
    for (specs, remote, local, wanted) in rows {
        let found = told(rt.alloc(), specs, remote, local)?;
        assert_eq!(rt; found.as_str(), *wanted, "with {specs}");
    }
    Ok(())
}

// Git deletes those that are stale and no other.
#[test]
fn tells_refs_that_are_gone(rt: HostRuntime) -> Result<(), Fail> {
    const TRACKING: &str = "refs/heads/*:refs/remotes/origin/*";
    const BOTH: &str = "refs/heads/*:refs/o/* refs/tags/*:refs/o/*";
    const BESIDE: &str = "refs/heads/*:refs/o/* refs/heads/a:refs/o/b";
    const ROWS: &[(&str, &str, &str, &str)] = &[
        (
            TRACKING,
            "refs/heads/main",
            "refs/remotes/origin/gone",
            "0 stale\n",
        ),
        (TRACKING, "refs/heads/main", "refs/remotes/origin/main", ""),
        (
            TRACKING,
            "refs/heads/main",
            "refs/heads/gone refs/remotes/up/gone",
            "",
        ),
        (
            TRACKING,
            "refs/heads/b",
            "refs/remotes/origin/a refs/remotes/origin/b refs/remotes/origin/c refs/remotes/origin/a",
            "0 stale\n2 stale\n",
        ),
        (BOTH, "refs/tags/a", "refs/o/a refs/o/b", "1 stale\n"),
        (
            BESIDE,
            "refs/heads/a",
            "refs/o/a refs/o/b refs/o/c",
            "2 stale\n",
        ),
        (
            "refs/tags/*:refs/tags/*",
            "refs/tags/b",
            "refs/tags/a refs/tags/b",
            "0 stale\n",
        ),
        ("refs/heads/a:refs/x", "refs/heads/a", "refs/x", ""),
        ("main:heads/x", "refs/heads/main", "refs/heads/x", ""),
        (
            "main:refs/x refs/heads/main:refs/x",
            "refs/heads/main",
            "refs/x",
            "",
        ),
        (ID, "refs/heads/dev", "refs/x", ""),
    ];
    check(&rt, ROWS)
}

// Git keeps those that are kept here.
#[test]
fn keeps_refs_of_excluded_sources(rt: HostRuntime) -> Result<(), Fail> {
    const ROWS: &[(&str, &str, &str, &str)] = &[
        (
            "refs/heads/*:refs/o/* ^refs/heads/a",
            "refs/heads/a refs/heads/b",
            "refs/o/a refs/o/b refs/o/c",
            "0 kept by 1\n2 stale\n",
        ),
        (
            "^refs/heads/x/* refs/heads/*:refs/o/*",
            "refs/heads/b",
            "refs/o/x/a refs/o/b refs/o/a",
            "0 kept by 0\n2 stale\n",
        ),
        (
            "refs/heads/*:refs/o/* refs/tags/*:refs/o/* ^refs/tags/b",
            "refs/heads/a",
            "refs/o/a refs/o/b refs/o/c",
            "1 kept by 2\n2 stale\n",
        ),
        // Another spec writes it.
        (
            "refs/heads/a:refs/x refs/heads/b:refs/x ^refs/heads/a",
            "refs/heads/a refs/heads/b",
            "refs/x",
            "",
        ),
    ];
    check(&rt, ROWS)
}

// Git deletes those that are kept here: negative specs keep only refs that a pattern writes.
#[test]
fn keeps_refs_of_excluded_sources_without_stars(rt: HostRuntime) -> Result<(), Fail> {
    const ROWS: &[(&str, &str, &str, &str)] = &[
        (
            "refs/heads/a:refs/x ^refs/heads/a",
            "refs/heads/a",
            "refs/x",
            "0 kept by 1\n",
        ),
        // The name itself is a candidate of `HEAD`.
        ("HEAD:refs/x ^HEAD", "HEAD", "refs/x", "0 kept by 1\n"),
        (
            "refs/heads/*:refs/o/* refs/tags/a:refs/o/a ^refs/tags/a",
            "refs/heads/b refs/tags/a",
            "refs/o/a",
            "0 kept by 2\n",
        ),
    ];
    check(&rt, ROWS)
}

// Git deletes `refs/x`, and writes it at the next fetch: it looks for a ref that is called `main`.
#[test]
fn looks_for_all_that_a_name_may_stand_for(rt: HostRuntime) -> Result<(), Fail> {
    const ROWS: &[(&str, &str, &str, &str)] = &[
        ("main:refs/x", "refs/tags/main", "refs/x", ""),
        ("main:refs/x", "refs/remotes/main/HEAD", "refs/x", ""),
        (
            "main:refs/x ^refs/tags/main",
            "refs/heads/main",
            "refs/x",
            "",
        ),
    ];
    check(&rt, ROWS)
}

// Git refuses to fetch, and deletes nothing: a source without a star is missing.
#[test]
fn tells_stale_refs_although_a_source_is_missing(rt: HostRuntime) -> Result<(), Fail> {
    const ROWS: &[(&str, &str, &str, &str)] = &[
        (
            "refs/heads/a:refs/x",
            "refs/heads/b",
            "refs/x refs/y",
            "0 stale\n",
        ),
        ("refs/heads/a", "refs/heads/b", "refs/heads/a", ""),
        (
            "refs/heads/a:refs/x refs/heads/b:refs/x",
            "refs/heads/b",
            "refs/x",
            "",
        ),
        ("main:refs/x", "refs/heads/dev", "refs/x", "0 stale\n"),
        (
            "main:refs/x refs/heads/main:refs/x",
            "refs/heads/dev",
            "refs/x",
            "0 stale\n",
        ),
        (
            "main:heads/x",
            "refs/heads/dev",
            "refs/heads/x",
            "0 stale\n",
        ),
        (
            "main:x",
            "refs/heads/dev",
            "refs/heads/x refs/x",
            "0 stale\n",
        ),
        (
            "main:refs/x ^refs/tags/main",
            "refs/heads/dev",
            "refs/x",
            "0 kept by 1\n",
        ),
        (
            "refs/heads/main:refs/x main:refs/x ^refs/tags/main",
            "refs/heads/dev",
            "refs/x",
            "0 kept by 2\n",
        ),
    ];
    check(&rt, ROWS)
}
