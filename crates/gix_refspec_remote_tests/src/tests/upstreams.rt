//! The upstream of a branch.

use bstr::BStr;
use gix_refspec_remote::{Upstream, upstream_of};
use gix_refspec_text::parsing::Operation;
use gix_refspec_text::{RefSpecRef, parse};
use std::alloc::{AllocError, Global};
use std::process::Abort;
use std::test::Fail;

// The specs of a row, which are parted by spaces.
fn specs_in(alloc: Global, texts: &'static str) -> Result<Vec<RefSpecRef<'static>>, Fail> {
    let mut specs = Vec::new(alloc);
    for text in texts.split_whitespace() {
        specs.push(parse(alloc, BStr::new(text.as_bytes()), Operation::Fetch)?)?;
    }
    Ok(specs)
}

// An upstream as rows write it.
fn line(alloc: Global, upstream: &Upstream<'_>) -> Result<String, AllocError> {
    match upstream {
        Upstream::Tracked { name, spec_index } => {
            format!(in alloc; "{} by {spec_index}", name.as_bstr())
        }
        Upstream::Excluded {
            spec_index,
            excluded_by,
        } => format!(in alloc; "{spec_index} excluded by {excluded_by}"),
        Upstream::NotStored { spec_index } => format!(in alloc; "not stored by {spec_index}"),
        Upstream::NotFetched => String::from_str(alloc, "not fetched"),
    }
}

// Checks what is found for rows of a merged ref, specs and the upstream.
fn check_each(
    rt: &impl Abort,
    alloc: Global,
    rows: &[(&str, &'static str, &str)],
) -> Result<(), Fail> {
    for (merge, texts, expected) in rows {
        let specs = specs_in(alloc, texts)?;
        let upstream = upstream_of(alloc, specs.as_slice(), BStr::new(merge.as_bytes()))?;
        assert_eq!(rt;
            line(alloc, &upstream)?.as_str(),
            *expected,
            "{merge} by {texts}"
        );
    }
    Ok(())
}

#[test]
fn finds_the_upstream(rt: HostRuntime) -> Result<(), Fail> {
    // The refs are what Git 2.39.5 prints as %(upstream), and it prints nothing where there is none.
    const ROWS: &[(&str, &str, &str)] = &[
        (
            "refs/heads/x",
            "+refs/heads/*:refs/remotes/o/*",
            "refs/remotes/o/x by 0",
        ),
        (
            "refs/heads/x",
            "+refs/heads/*:refs/remotes/o/* ^refs/heads/x",
            "refs/remotes/o/x by 0",
        ),
        (
            "refs/heads/x",
            "+refs/heads/*:refs/heads/* ^refs/heads/x",
            "0 excluded by 1",
        ),
        (
            "refs/heads/x",
            "+refs/heads/x:refs/remotes/o/x ^refs/heads/x",
            "0 excluded by 1",
        ),
        (
            "refs/heads/x",
            "+refs/other/*:refs/heads/* +refs/heads/*:refs/remotes/o/* ^refs/other/x",
            "0 excluded by 2",
        ),
        (
            "refs/heads/x",
            "refs/heads/x +refs/heads/*:refs/remotes/o/*",
            "refs/remotes/o/x by 1",
        ),
        ("refs/heads/x", "refs/heads/x", "not stored by 0"),
        ("refs/heads/x", "^refs/heads/x", "not fetched"),
        ("refs/heads/x", "x:y", "not fetched"),
        ("x", "x:y", "y by 0"),
        ("x", "*:y/*", "y/x by 0"),
        ("refs/heads/x", "refs/*/x:y*z", "yheadsz by 0"),
        ("HEAD", "@:refs/remotes/o/x", "refs/remotes/o/x by 0"),
        ("@", "@:refs/remotes/o/x", "not fetched"),
        (
            "1111111111111111111111111111111111111111",
            "1111111111111111111111111111111111111111:y",
            "y by 0",
        ),
    ];
    check_each(&rt, rt.alloc(), ROWS)
}

#[test]
fn takes_texts_of_one_spec_for_one(rt: HostRuntime) -> Result<(), Fail> {
    // Git has no upstream for these: `s:` stores to the empty name, and the empty source isn't `HEAD`.
    const OTHERWISE: &[(&str, &str, &str)] = &[
        (
            "refs/heads/x",
            "refs/heads/x: refs/heads/*:refs/y/*",
            "refs/y/x by 1",
        ),
        ("HEAD", ":refs/y/x", "refs/y/x by 0"),
    ];
    check_each(&rt, rt.alloc(), OTHERWISE)
}
