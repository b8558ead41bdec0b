//! Pairs that one list alone fetches.

use bstr::BStr;
use gix_refspec::parsing::Operation;
use gix_refspec::{RefSpecRef, parse};
use gix_refspec_diff::{Difference, PairExample, differences};
use std::alloc::Global;
use std::process::Abort;
use std::test::Fail;

// The values, one a word.
pub(super) fn values_in<'a>(alloc: Global, words: &'a str) -> Result<Vec<RefSpecRef<'a>>, Fail> {
    let mut values = Vec::new(alloc);
    for word in words.split(' ') {
        if !word.is_empty() {
            values.push(parse(alloc, BStr::new(word.as_bytes()), Operation::Fetch)?)?;
        }
    }
    Ok(values)
}

pub(super) fn found(alloc: Global, old: &str, new: &str) -> Result<Difference, Fail> {
    let old = values_in(alloc, old)?;
    let new = values_in(alloc, new)?;
    Ok(differences(alloc, old.as_slice(), new.as_slice())?)
}

// Each example as `KIND INDEX SOURCE DESTINATION BESIDE..;`.
fn add_examples(text: &mut String, kind: &str, examples: &[PairExample]) -> Result<(), Fail> {
    for example in examples {
        write!(text, "{kind} {} {}", example.spec_index, example.source)?;
        match &example.destination {
            None => write!(text, " -")?,
            Some(name) => write!(text, " {}", name.as_bstr())?,
        }
        for name in &example.beside {
            write!(text, " {}", name.as_bstr())?;
        }
        write!(text, ";")?;
    }
    Ok(())
}

fn text_of(alloc: Global, found: &Difference) -> Result<String, Fail> {
    let mut text = String::new(alloc);
    add_examples(&mut text, "lost", found.lost.as_slice())?;
    add_examples(&mut text, "gained", found.gained.as_slice())?;
    for index in &found.relieved {
        write!(text, "relieved {index};")?;
    }
    for index in &found.required {
        write!(text, "required {index};")?;
    }
    Ok(text)
}

fn check(rt: &(impl Abort + AllocGlobal), rows: &[(&str, &str, &str)]) -> Result<(), Fail> {
    for (old, new, wanted) in rows {
        let found = found(rt.alloc(), old, new)?;
        let text = text_of(rt.alloc(), &found)?;
        assert_eq!(rt; text.as_str(), *wanted, "{old} and {new}");
    }
    Ok(())
}

#[test]
fn finds_what_one_list_alone_fetches(rt: HostRuntime) -> Result<(), Fail> {
    const ROWS: &[(&str, &str, &str)] = &[
        ("", "HEAD", ""),
        ("refs/heads/*:refs/x/*", "+refs/heads/*:refs/x/*", ""),
        // The order of values doesn't matter here.
        (
            "+refs/heads/*:refs/x/* +refs/tags/*:refs/t/*",
            "+refs/tags/*:refs/t/* +refs/heads/*:refs/x/*",
            "",
        ),
        (
            "+refs/heads/*:refs/x/*",
            "+refs/heads/*:refs/x/* ^refs/heads/tmp/*",
            "lost 0 refs/heads/tmp/b refs/x/tmp/b;",
        ),
        // Excluded by another value already.
        (
            "+refs/heads/*:refs/x/* ^refs/heads/t*",
            "+refs/heads/*:refs/x/* ^refs/heads/t* ^refs/heads/tmp/*",
            "",
        ),
        // The last value maps nothing of its own, but without its source the fetch fails.
        (
            "+refs/heads/*:refs/x/* refs/heads/main:refs/x/main",
            "+refs/heads/*:refs/x/*",
            "relieved 1;",
        ),
        // A clone of one branch, and of all.
        (
            "+refs/heads/main:refs/remotes/origin/main",
            "+refs/heads/*:refs/remotes/origin/*",
            "gained 0 refs/heads/b refs/remotes/origin/b;relieved 0;",
        ),
        // The folder of the remote is renamed.
        (
            "+refs/heads/*:refs/remotes/origin/*",
            "+refs/heads/*:refs/remotes/up/*",
            "lost 0 refs/heads/b refs/remotes/origin/b;gained 0 refs/heads/b refs/remotes/up/b;",
        ),
    ];
    check(&rt, ROWS)
}

#[test]
fn finds_remotes_of_three_refs(rt: HostRuntime) -> Result<(), Fail> {
    const OLD: &str =
        "refs/remotes/y/HEAD:refs/d ^refs/y ^refs/tags/y ^refs/heads/y ^refs/remotes/y ^refs/y/HEAD \
        ^refs/tags/y/HEAD ^refs/heads/y/HEAD ^refs/remotes/y/HEAD/HEAD";
    const NEW: &str =
        "y/HEAD:refs/d y:refs/d ^refs/y ^refs/tags/y ^refs/heads/y ^refs/remotes/y ^refs/y/HEAD \
        ^refs/tags/y/HEAD ^refs/heads/y/HEAD ^refs/remotes/y/HEAD/HEAD";
    let found = found(rt.alloc(), OLD, NEW)?;
    let text = text_of(rt.alloc(), &found)?;
    assert_eq!(rt;
        text.as_str(),
        "lost 0 refs/remotes/y/HEAD refs/d refs/y/HEAD refs/y;relieved 0;"
    );
    Ok(())
}

// Git says "couldn't find remote ref" where a source is missing.
#[test]
fn finds_missing_sources(rt: HostRuntime) -> Result<(), Fail> {
    const ROWS: &[(&str, &str, &str)] = &[
        (
            "HEAD",
            "refs/heads/main",
            "lost 0 HEAD -;gained 0 refs/heads/main -;relieved 0;required 0;",
        ),
        // A pattern and an id are never missing, and a negative value needs no source.
        (
            "refs/heads/*:refs/x/*",
            "refs/heads/*:refs/x/* ^refs/heads/main",
            "lost 0 refs/heads/main refs/x/main;",
        ),
        // Where all candidates of `main` are missing, refs/heads/main is; where that is, another one may be there.
        (
            "main",
            "main refs/heads/main",
            "gained 1 refs/heads/main - refs/main;required 1;",
        ),
        (
            "refs/heads/main",
            "refs/heads/main main",
            "gained 1 refs/main -;",
        ),
        // Of two values with one source the first is named.
        (
            "HEAD",
            "HEAD dev:refs/x/dev dev:refs/y/dev",
            "gained 1 refs/dev refs/x/dev;gained 2 refs/dev refs/y/dev;required 1;",
        ),
    ];
    check(&rt, ROWS)
}
