//! Each function once, on texts from Git's manuals.

mod matching;

use crate::gather::{fetches_of, fetches_read, pushes_among};
use crate::{canonical, clone_spec, read, reread, reread_owned, same_owned_text, same_text};
use bstr::BStr;
use gix_refspec::parsing::{Error, Operation};
use std::test::Fail;

#[test]
fn reads_what_is_a_refspec(rt: HostRuntime) -> Result<(), Fail> {
    const CASES: &[(&str, bool)] = &[
        ("+refs/heads/*:refs/remotes/origin/*", true),
        ("^refs/heads/dev-*", true),
        ("refs/heads/*:refs/heads/main", false),
        ("a..b", false),
    ];
    for (text, taken) in CASES {
        let spec = read(rt.alloc(), BStr::new(text.as_bytes()), Operation::Fetch)?;
        assert_eq!(rt; spec.is_some(), *taken, "at {text}");
    }
    Ok(())
}

#[test]
fn has_the_spec_of_a_clone(rt: HostRuntime) -> Result<(), Fail> {
    let spec = clone_spec(rt.alloc())?;
    let printed = spec.to_bstring(rt.alloc())?;
    assert_eq!(rt;
        printed.as_bytes(),
        b"+refs/heads/*:refs/remotes/origin/*".as_slice()
    );
    Ok(())
}

#[test]
fn compares_by_text(rt: HostRuntime) -> Result<(), Fail> {
    let alloc = rt.alloc();
    const CASES: &[(&str, Operation, &str, Operation, bool)] = &[
        ("main", Operation::Push, "main:main", Operation::Push, true),
        ("@:a", Operation::Fetch, "HEAD:a", Operation::Fetch, true),
        ("a:b", Operation::Fetch, "a:c", Operation::Fetch, false),
        ("a:b", Operation::Fetch, "a:b", Operation::Push, false),
    ];
    for (a, for_a, b, for_b, same) in CASES {
        let a_spec = gix_refspec::parse(alloc, BStr::new(a.as_bytes()), *for_a)?;
        let b_spec = gix_refspec::parse(alloc, BStr::new(b.as_bytes()), *for_b)?;
        let a_owned = a_spec.to_owned(alloc)?;
        let b_owned = b_spec.to_owned(alloc)?;
        let found = (
            same_text(alloc, &a_spec, &b_spec)?,
            same_owned_text(alloc, &a_owned, &b_owned)?,
        );
        assert_eq!(rt; found, (*same, *same), "at {a} and {b}");
    }
    Ok(())
}

#[test]
fn rereads_what_was_printed(rt: HostRuntime) -> Result<(), Fail> {
    let alloc = rt.alloc();
    const TEXTS: &[&str] = &["main", "+", ":", "^a*", "+@:a", ":gone"];
    for text in TEXTS {
        let spec = gix_refspec::parse(alloc, BStr::new(text.as_bytes()), Operation::Push)?;
        let again = reread(alloc, &spec)?;
        assert!(rt; again.to_ref() == spec, "at {text}");
        assert!(rt; reread_owned(alloc, &again)? == again, "at {text}");
    }
    Ok(())
}

#[test]
fn gives_canonical_texts(rt: HostRuntime) -> Result<(), Fail> {
    let alloc = rt.alloc();
    const CASES: &[(&str, &str)] = &[
        ("", "HEAD"),
        ("+@:", "HEAD"),
        ("++a", "++a"),
        ("+a:b", "+a:b"),
    ];
    for (text, expected) in CASES {
        let Some(made) = canonical(alloc, BStr::new(text.as_bytes()), Operation::Fetch)? else {
            return Err(Fail::new("no refspec"));
        };
        assert_eq!(rt; made.as_bytes(), expected.as_bytes(), "at {text}");
    }
    Ok(())
}

#[test]
fn gathers_from_lists_slices_and_answers(rt: HostRuntime) -> Result<(), Fail> {
    let alloc = rt.alloc();
    let specs = [
        gix_refspec::parse(alloc, BStr::new(b"a:b"), Operation::Fetch)?,
        gix_refspec::parse(alloc, BStr::new(b"main"), Operation::Push)?,
        gix_refspec::parse(alloc, BStr::new(b"^c"), Operation::Fetch)?,
    ];
    let wanted = [specs[0], specs[2]];
    let mut answers = Vec::new(alloc);
    for spec in specs {
        answers.push(Ok(spec))?;
        answers.push(Err(Error::Empty))?;
    }
    let list = Vec::from_slice(alloc, specs.as_slice())?;
    let fetches = fetches_of(alloc, list)?;
    assert_eq!(rt; fetches.specs.as_slice(), wanted.as_slice());
    let pushes = pushes_among(alloc, specs.as_slice())?;
    assert_eq!(rt; pushes.specs.as_slice(), [specs[1]].as_slice());
    let read = fetches_read(alloc, answers.as_slice())?;
    assert_eq!(rt; read.specs.as_slice(), wanted.as_slice());
    Ok(())
}
