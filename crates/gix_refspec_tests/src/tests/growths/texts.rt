//! Texts that are read, printed and expanded.

use super::{answer_of, mark, marked, say_answered, say_refused};
use bstr::{BStr, BString};
use gix_refspec::match_group::RefPrefixes;
use gix_refspec::name::{PatternError, has_one_star, pattern_partial};
use gix_refspec::parsing::{Error, Operation};
use gix_refspec::{MatchGroup, RefSpecRef, parse};
use std::alloc::Global;
use std::process::Abort;
use std::test::Fail;

// A pattern of so many bytes, of which the last is the star.
fn pattern(alloc: Global, len: usize) -> Result<Vec<u8>, Fail> {
    let mut text = vec![in alloc; b'b'; len]?;
    *text.last_mut().ok_or("an empty pattern")? = b'*';
    Ok(text)
}

// The text of a spec of two such patterns.
fn two_patterns(alloc: Global, len: usize) -> Result<Vec<u8>, Fail> {
    let mut text = pattern(alloc, len)?;
    text.push(b':')?;
    text.extend_from_slice(pattern(alloc, len)?.as_slice())?;
    Ok(text)
}

// Whether a spec prints as a text.
fn prints(alloc: Global, spec: RefSpecRef<'_>, text: &[u8]) -> Result<bool, Fail> {
    Ok(spec.to_bstring(alloc)?.as_bytes() == text)
}

#[test]
fn reads_long_patterns(rt: HostRuntime) -> Result<(), Fail> {
    let alloc = rt.alloc();
    let text = two_patterns(alloc, 257)?;
    let spec = marked!(
        alloc,
        parse(alloc, BStr::new(text.as_slice()), Operation::Fetch)
    )?;
    assert!(&rt; prints(alloc, spec, text.as_slice())?);
    say_answered(&rt)
}

#[test]
fn refuses_several_stars(rt: HostRuntime) -> Result<(), Fail> {
    let alloc = rt.alloc();
    let text = BStr::new(b"a*b*:c");
    match marked!(alloc, parse(alloc, text, Operation::Push)) {
        Err(Error::PatternUnsupported { pattern }) => {
            assert_eq!(&rt; pattern.as_bytes(), b"a*b*".as_slice());
            say_answered(&rt)
        }
        other => {
            assert!(&rt; matches!(other, Err(Error::Memory)), "{other:?}");
            say_refused(&rt)
        }
    }
}

#[test]
fn checks_long_patterns(rt: HostRuntime) -> Result<(), Fail> {
    let alloc = rt.alloc();
    let text = pattern(alloc, 257)?;
    let text = BStr::new(text.as_slice());
    assert!(&rt; has_one_star(text));
    match marked!(alloc, pattern_partial(alloc, text)) {
        Ok(_) => say_answered(&rt),
        Err(error) => {
            assert!(&rt; matches!(error, PatternError::Memory), "{error:?}");
            say_refused(&rt)
        }
    }
}

// Says whether a text was printed, which is this.
fn check_text<E: Drop>(
    rt: &(impl Abort + Print),
    printed: Result<BString, E>,
    wanted: &[u8],
) -> Result<(), Fail> {
    if let Some(text) = answer_of(rt, printed)? {
        assert_eq!(rt; text.as_bytes(), wanted);
    }
    Ok(())
}

#[test]
fn prints_specs(rt: HostRuntime) -> Result<(), Fail> {
    let alloc = rt.alloc();
    let spec = parse(
        alloc,
        BStr::new(b"+refs/heads/*:refs/x/*"),
        Operation::Fetch,
    )?;
    let printed = marked!(alloc, spec.to_bstring(alloc));
    check_text(&rt, printed, b"+refs/heads/*:refs/x/*")
}

#[test]
fn prints_instructions(rt: HostRuntime) -> Result<(), Fail> {
    let alloc = rt.alloc();
    let spec = parse(alloc, BStr::new(b"+main"), Operation::Push)?;
    let printed = marked!(alloc, spec.instruction().to_bstring(alloc));
    check_text(&rt, printed, b"+main:main")
}

#[test]
fn expands_partial_names(rt: HostRuntime) -> Result<(), Fail> {
    let alloc = rt.alloc();
    let spec = parse(alloc, BStr::new(b"main"), Operation::Fetch)?;
    let mut entries = Vec::new(alloc);
    entries.push(BString::from_slice(alloc, b"before")?)?;
    let grown = marked!(alloc, spec.expand_prefixes(alloc, &mut entries)).is_ok();
    assert_eq!(&rt; entries.len(), if grown { 7 } else { 1 });
    assert_eq!(&rt; entries[0].as_bytes(), b"before".as_slice());
    if grown {
        assert_eq!(&rt; entries[6].as_bytes(), b"refs/remotes/main/HEAD".as_slice());
        return say_answered(&rt);
    }
    say_refused(&rt)
}

#[test]
fn asks_for_a_group(rt: HostRuntime) -> Result<(), Fail> {
    let alloc = rt.alloc();
    let mut specs = Vec::new(alloc);
    for text in ["main", "refs/heads/*:refs/x/*"] {
        specs.push(parse(alloc, BStr::new(text.as_bytes()), Operation::Fetch)?)?;
    }
    let group = MatchGroup { specs };
    match marked!(alloc, group.ref_prefixes(alloc)) {
        Ok(RefPrefixes::Listed(names)) => {
            assert_eq!(&rt; names.len(), 5);
            assert_eq!(&rt; names[0].as_bytes(), b"main".as_slice());
            assert_eq!(&rt; names[4].as_bytes(), b"refs/heads/".as_slice());
            say_answered(&rt)
        }
        Ok(_) => Err("no list".into()),
        Err(_) => say_refused(&rt),
    }
}
