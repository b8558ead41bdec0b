//! The fates of refs. Each row is what git 2.39.5 does with these values of `remote.<name>.fetch`, by
//! `tests/library/git_fates.py`.

use bstr::BStr;
use gix_refspec::match_group::Item;
use gix_refspec::oid::{Kind, ObjectId};
use gix_refspec::parsing::Operation;
use gix_refspec::{RefSpecRef, parse};
use gix_refspec_why::{Effect, Effects, ExcludedBy, Fate, Mismatch, Rival, StarWord, why};
use std::alloc::{AllocError, Global};
use std::test::Fail;

fn specs_of<'a>(alloc: Global, words: &'a str) -> Result<Vec<RefSpecRef<'a>>, Fail> {
    let mut specs = Vec::new(alloc);
    for word in words.split(' ') {
        specs.push(parse(alloc, BStr::new(word.as_bytes()), Operation::Fetch)?)?;
    }
    Ok(specs)
}

fn items_of<'a>(
    alloc: Global,
    names: &'a str,
    target: &'a ObjectId,
) -> Result<Vec<Item<'a>>, AllocError> {
    let mut items = Vec::new(alloc);
    for name in names.split(' ') {
        items.push(Item {
            full_ref_name: BStr::new(name.as_bytes()),
            target,
            object: None,
        })?;
    }
    Ok(items)
}

fn add_word(text: &mut String, word: Option<StarWord>) -> Result<(), AllocError> {
    match word {
        None => Ok(()),
        Some(word) => write!(text, " {}+{}", word.start, word.len),
    }
}

fn add_excluded(text: &mut String, by: ExcludedBy) -> Result<(), AllocError> {
    write!(text, "excluded by {}", by.spec_index)?;
    add_word(text, by.word)
}

fn add_rival(text: &mut String, rival: Rival) -> Result<(), AllocError> {
    match rival.item_index {
        None => write!(text, " {} -", rival.spec_index),
        Some(index) => write!(text, " {} {index}", rival.spec_index),
    }
}

fn add_mismatch(text: &mut String, mismatch: Mismatch) -> Result<(), AllocError> {
    match mismatch {
        Mismatch::NoSource => text.push_str("no source"),
        Mismatch::Prefix(count) => write!(text, "prefix {count}"),
        Mismatch::Suffix(count) => write!(text, "suffix {count}"),
        Mismatch::Overlap => text.push_str("overlap"),
        Mismatch::OtherName => text.push_str("other name"),
        Mismatch::Object => text.push_str("object"),
        Mismatch::NoCandidate => text.push_str("no candidate"),
        Mismatch::EarlierCandidate(index) => write!(text, "earlier candidate {index}"),
    }
}

fn add_fate(text: &mut String, fate: Fate) -> Result<(), AllocError> {
    match fate {
        Fate::Unmatched(mismatch) => add_mismatch(text, mismatch),
        Fate::Excludes(word) => {
            text.push_str("excludes")?;
            add_word(text, word)
        }
        Fate::Excluded(by) => add_excluded(text, by),
        Fate::InvalidName => text.push_str("invalid name"),
        Fate::InvalidDestination => text.push_str("invalid destination"),
        Fate::Duplicate(index) => write!(text, "duplicate of {index}"),
        Fate::InConflict(rival) => {
            text.push_str("conflict")?;
            add_rival(text, rival)
        }
        Fate::DirectoryConflict(rival) => {
            text.push_str("directory conflict")?;
            add_rival(text, rival)
        }
        Fate::Written => text.push_str("written"),
    }
}

fn add_effect(text: &mut String, effect: &Effect) -> Result<(), AllocError> {
    add_fate(text, effect.fate)?;
    match &effect.destination {
        None => text.push('\n'),
        Some(name) => writeln!(text, ": {name}"),
    }
}

// A line for each spec, below one with the index of the item.
fn text_of(alloc: Global, effects: &Effects) -> Result<String, AllocError> {
    let mut text = String::new(alloc);
    match effects.item_index {
        None => text.push_str("-\n")?,
        Some(index) => writeln!(text, "{index}")?,
    }
    for effect in &effects.of_specs {
        add_effect(&mut text, effect)?;
    }
    Ok(text)
}

fn explained(alloc: Global, specs: &str, names: &str, name: &str) -> Result<String, Fail> {
    let target = ObjectId::null(Kind::Sha1);
    let specs = specs_of(alloc, specs)?;
    let items = items_of(alloc, names, &target)?;
    let effects = why(
        alloc,
        specs.as_slice(),
        items.as_slice(),
        BStr::new(name.as_bytes()),
    )?;
    Ok(text_of(alloc, &effects)?)
}

// The specs, the names of the remote, the name in question, and what is said of it.
const ROWS: &[(&str, &str, &str, &str)] = &[
    (
        "refs/heads/*:refs/x/*",
        "refs/heads/a refs/tags/a",
        "refs/heads/a",
        "0\nwritten: refs/x/a\n",
    ),
    (
        "refs/heads/*:refs/x/*",
        "refs/heads/a refs/tags/a",
        "refs/tags/a",
        "1\nprefix 5\n",
    ),
    (
        "refs/heads/*:refs/x/*",
        "refs/he",
        "refs/he",
        "0\nprefix 7\n",
    ),
    (
        "refs/pull/*/head:refs/x/*",
        "refs/pull/7/bread",
        "refs/pull/7/bread",
        "0\nsuffix 3\n",
    ),
    (
        "refs/pull/*/head:refs/x/*",
        "refs/pull/head",
        "refs/pull/head",
        "0\noverlap\n",
    ),
    (
        "refs/heads/a*a:refs/x/b*b",
        "refs/heads/a refs/heads/aa",
        "refs/heads/a",
        "0\noverlap\n",
    ),
    (
        "refs/heads/a*a:refs/x/b*b",
        "refs/heads/a refs/heads/aa",
        "refs/heads/aa",
        "1\nwritten: refs/x/bb\n",
    ),
    // The first of the negative specs is named, with the word for its star.
    (
        "refs/heads/*:refs/x/* ^refs/heads/w* ^refs/heads/wip",
        "refs/heads/wip",
        "refs/heads/wip",
        "0\nexcluded by 1 12+2: refs/x/wip\nexcludes 12+2\nexcludes\n",
    ),
    // A negative spec excludes just the name that it gives.
    (
        "refs/heads/*:refs/x/* ^main ^refs/tags/*",
        "refs/heads/main",
        "refs/heads/main",
        "0\nwritten: refs/x/main\nother name\nprefix 5\n",
    ),
    (
        "main:refs/x/main refs/heads/dev",
        "refs/heads/main refs/tags/main",
        "refs/heads/main",
        "0\nearlier candidate 1\nother name\n",
    ),
    (
        "main:refs/x/main dev:y",
        "refs/remotes/main/HEAD refs/heads/main",
        "refs/heads/main",
        "1\nwritten: refs/x/main\nno candidate\n",
    ),
    (
        "main:x",
        "refs/remotes/main/HEAD",
        "refs/remotes/main/HEAD",
        "0\nwritten: refs/heads/x\n",
    ),
    (
        "refs/heads/*:refs/x/* refs/heads/a:refs/x/a",
        "refs/heads/a",
        "refs/heads/a",
        "0\nwritten: refs/x/a\nduplicate of 0: refs/x/a\n",
    ),
    (
        "refs/heads/a refs/heads/a:refs/x/a heads/a refs/heads/a:refs/x/a",
        "refs/heads/a",
        "refs/heads/a",
        "0\nwritten\nwritten: refs/x/a\nduplicate of 0\nduplicate of 1: refs/x/a\n",
    ),
    (
        "refs/heads/*:refs/x/* refs/tags/*:refs/x/*",
        "refs/heads/a refs/heads/c refs/tags/a",
        "refs/tags/a",
        "2\nprefix 5\nconflict 0 0: refs/x/a\n",
    ),
    // What is excluded is in no conflict.
    (
        "refs/heads/*:refs/x/* ^refs/heads/a refs/tags/*:refs/x/*",
        "refs/heads/a refs/tags/a",
        "refs/tags/a",
        "1\nprefix 5\nother name\nwritten: refs/x/a\n",
    ),
    (
        "refs/heads/a:refs/x/a 1111111111111111111111111111111111111111:refs/x/a",
        "refs/heads/a",
        "refs/heads/a",
        "0\nconflict 1 -: refs/x/a\nobject\n",
    ),
    (
        "refs/heads/*:refs/x/* refs/tags/*:refs/x/*",
        "refs/heads/a/y refs/heads/c refs/tags/a",
        "refs/heads/a/y",
        "0\ndirectory conflict 1 2: refs/x/a/y\nprefix 5\n",
    ),
    (
        "refs/heads/a:refs/x/a refs/heads/a:refs/x/a/y",
        "refs/heads/a",
        "refs/heads/a",
        "0\ndirectory conflict 1 0: refs/x/a\ndirectory conflict 0 0: refs/x/a/y\n",
    ),
    (
        "refs/heads/*:x/* refs/heads/*:x/*",
        "refs/heads/a",
        "refs/heads/a",
        "0\ninvalid destination: x/a\ninvalid destination: x/a\n",
    ),
    (
        "refs/heads/*:refs/x/*",
        "refs/heads/a..b",
        "refs/heads/a..b",
        "0\ninvalid name: refs/x/a..b\n",
    ),
    // A ref that the remote lacks is taken for its last one: so it isn't its first candidate.
    (
        "refs/heads/*:refs/x/* main:refs/y/main",
        "refs/heads/dev refs/tags/main",
        "refs/heads/main",
        "-\nwritten: refs/x/main\nearlier candidate 1\n",
    ),
    // The first of two items with one name is named.
    (
        "refs/heads/*:refs/x/*",
        "refs/tags/a refs/heads/a refs/heads/a",
        "refs/heads/a",
        "1\nwritten: refs/x/a\n",
    ),
];

#[test]
fn says_what_each_spec_does(rt: HostRuntime) -> Result<(), Fail> {
    for (specs, names, name, expected) in ROWS {
        let text = explained(rt.alloc(), specs, names, name)?;
        assert_eq!(rt; text.as_str(), *expected, "{specs}: {name}");
    }
    Ok(())
}

#[test]
fn matches_no_source_of_a_push(rt: HostRuntime) -> Result<(), Fail> {
    let alloc = rt.alloc();
    let specs = [parse(alloc, BStr::new(b":refs/heads/a"), Operation::Push)?];
    let effects = why(alloc, specs.as_slice(), &[], BStr::new(b"refs/heads/a"))?;
    assert_eq!(rt; text_of(alloc, &effects)?.as_str(), "-\nno source\n");
    Ok(())
}

#[test]
fn needs_no_spec(rt: HostRuntime) -> Result<(), Fail> {
    let effects = why(rt.alloc(), &[], &[], BStr::new(b"refs/heads/a"))?;
    assert_eq!(rt; (effects.item_index, effects.of_specs.len()), (None, 0));
    Ok(())
}
