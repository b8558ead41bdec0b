//! Conflicts, fixes, and outcomes that were changed by hand.

use super::mapping::{add_pair, group_of, mapped, target};
use bstr::{BStr, BString};
use gix_refspec::match_group::validate::{Error, Fix, Issue, Refusal};
use gix_refspec::match_group::{Mapping, NameRef, Source, SourceRef, match_lhs};
use gix_refspec::parsing::Operation;
use gix_refspec::{laws, parse};
use std::alloc::Global;
use std::test::Fail;

// What a validation answers of what a group of these texts gives over items of these names, and of a
// copy of that.
fn validated_matches(alloc: Global, texts: &str, names: &str) -> Result<(String, String), Fail> {
    let target = target();
    let outcome = mapped(alloc, texts, names, &target)?;
    let copy = outcome.clone(alloc)?;
    laws::one_validation(&outcome);
    laws::copied_outcome(&outcome, &copy);
    Ok((validated(alloc, outcome)?, validated(alloc, copy)?))
}

// What a validation answers, line by line: `source:destination` for each mapping that is left and
// `fix name spec` for each fix, or what a refusal prints.
fn validated(alloc: Global, outcome: match_lhs::Outcome<'_, '_>) -> Result<String, Fail> {
    if !outcome.indexes_fit() {
        return Ok(format!(in alloc; "no such spec")?);
    }
    match outcome.validated(alloc) {
        Ok((left, fixes)) => text_of(alloc, left.mappings.as_slice(), fixes.as_slice()),
        Err(refusal) => Ok(format!(in alloc; "{refusal}")?),
    }
}

// The mappings that are left and the fixes, one a line.
fn text_of(alloc: Global, left: &[Mapping<'_, '_>], fixes: &[Fix]) -> Result<String, Fail> {
    let mut told = String::new(alloc);
    for mapping in left {
        add_pair(&mut told, mapping)?;
    }
    for fix in fixes {
        let Fix::MappingWithPartialDestinationRemoved { name, spec } = fix;
        let text = spec.to_ref().to_bstring(alloc)?;
        writeln!(told, "fix {name} {text}")?;
    }
    Ok(told)
}

// Specs, names of items, and what a validation answers.
const MATCHED: &[(&str, &str, &str)] = &[
    (
        "refs/heads/*:refs/x/* refs/heads/a",
        "refs/heads/a HEAD",
        "refs/heads/a:refs/x/a\nrefs/heads/a\n",
    ),
    // A partial name has one source.
    (
        "main:refs/remotes/origin/main",
        "refs/tags/main refs/heads/main",
        "refs/tags/main:refs/remotes/origin/main\n",
    ),
    // Several sources of one destination, each with the text of its own spec.
    (
        "tags/main:refs/remotes/origin/main heads/main:refs/remotes/origin/main",
        "refs/tags/main refs/heads/main",
        "Found 1 issue that prevents the refspec mapping to be used: \n\tConflicting destination \"refs/remotes/origin/main\" would be written by refs/tags/main (\"tags/main:refs/remotes/origin/main\"), refs/heads/main (\"heads/main:refs/remotes/origin/main\")",
    ),
    (
        "refs/heads/*:refs/x/* refs/tags/*:refs/x/* refs/notes/a:refs/x/a",
        "refs/tags/a refs/heads/a refs/notes/a",
        "Found 1 issue that prevents the refspec mapping to be used: \n\tConflicting destination \"refs/x/a\" would be written by refs/heads/a (\"refs/heads/*:refs/x/*\"), refs/tags/a (\"refs/tags/*:refs/x/*\"), refs/notes/a (\"refs/notes/a:refs/x/a\")",
    ),
    (
        "refs/a:refs/x refs/b:refs/x refs/c:refs/x refs/d:refs/x",
        "refs/d refs/c refs/b refs/a",
        "Found 1 issue that prevents the refspec mapping to be used: \n\tConflicting destination \"refs/x\" would be written by refs/a (\"refs/a:refs/x\"), refs/b (\"refs/b:refs/x\"), refs/c (\"refs/c:refs/x\"), refs/d (\"refs/d:refs/x\")",
    ),
    // Issues are in the order of the destinations, whatever that of the mappings is.
    (
        "refs/heads/*:refs/x/* refs/tags/*:refs/x/*",
        "refs/heads/b refs/heads/a refs/tags/a refs/tags/b",
        "Found 2 issues that prevent the refspec mapping to be used: \n\tConflicting destination \"refs/x/a\" would be written by refs/heads/a (\"refs/heads/*:refs/x/*\"), refs/tags/a (\"refs/tags/*:refs/x/*\")\n\tConflicting destination \"refs/x/b\" would be written by refs/heads/b (\"refs/heads/*:refs/x/*\"), refs/tags/b (\"refs/tags/*:refs/x/*\")",
    ),
    // A source is listed where it is first mapped to this destination, not where it first is at all.
    (
        "refs/heads/b:refs/y/b refs/heads/a:refs/z refs/heads/b:refs/z",
        "refs/heads/a refs/heads/b",
        "Found 1 issue that prevents the refspec mapping to be used: \n\tConflicting destination \"refs/z\" would be written by refs/heads/a (\"refs/heads/a:refs/z\"), refs/heads/b (\"refs/heads/b:refs/z\")",
    ),
    // A source in two conflicts.
    (
        "refs/heads/a:refs/x refs/heads/a:refs/y refs/heads/b:refs/x refs/heads/b:refs/y",
        "refs/heads/a refs/heads/b",
        "Found 2 issues that prevent the refspec mapping to be used: \n\tConflicting destination \"refs/x\" would be written by refs/heads/a (\"refs/heads/a:refs/x\"), refs/heads/b (\"refs/heads/b:refs/x\")\n\tConflicting destination \"refs/y\" would be written by refs/heads/a (\"refs/heads/a:refs/y\"), refs/heads/b (\"refs/heads/b:refs/y\")",
    ),
    // Conflicts are looked for before anything is removed.
    (
        "refs/heads/*:foo/* refs/tags/*:foo/*",
        "refs/heads/a refs/tags/a",
        "Found 1 issue that prevents the refspec mapping to be used: \n\tConflicting destination \"foo/a\" would be written by refs/heads/a (\"refs/heads/*:foo/*\"), refs/tags/a (\"refs/tags/*:foo/*\")",
    ),
    (
        "refs/heads/*:foo/*",
        "refs/heads/b refs/heads/a",
        "fix foo/b refs/heads/*:foo/*\nfix foo/a refs/heads/*:foo/*\n",
    ),
    (
        "refs/heads/main:HEAD",
        "refs/heads/main",
        "refs/heads/main:refs/heads/HEAD\n",
    ),
    ("*:*", "HEAD main", "HEAD:HEAD\nfix main *:*\n"),
    // On each side of what can be written.
    (
        "*:*",
        "refs refs/ HEADS HEA Refs/heads/x heads/refs/ HEAD refs/x FETCH_HEAD",
        "refs/:refs/\nHEAD:HEAD\nrefs/x:refs/x\n\
         fix refs *:*\nfix HEADS *:*\nfix HEA *:*\nfix Refs/heads/x *:*\nfix heads/refs/ *:*\nfix FETCH_HEAD *:*\n",
    ),
    // Each fix has its own spec.
    (
        "+refs/heads/*:foo/* @:bar refs/heads/*:refs/x/* refs/tags/*:foo/t*",
        "refs/heads/b HEAD refs/heads/a refs/tags/a",
        "HEAD:refs/heads/bar\nrefs/heads/b:refs/x/b\nrefs/heads/a:refs/x/a\n\
         fix foo/b +refs/heads/*:foo/*\nfix foo/a +refs/heads/*:foo/*\nfix foo/ta refs/tags/*:foo/t*\n",
    ),
    // The texts are canonical ones.
    (
        "+@:refs/z refs/heads/a:refs/z",
        "HEAD refs/heads/a",
        "Found 1 issue that prevents the refspec mapping to be used: \n\tConflicting destination \"refs/z\" would be written by HEAD (\"+HEAD:refs/z\"), refs/heads/a (\"refs/heads/a:refs/z\")",
    ),
    // By the bytes of destinations, whatever their lengths.
    (
        "refs/heads/*:refs/x/* refs/tags/*:refs/x/*",
        "refs/heads/b refs/heads/aa refs/heads/Z refs/tags/b refs/tags/aa refs/tags/Z",
        "Found 3 issues that prevent the refspec mapping to be used: \n\tConflicting destination \"refs/x/Z\" would be written by refs/heads/Z (\"refs/heads/*:refs/x/*\"), refs/tags/Z (\"refs/tags/*:refs/x/*\")\n\tConflicting destination \"refs/x/aa\" would be written by refs/heads/aa (\"refs/heads/*:refs/x/*\"), refs/tags/aa (\"refs/tags/*:refs/x/*\")\n\tConflicting destination \"refs/x/b\" would be written by refs/heads/b (\"refs/heads/*:refs/x/*\"), refs/tags/b (\"refs/tags/*:refs/x/*\")",
    ),
    // An id as a source.
    (
        "1111111111111111111111111111111111111111:x 1111111111111111111111111111111111111111:x",
        "refs/heads/x",
        "1111111111111111111111111111111111111111:refs/heads/x\n",
    ),
];

#[test]
fn validates_what_was_matched(rt: HostRuntime) -> Result<(), Fail> {
    let alloc = rt.alloc();
    for (texts, names, told) in MATCHED {
        let (answer, copied) = validated_matches(alloc, texts, names)?;
        assert_eq!(rt;
            (answer.as_str(), copied.as_str()),
            (*told, *told),
            "at {texts}"
        );
    }
    Ok(())
}

// A source as a row writes it: `=` before a name that is owned, and `#` for the id.
fn source_of<'a>(alloc: Global, text: &'a str) -> Result<SourceRef<'a>, Fail> {
    if text == "#" {
        return Ok(SourceRef::ObjectId(target()));
    }
    Ok(SourceRef::FullName(match text.strip_prefix("=") {
        Some(name) => NameRef::Owned(BString::from_slice(alloc, name.as_bytes())?),
        None => NameRef::Borrowed(BStr::new(text.as_bytes())),
    }))
}

// The outcome of mapping each of these sources to `refs/x`, or with a `-` to nothing, by the spec of this
// index, of two.
fn outcome_of<'a>(
    alloc: Global,
    sources: &'a str,
    places: &str,
) -> Result<match_lhs::Outcome<'static, 'a>, Fail> {
    let mut outcome = match_lhs::Outcome {
        group: group_of(alloc, Operation::Fetch, "s:t u")?,
        mappings: Vec::new(alloc),
    };
    let words = sources.split(' ').filter(|word| !word.is_empty());
    for (word, place) in words.zip(places.bytes()) {
        let (name, rhs) = match word.strip_prefix("-") {
            Some(name) => (name, None),
            None => (word, Some(NameRef::Borrowed(BStr::new(b"refs/x")))),
        };
        outcome.mappings.push(Mapping {
            item_index: None,
            lhs: source_of(alloc, name)?,
            rhs,
            spec_index: match place {
                b'0' => 0,
                b'1' => 1,
                b'2' => 2,
                _ => 18_446_744_073_709_551_615,
            },
        })?;
    }
    Ok(outcome)
}

#[test]
fn validates_outcomes_made_by_hand(rt: HostRuntime) -> Result<(), Fail> {
    let alloc = rt.alloc();
    // Sources, the indexes of their specs, and what a validation answers.
    const ROWS: &[(&str, &str, &str)] = &[
        ("", "", ""),
        ("a a", "00", "a:refs/x\na:refs/x\n"),
        ("a =a", "01", "a:refs/x\na:refs/x\n"),
        (
            "# refs/a",
            "00",
            "Found 1 issue that prevents the refspec mapping to be used: \n\tConflicting destination \"refs/x\" would be written by 1111111111111111111111111111111111111111 (\"s:t\"), refs/a (\"s:t\")",
        ),
        (
            "# 1111111111111111111111111111111111111111",
            "00",
            "Found 1 issue that prevents the refspec mapping to be used: \n\tConflicting destination \"refs/x\" would be written by 1111111111111111111111111111111111111111 (\"s:t\"), 1111111111111111111111111111111111111111 (\"s:t\")",
        ),
        (
            "b a b c a",
            "01011",
            "Found 1 issue that prevents the refspec mapping to be used: \n\tConflicting destination \"refs/x\" would be written by b (\"s:t\"), a (\"u\"), c (\"u\")",
        ),
        ("a -b -c", "010", "a:refs/x\nb\nc\n"),
        ("a b", "02", "no such spec"),
        ("-a", "9", "no such spec"),
    ];
    for (sources, places, told) in ROWS {
        let outcome = outcome_of(alloc, sources, places)?;
        let answer = validated(alloc, outcome)?;
        assert_eq!(rt; answer.as_str(), *told, "at {sources}");
    }
    Ok(())
}

#[test]
fn prints_a_refusal_for_memory_and_an_error_without_issues(rt: HostRuntime) -> Result<(), Fail> {
    let alloc = rt.alloc();
    let refusal = Refusal::Memory(match_lhs::Outcome {
        group: group_of(alloc, Operation::Fetch, "s:t")?,
        mappings: Vec::new(alloc),
    });
    assert_eq!(rt; format!(in alloc; "{refusal}")?.as_str(), "out of memory");
    // No validation gives an error without an issue, but it can be made.
    let error = Error {
        issues: Vec::new(alloc),
    };
    assert_eq!(rt;
        format!(in alloc; "{error}")?.as_str(),
        "Found 0 issues that prevent the refspec mapping to be used: \n\t"
    );
    Ok(())
}

// An issue of one source, as a row writes it.
fn issue_of<'a>(
    alloc: Global,
    destination: &'a str,
    source: &'a str,
    text: &'a str,
) -> Result<Issue, Fail> {
    let destination = BString::from_slice(alloc, destination.as_bytes())?;
    let mut specs = Vec::new(alloc);
    specs.push(BString::from_slice(alloc, text.as_bytes())?)?;
    Ok(Issue::Conflict {
        destination_full_ref_name: destination,
        sources: sources_of(alloc, source)?,
        specs,
    })
}

// The list of one source, as a row writes it.
fn sources_of(alloc: Global, text: &str) -> Result<Vec<Source>, Fail> {
    let mut sources = Vec::new(alloc);
    sources.push(source_of(alloc, text)?.into_owned(alloc)?)?;
    Ok(sources)
}

// A fix, as a row writes it.
fn fix_of<'a>(alloc: Global, name: &'a str, text: &'a str) -> Result<Fix, Fail> {
    let spec = parse(alloc, BStr::new(text.as_bytes()), Operation::Fetch)?;
    Ok(Fix::MappingWithPartialDestinationRemoved {
        name: BString::from_slice(alloc, name.as_bytes())?,
        spec: spec.to_owned(alloc)?,
    })
}

#[test]
fn compares_issues(rt: HostRuntime) -> Result<(), Fail> {
    let alloc = rt.alloc();
    // Whether the issue of a row equals the first row's.
    const ISSUES: &[(&str, &str, &str, bool)] = &[
        ("x", "a", "t", true),
        ("x", "=a", "t", true),
        ("y", "a", "t", false),
        ("x", "#", "t", false),
        ("x", "a", "u", false),
    ];
    let first = issue_of(alloc, "x", "a", "t")?;
    for (destination, source, text, same) in ISSUES {
        let issue = issue_of(alloc, destination, source, text)?;
        assert_eq!(rt; issue == first, *same, "at {destination} {source} {text}");
    }
    Ok(())
}

#[test]
fn compares_fixes(rt: HostRuntime) -> Result<(), Fail> {
    let alloc = rt.alloc();
    // Whether the fix of a row equals the first row's. Specs are compared by what they say.
    const FIXES: &[(&str, &str, bool)] = &[
        ("x", "a", true),
        ("x", "+a:", true),
        ("y", "a", false),
        ("x", "b", false),
    ];
    let first = fix_of(alloc, "x", "a")?;
    for (name, text, same) in FIXES {
        let fix = fix_of(alloc, name, text)?.clone(alloc)?;
        assert_eq!(rt; fix == first, *same, "at {name} {text}");
    }
    Ok(())
}
