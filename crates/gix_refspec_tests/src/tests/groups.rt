//! Groups, mappings, and which of these are kept.

use super::collisions::hash_of;
use bstr::{BStr, BString};
use gix_refspec::match_group::{Mapping, NameRef, NoRoom, Source, SourceRef};
use gix_refspec::oid::ObjectId;
use gix_refspec::parsing::Operation;
use gix_refspec::{MatchGroup, parse};
use std::alloc::{AllocError, Global};
use std::hash::{DefaultHasher, Hash, Hasher};
use std::test::Fail;

// Mappings as rows write them: a source may be the digits of an id, and `-` is a missing destination.
fn mappings_of<'a>(
    alloc: Global,
    rows: &[(&'a str, &'a str)],
) -> Result<Vec<Mapping<'a, 'a>>, AllocError> {
    let mut mappings = Vec::new(alloc);
    for (place, (source, destination)) in rows.iter().enumerate() {
        mappings.push(Mapping {
            item_index: Some(place),
            lhs: source_of(source),
            rhs: match *destination {
                "-" => None,
                name => Some(NameRef::Owned(BString::from_slice(alloc, name.as_bytes())?)),
            },
            spec_index: 0,
        })?;
    }
    Ok(mappings)
}

// A name as a row writes it, with a `=` before one that is owned.
fn name_of<'a>(alloc: Global, text: &'a str) -> Result<NameRef<'a>, AllocError> {
    Ok(match text.strip_prefix("=") {
        Some(name) => NameRef::Owned(BString::from_slice(alloc, name.as_bytes())?),
        None => NameRef::Borrowed(BStr::new(text.as_bytes())),
    })
}

// A source as a row writes it: the digits of an id, or a name.
fn source_of<'a>(text: &'a str) -> SourceRef<'a> {
    match ObjectId::from_hex(text.as_bytes()) {
        Ok(id) => SourceRef::ObjectId(id),
        Err(_) => SourceRef::FullName(NameRef::Borrowed(BStr::new(text.as_bytes()))),
    }
}

// The same, or a name that is owned.
fn source_in<'a>(alloc: Global, text: &'a str) -> Result<SourceRef<'a>, AllocError> {
    Ok(match text.strip_prefix("=") {
        Some(_) => SourceRef::FullName(name_of(alloc, text)?),
        None => source_of(text),
    })
}

#[test]
fn compares_mappings_by_their_pairs(rt: HostRuntime) -> Result<(), Fail> {
    let alloc = rt.alloc();
    // Whether the mapping of a row equals the first row's.
    const ROWS: &[(&str, &str, bool)] = &[
        ("a", "x", true),
        ("a", "x", true),
        ("b", "x", false),
        ("a", "y", false),
        ("a", "-", false),
    ];
    let first = Mapping {
        item_index: None,
        lhs: SourceRef::FullName(NameRef::Owned(BString::from_slice(alloc, b"a".as_slice())?)),
        rhs: Some(NameRef::Borrowed(BStr::new(b"x"))),
        spec_index: 7,
    };
    for (source, destination, same) in ROWS {
        for mapping in &mappings_of(alloc, &[(*source, *destination)])? {
            let alike = (*mapping == first, hash_of(mapping) == hash_of(&first));
            assert_eq!(rt; alike, (*same, *same), "at {source}:{destination}");
        }
    }
    Ok(())
}

// Whether two values have one hash, by the standard hasher.
fn hash_alike<T: Hash>(a: &T, b: &T) -> bool {
    let mut first = DefaultHasher::new();
    let mut second = DefaultHasher::new();
    a.hash(&mut first);
    b.hash(&mut second);
    first.finish() == second.finish()
}

// The texts of the rows, two at a time, and whether the two are in one row.
fn pairs_of<'a>(
    alloc: Global,
    rows: &[[&'a str; 2]],
) -> Result<Vec<(&'a str, &'a str, bool)>, AllocError> {
    let mut pairs = Vec::new(alloc);
    for (i, row) in rows.iter().enumerate() {
        for (j, other) in rows.iter().enumerate() {
            for (a, b) in [(row[0], other[0]), (row[0], other[1]), (row[1], other[1])] {
                pairs.push((a, b, i == j))?;
            }
        }
    }
    Ok(pairs)
}

#[test]
fn compares_names_by_their_bytes(rt: HostRuntime) -> Result<(), Fail> {
    // The names of a row are equal, and those of different rows are not.
    const ROWS: &[[&str; 2]] = &[
        ["", "="],
        ["a", "=a"],
        ["A", "=A"],
        ["aa", "=aa"],
        ["aaaaaaaa", "=aaaaaaaa"],
        ["refs/heads/a", "=refs/heads/a"],
        ["refs/heads/a\0", "=refs/heads/a\0"],
        ["refs/heads/é", "=refs/heads/é"],
    ];
    let alloc = rt.alloc();
    for (a, b, same) in pairs_of(alloc, ROWS)? {
        let (name, other) = (name_of(alloc, a)?, name_of(alloc, b)?);
        let alike = (name == other, hash_alike(&name, &other));
        assert_eq!(rt; alike, (same, same), "at {a} and {b}");
    }
    Ok(())
}

#[test]
fn compares_sources_by_names_and_ids(rt: HostRuntime) -> Result<(), Fail> {
    // The sources of a row are equal, and those of different rows are not. Names may be the digits
    // of an id, or its bytes.
    const ROWS: &[[&str; 2]] = &[
        ["refs/heads/a", "=refs/heads/a"],
        [
            "e69de29bb2d1d6434b8b29ae775ad8c2e48c5391",
            "E69DE29BB2D1D6434B8B29AE775AD8C2E48C5391",
        ],
        [
            "=e69de29bb2d1d6434b8b29ae775ad8c2e48c5391",
            "=e69de29bb2d1d6434b8b29ae775ad8c2e48c5391",
        ],
        [
            "6161616161616161616161616161616161616161",
            "6161616161616161616161616161616161616161",
        ],
        ["aaaaaaaaaaaaaaaaaaaa", "=aaaaaaaaaaaaaaaaaaaa"],
        [
            "0000000000000000000000000000000000000000",
            "0000000000000000000000000000000000000000",
        ],
        [
            "0000000000000000000000000000000000000000000000000000000000000000",
            "0000000000000000000000000000000000000000000000000000000000000000",
        ],
    ];
    let alloc = rt.alloc();
    for (a, b, same) in pairs_of(alloc, ROWS)? {
        let (source, other) = (source_in(alloc, a)?, source_in(alloc, b)?);
        let alike = (source == other, hash_alike(&source, &other));
        assert_eq!(rt; alike, (same, same), "at {a} and {b}");
    }
    Ok(())
}

#[test]
fn copies_and_prints_sources(rt: HostRuntime) -> Result<(), Fail> {
    let alloc = rt.alloc();
    let id = "E69DE29BB2D1D6434B8B29AE775AD8C2E48C5391";
    let rows = [
        ("refs/heads/main", "refs/heads/main"),
        (id, "e69de29bb2d1d6434b8b29ae775ad8c2e48c5391"),
    ];
    for (text, printed) in rows {
        let copy = source_of(text).clone(alloc)?;
        assert_eq!(rt; format!(in alloc; "{copy}")?.as_str(), printed);
        let owned: Source = copy.into_owned(alloc)?;
        assert_eq!(rt; owned, source_of(text), "at {text}");
    }
    Ok(())
}

#[test]
fn gathers_specs_of_an_operation(rt: HostRuntime) -> Result<(), Fail> {
    let alloc = rt.alloc();
    let specs = [
        parse(alloc, BStr::new(b"a:b"), Operation::Fetch)?,
        parse(alloc, BStr::new(b"main"), Operation::Push)?,
        parse(alloc, BStr::new(b"^a"), Operation::Fetch)?,
    ];
    let fetches = MatchGroup::from_fetch_specs(alloc, specs)?;
    let pushes = MatchGroup::from_push_specs(alloc, specs)?;
    assert_eq!(rt; MatchGroup::new(alloc).specs.len(), 0);
    assert_eq!(rt;
        fetches.clone(alloc)?.specs.as_slice(),
        [specs[0], specs[2]].as_slice()
    );
    assert_eq!(rt; pushes.specs.as_slice(), [specs[1]].as_slice());
    let refused = NoRoom { group: pushes };
    assert_eq!(rt; format!(in alloc; "{refused}")?.as_str(), "out of memory");
    Ok(())
}
