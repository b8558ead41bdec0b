//! Pairs of names that have one hash.

use super::mapping::{group_of, item_of};
use bstr::BStr;
use gix_refspec::match_group::{Item, Mapping, NameRef, SourceRef};
use gix_refspec::oid::ObjectId;
use gix_refspec::parsing::Operation;
use std::alloc::{AllocError, Global};
use std::hash::{FoldHasher, Hash, Hasher};
use std::test::Fail;

// Two names, each with its destination below `refs/remotes/origin/`. The two pairs have one hash.
pub(super) const COLLIDING: [(&[u8], &[u8]); 2] = [
    (
        b"refs/heads/0MvFc4\xd2\xba\xab\xf23\xeda\xd8a\x8a\xee>d\xcdaaaaaaaaaaaaaaaaa",
        b"refs/remotes/origin/0MvFc4\xd2\xba\xab\xf23\xeda\xd8a\x8a\xee>d\xcdaaaaaaaaaaaaaaaaa",
    ),
    (
        b"refs/heads/FtOkcaa\x85\xcb\x9b\xb1\xc12\x9e08z\x99(\xb6aaaaaaaaaaaaaaaaa",
        b"refs/remotes/origin/FtOkcaa\x85\xcb\x9b\xb1\xc12\x9e08z\x99(\xb6aaaaaaaaaaaaaaaaa",
    ),
];

// The hash that a mapping has.
pub(super) fn hash_of(mapping: &Mapping<'_, '_>) -> u64 {
    let mut state = FoldHasher::default();
    mapping.hash(&mut state);
    state.finish()
}

// The mapping of a source to a destination.
fn mapping_of<'a>(pair: (&'a [u8], &'a [u8])) -> Mapping<'a, 'a> {
    Mapping {
        item_index: None,
        lhs: SourceRef::FullName(NameRef::Borrowed(BStr::new(pair.0))),
        rhs: Some(NameRef::Borrowed(BStr::new(pair.1))),
        spec_index: 0,
    }
}

// Items with these names.
fn items_of<'a>(
    alloc: Global,
    names: &[&'a [u8]],
    target: &'a ObjectId,
) -> Result<Vec<Item<'a>>, AllocError> {
    let mut items = Vec::new(alloc);
    for name in names {
        items.push(item_of(name, target))?;
    }
    Ok(items)
}

#[test]
fn tells_pairs_of_one_hash_apart(rt: HostRuntime) -> Result<(), Fail> {
    let alloc = rt.alloc();
    let first = COLLIDING[0];
    let second = COLLIDING[1];
    assert_eq!(rt; hash_of(&mapping_of(first)), hash_of(&mapping_of(second)));
    let id = ObjectId::from_hex(b"e69de29bb2d1d6434b8b29ae775ad8c2e48c5391")?;
    let names = [second.0, first.0, second.0, first.0, second.0];
    let items = items_of(alloc, &names, &id)?;
    // Where no source is mapped twice, no pair is hashed.
    let specs = "refs/heads/*:refs/remotes/origin/* refs/heads/*:refs/x/*";
    let group = group_of(alloc, Operation::Fetch, specs)?;
    let outcome = group.match_lhs(alloc, items.as_slice())?;
    let places = outcome.mappings.iter().map(|mapping| mapping.item_index);
    assert!(rt; places.eq([Some(0), Some(1), Some(0), Some(1)]));
    Ok(())
}
