//! Pairs of one hash, which the calls tell apart by hashing them by another seed.

use super::super::collisions::COLLIDING;
use super::super::mapping::{group_of, item_of, items_of, target};
use super::{mark, marked, say_answered, say_refused};
use gix_refspec::match_group::validate::Refusal;
use gix_refspec::match_group::{Item, match_lhs};
use gix_refspec::oid::ObjectId;
use gix_refspec::parsing::Operation;
use std::alloc::{AllocError, Global};
use std::test::Fail;

// Two of them map the same sources: where no source is mapped twice, no pair is hashed.
const SPECS: &str =
    "refs/heads/*:refs/remotes/origin/* refs/tags/*:refs/remotes/origin/* refs/heads/*:refs/x/*";

// Items with these names, one a word, and then twice the two whose pairs have one hash.
fn items_with<'a>(
    alloc: Global,
    names: &'a str,
    target: &'a ObjectId,
) -> Result<Vec<Item<'a>>, AllocError> {
    let mut items = items_of(alloc, names, target)?;
    let [first, second] = COLLIDING;
    for (name, _) in [first, second, first, second] {
        items.push(item_of(name, target))?;
    }
    Ok(items)
}

// Whether the mappings are those of the first four items.
fn maps_four(outcome: &match_lhs::Outcome<'_, '_>) -> bool {
    let places = outcome.mappings.iter().map(|mapping| mapping.item_index);
    places.eq([
        Some(0),
        Some(2),
        Some(3),
        Some(1),
        Some(0),
        Some(2),
        Some(3),
    ])
}

#[test]
fn maps_pairs_of_one_hash(rt: HostRuntime) -> Result<(), Fail> {
    let alloc = rt.alloc();
    let target = target();
    let items = items_with(alloc, "refs/heads/b refs/tags/b", &target)?;
    let group = group_of(alloc, Operation::Fetch, SPECS)?;
    match marked!(alloc, group.match_lhs(alloc, items.as_slice())) {
        Ok(outcome) => {
            assert!(&rt; maps_four(&outcome));
            say_answered(&rt)
        }
        Err(refused) => {
            let again = refused.group.match_lhs(alloc, items.as_slice())?;
            assert!(&rt; maps_four(&again));
            say_refused(&rt)
        }
    }
}

#[test]
fn reports_among_pairs_of_one_hash(rt: HostRuntime) -> Result<(), Fail> {
    let alloc = rt.alloc();
    let target = target();
    let items = items_with(alloc, "refs/heads/b refs/tags/b", &target)?;
    let given = group_of(alloc, Operation::Fetch, SPECS)?.match_lhs(alloc, items.as_slice())?;
    assert!(&rt; given.indexes_fit());
    match marked!(alloc, given.validated(alloc)) {
        Err(Refusal::Conflicts(error)) => {
            assert_eq!(&rt; error.issues.len(), 1);
            say_answered(&rt)
        }
        Err(Refusal::Memory(outcome)) => {
            assert!(&rt; maps_four(&outcome));
            say_refused(&rt)
        }
        Ok(_) => Err("no conflict".into()),
    }
}
