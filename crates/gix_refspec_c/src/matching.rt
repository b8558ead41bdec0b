//! Matching fetch specs against names.

ghost use Rattle.std.specs.Prelude.{◌≡◌, ◌↔◌, ℕ, List, map, replicate, IfErr, IfOk, IsTrue, MatchBool, MatchOption, OnOk};
ghost use Rattle.std.specs.List.{AllByRecursion, AllZip};
ghost use Rattle.gix_refspec.specs.Specs.Grammar.{Reads};
ghost use Rattle.gix_refspec.specs.Views.Group.{mapped_of, readings_of, ref_of};
ghost use Rattle.gix_refspec.specs.Texts.ObjectId.{id_bytes};
ghost use Rattle.gix_refspec.specs.Laws.Items.{AsksForNoId};
ghost use Rattle.gix_refspec.specs.Views.Spec.{reading_of};
ghost use Rattle.gix_refspec_c.specs.Group.{bytes_of};
ghost use Rattle.gix_refspec_c.specs.Kept.{entries_of};
ghost use Rattle.gix_refspec_c.specs.Mapping.{Entry, HasAll, LacksAll, Room};
ghost use Rattle.gix_refspec_c.specs.Matching.{AreMatched, AreUnmatched, Lists, NamesSuffice, direction_code, nameless};
ghost use Rattle.gix_refspec_c.specs.Outcome.{Answers};

use crate::explanation::Text;
use crate::failure::{Failure, outcome_of};
use crate::kept::{Kept, write_kept};
use crate::listing::MappingOut;
use crate::reading::read_all;
use bstr::BStr;
use gix_refspec::match_group::Item;
use gix_refspec::oid::{Kind, ObjectId};
use gix_refspec::parsing::Operation;
use gix_refspec::{MatchGroup, RefSpecRef, laws};
use std::alloc::{AllocError, Global};

/// Which side of the specs is matched.
#[derive(Clone, Copy)]
pub enum Direction {
    /// The sources, from left to right.
    Forward,
    /// The destinations, from right to left.
    Backward,
}

/// Maps names by fetch specs, from left to right or from right to left. The latter fails with `NeedsIds` if a
/// destination is an id. Sets `count` and `len` to the required sizes even if `mappings` or `buffer` is
/// too small, and leaves both of these unchanged then; after any other failure nothing has changed.
#[unsafe(no_mangle)]
pub extern "C" fn gix_refspec_match(
    alloc: Global,
    texts: &[Text<'_>],
    names: &[Text<'_>],
    direction: u32,
    mappings: &mut [MappingOut],
    buffer: &mut [u8],
    count: &mut usize,
    len: &mut usize,
) -> u32
    ensures { Answers direction_code direction
        (λ d. (es : List Entry) × AreMatched d (map bytes_of texts.now) (map bytes_of names.now) es × HasAll es
        (record { mappings = mappings.old; buffer = buffer.old; count = count.old; len = len.old })
        (record { mappings = mappings.new; buffer = buffer.new; count = count.new; len = len.new }))
        (λ d. LacksAll (AreMatched d (map bytes_of texts.now) (map bytes_of names.now))
        (AreUnmatched d (map bytes_of texts.now))
        (record { mappings = mappings.old; buffer = buffer.old; count = count.old; len = len.old })
        (record { mappings = mappings.new; buffer = buffer.new; count = count.new; len = len.new }))
        ((mappings.new ≡ mappings.old) × (buffer.new ≡ buffer.old) × (count.new ≡ count.old) × (len.new ≡ len.old))
        result }
{
    let direction = match direction_of(direction) {
        Some(direction) => direction,
        None => return Failure::NoOperation.number(),
    };
    let null = ObjectId::null(Kind::Sha1);
    match kept_of(alloc, texts, names, &null, direction) {
        Ok(kept) => outcome_of(write_kept(&kept, mappings, buffer, count, len)),
        Err(failure) => failure.number(),
    }
}

/// The direction with this number in C.
pub(crate) fn direction_of(number: u32) -> Option<Direction>
    ensures { MatchOption result
        ((d : Direction) → ¬ (number ≡ direction_code d)) (λ d. number ≡ direction_code d) }
{
    match number {
        1 => Some(Direction::Forward),
        2 => Some(Direction::Backward),
        _ => None,
    }
}

// What fetch specs keep over names, each of which stands for a ref with the null id.
fn kept_of<'spec, 'item>(
    alloc: Global,
    texts: &[Text<'spec>],
    names: &'item [Text<'_>],
    null: &'item ObjectId,
    direction: Direction,
) -> Result<Kept<'spec, 'item>, Failure>
    requires { id_bytes null.now ≡ replicate 20 0 }
    ensures ok { IfOk result (λ kept. AreMatched direction
        (map bytes_of texts.now) (map bytes_of names.now) (entries_of kept)) }
    ensures err { IfErr result (AreUnmatched direction (map bytes_of texts.now)) }
{
    let group = read_all(alloc, texts, Operation::Fetch)?;
    if lacks_ids(direction, &group) {
        return Err(Failure::NeedsIds);
    }
    match items_of(alloc, names, null) {
        Ok(items) => kept_over(alloc, group, items.as_slice(), direction),
        Err(_) => Err(Failure::NoMemory),
    }
}

// Whether names don't decide: from right to left, if a spec asks for an id.
fn lacks_ids(direction: Direction, group: &MatchGroup<'_>) -> bool
    ensures { MatchBool result
        ((direction ≡ Direction.Backward) × ¬ (AsksForNoId (readings_of group.now)))
        (NamesSuffice direction (readings_of group.now)) }
{
    match direction {
        Direction::Forward => false,
        Direction::Backward => !group.asks_for_no_id(),
    }
}

/// What a group keeps over items.
pub(crate) fn kept_over<'spec, 'item>(
    alloc: Global,
    group: MatchGroup<'spec>,
    items: &[Item<'item>],
    direction: Direction,
) -> Result<Kept<'spec, 'item>, Failure>
    ensures ok { IfOk result (λ kept. Lists direction
        (readings_of group.entry) (map ref_of items.now) (entries_of kept)) }
    ensures err { IfErr result (λ f. f ≡ Failure.NoMemory) }
{
    match direction {
        Direction::Forward => match group.match_lhs(alloc, items) {
            Ok(outcome) => Ok(Kept::Forward(outcome)),
            Err(_) => Err(Failure::NoMemory),
        },
        Direction::Backward => match group.match_rhs(alloc, items) {
            Ok(outcome) => Ok(Kept::Backward(outcome)),
            Err(_) => Err(Failure::NoMemory),
        },
    }
}

/// Items with these names and one id.
pub(crate) fn items_of<'a>(
    alloc: Global,
    names: &'a [Text<'_>],
    id: &'a ObjectId,
) -> Result<Vec<Item<'a>>, AllocError>
    requires { id_bytes id.now ≡ replicate 20 0 }
    ensures { IfOk result (λ items. map ref_of items.items ≡ map nameless (map bytes_of names.now)) }
{
    let mut items = Vec::with_capacity(alloc, names.len())?;
    for name in names {
        items.push(Item {
            full_ref_name: BStr::new(name.bytes),
            target: id,
            object: None,
        })?;
    }
    Ok(items)
}
