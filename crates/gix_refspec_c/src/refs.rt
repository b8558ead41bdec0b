//! Matching specs for fetches and pushes against refs with their ids.

ghost use Rattle.std.specs.Prelude.{◌≡◌, ◌⊎◌, List, map, option_map, IfErr, IfOk, MatchBool};
ghost use Rattle.std.specs.List.{AllZip, list_all};
ghost use Rattle.gix_refspec.specs.Texts.ObjectId.{id_bytes};
ghost use Rattle.gix_refspec.specs.Views.Group.{readings_of, ref_of};
ghost use Rattle.gix_refspec.specs.Views.Spec.{reading_of};
ghost use Rattle.gix_refspec_c.specs.Kept.{entries_of};
ghost use Rattle.gix_refspec_c.specs.Mapping.{Entry, HasAll, LacksAll, Room};
ghost use Rattle.gix_refspec_c.specs.Matching.{Lists, direction_code};
ghost use Rattle.gix_refspec_c.specs.Outcome.{Answers};
ghost use Rattle.gix_refspec_c.specs.Refs.{AreInput, AreMatchedRefs, AreUnmatchedRefs, HasBadId, HasTargets, IsBadId};
ghost use Rattle.gix_refspec_c.specs.Refs.{IsBadSpec, IsFirstBadSpec, IsIdIn, IsRefOf, LacksTarget, ReadsAs, SomeBadId};
ghost use Rattle.gix_refspec_c.specs.Refs.{is_known, known_ref, ref_text, spec_text};

use crate::failure::{Failure, outcome_of};
use crate::kept::{Kept, write_kept};
use crate::listing::MappingOut;
use crate::matching::{Direction, direction_of, kept_over};
use crate::reading::{add, operation_of, read};
use bstr::BStr;
use gix_refspec::match_group::Item;
use gix_refspec::oid::{Kind, ObjectId};
use gix_refspec::{MatchGroup, RefSpecRef};
use std::alloc::{AllocError, Global};

/// The text of a spec, and what it is for.
#[repr(C)]
#[derive(Clone, Copy)]
pub struct SpecIn<'a> {
    /// The text.
    pub text: &'a [u8],
    /// The number of the operation.
    pub operation: u32,
}

/// A ref of the caller.
#[repr(C)]
#[derive(Clone, Copy)]
pub struct RefIn<'a> {
    /// Its full name. Any bytes will do.
    pub name: &'a [u8],
    /// The hexadecimal digits of the id that it points to; empty if that isn't known.
    pub target: &'a [u8],
    /// Those of the id that was tagged, if the target is an annotated tag; else empty.
    pub object: &'a [u8],
}

/// A ref whose ids are read. A target that isn't known is the null id.
#[derive(Clone, Copy)]
pub(crate) struct Known<'a> {
    pub(crate) name: &'a [u8],
    pub(crate) target: ObjectId,
    pub(crate) object: Option<ObjectId>,
}

/// Maps refs by specs, each for its own operation, from left to right or from right to left. Ids count only
/// from right to left, and only for specs whose destination is one: if there is such a spec, and the target of
/// some ref isn't known, the failure is `NeedsIds`. Digits that spell no id give `InvalidId`. Sets `count` and
/// `len` to the required sizes even if `mappings` or `buffer` is too small, and leaves both of these
/// unchanged then; after any other failure nothing has changed.
#[unsafe(no_mangle)]
pub extern "C" fn gix_refspec_match_refs(
    alloc: Global,
    specs: &[SpecIn<'_>],
    refs: &[RefIn<'_>],
    direction: u32,
    mappings: &mut [MappingOut],
    buffer: &mut [u8],
    count: &mut usize,
    len: &mut usize,
) -> u32
    ensures { Answers direction_code direction
        (λ d. (es : List Entry) × AreMatchedRefs d (map spec_text specs.now) (map ref_text refs.now) es × HasAll es
        (record { mappings = mappings.old; buffer = buffer.old; count = count.old; len = len.old })
        (record { mappings = mappings.new; buffer = buffer.new; count = count.new; len = len.new }))
        (λ d. LacksAll (AreMatchedRefs d (map spec_text specs.now) (map ref_text refs.now))
        (AreUnmatchedRefs d (map spec_text specs.now) (map ref_text refs.now))
        (record { mappings = mappings.old; buffer = buffer.old; count = count.old; len = len.old })
        (record { mappings = mappings.new; buffer = buffer.new; count = count.new; len = len.new }))
        ((mappings.new ≡ mappings.old) × (buffer.new ≡ buffer.old) × (count.new ≡ count.old) × (len.new ≡ len.old))
        result }
{
    let direction = match direction_of(direction) {
        Some(direction) => direction,
        None => return Failure::NoOperation.number(),
    };
    let input = match read_input(alloc, specs, refs, direction) {
        Ok(input) => input,
        Err(failure) => return failure.number(),
    };
    let Input { group, refs } = input;
    match kept_of(alloc, group, refs.as_slice(), direction) {
        Ok(kept) => outcome_of(write_kept(&kept, mappings, buffer, count, len)),
        Err(failure) => failure.number(),
    }
}

// What is matched: the specs, and the refs with their ids.
#[derive(Drop)]
struct Input<'spec, 'item> {
    group: MatchGroup<'spec>,
    refs: Vec<Known<'item>>,
}

// Reads specs, and the ids of refs. Fails if an id is asked for, and the target of some ref isn't known.
fn read_input<'spec, 'item>(
    alloc: Global,
    specs: &[SpecIn<'spec>],
    refs: &[RefIn<'item>],
    direction: Direction,
) -> Result<Input<'spec, 'item>, Failure>
    ensures ok { IfOk result (λ input. AreInput direction (map spec_text specs.now) (map ref_text refs.now)
        (readings_of input.group) (map known_ref input.refs.items)) }
    ensures err { IfErr result (AreUnmatchedRefs direction (map spec_text specs.now) (map ref_text refs.now)) }
{
    let group = match read_specs(alloc, specs) {
        Ok(group) => group,
        Err(failure) => return Err(failure),
    };
    let known = match read_refs(alloc, refs) {
        Ok(known) => known,
        Err(failure) => return Err(failure),
    };
    if lacks_target(direction, &group, refs) {
        return Err(Failure::NeedsIds);
    }
    Ok(Input { group, refs: known })
}

// What a group keeps over refs.
fn kept_of<'spec, 'item>(
    alloc: Global,
    group: MatchGroup<'spec>,
    refs: &'item [Known<'_>],
    direction: Direction,
) -> Result<Kept<'spec, 'item>, Failure>
    ensures ok { IfOk result (λ kept. Lists direction
        (readings_of group.entry) (map known_ref refs.now) (entries_of kept)) }
    ensures err { IfErr result (λ f. f ≡ Failure.NoMemory) }
{
    match items_of(alloc, refs) {
        Ok(items) => kept_over(alloc, group, items.as_slice(), direction),
        Err(_) => Err(Failure::NoMemory),
    }
}

// Reads specs, each for its operation. Fails at the first one that is refused, or if memory runs out.
fn read_specs<'a>(alloc: Global, specs: &[SpecIn<'a>]) -> Result<MatchGroup<'a>, Failure>
    ensures ok { IfOk result (λ group. AllZip ReadsAs (map spec_text specs.now) (readings_of group)) }
    ensures err { IfErr result (λ f. (f ≡ Failure.NoMemory) ⊎ IsFirstBadSpec (map spec_text specs.now) f) }
{
    let mut group = MatchGroup::new(alloc);
    for spec in specs {
        let read = match read_spec(alloc, spec) {
            Ok(read) => read,
            Err(failure) => return Err(failure),
        };
        add(&mut group, read)?;
    }
    Ok(group)
}

fn read_spec<'a>(alloc: Global, spec: &SpecIn<'a>) -> Result<RefSpecRef<'a>, Failure>
    ensures ok { IfOk result (λ s. ReadsAs (spec_text spec.now) (reading_of s)) }
    ensures err { IfErr result (IsBadSpec (spec_text spec.now)) }
{
    let Some(operation) = operation_of(spec.operation) else {
        return Err(Failure::NoOperation);
    };
    match read(alloc, spec.text, operation) {
        Ok(read) => Ok(read),
        Err(failure) => Err(failure),
    }
}

// Reads the ids of refs. Fails if one is malformed, or if memory runs out.
fn read_refs<'a>(alloc: Global, refs: &[RefIn<'a>]) -> Result<Vec<Known<'a>>, Failure>
    ensures ok { IfOk result (λ known. AllZip IsRefOf (map ref_text refs.now) (map known_ref known.items)) }
    ensures err { IfErr result (λ f. (f ≡ Failure.NoMemory) ⊎
        ((f ≡ Failure.InvalidId) × SomeBadId (map ref_text refs.now))) }
{
    let mut known = Vec::new(alloc);
    for one in refs {
        let read = match read_ref(one) {
            Ok(read) => read,
            Err(failure) => return Err(failure),
        };
        match known.push(read) {
            Ok(()) => {}
            Err(_) => return Err(Failure::NoMemory),
        }
    }
    Ok(known)
}

fn read_ref<'a>(one: &RefIn<'a>) -> Result<Known<'a>, Failure>
    ensures ok { IfOk result (λ known. IsRefOf (ref_text one.now) (known_ref known)) }
    ensures err { IfErr result (λ f. (f ≡ Failure.InvalidId) × HasBadId (ref_text one.now)) }
{
    let target = match read_id(one.target) {
        Ok(target) => target,
        Err(failure) => return Err(failure),
    };
    let object = match read_id(one.object) {
        Ok(object) => object,
        Err(failure) => return Err(failure),
    };
    Ok(Known {
        name: one.name,
        target: match target {
            Some(id) => id,
            None => ObjectId::null(Kind::Sha1),
        },
        object,
    })
}

// The id that digits spell. There is none if there are no digits.
fn read_id(digits: &[u8]) -> Result<Option<ObjectId>, Failure>
    ensures ok { IfOk result (λ id. IsIdIn digits.now (option_map id_bytes id)) }
    ensures err { IfErr result (λ f. (f ≡ Failure.InvalidId) × IsBadId digits.now) }
{
    if digits.is_empty() {
        return Ok(None);
    }
    match ObjectId::from_hex(digits) {
        Ok(id) => Ok(Some(id)),
        Err(_) => Err(Failure::InvalidId),
    }
}

// Whether ids are asked for, from right to left, and the target of some ref isn't known.
fn lacks_target(direction: Direction, group: &MatchGroup<'_>, refs: &[RefIn<'_>]) -> bool
    ensures { MatchBool result
        (LacksTarget direction (readings_of group.now) (map ref_text refs.now))
        (HasTargets direction (readings_of group.now) (map ref_text refs.now)) }
{
    match direction {
        Direction::Forward => false,
        Direction::Backward => !group.asks_for_no_id() && !are_known(refs),
    }
}

// Whether the target of each ref is known.
fn are_known(refs: &[RefIn<'_>]) -> bool
    ensures { result ≡ list_all is_known (map ref_text refs.now) }
{
    let mut all = true;
    for one in refs {
        all &= !one.target.is_empty();
    }
    all
}

// Items that borrow these refs.
fn items_of<'a>(alloc: Global, refs: &'a [Known<'_>]) -> Result<Vec<Item<'a>>, AllocError>
    ensures { IfOk result (λ items. map ref_of items.items ≡ map known_ref refs.now) }
{
    let mut items = Vec::with_capacity(alloc, refs.len())?;
    for one in refs {
        items.push(Item {
            full_ref_name: BStr::new(one.name),
            target: &one.target,
            object: match &one.object {
                Some(id) => Some(id),
                None => None,
            },
        })?;
    }
    Ok(items)
}
