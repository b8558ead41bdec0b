//! What becomes of each update.
//!
//! Destinations are looked up in an ordered map, so that no choice of names makes it slow.

ghost use Rattle.std.specs.Prelude.{[], ◌≡◌, ◌↔◌, ◌++◌, List, length, map, IfOk, IsSome, IsTrue, MatchOption, None};
ghost use Rattle.std.specs.List.{Contains, slice_get};
ghost use Rattle.gix_refspec_match.specs.Views.Mapping.{mapped_of};
ghost use Rattle.gix_refspec_match.specs.Matching.Mappings.{AreApart, Mapped};
ghost use Rattle.gix_refspec_match.specs.Private.Kept.{IsFlagged};
ghost use Rattle.gix_refspec_plan.specs.Matching.Plan.{HasSecondVerdict};
ghost use Rattle.gix_refspec_plan.specs.Private.Verdicts.{AreFirst, AreJudged, AreMappings, AreSecond, AreVerdicts, CountDestinations, FlagKnown, TellContested, TellNested, planned_by};
ghost use Rattle.gix_refspec_plan.specs.Views.Plan.{asked_of, planned_of};

use super::directories::{nested_among, sound_destination};
use super::mapped::unwritable_side;
use super::specs::Tracked;
use super::{Asked, Origin, Update, Verdict};
use gix_refspec::match_group::Mapping;
use gix_refspec::match_group::validate::destinations_differ;
use gix_refspec_match::duplicates::{duplicates, is_flagged};
use std::alloc::{AllocError, Global};
use std::collections::BTreeMap;

// The updates of the mappings of specs that map refs of the remote, and of those that are tracked besides.
pub(crate) fn judged<'item, 'n>(
    alloc: Global,
    asked: &[Asked<'_>],
    firsts: Vec<Mapping<'item, 'n>>,
    tracked: Tracked<'_, 'item, 'n>,
) -> Result<Vec<Update<'item>>, AllocError>
    requires firsts { AreMappings (map asked_of asked.now) (map mapped_of firsts.items) }
    requires seconds { AreMappings
        (map asked_of tracked.specs.items) (map mapped_of tracked.mappings.items) }
    ensures { IfOk result (λ updates. AreJudged
        (map asked_of asked.now) (map mapped_of firsts.entry.items)
        (map asked_of tracked.entry.specs.items) tracked.entry.indexes.items
        (map mapped_of tracked.entry.mappings.items) (map planned_of updates.items)) }
{
    let Tracked {
        specs,
        indexes,
        mappings: mut seconds,
    } = tracked;
    if seconds.is_empty() {
        let verdicts = only_verdicts(alloc, firsts.as_slice())?;
        return first_updates(alloc, asked, firsts, verdicts.as_slice());
    }
    let firsts_len = firsts.len();
    let mut mappings = firsts;
    mappings.append(&mut seconds)?;
    let repeated = duplicates(alloc, mappings.as_slice())?;
    let (firsts, seconds) = mappings.as_slice().split_at(firsts_len);
    let winning = counts_of(alloc, firsts)?;
    let nested = nested_among(alloc, mappings.as_slice())?;
    let verdicts = first_verdicts(alloc, firsts, &nested)?;
    let mut besides = second_updates(
        alloc,
        specs.as_slice(),
        indexes.as_slice(),
        firsts,
        seconds,
        repeated.as_slice(),
        &winning,
        &nested,
    )?;
    drop(winning);
    drop(nested);
    mappings.truncate(firsts_len);
    let mut updates = first_updates(alloc, asked, mappings, verdicts.as_slice())?;
    updates.append(&mut besides)?;
    Ok(updates)
}

// The verdict on each of the mappings, if there are no others.
fn only_verdicts(alloc: Global, mappings: &[Mapping<'_, '_>]) -> Result<Vec<Verdict>, AllocError>
    requires { AreApart (map mapped_of mappings.now) }
    ensures { IfOk result (λ verdicts. AreVerdicts (map mapped_of mappings.now) [] verdicts.items) }
{
    let nested = nested_among(alloc, mappings)?;
    first_verdicts(alloc, mappings, &nested)
}

// The verdict on each of the mappings of specs that map refs of the remote, beside others.
fn first_verdicts(
    alloc: Global,
    mappings: &[Mapping<'_, '_>],
    nested: &BTreeMap<&[u8], &[u8]>,
) -> Result<Vec<Verdict>, AllocError>
    requires { AreApart (map mapped_of mappings.now) }
    ensures { (seconds : List Mapped) → TellNested (map mapped_of mappings.now ++ seconds) nested.now →
        IfOk result (λ verdicts. AreVerdicts (map mapped_of mappings.now) seconds verdicts.items) }
{
    let contested = contested_of(alloc, mappings)?;
    let nothing = BTreeMap::new(alloc);
    let mut verdicts = Vec::with_capacity(alloc, mappings.len())?;
    for mapping in mappings {
        verdicts.push(verdict_on(mapping, &contested, &nothing, nested))?;
    }
    Ok(verdicts)
}

// The updates of the mappings of specs that map refs of the remote, with these verdicts.
fn first_updates<'item>(
    alloc: Global,
    asked: &[Asked<'_>],
    mappings: Vec<Mapping<'item, '_>>,
    verdicts: &[Verdict],
) -> Result<Vec<Update<'item>>, AllocError>
    requires mappings { AreMappings (map asked_of asked.now) (map mapped_of mappings.items) }
    requires verdicts { length verdicts.now ≡ length mappings.items }
    ensures { (seconds : List Mapped) → AreVerdicts (map mapped_of mappings.entry.items) seconds verdicts.now →
        IfOk result (λ updates. AreFirst (map asked_of asked.now) (map mapped_of mappings.entry.items) seconds
        (map planned_of updates.items)) }
{
    let mut updates = Vec::with_capacity(alloc, mappings.len())?;
    for mapping in mappings {
        let origin = asked[mapping.spec_index].origin;
        let verdict = verdicts[updates.len()];
        let item_index = mapping.item_index;
        updates.push(update_of(alloc, mapping, item_index, origin, verdict)?)?;
    }
    Ok(updates)
}

// The updates of the mappings that are tracked besides: of those with a destination whose pair isn't among the first
// mappings.
fn second_updates<'item>(
    alloc: Global,
    specs: &[Asked<'_>],
    indexes: &[usize],
    firsts: &[Mapping<'_, '_>],
    mappings: &[Mapping<'item, '_>],
    repeated: &[bool],
    winning: &BTreeMap<&[u8], bool>,
    nested: &BTreeMap<&[u8], &[u8]>,
) -> Result<Vec<Update<'item>>, AllocError>
    requires mappings { AreMappings (map asked_of specs.now) (map mapped_of mappings.now) }
    requires repeated { FlagKnown (map mapped_of firsts.now) (map mapped_of mappings.now) repeated.now }
    requires winning { CountDestinations (map mapped_of firsts.now) winning.now }
    requires nested { TellNested (map mapped_of firsts.now ++ map mapped_of mappings.now) nested.now }
    ensures { IfOk result (λ updates. AreSecond
        (map asked_of specs.now) indexes.now (map mapped_of firsts.now)
        (map mapped_of mappings.now) (map planned_of updates.items)) }
{
    let contested = contested_of(alloc, mappings)?;
    let mut updates = Vec::with_capacity(alloc, mappings.len())?;
    for (index, mapping) in mappings.iter().enumerate() {
        if is_new(mapping, repeated, firsts.len() + index) {
            let origin = specs[mapping.spec_index].origin;
            let item_index = index_among_all(mapping.item_index, indexes);
            let verdict = verdict_on(mapping, &contested, winning, nested);
            let copy = mapping.clone(alloc)?;
            updates.push(update_of(alloc, copy, item_index, origin, verdict)?)?;
        }
    }
    Ok(updates)
}

// Whether a mapping has a destination, and its index isn't flagged.
fn is_new(mapping: &Mapping<'_, '_>, repeated: &[bool], index: usize) -> bool
    ensures { IsTrue result ↔ (IsSome (mapped_of mapping.now).destination × ¬ (IsFlagged repeated.now index)) }
{
    mapping.rhs.is_some() && !is_flagged(repeated, index)
}

// The update by a mapping. A destination that the mapping owns is moved, and one that it borrows is copied.
fn update_of<'item>(
    alloc: Global,
    mapping: Mapping<'item, '_>,
    item_index: Option<usize>,
    origin: Origin,
    verdict: Verdict,
) -> Result<Update<'item>, AllocError>
    ensures { IfOk result (λ update. planned_of update ≡
        planned_by (mapped_of mapping.entry) item_index origin verdict) }
{
    let Mapping { lhs, rhs, .. } = mapping;
    let destination = match rhs {
        None => None,
        Some(name) => Some(name.into_owned(alloc)?),
    };
    Ok(Update {
        source: lhs,
        item_index,
        destination,
        origin,
        verdict,
    })
}

// The index among all items of one that was taken.
fn index_among_all(index: Option<usize>, indexes: &[usize]) -> Option<usize>
    ensures { MatchOption index (result ≡ None) (λ j. slice_get indexes.now j ≡ result) }
{
    indexes.get(index?).copied()
}

// The verdict on one of the mappings whose destinations are counted. It is overruled if its destination is a winning one.
fn verdict_on(
    mapping: &Mapping<'_, '_>,
    counts: &BTreeMap<&[u8], bool>,
    winning: &BTreeMap<&[u8], bool>,
    nested: &BTreeMap<&[u8], &[u8]>,
) -> Verdict
    ensures { (firsts l all : List Mapped) → CountDestinations firsts winning.now → TellContested l counts.now →
        TellNested all nested.now → AreApart l → Contains l (mapped_of mapping.now) →
        Contains all (mapped_of mapping.now) → HasSecondVerdict firsts l all (mapped_of mapping.now) result }
{
    if let Some(side) = unwritable_side(mapping) {
        return Verdict::LeftOut(side);
    }
    let Some(name) = &mapping.rhs else {
        return Verdict::Written;
    };
    let destination = name.as_bstr().as_bytes();
    if winning.contains_key(destination) {
        return Verdict::Overruled;
    }
    if counts.get(destination).copied().unwrap_or(false) {
        return Verdict::InConflict;
    }
    if nested.contains_key(destination) {
        return Verdict::DirectoryConflict;
    }
    Verdict::Written
}

// The destinations that several sound mappings have are true in this map. Mostly there are none, which is found faster
// than all are counted.
fn contested_of<'m>(
    alloc: Global,
    mappings: &'m [Mapping<'_, '_>],
) -> Result<BTreeMap<&'m [u8], bool>, AllocError>
    requires { AreApart (map mapped_of mappings.now) }
    ensures { IfOk result (λ contested. TellContested (map mapped_of mappings.now) contested) }
{
    if destinations_differ(alloc, mappings)? {
        return Ok(BTreeMap::new(alloc));
    }
    counts_of(alloc, mappings)
}

// The destinations of the sound mappings. True where several have it.
fn counts_of<'m>(
    alloc: Global,
    mappings: &'m [Mapping<'_, '_>],
) -> Result<BTreeMap<&'m [u8], bool>, AllocError>
    ensures { IfOk result (λ counts. CountDestinations (map mapped_of mappings.now) counts) }
{
    let mut counts = BTreeMap::new(alloc);
    for mapping in mappings {
        if let Some(destination) = sound_destination(mapping) {
            let several = counts.contains_key(destination);
            counts.insert(destination, several)?;
        }
    }
    Ok(counts)
}
