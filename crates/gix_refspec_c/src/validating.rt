//! Whether mappings that a caller gives can be written.

ghost use Rattle.std.specs.Prelude.{ℕ, ◌≡◌, ◌≢◌, ◌↔◌, ◌⊎◌, ◌++◌, ◌∷◌, [], List, Some, true, false, length, map, option_map, IfOk, IsTrue, MatchOption};
ghost use Rattle.std.specs.List.{list_any};
ghost use Rattle.bstr.specs.BStr.{bstr_bytes};
ghost use Rattle.gix_refspec.specs.Matching.Mappings.{Mapped};
ghost use Rattle.gix_refspec.specs.Matching.Validation.{HasConflictAt};
ghost use Rattle.gix_refspec.specs.Private.Updates.{all_destinations};
ghost use Rattle.gix_refspec_why.specs.Matching.Why.{IsFirstWith};
ghost use Rattle.gix_refspec_c.specs.Mapping.{no_index};
ghost use Rattle.gix_refspec_c.specs.Outcome.{number_of};
ghost use Rattle.gix_refspec_c.specs.Validating.{AreClaims, GoesTo, HaveVerdicts, IsClaim, IsValidated, IsVerdict, TellConflicts};
ghost use Rattle.gix_refspec_c.specs.Validating.{claimed_source, mapped_in, tells_conflict};

use crate::failure::Failure;
use crate::making::side_given;
use crate::write::write;
use bstr::BStr;
use gix_refspec::match_group::validate::is_writable;
use gix_refspec_match::duplicates::duplicates;
use std::alloc::{AllocError, Global};
use std::collections::BTreeMap;

/// A mapping, as a caller gives it.
#[repr(C)]
#[derive(Clone, Copy)]
pub struct PairIn<'a> {
    /// The source: a ref name, or an id, of which each has one spelling. Only its bytes count.
    pub source: &'a [u8],
    /// The destination, if there is one.
    pub destination: &'a [u8],
    /// 0 if the source is a ref name, and any other number if it is an id.
    pub source_is_id: u32,
    /// 0 if there is no destination, and any other number if there is one.
    pub has_destination: u32,
}

/// What becomes of a mapping.
#[repr(C)]
#[derive(Clone, Copy)]
pub struct PairVerdictOut {
    /// From 1: kept, removed, in conflict.
    pub verdict: u32,
    /// In a conflict the index of the first mapping to this destination, else `usize::MAX`.
    pub first: usize,
}

/// What is known of a destination.
#[derive(Clone, Copy)]
pub(crate) struct Claim<'p> {
    /// The index of the first mapping to it.
    pub(crate) first: usize,
    /// The source of that.
    pub(crate) source: &'p [u8],
    /// Whether that is a ref name, and no id.
    pub(crate) is_name: bool,
    /// Whether another mapping to it has another source.
    pub(crate) contested: bool,
}

/// What becomes of mappings that a fetch would write. Those whose destination another source has too are in
/// conflict, and the outcome is `InConflict` if there are any; of the others those are removed whose
/// destination neither begins `refs/` nor is `HEAD`. Sets an element of `verdicts` for each mapping. Fails with
/// `TooSmall` if they are more than `verdicts` has room for, and then nothing has changed, as if memory runs
/// out.
#[unsafe(no_mangle)]
pub extern "C" fn gix_refspec_validate(
    alloc: Global,
    pairs: &[PairIn<'_>],
    verdicts: &mut [PairVerdictOut],
) -> u32
    ensures { IsValidated (map mapped_in pairs.now) verdicts.old verdicts.new result }
{
    let Ok(found) = verdicts_on(alloc, pairs) else {
        return Failure::NoMemory.number();
    };
    let found = found.as_slice();
    let mut count = 0;
    match write(found, verdicts, &mut count) {
        Ok(()) => outcome_of_all(found),
        Err(failure) => failure.number(),
    }
}

// The outcome for these verdicts, once they are written.
fn outcome_of_all(verdicts: &[PairVerdictOut]) -> u32
    ensures conflict { list_any tells_conflict verdicts.now ≡ true → result ≡ number_of Failure.InConflict }
    ensures free { list_any tells_conflict verdicts.now ≡ false → result ≡ 0 }
{
    if has_conflict(verdicts) {
        return Failure::InConflict.number();
    }
    0
}

// The verdict on each mapping.
fn verdicts_on(alloc: Global, pairs: &[PairIn<'_>]) -> Result<Vec<PairVerdictOut>, AllocError>
    ensures { IfOk result (λ verdicts. HaveVerdicts (map mapped_in pairs.now) verdicts.items) }
{
    let conflicts = conflicts_of(alloc, pairs)?;
    let mut verdicts = Vec::with_capacity(alloc, pairs.len())?;
    for pair in pairs {
        verdicts.push(verdict_on(&conflicts, pair))?;
    }
    Ok(verdicts)
}

// The destinations of mappings, if some are in conflict. Mostly all differ, which is found faster than all are kept.
fn conflicts_of<'p>(
    alloc: Global,
    pairs: &[PairIn<'p>],
) -> Result<BTreeMap<&'p [u8], Claim<'p>>, AllocError>
    ensures { IfOk result (TellConflicts (map mapped_in pairs.now)) }
{
    if destinations_differ(alloc, pairs)? {
        return Ok(BTreeMap::new(alloc));
    }
    claims_of(alloc, pairs)
}

// Whether no two mappings have the same destination: then there is no conflict.
fn destinations_differ(alloc: Global, pairs: &[PairIn<'_>]) -> Result<bool, AllocError>
    ensures { IfOk result (λ differ. IsTrue differ →
        (d : List ℕ) → ¬ (HasConflictAt (map mapped_in pairs.now) d)) }
{
    let destinations = destinations_of(alloc, pairs)?;
    let flags = duplicates(alloc, destinations.as_slice())?;
    Ok(flags.is_empty())
}

// The destinations, without missing ones.
fn destinations_of<'p>(alloc: Global, pairs: &[PairIn<'p>]) -> Result<Vec<BStr<'p>>, AllocError>
    ensures { IfOk result (λ destinations. map bstr_bytes destinations.items ≡
        all_destinations (map mapped_in pairs.now)) }
{
    let mut destinations = Vec::with_capacity(alloc, pairs.len())?;
    for pair in pairs {
        if let Some(name) = destination_of(pair) {
            destinations.push(name)?;
        }
    }
    Ok(destinations)
}

// What is known of the destinations of mappings.
fn claims_of<'p>(
    alloc: Global,
    pairs: &[PairIn<'p>],
) -> Result<BTreeMap<&'p [u8], Claim<'p>>, AllocError>
    ensures { IfOk result (AreClaims (map mapped_in pairs.now)) }
{
    let mut claims = BTreeMap::new(alloc);
    for (index, pair) in pairs.iter().enumerate() {
        if let Some(name) = destination_of(pair) {
            let destination = name.as_bytes();
            let claim = claim_with(&claims, destination, index, pair);
            claims.insert(destination, claim)?;
        }
    }
    Ok(claims)
}

// What is known of the destination of a mapping with this index, by that and by what is known of those before it.
fn claim_with<'p>(
    claims: &BTreeMap<&[u8], Claim<'p>>,
    destination: &[u8],
    index: usize,
    pair: &PairIn<'p>,
) -> Claim<'p>
    ensures { (l : List Mapped) → length l ≡ index → AreClaims l claims.now →
        GoesTo destination.now (mapped_in pair.now) →
        IsClaim (l ++ mapped_in pair.now ∷ []) destination.now (Some result) }
{
    match claims.get(destination) {
        None => Claim {
            first: index,
            source: pair.source,
            is_name: pair.source_is_id == 0,
            contested: false,
        },
        Some(known) => claim_beside(known, pair),
    }
}

// What is known of a destination by one more mapping to it.
fn claim_beside<'p>(known: &Claim<'p>, pair: &PairIn<'_>) -> Claim<'p>
    ensures first { result.first ≡ known.now.first }
    ensures source { claimed_source result ≡ claimed_source known.now }
    ensures contested { IsTrue result.contested ↔
        (IsTrue known.now.contested ⊎ (claimed_source known.now ≢ (mapped_in pair.now).source)) }
{
    Claim {
        first: known.first,
        source: known.source,
        is_name: known.is_name,
        contested: known.contested || !has_source(known, pair),
    }
}

// Whether a mapping has the source of the first one.
fn has_source(known: &Claim<'_>, pair: &PairIn<'_>) -> bool
    ensures { IsTrue result ↔ (claimed_source known.now ≡ (mapped_in pair.now).source) }
{
    known.is_name == (pair.source_is_id == 0) && known.source == pair.source
}

// The verdict on one of the mappings of whose destinations this is known.
fn verdict_on(conflicts: &BTreeMap<&[u8], Claim<'_>>, pair: &PairIn<'_>) -> PairVerdictOut
    ensures { (l : List Mapped) → TellConflicts l conflicts.now → IsVerdict l (mapped_in pair.now) result }
{
    let Some(name) = destination_of(pair) else {
        return without_conflict(1);
    };
    let destination = name.as_bytes();
    match conflict_at(conflicts, destination) {
        Some(first) => PairVerdictOut { verdict: 3, first },
        None => {
            if is_writable(destination) {
                without_conflict(1)
            } else {
                without_conflict(2)
            }
        }
    }
}

// The index of the first mapping to a destination in conflict.
fn conflict_at(conflicts: &BTreeMap<&[u8], Claim<'_>>, destination: &[u8]) -> Option<usize>
    ensures { (l : List Mapped) → TellConflicts l conflicts.now → MatchOption result
        (¬ (HasConflictAt l destination.now))
        (λ first. HasConflictAt l destination.now ×
        ((m : Mapped) × IsFirstWith (GoesTo destination.now) l first m)) }
{
    match conflicts.get(destination) {
        None => None,
        Some(known) => {
            if known.contested {
                Some(known.first)
            } else {
                None
            }
        }
    }
}

// The verdict with this number on a mapping that isn't in conflict.
fn without_conflict(verdict: u32) -> PairVerdictOut
    ensures { result ≡ record { verdict = verdict; first = no_index } }
{
    PairVerdictOut {
        verdict,
        first: usize::MAX,
    }
}

// The destination of a mapping.
fn destination_of<'p>(pair: &PairIn<'p>) -> Option<BStr<'p>>
    ensures { option_map bstr_bytes result ≡ (mapped_in pair.now).destination }
{
    side_given(pair.has_destination, pair.destination)
}

// Whether a mapping is in conflict.
fn has_conflict(verdicts: &[PairVerdictOut]) -> bool
    ensures { result ≡ list_any tells_conflict verdicts.now }
{
    let mut any = false;
    for verdict in verdicts {
        any |= verdict.verdict == 3;
    }
    any
}
