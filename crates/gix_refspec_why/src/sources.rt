//! Why the source of a spec doesn't match a name.

ghost use Rattle.std.specs.Prelude.{◌≢◌, ℕ, List, IfOk, MatchOption};
ghost use Rattle.gix_refspec_text.specs.Matching.Match.{HasName, Ref};
ghost use Rattle.gix_refspec_text.specs.Matching.Side.{Fits};
ghost use Rattle.gix_refspec_text.specs.Specs.Reading.{Negative};
ghost use Rattle.gix_refspec_text.specs.Views.Spec.{reading_of};
ghost use Rattle.gix_refspec_match.specs.Matching.Mappings.{Mapped};
ghost use Rattle.gix_refspec_match.specs.Matching.Single.{MapsName};
ghost use Rattle.gix_refspec_why.specs.Matching.Why.{AgreeAtEnd, AgreeAtStart, IsPatternMismatch, Misses};
ghost use Rattle.gix_refspec_why.specs.Private.Attempts.{AreCandidatesOf, HasEarlierCandidate, NamesFirst, TakesFirstCandidate};

use crate::Mismatch;
use gix_refspec_text::RefSpecRef;
use gix_refspec_text::side::{SideKind, candidates, kind_of};
use std::alloc::{AllocError, Global};
use std::collections::BTreeMap;

// Why a spec that maps no ref of a name doesn't, if it isn't negative.
pub(crate) fn source_mismatch(spec: &RefSpecRef<'_>, name: &[u8]) -> Mismatch
    requires positive { (reading_of spec.now).mode ≢ Negative }
    requires unmapped { (m : Mapped) → ¬ (MapsName name.now (reading_of spec.now) m) }
    ensures { (refs : List Ref) → Misses refs (reading_of spec.now) name.now result }
{
    let Some(source) = spec.source() else {
        return Mismatch::NoSource;
    };
    match kind_of(source.as_bytes()) {
        SideKind::Pattern { before, after } => pattern_mismatch(before, after, name),
        SideKind::FullName(_) => Mismatch::OtherName,
        SideKind::Object(_) => Mismatch::Object,
        SideKind::Partial(_) => Mismatch::NoCandidate,
    }
}

/// Why a pattern with these texts before and after its star doesn't match a name.
pub fn pattern_mismatch(before: &[u8], after: &[u8], name: &[u8]) -> Mismatch
    requires { (word : List ℕ) → ¬ (Fits before.now after.now name.now word) }
    ensures { IsPatternMismatch before.now after.now name.now result }
{
    if !name.starts_with(before) {
        return Mismatch::Prefix(equal_at_start(before, name));
    }
    if !name.ends_with(after) {
        return Mismatch::Suffix(equal_at_end(after, name));
    }
    Mismatch::Overlap
}

// With how many equal bytes two texts begin.
fn equal_at_start(one: &[u8], other: &[u8]) -> usize
    ensures { AgreeAtStart one.now other.now result }
{
    let len = one.len().min(other.len());
    for index in 0..len {
        if one[index] != other[index] {
            return index;
        }
    }
    len
}

// With how many equal bytes two texts end.
fn equal_at_end(one: &[u8], other: &[u8]) -> usize
    ensures { AgreeAtEnd one.now other.now result }
{
    let len = one.len().min(other.len());
    for index in 0..len {
        if one[one.len() - 1 - index] != other[other.len() - 1 - index] {
            return index;
        }
    }
    len
}

// The index of the first item that has the first candidate of a spec, if that is another name. The spec maps the name, so it
// is a candidate if the source is a partial name, and some item has it.
pub(crate) fn earlier_candidate(
    alloc: Global,
    spec: &RefSpecRef<'_>,
    name: &[u8],
    firsts: &BTreeMap<&[u8], usize>,
) -> Result<Option<usize>, AllocError>
    requires { AreCandidatesOf (reading_of spec.now) name.now }
    ensures { (refs : List Ref) → NamesFirst refs firsts.now → HasName refs name.now → IfOk result (λ earlier.
        MatchOption earlier (TakesFirstCandidate refs (reading_of spec.now) name.now)
        (HasEarlierCandidate refs (reading_of spec.now) name.now)) }
{
    let Some(source) = spec.source() else {
        return Ok(None);
    };
    let SideKind::Partial(partial) = kind_of(source.as_bytes()) else {
        return Ok(None);
    };
    for candidate in &candidates(alloc, partial)? {
        let candidate = candidate.as_bstr().as_bytes();
        if candidate == name {
            return Ok(None);
        }
        if let Some(index) = firsts.get(candidate) {
            return Ok(Some(*index));
        }
    }
    Ok(None)
}
