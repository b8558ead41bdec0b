//! What a fetch does because of one value of a remote's configuration, besides its mappings.

ghost use Rattle.std.specs.Prelude.{◌≡◌, ◌↔◌, ◌<◌, List, ℕ, Some, length, map, IfErr, IfOk, IsTrue, MatchBool};
ghost use Rattle.std.specs.List.{slice_get};
ghost use Rattle.gix_refspec_text.specs.Specs.Grammar.{IsPositive};
ghost use Rattle.gix_refspec_text.specs.Specs.Reading.{Reading};
ghost use Rattle.gix_refspec_text.specs.Views.Spec.{reading_of};
ghost use Rattle.gix_refspec_match.specs.Views.Mapping.{start_of};
ghost use Rattle.gix_refspec_lint.specs.Laws.Lint.{without as without_at};
ghost use Rattle.gix_refspec_lint.specs.Matching.Lint.{IsFree};
ghost use Rattle.gix_refspec_lint.specs.Matching.Removal.{FollowsTags, FollowsTagsBy, HasDestination, IsFirst, MergesFirst, Prunes, Tracks};
ghost use Rattle.gix_refspec_lint.specs.Private.Idles.{HasPlainSource, IsAtWork, earlier_than};
ghost use Rattle.gix_refspec_lint.specs.Private.Lints.{IsGroupOf};
ghost use Rattle.gix_refspec_lint.specs.Private.Removals.{ArePositives, FetchesSome, FetchesSource};
ghost use Rattle.gix_refspec_lint.specs.declared.Error.TheVariants as error;

mod pruning;

use super::Error;
use super::exclusions::maps_alone;
use super::group::{Group, any_target, named_sources};
use super::idle::idle_reason;
use super::letter::free_byte;
use super::words::words_of;
use gix_refspec::match_group::Source;
use gix_refspec_plan::mapped::{completed_names, completed_specs};
use gix_refspec_plan::stale::parts_of;
use gix_refspec_text::RefSpecRef;
use gix_refspec_text::oid::ObjectId;
use pruning::{Lists, prunes_by};
use std::alloc::{AllocError, Global};

/// What a fetch does otherwise, besides its mappings, if a value is left out.
#[derive(Clone, Copy, Debug, PartialEq, Eq)]
pub struct Removal {
    /// `git fetch --prune` treats some local ref otherwise: it deletes the ref with the value, and keeps it without, or the other
    /// way round.
    pub prunes: bool,
    /// `git fetch REMOTE REF` updates some local ref by it.
    pub tracks: bool,
    /// Tags are followed because of it.
    pub follows_tags: bool,
    /// `git pull` merges its ref, or without it that of the next value, if no ref is named to merge.
    pub is_first: bool,
}

/// What a fetch does because of the value at this index, whatever refs a remote has. Nothing if there is no such value.
///
/// The values are those of one remote, in order, and specs of a fetch. Fails if there is no free byte, or if memory runs out.
pub fn removal_of(alloc: Global, values: &[RefSpecRef<'_>], index: usize) -> Result<Removal, Error>
    ensures prunes { IfOk result (λ r. IsTrue r.prunes ↔ Prunes (map reading_of values.now) index) }
    ensures tracks { IfOk result (λ r. IsTrue r.tracks ↔ Tracks (map reading_of values.now) index) }
    ensures tags { IfOk result (λ r. IsTrue r.follows_tags ↔ FollowsTagsBy (map reading_of values.now) index) }
    ensures first { IfOk result (λ r. IsTrue r.is_first ↔ IsFirst (map reading_of values.now) index) }

    ensures refused { IfErr result (λ e. e ≡ error.NoFreeByte →
        (b : ℕ) → ¬ (IsFree (map reading_of values.now) b)) }
{
    let letter = free_byte(values)?;
    let rest = without(alloc, values, index)?;
    let rest = rest.as_slice();
    Ok(Removal {
        prunes: does_prune(alloc, values, rest, index, letter)?,
        tracks: does_track(alloc, values, index, letter)?,
        follows_tags: follow_tags(values) && !follow_tags(rest),
        is_first: is_first(alloc, values, rest, index, letter)?,
    })
}

// The values but for the one at an index.
fn without<'s>(
    alloc: Global,
    values: &[RefSpecRef<'s>],
    index: usize,
) -> Result<Vec<RefSpecRef<'s>>, AllocError>
    ensures { IfOk result (λ rest. map reading_of rest.items ≡ without_at index (map reading_of values.now)) }
{
    let mut rest = Vec::new(alloc);
    for (at, value) in values.iter().enumerate() {
        if at != index {
            rest.push(*value)?;
        }
    }
    Ok(rest)
}

// Whether a pruning fetch treats some local ref otherwise without the value at an index.
fn does_prune<'v, 's>(
    alloc: Global,
    values: &'v [RefSpecRef<'s>],
    rest: &'v [RefSpecRef<'s>],
    index: usize,
    letter: u8,
) -> Result<bool, AllocError>
    requires rest { map reading_of rest.now ≡ without_at index (map reading_of values.now) }
    requires free { IsFree (map reading_of values.now) letter }
    ensures { IfOk result (λ does. IsTrue does ↔ Prunes (map reading_of values.now) index) }
{
    if index >= values.len() {
        return Ok(false);
    }
    let spec = [values[index]];
    let name = completed_names(alloc, spec.as_slice())?;
    let completed = completed_specs(alloc, spec.as_slice(), name.as_slice())?;
    let names = completed_names(alloc, rest)?;
    let others = completed_specs(alloc, rest, names.as_slice())?;
    let words = words_of(alloc, letter)?;
    let lists = Lists {
        values,
        rest,
        others: others.as_slice(),
        words: words.as_slice(),
    };
    prunes_by(alloc, &lists, &completed[0])
}

// Whether `git fetch REMOTE REF` updates some local ref by the value at an index. Git leaves negative ones out of account there.
fn does_track(
    alloc: Global,
    values: &[RefSpecRef<'_>],
    index: usize,
    letter: u8,
) -> Result<bool, AllocError>
    requires free { IsFree (map reading_of values.now) letter }
    ensures { IfOk result (λ does. IsTrue does ↔ Tracks (map reading_of values.now) index) }
{
    if index >= values.len() || !has_destination(&values[index]) {
        return Ok(false);
    }
    let mut positives = positives(alloc, &values[..index])?;
    let last = positives.len();
    positives.push(values[index])?;
    works_at(alloc, positives.as_slice(), last, letter)
}

// Whether a positive value maps anything that no earlier one does.
fn works_at(
    alloc: Global,
    values: &[RefSpecRef<'_>],
    index: usize,
    letter: u8,
) -> Result<bool, AllocError>
    requires free { IsFree (map reading_of values.now) letter }
    requires within { index < length values.now }
    ensures { IfOk result (λ does. (r : Reading) → slice_get (map reading_of values.now) index ≡ Some r → IsPositive r.mode →
        MatchBool does (IsAtWork (map reading_of values.now) (earlier_than index) index)
        (¬ (IsAtWork (map reading_of values.now) (earlier_than index) index))) }
{
    let names = completed_names(alloc, values)?;
    let completed = completed_specs(alloc, values, names.as_slice())?;
    let group = Group::of(alloc, values, completed.as_slice(), letter)?;
    match idle_reason(alloc, &group, index)? {
        None => Ok(true),
        Some(_) => Ok(false),
    }
}

// The positive values, in order.
fn positives<'s>(
    alloc: Global,
    values: &[RefSpecRef<'s>],
) -> Result<Vec<RefSpecRef<'s>>, AllocError>
    ensures { IfOk result (λ kept. ArePositives (map reading_of values.now) (map reading_of kept.items)) }
{
    let mut positives = Vec::new(alloc);
    for value in values {
        if !value.is_negative() {
            positives.push(*value)?;
        }
    }
    Ok(positives)
}

/// Whether tags are followed: some value has a destination.
pub fn follow_tags(values: &[RefSpecRef<'_>]) -> bool
    ensures { MatchBool result (FollowsTags (map reading_of values.now)) (¬ (FollowsTags (map reading_of values.now))) }
{
    for value in values {
        if has_destination(value) {
            return true;
        }
    }
    false
}

/// Whether a value is positive and has a destination.
pub fn has_destination(value: &RefSpecRef<'_>) -> bool
    ensures { MatchBool result (HasDestination (reading_of value.now)) (¬ (HasDestination (reading_of value.now))) }
{
    !value.is_negative() && value.destination().is_some()
}

// Whether it matters to `git pull` that the value at an index is the first.
fn is_first(
    alloc: Global,
    values: &[RefSpecRef<'_>],
    rest: &[RefSpecRef<'_>],
    index: usize,
    letter: u8,
) -> Result<bool, AllocError>
    requires rest { map reading_of rest.now ≡ without_at index (map reading_of values.now) }
    requires free { IsFree (map reading_of values.now) letter }
    ensures { IfOk result (λ is. IsTrue is ↔ IsFirst (map reading_of values.now) index) }
{
    if index != 0 {
        return Ok(false);
    }
    if merges_first(alloc, values, letter)? {
        return Ok(true);
    }
    merges_first(alloc, rest, letter)
}

// Whether `git pull` merges a ref of the first value.
fn merges_first(alloc: Global, values: &[RefSpecRef<'_>], letter: u8) -> Result<bool, AllocError>
    requires free { IsFree (map reading_of values.now) letter }
    ensures { IfOk result (λ does. MatchBool does
        (MergesFirst (map reading_of values.now)) (¬ (MergesFirst (map reading_of values.now)))) }
{
    if values.is_empty() {
        return Ok(false);
    }
    if parts_of(values[0].source()).is_some() {
        return Ok(false);
    }
    let names = completed_names(alloc, values)?;
    let completed = completed_specs(alloc, values, names.as_slice())?;
    let group = Group::of(alloc, values, completed.as_slice(), letter)?;
    fetches_named(alloc, &group, &completed[0])
}

// Whether a spec without a star of the group fetches any of its sources.
fn fetches_named(
    alloc: Global,
    group: &Group<'_, '_>,
    spec: &RefSpecRef<'_>,
) -> Result<bool, AllocError>
    ensures { (g : List Reading) → IsGroupOf g group.now → HasPlainSource (reading_of spec.now) → IfOk result (λ does.
        MatchBool does (FetchesSome g (reading_of spec.now)) (¬ (FetchesSome g (reading_of spec.now)))) }
{
    let target = any_target();
    for source in &named_sources(alloc, spec)? {
        if does_fetch(alloc, group, spec, source, &target)? {
            return Ok(true);
        }
    }
    Ok(false)
}

// Whether it fetches this source, on a remote with this ref alone.
fn does_fetch<'x>(
    alloc: Global,
    group: &Group<'_, '_>,
    spec: &RefSpecRef<'_>,
    source: &'x Source,
    target: &'x ObjectId,
) -> Result<bool, AllocError>
    ensures { (g : List Reading) → IsGroupOf g group.now → IfOk result (λ does. MatchBool does
        (FetchesSource g (reading_of spec.now) (start_of source.now)) (¬ (FetchesSource g (reading_of spec.now) (start_of source.now)))) }
{
    match group.excluding(source) {
        None => maps_alone(alloc, spec, source, target),
        Some(_) => Ok(false),
    }
}
