//! Local refs that a pruning fetch treats otherwise without a value.
//!
//! Where both sides are patterns, a few local refs tell of all: those with a word of `words_of` for the star; and, if the source
//! is excluded and another value can write the local ref, those that decide what the three patterns have in common.

ghost use Rattle.std.specs.Prelude.{◌≡◌, ◌∷◌, ◌++◌, [], List, ℕ, map, IfOk, MatchBool};
ghost use Rattle.std.specs.List.{AllByRecursion, Contains};
ghost use Rattle.bstr.specs.Owned.{bstring_bytes};
ghost use Rattle.gix_refspec_text.specs.Specs.Reading.{Reading, Negative};
ghost use Rattle.gix_refspec_text.specs.Specs.Grammar.{IsPositive};
ghost use Rattle.gix_refspec_text.specs.Views.Spec.{reading_of};
ghost use Rattle.gix_refspec_text.specs.Texts.Words.{BeginsWith, EndsWith};
ghost use Rattle.gix_refspec_match.specs.Matching.Mappings.{name};
ghost use Rattle.gix_refspec_match.specs.Views.Mapping.{ref_of, start_of};
ghost use Rattle.gix_refspec.specs.Matching.RefNames.{IsRefName, IsValidSource};
ghost use Rattle.gix_refspec_plan.specs.Matching.Plan.{IsCompleted};
ghost use Rattle.gix_refspec_plan.specs.Matching.Stale.{IsStale};
ghost use Rattle.gix_refspec_plan.specs.Private.Stales.{IsNamedBy};
ghost use Rattle.gix_refspec_lint.specs.Matching.Lint.{refs_of};
ghost use Rattle.gix_refspec_lint.specs.Matching.Removal.{IsStaleByOne, PruneOtherwise};
ghost use Rattle.gix_refspec_lint.specs.Private.Idles.{HasSourcePattern};
ghost use Rattle.gix_refspec_lint.specs.Private.Lints.{IsBounded};
ghost use Rattle.gix_refspec_lint.specs.Private.Removals.{AreLists, AreSameAmong, AreSameExcluded, AreSameOverlapping, AreSameOverlappingFrom, AreSameWithin, AreSameWithout, ExcludesWithin, HasNoPattern, IsSameAlone, IsSameAt, IsSameFrom, WritesPatterns, all_of, rest_of};

use super::super::group::{add_item, any_target, source_named, with_its_word};
use super::super::words::Common;
use bstr::{BStr, BString};
use gix_refspec::match_group::ref_names::is_ref_name;
use gix_refspec::match_group::{Item, Source};
use gix_refspec_plan::mapped::is_valid_source;
use gix_refspec_plan::stale::{parts_of, stale_refs};
use gix_refspec_text::RefSpecRef;
use gix_refspec_text::oid::ObjectId;
use gix_refspec_text::side::{SideKind, candidates, joined, kind_of};
use std::alloc::{AllocError, Global};

// The texts before and after the star of a pattern.
type Parts<'p> = (&'p [u8], &'p [u8]);

// The values of a remote; those without one of them, as they are and with completed destinations; and the words to try for a star.
#[derive(Clone, Copy)]
pub(super) struct Lists<'l, 's> {
    pub(super) values: &'l [RefSpecRef<'s>],
    pub(super) rest: &'l [RefSpecRef<'s>],
    pub(super) others: &'l [RefSpecRef<'l>],
    pub(super) words: &'l [BString],
}

// Whether a pruning fetch treats some local ref otherwise without this value, which is given with a completed destination.
pub(super) fn prunes_by(
    alloc: Global,
    lists: &Lists<'_, '_>,
    spec: &RefSpecRef<'_>,
) -> Result<bool, AllocError>
    ensures { (r : Reading) → AreLists r lists.now → IsCompleted r (reading_of spec.now) → IfOk result (λ does. MatchBool does
        (PruneOtherwise (all_of lists.now) (rest_of lists.now)) (¬ (PruneOtherwise (all_of lists.now) (rest_of lists.now)))) }
{
    if spec.is_negative() {
        return exclusion_prunes(alloc, lists, spec);
    }
    let Some(far) = parts_of(spec.destination()) else {
        return name_prunes(alloc, lists, spec);
    };
    match parts_of(spec.source()) {
        None => Ok(false),
        Some(near) => pattern_prunes(alloc, lists, near, far),
    }
}

// ---- at one local ref

// Whether a local ref is stale.
fn is_stale<'x>(
    alloc: Global,
    specs: &[RefSpecRef<'_>],
    remote: &[Item<'_>],
    local: &'x [u8],
    target: &'x ObjectId,
) -> Result<bool, AllocError>
    ensures { IfOk result (λ is. MatchBool is
        (IsStale (map reading_of specs.now) (map ref_of remote.now) local.now)
        (¬ (IsStale (map reading_of specs.now) (map ref_of remote.now) local.now))) }
{
    let locals = [Item {
        full_ref_name: BStr::new(local),
        target,
        object: None,
    }];
    let found = stale_refs(alloc, specs, remote, locals.as_slice())?;
    match found.first() {
        None => Ok(false),
        Some(stale) => Ok(stale.kept_by.is_none()),
    }
}

// Whether a pruning fetch treats the local ref otherwise without the value, on a remote with these refs.
fn differs_beside<'x>(
    alloc: Global,
    lists: &Lists<'_, '_>,
    remote: &[Item<'_>],
    local: &'x [u8],
    target: &'x ObjectId,
) -> Result<bool, AllocError>
    ensures { IfOk result (λ does. MatchBool does
        (IsRefName local.now × IsStaleByOne (all_of lists.now) (rest_of lists.now) (map ref_of remote.now) local.now)
        (IsRefName local.now → ¬ (IsStaleByOne (all_of lists.now) (rest_of lists.now) (map ref_of remote.now) local.now))) }
{
    if !is_ref_name(local) {
        return Ok(false);
    }
    let with = is_stale(alloc, lists.values, remote, local, target)?;
    let without = is_stale(alloc, lists.rest, remote, local, target)?;
    Ok(with != without)
}

// The same on a remote without refs.
fn differs_alone(alloc: Global, lists: &Lists<'_, '_>, local: &[u8]) -> Result<bool, AllocError>
    ensures { IfOk result (λ does. MatchBool does
        (PruneOtherwise (all_of lists.now) (rest_of lists.now))
        (IsSameAlone (all_of lists.now) (rest_of lists.now) local.now)) }
{
    let target = any_target();
    let remote = Vec::new(alloc);
    differs_beside(alloc, lists, remote.as_slice(), local, &target)
}

// The same on a remote with this ref alone.
fn differs_with<'x>(
    alloc: Global,
    lists: &Lists<'_, '_>,
    source: &'x Source,
    local: &'x [u8],
    target: &'x ObjectId,
) -> Result<bool, AllocError>
    ensures { IfOk result (λ does. MatchBool does
        (PruneOtherwise (all_of lists.now) (rest_of lists.now))
        (IsValidSource (start_of source.now) → IsRefName local.now →
        ¬ (IsStaleByOne (all_of lists.now) (rest_of lists.now) (refs_of (start_of source.now)) local.now))) }
{
    if !is_valid_source(source) {
        return Ok(false);
    }
    let mut remote = Vec::new(alloc);
    add_item(&mut remote, source, target)?;
    differs_beside(alloc, lists, remote.as_slice(), local, target)
}

// The same on a remote without refs, or with one of these alone.
fn differs_at(
    alloc: Global,
    lists: &Lists<'_, '_>,
    local: &[u8],
    sources: &[Source],
) -> Result<bool, AllocError>
    ensures { IfOk result (λ does. MatchBool does
        (PruneOtherwise (all_of lists.now) (rest_of lists.now))
        (IsSameAt (all_of lists.now) (rest_of lists.now) local.now (map start_of sources.now))) }
{
    if differs_alone(alloc, lists, local)? {
        return Ok(true);
    }
    let target = any_target();
    for source in sources {
        if differs_with(alloc, lists, source, local, &target)? {
            return Ok(true);
        }
    }
    Ok(false)
}

// ---- at the names that decide

// Whether a pruning fetch treats the local ref with the same word as the source otherwise, by the patterns of both sides.
fn differs_from(
    alloc: Global,
    lists: &Lists<'_, '_>,
    near: Parts<'_>,
    far: Parts<'_>,
    source: &[u8],
) -> Result<bool, AllocError>
    ensures { IfOk result (λ does. MatchBool does
        (PruneOtherwise (all_of lists.now) (rest_of lists.now))
        (IsSameFrom (all_of lists.now) (rest_of lists.now) near.entry.0.now near.entry.1.now far.entry.0.now far.entry.1.now source.now)) }
{
    match with_its_word(alloc, near, far, source)? {
        None => Ok(false),
        Some(local) => differs_alone(alloc, lists, local.as_bstr().as_bytes()),
    }
}

// The same of the sources in which texts overlap.
fn differs_overlapping_from(
    alloc: Global,
    lists: &Lists<'_, '_>,
    near: Parts<'_>,
    far: Parts<'_>,
    common: &Common<'_>,
) -> Result<bool, AllocError>
    requires { IsBounded common.now }
    ensures { IfOk result (λ does. MatchBool does
        (PruneOtherwise (all_of lists.now) (rest_of lists.now))
        (AreSameOverlappingFrom (all_of lists.now) (rest_of lists.now) near.entry.0.now near.entry.1.now far.entry.0.now far.entry.1.now common.now)) }
{
    for shared in &common.overlaps(alloc)? {
        let source = common.overlapping(alloc, *shared)?;
        if differs_from(alloc, lists, near, far, source.as_bstr().as_bytes())? {
            return Ok(true);
        }
    }
    Ok(false)
}

// The same of local refs with both texts and a word between them, or in which they overlap.
fn differs_among(
    alloc: Global,
    lists: &Lists<'_, '_>,
    common: &Common<'_>,
) -> Result<bool, AllocError>
    requires { IsBounded common.now }
    ensures { IfOk result (λ does. MatchBool does
        (PruneOtherwise (all_of lists.now) (rest_of lists.now))
        (AreSameAmong (all_of lists.now) (rest_of lists.now) (map bstring_bytes lists.now.words.now) common.now)) }
{
    for word in lists.words {
        let local = common.with_word(alloc, word)?;
        if differs_alone(alloc, lists, local.as_bstr().as_bytes())? {
            return Ok(true);
        }
    }
    differs_overlapping(alloc, lists, common)
}

// The same of local refs in which the texts overlap.
fn differs_overlapping(
    alloc: Global,
    lists: &Lists<'_, '_>,
    common: &Common<'_>,
) -> Result<bool, AllocError>
    requires { IsBounded common.now }
    ensures { IfOk result (λ does. MatchBool does
        (PruneOtherwise (all_of lists.now) (rest_of lists.now))
        (AreSameOverlapping (all_of lists.now) (rest_of lists.now) common.now)) }
{
    for shared in &common.overlaps(alloc)? {
        let local = common.overlapping(alloc, *shared)?;
        if differs_alone(alloc, lists, local.as_bstr().as_bytes())? {
            return Ok(true);
        }
    }
    Ok(false)
}

// ---- without a positive value

// Whether a pruning fetch treats some local ref otherwise without a positive value, which writes one at most.
fn name_prunes(
    alloc: Global,
    lists: &Lists<'_, '_>,
    spec: &RefSpecRef<'_>,
) -> Result<bool, AllocError>
    requires { HasNoPattern (reading_of spec.now).destination }
    ensures { (r : Reading) → AreLists r lists.now → IsCompleted r (reading_of spec.now) → IsPositive r.mode →
        IfOk result (λ does. MatchBool does (PruneOtherwise (all_of lists.now) (rest_of lists.now))
        (¬ (PruneOtherwise (all_of lists.now) (rest_of lists.now)))) }
{
    let Some(destination) = spec.destination() else {
        return Ok(false);
    };
    let sources = sources_named(alloc, spec)?;
    differs_at(alloc, lists, destination.as_bytes(), sources.as_slice())
}

// The refs for which the source of a spec without a star may stand.
fn sources_named(alloc: Global, spec: &RefSpecRef<'_>) -> Result<Vec<Source>, AllocError>
    ensures { IfOk result (λ sources. (s : List ℕ) → IsNamedBy (reading_of spec.now) s →
        Contains (map start_of sources.items) (name s)) }
{
    let mut sources = Vec::new(alloc);
    let Some(side) = spec.source() else {
        return Ok(sources);
    };
    match kind_of(side.as_bytes()) {
        SideKind::Pattern { .. } => {}
        SideKind::Object(_) => {}
        SideKind::FullName(_) => sources.push(source_named(BString::from_slice(alloc, side)?))?,
        SideKind::Partial(name) => {
            for candidate in candidates(alloc, name)? {
                sources.push(source_named(candidate))?;
            }
        }
    }
    Ok(sources)
}

// The same of one whose sides are patterns with these texts.
fn pattern_prunes(
    alloc: Global,
    lists: &Lists<'_, '_>,
    near: Parts<'_>,
    far: Parts<'_>,
) -> Result<bool, AllocError>
    ensures { (r : Reading) → AreLists r lists.now →
        WritesPatterns r near.entry.0.now near.entry.1.now far.entry.0.now far.entry.1.now →
        IfOk result (λ does. MatchBool does (PruneOtherwise (all_of lists.now) (rest_of lists.now))
        (¬ (PruneOtherwise (all_of lists.now) (rest_of lists.now)))) }
{
    if word_prunes(alloc, lists, near, far)? {
        return Ok(true);
    }
    excluded_prunes(alloc, lists, near, far)
}

// Whether it treats a local ref otherwise that the patterns have with one of the words.
fn word_prunes(
    alloc: Global,
    lists: &Lists<'_, '_>,
    near: Parts<'_>,
    far: Parts<'_>,
) -> Result<bool, AllocError>
    ensures { IfOk result (λ does. MatchBool does (PruneOtherwise (all_of lists.now) (rest_of lists.now))
        (AllByRecursion (λ w. IsSameAt (all_of lists.now) (rest_of lists.now)
        (far.entry.0.now ++ (w ++ far.entry.1.now)) (name (near.entry.0.now ++ (w ++ near.entry.1.now)) ∷ []))
        (map bstring_bytes lists.now.words.now))) }
{
    for word in lists.words {
        if word_differs(alloc, lists, near, far, word)? {
            return Ok(true);
        }
    }
    Ok(false)
}

// The same with this word.
fn word_differs(
    alloc: Global,
    lists: &Lists<'_, '_>,
    near: Parts<'_>,
    far: Parts<'_>,
    word: &BString,
) -> Result<bool, AllocError>
    ensures { IfOk result (λ does. MatchBool does (PruneOtherwise (all_of lists.now) (rest_of lists.now))
        (IsSameAt (all_of lists.now) (rest_of lists.now)
        (far.entry.0.now ++ (bstring_bytes word.now ++ far.entry.1.now))
        (name (near.entry.0.now ++ (bstring_bytes word.now ++ near.entry.1.now)) ∷ []))) }
{
    let word = word.as_bstr().as_bytes();
    let local = joined(alloc, far.0, word, far.1)?;
    let sources = [source_named(joined(alloc, near.0, word, near.1)?)];
    differs_at(alloc, lists, local.as_bstr().as_bytes(), sources.as_slice())
}

// Whether it treats a local ref otherwise that other values can write too, and whose source is excluded.
fn excluded_prunes(
    alloc: Global,
    lists: &Lists<'_, '_>,
    near: Parts<'_>,
    far: Parts<'_>,
) -> Result<bool, AllocError>
    ensures { (r : Reading) → AreLists r lists.now →
        WritesPatterns r near.entry.0.now near.entry.1.now far.entry.0.now far.entry.1.now →
        IfOk result (λ does. MatchBool does (PruneOtherwise (all_of lists.now) (rest_of lists.now))
        ((e : Reading) → Contains (rest_of lists.now) e →
        AreSameExcluded lists.now near.entry.0.now near.entry.1.now far.entry.0.now far.entry.1.now e)) }
{
    for negative in lists.others {
        if excluded_by(alloc, lists, near, far, negative)? {
            return Ok(true);
        }
    }
    Ok(false)
}

// The same of those whose source this value excludes, if it is negative.
fn excluded_by(
    alloc: Global,
    lists: &Lists<'_, '_>,
    near: Parts<'_>,
    far: Parts<'_>,
    negative: &RefSpecRef<'_>,
) -> Result<bool, AllocError>
    ensures { (r e : Reading) → AreLists r lists.now →
        WritesPatterns r near.entry.0.now near.entry.1.now far.entry.0.now far.entry.1.now →
        Contains (rest_of lists.now) e → IsCompleted e (reading_of negative.now) →
        IfOk result (λ does. MatchBool does (PruneOtherwise (all_of lists.now) (rest_of lists.now))
        (AreSameExcluded lists.now near.entry.0.now near.entry.1.now far.entry.0.now far.entry.1.now e)) }
{
    if !negative.is_negative() {
        return Ok(false);
    }
    let Some(excluded) = negative.source() else {
        return Ok(false);
    };
    let Some(parts) = parts_of(negative.source()) else {
        return differs_from(alloc, lists, near, far, excluded.as_bytes());
    };
    let Some(taken) = Common::of(near, parts) else {
        return Ok(false);
    };
    if differs_overlapping_from(alloc, lists, near, far, &taken)? {
        return Ok(true);
    }
    let prefix = joined(alloc, far.0, beyond_prefix(taken.prefix, near.0), b"")?;
    let suffix = joined(alloc, beyond_suffix(taken.suffix, near.1), far.1, b"")?;
    let within = (prefix.as_bstr().as_bytes(), suffix.as_bstr().as_bytes());
    excluded_within(alloc, lists, far, within)
}

// What a text has beyond another one, with which it begins.
fn beyond_prefix<'a>(longer: &'a [u8], text: &[u8]) -> &'a [u8]
    requires { BeginsWith text.now longer.now }
    ensures { longer.now ≡ text.now ++ result.now }
{
    &longer[text.len()..]
}

// The same of one with which it ends.
fn beyond_suffix<'a>(longer: &'a [u8], text: &[u8]) -> &'a [u8]
    requires { EndsWith text.now longer.now }
    ensures { longer.now ≡ result.now ++ text.now }
{
    &longer[..longer.len() - text.len()]
}

// Whether it treats a local ref otherwise that fits both patterns, which other values can write too.
fn excluded_within(
    alloc: Global,
    lists: &Lists<'_, '_>,
    far: Parts<'_>,
    within: Parts<'_>,
) -> Result<bool, AllocError>
    ensures { (r e : Reading) (p t : List ℕ) → (are : AreLists r lists.now) →
        WritesPatterns r p t far.entry.0.now far.entry.1.now → Contains (rest_of lists.now) e →
        ExcludesWithin are.letter e p t far.entry.0.now far.entry.1.now within.entry.0.now within.entry.1.now →
        IfOk result (λ does. MatchBool does (PruneOtherwise (all_of lists.now) (rest_of lists.now))
        ((other : Reading) → Contains (rest_of lists.now) other → AreSameWithin lists.now
        far.entry.0.now far.entry.1.now within.entry.0.now within.entry.1.now other)) }
{
    for other in lists.others {
        if excluded_beside(alloc, lists, far, within, other)? {
            return Ok(true);
        }
    }
    Ok(false)
}

// The same of those that this value can write.
fn excluded_beside(
    alloc: Global,
    lists: &Lists<'_, '_>,
    far: Parts<'_>,
    within: Parts<'_>,
    other: &RefSpecRef<'_>,
) -> Result<bool, AllocError>
    ensures { (r e : Reading) (p t : List ℕ) → (are : AreLists r lists.now) →
        WritesPatterns r p t far.entry.0.now far.entry.1.now → Contains (rest_of lists.now) e →
        ExcludesWithin are.letter e p t far.entry.0.now far.entry.1.now within.entry.0.now within.entry.1.now →
        (q : Reading) → Contains (rest_of lists.now) q → IsCompleted q (reading_of other.now) →
        IfOk result (λ does. MatchBool does (PruneOtherwise (all_of lists.now) (rest_of lists.now))
        (AreSameWithin lists.now far.entry.0.now far.entry.1.now within.entry.0.now within.entry.1.now q)) }
{
    if other.is_negative() {
        return Ok(false);
    }
    let Some(destination) = other.destination() else {
        return Ok(false);
    };
    let Some(parts) = parts_of(other.destination()) else {
        return differs_alone(alloc, lists, destination.as_bytes());
    };
    let Some(shared) = Common::of(far, parts) else {
        return Ok(false);
    };
    if differs_overlapping(alloc, lists, &shared)? {
        return Ok(true);
    }
    match Common::of((shared.prefix, shared.suffix), within) {
        None => Ok(false),
        Some(common) => differs_among(alloc, lists, &common),
    }
}

// ---- without a negative value

// Whether a pruning fetch treats some local ref otherwise without a negative value.
fn exclusion_prunes(
    alloc: Global,
    lists: &Lists<'_, '_>,
    negative: &RefSpecRef<'_>,
) -> Result<bool, AllocError>
    requires { (reading_of negative.now).mode ≡ Negative }
    ensures { (r : Reading) → AreLists r lists.now → IsCompleted r (reading_of negative.now) →
        IfOk result (λ does. MatchBool does (PruneOtherwise (all_of lists.now) (rest_of lists.now))
        (¬ (PruneOtherwise (all_of lists.now) (rest_of lists.now)))) }
{
    for spec in lists.others {
        if exclusion_matters(alloc, lists, negative, spec)? {
            return Ok(true);
        }
    }
    Ok(false)
}

// The same of those that a value writes from sources which the negative one excludes.
fn exclusion_matters(
    alloc: Global,
    lists: &Lists<'_, '_>,
    negative: &RefSpecRef<'_>,
    spec: &RefSpecRef<'_>,
) -> Result<bool, AllocError>
    requires { (reading_of negative.now).mode ≡ Negative }
    ensures { (r : Reading) → AreLists r lists.now → IsCompleted r (reading_of negative.now) →
        (q : Reading) → Contains (rest_of lists.now) q → IsCompleted q (reading_of spec.now) →
        IfOk result (λ does. MatchBool does (PruneOtherwise (all_of lists.now) (rest_of lists.now))
        (AreSameWithout lists.now r q)) }
{
    if spec.is_negative() {
        return Ok(false);
    }
    let Some(destination) = spec.destination() else {
        return Ok(false);
    };
    let Some(far) = parts_of(spec.destination()) else {
        return differs_alone(alloc, lists, destination.as_bytes());
    };
    let Some(near) = parts_of(spec.source()) else {
        return Ok(false);
    };
    match parts_of(negative.source()) {
        None => excludes_one(alloc, lists, near, far, negative),
        Some(parts) => excludes_shared(alloc, lists, near, far, parts),
    }
}

// The same of the local ref with the same word as the source, if the negative value has no star.
fn excludes_one(
    alloc: Global,
    lists: &Lists<'_, '_>,
    near: Parts<'_>,
    far: Parts<'_>,
    negative: &RefSpecRef<'_>,
) -> Result<bool, AllocError>
    requires negative { (reading_of negative.now).mode ≡ Negative }
    requires plain { HasNoPattern (reading_of negative.now).source }
    ensures { (r : Reading) → AreLists r lists.now → IsCompleted r (reading_of negative.now) →
        (q : Reading) → WritesPatterns q near.entry.0.now near.entry.1.now far.entry.0.now far.entry.1.now →
        IfOk result (λ does. MatchBool does (PruneOtherwise (all_of lists.now) (rest_of lists.now))
        (AreSameWithout lists.now r q)) }
{
    let Some(excluded) = negative.source() else {
        return Ok(false);
    };
    differs_from(alloc, lists, near, far, excluded.as_bytes())
}

// The same of those whose sources fit its pattern.
fn excludes_shared(
    alloc: Global,
    lists: &Lists<'_, '_>,
    near: Parts<'_>,
    far: Parts<'_>,
    parts: Parts<'_>,
) -> Result<bool, AllocError>
    ensures { (r : Reading) → AreLists r lists.now → r.mode ≡ Negative → HasSourcePattern r parts.entry.0.now parts.entry.1.now →
        (q : Reading) → Contains (rest_of lists.now) q →
        WritesPatterns q near.entry.0.now near.entry.1.now far.entry.0.now far.entry.1.now →
        IfOk result (λ does. MatchBool does (PruneOtherwise (all_of lists.now) (rest_of lists.now))
        (AreSameWithout lists.now r q)) }
{
    let Some(taken) = Common::of(near, parts) else {
        return Ok(false);
    };
    for word in lists.words {
        let source = taken.with_word(alloc, word)?;
        if differs_from(alloc, lists, near, far, source.as_bstr().as_bytes())? {
            return Ok(true);
        }
    }
    differs_overlapping_from(alloc, lists, near, far, &taken)
}
