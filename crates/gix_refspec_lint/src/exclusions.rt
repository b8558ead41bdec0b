//! Negative specs that exclude nothing.

ghost use Rattle.std.specs.Prelude.{◌≡◌, ◌↔◌, ◌<◌, ◌≤◌, ◌∷◌, ◌++◌, [], List, ℕ, Option, Some, drop, length, map};
ghost use Rattle.std.specs.Prelude.{option_map, IfOk, IfSome, IsTrue, MatchBool, OnOk};
ghost use Rattle.bstr.specs.BStr.{bstr_bytes};
ghost use Rattle.bstr.specs.Owned.{bstring_bytes};
ghost use Rattle.std.specs.List.{Any};
ghost use Rattle.gix_refspec_text.specs.Specs.Reading.{Reading, Negative};
ghost use Rattle.gix_refspec_text.specs.Views.Spec.{reading_of};
ghost use Rattle.gix_refspec_match.specs.Matching.Mappings.{IsSourceExcluded, name};
ghost use Rattle.gix_refspec_match.specs.Views.Mapping.{start_of};
ghost use Rattle.gix_refspec_lint.specs.Matching.Lint.{AreIdleExclusions, IsIdleExclusion, merged_text, refs_of};
ghost use Rattle.gix_refspec_lint.specs.Private.Alike.{TellsIdle};
ghost use Rattle.gix_refspec_lint.specs.Private.Idles.{AddsMergedRefs, AreMergedRefs, ExcludesFrom, ExcludesSome, HasPlainSource, MakesSoundly, ShareSources};
ghost use Rattle.gix_refspec_lint.specs.Private.Lints.{IsBounded, IsGroupOf};
ghost use Rattle.gix_refspec_lint.specs.Private.Overlaps.{IsOverlap};
ghost use Rattle.gix_refspec_lint.specs.Private.Runs.{IsUnsound};

use super::alike::{earlier_alike, flag_before};
use super::group::{Group, add_item, any_target, destination_of, named_sources, source_named};
use super::required::valid_names;
use super::runs::{Of, Run, Why};
use super::sound::sound_mapping;
use super::words::Common;
use bstr::{BStr, BString};
use gix_refspec::match_group::ref_names::is_ref_name;
use gix_refspec::match_group::{Source, SourceRef};
use gix_refspec_match::needle::word_between;
use gix_refspec_plan::mapped::is_below_refs;
use gix_refspec_plan::stale::parts_of;
use gix_refspec_text::RefSpecRef;
use gix_refspec_text::oid::ObjectId;
use gix_refspec_text::side::candidates;
use std::alloc::{AllocError, Global};

// The indexes of the negative specs that exclude nothing, in order.
pub(super) fn idle_exclusions_in(
    alloc: Global,
    group: &Group<'_, '_>,
    merges: &[BStr<'_>],
) -> Result<Vec<usize>, AllocError>
    ensures { (g : List Reading) → IsGroupOf g group.now → IfOk result (λ idle.
        AreIdleExclusions g (map bstr_bytes merges.now) idle.items) }
{
    let merged = merged_refs(alloc, merges)?;
    let earlier = earlier_alike(alloc, group.specs)?;
    let mut flags = Vec::with_capacity(alloc, group.specs.len())?;
    let mut idle = Vec::new(alloc);
    for index in 0..group.specs.len() {
        let before = flag_before(earlier[index], flags.as_slice());
        let excludes_none = is_idle_at(alloc, group, merged.as_slice(), index, before)?;
        flags.push(excludes_none)?;
        if excludes_none {
            idle.push(index)?;
        }
    }
    Ok(idle)
}

// Whether the spec at an index is negative and excludes nothing, unless an earlier one with the same sides tells.
fn is_idle_at(
    alloc: Global,
    group: &Group<'_, '_>,
    merged: &[Source],
    index: usize,
    before: Option<bool>,
) -> Result<bool, AllocError>
    requires { index < length group.now.specs.now }
    ensures { (g : List Reading) (merges : List (List ℕ)) → IsGroupOf g group.now →
        AreMergedRefs merges (map start_of merged.now) → IfSome before (TellsIdle g merges
        (map reading_of group.now.specs.now) index) →
        IfOk result (TellsIdle g merges (map reading_of group.now.specs.now) index) }
{
    if let Some(is) = before {
        return Ok(is);
    }
    is_idle(alloc, group, merged, &group.specs[index])
}

// The refs that a fetch may take for merged ones: the valid candidates of each value, of an empty one those of `HEAD`.
fn merged_refs(alloc: Global, merges: &[BStr<'_>]) -> Result<Vec<Source>, AllocError>
    ensures { IfOk result (λ merged. AreMergedRefs (map bstr_bytes merges.now) (map start_of merged.items)) }
{
    let mut merged = Vec::new(alloc);
    for value in merges {
        add_merged(alloc, &mut merged, value.as_bytes())?;
    }
    Ok(merged)
}

// Adds those of one value.
fn add_merged(alloc: Global, merged: &mut Vec<Source>, value: &[u8]) -> Result<(), AllocError>
    ensures { OnOk result (AddsMergedRefs value.now (map start_of merged.old.items) (map start_of merged.new.items)) }
{
    for name in valid_names(alloc, candidates(alloc, merged_text(value))?)? {
        merged.push(source_named(name))?;
    }
    Ok(())
}

// The ref that a value names.
fn merged_text(value: &[u8]) -> &[u8]
    ensures { result.now ≡ merged_text value.now }
{
    if value.is_empty() { b"HEAD" } else { value }
}

// Whether a spec is negative and excludes nothing, nor one of the merged refs.
fn is_idle(
    alloc: Global,
    group: &Group<'_, '_>,
    merged: &[Source],
    spec: &RefSpecRef<'_>,
) -> Result<bool, AllocError>
    ensures { (g : List Reading) (merges : List (List ℕ)) → IsGroupOf g group.now →
        AreMergedRefs merges (map start_of merged.now) → IfOk result (λ is. MatchBool is
        (IsIdleExclusion g merges (reading_of spec.now)) (¬ (IsIdleExclusion g merges (reading_of spec.now)))) }
{
    if !spec.is_negative() {
        return Ok(false);
    }
    if excludes_merged(spec, merged) {
        return Ok(false);
    }
    let excludes = excludes_any(alloc, group, spec)?;
    Ok(!excludes)
}

// Whether a negative spec excludes one of these refs.
fn excludes_merged(negative: &RefSpecRef<'_>, merged: &[Source]) -> bool
    requires { (reading_of negative.now).mode ≡ Negative }
    ensures { MatchBool result
        (Any (IsSourceExcluded (reading_of negative.now ∷ [])) (map start_of merged.now))
        (¬ (Any (IsSourceExcluded (reading_of negative.now ∷ [])) (map start_of merged.now))) }
{
    for source in merged {
        if does_exclude(negative, source) {
            return true;
        }
    }
    false
}

// Whether a negative spec excludes a source of a sound mapping.
fn excludes_any(
    alloc: Global,
    group: &Group<'_, '_>,
    negative: &RefSpecRef<'_>,
) -> Result<bool, AllocError>
    requires { (reading_of negative.now).mode ≡ Negative }
    ensures { (g : List Reading) → IsGroupOf g group.now → IfOk result (λ does. MatchBool does
        (Any (ExcludesSome (reading_of negative.now)) (map reading_of group.now.specs.now))
        (¬ (Any (ExcludesSome (reading_of negative.now)) (map reading_of group.now.specs.now)))) }
{
    for spec in group.specs {
        if excludes_of(alloc, group, negative, spec)? {
            return Ok(true);
        }
    }
    Ok(false)
}

// The same of the mappings of one spec.
fn excludes_of(
    alloc: Global,
    group: &Group<'_, '_>,
    negative: &RefSpecRef<'_>,
    spec: &RefSpecRef<'_>,
) -> Result<bool, AllocError>
    requires { (reading_of negative.now).mode ≡ Negative }
    ensures { (g : List Reading) → IsGroupOf g group.now → IfOk result (λ does. MatchBool does
        (ExcludesSome (reading_of negative.now) (reading_of spec.now))
        (¬ (ExcludesSome (reading_of negative.now) (reading_of spec.now)))) }
{
    if spec.is_negative() {
        return Ok(false);
    }
    let Some(excluded) = negative.source() else {
        return Ok(false);
    };
    let Some(taken) = parts_of(spec.source()) else {
        return excludes_named(alloc, negative, spec);
    };
    let Some(parts) = parts_of(negative.source()) else {
        let name = source_named(BString::from_slice(alloc, excluded)?);
        return excludes_at(alloc, negative, spec, &name);
    };
    match Common::of(parts, taken) {
        None => Ok(false),
        Some(common) => excludes_common(alloc, group, negative, spec, &common),
    }
}

// The same of a spec without a star, by its sources.
fn excludes_named(
    alloc: Global,
    negative: &RefSpecRef<'_>,
    spec: &RefSpecRef<'_>,
) -> Result<bool, AllocError>
    requires { (reading_of negative.now).mode ≡ Negative }
    ensures { HasPlainSource (reading_of spec.now) → IfOk result (λ does. MatchBool does
        (ExcludesSome (reading_of negative.now) (reading_of spec.now))
        (¬ (ExcludesSome (reading_of negative.now) (reading_of spec.now)))) }
{
    for source in &named_sources(alloc, spec)? {
        if excludes_at(alloc, negative, spec, source)? {
            return Ok(true);
        }
    }
    Ok(false)
}

// The same of two patterns, by the names that decide.
fn excludes_common(
    alloc: Global,
    group: &Group<'_, '_>,
    negative: &RefSpecRef<'_>,
    spec: &RefSpecRef<'_>,
    common: &Common<'_>,
) -> Result<bool, AllocError>
    requires { ((reading_of negative.now).mode ≡ Negative) × IsBounded common.now }
    ensures { (g : List Reading) → IsGroupOf g group.now →
        ShareSources (reading_of negative.now) (reading_of spec.now) common.now →
        IfOk result (λ does. MatchBool does
        (ExcludesSome (reading_of negative.now) (reading_of spec.now))
        (¬ (ExcludesSome (reading_of negative.now) (reading_of spec.now)))) }
{
    for word in &group.words {
        let source = source_named(common.with_word(alloc, word)?);
        if excludes_at(alloc, negative, spec, &source)? {
            return Ok(true);
        }
    }
    excludes_overlapping(alloc, negative, spec, common)
}

// The same of the names in which the texts overlap.
fn excludes_overlapping(
    alloc: Global,
    negative: &RefSpecRef<'_>,
    spec: &RefSpecRef<'_>,
    common: &Common<'_>,
) -> Result<bool, AllocError>
    requires { ((reading_of negative.now).mode ≡ Negative) × IsBounded common.now }
    ensures { IfOk result (λ does. MatchBool does
        (ExcludesSome (reading_of negative.now) (reading_of spec.now))
        ((k : ℕ) → k ≤ common.now.most → IsOverlap common.now.prefix.now common.now.suffix.now k →
        ¬ (ExcludesFrom (reading_of negative.now) (reading_of spec.now)
        (name (common.now.prefix.now ++ drop k common.now.suffix.now))))) }
{
    let mut run = Run::none();
    for shared in &common.overlaps(alloc)? {
        let why = match run.at(*shared) {
            Some(why) => why,
            None => {
                let name = common.overlapping(alloc, *shared)?;
                let why = why_unsound(alloc, spec, &name)?;
                if excludes_at(alloc, negative, spec, &source_named(name))? {
                    return Ok(true);
                }
                why
            }
        };
        run = run.with(*shared, why);
    }
    Ok(false)
}

// Why a spec doesn't map a name soundly, if it is one of patterns and that is seen from the names alone.
fn why_unsound(alloc: Global, spec: &RefSpecRef<'_>, name: &BString) -> Result<Why, AllocError>
    ensures { IfOk result (λ why. IsUnsound (reading_of spec.now) why (bstring_bytes name.now)) }
{
    let name = name.as_bstr().as_bytes();
    if !is_ref_name(name) {
        return Ok(Why::Invalid(Of::First));
    }
    match destination_of(alloc, spec, name)? {
        Some(destination) if !is_below_refs(destination.as_bstr()) => Ok(Why::Unwritable),
        _ => Ok(Why::Unknown),
    }
}

// Whether a negative spec excludes this source, and the other one maps it soundly on a remote with this ref alone.
fn excludes_at(
    alloc: Global,
    negative: &RefSpecRef<'_>,
    spec: &RefSpecRef<'_>,
    source: &Source,
) -> Result<bool, AllocError>
    requires { (reading_of negative.now).mode ≡ Negative }
    ensures { IfOk result (λ does. MatchBool does
        (ExcludesFrom (reading_of negative.now) (reading_of spec.now) (start_of source.now))
        (¬ (ExcludesFrom (reading_of negative.now) (reading_of spec.now) (start_of source.now)))) }
{
    if !does_exclude(negative, source) {
        return Ok(false);
    }
    let target = any_target();
    maps_alone(alloc, spec, source, &target)
}

// Whether a spec maps a source soundly on a remote with this ref alone.
pub(super) fn maps_alone<'x>(
    alloc: Global,
    spec: &RefSpecRef<'_>,
    source: &'x Source,
    target: &'x ObjectId,
) -> Result<bool, AllocError>
    ensures { IfOk result (λ does. MatchBool does
        ((d : Option (List ℕ)) × MakesSoundly (refs_of (start_of source.now)) (start_of source.now) d (reading_of spec.now))
        ((d : Option (List ℕ)) → ¬ (MakesSoundly (refs_of (start_of source.now)) (start_of source.now) d (reading_of spec.now)))) }
{
    let mut items = Vec::new(alloc);
    add_item(&mut items, source, target)?;
    let mapping = sound_mapping(alloc, *spec, items.as_slice(), source)?;
    Ok(mapping.is_some())
}

// Whether a negative spec excludes a source.
fn does_exclude(negative: &RefSpecRef<'_>, source: &Source) -> bool
    requires { (reading_of negative.now).mode ≡ Negative }
    ensures { IsTrue result ↔ IsSourceExcluded (reading_of negative.now ∷ []) (start_of source.now) }
{
    let (Some(side), SourceRef::FullName(name)) = (negative.source(), source) else {
        return false;
    };
    let name = name.as_bstr();
    match parts_of(Some(side)) {
        None => side == name,
        Some((before, after)) => word_between(before, after, name.as_bytes()).is_some(),
    }
}
