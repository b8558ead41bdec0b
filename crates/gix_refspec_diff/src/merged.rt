//! What `git pull` merges, if no ref is named to merge.

ghost use Rattle.std.specs.Prelude.{◌<◌, List, length, map, IfOk, MatchBool};
ghost use Rattle.gix_refspec_text.specs.Specs.Reading.{Reading};
ghost use Rattle.gix_refspec_text.specs.Views.Spec.{reading_of};
ghost use Rattle.gix_refspec_match.specs.Views.Mapping.{ref_of, start_of};
ghost use Rattle.gix_refspec_lint.specs.Private.Lints.{IsGroupOf};
ghost use Rattle.gix_refspec_diff.specs.Matching.Difference.{MergeAlike, MergesAlone, MergesBeyond, MergesSource};
ghost use Rattle.gix_refspec_diff.specs.Private.Searches.{IsPlainFirst};

use crate::blockers::add_blockers;
use gix_refspec::match_group::{Item, Source};
use gix_refspec_lint::group::{Group, add_item, named_sources};
use gix_refspec_lint::idle::{add_names, candidates_before};
use gix_refspec_lint::sound::sound_mapping;
use gix_refspec_plan::stale::parts_of;
use gix_refspec_text::oid::{Kind, ObjectId};
use std::alloc::{AllocError, Global};

// Whether it merges some source by one of both lists alone.
pub(crate) fn do_merge(
    alloc: Global,
    one: &Group<'_, '_>,
    other: &Group<'_, '_>,
) -> Result<bool, AllocError>
    ensures { (g h : List Reading) → IsGroupOf g one.now → IsGroupOf h other.now → IfOk result (λ does.
        MatchBool does (¬ (MergeAlike g h)) (MergeAlike g h)) }
{
    if merges_alone(alloc, one, other)? {
        return Ok(true);
    }
    if merges_alone(alloc, other, one)? {
        return Ok(true);
    }
    Ok(false)
}

// Whether it merges some source by the one list alone.
fn merges_alone(
    alloc: Global,
    one: &Group<'_, '_>,
    other: &Group<'_, '_>,
) -> Result<bool, AllocError>
    ensures { (g h : List Reading) → IsGroupOf g one.now → IsGroupOf h other.now → IfOk result (λ does.
        MatchBool does (MergesBeyond g h) (¬ (MergesBeyond g h))) }
{
    if !has_plain_first(one) {
        return Ok(false);
    }
    for source in &named_sources(alloc, &one.specs[0])? {
        if merges_source(alloc, one, other, source)? {
            return Ok(true);
        }
    }
    Ok(false)
}

// Whether the first spec of a list has no star.
fn has_plain_first(group: &Group<'_, '_>) -> bool
    ensures { MatchBool result (IsPlainFirst (map reading_of group.now.specs.now))
        (¬ (IsPlainFirst (map reading_of group.now.specs.now))) }
{
    if group.specs.is_empty() {
        return false;
    }
    match parts_of(group.specs[0].source()) {
        None => true,
        Some(_) => false,
    }
}

// Whether it merges this source by the one list alone: beside the refs that the other one prefers to it.
fn merges_source(
    alloc: Global,
    one: &Group<'_, '_>,
    other: &Group<'_, '_>,
    source: &Source,
) -> Result<bool, AllocError>
    requires { 0 < length one.now.specs.now }
    ensures { (g h : List Reading) → IsGroupOf g one.now → IsGroupOf h other.now → IfOk result (λ does.
        MatchBool does (MergesAlone g h (start_of source.now)) (¬ (MergesAlone g h (start_of source.now)))) }
{
    let away = candidates_before(alloc, &one.specs[0], source)?;
    let mut names = Vec::new(alloc);
    add_blockers(alloc, &mut names, other.specs, source, away.as_slice())?;
    let target = ObjectId::null(Kind::Sha1);
    let mut items = Vec::new(alloc);
    add_item(&mut items, source, &target)?;
    add_names(&mut items, names.as_slice(), &target)?;
    let items = items.as_slice();
    if !merges_over(alloc, one, items, source)? {
        return Ok(false);
    }
    if merges_over(alloc, other, items, source)? {
        return Ok(false);
    }
    Ok(true)
}

// Whether it merges the source among the items.
fn merges_over(
    alloc: Global,
    group: &Group<'_, '_>,
    items: &[Item<'_>],
    source: &Source,
) -> Result<bool, AllocError>
    ensures { (g : List Reading) → IsGroupOf g group.now → IfOk result (λ does. MatchBool does
        (MergesSource g (map ref_of items.now) (start_of source.now))
        (¬ (MergesSource g (map ref_of items.now) (start_of source.now)))) }
{
    if !has_plain_first(group) {
        return Ok(false);
    }
    let None = group.excluding(source) else {
        return Ok(false);
    };
    let Some(_) = sound_mapping(alloc, group.specs[0], items, source)? else {
        return Ok(false);
    };
    Ok(true)
}
