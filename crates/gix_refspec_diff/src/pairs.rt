//! What one list alone fetches, and remotes that show it.

ghost use Rattle.std.specs.Prelude.{◌≡◌, ◌<◌, List, ℕ, Option, Some, length, map, option_map, IfOk, MatchBool};
ghost use Rattle.std.specs.Prelude.{MatchOption};
ghost use Rattle.std.specs.List.{AllByRecursion, slice_get};
ghost use Rattle.bstr.specs.Owned.{bstring_bytes};
ghost use Rattle.gix_refspec_text.specs.Specs.Reading.{Reading};
ghost use Rattle.gix_refspec_text.specs.Specs.Grammar.{IsPositive};
ghost use Rattle.gix_refspec_text.specs.Views.Spec.{reading_of};
ghost use Rattle.gix_refspec_match.specs.Matching.Mappings.{IsSourceExcluded};
ghost use Rattle.gix_refspec_match.specs.Views.Mapping.{name_bytes, ref_of, start_of};
ghost use Rattle.gix_refspec_plan.specs.Matching.Plan.{CanBeWritten};
ghost use Rattle.gix_refspec.specs.Matching.RefNames.{IsRefName, IsValidSource};
ghost use Rattle.gix_refspec_lint.specs.Matching.Lint.{Maps};
ghost use Rattle.gix_refspec_lint.specs.Private.Idles.{HasPlainSource, HasSourcePattern};
ghost use Rattle.gix_refspec_lint.specs.Private.Lints.{IsGroupOf};
ghost use Rattle.gix_refspec_diff.specs.Matching.Difference.{AreFetchedAlone, FetchPair, FetchesAlone, IsFetchedAlone};
ghost use Rattle.gix_refspec_diff.specs.Private.Searches.{AreListsOf, AreNoneFrom, FetchesNone, IsLeft, IsShownBy};
ghost use Rattle.gix_refspec_diff.specs.Private.Searches.{IsValidPair, NoneExcluded, destination_of, refs_beside};
ghost use Rattle.gix_refspec_diff.specs.Private.Searches.{source_of};
ghost use Rattle.gix_refspec_diff.specs.Views.Difference.{pair_example_of};

use crate::PairExample;
use crate::blockers::blockers;
use crate::lists::Lists;
use crate::shared::{excluded_sources, own_sources};
use bstr::{BStr, BString};
use gix_refspec::match_group::{Item, NameRef, Source};
use gix_refspec_lint::group::{Group, add_item, name_of, named_sources};
use gix_refspec_lint::idle::{Others, add_names, first_of};
use gix_refspec_lint::sound::sound_mapping;
use gix_refspec_match::duplicates::is_flagged;
use gix_refspec_plan::stale::parts_of;
use gix_refspec_text::oid::{Kind, ObjectId};
use std::alloc::{AllocError, Global};

// A source for which an example is looked for: the value at the index is to be the first that fetches it.
#[derive(Clone, Copy)]
pub(crate) struct Case<'c> {
    pub(crate) index: usize,
    pub(crate) source: &'c Source,
}

// The pairs that the one list alone fetches: an example for each value that fetches one first.
pub(crate) fn fetched_alone(
    alloc: Global,
    lists: &Lists<'_, '_>,
) -> Result<Vec<PairExample>, AllocError>
    ensures { (g h : List Reading) → AreListsOf g h lists.now → IfOk result (λ found.
        AreFetchedAlone g h (map pair_example_of found.items)) }
{
    let mut found = Vec::new(alloc);
    for index in 0..lists.one.specs.len() {
        if let Some(example) = fetched_by(alloc, lists, index)? {
            found.push(example)?;
        }
    }
    Ok(found)
}

// An example of what the value at an index fetches first and the other list doesn't fetch.
fn fetched_by(
    alloc: Global,
    lists: &Lists<'_, '_>,
    index: usize,
) -> Result<Option<PairExample>, AllocError>
    requires { index < length lists.now.one.now.specs.now }
    ensures { (g h : List Reading) → AreListsOf g h lists.now → IfOk result (λ found. MatchOption found
        (FetchesNone g h index) (λ e. IsFetchedAlone g h index (pair_example_of e))) }
{
    let specs = lists.one.specs;
    let spec = &specs[index];
    if spec.is_negative() {
        return Ok(None);
    }
    match parts_of(spec.source()) {
        None => fetched_by_name(alloc, lists, index),
        Some(texts) => fetched_by_pattern(alloc, lists, index, texts),
    }
}

// The same of a value without a star.
fn fetched_by_name(
    alloc: Global,
    lists: &Lists<'_, '_>,
    index: usize,
) -> Result<Option<PairExample>, AllocError>
    requires { index < length lists.now.one.now.specs.now }
    ensures { (g h : List Reading) (c : Reading) → AreListsOf g h lists.now →
        slice_get (map reading_of lists.now.one.now.specs.now) index ≡ Some c → IsPositive c.mode → HasPlainSource c →
        IfOk result (λ found. MatchOption found
        (FetchesNone g h index) (λ e. IsFetchedAlone g h index (pair_example_of e))) }
{
    if is_flagged(lists.is_known, index) && lists.exclusions.is_empty() {
        return Ok(None);
    }
    let specs = lists.one.specs;
    let sources = named_sources(alloc, &specs[index])?;
    example_among(alloc, lists, index, sources)
}

// The same of a pattern with these texts.
fn fetched_by_pattern(
    alloc: Global,
    lists: &Lists<'_, '_>,
    index: usize,
    texts: (&[u8], &[u8]),
) -> Result<Option<PairExample>, AllocError>
    requires { index < length lists.now.one.now.specs.now }
    ensures { (g h : List Reading) (c : Reading) → AreListsOf g h lists.now →
        slice_get (map reading_of lists.now.one.now.specs.now) index ≡ Some c → IsPositive c.mode →
        HasSourcePattern c texts.entry.0.now texts.entry.1.now → IfOk result (λ found. MatchOption found
        (FetchesNone g h index) (λ e. IsFetchedAlone g h index (pair_example_of e))) }
{
    if is_flagged(lists.is_known, index) {
        return fetched_where_excluded(alloc, lists, index, texts);
    }
    let sources = own_sources(alloc, lists.words, texts)?;
    match example_among(alloc, lists, index, sources)? {
        None => fetched_where_excluded(alloc, lists, index, texts),
        Some(example) => Ok(Some(example)),
    }
}

// The same of its sources that the other list excludes, and the one doesn't.
fn fetched_where_excluded(
    alloc: Global,
    lists: &Lists<'_, '_>,
    index: usize,
    texts: (&[u8], &[u8]),
) -> Result<Option<PairExample>, AllocError>
    requires { index < length lists.now.one.now.specs.now }
    ensures { (g h : List Reading) → AreListsOf g h lists.now → IfOk result (λ found. MatchOption found
        (NoneExcluded g h index lists.now texts.entry.0.now texts.entry.1.now)
        (λ e. IsShownBy g h index (pair_example_of e))) }
{
    for negative in lists.exclusions {
        let sources = excluded_sources(alloc, lists.words, texts, negative)?;
        if let Some(example) = example_among(alloc, lists, index, sources)? {
            return Ok(Some(example));
        }
    }
    Ok(None)
}

// The first of the sources that is an example.
pub(crate) fn example_among(
    alloc: Global,
    lists: &Lists<'_, '_>,
    index: usize,
    sources: Vec<Source>,
) -> Result<Option<PairExample>, AllocError>
    requires { index < length lists.now.one.now.specs.now }
    ensures { (g h : List Reading) → AreListsOf g h lists.now → IfOk result (λ found. MatchOption found
        (AllByRecursion (AreNoneFrom g h index) (map start_of sources.entry.items))
        (λ e. IsShownBy g h index (pair_example_of e))) }
{
    for source in &sources {
        let case = Case { index, source };
        if let Some(example) = example_at(alloc, lists, &case)? {
            return Ok(Some(example));
        }
    }
    Ok(None)
}

// An example with this source, on a remote with as few refs as are needed.
fn example_at(
    alloc: Global,
    lists: &Lists<'_, '_>,
    case: &Case<'_>,
) -> Result<Option<PairExample>, AllocError>
    requires { case.now.index < length lists.now.one.now.specs.now }
    ensures { (g h : List Reading) → AreListsOf g h lists.now → IfOk result (λ found. MatchOption found
        (AreNoneFrom g h case.now.index (start_of case.now.source.now))
        (λ e. IsShownBy g h case.now.index (pair_example_of e))) }
{
    let None = lists.one.excluding(case.source) else {
        return Ok(None);
    };
    let names = blockers(alloc, lists, case)?;
    let target = ObjectId::null(Kind::Sha1);
    let Some(example) = example_beside(alloc, lists, case, names, &target)? else {
        return Ok(None);
    };
    Ok(Some(with_fewer(alloc, lists, case, example, &target)?))
}

// The same example without those other refs that aren't needed.
fn with_fewer(
    alloc: Global,
    lists: &Lists<'_, '_>,
    case: &Case<'_>,
    example: PairExample,
    target: &ObjectId,
) -> Result<PairExample, AllocError>
    requires { case.now.index < length lists.now.one.now.specs.now }
    ensures { (g h : List Reading) → AreListsOf g h lists.now → ¬ (IsSourceExcluded g (start_of case.now.source.now)) →
        IsShownBy g h case.now.index (pair_example_of example) → IfOk result (λ fewer.
        IsShownBy g h case.now.index (pair_example_of fewer)) }
{
    let mut example = example;
    let count = example.beside.len();
    for left in 0..count {
        let fewer = all_but(alloc, example.beside.as_slice(), count - 1 - left)?;
        if let Some(found) = example_beside(alloc, lists, case, fewer, target)? {
            example = found;
        }
    }
    Ok(example)
}

// The names without the one at an index.
fn all_but(alloc: Global, names: &[BString], index: usize) -> Result<Vec<BString>, AllocError>
    ensures { AllByRecursion IsRefName (map bstring_bytes names.now) →
        IfOk result (λ rest. AllByRecursion IsRefName (map bstring_bytes rest.items)) }
{
    let mut rest = Vec::new(alloc);
    for (at, name) in names.iter().enumerate() {
        if at != index {
            rest.push(BString::from_slice(alloc, name.as_bstr())?)?;
        }
    }
    Ok(rest)
}

// The example on a remote with the source and refs of these names, if it is one.
fn example_beside(
    alloc: Global,
    lists: &Lists<'_, '_>,
    case: &Case<'_>,
    names: Vec<BString>,
    target: &ObjectId,
) -> Result<Option<PairExample>, AllocError>
    requires { case.now.index < length lists.now.one.now.specs.now }
    ensures { (g h : List Reading) → AreListsOf g h lists.now → ¬ (IsSourceExcluded g (start_of case.now.source.now)) →
        AllByRecursion IsRefName (map bstring_bytes names.items) → IfOk result (λ found. MatchOption found
        ((d : Option (List ℕ)) → ¬ (FetchesAlone g h
        (refs_beside (start_of case.now.source.now) (map bstring_bytes names.items)) case.now.index
        (start_of case.now.source.now) d))
        (λ e. IsShownBy g h case.now.index (pair_example_of e))) }
{
    let Some(destination) = destination_beside(alloc, lists, case, names.as_slice(), target)? else {
        return Ok(None);
    };
    Ok(Some(PairExample {
        spec_index: case.index,
        source: case.source.clone(alloc)?,
        destination: destination.name,
        beside: names,
    }))
}

// A source, and where it is fetched to, if it is written.
#[derive(Clone, Copy)]
struct Pair<'p> {
    source: &'p Source,
    destination: Option<BStr<'p>>,
}

// The destination of a pair.
#[derive(Drop)]
struct Destination {
    name: Option<BString>,
}

// The destination of the pair that is fetched on that remote.
fn destination_beside<'x>(
    alloc: Global,
    lists: &Lists<'_, '_>,
    case: &Case<'x>,
    names: &'x [BString],
    target: &'x ObjectId,
) -> Result<Option<Destination>, AllocError>
    requires { case.now.index < length lists.now.one.now.specs.now }
    ensures { (g h : List Reading) → AreListsOf g h lists.now → ¬ (IsSourceExcluded g (start_of case.now.source.now)) →
        IfOk result (λ found. MatchOption found
        ((d : Option (List ℕ)) → ¬ (FetchesAlone g h
        (refs_beside (start_of case.now.source.now) (map bstring_bytes names.now)) case.now.index
        (start_of case.now.source.now) d))
        (λ d. FetchesAlone g h
        (refs_beside (start_of case.now.source.now) (map bstring_bytes names.now)) case.now.index
        (start_of case.now.source.now) (option_map bstring_bytes d.name))) }
{
    let mut items = Vec::new(alloc);
    add_item(&mut items, case.source, target)?;
    add_names(&mut items, names, target)?;
    let items = items.as_slice();
    let Some(mapping) = sound_mapping(alloc, lists.one.specs[case.index], items, case.source)?
    else {
        return Ok(None);
    };
    if !is_left(alloc, lists, case, items, &mapping.rhs)? {
        return Ok(None);
    }
    let name = owned_name(alloc, &mapping.rhs)?;
    Ok(Some(Destination { name }))
}

fn owned_name(alloc: Global, name: &Option<NameRef<'_>>) -> Result<Option<BString>, AllocError>
    ensures { IfOk result (λ owned. option_map bstring_bytes owned ≡ option_map name_bytes name.now) }
{
    match name {
        None => Ok(None),
        Some(name) => Ok(Some(BString::from_slice(alloc, name.as_bstr())?)),
    }
}

// Whether the value at the index is the first to map the source to a destination, and the other list doesn't fetch the
// pair.
fn is_left<'x>(
    alloc: Global,
    lists: &Lists<'_, '_>,
    case: &Case<'x>,
    items: &[Item<'_>],
    destination: &'x Option<NameRef<'x>>,
) -> Result<bool, AllocError>
    requires { case.now.index < length lists.now.one.now.specs.now }
    ensures { (g h : List Reading) → AreListsOf g h lists.now → IsValidSource (start_of case.now.source.now) →
        CanBeWritten (option_map name_bytes destination.now) → IfOk result (λ does. MatchBool does
        (IsLeft g h (map ref_of items.now) case.now.index (start_of case.now.source.now)
        (option_map name_bytes destination.now))
        (¬ (IsLeft g h (map ref_of items.now) case.now.index (start_of case.now.source.now)
        (option_map name_bytes destination.now)))) }
{
    let pair = Pair {
        source: case.source,
        destination: name_of(destination),
    };
    if !is_first(alloc, lists.one, case.index, items, &pair)? {
        return Ok(false);
    }
    is_unfetched(alloc, lists.other, items, &pair)
}

// Whether no value before the index maps a pair among the items.
fn is_first(
    alloc: Global,
    group: &Group<'_, '_>,
    index: usize,
    items: &[Item<'_>],
    pair: &Pair<'_>,
) -> Result<bool, AllocError>
    requires { index < length group.now.specs.now }
    ensures { (g : List Reading) → IsGroupOf g group.now → IfOk result (λ is. MatchBool is
        ((h : ℕ) → h < index → ¬ (Maps g (map ref_of items.now) h (source_of pair.now) (destination_of pair.now)))
        ((h : ℕ) × (h < index) × Maps g (map ref_of items.now) h (source_of pair.now) (destination_of pair.now))) }
{
    let earlier = Others { from: 0, to: index };
    match first_of(alloc, group, earlier, items, pair.source, pair.destination)? {
        None => Ok(true),
        Some(_) => Ok(false),
    }
}

// Whether a list doesn't fetch a valid pair.
fn is_unfetched(
    alloc: Global,
    group: &Group<'_, '_>,
    items: &[Item<'_>],
    pair: &Pair<'_>,
) -> Result<bool, AllocError>
    ensures { (h : List Reading) → IsGroupOf h group.now → IsValidPair pair.now → IfOk result (λ is. MatchBool is
        (¬ (FetchPair h (map ref_of items.now) (source_of pair.now) (destination_of pair.now)))
        (FetchPair h (map ref_of items.now) (source_of pair.now) (destination_of pair.now))) }
{
    let None = group.excluding(pair.source) else {
        return Ok(true);
    };
    let all = Others {
        from: 0,
        to: group.specs.len(),
    };
    match first_of(alloc, group, all, items, pair.source, pair.destination)? {
        None => Ok(true),
        Some(_) => Ok(false),
    }
}
