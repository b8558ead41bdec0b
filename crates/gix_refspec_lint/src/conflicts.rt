//! Specs that can conflict.

ghost use Rattle.std.specs.Prelude.{◌≡◌, ◌<◌, ◌≤◌, ◌↔◌, ◌++◌, List, ℕ, drop, length, map, option_map, IfOk, IfSome, IsTrue, MatchOption, Some};
ghost use Rattle.std.specs.List.{slice_get};
ghost use Rattle.bstr.specs.BStr.{bstr_bytes};
ghost use Rattle.bstr.specs.Owned.{bstring_bytes};
ghost use Rattle.gix_refspec_text.specs.Specs.Reading.{Reading};
ghost use Rattle.gix_refspec_text.specs.Views.Spec.{reading_of};
ghost use Rattle.gix_refspec_match.specs.Matching.Lists.{IsMadeFrom};
ghost use Rattle.gix_refspec_match.specs.Matching.Mappings.{IsSourceExcluded};
ghost use Rattle.gix_refspec_match.specs.Views.Mapping.{start_of};
ghost use Rattle.gix_refspec_lint.specs.Matching.Lint.{AreExamples, ConflictOver, IsExample, refs_of};
ghost use Rattle.gix_refspec_plan.specs.Matching.Plan.{CanBeWritten};
ghost use Rattle.gix_refspec.specs.Matching.RefNames.{IsValidSource};
ghost use Rattle.gix_refspec_lint.specs.Private.Alike.{AreEarlier, AreFlags, AreIndexesOf, AreRows, CanShow, IsEarlier};
ghost use Rattle.gix_refspec_lint.specs.Private.Lints.{HaveCommon, HaveParts, IsBounded, IsFound, IsFoundAt, IsGroupOf, NoneAt};
ghost use Rattle.gix_refspec_lint.specs.Private.Overlaps.{IsOverlap};
ghost use Rattle.gix_refspec_lint.specs.Private.Runs.{Fails, IsNotFetched, IsTried};
ghost use Rattle.gix_refspec_lint.specs.Views.Lint.{example_of};

use super::PossibleConflict;
use super::alike::{Row, are_in_order, earlier_alike, have_same_sides, may_pair};
use super::group::{
    Group, add_item, any_target, can_stand_together, makes, same_source, source_of, sources_for,
};
use super::runs::{Of, Run, Why};
use super::words::Common;
use bstr::{BStr, BString};
use gix_refspec::match_group::Source;
use gix_refspec::match_group::ref_names::is_ref_name;
use gix_refspec_plan::mapped::{is_below_refs, is_valid_source};
use gix_refspec_plan::stale::parts_of;
use gix_refspec_text::RefSpecRef;
use gix_refspec_text::oid::ObjectId;
use std::alloc::{AllocError, Global};

// The texts before and after the star of a destination. `None` if it has no star, or is missing.
pub(super) type Parts<'g> = Option<(&'g [u8], &'g [u8])>;

// The words to try first, the texts around the stars of the destinations of a group, and for each spec an earlier one
// with the same sides.
#[derive(Clone, Copy)]
struct Known<'k, 'p, 'w> {
    words: &'k [BStr<'w>],
    parts: &'k [Parts<'p>],
    earlier: &'k [Option<usize>],
}

// The specs that can conflict, by the first and then by the second.
pub(super) fn conflicts_in(
    alloc: Global,
    group: &Group<'_, '_>,
    words: &[BStr<'_>],
) -> Result<Vec<PossibleConflict>, AllocError>
    ensures { (g : List Reading) → IsGroupOf g group.now → IfOk result (λ found.
        AreExamples g (map example_of found.items)) }
{
    let parts = parts_in(alloc, group.specs)?;
    let earlier = earlier_alike(alloc, group.specs)?;
    let known = Known {
        words,
        parts: parts.as_slice(),
        earlier: earlier.as_slice(),
    };
    let mut rows: Vec<Vec<usize>> = Vec::with_capacity(alloc, group.specs.len())?;
    let mut found = Vec::new(alloc);
    for first in 0..group.specs.len() {
        let mut of_first = conflicts_of(alloc, group, &known, rows.as_slice(), first)?;
        let seconds = seconds_of(alloc, of_first.as_slice())?;
        rows.push(seconds)?;
        found.append(&mut of_first)?;
    }
    Ok(found)
}

// The second specs of conflicts.
fn seconds_of(alloc: Global, conflicts: &[PossibleConflict]) -> Result<Vec<usize>, AllocError>
    ensures { IfOk result (λ seconds. seconds.items ≡ map (λ c. c.second_spec) conflicts.now) }
{
    let mut seconds = Vec::with_capacity(alloc, conflicts.len())?;
    for conflict in conflicts {
        seconds.push(conflict.second_spec)?;
    }
    Ok(seconds)
}

// The texts before and after the star of each destination. Looked for once, and not for each two specs.
pub(super) fn parts_in<'g>(
    alloc: Global,
    specs: &[RefSpecRef<'g>],
) -> Result<Vec<Parts<'g>>, AllocError>
    ensures { IfOk result (λ parts. HaveParts specs.now parts.items) }
{
    let mut parts = Vec::with_capacity(alloc, specs.len())?;
    for spec in specs {
        parts.push(parts_of(spec.destination()))?;
    }
    Ok(parts)
}

// The conflicts of one spec with later ones, if it is known with which ones each before it conflicts.
fn conflicts_of(
    alloc: Global,
    group: &Group<'_, '_>,
    known: &Known<'_, '_, '_>,
    rows: &[Vec<usize>],
    first: usize,
) -> Result<Vec<PossibleConflict>, AllocError>
    requires within { first < length group.now.specs.now }
    requires parts { length known.now.parts.now ≡ length group.now.specs.now }
    requires long { length known.now.earlier.now ≡ length group.now.specs.now }
    requires earlier { AreEarlier (map reading_of group.now.specs.now) known.now.earlier.now }
    requires rows { length rows.now ≡ first }
    ensures { (g : List Reading) → IsGroupOf g group.now → HaveParts group.now.specs.now known.now.parts.now →
        AreRows (CanShow g) g (map (λ v. v.items) rows.now) →
        IfOk result (λ found. IsMadeFrom (λ j q e. IsExample g first j e) 0 g (map example_of found.items)) }
{
    match known.earlier[first] {
        None => conflicts_with(alloc, group, known, first),
        Some(before) => conflicts_again(alloc, group, known, first, rows[before].as_slice()),
    }
}

// The conflicts of one spec with later ones.
fn conflicts_with(
    alloc: Global,
    group: &Group<'_, '_>,
    known: &Known<'_, '_, '_>,
    first: usize,
) -> Result<Vec<PossibleConflict>, AllocError>
    requires within { first < length group.now.specs.now }
    requires parts { length known.now.parts.now ≡ length group.now.specs.now }
    requires long { length known.now.earlier.now ≡ length group.now.specs.now }
    requires earlier { AreEarlier (map reading_of group.now.specs.now) known.now.earlier.now }
    ensures { (g : List Reading) → IsGroupOf g group.now → HaveParts group.now.specs.now known.now.parts.now →
        IfOk result (λ found. IsMadeFrom (λ j q e. IsExample g first j e) 0 g (map example_of found.items)) }
{
    let mut found = Vec::new(alloc);
    let mut flags = Vec::with_capacity(alloc, group.specs.len())?;
    for second in 0..group.specs.len() {
        let row = Row {
            first,
            flags: flags.as_slice(),
        };
        let conflict = conflict_if_new(alloc, group, known, &row, second)?;
        flags.push(conflict.is_some())?;
        if let Some(conflict) = conflict {
            found.push(conflict)?;
        }
    }
    Ok(found)
}

// An example of a conflict of two specs, unless the flags say that there is none.
fn conflict_if_new(
    alloc: Global,
    group: &Group<'_, '_>,
    known: &Known<'_, '_, '_>,
    row: &Row<'_>,
    second: usize,
) -> Result<Option<PossibleConflict>, AllocError>
    requires within { second < length group.now.specs.now }
    requires parts { length known.now.parts.now ≡ length group.now.specs.now }
    requires long { length known.now.earlier.now ≡ length group.now.specs.now }
    requires earlier { AreEarlier (map reading_of group.now.specs.now) known.now.earlier.now }
    requires flags { length row.now.flags.now ≡ second }
    ensures { (g : List Reading) → IsGroupOf g group.now → HaveParts group.now.specs.now known.now.parts.now →
        AreFlags (CanShow g row.now.first) row.now.first row.now.flags.now →
        IfOk result (λ found. IsFound g row.now.first second (option_map example_of found)) }
{
    if may_pair(known.earlier, row, second) {
        return conflict_between(alloc, group, known, row.first, second);
    }
    Ok(None)
}

// Those of a spec behind one with the same sides, which conflicts with the specs at these indexes.
fn conflicts_again(
    alloc: Global,
    group: &Group<'_, '_>,
    known: &Known<'_, '_, '_>,
    first: usize,
    seconds: &[usize],
) -> Result<Vec<PossibleConflict>, AllocError>
    requires within { first < length group.now.specs.now }
    requires parts { length known.now.parts.now ≡ length group.now.specs.now }
    ensures { (g : List Reading) → IsGroupOf g group.now → HaveParts group.now.specs.now known.now.parts.now →
        (p : ℕ) → IsEarlier (map reading_of group.now.specs.now) first p → AreIndexesOf (CanShow g p) g seconds.now →
        IfOk result (λ found. IsMadeFrom (λ j q e. IsExample g first j e) 0 g (map example_of found.items)) }
{
    let mut found = Vec::new(alloc);
    for second in seconds {
        if are_in_order(first, *second, group.specs.len()) {
            if let Some(conflict) = conflict_between(alloc, group, known, first, *second)? {
                found.push(conflict)?;
            }
        }
    }
    Ok(found)
}

// An example of a conflict of two specs.
fn conflict_between(
    alloc: Global,
    group: &Group<'_, '_>,
    known: &Known<'_, '_, '_>,
    first: usize,
    second: usize,
) -> Result<Option<PossibleConflict>, AllocError>
    requires { (first < second) × (second < length group.now.specs.now)
        × (length known.now.parts.now ≡ length group.now.specs.now) }
    ensures { (g : List Reading) → IsGroupOf g group.now → HaveParts group.now.specs.now known.now.parts.now →
        IfOk result (λ found. IsFound g first second (option_map example_of found)) }
{
    let Some(one_name) = group.specs[first].destination() else {
        return Ok(None);
    };
    let Some(other_name) = group.specs[second].destination() else {
        return Ok(None);
    };
    match (known.parts[first], known.parts[second]) {
        (None, None) => {
            if one_name != other_name {
                return Ok(None);
            }
            conflict_at(alloc, group, first, second, one_name)
        }
        (None, Some(_)) => conflict_at(alloc, group, first, second, one_name),
        (Some(_), None) => conflict_at(alloc, group, first, second, other_name),
        (Some(one_parts), Some(other_parts)) => match Common::of(one_parts, other_parts) {
            None => Ok(None),
            Some(common) => {
                if have_same_sides(&group.specs[first], &group.specs[second]) {
                    return Ok(None);
                }
                conflict_among(alloc, group, known.words, first, second, &common)
            }
        },
    }
}

// The same of two patterns: with one of the words to try first, or at one of the names that decide.
fn conflict_among(
    alloc: Global,
    group: &Group<'_, '_>,
    words: &[BStr<'_>],
    first: usize,
    second: usize,
    common: &Common<'_>,
) -> Result<Option<PossibleConflict>, AllocError>
    requires { (first < second) × (second < length group.now.specs.now) × IsBounded common.now }
    ensures { (g : List Reading) → IsGroupOf g group.now → HaveCommon group.now first second common.now →
        IfOk result (λ found. IsFound g first second (option_map example_of found)) }
{
    for word in words {
        let name = common.with_text(alloc, word.as_bytes())?;
        if let Some(conflict) = conflict_at(alloc, group, first, second, name.as_bstr())? {
            return Ok(Some(conflict));
        }
    }
    for word in &group.words {
        let name = common.with_word(alloc, word)?;
        if let Some(conflict) = conflict_at(alloc, group, first, second, name.as_bstr())? {
            return Ok(Some(conflict));
        }
    }
    conflict_overlapping(alloc, group, first, second, common)
}

// The same at the names in which the texts overlap.
fn conflict_overlapping(
    alloc: Global,
    group: &Group<'_, '_>,
    first: usize,
    second: usize,
    common: &Common<'_>,
) -> Result<Option<PossibleConflict>, AllocError>
    requires { (first < second) × (second < length group.now.specs.now) × IsBounded common.now }
    ensures { (g : List Reading) → IsGroupOf g group.now → HaveCommon group.now first second common.now →
        IfOk result (λ found. MatchOption found
        ((k : ℕ) → k ≤ common.now.most → IsOverlap common.now.prefix.now common.now.suffix.now k →
        NoneAt g first second (common.now.prefix.now ++ drop k common.now.suffix.now))
        (λ c. IsExample g first second (example_of c))) }
{
    let mut run = Run::none();
    for shared in &common.overlaps(alloc)? {
        let why = match run.at(*shared) {
            Some(why) => why,
            None => {
                let name = common.overlapping(alloc, *shared)?;
                match conflict_or_why(alloc, group, first, second, name.as_bstr())? {
                    Tried::Conflict(conflict) => return Ok(Some(conflict)),
                    Tried::Nothing(why) => why,
                }
            }
        };
        run = run.with(*shared, why);
    }
    Ok(None)
}

// What there is at one destination.
#[derive(Drop)]
enum Tried {
    Conflict(PossibleConflict),
    Nothing(Why),
}

// A conflict at one destination, or why there is none.
fn conflict_or_why(
    alloc: Global,
    group: &Group<'_, '_>,
    first: usize,
    second: usize,
    destination: BStr<'_>,
) -> Result<Tried, AllocError>
    requires { (first < second) × (second < length group.now.specs.now) }
    ensures { (g : List Reading) → IsGroupOf g group.now → (one other : Reading) →
        slice_get (map reading_of group.now.specs.now) first ≡ Some one →
        slice_get (map reading_of group.now.specs.now) second ≡ Some other →
        IfOk result (IsTried g one other first second (bstr_bytes destination.entry)) }
{
    match conflict_at(alloc, group, first, second, destination)? {
        Some(conflict) => Ok(Tried::Conflict(conflict)),
        None => Ok(Tried::Nothing(why_none(
            alloc,
            group,
            &group.specs[first],
            &group.specs[second],
            destination,
        )?)),
    }
}

// Why two specs of patterns don't conflict at one destination, if it is seen from the names alone.
fn why_none(
    alloc: Global,
    group: &Group<'_, '_>,
    one: &RefSpecRef<'_>,
    other: &RefSpecRef<'_>,
    destination: BStr<'_>,
) -> Result<Why, AllocError>
    ensures { (g : List Reading) → IsGroupOf g group.now → IfOk result (λ why.
        Fails g (reading_of one.now) (reading_of other.now) why (bstr_bytes destination.entry)) }
{
    if !is_below_refs(destination) {
        return Ok(Why::Unwritable);
    }
    let Some(source) = source_of(alloc, one, destination.as_bytes())? else {
        return Ok(Why::Unknown);
    };
    if let Some(why) = why_not_fetched(group, Of::First, &source) {
        return Ok(why);
    }
    let Some(other_source) = source_of(alloc, other, destination.as_bytes())? else {
        return Ok(Why::Unknown);
    };
    if let Some(why) = why_not_fetched(group, Of::Second, &other_source) {
        return Ok(why);
    }
    if source == other_source {
        return Ok(Why::Same);
    }
    Ok(Why::Unknown)
}

// Why one of two specs doesn't fetch its source. `None` if it does.
fn why_not_fetched(group: &Group<'_, '_>, of: Of, source: &BString) -> Option<Why>
    ensures { (g : List Reading) → IsGroupOf g group.now → IfSome result
        (IsNotFetched g of (bstring_bytes source.now)) }
{
    let name = source.as_bstr().as_bytes();
    if !is_ref_name(name) {
        return Some(Why::Invalid(of));
    }
    match group.exclusions.spec_of(name) {
        None => None,
        Some(spec) => Some(Why::Excluded(of, spec)),
    }
}

// The same at one destination.
fn conflict_at(
    alloc: Global,
    group: &Group<'_, '_>,
    first: usize,
    second: usize,
    destination: BStr<'_>,
) -> Result<Option<PossibleConflict>, AllocError>
    requires { (first < second) × (second < length group.now.specs.now) }
    ensures { (g : List Reading) → IsGroupOf g group.now → IfOk result (λ found.
        IsFoundAt g first second (bstr_bytes destination.entry) (option_map example_of found)) }
{
    let others = sources_for(alloc, &group.specs[second], destination.as_bytes())?;
    if others.is_empty() {
        return Ok(None);
    }
    if !is_below_refs(destination) {
        return Ok(None);
    }
    let ones = sources_for(alloc, &group.specs[first], destination.as_bytes())?;
    let target = any_target();
    for one in &ones {
        for other in &others {
            if do_conflict(
                alloc,
                group,
                first,
                one,
                second,
                other,
                destination,
                &target,
            )? {
                return Ok(Some(PossibleConflict {
                    first_spec: first,
                    second_spec: second,
                    first_source: one.clone(alloc)?,
                    second_source: other.clone(alloc)?,
                    destination: BString::from_slice(alloc, destination)?,
                }));
            }
        }
    }
    Ok(None)
}

// Whether two specs, each with a source, conflict at a valid destination on a remote with these sources.
fn do_conflict<'x>(
    alloc: Global,
    group: &Group<'_, '_>,
    first: usize,
    one: &'x Source,
    second: usize,
    other: &'x Source,
    destination: BStr<'_>,
    target: &'x ObjectId,
) -> Result<bool, AllocError>
    requires { (first < length group.now.specs.now) × (second < length group.now.specs.now) }
    ensures { (g : List Reading) → IsGroupOf g group.now → CanBeWritten (Some (bstr_bytes destination.entry)) →
        IfOk result (λ is. IsTrue is ↔ ConflictOver g
        (refs_of (start_of one.now) ++ refs_of (start_of other.now)) first second
        (start_of one.now) (start_of other.now) (bstr_bytes destination.entry)) }
{
    if same_source(one, other) {
        return Ok(false);
    }
    if !can_stand_together(one, other) {
        return Ok(false);
    }
    if !is_fetched(group, one) {
        return Ok(false);
    }
    if !is_fetched(group, other) {
        return Ok(false);
    }
    let mut items = Vec::new(alloc);
    add_item(&mut items, one, target)?;
    add_item(&mut items, other, target)?;
    let refs = items.as_slice();
    let to = Some(destination);
    if !makes(alloc, group.specs[first], refs, one, to)? {
        return Ok(false);
    }
    makes(alloc, group.specs[second], refs, other, to)
}

// Whether a source is valid, and no spec excludes it.
pub(super) fn is_fetched(group: &Group<'_, '_>, source: &Source) -> bool
    ensures { (g : List Reading) → IsGroupOf g group.now → IsTrue result ↔
        (IsValidSource (start_of source.now) × ¬ (IsSourceExcluded g (start_of source.now))) }
{
    if !is_valid_source(source) {
        return false;
    }
    match group.excluding(source) {
        None => true,
        Some(_) => false,
    }
}
