//! Specs of which one can write a ref in the directory of what the other writes.
//!
//! The slash behind the directory is in the text before the star of the lower destination, in the word for that star, or in
//! the text after it. In the first case the directory is known; in the others it is a name that two patterns have in
// common.

ghost use Rattle.std.specs.Prelude.{◌≡◌, ◌⊎◌, ◌<◌, ◌≤◌, ◌↔◌, ◌++◌, ◌∷◌, [], List, ℕ, Some, false, length, map, max};
ghost use Rattle.std.specs.Prelude.{option_map, IfOk, IsTrue, MatchBool, MatchOption};
ghost use Rattle.std.specs.List.{Contains, slice_get};
ghost use Rattle.bstr.specs.BStr.{bstr_bytes};
ghost use Rattle.bstr.specs.Owned.{bstring_bytes};
ghost use Rattle.gix_refspec_text.specs.Texts.Bytes.{slash};
ghost use Rattle.gix_refspec_text.specs.Texts.Words.{BeginsWith};
ghost use Rattle.gix_refspec_text.specs.Specs.Reading.{Reading};
ghost use Rattle.gix_refspec_text.specs.Views.Spec.{reading_of};
ghost use Rattle.gix_refspec_match.specs.Matching.Lists.{IsMadeFrom};
ghost use Rattle.gix_refspec_match.specs.Views.Mapping.{start_of};
ghost use Rattle.gix_refspec_plan.specs.Matching.Plan.{CanBeWritten, IsDirectoryOf};
ghost use Rattle.gix_refspec_lint.specs.Matching.Lint.{AreNestings, IsNesting, NestingOver, refs_of};
ghost use Rattle.gix_refspec_lint.specs.Private.Alike.{AreEarlier, AreFlags, AreIndexesOf, AreRows, CanShowNesting};
ghost use Rattle.gix_refspec_lint.specs.Private.Alike.{IsDead, IsEarlier, IsFoundNesting, second_of};
ghost use Rattle.gix_refspec_lint.specs.Private.Lints.{AreApart, AreCommon, HasPattern, HaveParts, IsBounded, IsDeciding, IsGroupOf, words_with};
ghost use Rattle.gix_refspec_lint.specs.Private.Nestings.{AreWithin, HaveFollowed, HaveOpenSides, IsAfter, IsFollowed, IsFoundEither, IsFoundIf, IsInWord, IsNestingFound, IsOpen, SourcesLack, TellWork};
ghost use Rattle.gix_refspec_lint.specs.Views.Lint.{nesting_of};

use super::PossibleDirectoryConflict;
use super::alike::{Row, are_in_order, earlier_alike, flag_before, have_same_sides, may_pair};
use super::conflicts::{Parts, is_fetched, parts_in};
use super::group::{Group, add_item, any_target, can_stand_together, makes, sources_for};
use super::idle::{Others, idle_beside_others};
use super::words::{Common, longer_prefix};
use bstr::{BStr, BString};
use gix_refspec::match_group::Source;
use gix_refspec_match::needle::word_between;
use gix_refspec_plan::directories::is_directory_of;
use gix_refspec_plan::mapped::is_below_refs;
use gix_refspec_text::RefSpecRef;
use gix_refspec_text::side::{joined, split_at_first_star};
use std::alloc::{AllocError, Global};

// Two specs of a group, and the words to try first: does the upper one write a directory of what the lower one writes?
#[derive(Clone, Copy)]
struct Two<'t, 'g, 's, 'w> {
    group: &'t Group<'g, 's>,
    words: &'t [BStr<'w>],
    upper: usize,
    lower: usize,
}

// What is known of the specs of a group: the texts around the stars of their destinations, which specs fetch anything,
// and for each an earlier one with the same sides; and the words to try first.
#[derive(Clone, Copy)]
struct Known<'k, 'p, 'w> {
    words: &'k [BStr<'w>],
    parts: &'k [Parts<'p>],
    works: &'k [bool],
    earlier: &'k [Option<usize>],
}

// Two destinations, the second in the directory of the first.
#[derive(Clone, Copy)]
struct Names<'d, 'n> {
    directory: &'d [u8],
    nested: &'n [u8],
}

// The pairs of specs of which one can write a ref in the directory of what the other writes, by the first and then by
// the second.
pub(super) fn nestings_in(
    alloc: Global,
    group: &Group<'_, '_>,
    words: &[BStr<'_>],
) -> Result<Vec<PossibleDirectoryConflict>, AllocError>
    ensures { (g : List Reading) → IsGroupOf g group.now → IfOk result (λ found.
        AreNestings g (map nesting_of found.items)) }
{
    let parts = parts_in(alloc, group.specs)?;
    let earlier = earlier_alike(alloc, group.specs)?;
    let works = works_in(alloc, group, earlier.as_slice())?;
    let known = Known {
        words,
        parts: parts.as_slice(),
        works: works.as_slice(),
        earlier: earlier.as_slice(),
    };
    let mut rows: Vec<Vec<usize>> = Vec::with_capacity(alloc, group.specs.len())?;
    let mut found = Vec::new(alloc);
    for first in 0..group.specs.len() {
        let mut of_first = nestings_of(alloc, group, &known, rows.as_slice(), first)?;
        let seconds = seconds_of(alloc, of_first.as_slice())?;
        rows.push(seconds)?;
        found.append(&mut of_first)?;
    }
    Ok(found)
}

// The greater index of each of some directory conflicts.
fn seconds_of(
    alloc: Global,
    conflicts: &[PossibleDirectoryConflict],
) -> Result<Vec<usize>, AllocError>
    ensures { IfOk result (λ seconds. seconds.items ≡ map (λ c. second_of (nesting_of c)) conflicts.now) }
{
    let mut seconds = Vec::with_capacity(alloc, conflicts.len())?;
    for conflict in conflicts {
        seconds.push(greater(conflict.upper_spec, conflict.lower_spec))?;
    }
    Ok(seconds)
}

fn greater(one: usize, other: usize) -> usize
    ensures { result ≡ max one other }
{
    if one < other { other } else { one }
}

// Which specs fetch anything: the others have no example, so none has to be looked for.
fn works_in(
    alloc: Global,
    group: &Group<'_, '_>,
    earlier: &[Option<usize>],
) -> Result<Vec<bool>, AllocError>
    requires long { length earlier.now ≡ length group.now.specs.now }
    requires earlier { AreEarlier (map reading_of group.now.specs.now) earlier.now }
    ensures long { IfOk result (λ works. length works.items ≡ length group.now.specs.now) }
    ensures dead { (g : List Reading) → IsGroupOf g group.now → IfOk result (λ works. TellWork g works.items) }
{
    let mut works = Vec::with_capacity(alloc, group.specs.len())?;
    for index in 0..group.specs.len() {
        let before = flag_before(earlier[index], works.as_slice());
        let does = does_work(alloc, group, index, before)?;
        works.push(does)?;
    }
    Ok(works)
}

// Whether a spec fetches anything, unless an earlier one with the same sides tells.
fn does_work(
    alloc: Global,
    group: &Group<'_, '_>,
    index: usize,
    before: Option<bool>,
) -> Result<bool, AllocError>
    requires { index < length group.now.specs.now }
    ensures { (g : List Reading) → IsGroupOf g group.now → (before ≡ Some false → IsDead g index) →
        IfOk result (λ does. does ≡ false → IsDead g index) }
{
    if let Some(does) = before {
        return Ok(does);
    }
    let why = idle_beside_others(alloc, group, index, Others { from: 0, to: 0 })?;
    Ok(why.is_none())
}

// Those of one spec with later ones, if it is known with which ones each before it is in such a conflict.
fn nestings_of(
    alloc: Global,
    group: &Group<'_, '_>,
    known: &Known<'_, '_, '_>,
    rows: &[Vec<usize>],
    first: usize,
) -> Result<Vec<PossibleDirectoryConflict>, AllocError>
    requires within { first < length group.now.specs.now }
    requires parts { length known.now.parts.now ≡ length group.now.specs.now }
    requires works { length known.now.works.now ≡ length group.now.specs.now }
    requires long { length known.now.earlier.now ≡ length group.now.specs.now }
    requires earlier { AreEarlier (map reading_of group.now.specs.now) known.now.earlier.now }
    requires rows { length rows.now ≡ first }
    ensures { (g : List Reading) → IsGroupOf g group.now → HaveParts group.now.specs.now known.now.parts.now →
        TellWork g known.now.works.now → AreRows (CanShowNesting g) g (map (λ v. v.items) rows.now) →
        IfOk result (λ found. IsMadeFrom (λ j q n. IsNesting g first j n) 0 g (map nesting_of found.items)) }
{
    match known.earlier[first] {
        None => nestings_with(alloc, group, known, first),
        Some(before) => nestings_again(alloc, group, known, first, rows[before].as_slice()),
    }
}

// Those of one spec with later ones.
fn nestings_with(
    alloc: Global,
    group: &Group<'_, '_>,
    known: &Known<'_, '_, '_>,
    first: usize,
) -> Result<Vec<PossibleDirectoryConflict>, AllocError>
    requires within { first < length group.now.specs.now }
    requires parts { length known.now.parts.now ≡ length group.now.specs.now }
    requires works { length known.now.works.now ≡ length group.now.specs.now }
    requires long { length known.now.earlier.now ≡ length group.now.specs.now }
    requires earlier { AreEarlier (map reading_of group.now.specs.now) known.now.earlier.now }
    ensures { (g : List Reading) → IsGroupOf g group.now → HaveParts group.now.specs.now known.now.parts.now →
        TellWork g known.now.works.now →
        IfOk result (λ found. IsMadeFrom (λ j q n. IsNesting g first j n) 0 g (map nesting_of found.items)) }
{
    let mut found = Vec::new(alloc);
    let mut flags = Vec::with_capacity(alloc, group.specs.len())?;
    for second in 0..group.specs.len() {
        let row = Row {
            first,
            flags: flags.as_slice(),
        };
        let nesting = nesting_if_new(alloc, group, known, &row, second)?;
        flags.push(nesting.is_some())?;
        if let Some(nesting) = nesting {
            found.push(nesting)?;
        }
    }
    Ok(found)
}

// An example of two specs, unless the flags say that there is none.
fn nesting_if_new(
    alloc: Global,
    group: &Group<'_, '_>,
    known: &Known<'_, '_, '_>,
    row: &Row<'_>,
    second: usize,
) -> Result<Option<PossibleDirectoryConflict>, AllocError>
    requires within { second < length group.now.specs.now }
    requires parts { length known.now.parts.now ≡ length group.now.specs.now }
    requires works { length known.now.works.now ≡ length group.now.specs.now }
    requires long { length known.now.earlier.now ≡ length group.now.specs.now }
    requires earlier { AreEarlier (map reading_of group.now.specs.now) known.now.earlier.now }
    requires flags { length row.now.flags.now ≡ second }
    ensures { (g : List Reading) → IsGroupOf g group.now → HaveParts group.now.specs.now known.now.parts.now →
        TellWork g known.now.works.now → AreFlags (CanShowNesting g row.now.first) row.now.first row.now.flags.now →
        IfOk result (λ found. IsFoundNesting g row.now.first second (option_map nesting_of found)) }
{
    if may_pair(known.earlier, row, second) {
        return nesting_of_two(alloc, group, known, row.first, second);
    }
    Ok(None)
}

// Those of a spec behind one with the same sides, which is in such a conflict with the specs at these indexes.
fn nestings_again(
    alloc: Global,
    group: &Group<'_, '_>,
    known: &Known<'_, '_, '_>,
    first: usize,
    seconds: &[usize],
) -> Result<Vec<PossibleDirectoryConflict>, AllocError>
    requires within { first < length group.now.specs.now }
    requires parts { length known.now.parts.now ≡ length group.now.specs.now }
    requires works { length known.now.works.now ≡ length group.now.specs.now }
    ensures { (g : List Reading) → IsGroupOf g group.now → HaveParts group.now.specs.now known.now.parts.now →
        TellWork g known.now.works.now →
        (p : ℕ) → IsEarlier (map reading_of group.now.specs.now) first p →
        AreIndexesOf (CanShowNesting g p) g seconds.now →
        IfOk result (λ found. IsMadeFrom (λ j q n. IsNesting g first j n) 0 g (map nesting_of found.items)) }
{
    let mut found = Vec::new(alloc);
    for second in seconds {
        if are_in_order(first, *second, group.specs.len()) {
            if let Some(nesting) = nesting_of_two(alloc, group, known, first, *second)? {
                found.push(nesting)?;
            }
        }
    }
    Ok(found)
}

// An example of two specs, if both fetch anything.
fn nesting_of_two(
    alloc: Global,
    group: &Group<'_, '_>,
    known: &Known<'_, '_, '_>,
    first: usize,
    second: usize,
) -> Result<Option<PossibleDirectoryConflict>, AllocError>
    requires within { (first < second) × (second < length group.now.specs.now) }
    requires parts { length known.now.parts.now ≡ length group.now.specs.now }
    requires works { length known.now.works.now ≡ length group.now.specs.now }
    ensures { (g : List Reading) → IsGroupOf g group.now → HaveParts group.now.specs.now known.now.parts.now →
        TellWork g known.now.works.now → IfOk result (λ found.
        IsFoundNesting g first second (option_map nesting_of found)) }
{
    if !known.works[first] {
        return Ok(None);
    }
    if !known.works[second] {
        return Ok(None);
    }
    let two = Two {
        group,
        words: known.words,
        upper: first,
        lower: second,
    };
    nesting_either_way(alloc, &two, known.parts)
}

// An example of two specs, of which either may be the upper one.
fn nesting_either_way(
    alloc: Global,
    two: &Two<'_, '_, '_, '_>,
    parts: &[Parts<'_>],
) -> Result<Option<PossibleDirectoryConflict>, AllocError>
    requires within { AreWithin two.now }
    requires parts { length parts.now ≡ length two.now.group.now.specs.now }
    ensures { (g : List Reading) → IsGroupOf g two.now.group.now → HaveParts two.now.group.now.specs.now parts.now →
        IfOk result (λ found. IsFoundEither g two.now.upper two.now.lower (option_map nesting_of found)) }
{
    if let Some(nesting) = nesting_between(alloc, two, parts)? {
        return Ok(Some(nesting));
    }
    let turned = Two {
        group: two.group,
        words: two.words,
        upper: two.lower,
        lower: two.upper,
    };
    nesting_between(alloc, &turned, parts)
}

// An example of two specs.
fn nesting_between(
    alloc: Global,
    two: &Two<'_, '_, '_, '_>,
    parts: &[Parts<'_>],
) -> Result<Option<PossibleDirectoryConflict>, AllocError>
    requires within { AreWithin two.now }
    requires parts { length parts.now ≡ length two.now.group.now.specs.now }
    ensures { (g : List Reading) → IsGroupOf g two.now.group.now → HaveParts two.now.group.now.specs.now parts.now →
        IfOk result (λ found. IsNestingFound g two.now.upper two.now.lower (option_map nesting_of found)) }
{
    let Some(directory) = spec_at(two.group, two.upper).destination() else {
        return Ok(None);
    };
    let Some(nested) = spec_at(two.group, two.lower).destination() else {
        return Ok(None);
    };
    let directory = directory.as_bytes();
    let nested = nested.as_bytes();
    match (parts[two.upper], parts[two.lower]) {
        (None, None) => nesting_at(alloc, two, &Names { directory, nested }),
        (Some(_), None) => nesting_above(alloc, two, nested),
        (None, Some(below)) => nesting_below(alloc, two, directory, below),
        (Some(above), Some(below)) => nesting_of_patterns(alloc, two, above, below),
    }
}

// The same where the nested destination is known: its directory is one of its parts before a slash.
fn nesting_above(
    alloc: Global,
    two: &Two<'_, '_, '_, '_>,
    nested: &[u8],
) -> Result<Option<PossibleDirectoryConflict>, AllocError>
    requires { AreWithin two.now }
    ensures { (g : List Reading) → (is : IsGroupOf g two.now.group.now) →
        IfOk result (λ found. IsFoundIf g two.now.upper two.now.lower
        (λ d e. e ≡ nested.now) (option_map nesting_of found)) }
{
    for index in 0..nested.len() {
        if nested[index] == b'/' {
            let directory = &nested[..index];
            if let Some(found) = nesting_at(alloc, two, &Names { directory, nested })? {
                return Ok(Some(found));
            }
        }
    }
    Ok(None)
}

// The same where the directory is known, and the lower destination is a pattern.
fn nesting_below<'p>(
    alloc: Global,
    two: &Two<'_, '_, '_, '_>,
    directory: &[u8],
    below: (&'p [u8], &'p [u8]),
) -> Result<Option<PossibleDirectoryConflict>, AllocError>
    requires { AreWithin two.now }
    ensures { (g : List Reading) → (is : IsGroupOf g two.now.group.now) →
        SourcesLack g is.letter two.now.upper directory.now →
        HasPattern two.now.group.now two.now.lower below.entry.0.now below.entry.1.now →
        IfOk result (λ found. IsFoundIf g two.now.upper two.now.lower
        (λ d e. d ≡ directory.now) (option_map nesting_of found)) }
{
    let folder = joined(alloc, directory, b"/", b"")?;
    let Some(common) = common_below(folder.as_bstr().as_bytes(), below.0, below.1) else {
        return Ok(None);
    };
    for word in two.words {
        let name = common.with_text(alloc, word.as_bytes())?;
        if let Some(found) = nesting_named(alloc, two, directory, &name)? {
            return Ok(Some(found));
        }
    }
    for name in &deciding_names(alloc, two.group, &common)? {
        if let Some(found) = nesting_named(alloc, two, directory, name)? {
            return Ok(Some(found));
        }
    }
    Ok(None)
}

// The same where both destinations are known.
fn nesting_named(
    alloc: Global,
    two: &Two<'_, '_, '_, '_>,
    directory: &[u8],
    name: &BString,
) -> Result<Option<PossibleDirectoryConflict>, AllocError>
    requires { AreWithin two.now }
    ensures { (g : List Reading) → (is : IsGroupOf g two.now.group.now) →
        IfOk result (λ found. IsFoundIf g two.now.upper two.now.lower
        (λ d e. (d ≡ directory.now) × (e ≡ bstring_bytes name.now)) (option_map nesting_of found)) }
{
    let nested = name.as_bstr().as_bytes();
    nesting_at(alloc, two, &Names { directory, nested })
}

// What the names in a folder have in common with a pattern.
fn common_below<'c>(folder: &'c [u8], prefix: &'c [u8], suffix: &'c [u8]) -> Option<Common<'c>>
    ensures { MatchOption result
        (AreApart folder.now [] prefix.now suffix.now) (AreCommon folder.now [] prefix.now suffix.now) }
{
    Common::of((folder, b""), (prefix, suffix))
}

// The same where both are patterns.
fn nesting_of_patterns<'p>(
    alloc: Global,
    two: &Two<'_, '_, '_, '_>,
    above: (&'p [u8], &'p [u8]),
    below: (&'p [u8], &'p [u8]),
) -> Result<Option<PossibleDirectoryConflict>, AllocError>
    requires { AreWithin two.now }
    ensures { (g : List Reading) → (is : IsGroupOf g two.now.group.now) →
        HasPattern two.now.group.now two.now.upper above.entry.0.now above.entry.1.now →
        HasPattern two.now.group.now two.now.lower below.entry.0.now below.entry.1.now →
        IfOk result (λ found. IsFoundIf g two.now.upper two.now.lower
        (λ d e. Unit {0}) (option_map nesting_of found)) }
{
    if longer_prefix(above.0, below.0).is_none() {
        return Ok(None);
    }
    if have_open_sides(spec_at(two.group, two.upper), spec_at(two.group, two.lower)) {
        return Ok(None);
    }
    if let Some(found) = nesting_before(alloc, two, above, below)? {
        return Ok(Some(found));
    }
    if let Some(found) = nesting_in_word(alloc, two, above, below)? {
        return Ok(Some(found));
    }
    nesting_after(alloc, two, above, below)
}

// Whether two specs have the same sides, and each ends with its star: then they write a ref and one in its directory only
// from such sources, and no remote has both.
fn have_open_sides(one: &RefSpecRef<'_>, other: &RefSpecRef<'_>) -> bool
    ensures { IsTrue result → HaveOpenSides (reading_of one.now) (reading_of other.now) }
{
    have_same_sides(one, other) && is_open(other.source()) && is_open(other.destination())
}

// Whether a side is a pattern that ends with its star.
fn is_open(side: Option<BStr<'_>>) -> bool
    ensures { IsTrue result → IsOpen (option_map bstr_bytes side.entry) }
{
    match side {
        None => false,
        Some(side) => match split_at_first_star(side.as_bytes()) {
            None => false,
            Some((_, end)) => end.is_empty(),
        },
    }
}

// The same with the slash in the word: any word may follow it.
fn nesting_in_word<'p>(
    alloc: Global,
    two: &Two<'_, '_, '_, '_>,
    above: (&'p [u8], &'p [u8]),
    below: (&'p [u8], &'p [u8]),
) -> Result<Option<PossibleDirectoryConflict>, AllocError>
    requires { AreWithin two.now }
    ensures { (g : List Reading) → (is : IsGroupOf g two.now.group.now) →
        HasPattern two.now.group.now two.now.upper above.entry.0.now above.entry.1.now →
        HasPattern two.now.group.now two.now.lower below.entry.0.now below.entry.1.now →
        IfOk result (λ found. IsFoundIf g two.now.upper two.now.lower
        (λ d e. IsInWord below.entry.0.now below.entry.1.now d e) (option_map nesting_of found)) }
{
    let Some(common) = Common::of(above, (below.0, b"")) else {
        return Ok(None);
    };
    for word in two.words {
        let name = common.with_text(alloc, word.as_bytes())?;
        let rest = joined(alloc, b"/", word.as_bytes(), below.1)?;
        if let Some(found) = nesting_followed(alloc, two, &name, rest.as_bstr().as_bytes())? {
            return Ok(Some(found));
        }
    }
    nesting_freed(alloc, two, &common, below.1)
}

// The same with the free byte after the slash, for the directories that two patterns have in common.
fn nesting_freed(
    alloc: Global,
    two: &Two<'_, '_, '_, '_>,
    common: &Common<'_>,
    after: &[u8],
) -> Result<Option<PossibleDirectoryConflict>, AllocError>
    requires { AreWithin two.now × IsBounded common.now }
    ensures { (g : List Reading) → (is : IsGroupOf g two.now.group.now) →
        (have : HaveFollowed two.now.group.now two.now.upper two.now.lower common.now (slash ∷ (is.letter ∷ after.now))) →
        IfOk result (λ found. IsFoundIf g two.now.upper two.now.lower
        (λ d e. IsFollowed have.prefix have.end (slash ∷ (is.letter ∷ after.now)) d e) (option_map nesting_of found)) }
{
    let Some(letter) = free_word(two.group) else {
        return Ok(None);
    };
    let byte = letter.as_bstr().as_bytes();
    let rest = joined(alloc, b"/", byte, after)?;
    let text = rest.as_bstr().as_bytes();
    nesting_among(alloc, two, common, text)
}

// The word that is the free byte alone.
fn free_word<'x>(group: &'x Group<'_, '_>) -> Option<&'x BString>
    ensures { (letter : ℕ) → map bstring_bytes group.now.words.items ≡ words_with letter →
        MatchOption result ⊥ (λ word. bstring_bytes word.now ≡ letter ∷ []) }
{
    group.words.as_slice().first()
}

// The same with the slash before the star of the lower destination.
fn nesting_before<'p>(
    alloc: Global,
    two: &Two<'_, '_, '_, '_>,
    above: (&'p [u8], &'p [u8]),
    below: (&'p [u8], &'p [u8]),
) -> Result<Option<PossibleDirectoryConflict>, AllocError>
    requires { AreWithin two.now }
    ensures { (g : List Reading) → (is : IsGroupOf g two.now.group.now) →
        HasPattern two.now.group.now two.now.upper above.entry.0.now above.entry.1.now →
        HasPattern two.now.group.now two.now.lower below.entry.0.now below.entry.1.now →
        IfOk result (λ found. IsFoundIf g two.now.upper two.now.lower
        (λ d e. BeginsWith (d ++ slash ∷ []) below.entry.0.now) (option_map nesting_of found)) }
{
    for index in 0..below.0.len() {
        if below.0[index] == b'/' {
            let directory = &below.0[..index];
            if word_between(above.0, above.1, directory).is_some() {
                if let Some(found) = nesting_below(alloc, two, directory, below)? {
                    return Ok(Some(found));
                }
            }
        }
    }
    Ok(None)
}

// The same with the slash after it.
fn nesting_after<'p>(
    alloc: Global,
    two: &Two<'_, '_, '_, '_>,
    above: (&'p [u8], &'p [u8]),
    below: (&'p [u8], &'p [u8]),
) -> Result<Option<PossibleDirectoryConflict>, AllocError>
    requires { AreWithin two.now }
    ensures { (g : List Reading) → (is : IsGroupOf g two.now.group.now) →
        HasPattern two.now.group.now two.now.upper above.entry.0.now above.entry.1.now →
        HasPattern two.now.group.now two.now.lower below.entry.0.now below.entry.1.now →
        IfOk result (λ found. IsFoundIf g two.now.upper two.now.lower
        (λ d e. IsAfter below.entry.0.now below.entry.1.now d e) (option_map nesting_of found)) }
{
    for index in 0..below.1.len() {
        if below.1[index] == b'/' {
            if let Some(common) = Common::of(above, (below.0, &below.1[..index])) {
                if let Some(found) = nesting_among(alloc, two, &common, &below.1[index..])? {
                    return Ok(Some(found));
                }
            }
        }
    }
    Ok(None)
}

// The same for the directories that two patterns have in common, where a text follows each.
fn nesting_among(
    alloc: Global,
    two: &Two<'_, '_, '_, '_>,
    common: &Common<'_>,
    rest: &[u8],
) -> Result<Option<PossibleDirectoryConflict>, AllocError>
    requires { AreWithin two.now × IsBounded common.now }
    ensures { (g : List Reading) → (is : IsGroupOf g two.now.group.now) →
        (have : HaveFollowed two.now.group.now two.now.upper two.now.lower common.now rest.now) →
        IfOk result (λ found. IsFoundIf g two.now.upper two.now.lower
        (λ d e. IsFollowed have.prefix have.end rest.now d e) (option_map nesting_of found)) }
{
    for word in two.words {
        let name = common.with_text(alloc, word.as_bytes())?;
        if let Some(found) = nesting_followed(alloc, two, &name, rest)? {
            return Ok(Some(found));
        }
    }
    for name in &deciding_names(alloc, two.group, common)? {
        if let Some(found) = nesting_followed(alloc, two, name, rest)? {
            return Ok(Some(found));
        }
    }
    Ok(None)
}

// The same for one directory and the text that follows it.
fn nesting_followed(
    alloc: Global,
    two: &Two<'_, '_, '_, '_>,
    name: &BString,
    rest: &[u8],
) -> Result<Option<PossibleDirectoryConflict>, AllocError>
    requires { AreWithin two.now }
    ensures { (g : List Reading) → (is : IsGroupOf g two.now.group.now) →
        IfOk result (λ found. IsFoundIf g two.now.upper two.now.lower
        (λ d e. (d ≡ bstring_bytes name.now) × (e ≡ bstring_bytes name.now ++ rest.now)) (option_map nesting_of found)) }
{
    let directory = name.as_bstr().as_bytes();
    let whole = joined(alloc, directory, rest, b"")?;
    let nested = whole.as_bstr().as_bytes();
    nesting_at(alloc, two, &Names { directory, nested })
}

// The names that decide what two patterns have in common.
fn deciding_names(
    alloc: Global,
    group: &Group<'_, '_>,
    common: &Common<'_>,
) -> Result<Vec<BString>, AllocError>
    requires { IsBounded common.now }
    ensures { (letter : ℕ) → map bstring_bytes group.now.words.items ≡ words_with letter → IfOk result (λ names.
        (n : List ℕ) → IsDeciding (words_with letter) common.now.prefix.now common.now.suffix.now common.now.most n →
        Contains (map bstring_bytes names.items) n) }
{
    let mut names = Vec::new(alloc);
    for word in &group.words {
        names.push(common.with_word(alloc, word)?)?;
    }
    for shared in &common.overlaps(alloc)? {
        names.push(common.overlapping(alloc, *shared)?)?;
    }
    Ok(names)
}

// The same at two destinations.
fn nesting_at(
    alloc: Global,
    two: &Two<'_, '_, '_, '_>,
    names: &Names<'_, '_>,
) -> Result<Option<PossibleDirectoryConflict>, AllocError>
    requires { AreWithin two.now }
    ensures { (g : List Reading) → (is : IsGroupOf g two.now.group.now) →
        IfOk result (λ found. IsFoundIf g two.now.upper two.now.lower
        (λ d e. (d ≡ names.now.directory.now) × (e ≡ names.now.nested.now)) (option_map nesting_of found)) }
{
    if !is_directory_of(names.directory, names.nested) {
        return Ok(None);
    }
    let uppers = sources_for(alloc, spec_at(two.group, two.upper), names.directory)?;
    if uppers.is_empty() {
        return Ok(None);
    }
    if !are_written(names) {
        return Ok(None);
    }
    let lowers = sources_for(alloc, spec_at(two.group, two.lower), names.nested)?;
    for upper in &uppers {
        for lower in &lowers {
            if do_nest(alloc, two, names, upper, lower)? {
                return Ok(Some(PossibleDirectoryConflict {
                    upper_spec: two.upper,
                    lower_spec: two.lower,
                    upper_source: upper.clone(alloc)?,
                    lower_source: lower.clone(alloc)?,
                    directory: joined(alloc, names.directory, b"", b"")?,
                    nested: joined(alloc, names.nested, b"", b"")?,
                }));
            }
        }
    }
    Ok(None)
}

// The spec at an index.
fn spec_at<'x, 'g>(group: &'x Group<'g, '_>, index: usize) -> &'x RefSpecRef<'g>
    requires { index < length group.now.specs.now }
    ensures { slice_get group.now.specs.now index ≡ Some result.now }
{
    &group.specs[index]
}

// Whether both are valid destinations.
fn are_written(names: &Names<'_, '_>) -> bool
    ensures { IsTrue result ↔ (CanBeWritten (Some names.now.directory.now) × CanBeWritten (Some names.now.nested.now)) }
{
    is_below_refs(BStr::new(names.directory)) && is_below_refs(BStr::new(names.nested))
}

// Whether two specs, each with a source, write two valid destinations on a remote with these sources.
fn do_nest(
    alloc: Global,
    two: &Two<'_, '_, '_, '_>,
    names: &Names<'_, '_>,
    upper: &Source,
    lower: &Source,
) -> Result<bool, AllocError>
    requires { AreWithin two.now }
    ensures { (g : List Reading) → IsGroupOf g two.now.group.now →
        CanBeWritten (Some names.now.directory.now) → CanBeWritten (Some names.now.nested.now) →
        IsDirectoryOf names.now.directory.now names.now.nested.now → IfOk result (λ is. IsTrue is ↔ NestingOver g
        (refs_of (start_of upper.now) ++ refs_of (start_of lower.now)) two.now.upper two.now.lower
        (start_of upper.now) (start_of lower.now) names.now.directory.now names.now.nested.now) }
{
    if !can_stand_together(upper, lower) {
        return Ok(false);
    }
    if !is_fetched(two.group, upper) {
        return Ok(false);
    }
    if !is_fetched(two.group, lower) {
        return Ok(false);
    }
    let target = any_target();
    let mut items = Vec::new(alloc);
    add_item(&mut items, upper, &target)?;
    add_item(&mut items, lower, &target)?;
    let refs = items.as_slice();
    let directory = Some(BStr::new(names.directory));
    if !makes(
        alloc,
        *spec_at(two.group, two.upper),
        refs,
        upper,
        directory,
    )? {
        return Ok(false);
    }
    let nested = Some(BStr::new(names.nested));
    makes(alloc, *spec_at(two.group, two.lower), refs, lower, nested)
}
