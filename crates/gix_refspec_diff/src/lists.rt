//! Two lists of values, each held against the other.

ghost use Rattle.std.specs.Prelude.{◌≡◌, ◌⊎◌, List, ℕ, map, IfOk, MatchBool};
ghost use Rattle.bstr.specs.Owned.{bstring_bytes};
ghost use Rattle.gix_refspec_text.specs.Specs.Reading.{Negative, Reading};
ghost use Rattle.gix_refspec_text.specs.Specs.Grammar.{IsPositive};
ghost use Rattle.gix_refspec_text.specs.Views.Spec.{reading_of};
ghost use Rattle.gix_refspec_match.specs.Private.Kept.{IsFlagged};
ghost use Rattle.gix_refspec_lint.specs.Matching.Lint.{IsFree};
ghost use Rattle.gix_refspec_lint.specs.Private.Lints.{IsGroupOf, words_with};
ghost use Rattle.gix_refspec_diff.specs.Matching.Difference.{AreFetchedAlone};
ghost use Rattle.gix_refspec_diff.specs.Private.Searches.{AreKnown, AreNewExclusions, ArePairsOf};
ghost use Rattle.gix_refspec_diff.specs.Views.Difference.{pair_example_of};

use crate::PairExample;
use crate::asked::joined_lists;
use crate::merged::do_merge;
use crate::pairs::fetched_alone;
use bstr::BString;
use gix_refspec_lint::group::Group;
use gix_refspec_lint::words::words_of;
use gix_refspec_match::duplicates::{duplicates, is_flagged};
use gix_refspec_plan::mapped::{completed_names, completed_specs};
use gix_refspec_text::RefSpecRef;
use std::alloc::{AllocError, Global};

// What is held against what: the one list, the other, and what the other has that the one hasn't.
#[derive(Clone, Copy)]
pub(crate) struct Lists<'l, 's> {
    pub(crate) one: &'l Group<'l, 's>,
    pub(crate) other: &'l Group<'l, 's>,
    // Whether the other list has a value with the same sides, or an earlier value of the one, for each value of the
    // one.
    pub(crate) is_known: &'l [bool],
    // The negative values of the other list that the one hasn't.
    pub(crate) exclusions: &'l [RefSpecRef<'l>],
    // The words to try for a star.
    pub(crate) words: &'l [BString],
}

// The pairs that one list alone fetches, and whether `git pull` merges another source by it.
#[derive(Drop)]
pub(crate) struct Pairs {
    pub(crate) lost: Vec<PairExample>,
    pub(crate) gained: Vec<PairExample>,
    pub(crate) merges: bool,
}

// The pairs in which two lists differ.
pub(crate) fn compared<'s>(
    alloc: Global,
    old: &[RefSpecRef<'s>],
    new: &[RefSpecRef<'s>],
    letter: u8,
) -> Result<Pairs, AllocError>
    requires old { IsFree (map reading_of old.now) letter }
    requires new { IsFree (map reading_of new.now) letter }
    ensures { IfOk result (ArePairsOf (map reading_of old.now) (map reading_of new.now)) }
{
    let old_names = completed_names(alloc, old)?;
    let new_names = completed_names(alloc, new)?;
    let old_specs = completed_specs(alloc, old, old_names.as_slice())?;
    let new_specs = completed_specs(alloc, new, new_names.as_slice())?;
    let old = Group::of(alloc, old, old_specs.as_slice(), letter)?;
    let new = Group::of(alloc, new, new_specs.as_slice(), letter)?;
    let words = words_of(alloc, letter)?;
    let lost = alone(alloc, &old, &new, words.as_slice())?;
    let gained = alone(alloc, &new, &old, words.as_slice())?;
    let merges = do_merge(alloc, &old, &new)?;
    Ok(Pairs {
        lost,
        gained,
        merges,
    })
}

// What the one list alone fetches.
fn alone<'l, 's>(
    alloc: Global,
    one: &'l Group<'l, 's>,
    other: &'l Group<'l, 's>,
    words: &'l [BString],
) -> Result<Vec<PairExample>, AllocError>
    ensures { (g h : List Reading) (z : ℕ) → IsGroupOf g one.now → IsGroupOf h other.now → IsFree g z → IsFree h z →
        map bstring_bytes words.now ≡ words_with z → IfOk result (λ found.
        AreFetchedAlone g h (map pair_example_of found.items)) }
{
    let is_known = known_in(alloc, one.specs, other.specs)?;
    let exclusions = new_exclusions(alloc, one.specs, other.specs)?;
    let lists = Lists {
        one,
        other,
        is_known: is_known.as_slice(),
        exclusions: exclusions.as_slice(),
        words,
    };
    fetched_alone(alloc, &lists)
}

// For each value of the one list, whether the other, or an earlier value of the one, has the same sides.
pub(crate) fn known_in(
    alloc: Global,
    one: &[RefSpecRef<'_>],
    other: &[RefSpecRef<'_>],
) -> Result<Vec<bool>, AllocError>
    ensures { IfOk result (λ known. AreKnown (map reading_of one.now) (map reading_of other.now) known.items) }
{
    let both = joined_lists(alloc, other, one)?;
    let flags = duplicates(alloc, both.as_slice())?;
    let mut known = Vec::with_capacity(alloc, one.len())?;
    for index in other.len()..both.len() {
        known.push(is_flagged(flags.as_slice(), index))?;
    }
    Ok(known)
}

// The negative values of the other list that the one hasn't.
fn new_exclusions<'l>(
    alloc: Global,
    one: &[RefSpecRef<'l>],
    other: &[RefSpecRef<'l>],
) -> Result<Vec<RefSpecRef<'l>>, AllocError>
    ensures { IfOk result (λ new. AreNewExclusions (map reading_of one.now) (map reading_of other.now)
        (map reading_of new.items)) }
{
    let known = known_in(alloc, other, one)?;
    let mut new = Vec::new(alloc);
    for (index, value) in other.iter().enumerate() {
        if is_new_exclusion(value, known.as_slice(), index) {
            new.push(*value)?;
        }
    }
    Ok(new)
}

// Whether the value at an index is negative and none of those that are known.
fn is_new_exclusion(value: &RefSpecRef<'_>, known: &[bool], index: usize) -> bool
    ensures { MatchBool result
        ((reading_of value.now).mode ≡ Negative)
        (IsPositive (reading_of value.now).mode ⊎ IsFlagged known.now index) }
{
    if !value.is_negative() {
        return false;
    }
    !is_flagged(known, index)
}
