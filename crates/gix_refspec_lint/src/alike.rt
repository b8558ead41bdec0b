//! Specs with the same sides as an earlier one: both map the same, or both exclude the same.

ghost use Rattle.std.specs.Prelude.{◌≡◌, ◌⊎◌, ◌↔◌, ◌<◌, ◌≤◌, ℕ, None, Some, get_or, length, map};
ghost use Rattle.std.specs.Prelude.{IfOk, IfSome, IsTrue, MatchBool};
ghost use Rattle.std.specs.List.{slice_get};
ghost use Rattle.gix_refspec_text.specs.Specs.Grammar.{IsPositive};
ghost use Rattle.gix_refspec_text.specs.Views.Spec.{reading_of};
ghost use Rattle.gix_refspec_lint.specs.Private.Alike.{AreEarlier, HaveSameSides, IsEarlier, IsKnown};

use gix_refspec_text::RefSpecRef;
use std::alloc::{AllocError, Global};
use std::collections::BTreeMap;

// For each spec the index of the last earlier one with the same sides, if there is one.
pub(super) fn earlier_alike(
    alloc: Global,
    specs: &[RefSpecRef<'_>],
) -> Result<Vec<Option<usize>>, AllocError>
    ensures long { IfOk result (λ earlier. length earlier.items ≡ length specs.now) }
    ensures alike { IfOk result (λ earlier. AreEarlier (map reading_of specs.now) earlier.items) }
{
    let mut last = BTreeMap::new(alloc);
    let mut earlier = Vec::with_capacity(alloc, specs.len())?;
    for index in 0..specs.len() {
        let spec = specs[index];
        let found = last.get(&spec).copied();
        earlier.push(if_alike(specs, found, index))?;
        last.insert(spec, index)?;
    }
    Ok(earlier)
}

// The index that is found, if it is that of an earlier spec with the sides of the one at the other index.
fn if_alike(specs: &[RefSpecRef<'_>], found: Option<usize>, index: usize) -> Option<usize>
    requires { index < length specs.now }
    ensures { IfSome result (IsEarlier (map reading_of specs.now) index) }
{
    let Some(before) = found else {
        return None;
    };
    if before < index {
        if are_alike(&specs[before], &specs[index]) {
            return Some(before);
        }
    }
    None
}

// Whether two specs are both positive or both negative, and have the same sides.
fn are_alike(one: &RefSpecRef<'_>, other: &RefSpecRef<'_>) -> bool
    ensures { IsTrue result → HaveSameSides (reading_of one.now) (reading_of other.now) }
{
    if !have_same_sign(one, other) {
        return false;
    }
    have_same_sides(one, other)
}

// Whether two specs are both positive or both negative.
fn have_same_sign(one: &RefSpecRef<'_>, other: &RefSpecRef<'_>) -> bool
    ensures { IsTrue result → IsPositive (reading_of one.now).mode ↔ IsPositive (reading_of other.now).mode }
{
    if one.is_negative() {
        return other.is_negative();
    }
    !other.is_negative()
}

// Whether two specs have the same source and the same destination.
pub(super) fn have_same_sides(one: &RefSpecRef<'_>, other: &RefSpecRef<'_>) -> bool
    ensures { IsTrue result → ((reading_of one.now).source ≡ (reading_of other.now).source)
        × ((reading_of one.now).destination ≡ (reading_of other.now).destination) }
{
    one.source() == other.source() && one.destination() == other.destination()
}

// The index of a spec, and for each second spec that was tried with it whether something was found.
#[derive(Clone, Copy)]
pub(super) struct Row<'f> {
    pub(super) first: usize,
    pub(super) flags: &'f [bool],
}

// Whether two specs are in order, and it isn't known of the second that nothing is found of both: an earlier one with
// the same sides, behind the first, has no flag.
pub(super) fn may_pair(earlier: &[Option<usize>], row: &Row<'_>, second: usize) -> bool
    requires within { second < length earlier.now }
    requires flags { length row.now.flags.now ≡ second }
    requires before { IfSome (get_or earlier.now second None) (λ p. p < second) }
    ensures { MatchBool result (row.now.first < second)
        ((second ≤ row.now.first) ⊎ IsKnown earlier.now row.now.flags.now row.now.first second) }
{
    if row.first >= second {
        return false;
    }
    let Some(before) = earlier[second] else {
        return true;
    };
    if before <= row.first {
        return true;
    }
    row.flags[before]
}

// The flag of an earlier spec, if there is one.
pub(super) fn flag_before(before: Option<usize>, flags: &[bool]) -> Option<bool>
    requires { IfSome before (λ p. p < length flags.now) }
    ensures { IfSome result (λ b. (p : ℕ) × (before ≡ Some p) × (slice_get flags.now p ≡ Some b)) }
{
    match before {
        None => None,
        Some(before) => Some(flags[before]),
    }
}

// Whether two indexes are in order, and below a length.
pub(super) fn are_in_order(first: usize, second: usize, len: usize) -> bool
    ensures { MatchBool result ((first < second) × (second < len)) ((second ≤ first) ⊎ (len ≤ second)) }
{
    first < second && second < len
}
