//! Laws of plans, for proofs: the contract of each function states a law of its arguments. A proved caller calls it to get
//! that fact. At run time it does nothing, and no other caller needs it.

ghost use Rattle.std.specs.Prelude.{map};
ghost use Rattle.gix_refspec_match.specs.Views.Mapping.{ref_of};
ghost use Rattle.gix_refspec_plan.specs.Laws.Fetches.{CarriedOutExactly, ConflictsExactly, OnePlan, WritesOnce};
ghost use Rattle.gix_refspec_plan.specs.Views.Plan.{wish_of};

use crate::Wish;
use gix_refspec::match_group::Item;

/// A wish and the refs of a remote determine what `plan_fetch` returns.
pub fn one_plan(wish: &Wish<'_, '_>, items: &[Item<'_>])
    ensures { OnePlan (wish_of wish.now) (map ref_of items.now) }
{}

/// No two updates that `plan_fetch` says are written have the same destination, or destinations of which one is a directory
/// of the other.
pub fn writes_once(wish: &Wish<'_, '_>, items: &[Item<'_>])
    ensures { WritesOnce (wish_of wish.now) (map ref_of items.now) }
{}

/// An update of `plan_fetch` is in conflict exactly if another one has the same destination and another source, and
/// neither is left out or overruled.
pub fn conflicts_exactly(wish: &Wish<'_, '_>, items: &[Item<'_>])
    ensures { ConflictsExactly (wish_of wish.now) (map ref_of items.now) }
{}

/// What `plan_fetch` returns is carried out exactly if no two updates conflict, and the remote has the source of each
/// spec of the call, or without any of each configured one. The source of a pattern, an object id or a negative spec is
/// never missing. If nothing is asked for, configured or merged, the remote has to have `HEAD`.
pub fn carried_out_exactly(wish: &Wish<'_, '_>, items: &[Item<'_>])
    ensures { CarriedOutExactly (wish_of wish.now) (map ref_of items.now) }
{}
