//! Laws of what is found, for proofs: the contract of each function states a law of its arguments. A proved caller calls it to
//! get that fact. At run time it does nothing, and no other caller needs it.

ghost use Rattle.std.specs.Prelude.{map};
ghost use Rattle.bstr.specs.BStr.{bstr_bytes};
ghost use Rattle.gix_refspec_text.specs.Views.Spec.{reading_of};
ghost use Rattle.gix_refspec_plan.specs.Views.Plan.{wish_of};
ghost use Rattle.gix_refspec_lint.specs.Laws.Lint.{ConflictFree, ConflictsShown, ExamplesConflict, IdleExclusionLeftOut, IdleLeftOut, MatchConflictFree, NestedByOne, NestingsShown, PlanConflictFree};

use bstr::BStr;
use gix_refspec_plan::Wish;
use gix_refspec_text::RefSpecRef;

/// Two specs that conflict over any refs also conflict over the refs of two sources alone: so `possible_conflicts` has an
/// example of them.
pub fn conflicts_shown(specs: &[RefSpecRef<'_>])
    ensures { ConflictsShown (map reading_of specs.now) }
{}

/// On a remote with the two sources of an example of `possible_conflicts` alone, both are mapped to its destination: both
/// mappings are kept, their sides are valid, and their sources differ.
pub fn examples_conflict(specs: &[RefSpecRef<'_>])
    ensures { ExamplesConflict (map reading_of specs.now) }
{}

/// Without a spec that `idle_specs` reports a fetch maps the same: whatever refs with valid names a remote has, the valid pairs
/// that are kept are the same. And unless it is required, a source is missing without it exactly where one is with it. What else
/// depends on the specs, as what is pruned, may change.
pub fn idle_left_out(specs: &[RefSpecRef<'_>])
    ensures { IdleLeftOut (map reading_of specs.now) }
{}

/// And without a negative spec that `idle_exclusions` reports the same pairs are kept, whatever refs a remote has, also those of
/// merged refs.
pub fn idle_exclusion_left_out(specs: &[RefSpecRef<'_>], merges: &[BStr<'_>])
    ensures { IdleExclusionLeftOut (map reading_of specs.now) (map bstr_bytes merges.now) }
{}

/// If `possible_conflicts` finds nothing, no two mappings of `plan_fetch` that it doesn't leave out conflict, whatever refs a
/// remote has: two with the same destination have the same source. This is about what a fetch of these specs writes, with
/// completed destinations and without invalid names; for `match_lhs` see [`match_conflict_free`].
pub fn conflict_free(specs: &[RefSpecRef<'_>])
    ensures { ConflictFree (map reading_of specs.now) }
{}

/// If `possible_conflicts` finds nothing, `validated` finds no conflict in what `without_invalid_names` leaves of a result of
/// `match_lhs`, provided that each destination is a pattern or begins `refs/`, and that no mapping is to `HEAD`. `match_lhs`
/// itself completes `refs/heads/a:heads/x` to `refs/heads/heads/x`, where a fetch writes `refs/heads/x`, and `validated` also
/// counts mappings with invalid names, as `foo/x` by `refs/heads/*:foo/*`.
pub fn match_conflict_free(specs: &[RefSpecRef<'_>])
    ensures { MatchConflictFree (map reading_of specs.now) }
{}

/// If `possible_conflicts` finds nothing among the configured specs of a wish and that of all tags, if they are asked for, and
/// the call has no specs, no update of `plan_fetch` is in conflict, whatever refs the remote has, and whatever is merged.
pub fn plan_conflict_free(wish: &Wish<'_, '_>)
    ensures { PlanConflictFree (wish_of wish.now) }
{}

/// Two specs of which one can write a ref in the directory of what the other writes, over any refs, do so over the refs of two
/// sources alone: so `possible_directory_conflicts` has an example of them.
pub fn nestings_shown(specs: &[RefSpecRef<'_>])
    ensures { NestingsShown (map reading_of specs.now) }
{}

/// If `possible_directory_conflicts` finds nothing, and two mappings of `plan_fetch` that it doesn't leave out have destinations of
/// which one is a directory of the other, some one spec makes both, whatever refs a remote has. Each of them may be listed as
/// that of an earlier spec, which makes it too.
pub fn nested_by_one(specs: &[RefSpecRef<'_>])
    ensures { NestedByOne (map reading_of specs.now) }
{}
