//! What one of two lists of fetch values of a remote fetches and the other doesn't, whatever refs the remote has: found
//! from the values alone.
//!
//! ```rust
//! let values = [
//!     gix_refspec::parse(alloc, BStr::new(b"+refs/heads/*:refs/x/*"), Operation::Fetch)?,
//!     gix_refspec::parse(alloc, BStr::new(b"^refs/heads/tmp/*"), Operation::Fetch)?,
//! ];
//! let found = differences(alloc, &values[..1], values.as_slice())?;    // found.lost shows a branch below tmp/
//! ```
//!
//! Specs and sources are those of `gix_refspec`, plans those of `gix_refspec_plan`, and what is tried is tried as in
//! `gix_refspec_lint`.
#![tactic(auto)]

ghost use Rattle.std.specs.Prelude.{◌≡◌, ◌↔◌, ◌++◌, [], ℕ, map, IfErr, IfOk, MatchBool};
ghost use Rattle.gix_refspec_text.specs.Views.Spec.{reading_of};
ghost use Rattle.gix_refspec_lint.specs.Matching.Lint.{IsFree};
ghost use Rattle.gix_refspec_lint.specs.declared.Error.TheVariants as error;
ghost use Rattle.gix_refspec_diff.specs.Matching.Difference.{AreFetchedAlone, AreLackedAlone, FetchAlike};
ghost use Rattle.gix_refspec_diff.specs.Matching.Difference.{FollowAlike, LackAlike, MergeAlike, TrackAlike};
ghost use Rattle.gix_refspec_diff.specs.Matching.Difference.{or_head as or_head_of};
ghost use Rattle.gix_refspec_diff.specs.Views.Difference.{pair_example_of};

mod asked;
mod blockers;
mod lists;
mod merged;
mod missing;
mod pairs;
mod shared;
mod tracked;

use asked::{joined_lists, or_head};
use bstr::BString;
use gix_refspec::match_group::Source;
use gix_refspec_lint::Error;
use gix_refspec_lint::letter::free_byte;
use gix_refspec_lint::removal::follow_tags;
use gix_refspec_text::RefSpecRef;
use lists::{Pairs, compared};
use missing::lacked_alone;
use std::alloc::Global;
use tracked::do_track;

/// What a fetch with each of two lists of values does and with the other doesn't.
#[derive(Debug, Drop)]
pub struct Difference {
    /// What only a fetch of the old values fetches: an example for each that fetches such a pair first.
    pub lost: Vec<PairExample>,
    /// What only a fetch of the new values fetches.
    pub gained: Vec<PairExample>,
    /// The indexes of the old values because of which, on some remote, only a fetch of these fails: its source is missing
    /// there, though no earlier old value lacks one, nor any new one.
    pub relieved: Vec<usize>,
    /// The indexes of such new values.
    pub required: Vec<usize>,
    /// Whether `git fetch REMOTE REF` updates some local ref by one of both lists alone: there negative values don't count,
    /// nor those without a destination.
    pub tracks: bool,
    /// Whether only one of both lists makes a fetch follow tags.
    pub follows_tags: bool,
    /// Whether `git pull` merges some source by one of both lists alone, if no ref is named to merge.
    pub merges: bool,
}

/// A source and a destination, with a remote that shows what is said of them.
#[derive(Debug, Drop)]
pub struct PairExample {
    /// The index of the value.
    pub spec_index: usize,
    /// The ref or the object that it fetches.
    pub source: Source,
    /// The ref to which it is written. `None` if the value has no destination.
    pub destination: Option<BString>,
    /// The other refs of the remote, which has no more.
    pub beside: Vec<BString>,
}

/// What the two lists of values do otherwise, whatever refs a remote has. Both are lists of `remote.<name>.fetch`, in
/// order; an empty one fetches `HEAD`.
///
/// Destinations are completed as by `plan_fetch`, and mappings with an invalid side don't count, nor those of
/// excluded sources. Not looked at are signs, and what a pruning fetch deletes. Fails if there is no byte that is free
/// in both lists, or if memory runs out.
pub fn differences(
    alloc: Global,
    old: &[RefSpecRef<'_>],
    new: &[RefSpecRef<'_>],
) -> Result<Difference, Error>
    ensures lost { IfOk result (λ d. AreFetchedAlone (or_head_of (map reading_of old.now))
        (or_head_of (map reading_of new.now)) (map pair_example_of d.lost.items)) }
    ensures gained { IfOk result (λ d. AreFetchedAlone (or_head_of (map reading_of new.now))
        (or_head_of (map reading_of old.now)) (map pair_example_of d.gained.items)) }
    // Nothing is listed exactly if over no refs one list fetches a pair that the other doesn't.
    ensures alike { IfOk result (λ d.
        ((map pair_example_of d.lost.items ≡ []) × (map pair_example_of d.gained.items ≡ [])) ↔
        FetchAlike (or_head_of (map reading_of old.now)) (or_head_of (map reading_of new.now))) }

    ensures relieved { IfOk result (λ d. AreLackedAlone (or_head_of (map reading_of old.now))
        (or_head_of (map reading_of new.now)) d.relieved.items) }
    ensures required { IfOk result (λ d. AreLackedAlone (or_head_of (map reading_of new.now))
        (or_head_of (map reading_of old.now)) d.required.items) }
    // Nothing is listed exactly if over all refs both lists lack a source, or neither does.
    ensures lacked_alike { IfOk result (λ d. ((d.relieved.items ≡ []) × (d.required.items ≡ [])) ↔
        LackAlike (or_head_of (map reading_of old.now)) (or_head_of (map reading_of new.now))) }

    ensures tracks { IfOk result (λ d. MatchBool d.tracks
        (¬ (TrackAlike (or_head_of (map reading_of old.now)) (or_head_of (map reading_of new.now))))
        (TrackAlike (or_head_of (map reading_of old.now)) (or_head_of (map reading_of new.now)))) }
    ensures tags { IfOk result (λ d. MatchBool d.follows_tags
        (¬ (FollowAlike (or_head_of (map reading_of old.now)) (or_head_of (map reading_of new.now))))
        (FollowAlike (or_head_of (map reading_of old.now)) (or_head_of (map reading_of new.now)))) }
    ensures merges { IfOk result (λ d. MatchBool d.merges
        (¬ (MergeAlike (or_head_of (map reading_of old.now)) (or_head_of (map reading_of new.now))))
        (MergeAlike (or_head_of (map reading_of old.now)) (or_head_of (map reading_of new.now)))) }

    ensures refused { IfErr result (λ e. e ≡ error.NoFreeByte →
        (b : ℕ) → ¬ (IsFree (or_head_of (map reading_of old.now) ++ or_head_of (map reading_of new.now)) b)) }
{
    let old = or_head(alloc, old)?;
    let new = or_head(alloc, new)?;
    let (old, new) = (old.as_slice(), new.as_slice());
    let letter = free_byte(joined_lists(alloc, old, new)?.as_slice())?;
    let Pairs {
        lost,
        gained,
        merges,
    } = compared(alloc, old, new, letter)?;
    Ok(Difference {
        lost,
        gained,
        relieved: lacked_alone(alloc, old, new)?,
        required: lacked_alone(alloc, new, old)?,
        tracks: do_track(alloc, old, new, letter)?,
        follows_tags: follow_tags(old) != follow_tags(new),
        merges,
    })
}
