//! The values that update local refs where a fetch names refs on the command line.

ghost use Rattle.std.specs.Prelude.{map, IfOk, MatchBool};
ghost use Rattle.gix_refspec_text.specs.Views.Spec.{reading_of};
ghost use Rattle.gix_refspec_lint.specs.Matching.Lint.{IsFree};
ghost use Rattle.gix_refspec_diff.specs.Matching.Difference.{TrackAlike};
ghost use Rattle.gix_refspec_diff.specs.Private.Searches.{AreTracking};

use crate::lists::compared;
use gix_refspec_lint::removal::has_destination;
use gix_refspec_text::RefSpecRef;
use std::alloc::{AllocError, Global};

// Whether `git fetch REMOTE REF` updates some local ref by one of both lists alone.
pub(crate) fn do_track(
    alloc: Global,
    old: &[RefSpecRef<'_>],
    new: &[RefSpecRef<'_>],
    letter: u8,
) -> Result<bool, AllocError>
    requires old { IsFree (map reading_of old.now) letter }
    requires new { IsFree (map reading_of new.now) letter }
    ensures { IfOk result (λ does. MatchBool does
        (¬ (TrackAlike (map reading_of old.now) (map reading_of new.now)))
        (TrackAlike (map reading_of old.now) (map reading_of new.now))) }
{
    let one = tracking(alloc, old)?;
    let other = tracking(alloc, new)?;
    let pairs = compared(alloc, one.as_slice(), other.as_slice(), letter)?;
    if !pairs.lost.is_empty() {
        return Ok(true);
    }
    if !pairs.gained.is_empty() {
        return Ok(true);
    }
    Ok(false)
}

// The positive values with a destination.
fn tracking<'s>(alloc: Global, values: &[RefSpecRef<'s>]) -> Result<Vec<RefSpecRef<'s>>, AllocError>
    ensures { IfOk result (λ kept. AreTracking (map reading_of values.now) (map reading_of kept.items)) }
{
    let mut kept = Vec::new(alloc);
    for value in values {
        if has_destination(value) {
            kept.push(*value)?;
        }
    }
    Ok(kept)
}
