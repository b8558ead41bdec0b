//! What stops a whole fetch.

ghost use Rattle.std.specs.Prelude.{map, IfOk, MatchOption};
ghost use Rattle.gix_refspec.specs.Views.Group.{ref_of};
ghost use Rattle.gix_refspec.specs.Views.Spec.{reading_of};
ghost use Rattle.gix_refspec_plan.specs.Matching.Plan.{IsCarriedOut};
ghost use Rattle.gix_refspec_plan.specs.Views.Plan.{planned_of};
ghost use Rattle.refspec_commands.specs.Fates.{IsStopOf, StopsFetch};

use crate::fates::question::Known;
use bstr::{BStr, BString};
use gix_refspec::RefSpecRef;
use gix_refspec::match_group::Item;
use gix_refspec_plan::{Origin, Plan, Update, Verdict, Wish, plan_fetch};
use refspec_io::fields::source_of;
use std::alloc::{AllocError, Global};
use std::mem;

/// What stops a fetch.
#[derive(Debug, Drop)]
pub enum Stop {
    /// The remote lacks the source of the spec at this index.
    Missing(usize),
    /// Two refs have one destination.
    Conflict(Contest),
    /// Something else.
    Other,
}

/// A destination, and two refs or objects that have it.
#[derive(Debug, Drop)]
pub struct Contest {
    pub destination: BString,
    pub first: BString,
    pub other: BString,
}

// What stops a fetch with these specs, if the refs of the remote are known.
pub(crate) fn stop_of(
    alloc: Global,
    known: Known,
    specs: &[RefSpecRef<'_>],
    refs: &[Item<'_>],
) -> Result<Option<Stop>, AllocError>
    ensures { IfOk result (IsStopOf known (map reading_of specs.now) (map ref_of refs.now)) }
{
    match known {
        Known::Assumed => Ok(None),
        Known::Listed => stop_among(alloc, specs, refs),
    }
}

// What stops a fetch with these specs from a remote with these refs. The plan is leaked: to free it name by name takes
// long, and the process ends soon.
fn stop_among(
    alloc: Global,
    specs: &[RefSpecRef<'_>],
    refs: &[Item<'_>],
) -> Result<Option<Stop>, AllocError>
    ensures { IfOk result (StopsFetch (map reading_of specs.now) (map ref_of refs.now)) }
{
    let wish = Wish {
        given: &[],
        configured: specs,
        merges: &[],
        tags: false,
    };
    let plan = plan_fetch(alloc, &wish, refs)?;
    let stop = stop_in(alloc, &plan)?;
    mem::forget(plan);
    Ok(stop)
}

// What stops a plan.
fn stop_in(alloc: Global, plan: &Plan<'_>) -> Result<Option<Stop>, AllocError>
    ensures { IfOk result (λ stop. MatchOption stop
        (IsCarriedOut (map planned_of plan.now.updates.items) plan.now.missing.items)
        (λ _. ¬ (IsCarriedOut (map planned_of plan.now.updates.items) plan.now.missing.items))) }
{
    if plan.is_carried_out() {
        return Ok(None);
    }
    Ok(Some(shown_stop(alloc, plan)?))
}

// What is shown of what stops a plan: the first missing source, or the first conflict.
fn shown_stop(alloc: Global, plan: &Plan<'_>) -> Result<Stop, AllocError> {
    match plan.missing.as_slice() {
        [Origin::Configured(index), ..] => Ok(Stop::Missing(*index)),
        _ => match contest_in(plan) {
            None => Ok(Stop::Other),
            Some((first, other)) => Ok(Stop::Conflict(contest_of(alloc, first, other)?)),
        },
    }
}

// The first two updates that are in conflict with each other.
fn contest_in<'p, 'item>(plan: &'p Plan<'item>) -> Option<(&'p Update<'item>, &'p Update<'item>)> {
    let mut contested = plan
        .updates
        .iter()
        .filter(|update| update.verdict == Verdict::InConflict);
    let first = contested.next()?;
    let other = contested.find(|update| {
        update.destination == first.destination && update.source != first.source
    })?;
    Some((first, other))
}

// The names of two updates with one destination.
fn contest_of(
    alloc: Global,
    first: &Update<'_>,
    other: &Update<'_>,
) -> Result<Contest, AllocError> {
    let destination = match &first.destination {
        None => BString::from_slice(alloc, BStr::new(b""))?,
        Some(name) => BString::from_slice(alloc, name.as_bstr())?,
    };
    Ok(Contest {
        destination,
        first: source_text(alloc, first)?,
        other: source_text(alloc, other)?,
    })
}

// The source of an update, as it is shown.
fn source_text(alloc: Global, update: &Update<'_>) -> Result<BString, AllocError> {
    let mut buffer = Vec::new(alloc);
    let source = source_of(&update.source, &mut buffer)?;
    BString::from_slice(alloc, BStr::new(source))
}
