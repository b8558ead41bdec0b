//! What a fetch writes and deletes.

ghost use Rattle.std.specs.Prelude.{◌≡◌, ◌≢◌, [], map, IfOk, MatchBool};
ghost use Rattle.gix_refspec.specs.Views.Spec.{reading_of};
ghost use Rattle.gix_refspec_plan.specs.Views.Plan.{planned_of};
ghost use Rattle.gix_refspec_plan.specs.Views.Stale.{found_of};
ghost use Rattle.refspec_fetch.specs.Answer.{FindsStale, IsAnswer, IsStatus, answer_of, pruning_specs, question_of};
ghost use Rattle.refspec_fetch.specs.Verdicts.{failing_of, fails};

use crate::question::{Question, asks_stale, asks_updates};
use gix_refspec::RefSpecRef;
use gix_refspec_plan::stale::{Stale, stale_refs};
use gix_refspec_plan::{Plan, Update, Verdict, plan_fetch};
use std::alloc::{AllocError, Global};

/// The answer to a question.
#[derive(Debug, Drop)]
pub struct Answer<'q, 'spec, 'item> {
    pub question: Question<'q, 'spec, 'item>,
    /// What the fetch does.
    pub plan: Plan<'item>,
    /// The refs here that it deletes if it prunes, and those that it keeps although they look stale. None unless they
    /// are asked for, and the plan is carried out.
    pub stale: Vec<Stale>,
}

impl Answer<'_, '_, '_> {
    /// The exit status: 1 if the plan isn't carried out, or a record of the refs here is none, or an update that is
    /// asked for is left out or in a directory conflict; else 0.
    pub fn status(&self) -> u8
        ensures { IsStatus (answer_of self.now) result }
    {
        if !self.plan.is_carried_out() {
            return 1;
        }
        if !self.question.unread.is_empty() {
            return 1;
        }
        if !asks_updates(self.question.subject) {
            return 0;
        }
        if has_failing(self.plan.updates.as_slice()) {
            1
        } else {
            0
        }
    }
}

// Whether an update is left out or in a directory conflict.
fn has_failing(updates: &[Update<'_>]) -> bool
    ensures { MatchBool result
        (failing_of (map planned_of updates.now) ≢ []) (failing_of (map planned_of updates.now) ≡ []) }
{
    for update in updates {
        if fails(update.verdict) {
            return true;
        }
    }
    false
}

// Whether an update with this verdict is left out or in a directory conflict.
fn fails(verdict: Verdict) -> bool
    ensures { result ≡ fails verdict }
{
    match verdict {
        Verdict::Written => false,
        Verdict::LeftOut(_) => true,
        Verdict::InConflict => false,
        Verdict::Overruled => false,
        Verdict::DirectoryConflict => true,
    }
}

/// The answer to a question. Fails if memory runs out.
pub fn answer_to<'q, 'spec, 'item>(
    alloc: Global,
    question: &Question<'q, 'spec, 'item>,
) -> Result<Answer<'q, 'spec, 'item>, AllocError>
    ensures { IfOk result (λ found. (found.question ≡ question.now) × IsAnswer (answer_of found)) }
{
    let plan = plan_fetch(alloc, &question.wish(), question.refs)?;
    let stale = stale_by(alloc, question, &plan)?;
    Ok(Answer {
        question: *question,
        plan,
        stale,
    })
}

// The refs here that look stale, if they are asked for, and the plan is carried out.
fn stale_by(
    alloc: Global,
    question: &Question<'_, '_, '_>,
    plan: &Plan<'_>,
) -> Result<Vec<Stale>, AllocError>
    ensures { IfOk result (λ stale. FindsStale (question_of question.now)
        (map planned_of plan.now.updates.items) plan.now.missing.items (map found_of stale.items)) }
{
    if !asks_stale(question.subject) {
        return Ok(Vec::new(alloc));
    }
    if !plan.is_carried_out() {
        return Ok(Vec::new(alloc));
    }
    let specs = pruning_specs(question);
    stale_refs(alloc, specs, question.refs, question.local)
}

/// The specs that a fetch maps refs with, and prunes by: the given ones, or without any the configured ones.
pub fn pruning_specs<'q, 'spec>(question: &Question<'q, 'spec, '_>) -> &'q [RefSpecRef<'spec>]
    ensures { map reading_of result.now ≡ pruning_specs (question_of question.now).wish }
{
    if question.given.is_empty() {
        question.configured
    } else {
        question.given
    }
}
