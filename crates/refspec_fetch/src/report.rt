//! The report on what a fetch writes and deletes. The updates that are written and the refs here that are deleted are
//! results; what is missing, left out, overruled, in conflict, in a directory conflict or kept are messages, or in JSON
//! results.

ghost use Rattle.std.specs.Prelude.{◌≡◌, map, OnOk};
ghost use Rattle.gix_refspec_plan.specs.Views.Plan.{planned_of};
ghost use Rattle.refspec_fetch.specs.Answer.{answer_of, asks_updates};
ghost use Rattle.refspec_fetch.specs.Report.{AddsAnswer, AddsCarriedOut, AddsFirst, AddsUnwrittenIf, report_of};

use crate::answer::Answer;
use crate::conflicts::report_conflicts;
use crate::left_out::{report_left_out, report_overruled};
use crate::missing::report_missing;
use crate::nested::report_nested;
use crate::origins::SpecTexts;
use crate::question::asks_updates;
use crate::stale::report_stale;
use crate::summary::write_summary;
use crate::updates::report_updates;
use refspec_io::call::{Form, Limit};
use refspec_io::report::Report;
use std::alloc::{AllocError, Global};

/// How much of an answer is shown.
#[derive(Clone, Copy, Debug)]
pub struct Style<'a> {
    /// Each update is shown in one line with its spec, rather than below it.
    pub long: bool,
    /// How much of each kind of what is missing, left out or in conflict is reported.
    pub limit: Limit,
    /// Messages go to a terminal, and a line sums up the updates.
    pub is_watched: bool,
    /// The name of the refs here in messages.
    pub local: &'a str,
}

/// Reports an answer: what stops the fetch or isn't written, and if the plan is carried out, what is written and
/// deleted. Fails if memory runs out.
pub fn report_answer(
    alloc: Global,
    answer: &Answer<'_, '_, '_>,
    style: &Style<'_>,
    report: &mut Report,
) -> Result<(), AllocError>
    ensures { OnOk result (AddsAnswer style.now (answer_of answer.now)
        (report_of report.old) (report_of report.new)) }
{
    let wish = answer.question.wish();
    let texts = SpecTexts::of(alloc, &wish)?;
    report_first(alloc, answer, style, &texts, report)?;
    if !answer.plan.is_carried_out() {
        return Ok(());
    }
    report_carried_out(alloc, answer, style, &texts, report)
}

// Reports what stops the fetch, and what it doesn't write.
fn report_first(
    alloc: Global,
    answer: &Answer<'_, '_, '_>,
    style: &Style<'_>,
    texts: &SpecTexts,
    report: &mut Report,
) -> Result<(), AllocError>
    ensures { OnOk result (AddsFirst style.now texts.now (answer_of answer.now)
        (report_of report.old) (report_of report.new)) }
{
    report_missing(alloc, answer, texts, style.limit, report)?;
    report_unwritten(alloc, answer, style, texts, report)?;
    let updates = answer.plan.updates.as_slice();
    report_conflicts(alloc, updates, texts, style.limit, report)
}

// Reports the updates that are left out, overruled or in a directory conflict, if updates are asked for.
fn report_unwritten(
    alloc: Global,
    answer: &Answer<'_, '_, '_>,
    style: &Style<'_>,
    texts: &SpecTexts,
    report: &mut Report,
) -> Result<(), AllocError>
    ensures { OnOk result (AddsUnwrittenIf (asks_updates answer.now.question.subject) texts.now
        (map planned_of answer.now.plan.updates.items) (report_of report.old) (report_of report.new)) }
{
    if !asks_updates(answer.question.subject) {
        return Ok(());
    }
    let updates = answer.plan.updates.as_slice();
    report_left_out(alloc, updates, texts, style.limit, report)?;
    report_overruled(alloc, updates, texts, style.limit, report)?;
    report_nested(alloc, updates, texts, style.limit, report)?;
    Ok(())
}

// Reports what a fetch that is carried out writes and deletes.
fn report_carried_out(
    alloc: Global,
    answer: &Answer<'_, '_, '_>,
    style: &Style<'_>,
    texts: &SpecTexts,
    report: &mut Report,
) -> Result<(), AllocError>
    ensures { OnOk result (AddsCarriedOut style.now texts.now (answer_of answer.now)
        (report_of report.old) (report_of report.new)) }
{
    if !asks_updates(answer.question.subject) {
        return report_stale(alloc, answer, style, texts, report);
    }
    report_updates(alloc, answer.plan.updates.as_slice(), texts, style, report)?;
    report_stale(alloc, answer, style, texts, report)?;
    sum_up(alloc, answer, style, report)
}

// Appends the line that sums up the updates, if the results are lines, and messages go to a terminal.
fn sum_up(
    alloc: Global,
    answer: &Answer<'_, '_, '_>,
    style: &Style<'_>,
    report: &mut Report,
) -> Result<(), AllocError>
    ensures form { OnOk result (report.new.form ≡ report.old.form) }
    ensures no_result { OnOk result (report.new.results ≡ report.old.results) }
{
    if !style.is_watched || report.form != Form::Lines {
        return Ok(());
    }
    write_summary(alloc, answer, &mut report.messages)
}
