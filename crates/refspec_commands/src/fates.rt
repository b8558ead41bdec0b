//! What each spec of a fetch does with one ref of a remote, and what it has to do with a local one: a question, its answer,
//! and the report on it. And what `refspec why` asks.

ghost use Rattle.std.specs.Prelude.{◌≡◌, map, IfOk};
ghost use Rattle.gix_refspec.specs.Views.Spec.{reading_of};
ghost use Rattle.refspec_fetch.specs.Report.{report_of};
ghost use Rattle.refspec_commands.specs.Fates.{AddsFates, asked_name, known_by as known_if};
ghost use Rattle.refspec_commands.specs.Locals.{AddsRoles, AddsWhy};

mod advice;
pub mod answer;
pub mod question;
pub mod report;
mod role_advice;
pub mod role_report;
pub mod roles;
mod sentences;
pub mod stops;
mod ways;

use crate::fates::answer::answer_to;
use crate::fates::question::{Holder, Known, Question};
use crate::fates::report::report_answer;
use crate::fates::role_report::report_local_answer;
use crate::fates::roles::local_answer_to;
use gix_refspec::RefSpecRef;
use gix_refspec::oid::{Kind, ObjectId};
use refspec_fetch::fetch::{RefInput, refs_in};
use refspec_io::call::{Call, Task};
use refspec_io::input::end_of;
use refspec_io::report::Report;
use std::alloc::{AllocError, Global};

/// Reports what each of these specs does with the ref of the remote that a call names; if it names none, what they have to do
/// with its local ref. Returns whether some record of the input is bad, or the ref isn't fetched or written.
pub(crate) fn report_why(
    alloc: Global,
    task: &Task<'_>,
    specs: &[RefSpecRef<'_>],
    report: &mut Report,
) -> Result<bool, AllocError>
    ensures { IfOk result (λ refused. AddsWhy task.now (map reading_of specs.now) refused
        (report_of report.old) (report_of report.new)) }
{
    match task.call.refs.as_slice() {
        [] => report_roles(alloc, task, specs, report),
        [_, ..] => report_fates(alloc, task, specs, report),
    }
}

// Reports what each of these specs does with the ref of a call, given the refs in the input, if it reads one. If a
// record of that is bad, only that is reported. Returns whether one is, or the ref isn't fetched.
fn report_fates(
    alloc: Global,
    task: &Task<'_>,
    specs: &[RefSpecRef<'_>],
    report: &mut Report,
) -> Result<bool, AllocError>
    ensures { IfOk result (λ refused. AddsFates task.now (map reading_of specs.now) refused
        (report_of report.old) (report_of report.new)) }
{
    let id = ObjectId::null(Kind::shortest());
    let input = RefInput {
        name: task.call.input,
        bytes: task.input,
        end: end_of(task.call.ends),
    };
    let Some(list) = refs_in(alloc, &input, &id, report)? else {
        return Ok(true);
    };
    let question = Question {
        name: name_asked(task.call),
        specs,
        refs: list.items.as_slice(),
        known: known_by(task.call),
    };
    let answer = answer_to(alloc, &question)?;
    report_answer(alloc, &question, Holder::List, &answer, report)?;
    Ok(!answer.is_fetched(question.known))
}

// Reports what each of these specs has to do with the local ref of a call, given the refs in the input, if it reads one. If
// a record of that is bad, only that is reported. Returns whether one is, or the ref isn't written.
fn report_roles(
    alloc: Global,
    task: &Task<'_>,
    specs: &[RefSpecRef<'_>],
    report: &mut Report,
) -> Result<bool, AllocError>
    ensures { IfOk result (λ refused. AddsRoles task.now (map reading_of specs.now) refused
        (report_of report.old) (report_of report.new)) }
{
    let id = ObjectId::null(Kind::shortest());
    let input = RefInput {
        name: task.call.input,
        bytes: task.input,
        end: end_of(task.call.ends),
    };
    let Some(list) = refs_in(alloc, &input, &id, report)? else {
        return Ok(true);
    };
    let question = Question {
        name: task.call.local.as_bytes(),
        specs,
        refs: list.items.as_slice(),
        known: known_by(task.call),
    };
    let answer = local_answer_to(alloc, &question)?;
    report_local_answer(alloc, &question, Holder::List, &answer, report)?;
    Ok(!answer.is_written(question.name))
}

// The ref that a call is about.
fn name_asked<'a>(call: &Call<'a>) -> &'a [u8]
    ensures { result.now ≡ asked_name call.now.refs.items }
{
    match call.refs.as_slice() {
        [name, ..] => name.as_bytes(),
        [] => b"",
    }
}

// Whether the refs of the remote are known to a call: it reads them.
fn known_by(call: &Call<'_>) -> Known
    ensures { result ≡ known_if call.now.reads_input }
{
    if call.reads_input {
        Known::Listed
    } else {
        Known::Assumed
    }
}
