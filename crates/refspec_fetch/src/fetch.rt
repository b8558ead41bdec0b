//! What `refspec plan` and `refspec stale` report: the question that a task asks, its answer, and the report on it.

ghost use Rattle.std.specs.Prelude.{◌≡◌, [], map, IfOk, MatchOption};
ghost use Rattle.gix_refspec.specs.Views.Group.{ref_of};
ghost use Rattle.gix_refspec.specs.Views.Spec.{reading_of};
ghost use Rattle.refspec_io.specs.Input.{end_byte};
ghost use Rattle.refspec_io.specs.Refs.{ListsNames, bad_bytes};
ghost use Rattle.refspec_fetch.specs.Answer.{asks_stale, question_of, takes_all};
ghost use Rattle.refspec_fetch.specs.Fetch.{AddsFetch, AreListed, ReportsBad, local_if, style_of, subject_of, wish_of_task};
ghost use Rattle.refspec_fetch.specs.Report.{report_of};

use crate::answer::answer_to;
use crate::question::{Question, Subject, Tags, asks_stale};
use crate::report::{Style, report_answer};
use gix_refspec::RefSpecRef;
use gix_refspec::oid::{Kind, ObjectId};
use refspec_io::call::{Call, Command, Task};
use refspec_io::input::end_of;
use refspec_io::malformed::report_bad_records;
use refspec_io::refs::RefList;
use refspec_io::report::Report;
use std::alloc::{AllocError, Global};
use std::mem;

/// Reports what a fetch with these specs does, given the refs in the input: the first of them are given, the others
/// configured. If a record of the input is bad, only that is reported. Returns whether one is, or something else is
/// refused, missing, in conflict or left out. The answer is leaked: to free a plan name by name takes long, and the
/// process ends soon.
pub fn report_fetch<'a>(
    alloc: Global,
    task: &'a Task<'a>,
    specs: &'a [RefSpecRef<'a>],
    report: &mut Report,
) -> Result<bool, AllocError>
    ensures { IfOk result (λ refused. AddsFetch task.now (map reading_of specs.now) refused
        (report_of report.old) (report_of report.new)) }
{
    let id = ObjectId::null(Kind::shortest());
    let Some(lists) = lists_in(alloc, task, &id, report)? else {
        return Ok(true);
    };
    let question = question_of(task, specs, &lists);
    let answer = answer_to(alloc, &question)?;
    report_answer(alloc, &answer, &style_of(task.call), report)?;
    let status = answer.status();
    mem::forget(answer);
    Ok(status > 0)
}

/// A list of refs that was read.
#[derive(Clone, Copy, Debug)]
pub struct RefInput<'a> {
    /// Its name in messages.
    pub name: &'a str,
    pub bytes: &'a [u8],
    /// The byte that ends each record.
    pub end: u8,
}

/// The refs of a list, each with this id. If a record is bad, the bad ones are reported, and there are no refs.
pub fn refs_in<'i>(
    alloc: Global,
    input: &RefInput<'i>,
    id: &'i ObjectId,
    report: &mut Report,
) -> Result<Option<RefList<'i>>, AllocError>
    ensures { IfOk result (λ listed. MatchOption listed
        (ReportsBad input.now.end input.now.bytes.now (report_of report.old) (report_of report.new))
        (λ list. ListsNames input.now.end input.now.bytes.now (map ref_of list.items.items) []
        × (report.new ≡ report.old))) }
{
    let listed = RefList::read(alloc, input.bytes, input.end, id)?;
    if listed.bad.as_slice().is_empty() {
        return Ok(Some(listed));
    }
    report_bad_records(alloc, input.name, listed.bad.as_slice(), report)?;
    Ok(None)
}

// The refs of the remote, which are the records of the input.
fn remote_input<'a>(task: &Task<'a>) -> RefInput<'a>
    ensures end { result.end ≡ end_byte task.now.call.now.ends }
    ensures bytes { result.bytes.now ≡ task.now.input.now }
{
    RefInput {
        name: task.call.input,
        bytes: task.input,
        end: end_of(task.call.ends),
    }
}

// The list of the refs of a remote, and that of refs here.
#[derive(Debug, Drop)]
struct Lists<'a> {
    remote: RefList<'a>,
    local: RefList<'a>,
}

// The lists of a task, whose refs get this id: that of refs here is empty unless the call asks about them. If a record of
// the other list is bad, the bad ones are reported, and there are no lists.
fn lists_in<'i>(
    alloc: Global,
    task: &Task<'i>,
    id: &'i ObjectId,
    report: &mut Report,
) -> Result<Option<Lists<'i>>, AllocError>
    ensures { IfOk result (λ listed. MatchOption listed
        (ReportsBad (end_byte task.now.call.now.ends) task.now.input.now
        (report_of report.old) (report_of report.new))
        (λ lists. AreListed task.now (map ref_of lists.remote.items.items) (map ref_of lists.local.items.items)
        (map bad_bytes lists.local.bad.items) × (report.new ≡ report.old))) }
{
    let input = remote_input(task);
    let Some(remote) = refs_in(alloc, &input, id, report)? else {
        return Ok(None);
    };
    let local = RefList::read(alloc, local_input(task), end_of(task.call.ends), id)?;
    Ok(Some(Lists { remote, local }))
}

// The list of local refs, which is empty unless the call asks about them.
fn local_input<'i>(task: &Task<'i>) -> &'i [u8]
    ensures { result.now ≡ local_if (asks_stale (subject_of task.now.call.now)) task.now }
{
    if asks_stale(subject_of(task.call)) {
        task.local
    } else {
        b""
    }
}

// The question that a task asks about the fetch with these specs.
fn question_of<'q, 'spec, 'item>(
    task: &'q Task<'spec>,
    specs: &'q [RefSpecRef<'spec>],
    lists: &'q Lists<'item>,
) -> Question<'q, 'spec, 'item>
    ensures subject { (question_of result).subject ≡ subject_of task.now.call.now }
    ensures wish { (question_of result).wish ≡ wish_of_task task.now (map reading_of specs.now) }
    ensures refs { (question_of result).refs ≡ map ref_of lists.now.remote.items.items }
    ensures local { (question_of result).local ≡ map ref_of lists.now.local.items.items }
    ensures unread { (question_of result).unread ≡ map bad_bytes lists.now.local.bad.items }
{
    let call = task.call;
    let (given, configured) = specs.split_at(task.given.min(specs.len()));
    Question {
        subject: subject_of(call),
        given,
        configured,
        merges: call.merges.as_slice(),
        tags: tags_of(call),
        refs: lists.remote.items.as_slice(),
        local: lists.local.items.as_slice(),
        unread: lists.local.bad.as_slice(),
    }
}

// Which tags a call asks for.
fn tags_of(call: &Call<'_>) -> Tags
    ensures { takes_all result ≡ call.now.tags }
{
    if call.tags { Tags::All } else { Tags::Followed }
}

// What a call asks about a fetch.
fn subject_of(call: &Call<'_>) -> Subject
    ensures { result ≡ subject_of call.now }
{
    match (call.command, call.prune) {
        (Command::Stale, _) => Subject::Stale,
        (_, true) => Subject::Both,
        (_, false) => Subject::Updates,
    }
}

// How a call shows the answer.
fn style_of<'a>(call: &Call<'a>) -> Style<'a>
    ensures { result ≡ style_of call.now }
{
    Style {
        long: call.long,
        limit: call.limit,
        is_watched: call.is_watched,
        local: call.local,
    }
}
