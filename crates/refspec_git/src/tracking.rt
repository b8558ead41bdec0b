//! What `git refspec track` reports: from which refs of which remotes tracking refs are fetched.

ghost use Rattle.std.specs.Prelude.{◌≡◌, ◌≢◌, [], IfErr, IfOk, MatchBool, map, option_map, unwrap_or};
ghost use Rattle.gix_refspec.specs.Views.Group.{ref_of};
ghost use Rattle.refspec_git.specs.Tracking.{AnswersBy, AnswersTracking, IsReported, RefusesAnswer, StopsTracking};

use crate::advice::advice_on;
use crate::answer::{Answer, Machine, Stop};
use crate::named::{NamedRef, asked_for, named_in, names_of};
use crate::remotes::remotes_of;
use bstr::BStr;
use gix_refspec::match_group::Item;
use gix_refspec::oid::{Kind, ObjectId};
use refspec_commands::tracking::answer::{Found, Looked, answer_to};
use refspec_commands::tracking::question::{Order, Question, Remote};
use refspec_commands::tracking::report::report_answer;
use refspec_io::report::Report;
use refspec_request::arguments::Request;
use refspec_request::ask::REFS;
use refspec_request::choice::Repository;
use refspec_request::output::Output;
use refspec_request::refusal::Refusal;
use std::alloc::{AllocError, Global};

/// Reports from which refs of which remotes the refs in the arguments are fetched, or asks for the commands that find
/// these refs.
pub fn report_tracking<'a, M: Machine>(
    alloc: Global,
    machine: &M,
    request: &Request<'a>,
    repository: &Repository<'a, 'a>,
) -> Result<Answer, Stop<'a>>
    ensures ok { IfOk result (AnswersTracking repository.now request.now) }
    ensures refused { IfErr result (StopsTracking repository.now request.now) }
{
    if names_no_ref(request.arguments.as_slice()) {
        return Err(Stop::Refused(Refusal::NoRef));
    }
    let named = named_in(alloc, machine, request.arguments.as_slice())?;
    let printed = machine.output(REFS)?;
    let answer = answer_for(
        alloc,
        request,
        repository,
        named.as_slice(),
        printed.as_deref(),
    )?;
    Ok(answer)
}

fn names_no_ref(arguments: &[&[u8]]) -> bool
    ensures { MatchBool result (arguments.now ≡ []) (arguments.now ≢ []) }
{
    arguments.is_empty()
}

// The answer on the refs that arguments name, where `refs` is what Git printed of these: the commands that are still
// needed, or the report.
fn answer_for<'a>(
    alloc: Global,
    request: &Request<'a>,
    repository: &Repository<'a, 'a>,
    named: &[NamedRef<'a>],
    refs: Option<&[u8]>,
) -> Result<Answer, Refusal<'a>>
    ensures ok { IfOk result (AnswersBy repository.now request.now named.now (option_map (λ r. r.now) refs.entry)) }
    ensures refused { IfErr result (RefusesAnswer repository.now request.now.remote named.now) }
{
    let asked = asked_for(alloc, named, refs)?;
    if has_lines(asked.as_slice()) {
        return Ok(Answer::Asks(asked));
    }
    let remotes = remotes_of(alloc, request, repository)?;
    let names = names_of(alloc, named, printed_refs(refs), remotes.as_slice())?;
    let output = report_on(alloc, request, repository, remotes, names.as_slice())?;
    Ok(Answer::Reports(output))
}

fn has_lines(asked: &[u8]) -> bool
    ensures { MatchBool result (asked.now ≢ []) (asked.now ≡ []) }
{
    !asked.is_empty()
}

// What Git printed of refs; nothing before it was asked.
fn printed_refs(refs: Option<&[u8]>) -> &[u8]
    ensures { result.now ≡ unwrap_or (option_map (λ r. r.now) refs.entry) [] }
{
    match refs {
        None => b"",
        Some(printed) => printed,
    }
}

// The report on refs with these names, by the specs of remotes.
fn report_on<'a>(
    alloc: Global,
    request: &Request<'_>,
    repository: &Repository<'a, 'a>,
    remotes: Vec<Remote<'a>>,
    names: &[Vec<u8>],
) -> Result<Output, AllocError>
    ensures { IfOk result (λ output. IsReported request.now.form remotes.entry.items
        (map (λ n. n.items) names.now) output) }
{
    let none = ObjectId::null(Kind::shortest());
    let question = Question {
        refs: items_of(alloc, names, &none)?,
        remotes,
        order: Order::Refs,
    };
    let answer = answer_to(alloc, &question)?;
    let refs = answer.refs.as_slice();
    let advice = advice_on(
        alloc,
        question.remotes.as_slice(),
        repository.settings,
        refs,
    )?;
    let mut report = Report::new(alloc, request.form);
    report_answer(alloc, question.order, &answer, &advice, &mut report)?;
    if has_untracked(refs) {
        tell_old(repository, &mut report.messages)?;
    }
    Ok(Output {
        results: report.results,
        messages: report.messages,
        status: answer.status_of_refs(),
    })
}

// Whether no remote writes one of these refs.
fn has_untracked(refs: &[Looked<'_>]) -> bool {
    refs.iter().any(|looked| looked.found == Found::Untracked)
}

// Adds the messages on the remotes that have files of their own. The status stays that of a ref that isn't tracked.
fn tell_old(repository: &Repository<'_, '_>, messages: &mut Vec<u8>) -> Result<(), AllocError> {
    for old in repository.old {
        if let Some(refusal) = repository.old_remote(old.name.as_slice()) {
            refusal.write(messages)?;
        }
    }
    Ok(())
}

// Items with these names and one id, as only the names of tracking refs are known.
fn items_of<'a>(
    alloc: Global,
    names: &'a [Vec<u8>],
    target: &'a ObjectId,
) -> Result<Vec<Item<'a>>, AllocError>
    ensures { IfOk result (λ items. map (λ i. (ref_of i).name) items.items ≡ map (λ n. n.items) names.now) }
{
    let mut items = Vec::with_capacity(alloc, names.len())?;
    for name in names {
        items.push(Item {
            full_ref_name: BStr::new(name.as_slice()),
            target,
            object: None,
        })?;
    }
    Ok(items)
}
