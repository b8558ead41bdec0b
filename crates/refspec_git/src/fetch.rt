//! What `git refspec plan`, `git refspec stale` and `git refspec prefixes` report about a remote.

ghost use Rattle.std.specs.Prelude.{◌≡◌, map, IfErr, IfOk};
ghost use Rattle.bstr.specs.Owned.{bstring_bytes};
ghost use Rattle.refspec_fetch.specs.Report.{report_of};
ghost use Rattle.refspec_git.specs.Asked.{AnswersPrefixes, ReportsAsked, head_of, notation_of};
ghost use Rattle.refspec_git.specs.Fetch.{AnswersFetch, ListsRefs, RefusesFetch, limit_of, subject_of};
ghost use Rattle.refspec_git.specs.Wanted.{RefusesGiven};

use crate::answer::{Answer, Machine, Stop, asks, reports};
use crate::plan::{Fetch, report_on};
use crate::specs::{Specs, asked_texts, mapping_specs, specs_in, specs_of};
use bstr::BString;
use refspec_commands::prefixes::answer::answer_to;
use refspec_commands::prefixes::report::{Notation, report_answer};
use refspec_fetch::question::{Subject, asks_stale};
use refspec_fetch::report::Style;
use refspec_io::call::Limit;
use refspec_io::fault::Fault;
use refspec_io::report::Report;
use refspec_request::arguments::{Request, Subcommand};
use refspec_request::ask::{GitCall, LINES, LOCAL};
use refspec_request::choice::{Choice, Repository};
use std::alloc::{AllocError, Global};

/// Reports what a fetch of a remote writes or deletes, or asks for the refs of the remote and those here.
pub fn report_fetch<'a, M: Machine>(
    alloc: Global,
    machine: &M,
    request: &Request<'a>,
    repository: &Repository<'a, 'a>,
    choice: &Choice<'a>,
) -> Result<Answer, Stop<'a>>
    ensures ok { IfOk result (λ answer. AnswersFetch repository.now request.now choice.now answer) }
    ensures refused { IfErr result (RefusesFetch request.now choice.now) }
{
    let subject = subject_of(request);
    let specs = mapping_specs(alloc, request, repository, choice)?;
    let Some(lines) = machine.output(LINES)? else {
        return Ok(asks_for_refs(alloc, subject, choice.remote)?);
    };
    let local = match machine.output(LOCAL)? {
        Some(lines) => lines,
        None => Vec::new(alloc),
    };
    let style = Style {
        long: request.long,
        limit: limit_of(request),
        is_watched: machine.is_watched(),
        local: "git for-each-ref",
    };
    let fetch = Fetch {
        subject,
        specs,
        style,
        lines,
        local,
    };
    let mut report = Report::new(alloc, request.form);
    let status = report_on(alloc, &fetch, &mut report)?;
    Ok(reports(report, status))
}

// How much of each kind of messages a request asks for.
fn limit_of(request: &Request<'_>) -> Limit
    ensures { result ≡ limit_of request.now.all }
{
    if request.all {
        Limit::All
    } else {
        Limit::Twenty
    }
}

// Asks for the refs of a remote, and for those here if these count.
fn asks_for_refs(alloc: Global, subject: Subject, remote: &[u8]) -> Result<Answer, Fault>
    ensures { IfOk result (λ answer. ListsRefs subject remote.entry answer) }
{
    let lines = GitCall::Lines(remote);
    if asks_stale(subject) {
        asks(alloc, &[lines, GitCall::Local])
    } else {
        asks(alloc, &[lines])
    }
}

// What a request asks about a fetch.
fn subject_of(request: &Request<'_>) -> Subject
    ensures { result ≡ subject_of request.now.command request.now.prune }
{
    match (request.command, request.prune) {
        (Subcommand::Stale, _) => Subject::Stale,
        (_, true) => Subject::Both,
        (_, false) => Subject::Updates,
    }
}

/// Reports the ref prefixes to send to a remote, or only the specs that are refused. Refuses arguments as
/// `given_specs` does.
pub fn report_prefixes<'a>(
    alloc: Global,
    request: &Request<'a>,
    repository: &Repository<'a, 'a>,
    choice: &Choice<'a>,
) -> Result<Answer, Stop<'a>>
    ensures ok { IfOk result (λ answer. AnswersPrefixes repository.now request.now choice.now answer) }
    ensures refused { IfErr result (RefusesGiven (map (λ text. text.now) choice.now.specs.items)) }
{
    let specs = specs_of(alloc, repository, choice)?;
    let notation = notation_of(request);
    let head = request.head;
    let asked = Asked {
        specs,
        notation,
        head,
    };
    let mut report = Report::new(alloc, request.form);
    let status = report_asked(alloc, &asked, &mut report)?;
    Ok(reports(report, status))
}

// How a request wants prefixes to be written.
fn notation_of(request: &Request<'_>) -> Notation
    ensures { result ≡ notation_of request.now.patterns }
{
    if request.patterns {
        Notation::Pattern
    } else {
        Notation::Argument
    }
}

// The specs of a client, and how the prefixes that it sends are written.
#[derive(Drop)]
struct Asked<'a> {
    specs: Specs<'a>,
    notation: Notation,
    // It asks for `HEAD` too.
    head: bool,
}

// Reports the prefixes that a client sends, or only the specs that are refused. Returns the exit status.
fn report_asked<'a>(
    alloc: Global,
    asked: &'a Asked<'a>,
    report: &mut Report,
) -> Result<u8, AllocError>
    ensures { IfOk result (λ status. ReportsAsked (head_of asked.now.head) asked.now.notation asked.now.specs status
        (report_of report.old) (report_of report.new)) }
{
    let texts = asked_texts(alloc, &asked.specs)?;
    let Some(specs) = specs_in(alloc, texts.as_slice(), report)? else {
        return Ok(1);
    };
    let beside = beside_of(alloc, asked)?;
    let answer = answer_to(alloc, specs.as_slice(), beside)?;
    report_answer(alloc, asked.notation, &answer, report)?;
    Ok(0)
}

// The ref prefix of `HEAD`, if a client asks for that too.
fn beside_of(alloc: Global, asked: &Asked<'_>) -> Result<Vec<BString>, AllocError>
    ensures { IfOk result (λ list. map bstring_bytes list.items ≡ head_of asked.now.head) }
{
    let mut list = Vec::new(alloc);
    if asked.head {
        list.push(BString::from_slice(alloc, b"HEAD")?)?;
    }
    Ok(list)
}
