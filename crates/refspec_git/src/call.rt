//! The answer to a call, or the Git commands that it needs first.

ghost use Rattle.std.specs.Prelude.{◌≡◌, ◌≢◌, ◌++◌, [], IfErr, IfOk, MatchBool, map};
ghost use Rattle.refspec_request.specs.declared.arguments.Subcommand.TheVariants as subcommand;
ghost use Rattle.refspec_git.specs.Call.{AnswersArguments, AnswersCall, AnswersChoice, AnswersCommand, AnswersFetching};
ghost use Rattle.refspec_git.specs.Call.{AnswersIn, AnswersPurpose, AnswersRequest, AnswersUsable, EndsIn};
ghost use Rattle.refspec_git.specs.Call.{FetchesNothing, IsRefused, RefusesAbout, RefusesCommand, RefusesFetching};
ghost use Rattle.refspec_git.specs.Call.{RefusesIn, RefusesUsable, Shows, StopsWith, nothing_fetched};

use crate::answer::{Answer, Machine, Stop, asks, reports};
use crate::checking::{refused_values, report_check};
use crate::chosen::names_nothing;
use crate::fates::report_fates;
use crate::fetch::{report_fetch, report_prefixes};
use crate::repository::{branch_of, counted_settings, is_path, line_of, old_remotes, printed_by};
use crate::stops::bad_setting;
use crate::tracking::report_tracking;
use crate::upstreams::report_upstreams;
use refspec_io::fault::Fault;
use refspec_io::input::records;
use refspec_request::arguments::{Purpose, Request, Subcommand, purpose_of};
use refspec_request::ask::{ARGUMENTS, GitCall};
use refspec_request::choice::{Choice, Repository, choice_of};
use refspec_request::output::Output;
use refspec_request::refusal::Refusal;
use refspec_request::remotes::default_remote;
use refspec_request::usage::{OPTIONS, USAGE, VERSION};
use std::alloc::Global;

/// The result of the call whose arguments a machine has. Fails if a file can't be read or
/// is malformed, or memory runs out; a refused argument or setting is an answer.
pub fn answer_call<M: Machine>(alloc: Global, machine: &M) -> Result<Answer, Fault>
    ensures { IfOk result (AnswersCall (M.world machine.now)) }
{
    let Some(text) = machine.output(ARGUMENTS)? else {
        return Err(Fault::Read);
    };
    let arguments = records(alloc, text.as_slice(), 0)?;
    answer_arguments(alloc, machine, arguments.as_slice())
}

// The result of a call with these arguments.
fn answer_arguments<M: Machine>(
    alloc: Global,
    machine: &M,
    arguments: &[&[u8]],
) -> Result<Answer, Fault>
    ensures { IfOk result (AnswersArguments (M.world machine.now) (map (λ a. a.now) arguments.now)) }
{
    match purpose_of(alloc, arguments) {
        Ok(purpose) => answer_purpose(alloc, machine, &purpose),
        Err(refusal) => refused(alloc, &refusal),
    }
}

// The result of a call that asks for this.
fn answer_purpose<M: Machine>(
    alloc: Global,
    machine: &M,
    purpose: &Purpose<'_>,
) -> Result<Answer, Fault>
    ensures { IfOk result (AnswersPurpose (M.world machine.now) purpose.now) }
{
    match purpose {
        Purpose::Usage => shown(alloc, USAGE, OPTIONS),
        Purpose::Version => shown(alloc, VERSION, ""),
        Purpose::Manual => asks(alloc, &[GitCall::Manual]),
        Purpose::Request(request) => answer_request(alloc, machine, request),
    }
}

// Ends a call with a refusal.
fn refused(alloc: Global, refusal: &Refusal<'_>) -> Result<Answer, Fault>
    ensures { IfOk result (IsRefused refusal.now) }
{
    let mut reported = Output::new(alloc);
    refusal.write(&mut reported.messages)?;
    reported.status = refusal.status();
    Ok(Answer::Reports(reported))
}

// Ends a call with two texts.
fn shown(alloc: Global, first: &str, second: &str) -> Result<Answer, Fault>
    ensures { IfOk result (Shows (first.now ++ second.now) []) }
{
    let mut reported = Output::new(alloc);
    reported.results.extend_from_slice(first.as_bytes())?;
    reported.results.extend_from_slice(second.as_bytes())?;
    Ok(Answer::Reports(reported))
}

// Answers a request, or asks for the commands on the repository that haven't run.
fn answer_request<M: Machine>(
    alloc: Global,
    machine: &M,
    request: &Request<'_>,
) -> Result<Answer, Fault>
    ensures { IfOk result (AnswersRequest (M.world machine.now) request.now) }
{
    let Some(printed) = printed_by(machine)? else {
        return asks(alloc, &[GitCall::Folder, GitCall::Config, GitCall::Head]);
    };
    let settings = counted_settings(alloc, printed.config.as_slice())?;
    let old = old_remotes(alloc, machine, line_of(printed.folder.as_slice()))?;
    let repository = Repository {
        settings: settings.as_slice(),
        branch: branch_of(line_of(printed.head.as_slice())),
        old: old.as_slice(),
        is_path: is_path(machine, request.arguments.as_slice()),
    };
    end_in(alloc, machine, request, &repository)
}

// Answers a request in a repository, or ends with its refusal.
fn end_in<'a, M: Machine>(
    alloc: Global,
    machine: &M,
    request: &Request<'a>,
    repository: &Repository<'a, 'a>,
) -> Result<Answer, Fault>
    ensures { IfOk result (EndsIn (M.world machine.now) repository.now request.now) }
{
    match answer_in(alloc, machine, request, repository) {
        Ok(answer) => Ok(answer),
        Err(Stop::Failed(fault)) => Err(fault),
        Err(Stop::Refused(refusal)) => refused(alloc, &refusal),
    }
}

// Answers a request in a repository.
fn answer_in<'a, M: Machine>(
    alloc: Global,
    machine: &M,
    request: &Request<'a>,
    repository: &Repository<'a, 'a>,
) -> Result<Answer, Stop<'a>>
    ensures ok { IfOk result (AnswersIn (M.world machine.now) repository.now request.now) }
    ensures refused { IfErr result (StopsWith (RefusesIn repository.now request.now)) }
{
    if is_check(request.command) {
        let reported = report_check(alloc, machine, request, repository)?;
        return Ok(Answer::Reports(reported));
    }
    answer_usable(alloc, machine, request, repository)
}

fn is_check(command: Subcommand) -> bool
    ensures { MatchBool result (command ≡ subcommand.Check) (command ≢ subcommand.Check) }
{
    matches!(command, Subcommand::Check)
}

// Answers a request other than `check`. If Git refuses a value of one remote, it refuses to use any remote.
fn answer_usable<'a, M: Machine>(
    alloc: Global,
    machine: &M,
    request: &Request<'a>,
    repository: &Repository<'a, 'a>,
) -> Result<Answer, Stop<'a>>
    ensures ok { IfOk result (AnswersUsable repository.now request.now) }
    ensures refused { IfErr result (StopsWith (RefusesUsable repository.now request.now)) }
{
    if let Some(report) = refused_values(alloc, repository.settings, request.form)? {
        return Ok(reports(report, 1));
    }
    if let Some(refusal) = bad_setting(request.command, repository.settings) {
        return Err(Stop::Refused(refusal));
    }
    answer_command(alloc, machine, request, repository)
}

// Answers a request, in a repository with usable values.
fn answer_command<'a, M: Machine>(
    alloc: Global,
    machine: &M,
    request: &Request<'a>,
    repository: &Repository<'a, 'a>,
) -> Result<Answer, Stop<'a>>
    ensures ok { IfOk result (AnswersCommand repository.now request.now) }
    ensures refused { IfErr result (StopsWith (RefusesCommand repository.now request.now)) }
{
    match request.command {
        Subcommand::Track => report_tracking(alloc, machine, request, repository),
        Subcommand::Upstream => Ok(report_upstreams(alloc, request, repository)?),
        Subcommand::Why => report_fates(alloc, machine, request, repository),
        _ => answer_fetching(alloc, machine, request, repository),
    }
}

// Answers a request about a remote.
fn answer_fetching<'a, M: Machine>(
    alloc: Global,
    machine: &M,
    request: &Request<'a>,
    repository: &Repository<'a, 'a>,
) -> Result<Answer, Stop<'a>>
    ensures ok { IfOk result (AnswersFetching repository.now request.now) }
    ensures refused { IfErr result (StopsWith (RefusesFetching repository.now request.now)) }
{
    if fetches_nothing(request, repository) {
        return nothing_to_fetch(alloc);
    }
    let choice = choice_of(alloc, request, repository)?;
    if let Some(old) = repository.old_remote(choice.remote) {
        return Err(Stop::Refused(old));
    }
    answer_choice(alloc, machine, request, repository, &choice)
}

// Answers a request about the chosen remote.
fn answer_choice<'a, M: Machine>(
    alloc: Global,
    machine: &M,
    request: &Request<'a>,
    repository: &Repository<'a, 'a>,
    choice: &Choice<'a>,
) -> Result<Answer, Stop<'a>>
    ensures ok { IfOk result (AnswersChoice repository.now request.now choice.now) }
    ensures refused { IfErr result (StopsWith (RefusesAbout repository.now request.now choice.now)) }
{
    if !is_prefixes(request.command) {
        return report_fetch(alloc, machine, request, repository, choice);
    }
    if !repository.may_fetch(choice.remote) {
        return Err(Stop::Refused(Refusal::NoRemoteNoSpec(choice.remote)));
    }
    report_prefixes(alloc, request, repository, choice)
}

fn is_prefixes(command: Subcommand) -> bool
    ensures { MatchBool result (command ≡ subcommand.Prefixes) (command ≢ subcommand.Prefixes) }
{
    matches!(command, Subcommand::Prefixes)
}

// Whether a request names neither a remote nor specs, and there is no default remote.
fn fetches_nothing<'a>(request: &Request<'a>, repository: &Repository<'a, 'a>) -> bool
    ensures { MatchBool result (FetchesNothing repository.now request.now)
        (¬ (FetchesNothing repository.now request.now)) }
{
    if !names_nothing(request) {
        return false;
    }
    match default_remote(repository.settings, repository.branch, repository.old) {
        Some(_) => false,
        None => true,
    }
}

// Ends a call for a fetch that does nothing.
fn nothing_to_fetch<'a>(alloc: Global) -> Result<Answer, Stop<'a>>
    ensures ok { IfOk result (Shows [] nothing_fetched) }
    ensures failed { IfErr result (StopsWith (λ _. ⊥)) }
{
    let mut reported = Output::new(alloc);
    reported.messages.extend_from_slice(
        b"git refspec: no remote is given, and there is no default one, so git fetch does nothing\n",
    )?;
    Ok(Answer::Reports(reported))
}
