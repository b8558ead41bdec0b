//! What `git refspec why` reports: what each spec of a fetch does with one ref of the remote, or has to do with a tracking
//! ref.

ghost use Rattle.std.specs.Prelude.{◌≡◌, ◌≢◌, ◌++◌, ◌∷◌, [], IfErr, IfOk, MatchBool, MatchOption, MatchResult, OnOk};
ghost use Rattle.std.specs.Prelude.{cond, map};
ghost use Rattle.std.specs.List.{All, Any};
ghost use Rattle.bstr.specs.BStr.{bstr_bytes};
ghost use Rattle.bstr.specs.Owned.{bstring_bytes};
ghost use Rattle.gix_refspec.specs.Views.Group.{ref_of};
ghost use Rattle.gix_refspec.specs.Views.Spec.{reading_of};
ghost use Rattle.gix_refspec_text.specs.Specs.Reading.{all_tags, fetched_alone};
ghost use Rattle.refspec_io.specs.Refs.{ListsNames};
ghost use Rattle.refspec_fetch.specs.Answer.{takes_all};
ghost use Rattle.refspec_fetch.specs.Fetch.{ReportsBad};
ghost use Rattle.refspec_fetch.specs.Report.{report_of};
ghost use Rattle.refspec_request.specs.declared.ask.GitCall.TheVariants as call;
ghost use Rattle.refspec_git.specs.Answers.{Requests};
ghost use Rattle.refspec_git.specs.Fates.{AddsOwnSpec, AnswersAbout, AnswersFates, AreCounted, HasStatus, IsAlone, IsAsked};
ghost use Rattle.refspec_git.specs.Fates.{IsAskedBy, IsListed, IsUnlisted, MayBeAlone, MeansRef, NeverAlone, PlansFor};
ghost use Rattle.refspec_git.specs.Fates.{RefusesAbout, RefusesAsked, RefusesFates, RefusesName, ReportsFates, ReportsRef};
ghost use Rattle.refspec_git.specs.Fates.{HasLocalStatus, IsLocal, IsRemote, ReportsAsked, ReportsLocal};
ghost use Rattle.refspec_git.specs.Named.{HasFirst};

use crate::answer::{Answer, Machine, Stop, asks, reports};
use crate::configured::tags_of;
use crate::refs::is_ref;
use crate::sources::Names;
use crate::specs::{Specs, kept_merges, specs_in, specs_of, takes_all, texts_of};
use bstr::{BStr, BString};
use gix_refspec::RefSpecRef;
use gix_refspec::match_group::ref_names::is_ref_name;
use gix_refspec::match_group::{Item, SourceRef};
use gix_refspec::oid::{Kind as IdKind, ObjectId};
use gix_refspec_plan::{Origin, Plan, Update, Wish, plan_fetch};
use gix_refspec_text::side::{candidates, joined, written_name};
use refspec_commands::fates::answer::{Answer as Fates, answer_to};
use refspec_commands::fates::question::{Configured, Holder, Kind, Known, Question};
use refspec_commands::fates::report::report_answer;
use refspec_commands::fates::role_report::report_local_answer;
use refspec_commands::fates::roles::{LocalAnswer, local_answer_to};
use refspec_fetch::fetch::{RefInput, refs_in};
use refspec_fetch::question::Tags;
use refspec_io::fault::Fault;
use refspec_io::refs::RefList;
use refspec_io::report::Report;
use refspec_io::settings::Setting;
use refspec_request::arguments::Request;
use refspec_request::ask::{GitCall, LINES};
use refspec_request::choice::{Choice, Repository, remote_to_fetch};
use refspec_request::refusal::Refusal;
use refspec_request::remotes::is_configured;
use refspec_request::settings::{is_true, settings_named};
use std::alloc::{AllocError, Global};
use std::mem;

/// Reports what each spec of a fetch does with the ref in the arguments, or asks for the refs of the remote.
pub fn report_fates<'a, M: Machine>(
    alloc: Global,
    machine: &M,
    request: &Request<'a>,
    repository: &Repository<'a, 'a>,
) -> Result<Answer, Stop<'a>>
    ensures ok { IfOk result (AnswersFates repository.now request.now) }
    ensures refused { IfErr result (RefusesFates repository.now request.now) }
{
    let asked = asked_in(request.remote, request.arguments.as_slice())?;
    let remote = remote_to_fetch(asked.remote, repository)?;
    if let Some(old) = repository.old_remote(remote) {
        return Err(Stop::Refused(old));
    }
    let specs = Vec::new(alloc);
    let about = About {
        name: asked.name,
        choice: Choice { remote, specs },
    };
    answer_about(alloc, machine, request, repository, &about)
}

// The ref that a call asks about, and the remote that it names, if it names one.
#[derive(Clone, Copy)]
struct Asked<'a> {
    name: &'a [u8],
    remote: Option<&'a [u8]>,
}

// The ref and the remote that `--remote` and the arguments name.
fn asked_in<'a>(option: Option<&'a [u8]>, arguments: &[&'a [u8]]) -> Result<Asked<'a>, Refusal<'a>>
    ensures { MatchResult result (IsAsked option.entry arguments.now) (RefusesAsked option.entry arguments.now) }
{
    match arguments {
        [name] => asked_by(*name, option),
        [name, remote] => match option {
            None => asked_by(*name, Some(*remote)),
            Some(_) => Err(Refusal::ArgumentsOfWhy),
        },
        _ => Err(Refusal::ArgumentsOfWhy),
    }
}

// The ref that an argument names, and a remote.
fn asked_by<'a>(name: &'a [u8], remote: Option<&'a [u8]>) -> Result<Asked<'a>, Refusal<'a>>
    ensures { MatchResult result (IsAskedBy name.entry remote.entry) (RefusesName name.entry) }
{
    if is_ref(name) {
        return Ok(Asked { name, remote });
    }
    Err(Refusal::NoRefName(name))
}

// What a call is about.
#[derive(Drop)]
struct About<'a> {
    // The ref, as it is named.
    name: &'a [u8],
    // Its remote, and no specs.
    choice: Choice<'a>,
}

// Reports what a fetch does with a ref of a remote, or asks for the refs of the remote.
fn answer_about<'a, M: Machine>(
    alloc: Global,
    machine: &M,
    request: &Request<'a>,
    repository: &Repository<'a, 'a>,
    about: &About<'a>,
) -> Result<Answer, Stop<'a>>
    ensures ok { IfOk result (AnswersAbout repository.now request.now.form about.now.name.now about.now.choice) }
    ensures refused { IfErr result (RefusesAbout about.now.choice) }
{
    let remote = about.choice.remote;
    let specs = specs_of(alloc, repository, &about.choice)?;
    let Some(lines) = machine.output(LINES)? else {
        return Ok(asks_for_refs(alloc, remote)?);
    };
    let holder = holder_of(alloc, repository.settings, remote)?;
    let inquiry = Inquiry {
        name: about.name,
        specs,
        lines,
        holder,
    };
    let mut report = Report::new(alloc, request.form);
    let status = report_on(alloc, &inquiry, &mut report)?;
    Ok(reports(report, status))
}

// Asks for the refs of a remote.
fn asks_for_refs(alloc: Global, remote: &[u8]) -> Result<Answer, Fault>
    ensures { IfOk result (Requests (call.Lines remote.entry ∷ [])) }
{
    asks(alloc, &[GitCall::Lines(remote)])
}

// Where the specs of a fetch from a remote come from.
fn holder_of<'a>(
    alloc: Global,
    settings: &[Setting<'_>],
    remote: &'a [u8],
) -> Result<Holder<'a>, AllocError> {
    if !is_configured(settings, remote) {
        return Ok(Holder::Url(remote));
    }
    Ok(Holder::Remote(Configured {
        name: remote,
        tags: tags_of(alloc, settings, remote)?,
        kind: kind_of(alloc, settings, remote)?,
    }))
}

// What `git remote set-branches` does for a remote.
pub(crate) fn kind_of(
    alloc: Global,
    settings: &[Setting<'_>],
    remote: &[u8],
) -> Result<Kind, AllocError> {
    let mirrors = settings_named(alloc, settings, b"remote", remote, b"mirror")?;
    match mirrors.last() {
        Some(setting) if is_true(setting.value) => Ok(Kind::Mirror),
        _ => Ok(Kind::Plain),
    }
}

// A ref as it is named, the specs of a fetch, and what Git printed of the refs of the remote.
#[derive(Drop)]
struct Inquiry<'a> {
    name: &'a [u8],
    specs: Specs<'a>,
    // The lines of `git ls-remote`.
    lines: Vec<u8>,
    holder: Holder<'a>,
}

// Reports what a fetch does with a ref, or only the specs or the lines that are refused. Returns the exit status.
fn report_on<'a>(
    alloc: Global,
    inquiry: &'a Inquiry<'a>,
    report: &mut Report,
) -> Result<u8, AllocError>
    ensures { IfOk result (λ status. ReportsFates inquiry.now.specs inquiry.now.lines.items inquiry.now.name.now
        status (report_of report.old) (report_of report.new)) }
{
    let texts = texts_of(alloc, &inquiry.specs)?;
    let Some(specs) = specs_in(alloc, texts.as_slice(), report)? else {
        return Ok(1);
    };
    let id = ObjectId::null(IdKind::shortest());
    let Some(list) = refs_listed(alloc, inquiry, &id, report)? else {
        return Ok(1);
    };
    report_with(alloc, inquiry, specs.as_slice(), &list, report)
}

// The refs of the remote, each with this id. If a line of `git ls-remote` is bad, the bad ones are reported, and there
// are none.
fn refs_listed<'i>(
    alloc: Global,
    inquiry: &'i Inquiry<'_>,
    id: &'i ObjectId,
    report: &mut Report,
) -> Result<Option<RefList<'i>>, AllocError>
    ensures { IfOk result (λ listed. MatchOption listed
        (ReportsBad 10 inquiry.now.lines.items (report_of report.old) (report_of report.new))
        (λ list. ListsNames 10 inquiry.now.lines.items (map ref_of list.items.items) []
        × (report.new ≡ report.old))) }
{
    let input = RefInput {
        name: "git ls-remote",
        bytes: inquiry.lines.as_slice(),
        end: b'\n',
    };
    refs_in(alloc, &input, id, report)
}

// Reports what a fetch with these specs, of which the first are given, does with a ref among these, or what it has to do
// with a local one. Returns the exit status.
fn report_with<'a>(
    alloc: Global,
    inquiry: &'a Inquiry<'a>,
    specs: &'a [RefSpecRef<'a>],
    list: &'a RefList<'a>,
    report: &mut Report,
) -> Result<u8, AllocError>
    ensures { IfOk result (λ status. ReportsAsked inquiry.now.specs (map reading_of specs.now) list.now.items.items
        inquiry.now.name.now status (report_of report.old) (report_of report.new)) }
{
    if is_local(inquiry.name, list) {
        return report_local(alloc, inquiry, specs, list, report);
    }
    report_remote(alloc, inquiry, specs, list, report)
}

// Whether a name is that of a tracking ref, which the remote lacks.
fn is_local(name: &[u8], list: &RefList<'_>) -> bool
    ensures { MatchBool result (IsLocal list.now.items.items name.now) (IsRemote list.now.items.items name.now) }
{
    if !name.starts_with(b"refs/remotes/") {
        return false;
    }
    !is_listed(list.items.as_slice(), name)
}

// Reports what a fetch with these specs, of which the first are given, does with a ref among these. Returns the exit
// status.
fn report_remote<'a>(
    alloc: Global,
    inquiry: &'a Inquiry<'a>,
    specs: &'a [RefSpecRef<'a>],
    list: &'a RefList<'a>,
    report: &mut Report,
) -> Result<u8, AllocError>
    ensures { IfOk result (λ status. ReportsRef inquiry.now.specs (map reading_of specs.now) list.now.items.items
        inquiry.now.name.now status (report_of report.old) (report_of report.new)) }
{
    let refs = list.items.as_slice();
    let name = full_name(alloc, inquiry.name, refs)?;
    let all = counted_specs(alloc, &inquiry.specs, specs, refs, name.as_bstr())?;
    let question = Question {
        name: name.as_bytes(),
        specs: all.as_slice(),
        refs,
        known: Known::Listed,
    };
    let answer = answer_to(alloc, &question)?;
    report_answer(alloc, &question, inquiry.holder, &answer, report)?;
    Ok(status_of(&answer))
}

// Reports what a fetch with these specs has to do with a local ref, if the remote has these refs. Returns the exit status.
fn report_local<'a>(
    alloc: Global,
    inquiry: &'a Inquiry<'a>,
    specs: &'a [RefSpecRef<'a>],
    list: &'a RefList<'a>,
    report: &mut Report,
) -> Result<u8, AllocError>
    ensures { IfOk result (λ status. ReportsLocal inquiry.now.specs (map reading_of specs.now) list.now.items.items
        inquiry.now.name.now status (report_of report.old) (report_of report.new)) }
{
    let mut all = Vec::from_slice(alloc, specs)?;
    add_all_tags(inquiry.specs.tags, &mut all)?;
    let known = Known::Listed;
    let question = Question {
        name: inquiry.name,
        specs: all.as_slice(),
        refs: list.items.as_slice(),
        known,
    };
    let answer = local_answer_to(alloc, &question)?;
    report_local_answer(alloc, &question, inquiry.holder, &answer, report)?;
    Ok(local_status_of(inquiry.name, &answer))
}

// The exit status: 0 if the local ref of this name is written, else 1.
fn local_status_of(name: &[u8], answer: &LocalAnswer) -> u8
    ensures { HasLocalStatus name.now answer.now result }
{
    if answer.is_written(name) { 0 } else { 1 }
}

// The exit status: 0 if the ref is fetched, else 1.
fn status_of(answer: &Fates) -> u8
    ensures { HasStatus answer.now result }
{
    if answer.is_fetched(Known::Listed) {
        0
    } else {
        1
    }
}

// The full name of the ref that a name means among those of a remote: the first that the remote has; else the one that
// it would mean for a new ref.
fn full_name(alloc: Global, name: &[u8], refs: &[Item<'_>]) -> Result<BString, AllocError>
    ensures { IfOk result (λ full. MeansRef refs.now name.now (bstring_bytes full)) }
{
    let all = candidates(alloc, name)?;
    match first_listed(all.as_slice(), refs) {
        None => written_name(alloc, name),
        Some(first) => joined(alloc, first, b"", b""),
    }
}

// The first of some names that one of the refs has.
fn first_listed<'n>(names: &'n [BString], refs: &[Item<'_>]) -> Option<&'n [u8]>
    ensures { MatchOption result (All (λ n. IsUnlisted refs.now (bstring_bytes n)) names.now)
        (λ first. HasFirst (λ n. IsUnlisted refs.now (bstring_bytes n))
        (λ n. IsListed refs.now (bstring_bytes n) × (first.now ≡ bstring_bytes n)) names.now) }
{
    for name in names {
        if is_listed(refs, name.as_bytes()) {
            return Some(name.as_bytes());
        }
    }
    None
}

// Whether one of the refs has a name.
fn is_listed(refs: &[Item<'_>], name: &[u8]) -> bool
    ensures { MatchBool result (IsListed refs.now name.now) (IsUnlisted refs.now name.now) }
{
    for listed in refs {
        if has_name(listed, name) {
            return true;
        }
    }
    false
}

// Whether a ref has a name.
fn has_name(item: &Item<'_>, name: &[u8]) -> bool
    ensures { MatchBool result ((ref_of item.now).name ≡ name.now) ((ref_of item.now).name ≢ name.now) }
{
    item.full_ref_name.as_bytes() == name
}

// The specs that count for a ref: these, of which the first are given; the ref itself, if it is fetched as what the
// current branch merges, or by default; and all tags, if they are asked for.
fn counted_specs<'s>(
    alloc: Global,
    wanted: &Specs<'s>,
    specs: &[RefSpecRef<'s>],
    refs: &[Item<'_>],
    name: BStr<'s>,
) -> Result<Vec<RefSpecRef<'s>>, AllocError>
    ensures { IfOk result (λ all. AreCounted wanted.now (map reading_of specs.now) (map ref_of refs.now)
        (bstr_bytes name.entry) (map reading_of all.items)) }
{
    let plan = plan_of(alloc, wanted, specs, refs)?;
    let mut all = Vec::from_slice(alloc, specs)?;
    add_alone(plan.updates.as_slice(), name, &mut all)?;
    add_all_tags(wanted.tags, &mut all)?;
    mem::forget(plan);
    Ok(all)
}

// Adds the spec of a ref alone, if one of the updates fetches it so.
fn add_alone<'s>(
    updates: &[Update<'_>],
    name: BStr<'s>,
    all: &mut Vec<RefSpecRef<'s>>,
) -> Result<(), AllocError>
    ensures { OnOk result (AddsOwnSpec (bstr_bytes name.entry) updates.now (map reading_of all.old.items)
        (map reading_of all.new.items)) }
{
    let Some(spec) = spec_alone(updates, name) else {
        return Ok(());
    };
    Ok(all.push(spec)?)
}

// Adds the spec of all tags, if all are asked for.
fn add_all_tags(tags: Tags, all: &mut Vec<RefSpecRef<'_>>) -> Result<(), AllocError>
    ensures { OnOk result (map reading_of all.new.items
        ≡ map reading_of all.old.items ++ cond (takes_all tags) (all_tags ∷ []) []) }
{
    if takes_all(tags) {
        return Ok(all.push(RefSpecRef::fetch_of_all_tags())?);
    }
    Ok(())
}

// The plan of a fetch with these specs, of which the first are given, and with what the current branch merges.
fn plan_of<'s, 'item>(
    alloc: Global,
    wanted: &Specs<'s>,
    specs: &[RefSpecRef<'s>],
    refs: &[Item<'item>],
) -> Result<Plan<'item>, AllocError>
    ensures { IfOk result (λ plan. PlansFor wanted.now (map reading_of specs.now) (map ref_of refs.now)
        plan.updates.items) }
{
    let (given, configured) = specs.split_at(wanted.given.len().min(specs.len()));
    let names = Names::of(alloc, refs)?;
    let merges = kept_merges(alloc, wanted.merges.as_slice(), configured, &names)?;
    let wish = Wish {
        given,
        configured,
        merges: merges.as_slice(),
        tags: takes_all(wanted.tags),
    };
    plan_fetch(alloc, &wish, refs)
}

// The spec of a ref alone, if one of the updates fetches it so.
fn spec_alone<'s>(updates: &[Update<'_>], name: BStr<'s>) -> Option<RefSpecRef<'s>>
    ensures { MatchOption result (NeverAlone (bstr_bytes name.entry) updates.now)
        (λ spec. MayBeAlone (bstr_bytes name.entry) updates.now
        × (reading_of spec ≡ fetched_alone (bstr_bytes name.entry))) }
{
    if !is_ref_name(name.as_bytes()) {
        return None;
    }
    if !takes_alone(updates, name.as_bytes()) {
        return None;
    }
    Some(RefSpecRef::fetch_of(name))
}

// Whether one of the updates fetches a ref alone.
fn takes_alone(updates: &[Update<'_>], name: &[u8]) -> bool
    ensures { MatchBool result (Any (IsAlone name.now) updates.now) (All (λ u. ¬ (IsAlone name.now u)) updates.now) }
{
    for update in updates {
        if is_alone(update, name) {
            return true;
        }
    }
    false
}

// Whether an update fetches a ref as what the current branch merges, or by default.
fn is_alone(update: &Update<'_>, name: &[u8]) -> bool
    ensures { MatchBool result (IsAlone name.now update.now) (¬ (IsAlone name.now update.now)) }
{
    match (&update.source, update.origin) {
        (SourceRef::FullName(source), Origin::Merge(_) | Origin::Default) => {
            source.as_bstr().as_bytes() == name
        }
        _ => false,
    }
}
