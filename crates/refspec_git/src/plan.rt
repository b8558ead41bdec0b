//! The report on a fetch of a remote, given what Git printed.

ghost use Rattle.std.specs.Prelude.{◌≡◌, ◌++◌, ◌∷◌, [], List, ℕ, map, IfOk, MatchOption, OnOk};
ghost use Rattle.gix_refspec.specs.Views.Group.{ref_of};
ghost use Rattle.gix_refspec.specs.Views.Spec.{reading_of};
ghost use Rattle.refspec_io.specs.Shown.{KeepsReport};
ghost use Rattle.refspec_fetch.specs.Answer.{answer_of, asks_updates};
ghost use Rattle.refspec_fetch.specs.Report.{report_of};
ghost use Rattle.refspec_git.specs.Fetch.{AddsNoted, AreHere, AreListed, ReportsAnswer, ReportsFetch};
ghost use Rattle.refspec_fetch.specs.Fetch.{ReportsBad};

use crate::notes::{report_unmatched, report_unsure};
use crate::sources::Names;
use crate::specs::{Specs, kept_merges, specs_in, texts_of};
use crate::unsure::unsure_of;
use bstr::BStr;
use gix_refspec::RefSpecRef;
use gix_refspec::match_group::Item;
use gix_refspec::oid::{Kind, ObjectId};
use refspec_fetch::answer::{Answer, answer_to};
use refspec_fetch::fetch::{RefInput, refs_in};
use refspec_fetch::question::{Question, Subject, asks_updates};
use refspec_fetch::report::{Style, report_answer};
use refspec_io::input::records;
use refspec_io::refs::RefList;
use refspec_io::report::Report;
use std::alloc::{AllocError, Global};
use std::mem;

/// A fetch, and what Git printed about its remote and about this repository.
#[derive(Drop)]
pub struct Fetch<'a> {
    pub subject: Subject,
    pub specs: Specs<'a>,
    pub style: Style<'a>,
    /// The lines of `git ls-remote`.
    pub lines: Vec<u8>,
    /// The lines of `git for-each-ref`; empty if refs here aren't asked about.
    pub local: Vec<u8>,
}

/// Reports a fetch, or only the specs or the lines that are refused. Returns the exit status. Fails if memory runs out.
pub fn report_on<'a>(
    alloc: Global,
    fetch: &'a Fetch<'a>,
    report: &mut Report,
) -> Result<u8, AllocError>
    ensures { IfOk result (λ status. ReportsFetch fetch.now status (report_of report.old) (report_of report.new)) }
{
    let texts = texts_of(alloc, &fetch.specs)?;
    let Some(specs) = specs_in(alloc, texts.as_slice(), report)? else {
        return Ok(1);
    };
    let id = ObjectId::null(Kind::shortest());
    let Some(refs) = refs_for(alloc, fetch, &id, report)? else {
        return Ok(1);
    };
    report_with(alloc, fetch, specs.as_slice(), &refs, report)
}

// The refs of the remote, and those here.
#[derive(Drop)]
struct Refs<'a> {
    remote: RefList<'a>,
    local: Vec<Item<'a>>,
}

// The refs of the remote and those here, each with this id. If a line of `git ls-remote` is bad, the bad ones are
// reported, and there are none.
fn refs_for<'i>(
    alloc: Global,
    fetch: &'i Fetch<'_>,
    id: &'i ObjectId,
    report: &mut Report,
) -> Result<Option<Refs<'i>>, AllocError>
    ensures { IfOk result (λ refs. MatchOption refs
        (ReportsBad 10 fetch.now.lines.items (report_of report.old) (report_of report.new))
        (λ all. AreListed fetch.now (map ref_of all.remote.items.items) (map ref_of all.local.items)
        × (report.new ≡ report.old))) }
{
    let input = RefInput {
        name: "git ls-remote",
        bytes: fetch.lines.as_slice(),
        end: b'\n',
    };
    let Some(remote) = refs_in(alloc, &input, id, report)? else {
        return Ok(None);
    };
    let local = items_here(alloc, fetch.local.as_slice(), id)?;
    Ok(Some(Refs { remote, local }))
}

// Reports what a fetch with these specs writes or deletes, of which the first are given, and the others configured.
// Returns the exit status. The answer is leaked: to free a plan name by name takes long, and the process ends soon.
fn report_with<'a>(
    alloc: Global,
    fetch: &'a Fetch<'a>,
    specs: &'a [RefSpecRef<'a>],
    refs: &'a Refs<'a>,
    report: &mut Report,
) -> Result<u8, AllocError>
    ensures { IfOk result (λ status. ReportsAnswer fetch.now (map reading_of specs.now)
        (map ref_of refs.now.remote.items.items) (map ref_of refs.now.local.items) status
        (report_of report.old) (report_of report.new)) }
{
    let (given, configured) = specs.split_at(fetch.specs.given.len().min(specs.len()));
    let names = Names::of(alloc, refs.remote.items.as_slice())?;
    let merges = kept_merges(alloc, fetch.specs.merges.as_slice(), configured, &names)?;
    let question = Question {
        subject: fetch.subject,
        given,
        configured,
        merges: merges.as_slice(),
        tags: fetch.specs.tags,
        refs: refs.remote.items.as_slice(),
        local: refs.local.as_slice(),
        unread: &[],
    };
    let answer = answer_to(alloc, &question)?;
    report_noted(alloc, fetch, &answer, &names, report)?;
    let status = answer.status();
    mem::forget(answer);
    Ok(status)
}

// Reports an answer. Of updates, notes before it which specs match no ref of the remote, and behind it what is unsure.
fn report_noted(
    alloc: Global,
    fetch: &Fetch<'_>,
    answer: &Answer<'_, '_, '_>,
    names: &Names<'_>,
    report: &mut Report,
) -> Result<(), AllocError>
    ensures { OnOk result (AddsNoted (asks_updates answer.now.question.subject) fetch.now.style (answer_of answer.now)
        (report_of report.old) (report_of report.new)) }
{
    if !asks_updates(answer.question.subject) {
        return report_answer(alloc, answer, &fetch.style, report);
    }
    report_unmatched(alloc, &answer.question, names, report)?;
    let noted = report.messages.len();
    report_answer(alloc, answer, &fetch.style, report)?;
    note_nothing(answer, noted, report)?;
    let unsure = unsure_of(alloc, answer, fetch.lines.as_slice(), names)?;
    report_unsure(alloc, &unsure, &fetch.style, report)
}

// Notes that a fetch ends well and does nothing, if neither a result is reported nor a message after the first ones.
fn note_nothing(
    answer: &Answer<'_, '_, '_>,
    noted: usize,
    report: &mut Report,
) -> Result<(), AllocError>
    ensures { OnOk result (KeepsReport report.old report.new) }
{
    if report.results.is_empty() && report.messages.len() == noted && answer.status() == 0 {
        report
            .messages
            .extend_from_slice(b"git refspec: the specs map no ref of the remote\n")?;
    }
    Ok(())
}

// The refs here that aren't symbolic: of each line a name, a space, and the target of a symbolic ref. All have one id,
// as only their names matter.
fn items_here<'a>(
    alloc: Global,
    lines: &'a [u8],
    target: &'a ObjectId,
) -> Result<Vec<Item<'a>>, AllocError>
    ensures { IfOk result (λ items. AreHere lines.now (map (λ r. r.name) (map ref_of items.items))) }
{
    let mut items = Vec::new(alloc);
    for line in &records(alloc, lines, b'\n')? {
        if let Some(name) = whole_name(line) {
            items.push(Item {
                full_ref_name: BStr::new(name),
                target,
                object: None,
            })?;
        }
    }
    Ok(items)
}

// The name in a line, if the ref isn't symbolic.
fn whole_name(line: &[u8]) -> Option<&[u8]>
    ensures { MatchOption result
        ((name : List ℕ) → ¬ (line.now ≡ name ++ (32 ∷ []))) (λ name. line.now ≡ name.now ++ (32 ∷ [])) }
{
    line.strip_suffix(b" ")
}
