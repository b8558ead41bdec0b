//! What `git refspec check` reports, and the refused values that stop the other commands.

ghost use Rattle.std.specs.Prelude.{◌≡◌, ◌⊎◌, ◌++◌, ◌∷◌, [], IfErr, IfOk, IsTrue, List, MatchBool, MatchOption};
ghost use Rattle.std.specs.Prelude.{None, OnOk, map};
ghost use Rattle.refspec_io.specs.declared.settings.Setting.{Setting};
ghost use Rattle.refspec_io.specs.Read.{AreGood, HasBad};
ghost use Rattle.refspec_io.specs.Settings.{HasLacking};
ghost use Rattle.refspec_io.specs.Texts.{given_of};
ghost use Rattle.refspec_request.specs.declared.refusal.Refusal.{Refusal};
ghost use Rattle.refspec_request.specs.declared.remotes.OldRemote.{OldRemote};
ghost use Rattle.refspec_git.specs.Checking.{AddsRefusals, AreOldForms, AreOlds, AreOthers, AreStops, AreTexts};
ghost use Rattle.refspec_git.specs.Checking.{IsAnswered, IsChecked, IsFound, IsFoundStatus, IsGood, IsOwnStatus};
ghost use Rattle.refspec_git.specs.Checking.{IsRemark, IsReported, IsSilent, PrintsFound, StopsCheck};
ghost use Rattle.refspec_git.specs.Checking.{kind_of, remark_text};
ghost use Rattle.refspec_git.specs.Chosen.{AreUsable, AreValuesOf, HasUnusable, ReportsUnusable};

use crate::answer::{Machine, Stop};
use crate::chosen::{Chosen, chosen_of, specs_in, texts_of, values_of};
use crate::stops::bad_setting;
use crate::warnings::Remotes;
use refspec_commands::checking::{Answer, Question, answer_to};
use refspec_commands::specs::report_texts;
use refspec_commands::warnings::{Warning, report_warnings};
use refspec_io::call::Form;
use refspec_io::checked::{Checked, check_all, has_bad};
use refspec_io::lacking::refuse_lacking;
use refspec_io::report::Report;
use refspec_io::settings::{Setting, has_lacking};
use refspec_io::texts::Text;
use refspec_json::SpecKind;
use refspec_request::arguments::Request;
use refspec_request::choice::Repository;
use refspec_request::output::Output;
use refspec_request::refusal::Refusal;
use refspec_request::remotes::OldRemote;
use std::alloc::{AllocError, Global};

/// Reports the values of the remotes in the arguments, and the specs; without arguments the values of all remotes.
pub fn report_check<'a, M: Machine>(
    alloc: Global,
    machine: &M,
    request: &Request<'a>,
    repository: &Repository<'a, 'a>,
) -> Result<Output, Stop<'a>>
    ensures ok { IfOk result (IsChecked (M.world machine.now) repository.now request.now) }
    ensures refused { IfErr result (StopsCheck repository.now request.now) }
{
    let chosen = chosen_of(alloc, request, repository)?;
    let found = found_in(alloc, request, repository, &chosen)?;
    let count = found.values.len().saturating_add(chosen.specs.len());
    let output = output_of(alloc, machine, request, &found, count)?;
    Ok(output)
}

// What was found of values and specs.
#[derive(Drop)]
struct Found<'a> {
    // The fetch and push values of the remotes.
    values: Vec<Setting<'a>>,
    // What `refspec check` answers on the specs and the values, and behind its warnings those on the remotes.
    answer: Answer<'a>,
    // Why Git refuses to use a remote for another reason.
    refusals: Vec<Refusal<'a>>,
}

// What a call prints of what was found, and its exit status. The count is that of the values and the specs.
fn output_of<M: Machine>(
    alloc: Global,
    machine: &M,
    request: &Request<'_>,
    found: &Found<'_>,
    count: usize,
) -> Result<Output, AllocError>
    ensures { IfOk result (PrintsFound (M.world machine.now) request.now found.now count) }
{
    let mut report = found.report(alloc, request)?;
    let remark = remark_on(machine, request, found, count);
    write_remark(alloc, remark, &mut report.messages)?;
    Ok(Output {
        results: report.results,
        messages: report.messages,
        status: found.status(request),
    })
}

// What a report ends with that has no other lines.
enum Remark {
    // There is nothing to check.
    Nothing,
    // So many values and specs are good.
    Good(usize),
}

// How a report on so many values and specs ends. That they are good is said to a terminal alone.
fn remark_on<M: Machine>(
    machine: &M,
    request: &Request<'_>,
    found: &Found<'_>,
    count: usize,
) -> Option<Remark>
    ensures { IsRemark (M.world machine.now) request.now found.now count result }
{
    if count == 0 && found.status(request) == 0 {
        return Some(Remark::Nothing);
    }
    if found.is_silent(request) && machine.is_watched() {
        return Some(Remark::Good(count));
    }
    None
}

// Appends the line of a remark.
fn write_remark(
    alloc: Global,
    remark: Option<Remark>,
    messages: &mut Vec<u8>,
) -> Result<(), AllocError>
    ensures { OnOk result (messages.new.items ≡ messages.old.items ++ remark_text remark) }
{
    match remark {
        None => Ok(()),
        Some(Remark::Nothing) => {
            messages.extend_from_slice(b"git refspec: there are no fetch or push values\n")
        }
        Some(Remark::Good(count)) => {
            let line = format!(in alloc; "git refspec: {count} checked, all good\n")?;
            messages.extend_from_slice(line.as_bytes())
        }
    }
}

// What is reported of good texts.
fn kind_of(request: &Request<'_>) -> Option<SpecKind>
    ensures { result ≡ kind_of request.now.verbose }
{
    if request.verbose {
        Some(SpecKind::Good)
    } else {
        None
    }
}

// Appends the messages of refusals.
fn write_refusals(refusals: &[Refusal<'_>], messages: &mut Vec<u8>) -> Result<(), AllocError> {
    for refusal in refusals {
        refusal.write(messages)?;
    }
    Ok(())
}

impl<'a> Found<'a> {
    // The exit status: the greatest of that of the texts and those of the refusals.
    fn status(&self, request: &Request<'_>) -> u8
        ensures { IsFoundStatus request.now self.now result }
    {
        let mut status = self.own_status(request);
        for refusal in &self.refusals {
            status = status.max(refusal.status());
        }
        status
    }

    // The exit status but for the refusals: 1 also if there is a warning and the request is strict.
    fn own_status(&self, request: &Request<'_>) -> u8
        ensures { IsOwnStatus request.now.strict self.now result }
    {
        if has_lacking(self.values.as_slice()) {
            return 1;
        }
        if request.strict {
            return self.answer.strict_status();
        }
        self.answer.status()
    }

    // Whether no value is missing or refused.
    fn is_good(&self) -> bool
        ensures { MatchBool result (IsGood self.now.values.items self.now.answer)
            (¬ (IsGood self.now.values.items self.now.answer)) }
    {
        are_usable(self.values.as_slice(), self.answer.checked.as_slice())
    }

    // Adds the refusal of a value of another remote, if the arguments name remotes, whose values are good.
    fn add_other(
        &mut self,
        alloc: Global,
        request: &Request<'a>,
        repository: &Repository<'a, 'a>,
        chosen: &Chosen<'a>,
    ) -> Result<(), AllocError>
        ensures { OnOk result ((es : List Refusal) × AddsRefusals es self.old self.new
            × AreOthers repository.now chosen.now self.old.values.items self.old.answer es) }
    {
        if !chosen.names_remotes() {
            return Ok(());
        }
        if !self.is_good() {
            return Ok(());
        }
        if !has_refused(alloc, request, repository)? {
            return Ok(());
        }
        Ok(self.refusals.push(Refusal::OtherRefused)?)
    }

    // Adds the refusals of remotes that have files of their own, if all remotes are checked.
    fn add_old(
        &mut self,
        alloc: Global,
        repository: &Repository<'a, 'a>,
        chosen: &Chosen<'a>,
    ) -> Result<(), AllocError>
        ensures { OnOk result ((es : List Refusal) × AddsRefusals es self.old self.new
            × AreOlds repository.now chosen.now es) }
    {
        match chosen.remotes {
            Some(_) => Ok(()),
            None => {
                let mut refusals = old_forms(alloc, repository)?;
                self.refusals.append(&mut refusals)
            }
        }
    }

    // Adds the refusal of a setting at which Git stops, if remotes are checked.
    fn add_stop(
        &mut self,
        request: &Request<'a>,
        repository: &Repository<'a, 'a>,
        chosen: &Chosen<'a>,
    ) -> Result<(), AllocError>
        ensures { OnOk result ((es : List Refusal) × AddsRefusals es self.old self.new
            × AreStops repository.now request.now chosen.now es) }
    {
        if !chosen.has_remotes() {
            return Ok(());
        }
        match bad_setting(request.command, repository.settings) {
            None => Ok(()),
            Some(refusal) => Ok(self.refusals.push(refusal)?),
        }
    }

    // The report in the form of a request. Values that are missing are first, as Git fails at these before it reads any
    // other.
    fn report(&self, alloc: Global, request: &Request<'_>) -> Result<Report, AllocError>
        ensures { IfOk result (IsReported request.now self.now) }
    {
        let mut report = Report::new(alloc, request.form);
        refuse_lacking(alloc, self.values.as_slice(), &mut report)?;
        let kind = kind_of(request);
        report_texts(alloc, kind, self.answer.checked.as_slice(), &mut report)?;
        write_refusals(self.refusals.as_slice(), &mut report.messages)?;
        report_warnings(alloc, self.answer.warnings.as_slice(), &mut report)?;
        Ok(report)
    }

    // Whether nothing of it is reported in lines, as nothing is refused or warned of.
    fn is_silent(&self, request: &Request<'_>) -> bool
        ensures { IsTrue result → IsSilent request.now self.now }
    {
        request.form == Form::Lines
            && !request.verbose
            && !has_lacking(self.values.as_slice())
            && self.refusals.is_empty()
            && self.answer.strict_status() == 0
    }
}

// The refusals of remotes that have files of their own.
fn old_forms<'a>(
    alloc: Global,
    repository: &Repository<'a, 'a>,
) -> Result<Vec<Refusal<'a>>, AllocError>
    ensures { IfOk result (λ es. AreOldForms repository.now repository.now.old.now es.items) }
{
    let mut refusals = Vec::new(alloc);
    for old in repository.old {
        add_old_form(repository, old, &mut refusals)?;
    }
    Ok(refusals)
}

// Adds the refusal of a remote, if it has one for its file.
fn add_old_form<'a>(
    repository: &Repository<'a, 'a>,
    old: &'a OldRemote,
    refusals: &mut Vec<Refusal<'a>>,
) -> Result<(), AllocError>
    ensures { OnOk result ((seen : List OldRemote) → AreOldForms repository.now seen refusals.old.items
        → AreOldForms repository.now (seen ++ old.entry.now ∷ []) refusals.new.items) }
{
    match repository.old_remote(old.name.as_slice()) {
        None => Ok(()),
        Some(refusal) => Ok(refusals.push(refusal)?),
    }
}

// What is found of the values of remotes, and of the specs among the arguments.
fn found_in<'a>(
    alloc: Global,
    request: &Request<'a>,
    repository: &Repository<'a, 'a>,
    chosen: &Chosen<'a>,
) -> Result<Found<'a>, AllocError>
    ensures { IfOk result (IsFound repository.now request.now chosen.now) }
{
    let values = values_of(alloc, repository.settings, &chosen.remotes)?;
    let texts = texts_in(alloc, request, chosen, values.as_slice())?;
    let answer = answer_on(alloc, request, repository, chosen, texts.as_slice())?;
    let mut found = Found {
        values,
        answer,
        refusals: Vec::new(alloc),
    };
    found.add_other(alloc, request, repository, chosen)?;
    found.add_old(alloc, repository, chosen)?;
    found.add_stop(request, repository, chosen)?;
    Ok(found)
}

// The texts of a call: the chosen specs, and then those of values.
fn texts_in<'a>(
    alloc: Global,
    request: &Request<'_>,
    chosen: &Chosen<'a>,
    values: &[Setting<'a>],
) -> Result<Vec<Text<'a>>, AllocError>
    ensures { IfOk result (λ texts. AreTexts request.now chosen.now values.now (map given_of texts.items)) }
{
    let mut texts = specs_in(alloc, request, chosen)?;
    let mut own = texts_of(alloc, values)?;
    texts.append(&mut own)?;
    Ok(texts)
}

// The answer of `refspec check` on texts, and the warnings on remotes, unless the call asks for none.
fn answer_on<'a>(
    alloc: Global,
    request: &Request<'a>,
    repository: &Repository<'a, 'a>,
    chosen: &Chosen<'a>,
    texts: &[Text<'a>],
) -> Result<Answer<'a>, AllocError>
    ensures { IfOk result (IsAnswered request.now (map given_of texts.now)) }
{
    let remotes = Remotes::of(alloc, repository.settings)?;
    let question = Question {
        texts,
        beside: remotes.beside(alloc, repository.settings)?,
        warns: !request.no_warnings,
        form: request.form,
    };
    let mut answer = answer_to(alloc, &question)?;
    let mut more = remote_warnings(alloc, request, &remotes, chosen)?;
    answer.warnings.append(&mut more)?;
    Ok(answer)
}

// The warnings on remotes, unless the call asks for none.
fn remote_warnings<'a>(
    alloc: Global,
    request: &Request<'_>,
    remotes: &Remotes<'a>,
    chosen: &Chosen<'a>,
) -> Result<Vec<Warning<'a>>, AllocError>
    ensures { IfOk result (λ more. IsTrue request.now.no_warnings → more.items ≡ []) }
{
    if request.no_warnings {
        return Ok(Vec::new(alloc));
    }
    remotes.warnings(alloc, &chosen.remotes)
}

// Whether a value of some remote is missing or refused.
fn has_refused(
    alloc: Global,
    request: &Request<'_>,
    repository: &Repository<'_, '_>,
) -> Result<bool, AllocError>
    ensures { IfOk result (λ has. (all : List Setting) × AreValuesOf None repository.now.settings.now all
        × MatchBool has (HasUnusable all) (AreUsable all)) }
{
    match refused_values(alloc, repository.settings, request.form)? {
        None => Ok(false),
        Some(_) => Ok(true),
    }
}

/// Reports the values of all remotes that are missing or refused, if there are any: then Git refuses to use any remote.
pub fn refused_values(
    alloc: Global,
    settings: &[Setting<'_>],
    form: Form,
) -> Result<Option<Report>, AllocError>
    ensures { IfOk result (λ report. (values : List Setting) × AreValuesOf None settings.now values
        × MatchOption report (AreUsable values) (ReportsUnusable values form)) }
{
    let values = values_of(alloc, settings, &None)?;
    let texts = texts_of(alloc, values.as_slice())?;
    let checked = check_all(alloc, texts.as_slice())?;
    if are_usable(values.as_slice(), checked.as_slice()) {
        return Ok(None);
    }
    let report = report_values(alloc, values.as_slice(), checked.as_slice(), form)?;
    Ok(Some(report))
}

// Whether no value is missing or refused.
fn are_usable(values: &[Setting<'_>], checked: &[Checked<'_>]) -> bool
    ensures { MatchBool result (¬ (HasLacking values.now) × AreGood checked.now)
        (HasLacking values.now ⊎ HasBad checked.now) }
{
    if has_lacking(values) {
        return false;
    }
    !has_bad(checked)
}

// The report on values that are missing, and then on those that are refused.
fn report_values(
    alloc: Global,
    values: &[Setting<'_>],
    checked: &[Checked<'_>],
    form: Form,
) -> Result<Report, AllocError>
    ensures { IfOk result (λ report. report.form ≡ form) }
{
    let mut report = Report::new(alloc, form);
    refuse_lacking(alloc, values, &mut report)?;
    report_texts(alloc, None, checked, &mut report)?;
    Ok(report)
}
