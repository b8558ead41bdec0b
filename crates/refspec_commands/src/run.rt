//! A run of the program, from its reader to its writers.

ghost use Rattle.std.specs.Prelude.{◌≡◌, map, IfOk, IfErr, OnOk};
ghost use Rattle.std.specs.Io.KnownBytes.{Appends};
ghost use Rattle.gix_refspec.specs.Views.Spec.{reading_of};
ghost use Rattle.refspec_io.specs.Fault.{IsReadOrMemory, IsWrite, RefusesFormat};
ghost use Rattle.refspec_io.specs.Settings.{HasNoSettings};
ghost use Rattle.refspec_io.specs.Texts.{given_of, spec_input as specs_of};
ghost use Rattle.refspec_commands.specs.Output.{AddsFound, Answers, IsEmpty, IsInput, IsOutput, RefusesInput, ReportsChecked, Shows, notation_of as asked_notation, status_of as exit_status};
ghost use Rattle.refspec_commands.specs.Run.{Leaves, ReadsWhole};
ghost use Rattle.refspec_commands.specs.Warnings.{ShowsCheck};

use crate::checking::{self, Question};
use crate::fates::report_why;
use crate::prefetches::report_prefetches;
use crate::prefixes::answer::answer_to;
use crate::prefixes::beside::beside_of;
use crate::prefixes::report::{Notation, report_answer};
use crate::renames::report_renames;
use crate::specs::report_texts;
use crate::track::report_tracking;
use crate::upstreams::report_upstreams;
use gix_refspec::RefSpecRef;
use refspec_fetch::fetch::report_fetch;
use refspec_io::call::{Call, Command, Job, Task};
use refspec_io::checked::{Checked, all_good, check_all, has_bad};
use refspec_io::fault::Fault;
use refspec_io::input::read_input;
use refspec_io::lacking::refuse_lacking;
use refspec_io::report::Report;
use refspec_io::settings::{has_lacking, settings_in};
use refspec_io::texts::{Text, spec_input, texts_of};
use refspec_json::SpecKind;
use std::alloc::{AllocError, Global};
use std::collections::BTreeMap;
use std::io::{Read, Write};

/// Reads the input to its end, if the call needs it, and writes the results to `output` and the messages to
/// `errors`. Returns the exit status: 1 if something is refused,
/// missing, conflicting, left out, not found, or warned of in a strict call, else 0.
pub fn run<R: Read, W: Write, E: Write>(
    alloc: Global,
    job: &Job<'_>,
    reader: &mut R,
    output: &mut W,
    errors: &mut E,
) -> Result<u8, Fault>
    ensures whole { IfOk result (λ _. ReadsWhole
        job.now.call.now.reads_input (R.remaining reader.old) (R.remaining reader.new)) }

    ensures answers { IfOk result (Answers job.now.call.now job.now.files.now
        (R.remaining reader.old) (R.remaining reader.new)
        (W.contents output.old) (W.contents output.new)
        (E.contents errors.old) (E.contents errors.new)) }

    // If an input is refused as settings, it isn't in their format.
    ensures format { IfErr result (RefusesInput job.now.call.now job.now.files.now
        (R.remaining reader.old) (R.remaining reader.new)) }

    // Before a fault nothing was written, unless a writer failed.
    ensures unwritten { IfErr result (Leaves (W.contents output.old) (W.contents output.new)) }
    ensures no_message { IfErr result (Leaves (E.contents errors.old) (E.contents errors.new)) }
{
    let input = input_of(alloc, job.call, reader)?;
    let reported = report_of(alloc, job, input.as_slice())?;
    write_all(output, reported.report.results.as_slice())?;
    write_all(errors, reported.report.messages.as_slice())?;
    Ok(reported.status())
}

// Everything that the reader has left, if the call reads the input; else nothing.
fn input_of<R: Read>(alloc: Global, call: &Call<'_>, reader: &mut R) -> Result<Vec<u8>, Fault>
    ensures ok { IfOk result (λ _. ReadsWhole
        call.now.reads_input (R.remaining reader.old) (R.remaining reader.new)) }
    ensures input { IfOk result (λ input. IsInput
        call.now.reads_input (R.remaining reader.old) (R.remaining reader.new) input.items) }
    ensures err { IfErr result IsReadOrMemory }
{
    if call.reads_input {
        return read_input(alloc, reader);
    }
    Ok(Vec::new(alloc))
}

// The report of a call.
#[derive(Drop)]
struct Reported {
    report: Report,
    // Something is refused, missing, conflicting, left out, not found, or warned of in a strict call.
    refused: bool,
}

impl Reported {
    // The exit status.
    fn status(&self) -> u8
        ensures { result ≡ exit_status self.now.refused }
    {
        if self.refused { 1 } else { 0 }
    }
}

// The report of a call.
fn report_of(alloc: Global, job: &Job<'_>, input: &[u8]) -> Result<Reported, Fault>
    ensures ok { IfOk result (λ made. IsOutput job.now.call.now job.now.files.now input.now made.report made.refused) }
    ensures err { IfErr result (RefusesFormat (HasNoSettings job.now.call.now.ends job.now.files.now.specs.now
        (specs_of job.now.call.now.command job.now.files.now.configured.now input.now))) }
{
    let call = job.call;
    let files = job.files;
    let mut report = Report::new(alloc, call.form);
    let specs = spec_input(call.command, files.configured, input);
    let settings = settings_in(alloc, call.ends, files.specs, specs)?;
    if has_lacking(settings.as_slice()) {
        refuse_lacking(alloc, settings.as_slice(), &mut report)?;
        return Ok(Reported {
            report,
            refused: true,
        });
    }
    let texts = texts_of(alloc, call, files, input, settings.as_slice())?;
    let task = Task {
        call,
        input,
        local: files.local,
        given: texts.given,
    };
    let refused = report_results(alloc, &task, texts.all.as_slice(), &mut report)?;
    Ok(Reported { report, refused })
}

// Reports what a call asks for of its texts.
fn report_results(
    alloc: Global,
    task: &Task<'_>,
    texts: &[Text<'_>],
    report: &mut Report,
) -> Result<bool, AllocError>
    ensures { IsEmpty task.now.call.now.form report.old → IfOk result (Shows
        task.now.call.now.command task.now (map given_of texts.now) report.new) }
{
    match task.call.command {
        Command::Check => report_check(alloc, task.call, texts, report),
        Command::Rename => report_renames(alloc, task.call, texts, report),
        _ => {
            let all = check_all(alloc, texts)?;
            report_checked(alloc, task, all.as_slice(), report)
        }
    }
}

// Reports which texts are refused, and what it warns of. Returns whether the call fails.
fn report_check(
    alloc: Global,
    call: &Call<'_>,
    texts: &[Text<'_>],
    report: &mut Report,
) -> Result<bool, AllocError>
    ensures { IsEmpty call.now.form report.old → IfOk result (ShowsCheck call.now (map given_of texts.now) report.new) }
{
    let question = Question {
        texts,
        beside: BTreeMap::new(alloc),
        warns: call.warns,
        form: report.form,
    };
    let answer = checking::answer_to(alloc, &question)?;
    let kind = if call.verbose {
        Some(SpecKind::Good)
    } else {
        None
    };
    checking::report_answer(alloc, kind, &answer, report)?;
    if call.is_strict {
        return Ok(answer.strict_status() > 0);
    }
    Ok(answer.status() > 0)
}

// Reports what a call other than `check` asks for of checked texts. If one is refused, commands other than `canon` and
// `explain` report only the refusals.
fn report_checked(
    alloc: Global,
    task: &Task<'_>,
    all: &[Checked<'_>],
    report: &mut Report,
) -> Result<bool, AllocError>
    ensures { IfOk result (λ refused. ReportsChecked task.now.call.now.command task.now all.now
        report.old report.new refused) }
{
    match task.call.command {
        Command::Canon => {
            report_texts(alloc, Some(SpecKind::Canonical), all, report)?;
            Ok(has_bad(all))
        }
        Command::Explain => {
            report_texts(alloc, Some(SpecKind::Meaning), all, report)?;
            Ok(has_bad(all))
        }
        _ => match all_good(alloc, all)? {
            None => {
                report_texts(alloc, None, all, report)?;
                Ok(true)
            }
            Some(specs) => report_found(alloc, task, specs, report),
        },
    }
}

// Reports the results of a command other than `check`, `explain`, `canon` and `rename` for specs.
fn report_found(
    alloc: Global,
    task: &Task<'_>,
    specs: Vec<RefSpecRef<'_>>,
    report: &mut Report,
) -> Result<bool, AllocError>
    ensures { IfOk result (λ refused. AddsFound task.now.call.now.command task.now
        report.old.form report.old.messages.items report.new.messages.items refused
        (map reading_of specs.entry.items) report.old.results.items report.new.results.items) }
{
    let call = task.call;
    match call.command {
        Command::Plan | Command::Stale => { report_fetch(alloc, task, specs.as_slice(), report) }
        Command::Track => report_tracking(alloc, call, specs, report),
        Command::Upstream => {
            report_upstreams(alloc, call.merges.as_slice(), specs.as_slice(), report)
        }
        Command::Prefetch => report_prefetches(alloc, specs.as_slice(), report),
        Command::Why => report_why(alloc, task, specs.as_slice(), report),
        _ => {
            let beside = beside_of(alloc, call)?;
            let answer = answer_to(alloc, specs.as_slice(), beside)?;
            report_answer(alloc, notation_of(call), &answer, report)?;
            Ok(false)
        }
    }
}

// How a call asks for prefixes to be written.
fn notation_of(call: &Call<'_>) -> Notation
    ensures { result ≡ asked_notation call.now.patterns }
{
    if call.patterns {
        Notation::Pattern
    } else {
        Notation::Argument
    }
}

// Writes all bytes, and flushes the writer.
fn write_all<W: Write>(writer: &mut W, bytes: &[u8]) -> Result<(), Fault>
    ensures ok { OnOk result (Appends (W.contents writer.old) (W.contents writer.new) bytes.now) }
    ensures err { IfErr result IsWrite }
{
    if writer.write_all(bytes).is_err() || writer.flush().is_err() {
        return Err(Fault::Write);
    }
    Ok(())
}
