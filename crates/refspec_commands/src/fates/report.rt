//! The report on what each spec does with a ref.

ghost use Rattle.std.specs.Prelude.{◌≡◌, [], map, option_map, OnOk};
ghost use Rattle.bstr.specs.Owned.{bstring_bytes};
ghost use Rattle.gix_refspec_why.specs.Views.Why.{effect_of};
ghost use Rattle.refspec_io.specs.declared.call.Form.TheVariants as form;
ghost use Rattle.refspec_io.specs.Shown.{KeepsReport};
ghost use Rattle.refspec_commands.specs.Each.{AddsEach, AddsOne};
ghost use Rattle.refspec_commands.specs.Fates.{AddsAnswer, IsVerdict, fate_word, mismatch_word, verdicts_from};
ghost use Rattle.refspec_commands.specs.FateViews.{verdict_of};

use crate::fates::advice::{Lack, advice_on};
use crate::fates::answer::Answer;
use crate::fates::question::{Holder, Question};
use crate::fates::sentences::{Names, sentence_on};
use gix_refspec_why::{Effect, Fate, Mismatch};
use refspec_io::call::Form;
use refspec_io::canonical::text_at;
use refspec_io::fields::write_field;
use refspec_io::json;
use refspec_io::quote::write_in_message;
use refspec_io::report::Report;
use refspec_io::table::Layout;
use std::alloc::{AllocError, Global};

/// Reports what each spec does with a ref, in order; and if the ref isn't fetched, why, and what to do. Fails if memory
/// runs out.
pub fn report_answer(
    alloc: Global,
    question: &Question<'_, '_, '_>,
    holder: Holder<'_>,
    answer: &Answer,
    report: &mut Report,
) -> Result<(), AllocError>
    ensures { OnOk result (AddsAnswer report.old.form question.now.name.now answer.now
        report.old.results.items report.new.results.items) }
{
    let names = Names {
        question,
        texts: answer.texts.as_slice(),
    };
    report_each(alloc, &names, answer.effects.of_specs.as_slice(), report)?;
    if answer.is_fetched(question.known) {
        return Ok(());
    }
    report_lack(alloc, question, holder, answer, report)
}

// Reports what each spec does with the ref.
fn report_each(
    alloc: Global,
    names: &Names<'_, '_, '_, '_>,
    effects: &[Effect],
    report: &mut Report,
) -> Result<(), AllocError>
    ensures form { OnOk result (report.new.form ≡ report.old.form) }
    ensures reported { OnOk result (AddsEach (IsVerdict report.old.form names.now.question.now.name.now)
        (verdicts_from 0 (map bstring_bytes names.now.texts.now) effects.now)
        report.old.results.items report.new.results.items) }
{
    let layout = layout_of(alloc, report.form, names)?;
    for (index, effect) in effects.iter().enumerate() {
        let text = text_at(names.texts, index);
        let verdict = Verdict { text, effect };
        report_verdict(alloc, names, &layout, &verdict, report)?;
    }
    Ok(())
}

// What a spec does with the ref.
#[derive(Clone, Copy, Debug)]
struct Verdict<'r> {
    // The canonical text of the spec.
    text: &'r [u8],
    effect: &'r Effect,
}

// Measures the column of the specs; it is empty in another form.
pub(crate) fn layout_of(
    alloc: Global,
    form: Form,
    names: &Names<'_, '_, '_, '_>,
) -> Result<Layout, AllocError> {
    let mut layout = Layout::new();
    if form != Form::Lines {
        return Ok(layout);
    }
    for text in names.texts {
        let width = layout.width_of(alloc, text.as_bytes())?;
        layout.first = layout.first.max(width);
    }
    Ok(layout)
}

// Reports what a spec does with the ref.
fn report_verdict(
    alloc: Global,
    names: &Names<'_, '_, '_, '_>,
    layout: &Layout,
    verdict: &Verdict<'_>,
    report: &mut Report,
) -> Result<(), AllocError>
    ensures form { OnOk result (report.new.form ≡ report.old.form) }
    ensures reported { OnOk result (AddsOne (IsVerdict report.old.form names.now.question.now.name.now)
        (verdict_of verdict.now) report.old.results.items report.new.results.items) }
{
    match report.form {
        Form::Zeros => write_record(verdict, &mut report.results),
        Form::Lines => {
            let sentence = sentence_on(alloc, names, verdict.effect)?;
            write_line(
                alloc,
                layout,
                verdict,
                sentence.as_slice(),
                &mut report.results,
            )
        }
        Form::Json => {
            let sentence = sentence_on(alloc, names, verdict.effect)?;
            write_object(
                alloc,
                names.question.name,
                verdict,
                sentence.as_slice(),
                &mut report.results,
            )
        }
    }
}

// Appends the line of a spec: its text as a cell, and a sentence.
fn write_line(
    alloc: Global,
    layout: &Layout,
    verdict: &Verdict<'_>,
    sentence: &[u8],
    out: &mut Vec<u8>,
) -> Result<(), AllocError>
    ensures { OnOk result (AddsOne (IsVerdict form.Lines []) (verdict_of verdict.now) out.old.items out.new.items) }
{
    layout.write_cell(alloc, out, verdict.text, layout.first)?;
    out.extend_from_slice(sentence)?;
    Ok(out.push(b'\n')?)
}

// Appends the record of a spec: its text, what becomes of the ref, and the destination.
fn write_record(verdict: &Verdict<'_>, out: &mut Vec<u8>) -> Result<(), AllocError>
    ensures { OnOk result (AddsOne (IsVerdict form.Zeros []) (verdict_of verdict.now) out.old.items out.new.items) }
{
    write_field(out, verdict.text)?;
    write_field(out, word_of(verdict.effect.fate).as_bytes())?;
    match &verdict.effect.destination {
        None => write_field(out, b""),
        Some(name) => write_field(out, name.as_bytes()),
    }
}

// Appends the object of a spec, with a sentence, as a line.
fn write_object(
    alloc: Global,
    name: &[u8],
    verdict: &Verdict<'_>,
    sentence: &[u8],
    out: &mut Vec<u8>,
) -> Result<(), AllocError>
    ensures { OnOk result (AddsOne (IsVerdict form.Json name.now) (verdict_of verdict.now)
        out.old.items out.new.items) }
{
    let spec = json::text_of(alloc, verdict.text)?;
    let name = json::text_of(alloc, name)?;
    let destination = json::text_or_none(alloc, destination_in(verdict.effect))?;
    let message = json::text_of(alloc, sentence)?;
    let object = refspec_json::Fate {
        spec: spec.as_str(),
        name: name.as_str(),
        destination: destination.as_deref(),
        fate: word_of(verdict.effect.fate),
        message: message.as_str(),
    };
    object.write_line(alloc, out)
}

// The destination of an effect, if there is one.
fn destination_in(effect: &Effect) -> Option<&[u8]>
    ensures { option_map (λ d. d.now) result ≡ (effect_of effect.now).destination }
{
    match &effect.destination {
        None => None,
        Some(name) => Some(name.as_bytes()),
    }
}

// What becomes of the ref, in a word.
pub(crate) fn word_of(fate: Fate) -> &'static str
    ensures { result.now ≡ fate_word fate }
{
    match fate {
        Fate::Unmatched(mismatch) => mismatch_word_of(mismatch),
        Fate::Excludes(_) => "excludes",
        Fate::Excluded(_) => "excluded",
        Fate::InvalidName => "invalid_name",
        Fate::InvalidDestination => "invalid_destination",
        Fate::Duplicate(_) => "duplicate",
        Fate::InConflict(_) => "conflict",
        Fate::DirectoryConflict(_) => "directory_conflict",
        Fate::Written => "fetched",
    }
}

// Why a source doesn't match, in a word.
pub(crate) fn mismatch_word_of(mismatch: Mismatch) -> &'static str
    ensures { result.now ≡ mismatch_word mismatch }
{
    match mismatch {
        Mismatch::NoSource => "no_source",
        Mismatch::Prefix(_) => "prefix",
        Mismatch::Suffix(_) => "suffix",
        Mismatch::Overlap => "overlap",
        Mismatch::OtherName => "other_name",
        Mismatch::Object => "object",
        Mismatch::NoCandidate => "no_candidate",
        Mismatch::EarlierCandidate(_) => "earlier_candidate",
    }
}

// Reports that the ref isn't fetched, and what to do.
fn report_lack(
    alloc: Global,
    question: &Question<'_, '_, '_>,
    holder: Holder<'_>,
    answer: &Answer,
    report: &mut Report,
) -> Result<(), AllocError>
    ensures { OnOk result (KeepsReport report.old report.new) }
{
    let lack = advice_on(alloc, question, holder, answer)?;
    write_lack(alloc, question.name, &lack, report)
}

// Reports that the ref of this name isn't fetched, and what to do.
pub(crate) fn write_lack(
    alloc: Global,
    name: &[u8],
    lack: &Lack,
    report: &mut Report,
) -> Result<(), AllocError>
    ensures { OnOk result (KeepsReport report.old report.new) }
{
    match report.form {
        Form::Json => {
            let name = json::text_of(alloc, name)?;
            let advice = json::text_of(alloc, lack.advice.as_slice())?;
            let object = refspec_json::NotFetched {
                name: name.as_str(),
                message: lack.message,
                advice: advice.as_str(),
            };
            object.write_line(alloc, &mut report.results)
        }
        Form::Lines | Form::Zeros => {
            let out = &mut report.messages;
            write_in_message(out, name)?;
            out.extend_from_slice(b": ")?;
            out.extend_from_slice(lack.message.as_bytes())?;
            out.extend_from_slice(b"\n    ")?;
            out.extend_from_slice(lack.advice.as_slice())?;
            Ok(out.push(b'\n')?)
        }
    }
}
