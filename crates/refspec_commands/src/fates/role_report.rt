//! The report on what each spec has to do with a local ref.

ghost use Rattle.std.specs.Prelude.{◌≡◌, [], map, option_map, unwrap_or, OnOk};
ghost use Rattle.std.specs.List.{slice_get};
ghost use Rattle.bstr.specs.Owned.{bstring_bytes};
ghost use Rattle.refspec_io.specs.declared.call.Form.TheVariants as form;
ghost use Rattle.refspec_commands.specs.Each.{AddsEach, AddsOne};
ghost use Rattle.refspec_commands.specs.Locals.{AddsLocalAnswer, IsPart, names_of, part_at, parts_from, role_source, role_word};
ghost use Rattle.refspec_commands.specs.LocalViews.{part_of};

use crate::fates::question::{Holder, Question};
use crate::fates::report::{layout_of, mismatch_word_of, word_of, write_lack};
use crate::fates::role_advice::local_advice_on;
use crate::fates::roles::{LocalAnswer, Role, Source};
use crate::fates::sentences::{Names, role_sentence};
use refspec_io::call::Form;
use refspec_io::canonical::text_at;
use refspec_io::fields::write_field;
use refspec_io::json;
use refspec_io::report::Report;
use refspec_io::table::Layout;
use std::alloc::{AllocError, Global};

/// Reports what each spec has to do with a local ref, in order; and if it isn't written, why, and what to do. Fails if
/// memory runs out.
pub fn report_local_answer(
    alloc: Global,
    question: &Question<'_, '_, '_>,
    holder: Holder<'_>,
    answer: &LocalAnswer,
    report: &mut Report,
) -> Result<(), AllocError>
    ensures { OnOk result (AddsLocalAnswer report.old.form question.now.name.now answer.now
        report.old.results.items report.new.results.items) }
{
    let names = Names {
        question,
        texts: answer.texts.as_slice(),
    };
    let layout = layout_of(alloc, report.form, &names)?;
    let parts = Parts {
        names,
        sources: answer.sources.as_slice(),
        layout: &layout,
    };
    report_parts(alloc, &parts, answer.roles.as_slice(), report)?;
    if answer.is_written(question.name) {
        return Ok(());
    }
    let lack = local_advice_on(alloc, question, holder, answer)?;
    write_lack(alloc, question.name, &lack, report)
}

// A question about a local ref, its answer, and what is shown of that.
#[derive(Clone, Copy, Debug)]
struct Parts<'r, 'q, 'spec, 'item> {
    names: Names<'r, 'q, 'spec, 'item>,
    sources: &'r [Source],
    layout: &'r Layout,
}

// Reports what each spec has to do with the ref.
fn report_parts(
    alloc: Global,
    parts: &Parts<'_, '_, '_, '_>,
    roles: &[Role],
    report: &mut Report,
) -> Result<(), AllocError>
    ensures form { OnOk result (report.new.form ≡ report.old.form) }
    ensures reported { OnOk result (AddsEach (IsPart report.old.form parts.now.names.question.now.name.now)
        (parts_from 0 (map bstring_bytes parts.now.names.texts.now) (names_of parts.now.sources.now) roles.now)
        report.old.results.items report.new.results.items) }
{
    for (index, role) in roles.iter().enumerate() {
        report_role(alloc, parts, index, role, report)?;
    }
    Ok(())
}

// Reports what the spec at an index has to do with the ref.
fn report_role(
    alloc: Global,
    parts: &Parts<'_, '_, '_, '_>,
    index: usize,
    role: &Role,
    report: &mut Report,
) -> Result<(), AllocError>
    ensures form { OnOk result (report.new.form ≡ report.old.form) }
    ensures reported { OnOk result (AddsOne (IsPart report.old.form parts.now.names.question.now.name.now)
        (part_at index (map bstring_bytes parts.now.names.texts.now) (names_of parts.now.sources.now) role.now)
        report.old.results.items report.new.results.items) }
{
    let sentence = role_sentence(alloc, &parts.names, parts.sources, index, *role)?;
    let part = Part {
        text: text_at(parts.names.texts, index),
        source: source_in(parts.sources, *role),
        word: word_on(*role),
        sentence: sentence.as_slice(),
    };
    report_part(
        alloc,
        parts.names.question.name,
        parts.layout,
        &part,
        report,
    )
}

// What a spec has to do with the ref.
#[derive(Clone, Copy, Debug)]
struct Part<'r> {
    // The canonical text of the spec.
    text: &'r [u8],
    // The ref of the remote that it maps to the ref.
    source: Option<&'r [u8]>,
    // What becomes of that, in a word and in a sentence.
    word: &'static str,
    sentence: &'r [u8],
}

// The ref of the remote that a spec with this role maps to the local ref.
fn source_in(sources: &[Source], role: Role) -> Option<&[u8]>
    ensures { option_map (λ s. s.now) result ≡ role_source (names_of sources.now) role }
{
    match role {
        Role::NoDestination | Role::Unmatched(_) | Role::Object => None,
        Role::Missing(index) => name_at(sources, index),
        Role::Mapped(mapped) => name_at(sources, mapped.source),
    }
}

// The name of the source at an index.
fn name_at(sources: &[Source], index: usize) -> Option<&[u8]>
    ensures { option_map (λ s. s.now) result ≡ slice_get (names_of sources.now) index }
{
    match sources.get(index) {
        None => None,
        Some(source) => Some(source.name.as_bytes()),
    }
}

// What becomes of the ref by a spec with this role, in a word.
fn word_on(role: Role) -> &'static str
    ensures { result.now ≡ role_word role }
{
    match role {
        Role::NoDestination => "no_destination",
        Role::Unmatched(mismatch) => mismatch_word_of(mismatch),
        Role::Object => "object",
        Role::Missing(_) => "missing",
        Role::Mapped(mapped) => word_of(mapped.fate),
    }
}

// Reports what a spec has to do with the ref of this name.
fn report_part(
    alloc: Global,
    name: &[u8],
    layout: &Layout,
    part: &Part<'_>,
    report: &mut Report,
) -> Result<(), AllocError>
    ensures form { OnOk result (report.new.form ≡ report.old.form) }
    ensures reported { OnOk result (AddsOne (IsPart report.old.form name.now) (part_of part.now)
        report.old.results.items report.new.results.items) }
{
    match report.form {
        Form::Zeros => write_record(part, &mut report.results),
        Form::Lines => write_line(alloc, layout, part, &mut report.results),
        Form::Json => write_object(alloc, name, part, &mut report.results),
    }
}

// Appends the line of a spec: its text as a cell, and a sentence.
fn write_line(
    alloc: Global,
    layout: &Layout,
    part: &Part<'_>,
    out: &mut Vec<u8>,
) -> Result<(), AllocError>
    ensures { OnOk result (AddsOne (IsPart form.Lines []) (part_of part.now) out.old.items out.new.items) }
{
    layout.write_cell(alloc, out, part.text, layout.first)?;
    out.extend_from_slice(part.sentence)?;
    Ok(out.push(b'\n')?)
}

// Appends the record of a spec: its text, the word, and the source.
fn write_record(part: &Part<'_>, out: &mut Vec<u8>) -> Result<(), AllocError>
    ensures { OnOk result (AddsOne (IsPart form.Zeros []) (part_of part.now) out.old.items out.new.items) }
{
    write_field(out, part.text)?;
    write_field(out, part.word.as_bytes())?;
    match part.source {
        None => write_field(out, b""),
        Some(source) => write_field(out, source),
    }
}

// Appends the object of a spec, with a sentence, as a line.
fn write_object(
    alloc: Global,
    name: &[u8],
    part: &Part<'_>,
    out: &mut Vec<u8>,
) -> Result<(), AllocError>
    ensures { OnOk result (AddsOne (IsPart form.Json name.now) (part_of part.now) out.old.items out.new.items) }
{
    let spec = json::text_of(alloc, part.text)?;
    let remote = json::text_of(alloc, remote_name(name, part.source))?;
    let destination = json::text_or_none(alloc, destination_of(name, part.source))?;
    let message = json::text_of(alloc, part.sentence)?;
    let object = refspec_json::Fate {
        spec: spec.as_str(),
        name: remote.as_str(),
        destination: destination.as_deref(),
        fate: part.word,
        message: message.as_str(),
    };
    object.write_line(alloc, out)
}

// The name that an object is about: that of the source, or the local one.
fn remote_name<'a>(name: &'a [u8], source: Option<&'a [u8]>) -> &'a [u8]
    ensures { result.now ≡ unwrap_or (option_map (λ s. s.now) source.entry) name.now }
{
    match source {
        None => name,
        Some(source) => source,
    }
}

// The destination of a source, if there is one.
fn destination_of<'a>(name: &'a [u8], source: Option<&[u8]>) -> Option<&'a [u8]>
    ensures { option_map (λ d. d.now) result ≡ option_map (λ s. name.now) (option_map (λ s. s.now) source.entry) }
{
    match source {
        None => None,
        Some(_) => Some(name),
    }
}
