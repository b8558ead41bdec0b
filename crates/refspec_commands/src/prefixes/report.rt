//! The report on what to request from a server.

ghost use Rattle.std.specs.Prelude.{◌≡◌, ◌++◌, ◌∷◌, [], List, codes, map, OnOk, ℕ};
ghost use Rattle.bstr.specs.Owned.{bstring_bytes};
ghost use Rattle.gix_refspec.specs.Views.Spec.{reading_of};
ghost use Rattle.refspec_json.specs.Objects.{all_object, line_of, noted_object};
ghost use Rattle.refspec_io.specs.declared.call.Form.TheVariants as form;
ghost use Rattle.refspec_io.specs.Json.{AddsObjects, json_text};
ghost use Rattle.refspec_commands.specs.declared.prefixes.report.Notation.TheVariants as notation;
ghost use Rattle.refspec_commands.specs.Prefixes.{AddsAll, AddsAnswer, AddsNothing, AddsRequests, AddsTooMany};
ghost use Rattle.refspec_commands.specs.Prefixes.{AddsWhole, IsReasonObject, asked_object, request};

use crate::prefixes::answer::Answer;
use bstr::BString;
use gix_refspec::RefSpecRef;
use refspec_io::call::Form;
use refspec_io::json;
use refspec_io::quote::write_quoted;
use refspec_io::report::Report;
use std::alloc::{AllocError, Global};

/// How a prefix is written in lines and records. JSON has both.
#[derive(Clone, Copy, Debug, PartialEq, Eq)]
pub enum Notation {
    /// As an argument of protocol v2.
    Argument,
    /// As a pattern that matches each name with this prefix.
    Pattern,
}

/// Reports ref prefixes for which a server lists every ref that the specs map; or that all refs must be requested, and
/// which specs are the reason. Fails if memory runs out.
pub fn report_answer(
    alloc: Global,
    notation: Notation,
    answer: &Answer<'_>,
    report: &mut Report,
) -> Result<(), AllocError>
    ensures { OnOk result (AddsAnswer notation answer.now report.old.form
        report.old.results.items report.new.results.items) }
{
    match answer {
        Answer::Nothing => report_nothing(alloc, report),
        Answer::Listed(prefixes) => report_each(alloc, notation, prefixes.as_slice(), report),
        Answer::All(reasons) => report_whole(alloc, notation, reasons.as_slice(), report),
    }
}

// Reports prefixes, in order.
fn report_each(
    alloc: Global,
    notation: Notation,
    prefixes: &[BString],
    report: &mut Report,
) -> Result<(), AllocError>
    ensures { OnOk result (AddsRequests notation report.old.form (map bstring_bytes prefixes.now)
        report.old.results.items report.new.results.items) }
{
    for prefix in prefixes {
        report_prefix(alloc, notation, prefix.as_bytes(), report)?;
    }
    Ok(())
}

// Reports a prefix.
fn report_prefix(
    alloc: Global,
    notation: Notation,
    prefix: &[u8],
    report: &mut Report,
) -> Result<(), AllocError>
    ensures form { OnOk result (report.new.form ≡ report.old.form) }
    ensures reported { OnOk result (AddsRequests notation report.old.form (prefix.now ∷ [])
        report.old.results.items report.new.results.items) }
{
    let mut pattern = Vec::from_slice(alloc, prefix)?;
    pattern.push(b'*')?;
    match report.form {
        Form::Json => write_object(alloc, prefix, pattern.as_slice(), &mut report.results),
        Form::Lines | Form::Zeros => match notation {
            Notation::Pattern => report.write_name(b"", pattern.as_slice()),
            Notation::Argument => report.write_name(b"ref-prefix ", prefix),
        },
    }
}

// Appends the object of a prefix, as a line.
fn write_object(
    alloc: Global,
    prefix: &[u8],
    pattern: &[u8],
    out: &mut Vec<u8>,
) -> Result<(), AllocError>
    requires { pattern.now ≡ request notation.Pattern prefix.now }
    ensures { OnOk result (out.new.items ≡ out.old.items ++ asked_object prefix.now) }
{
    let prefix = json::text_of(alloc, prefix)?;
    let pattern = json::text_of(alloc, pattern)?;
    let object = refspec_json::Prefix {
        prefix: prefix.as_str(),
        pattern: pattern.as_str(),
    };
    object.write_line(alloc, out)
}

const WHY_NOTHING: &str =
    "No spec takes a ref by its name, so no request is needed. An empty one would ask for all refs.";

// Reports that no request is needed.
fn report_nothing(alloc: Global, report: &mut Report) -> Result<(), AllocError>
    ensures { OnOk result (AddsNothing report.old.form
        report.old.results.items report.new.results.items) }
{
    match report.form {
        Form::Lines => report.results.extend_from_slice(b"(nothing)\n")?,
        Form::Zeros => {}
        Form::Json => return write_nothing(alloc, WHY_NOTHING, &mut report.results),
    }
    report.messages.extend_from_slice(WHY_NOTHING.as_bytes())?;
    report.messages.push(b'\n')?;
    Ok(())
}

// Appends the object that says so in a sentence, as a line.
fn write_nothing(alloc: Global, message: &str, out: &mut Vec<u8>) -> Result<(), AllocError>
    ensures { OnOk result (AddsNothing form.Json out.old.items out.new.items) }
{
    refspec_json::Nothing { message }.write_line(alloc, out)
}

// Reports that all refs must be requested, for some specs or for all together.
fn report_whole(
    alloc: Global,
    notation: Notation,
    reasons: &[RefSpecRef<'_>],
    report: &mut Report,
) -> Result<(), AllocError>
    ensures { OnOk result (AddsWhole notation report.old.form (map reading_of reasons.now)
        report.old.results.items report.new.results.items) }
{
    if reasons.is_empty() {
        return report_too_many(alloc, notation, report);
    }
    report_all(alloc, notation, reasons, report)
}

const WHY_ALL_TOGETHER: &str =
    "There are more than 65,535 prefixes, which a server ignores, or one is too long for a packet line. So ask for all refs.";

// Reports that all refs must be requested, as the prefixes of all together can't be sent.
fn report_too_many(alloc: Global, notation: Notation, report: &mut Report) -> Result<(), AllocError>
    ensures { OnOk result (AddsTooMany notation report.old.form
        report.old.results.items report.new.results.items) }
{
    write_all(notation, report)?;
    match report.form {
        Form::Json => write_too_many(alloc, WHY_ALL_TOGETHER, &mut report.results),
        Form::Lines | Form::Zeros => {
            report
                .messages
                .extend_from_slice(WHY_ALL_TOGETHER.as_bytes())?;
            report.messages.push(b'\n')?;
            Ok(())
        }
    }
}

// Appends the object that says so in a sentence, as a line.
fn write_too_many(alloc: Global, message: &str, out: &mut Vec<u8>) -> Result<(), AllocError>
    ensures { OnOk result ((message : List ℕ) ×
        (out.new.items ≡ out.old.items ++ line_of (all_object message))) }
{
    refspec_json::AllTogether { message }.write_line(alloc, out)
}

const WHY_ALL: &str =
    "No safe prefix is known for this spec: its star is outside refs/, or after a ]. So ask for all refs.";

const WHY_PUSH: &str =
    "This push was given without a destination: which refs it writes depends on the local ones. So ask for all refs.";

const WHY_LONG: &str =
    "No prefix of this spec fits into a packet line, of 65,516 bytes. So ask for all refs.";

// The most that fits behind `ref-prefix `.
const LONGEST_PREFIX: usize = 65_505;

// Why a spec has no list that can be sent.
fn why_all(spec: &RefSpecRef<'_>) -> &'static str {
    let Some(side) = spec.remote() else {
        return WHY_PUSH;
    };
    match side.as_bytes().iter().position(|byte| *byte == b'*') {
        Some(before) if before <= LONGEST_PREFIX => WHY_ALL,
        _ => WHY_LONG,
    }
}

// Reports that all refs must be requested, and for which specs.
fn report_all(
    alloc: Global,
    notation: Notation,
    reasons: &[RefSpecRef<'_>],
    report: &mut Report,
) -> Result<(), AllocError>
    ensures { OnOk result (AddsAll notation report.old.form (map reading_of reasons.now)
        report.old.results.items report.new.results.items) }
{
    write_all(notation, report)?;
    for spec in reasons {
        report_reason(alloc, spec, report)?;
    }
    Ok(())
}

// Appends to the results what stands for all refs: the pattern `*`, or else in lines `(all)`, and in records
// the empty prefix. In JSON nothing is appended.
fn write_all(notation: Notation, report: &mut Report) -> Result<(), AllocError>
    ensures form { OnOk result (report.new.form ≡ report.old.form) }
    ensures reported { OnOk result (AddsAll notation report.old.form []
        report.old.results.items report.new.results.items) }
{
    report
        .results
        .extend_from_slice(match (report.form, notation) {
            (Form::Lines, Notation::Pattern) => b"*\n",
            (Form::Lines, Notation::Argument) => b"(all)\n",
            (Form::Zeros, Notation::Pattern) => b"*\0",
            (Form::Zeros, Notation::Argument) => b"\0",
            (Form::Json, _) => b"",
        })
}

// Reports a spec for which all refs must be requested.
fn report_reason(
    alloc: Global,
    spec: &RefSpecRef<'_>,
    report: &mut Report,
) -> Result<(), AllocError>
    ensures form { OnOk result (report.new.form ≡ report.old.form) }
    ensures reported { OnOk result (AddsObjects report.old.form IsReasonObject (reading_of spec.now ∷ [])
        report.old.results.items report.new.results.items) }
{
    let canonical = spec.to_bstring(alloc)?;
    match report.form {
        Form::Json => write_reason(
            alloc,
            canonical.as_bytes(),
            why_all(spec),
            &mut report.results,
        ),
        Form::Lines | Form::Zeros => {
            write_quoted(&mut report.messages, canonical.as_bytes())?;
            report.messages.extend_from_slice(b": ")?;
            report.messages.extend_from_slice(why_all(spec).as_bytes())?;
            report.messages.push(b'\n')?;
            Ok(())
        }
    }
}

// Appends the object of such a spec and a sentence on it, as a line.
fn write_reason(
    alloc: Global,
    spec: &[u8],
    message: &str,
    out: &mut Vec<u8>,
) -> Result<(), AllocError>
    ensures { OnOk result ((message : List ℕ) × (out.new.items ≡
        out.old.items ++ line_of (noted_object (codes "all") (json_text spec.now) message))) }
{
    let shown = json::text_of(alloc, spec)?;
    let object = refspec_json::All {
        spec: shown.as_str(),
        message,
    };
    object.write_line(alloc, out)
}
