//! The report of the updates in a directory conflict: of two destinations one is a directory of the other.

ghost use Rattle.std.specs.Prelude.{◌≡◌, ◌∷◌, ◌++◌, [], List, map, OnOk, ℕ};
ghost use Rattle.refspec_io.specs.Json.{AddsObjects};
ghost use Rattle.refspec_io.specs.Rows.{source_text};
ghost use Rattle.refspec_io.specs.Shown.{Grows};
ghost use Rattle.refspec_fetch.specs.LeftOut.{IsNestedLine, IsNestedOf};
ghost use Rattle.gix_refspec_plan.specs.Views.Plan.{planned_of};
ghost use Rattle.refspec_fetch.specs.Verdicts.{nested_of};

use crate::left_out::{Unwritten, write_update};
use crate::origins::{SpecTexts, origin_name};
use crate::updates::{destination_of, destination_or};
use gix_refspec_plan::directories::nested_names;
use gix_refspec_plan::{Update, Verdict};
use refspec_io::call::{Form, Limit};
use refspec_io::counts::Tally;
use refspec_io::fields::source_of;
use refspec_io::json;
use refspec_io::quote::write_in_message;
use refspec_io::report::Report;
use std::alloc::{AllocError, Global};
use std::collections::BTreeMap;

const NESTED: &str =
    "One of the two names is a directory of the other, so Git writes one of them, and git fetch ends with status 1.";

// The other destination of each update in a directory conflict, and the texts of specs.
#[derive(Drop)]
struct Nestings<'u, 'a> {
    others: BTreeMap<&'u [u8], &'u [u8]>,
    texts: &'a SpecTexts,
}

/// Reports the updates in a directory conflict: all in JSON, else those within a limit, and how many more there are.
pub fn report_nested(
    alloc: Global,
    updates: &[Update<'_>],
    texts: &SpecTexts,
    limit: Limit,
    report: &mut Report,
) -> Result<(), AllocError>
    ensures form { OnOk result (report.new.form ≡ report.old.form) }
    ensures said { OnOk result (Grows report.old.messages.items report.new.messages.items) }
    ensures reported { OnOk result (AddsObjects report.old.form (IsNestedOf texts.now)
        (nested_of (map planned_of updates.now)) report.old.results.items report.new.results.items) }
{
    let nestings = Nestings {
        others: others_of(alloc, updates)?,
        texts,
    };
    let mut tally = Tally::new(limit);
    for update in updates {
        add_nested(alloc, update, &nestings, &mut tally, report)?;
    }
    tally.write_more(report.form, "directory conflict: ", &mut report.messages)
}

// The destinations of updates that would be written, each that is in a directory conflict with another one.
fn others_of<'u>(
    alloc: Global,
    updates: &'u [Update<'_>],
) -> Result<BTreeMap<&'u [u8], &'u [u8]>, AllocError> {
    let mut names = Vec::new(alloc);
    for update in updates {
        if is_to_be_written(update.verdict) {
            if let Some(name) = destination_of(update) {
                names.push(name)?;
            }
        }
    }
    nested_names(alloc, names)
}

// Whether an update with this verdict is written, unless another one is in its way.
fn is_to_be_written(verdict: Verdict) -> bool {
    match verdict {
        Verdict::Written | Verdict::InConflict | Verdict::DirectoryConflict => true,
        Verdict::LeftOut(_) | Verdict::Overruled => false,
    }
}

// The other destination of the conflict that an update is in.
fn other_of<'u>(update: &Update<'_>, others: &BTreeMap<&'u [u8], &'u [u8]>) -> &'u [u8] {
    let none: &[u8] = b"";
    match others.get(destination_or(update, none)) {
        Some(other) => *other,
        None => b"",
    }
}

// Counts an update, if it is in a directory conflict, and reports it, unless that is beyond the limit.
fn add_nested(
    alloc: Global,
    update: &Update<'_>,
    nestings: &Nestings<'_, '_>,
    tally: &mut Tally,
    report: &mut Report,
) -> Result<(), AllocError>
    ensures form { OnOk result (report.new.form ≡ report.old.form) }
    ensures said { OnOk result (Grows report.old.messages.items report.new.messages.items) }
    ensures reported { OnOk result (AddsObjects report.old.form (IsNestedOf nestings.now.texts.now)
        (nested_of (planned_of update.now ∷ [])) report.old.results.items report.new.results.items) }
{
    let Verdict::DirectoryConflict = update.verdict else {
        return Ok(());
    };
    if !tally.reports_next(report.form) {
        return Ok(());
    }
    report_one_nested(alloc, update, nestings, report)
}

// Reports an update in a directory conflict.
fn report_one_nested(
    alloc: Global,
    update: &Update<'_>,
    nestings: &Nestings<'_, '_>,
    report: &mut Report,
) -> Result<(), AllocError>
    ensures form { OnOk result (report.new.form ≡ report.old.form) }
    ensures said { OnOk result (Grows report.old.messages.items report.new.messages.items) }
    ensures reported { OnOk result (AddsObjects report.old.form (IsNestedOf nestings.now.texts.now)
        (planned_of update.now ∷ []) report.old.results.items report.new.results.items) }
{
    let mut buffer = Vec::new(alloc);
    let source = source_of(&update.source, &mut buffer)?;
    let spec = nestings.texts.text_of(update.origin);
    let unwritten = Unwritten {
        update,
        source,
        spec,
    };
    let other = other_of(update, &nestings.others);
    match report.form {
        Form::Json => write_nested_object(alloc, &unwritten, other, &mut report.results),
        Form::Lines | Form::Zeros => write_nested(&unwritten, other, &mut report.messages),
    }
}

// Appends the line on an update in a directory conflict.
fn write_nested(
    unwritten: &Unwritten<'_, '_>,
    other: &[u8],
    out: &mut Vec<u8>,
) -> Result<(), AllocError>
    ensures { OnOk result (Grows out.old.items out.new.items) }
{
    write_update("directory conflict: ", unwritten, out)?;
    write_in_message(out, other)?;
    out.extend_from_slice(b" is written too. ")?;
    out.extend_from_slice(NESTED.as_bytes())?;
    Ok(out.push(b'\n')?)
}

// Appends the object of an update in a directory conflict, as a line.
fn write_nested_object(
    alloc: Global,
    unwritten: &Unwritten<'_, '_>,
    other: &[u8],
    out: &mut Vec<u8>,
) -> Result<(), AllocError>
    requires { unwritten.now.source.now ≡ source_text (planned_of unwritten.now.update.now).source }
    ensures { OnOk result ((line : List ℕ)
        × IsNestedLine unwritten.now.spec.now (planned_of unwritten.now.update.now) line
        × (out.new.items ≡ out.old.items ++ line)) }
{
    let update = unwritten.update;
    let source = json::text_of(alloc, unwritten.source)?;
    let name = destination_of(update);
    let destination = json::text_or_none(alloc, name)?;
    let spec = json::text_of(alloc, unwritten.spec)?;
    let other = json::text_of(alloc, other)?;
    let destination = destination.as_deref();
    let object = refspec_json::DirectoryConflict {
        source: source.as_str(),
        destination,
        spec: spec.as_str(),
        origin: origin_name(update.origin),
        other: other.as_str(),
        message: NESTED,
    };
    object.write_line(alloc, out)
}
