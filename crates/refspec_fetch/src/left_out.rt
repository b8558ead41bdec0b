//! The report of the updates that a plan leaves out, and of those that are overruled.

ghost use Rattle.std.specs.Prelude.{◌≡◌, ◌∷◌, ◌++◌, [], List, map, OnOk, ℕ};
ghost use Rattle.refspec_io.specs.Json.{AddsObjects};
ghost use Rattle.refspec_io.specs.Rows.{source_text};
ghost use Rattle.refspec_io.specs.Shown.{Grows};
ghost use Rattle.refspec_fetch.specs.LeftOut.{IsLeftOutLine, IsLeftOutOf, IsOverruledLine, IsOverruledOf, side_name};
ghost use Rattle.gix_refspec_plan.specs.Views.Plan.{planned_of};
ghost use Rattle.refspec_fetch.specs.Verdicts.{left_out_of, overruled_of, unwritable};

use crate::origins::{SpecTexts, note_of, origin_name};
use crate::updates::{destination_of, destination_or};
use gix_refspec::match_group::ref_names::InvalidSide;
use gix_refspec::name;
use gix_refspec_plan::{Update, Verdict};
use refspec_io::call::{Form, Limit};
use refspec_io::counts::Tally;
use refspec_io::fields::source_of;
use refspec_io::json;
use refspec_io::quote::write_in_message;
use refspec_io::report::Report;
use std::alloc::{AllocError, Global};

/// An update that isn't written, with the bytes of its source and of the text of its spec.
#[derive(Clone, Copy)]
pub struct Unwritten<'a, 'i> {
    pub update: &'a Update<'i>,
    pub source: &'a [u8],
    pub spec: &'a [u8],
}

/// Reports the updates that are left out: all in JSON, else those within a limit, and how many more there are.
pub fn report_left_out(
    alloc: Global,
    updates: &[Update<'_>],
    texts: &SpecTexts,
    limit: Limit,
    report: &mut Report,
) -> Result<(), AllocError>
    ensures form { OnOk result (report.new.form ≡ report.old.form) }
    ensures said { OnOk result (Grows report.old.messages.items report.new.messages.items) }
    ensures reported { OnOk result (AddsObjects report.old.form (IsLeftOutOf texts.now)
        (left_out_of (map planned_of updates.now)) report.old.results.items report.new.results.items) }
{
    let mut tally = Tally::new(limit);
    for update in updates {
        add_left_out(alloc, update, texts, &mut tally, report)?;
    }
    tally.write_more(report.form, "left out: ", &mut report.messages)
}

// Counts an update, if it is left out, and reports it, unless that is beyond the limit.
fn add_left_out(
    alloc: Global,
    update: &Update<'_>,
    texts: &SpecTexts,
    tally: &mut Tally,
    report: &mut Report,
) -> Result<(), AllocError>
    ensures form { OnOk result (report.new.form ≡ report.old.form) }
    ensures said { OnOk result (Grows report.old.messages.items report.new.messages.items) }
    ensures reported { OnOk result (AddsObjects report.old.form (IsLeftOutOf texts.now)
        (left_out_of (planned_of update.now ∷ [])) report.old.results.items report.new.results.items) }
{
    let Verdict::LeftOut(side) = update.verdict else {
        return Ok(());
    };
    if !tally.reports_next(report.form) {
        return Ok(());
    }
    report_one_left_out(alloc, update, side, texts, report)
}

// Reports an update that is left out for an invalid ref name.
fn report_one_left_out(
    alloc: Global,
    update: &Update<'_>,
    side: InvalidSide,
    texts: &SpecTexts,
    report: &mut Report,
) -> Result<(), AllocError>
    ensures form { OnOk result (report.new.form ≡ report.old.form) }
    ensures said { OnOk result (Grows report.old.messages.items report.new.messages.items) }
    ensures reported { OnOk result (AddsObjects report.old.form (IsLeftOutOf texts.now)
        (unwritable side (planned_of update.now) ∷ []) report.old.results.items report.new.results.items) }
{
    let mut buffer = Vec::new(alloc);
    let source = source_of(&update.source, &mut buffer)?;
    let spec = texts.text_of(update.origin);
    let unwritten = Unwritten {
        update,
        source,
        spec,
    };
    match report.form {
        Form::Json => write_left_out_object(alloc, &unwritten, side, &mut report.results),
        Form::Lines | Form::Zeros => write_left_out(&unwritten, side, &mut report.messages),
    }
}

// The name of the side whose ref name is invalid, for the member `side`.
fn side_of(side: InvalidSide) -> &'static str
    ensures { result.now ≡ side_name side }
{
    match side {
        InvalidSide::Source => "source",
        InvalidSide::Destination => "destination",
        InvalidSide::Both => "both",
    }
}

// The invalid ref name; the source if both sides are invalid.
fn wrong_of<'a>(unwritten: &Unwritten<'a, '_>, side: InvalidSide) -> &'a [u8] {
    match side {
        InvalidSide::Source | InvalidSide::Both => unwritten.source,
        InvalidSide::Destination => {
            let none: &[u8] = b"";
            let name = destination_or(unwritten.update, none);
            name
        }
    }
}

// Appends the object of a left out update, as a line.
fn write_left_out_object(
    alloc: Global,
    unwritten: &Unwritten<'_, '_>,
    side: InvalidSide,
    out: &mut Vec<u8>,
) -> Result<(), AllocError>
    requires { unwritten.now.source.now ≡ source_text (planned_of unwritten.now.update.now).source }
    ensures { OnOk result ((line : List ℕ)
        × IsLeftOutLine unwritten.now.spec.now (unwritable side (planned_of unwritten.now.update.now)) line
        × (out.new.items ≡ out.old.items ++ line)) }
{
    let update = unwritten.update;
    let wrong = wrong_of(unwritten, side);
    let message = why_left_out(side, wrong);
    let source = json::text_of(alloc, unwritten.source)?;
    let name = destination_of(update);
    let destination = json::text_or_none(alloc, name)?;
    let spec = json::text_of(alloc, unwritten.spec)?;
    let destination = destination.as_deref();
    let object = refspec_json::LeftOut {
        source: source.as_str(),
        destination,
        spec: spec.as_str(),
        origin: origin_name(update.origin),
        side: side_of(side),
        message,
    };
    object.write_line(alloc, out)
}

// Appends the line on a left out update.
fn write_left_out(
    unwritten: &Unwritten<'_, '_>,
    side: InvalidSide,
    out: &mut Vec<u8>,
) -> Result<(), AllocError>
    ensures { OnOk result (Grows out.old.items out.new.items) }
{
    let wrong = wrong_of(unwritten, side);
    write_update("left out: ", unwritten, out)?;
    write_in_message(out, wrong)?;
    out.extend_from_slice(b" is not a valid ref name. ")?;
    out.extend_from_slice(why_left_out(side, wrong).as_bytes())?;
    Ok(out.push(b'\n')?)
}

// Appends the start of a line on an update: what becomes of it, its sides, and the text of its spec.
pub(crate) fn write_update(
    what: &str,
    unwritten: &Unwritten<'_, '_>,
    out: &mut Vec<u8>,
) -> Result<(), AllocError>
    ensures { OnOk result (Grows out.old.items out.new.items) }
{
    out.extend_from_slice(what.as_bytes())?;
    write_in_message(out, unwritten.source)?;
    write_destination(unwritten.update, out)?;
    out.extend_from_slice(b" (")?;
    write_in_message(out, unwritten.spec)?;
    out.extend_from_slice(note_of(unwritten.update.origin).as_bytes())?;
    out.extend_from_slice(b"): ")
}

// Appends the destination of an update behind an arrow, if it has one.
fn write_destination(update: &Update<'_>, out: &mut Vec<u8>) -> Result<(), AllocError>
    ensures { OnOk result (Grows out.old.items out.new.items) }
{
    let Some(name) = destination_of(update) else {
        return Ok(());
    };
    out.extend_from_slice(b" -> ")?;
    write_in_message(out, name)
}

// Why the name of a side is not a valid ref name.
fn why_left_out(side: InvalidSide, name: &[u8]) -> &'static str {
    match (name::name_partial(bstr::BStr::new(name)), side) {
        (Err(fault), _) => fault.explanation(),
        (Ok(()), InvalidSide::Destination) => "A ref that is written begins with `refs/`.",
        (Ok(()), _) => "A ref is `HEAD`, or its name begins with `refs/`.",
    }
}

const OVERRULED: &str =
    "Another ref is written to it, and Git warns that it usually tracks this one.";

/// Reports the updates that are overruled: all in JSON, else those within a limit, and how many more there are.
pub fn report_overruled(
    alloc: Global,
    updates: &[Update<'_>],
    texts: &SpecTexts,
    limit: Limit,
    report: &mut Report,
) -> Result<(), AllocError>
    ensures form { OnOk result (report.new.form ≡ report.old.form) }
    ensures said { OnOk result (Grows report.old.messages.items report.new.messages.items) }
    ensures reported { OnOk result (AddsObjects report.old.form (IsOverruledOf texts.now)
        (overruled_of (map planned_of updates.now)) report.old.results.items report.new.results.items) }
{
    let mut tally = Tally::new(limit);
    for update in updates {
        add_overruled(alloc, update, texts, &mut tally, report)?;
    }
    tally.write_more(report.form, "overruled: ", &mut report.messages)
}

// Counts an update, if it is overruled, and reports it, unless that is beyond the limit.
fn add_overruled(
    alloc: Global,
    update: &Update<'_>,
    texts: &SpecTexts,
    tally: &mut Tally,
    report: &mut Report,
) -> Result<(), AllocError>
    ensures form { OnOk result (report.new.form ≡ report.old.form) }
    ensures said { OnOk result (Grows report.old.messages.items report.new.messages.items) }
    ensures reported { OnOk result (AddsObjects report.old.form (IsOverruledOf texts.now)
        (overruled_of (planned_of update.now ∷ [])) report.old.results.items report.new.results.items) }
{
    let Verdict::Overruled = update.verdict else {
        return Ok(());
    };
    if !tally.reports_next(report.form) {
        return Ok(());
    }
    report_one_overruled(alloc, update, texts, report)
}

// Reports an update that is overruled.
fn report_one_overruled(
    alloc: Global,
    update: &Update<'_>,
    texts: &SpecTexts,
    report: &mut Report,
) -> Result<(), AllocError>
    ensures form { OnOk result (report.new.form ≡ report.old.form) }
    ensures said { OnOk result (Grows report.old.messages.items report.new.messages.items) }
    ensures reported { OnOk result (AddsObjects report.old.form (IsOverruledOf texts.now)
        (planned_of update.now ∷ []) report.old.results.items report.new.results.items) }
{
    let mut buffer = Vec::new(alloc);
    let source = source_of(&update.source, &mut buffer)?;
    let spec = texts.text_of(update.origin);
    let unwritten = Unwritten {
        update,
        source,
        spec,
    };
    match report.form {
        Form::Json => write_overruled_object(alloc, &unwritten, &mut report.results),
        Form::Lines | Form::Zeros => write_overruled(&unwritten, &mut report.messages),
    }
}

// Appends the line on an overruled update.
fn write_overruled(unwritten: &Unwritten<'_, '_>, out: &mut Vec<u8>) -> Result<(), AllocError>
    ensures { OnOk result (Grows out.old.items out.new.items) }
{
    write_update("overruled: ", unwritten, out)?;
    out.extend_from_slice(OVERRULED.as_bytes())?;
    Ok(out.push(b'\n')?)
}

// Appends the object of an overruled update, as a line.
fn write_overruled_object(
    alloc: Global,
    unwritten: &Unwritten<'_, '_>,
    out: &mut Vec<u8>,
) -> Result<(), AllocError>
    requires { unwritten.now.source.now ≡ source_text (planned_of unwritten.now.update.now).source }
    ensures { OnOk result ((line : List ℕ)
        × IsOverruledLine unwritten.now.spec.now (planned_of unwritten.now.update.now) line
        × (out.new.items ≡ out.old.items ++ line)) }
{
    let update = unwritten.update;
    let source = json::text_of(alloc, unwritten.source)?;
    let name = destination_of(update);
    let destination = json::text_or_none(alloc, name)?;
    let spec = json::text_of(alloc, unwritten.spec)?;
    let destination = destination.as_deref();
    let object = refspec_json::Overruled {
        source: source.as_str(),
        destination,
        spec: spec.as_str(),
        origin: origin_name(update.origin),
        message: OVERRULED,
    };
    object.write_line(alloc, out)
}
