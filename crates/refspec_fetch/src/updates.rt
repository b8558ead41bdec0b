//! The updates that a plan writes, as results: a table, records or JSON objects.

ghost use Rattle.std.specs.Prelude.{◌≡◌, ◌++◌, ◌∷◌, [], map, option_map, unwrap_or, OnOk};
ghost use Rattle.std.specs.List.{flat_map};
ghost use Rattle.gix_refspec_plan.specs.Views.Plan.{planned_of};
ghost use Rattle.refspec_fetch.specs.Report.{AddsLongOrGroups, AddsUpdates};
ghost use Rattle.refspec_fetch.specs.Updates.{AddsUpdateLines, WritesHeading, WritesUpdateLine, fields_with, object_with, update_fields, update_object};
ghost use Rattle.refspec_fetch.specs.Verdicts.{is_written, written_of};

use crate::groups::{Table, write_grouped, write_rows};
use crate::origins::{SpecTexts, note_of, origin_name};
use crate::report::Style;
use gix_refspec_plan::{Origin, Update, Verdict};
use refspec_io::call::Form;
use refspec_io::fields::{
    NO_DESTINATION, source_of, write_field, write_source_cell, write_source_field,
};
use refspec_io::json;
use refspec_io::report::Report;
use refspec_io::table::Layout;
use std::alloc::{AllocError, Global};

/// Reports the updates that are written, in order: in lines grouped below their specs, unless the style is long.
pub fn report_updates(
    alloc: Global,
    updates: &[Update<'_>],
    texts: &SpecTexts,
    style: &Style<'_>,
    report: &mut Report,
) -> Result<(), AllocError>
    ensures form { OnOk result (report.new.form ≡ report.old.form) }
    ensures no_message { OnOk result (report.new.messages ≡ report.old.messages) }
    ensures reported { OnOk result (AddsUpdates style.now.long report.old.form texts.now
        (written_of (map planned_of updates.now)) report.old.results.items report.new.results.items) }
{
    match report.form {
        Form::Lines => write_lines(alloc, updates, texts, style, &mut report.results),
        Form::Zeros => write_records(updates, texts, &mut report.results),
        Form::Json => write_objects(alloc, updates, texts, &mut report.results),
    }
}

/// Whether an update with this verdict is written.
pub fn is_written(verdict: Verdict) -> bool
    ensures { result ≡ is_written verdict }
{
    match verdict {
        Verdict::Written => true,
        Verdict::LeftOut(_) => false,
        Verdict::InConflict => false,
        Verdict::Overruled => false,
        Verdict::DirectoryConflict => false,
    }
}

// Appends the updates that are written, in lines.
fn write_lines(
    alloc: Global,
    updates: &[Update<'_>],
    texts: &SpecTexts,
    style: &Style<'_>,
    out: &mut Vec<u8>,
) -> Result<(), AllocError>
    ensures { OnOk result (AddsLongOrGroups style.now.long texts.now (written_of (map planned_of updates.now))
        out.old.items out.new.items) }
{
    let layout = layout_of(alloc, updates, texts)?;
    out.reserve(layout.room(updates.len()))?;
    if style.long {
        return write_table(alloc, &layout, updates, texts, out);
    }
    if texts.is_alone {
        return write_rows(alloc, &layout, updates, out);
    }
    let table = Table {
        layout: &layout,
        texts,
    };
    write_grouped(alloc, &table, updates, out)
}

// Measures the layout of a table of updates. Its last column is as wide as the longest text
// with what is said behind it.
fn layout_of(
    alloc: Global,
    updates: &[Update<'_>],
    texts: &SpecTexts,
) -> Result<Layout, AllocError> {
    let mut layout = Layout::new();
    let mut buffer = Vec::new(alloc);
    let mut before: Option<Origin> = None;
    for update in updates {
        if !is_written(update.verdict) {
            continue;
        }
        let shown = source_of(&update.source, &mut buffer)?;
        let source = layout.width_of(alloc, shown)?;
        let name = destination_or(update, NO_DESTINATION);
        let destination = layout.width_of(alloc, name)?;
        layout.first = layout.first.max(source);
        layout.second = layout.second.max(destination);
        if before != Some(update.origin) {
            let text = texts.text_of(update.origin);
            let text = layout.width_of(alloc, text)?;
            let width = text.saturating_add(note_of(update.origin).len());
            layout.last = layout.last.max(width);
            before = Some(update.origin);
        }
    }
    Ok(layout)
}

/// The bytes of the destination of an update, or `none` if it is missing.
pub fn destination_or<'a>(update: &'a Update<'_>, none: &'a [u8]) -> &'a [u8]
    ensures { result.now ≡ unwrap_or (planned_of update.now).destination none.now }
{
    match &update.destination {
        Some(name) => name.as_bytes(),
        None => none,
    }
}

/// The bytes of the destination of an update, if there is one.
pub fn destination_of<'a>(update: &'a Update<'_>) -> Option<&'a [u8]>
    ensures { option_map (λ b. b.now) result ≡ (planned_of update.now).destination }
{
    match &update.destination {
        Some(name) => Some(name.as_bytes()),
        None => None,
    }
}

// Appends the updates that are written as an aligned table.
fn write_table(
    alloc: Global,
    layout: &Layout,
    updates: &[Update<'_>],
    texts: &SpecTexts,
    out: &mut Vec<u8>,
) -> Result<(), AllocError>
    ensures { OnOk result (AddsUpdateLines texts.now (written_of (map planned_of updates.now))
        out.old.items out.new.items) }
{
    for update in updates {
        add_row(alloc, layout, update, texts, out)?;
    }
    Ok(())
}

// Appends an update as a row of the table, if it is written.
fn add_row(
    alloc: Global,
    layout: &Layout,
    update: &Update<'_>,
    texts: &SpecTexts,
    out: &mut Vec<u8>,
) -> Result<(), AllocError>
    ensures { OnOk result (AddsUpdateLines texts.now (written_of (planned_of update.now ∷ []))
        out.old.items out.new.items) }
{
    if !is_written(update.verdict) {
        return Ok(());
    }
    let text = texts.text_of(update.origin);
    write_row(alloc, layout, update, text, out)
}

// Appends an update as a row of the table.
fn write_row(
    alloc: Global,
    layout: &Layout,
    update: &Update<'_>,
    text: &[u8],
    out: &mut Vec<u8>,
) -> Result<(), AllocError>
    ensures { OnOk result (WritesUpdateLine text.now (planned_of update.now) out.old.items out.new.items) }
{
    write_source_cell(alloc, layout, &update.source, layout.first, out)?;
    let destination = destination_or(update, NO_DESTINATION);
    layout.write_cell(alloc, out, destination, layout.second)?;
    write_heading(layout, text, update.origin, out)
}

/// Appends the text of a spec and what is said behind it, as the end of a line.
pub fn write_heading(
    layout: &Layout,
    text: &[u8],
    origin: Origin,
    out: &mut Vec<u8>,
) -> Result<(), AllocError>
    ensures { OnOk result (WritesHeading text.now origin out.old.items out.new.items) }
{
    layout.write_field(out, text)?;
    out.extend_from_slice(note_of(origin).as_bytes())?;
    Ok(out.push(b'\n')?)
}

// Appends the updates that are written as records of four fields. A missing destination is an empty field.
fn write_records(
    updates: &[Update<'_>],
    texts: &SpecTexts,
    out: &mut Vec<u8>,
) -> Result<(), AllocError>
    ensures { OnOk result (out.new.items ≡ out.old.items
        ++ flat_map (update_fields texts.now) (written_of (map planned_of updates.now))) }
{
    for update in updates {
        add_fields(update, texts, out)?;
    }
    Ok(())
}

// Appends the four fields of an update, if it is written.
fn add_fields(update: &Update<'_>, texts: &SpecTexts, out: &mut Vec<u8>) -> Result<(), AllocError>
    ensures { OnOk result (out.new.items ≡ out.old.items
        ++ flat_map (update_fields texts.now) (written_of (planned_of update.now ∷ []))) }
{
    if !is_written(update.verdict) {
        return Ok(());
    }
    let text = texts.text_of(update.origin);
    write_fields(update, text, out)
}

// Appends the four fields of an update.
fn write_fields(update: &Update<'_>, text: &[u8], out: &mut Vec<u8>) -> Result<(), AllocError>
    ensures { OnOk result (out.new.items ≡ out.old.items ++ fields_with text.now (planned_of update.now)) }
{
    write_source_field(out, &update.source)?;
    let destination = destination_or(update, b"");
    write_field(out, destination)?;
    write_field(out, text)?;
    write_field(out, origin_name(update.origin).as_bytes())
}

// Appends the updates that are written, each as an object in a line.
fn write_objects(
    alloc: Global,
    updates: &[Update<'_>],
    texts: &SpecTexts,
    out: &mut Vec<u8>,
) -> Result<(), AllocError>
    ensures { OnOk result (out.new.items ≡ out.old.items
        ++ flat_map (update_object texts.now) (written_of (map planned_of updates.now))) }
{
    for update in updates {
        add_object(alloc, update, texts, out)?;
    }
    Ok(())
}

// Appends the object of an update, if it is written.
fn add_object(
    alloc: Global,
    update: &Update<'_>,
    texts: &SpecTexts,
    out: &mut Vec<u8>,
) -> Result<(), AllocError>
    ensures { OnOk result (out.new.items ≡ out.old.items
        ++ flat_map (update_object texts.now) (written_of (planned_of update.now ∷ []))) }
{
    if !is_written(update.verdict) {
        return Ok(());
    }
    let text = texts.text_of(update.origin);
    write_object(alloc, update, text, out)
}

// Appends the object of an update, as a line.
fn write_object(
    alloc: Global,
    update: &Update<'_>,
    text: &[u8],
    out: &mut Vec<u8>,
) -> Result<(), AllocError>
    ensures { OnOk result (out.new.items ≡ out.old.items ++ object_with text.now (planned_of update.now)) }
{
    let mut buffer = Vec::new(alloc);
    let source = json::text_of(alloc, source_of(&update.source, &mut buffer)?)?;
    let name = destination_of(update);
    let destination = json::text_or_none(alloc, name)?;
    let spec = json::text_of(alloc, text)?;
    let destination = destination.as_deref();
    let object = refspec_json::Mapping {
        source: source.as_str(),
        destination,
        spec: spec.as_str(),
        origin: Some(origin_name(update.origin)),
    };
    object.write_line(alloc, out)
}
