//! The updates of a plan, grouped below their specs.

ghost use Rattle.std.specs.Prelude.{◌≡◌, ◌≢◌, ◌∷◌, [], Some, map, MatchBool, OnOk};
ghost use Rattle.gix_refspec_plan.specs.Views.Plan.{planned_of};
ghost use Rattle.refspec_fetch.specs.Groups.{AddsBelow, AddsGrouped, AddsShort, WritesBelow, WritesShort};
ghost use Rattle.refspec_fetch.specs.Verdicts.{written_of};

use crate::origins::SpecTexts;
use crate::updates::{destination_or, is_written, write_heading};
use gix_refspec_plan::{Origin, Update};
use refspec_io::fields::{NO_DESTINATION, write_source_cell};
use refspec_io::table::Layout;
use std::alloc::{AllocError, Global};

/// Appends the updates that are written, each in a line.
pub fn write_rows(
    alloc: Global,
    layout: &Layout,
    updates: &[Update<'_>],
    out: &mut Vec<u8>,
) -> Result<(), AllocError>
    ensures { OnOk result (AddsShort (written_of (map planned_of updates.now)) out.old.items out.new.items) }
{
    for update in updates {
        add_short(alloc, layout, update, out)?;
    }
    Ok(())
}

/// How the lines of updates are laid out, and the texts of their specs.
#[derive(Clone, Copy)]
pub struct Table<'a> {
    pub layout: &'a Layout,
    pub texts: &'a SpecTexts,
}

// Appends an update as a line, if it is written.
fn add_short(
    alloc: Global,
    layout: &Layout,
    update: &Update<'_>,
    out: &mut Vec<u8>,
) -> Result<(), AllocError>
    ensures { OnOk result (AddsShort (written_of (planned_of update.now ∷ [])) out.old.items out.new.items) }
{
    if !is_written(update.verdict) {
        return Ok(());
    }
    write_short(alloc, layout, update, out)
}

/// Appends the updates that are written, each in a line, and the text of a spec in a line wherever the spec changes.
pub fn write_grouped(
    alloc: Global,
    table: &Table<'_>,
    updates: &[Update<'_>],
    out: &mut Vec<u8>,
) -> Result<(), AllocError>
    ensures { OnOk result (AddsGrouped table.now.texts.now (written_of (map planned_of updates.now))
        out.old.items out.new.items) }
{
    let mut before: Option<Origin> = None;
    for update in updates {
        add_below(alloc, table, &mut before, update, out)?;
    }
    Ok(())
}

// Appends an update as a line, if it is written, behind the text of its spec if that changes. It becomes the previous one.
fn add_below(
    alloc: Global,
    table: &Table<'_>,
    before: &mut Option<Origin>,
    update: &Update<'_>,
    out: &mut Vec<u8>,
) -> Result<(), AllocError>
    ensures { OnOk result (AddsBelow table.now.texts.now (planned_of update.now) before.old before.new
        out.old.items out.new.items) }
{
    if !is_written(update.verdict) {
        return Ok(());
    }
    write_below(alloc, table, *before, update, out)?;
    *before = Some(update.origin);
    Ok(())
}

// Appends an update as a line, behind the text of its spec if the previous update is by another.
fn write_below(
    alloc: Global,
    table: &Table<'_>,
    before: Option<Origin>,
    update: &Update<'_>,
    out: &mut Vec<u8>,
) -> Result<(), AllocError>
    ensures { OnOk result (WritesBelow table.now.texts.now before (planned_of update.now) out.old.items out.new.items) }
{
    if !has_origin(before, update.origin) {
        let text = table.texts.text_of(update.origin);
        write_heading(table.layout, text, update.origin, out)?;
    }
    out.extend_from_slice(b"  ")?;
    write_short(alloc, table.layout, update, out)
}

// Whether the previous update is by the spec of this origin.
fn has_origin(before: Option<Origin>, origin: Origin) -> bool
    ensures { MatchBool result (before ≡ Some origin) (before ≢ Some origin) }
{
    match before {
        None => false,
        Some(other) => other == origin,
    }
}

// Appends an update as a line, without its spec.
fn write_short(
    alloc: Global,
    layout: &Layout,
    update: &Update<'_>,
    out: &mut Vec<u8>,
) -> Result<(), AllocError>
    ensures { OnOk result (WritesShort (planned_of update.now) out.old.items out.new.items) }
{
    write_source_cell(alloc, layout, &update.source, layout.first, out)?;
    let destination = destination_or(update, NO_DESTINATION);
    layout.write_field(out, destination)?;
    Ok(out.push(b'\n')?)
}
