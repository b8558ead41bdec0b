//! The report on upstreams, for a call that names branches or none.

ghost use Rattle.std.specs.Prelude.{◌≡◌, ◌++◌, [], Some, OnOk, option_map, unwrap_or};
ghost use Rattle.bstr.specs.Owned.{bstring_bytes};
ghost use Rattle.refspec_io.specs.Rows.{WritesLine, fields};
ghost use Rattle.refspec_io.specs.declared.call.Form.TheVariants as form;
ghost use Rattle.refspec_commands.specs.Each.{AddsOne};
ghost use Rattle.refspec_commands.specs.Upstreams.{AddsAnswer, IsReported, IsRow, row_of};
ghost use Rattle.refspec_commands.specs.UpstreamViews.{IsLackOf, IsOtherOf, tracking_of};

use crate::upstreams::advice::{Lack, Why, advice_on};
use crate::upstreams::answer::{Answer, Found};
use crate::upstreams::question::Setup;
use gix_refspec_remote::Upstream;
use refspec_io::call::Form;
use refspec_io::fields::write_field;
use refspec_io::json;
use refspec_io::quote::{write_in_message, write_quoted};
use refspec_io::report::Report;
use refspec_io::table::Layout;
use std::alloc::{AllocError, Global};

/// Reports the upstream of each branch, with the spec that stores it, or none if it is the merged ref itself; and
/// for each branch without one why, and what would give it one. Fails if memory runs out.
pub fn report_answer(
    alloc: Global,
    answer: &Answer<'_, '_>,
    report: &mut Report,
) -> Result<(), AllocError>
    ensures { OnOk result (AddsAnswer report.old.form answer.now.found.items
        report.old.results.items report.new.results.items) }
{
    let columns = columns_of(alloc, report.form, answer.found.as_slice())?;
    for found in &answer.found {
        report_found(alloc, &columns, found, report)?;
    }
    Ok(())
}

// An upstream, as a row.
#[derive(Clone, Copy, Debug)]
struct Row<'r> {
    branch: Option<&'r [u8]>,
    name: &'r [u8],
    merged: &'r [u8],
    // The canonical text of the spec, if one stores the ref.
    text: Option<&'r [u8]>,
}

impl<'r> Row<'r> {
    // The text of the spec; empty without one.
    fn text(&self) -> &'r [u8]
        ensures { result.now ≡ unwrap_or (option_map (λ t. t.now) self.now.text) [] }
    {
        match self.text {
            None => b"",
            Some(text) => text,
        }
    }
}

// The columns of a table.
#[derive(Clone, Copy, Debug)]
struct Columns {
    // The width of the widest name of a branch.
    branch: usize,
    rest: Layout,
}

impl Columns {
    // Makes room for a row.
    fn add(&mut self, alloc: Global, row: &Row<'_>) -> Result<(), AllocError> {
        let layout = &mut self.rest;
        if let Some(branch) = row.branch {
            self.branch = self.branch.max(layout.width_of(alloc, branch)?);
        }
        let name = layout.width_of(alloc, row.name)?;
        let merged = layout.width_of(alloc, row.merged)?;
        let text = layout.width_of(alloc, row.text())?;
        layout.first = layout.first.max(name);
        layout.second = layout.second.max(merged);
        layout.last = layout.last.max(text);
        Ok(())
    }
}

// Measures the columns of a table; all are empty in another form.
fn columns_of(alloc: Global, form: Form, found: &[Found<'_, '_>]) -> Result<Columns, AllocError> {
    let mut columns = Columns {
        branch: 0,
        rest: Layout::new(),
    };
    if form != Form::Lines {
        return Ok(columns);
    }
    for one in found {
        if let Some(row) = row_for(one) {
            columns.add(alloc, &row)?;
        }
    }
    Ok(columns)
}

// The row of a branch with an upstream.
fn row_for<'r>(found: &'r Found<'_, '_>) -> Option<Row<'r>> {
    match (&found.upstream, found.merged.setup) {
        (Upstream::Tracked { name, .. }, _) => {
            Some(tracked_row(found, name.as_bstr().as_bytes()))
        }
        (_, Setup::Here(name)) => Some(Row {
            branch: found.merged.branch,
            name,
            merged: found.merged.name,
            text: None,
        }),
        _ => None,
    }
}

// The row of a branch whose merged ref a spec stores in the ref of this name.
fn tracked_row<'r>(found: &'r Found<'_, '_>, name: &'r [u8]) -> Row<'r>
    ensures { tracking_of result ≡ record {
      branch = option_map (λ n. n.now) found.now.merged.branch;
      name = name.now;
      merged = found.now.merged.name.now;
      text = Some (bstring_bytes found.now.text);
    } }
{
    let text = found.text.as_bytes();
    Row {
        branch: found.merged.branch,
        name,
        merged: found.merged.name,
        text: Some(text),
    }
}

// Reports an upstream, or why there is none.
fn report_found(
    alloc: Global,
    columns: &Columns,
    found: &Found<'_, '_>,
    report: &mut Report,
) -> Result<(), AllocError>
    ensures form { OnOk result (report.new.form ≡ report.old.form) }
    ensures reported { OnOk result (AddsOne (IsReported report.old.form) found.now
        report.old.results.items report.new.results.items) }
{
    let merged = &found.merged;
    let text = found.text.as_bytes();
    match &found.upstream {
        Upstream::Tracked { name, .. } => {
            let row = tracked_row(found, name.as_bstr().as_bytes());
            write_row(alloc, report.form, columns, &row, &mut report.results)
        }
        Upstream::Excluded { .. } => {
            let lack = Lack {
                merged,
                spec: Some(text),
                why: Why::Excluded,
            };
            report_other(alloc, columns, &lack, report)
        }
        Upstream::NotStored { .. } => {
            let lack = Lack {
                merged,
                spec: Some(text),
                why: Why::NotStored,
            };
            report_other(alloc, columns, &lack, report)
        }
        Upstream::NotFetched => {
            let lack = Lack {
                merged,
                spec: None,
                why: Why::NotFetched,
            };
            report_other(alloc, columns, &lack, report)
        }
    }
}

// Reports the merged ref itself as the upstream, if the branch merges from this repository; else that there is none.
fn report_other(
    alloc: Global,
    columns: &Columns,
    lack: &Lack<'_, '_, '_>,
    report: &mut Report,
) -> Result<(), AllocError>
    ensures form { OnOk result (report.new.form ≡ report.old.form) }
    ensures reported { OnOk result (AddsOne (IsOtherOf report.old.form) lack.now
        report.old.results.items report.new.results.items) }
{
    let merged = lack.merged;
    match merged.setup {
        Setup::Here(name) => {
            let row = Row {
                branch: merged.branch,
                name,
                merged: merged.name,
                text: None,
            };
            write_row(alloc, report.form, columns, &row, &mut report.results)
        }
        Setup::Remote => report_lack(alloc, lack, report),
        Setup::NoRemote => report_lack(alloc, lack, report),
        Setup::NoMerge => report_lack(alloc, lack, report),
    }
}

// Appends a row in a form.
fn write_row(
    alloc: Global,
    form: Form,
    columns: &Columns,
    row: &Row<'_>,
    out: &mut Vec<u8>,
) -> Result<(), AllocError>
    ensures { OnOk result (AddsOne (IsRow form) (tracking_of row.now) out.old.items out.new.items) }
{
    match form {
        Form::Lines => write_line(alloc, columns, row, out),
        Form::Zeros => write_record(row, out),
        Form::Json => write_object(alloc, row, out),
    }
}

// Appends a row of the table.
fn write_line(
    alloc: Global,
    columns: &Columns,
    row: &Row<'_>,
    out: &mut Vec<u8>,
) -> Result<(), AllocError>
    ensures { OnOk result (AddsOne (IsRow form.Lines) (tracking_of row.now) out.old.items out.new.items) }
{
    match row.branch {
        None => write_cells(alloc, &columns.rest, row, out),
        Some(branch) => {
            columns.rest.write_cell(alloc, out, branch, columns.branch)?;
            write_cells(alloc, &columns.rest, row, out)
        }
    }
}

// Appends the cells of a row, but that of the branch.
fn write_cells(
    alloc: Global,
    layout: &Layout,
    row: &Row<'_>,
    out: &mut Vec<u8>,
) -> Result<(), AllocError>
    ensures { OnOk result (WritesLine (row_of (tracking_of row.now)) out.old.items out.new.items) }
{
    layout.write_cell(alloc, out, row.name, layout.first)?;
    layout.write_cell(alloc, out, row.merged, layout.second)?;
    layout.write_field(out, row.text())?;
    Ok(out.push(b'\n')?)
}

// Appends a row as a record: of three fields, after that of the branch.
fn write_record(row: &Row<'_>, out: &mut Vec<u8>) -> Result<(), AllocError>
    ensures { OnOk result (AddsOne (IsRow form.Zeros) (tracking_of row.now) out.old.items out.new.items) }
{
    match row.branch {
        None => write_fields(row, out),
        Some(branch) => {
            write_field(out, branch)?;
            write_fields(row, out)
        }
    }
}

// Appends the three fields of a row.
fn write_fields(row: &Row<'_>, out: &mut Vec<u8>) -> Result<(), AllocError>
    ensures { OnOk result (out.new.items ≡ out.old.items ++ fields (row_of (tracking_of row.now))) }
{
    write_field(out, row.name)?;
    write_field(out, row.merged)?;
    write_field(out, row.text())
}

// Appends a row as an object, in a line.
fn write_object(alloc: Global, row: &Row<'_>, out: &mut Vec<u8>) -> Result<(), AllocError>
    ensures { OnOk result (AddsOne (IsRow form.Json) (tracking_of row.now) out.old.items out.new.items) }
{
    let branch = json::text_or_none(alloc, row.branch)?;
    let merge = json::text_of(alloc, row.merged)?;
    let name = json::text_of(alloc, row.name)?;
    let text = json::text_or_none(alloc, row.text)?;
    let spec = text.as_deref();
    let object = refspec_json::Upstream {
        branch: branch.as_deref(),
        merge: merge.as_str(),
        name: name.as_str(),
        spec,
    };
    object.write_line(alloc, out)
}

// Reports that a branch has no upstream, and why.
fn report_lack(
    alloc: Global,
    lack: &Lack<'_, '_, '_>,
    report: &mut Report,
) -> Result<(), AllocError>
    ensures form { OnOk result (report.new.form ≡ report.old.form) }
    ensures reported { OnOk result (AddsOne (IsLackOf report.old.form) lack.now
        report.old.results.items report.new.results.items) }
{
    let advice = advice_on(alloc, lack)?;
    match report.form {
        Form::Json => write_lack(alloc, lack, advice.as_slice(), &mut report.results),
        Form::Lines | Form::Zeros => {
            write_message(lack, &mut report.messages)?;
            write_indented(advice.as_slice(), &mut report.messages)
        }
    }
}

// Appends the object of a branch without an upstream, with what to do, as a line.
fn write_lack(
    alloc: Global,
    lack: &Lack<'_, '_, '_>,
    advice: &[u8],
    out: &mut Vec<u8>,
) -> Result<(), AllocError>
    ensures { OnOk result (AddsOne (IsLackOf form.Json) lack.now out.old.items out.new.items) }
{
    let branch = json::text_or_none(alloc, lack.merged.branch)?;
    let merge = json::text_of(alloc, lack.merged.name)?;
    let spec = json::text_or_none(alloc, lack.spec)?;
    let advice = json::text_of(alloc, advice)?;
    let object = refspec_json::NoUpstream {
        branch: branch.as_deref(),
        merge: merge.as_str(),
        spec: spec.as_deref(),
        message: lack.message(),
        advice: advice.as_str(),
    };
    object.write_line(alloc, out)
}

// Appends the lines that say why a branch has no upstream: the branch and what it merges, and the spec that is the
// reason, if one is.
fn write_message(lack: &Lack<'_, '_, '_>, out: &mut Vec<u8>) -> Result<(), AllocError> {
    if let Some(branch) = lack.merged.branch {
        write_in_message(out, branch)?;
        out.extend_from_slice(b": ")?;
    }
    if !lack.has_no_ref() {
        write_in_message(out, lack.merged.name)?;
        out.extend_from_slice(b": ")?;
    }
    out.extend_from_slice(lack.message().as_bytes())?;
    out.push(b'\n')?;
    if let Some(text) = lack.spec {
        out.extend_from_slice(b"    ")?;
        write_quoted(out, text)?;
        out.push(b'\n')?;
    }
    Ok(())
}

// Appends a line of advice, indented.
fn write_indented(advice: &[u8], out: &mut Vec<u8>) -> Result<(), AllocError> {
    out.extend_from_slice(b"    ")?;
    out.extend_from_slice(advice)?;
    Ok(out.push(b'\n')?)
}
