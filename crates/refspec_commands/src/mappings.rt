//! The mappings of a look-up as results: a table, records or JSON objects.

ghost use Rattle.std.specs.Prelude.{◌≡◌, ◌++◌, [], map, option_map, unwrap_or, codes, OnOk};
ghost use Rattle.gix_refspec.specs.Views.Group.{mapped_of, name_bytes};
ghost use Rattle.refspec_io.specs.declared.call.Form.TheVariants as form;
ghost use Rattle.refspec_io.specs.Rows.{WritesLine, fields, mapped_object, mapped_row};
ghost use Rattle.refspec_commands.specs.Rows.{AddsRows, WritesRow, remote_object, shown_row};

use gix_refspec::match_group::{Mapping, NameRef};
use refspec_io::call::Form;
use refspec_io::fields::{
    NO_DESTINATION, source_of, write_field, write_source_cell, write_source_field,
};
use refspec_io::json;
use refspec_io::report::Report;
use refspec_io::table::Layout;
use std::alloc::{AllocError, Global};

/// A mapping of a look-up, and what a row has beside it.
#[derive(Clone, Copy, Debug)]
pub struct Row<'r, 'spec, 'item> {
    /// The name of the remote; `None` if the call names none.
    pub remote: Option<&'r [u8]>,
    pub mapping: &'r Mapping<'spec, 'item>,
    /// The canonical text of its spec.
    pub text: &'r [u8],
}

/// Reports mappings, in order: the remote, if the call names one, the destination and the source of each, and the
/// text of its spec.
pub fn report_rows(
    alloc: Global,
    rows: &[Row<'_, '_, '_>],
    report: &mut Report,
) -> Result<(), AllocError>
    ensures form { OnOk result (report.new.form ≡ report.old.form) }
    ensures reported { OnOk result (AddsRows report.old.form (map shown_row rows.now)
        report.old.results.items report.new.results.items) }
{
    let columns = columns_of(alloc, report.form, rows)?;
    report.results.reserve(columns.rest.room(rows.len()))?;
    for row in rows {
        write_row(alloc, report.form, &columns, row, &mut report.results)?;
    }
    Ok(())
}

// The columns of a table.
#[derive(Clone, Copy, Debug)]
struct Columns {
    // The width of the widest name of a remote.
    remote: usize,
    rest: Layout,
}

// Measures the columns of a table; all are empty in another form.
fn columns_of(alloc: Global, form: Form, rows: &[Row<'_, '_, '_>]) -> Result<Columns, AllocError> {
    let mut columns = Columns {
        remote: 0,
        rest: Layout::new(),
    };
    if form != Form::Lines {
        return Ok(columns);
    }
    let mut buffer = Vec::new(alloc);
    for row in rows {
        if let Some(remote) = row.remote {
            columns.remote = columns.remote.max(columns.rest.width_of(alloc, remote)?);
        }
        let layout = &mut columns.rest;
        let destination = layout.width_of(alloc, destination_or(&row.mapping.rhs, NO_DESTINATION))?;
        let source = layout.width_of(alloc, source_of(&row.mapping.lhs, &mut buffer)?)?;
        layout.first = layout.first.max(destination);
        layout.second = layout.second.max(source);
        layout.last = layout.last.max(layout.width_of(alloc, row.text)?);
    }
    Ok(columns)
}

// Appends a row in a form.
fn write_row(
    alloc: Global,
    form: Form,
    columns: &Columns,
    row: &Row<'_, '_, '_>,
    out: &mut Vec<u8>,
) -> Result<(), AllocError>
    ensures { OnOk result (WritesRow form (shown_row row.now) out.old.items out.new.items) }
{
    match form {
        Form::Lines => write_line(alloc, columns, row, out),
        Form::Zeros => write_record(row, out),
        Form::Json => write_object(alloc, row, out),
    }
}

// Appends a row of the table.
fn write_line(
    alloc: Global,
    columns: &Columns,
    row: &Row<'_, '_, '_>,
    out: &mut Vec<u8>,
) -> Result<(), AllocError>
    ensures { OnOk result (WritesRow form.Lines (shown_row row.now) out.old.items out.new.items) }
{
    match row.remote {
        None => write_mapping(alloc, &columns.rest, row, out),
        Some(remote) => {
            columns.rest.write_cell(alloc, out, remote, columns.remote)?;
            write_mapping(alloc, &columns.rest, row, out)
        }
    }
}

// Appends the mapping of a row of the table.
fn write_mapping(
    alloc: Global,
    layout: &Layout,
    row: &Row<'_, '_, '_>,
    out: &mut Vec<u8>,
) -> Result<(), AllocError>
    ensures { OnOk result (WritesLine
        (mapped_row (codes "FETCH_HEAD") row.now.text.now (mapped_of row.now.mapping.now))
        out.old.items out.new.items) }
{
    let destination = destination_or(&row.mapping.rhs, NO_DESTINATION);
    layout.write_cell(alloc, out, destination, layout.first)?;
    write_source_cell(alloc, layout, &row.mapping.lhs, layout.second, out)?;
    layout.write_field(out, row.text)?;
    Ok(out.push(b'\n')?)
}

// Appends a row as a record: of three fields, after that of the remote. A missing destination is an empty field.
fn write_record(row: &Row<'_, '_, '_>, out: &mut Vec<u8>) -> Result<(), AllocError>
    ensures { OnOk result (WritesRow form.Zeros (shown_row row.now) out.old.items out.new.items) }
{
    match row.remote {
        None => write_fields(row.mapping, row.text, out),
        Some(remote) => {
            write_field(out, remote)?;
            write_fields(row.mapping, row.text, out)
        }
    }
}

// Appends the three fields of a mapping.
fn write_fields(mapping: &Mapping<'_, '_>, text: &[u8], out: &mut Vec<u8>) -> Result<(), AllocError>
    ensures { OnOk result (out.new.items ≡
        out.old.items ++ fields (mapped_row [] text.now (mapped_of mapping.now))) }
{
    let destination = destination_or(&mapping.rhs, b"");
    write_field(out, destination)?;
    write_source_field(out, &mapping.lhs)?;
    write_field(out, text)
}

// Appends a row as an object, in a line.
fn write_object(alloc: Global, row: &Row<'_, '_, '_>, out: &mut Vec<u8>) -> Result<(), AllocError>
    ensures { OnOk result (WritesRow form.Json (shown_row row.now) out.old.items out.new.items) }
{
    match row.remote {
        None => write_mapping_object(alloc, row.mapping, row.text, out),
        Some(remote) => write_remote_object(alloc, remote, row, out),
    }
}

// Appends the object of a mapping, as a line.
fn write_mapping_object(
    alloc: Global,
    mapping: &Mapping<'_, '_>,
    text: &[u8],
    out: &mut Vec<u8>,
) -> Result<(), AllocError>
    ensures { OnOk result (out.new.items ≡
        out.old.items ++ mapped_object text.now (mapped_of mapping.now)) }
{
    let mut buffer = Vec::new(alloc);
    let source = json::text_of(alloc, source_of(&mapping.lhs, &mut buffer)?)?;
    let destination = json::text_or_none(alloc, destination_of(&mapping.rhs))?;
    let spec = json::text_of(alloc, text)?;
    let origin = None;
    let object = refspec_json::Mapping {
        source: source.as_str(),
        destination: destination.as_deref(),
        spec: spec.as_str(),
        origin,
    };
    object.write_line(alloc, out)
}

// Appends the object of a mapping of a remote, as a line.
fn write_remote_object(
    alloc: Global,
    remote: &[u8],
    row: &Row<'_, '_, '_>,
    out: &mut Vec<u8>,
) -> Result<(), AllocError>
    ensures { OnOk result (out.new.items ≡ out.old.items
        ++ remote_object remote.now row.now.text.now (mapped_of row.now.mapping.now)) }
{
    let mut buffer = Vec::new(alloc);
    let remote = json::text_of(alloc, remote)?;
    let source = json::text_of(alloc, source_of(&row.mapping.lhs, &mut buffer)?)?;
    let destination = json::text_or_none(alloc, destination_of(&row.mapping.rhs))?;
    let spec = json::text_of(alloc, row.text)?;
    let object = refspec_json::RemoteMapping {
        remote: remote.as_str(),
        source: source.as_str(),
        destination: destination.as_deref(),
        spec: spec.as_str(),
    };
    object.write_line(alloc, out)
}

// The bytes of a destination, or `none` if it is missing.
fn destination_or<'a>(destination: &'a Option<NameRef<'_>>, none: &'a [u8]) -> &'a [u8]
    ensures { result.now ≡ unwrap_or (option_map name_bytes destination.now) none.now }
{
    match destination {
        Some(name) => name.as_bstr().as_bytes(),
        None => none,
    }
}

// The bytes of a destination, if there is one.
fn destination_of<'a>(destination: &'a Option<NameRef<'_>>) -> Option<&'a [u8]>
    ensures { option_map (λ b. b.now) result ≡ option_map name_bytes destination.now }
{
    match destination {
        Some(name) => Some(name.as_bstr().as_bytes()),
        None => None,
    }
}
