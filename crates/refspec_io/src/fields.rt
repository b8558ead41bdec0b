//! The fields of mappings and updates, as results show them: cells of a table, or bytes ended by zero bytes.

ghost use Rattle.std.specs.Prelude.{◌≡◌, ◌++◌, IfOk, OnOk};
ghost use Rattle.gix_refspec.specs.Views.Group.{start_of};
ghost use Rattle.gix_refspec.specs.Texts.ObjectId.{id_bytes, lower_of};
ghost use Rattle.refspec_io.specs.Rows.{WritesCell, source_text};
ghost use Rattle.refspec_io.specs.Shown.{zero_ended};

use crate::table::Layout;
use gix_refspec::match_group::SourceRef;
use gix_refspec::oid::ObjectId;
use std::alloc::{AllocError, Global};
use std::io::Write;

/// The field shown in lines for a missing destination.
pub const NO_DESTINATION: &[u8] = b"FETCH_HEAD";

/// The bytes of a source: its name, or its object id in lower-case hex, which then replaces the contents of
/// `buffer`.
pub fn source_of<'a>(
    source: &'a SourceRef<'_>,
    buffer: &'a mut Vec<u8>,
) -> Result<&'a [u8], AllocError>
    ensures { IfOk result (λ bytes. bytes.now ≡ source_text (start_of source.now)) }
{
    match source {
        SourceRef::FullName(name) => Ok(name.as_bstr().as_bytes()),
        SourceRef::ObjectId(id) => {
            buffer.clear();
            write_id(buffer, id)?;
            Ok(buffer.as_slice())
        }
    }
}

// Appends an object id in lower-case hex.
fn write_id(out: &mut Vec<u8>, id: &ObjectId) -> Result<(), AllocError>
    ensures { OnOk result (out.new.items ≡ out.old.items ++ lower_of (id_bytes id.now)) }
{
    match write!(out, "{id}") {
        Ok(()) => Ok(()),
        Err(_) => Err(AllocError),
    }
}

/// Appends a source as a cell, padded to a width.
pub fn write_source_cell(
    alloc: Global,
    layout: &Layout,
    source: &SourceRef<'_>,
    width: usize,
    out: &mut Vec<u8>,
) -> Result<(), AllocError>
    ensures { OnOk result (WritesCell (source_text (start_of source.now)) out.old.items out.new.items) }
{
    match source {
        SourceRef::FullName(name) => layout.write_cell(
            alloc,
            out,
            name.as_bstr().as_bytes(),
            width,
        ),
        SourceRef::ObjectId(id) => {
            let mut digits = Vec::new(alloc);
            write_id(&mut digits, id)?;
            layout.write_cell(alloc, out, digits.as_slice(), width)
        }
    }
}

/// Appends a source as a field.
pub fn write_source_field(out: &mut Vec<u8>, source: &SourceRef<'_>) -> Result<(), AllocError>
    ensures { OnOk result (out.new.items ≡
        out.old.items ++ zero_ended (source_text (start_of source.now))) }
{
    match source {
        SourceRef::FullName(name) => write_field(out, name.as_bstr().as_bytes()),
        SourceRef::ObjectId(id) => {
            write_id(out, id)?;
            write_field(out, b"")
        }
    }
}

/// Appends a field and the zero byte that ends it.
pub fn write_field(out: &mut Vec<u8>, field: &[u8]) -> Result<(), AllocError>
    ensures { OnOk result (out.new.items ≡ out.old.items ++ zero_ended field.now) }
{
    out.extend_from_slice(field)?;
    out.push(0)?;
    Ok(())
}
