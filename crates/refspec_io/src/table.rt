//! Rows of fields, aligned.

ghost use Rattle.std.specs.Prelude.{◌≡◌, ◌++◌, OnOk, replicate};
ghost use Rattle.refspec_io.specs.Rows.{WritesCell};
ghost use Rattle.refspec_io.specs.Shown.{WritesQuoted};

use crate::quote::{is_plain, is_plain_ascii, write_in_quotes, write_quoted};
use std::alloc::{AllocError, Global};
use unicode_width::UnicodeWidthStr;

/// The column widths of a table.
#[derive(Clone, Copy, Debug)]
pub struct Layout {
    /// The width of the widest field of each column, as shown.
    pub first: usize,
    pub second: usize,
    pub last: usize,
    /// Whether every field so far is plain ASCII: shown unquoted, and as wide as it has bytes.
    pub is_ascii: bool,
}

impl Layout {
    /// The layout of a table with no rows.
    pub fn new() -> Layout {
        Layout {
            first: 0,
            second: 0,
            last: 0,
            is_ascii: true,
        }
    }

    /// The width of a field as shown, in terminal columns. Clears `is_ascii` unless the field is plain ASCII.
    pub fn width_of(&mut self, alloc: Global, field: &[u8]) -> Result<usize, AllocError> {
        if is_plain_ascii(field) {
            return Ok(field.len());
        }
        self.is_ascii = false;
        width_of(alloc, field)
    }

    /// The most bytes that this many rows take, if each column is one byte. Saturates.
    pub fn room(&self, rows: usize) -> usize {
        let width = self
            .first
            .saturating_add(self.second)
            .saturating_add(self.last);
        width.saturating_add(5).saturating_mul(rows)
    }

    /// Appends a field as shown, padded with spaces to a width, and two more spaces.
    #[inline]
    pub fn write_cell(
        &self,
        alloc: Global,
        out: &mut Vec<u8>,
        field: &[u8],
        width: usize,
    ) -> Result<(), AllocError>
        ensures { OnOk result (WritesCell field.now out.old.items out.new.items) }
    {
        let shown = self.shown_width(alloc, field)?;
        self.write_field(out, field)?;
        write_spaces(out, width.saturating_sub(shown).saturating_add(2))
    }

    // The width as shown of a field that `width_of` has measured.
    fn shown_width(&self, alloc: Global, field: &[u8]) -> Result<usize, AllocError> {
        if self.is_ascii {
            return Ok(field.len());
        }
        width_of(alloc, field)
    }

    /// Appends a field as shown, without padding.
    #[inline(always)]
    pub fn write_field(&self, out: &mut Vec<u8>, field: &[u8]) -> Result<(), AllocError>
        ensures { OnOk result (WritesQuoted field.now out.old.items out.new.items) }
    {
        if self.is_ascii {
            return out.extend_from_slice(field);
        }
        write_quoted(out, field)
    }
}

// The width of a field as shown, in terminal columns. A quoted field is ASCII.
fn width_of(alloc: Global, field: &[u8]) -> Result<usize, AllocError> {
    if is_plain(field) {
        return Ok(str::from_utf8(field).unwrap_or("").width());
    }
    let mut quoted = Vec::new(alloc);
    write_in_quotes(&mut quoted, field)?;
    Ok(quoted.len())
}

// Appends spaces. Fails if the length would overflow, or memory runs out.
fn write_spaces(out: &mut Vec<u8>, count: usize) -> Result<(), AllocError>
    ensures { OnOk result (out.new.items ≡ out.old.items ++ replicate count 32) }
{
    match out.len().checked_add(count) {
        Some(len) => out.resize(len, b' '),
        None => Err(AllocError),
    }
}
