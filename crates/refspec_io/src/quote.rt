//! Names and texts as they are shown: raw, or in double quotes with escapes.

ghost use Rattle.std.specs.Prelude.{◌≡◌, ◌≤◌, ◌++◌, ◌∷◌, [], List, OnOk, length, ℕ};
ghost use Rattle.refspec_io.specs.Messages.{WritesShown};
ghost use Rattle.refspec_io.specs.declared.call.Form.TheVariants as form;
ghost use Rattle.refspec_io.specs.Shown.{WritesQuoted, escape_letter as letter_of, escaped, in_quotes, plain_or_octal};

use crate::call::Form;
use std::alloc::AllocError;
use std::simd::prelude::*;

// The number of bytes that are checked at once.
const LANES: usize = 16;

/// Appends a text: unquoted if it is plain, else in double quotes with escapes, as Git quotes paths under
/// `core.quotePath`. The empty text is quoted too.
pub fn write_quoted(out: &mut Vec<u8>, text: &[u8]) -> Result<(), AllocError>
    ensures { OnOk result (WritesQuoted text.now out.old.items out.new.items) }
{
    if is_plain(text) {
        return out.extend_from_slice(text);
    }
    write_in_quotes(out, text)
}

/// Appends a text within a message: quoted also if it contains a space or ends with a colon, so that its ends
/// can be seen.
pub fn write_in_message(out: &mut Vec<u8>, text: &[u8]) -> Result<(), AllocError>
    ensures { OnOk result (WritesQuoted text.now out.old.items out.new.items) }
{
    if text.contains(&b' ') || text.ends_with(b":") {
        return write_in_quotes(out, text);
    }
    write_quoted(out, text)
}

/// Appends a text as a form shows it: raw in records, else quoted if needed.
pub fn write_shown(out: &mut Vec<u8>, text: &[u8], form: Form) -> Result<(), AllocError>
    ensures { OnOk result (WritesShown form text.now out.old.items out.new.items) }
{
    match form {
        Form::Zeros => out.extend_from_slice(text),
        Form::Lines => write_quoted(out, text),
        Form::Json => write_text(out, text),
    }
}

// Appends a text, quoted if needed or if it isn't UTF-8, so that the appended bytes are UTF-8.
fn write_text(out: &mut Vec<u8>, text: &[u8]) -> Result<(), AllocError>
    ensures { OnOk result (WritesShown form.Json text.now out.old.items out.new.items) }
{
    match str::from_utf8(text) {
        Ok(_) => write_quoted(out, text),
        Err(_) => write_in_quotes(out, text),
    }
}

/// Appends a text in double quotes, with escapes.
pub fn write_in_quotes(out: &mut Vec<u8>, text: &[u8]) -> Result<(), AllocError>
    ensures { OnOk result (out.new.items ≡ out.old.items ++ in_quotes text.now) }
{
    out.push(b'"')?;
    for byte in text {
        write_escaped(out, *byte)?;
    }
    out.push(b'"')?;
    Ok(())
}

/// Whether a text can be shown unquoted: it is UTF-8, not empty, and contains no control character, double
/// quote or backslash.
pub fn is_plain(text: &[u8]) -> bool {
    if is_plain_ascii(text) {
        return true;
    }
    if text.is_empty() {
        return false;
    }
    match str::from_utf8(text) {
        Ok(text) => text.chars().all(|c| is_calm(c)),
        Err(_) => false,
    }
}

/// Whether a text is not empty, and all its bytes are printable ASCII other than `"` and `\`.
pub fn is_plain_ascii(text: &[u8]) -> bool {
    if text.len() < LANES {
        return !text.is_empty() && text.iter().all(|byte| is_calm_byte(*byte));
    }
    // Some of the last bytes may be checked twice.
    let whole = text.chunks_exact(LANES).all(|bytes| are_calm(bytes));
    whole && are_calm(&text[text.len() - LANES..])
}

// Whether none of the first `LANES` bytes of a text needs an escape.
#[inline(always)]
fn are_calm(text: &[u8]) -> bool
    requires { LANES ≤ length text.now }
{
    let bytes = u8x16::from_slice(text);
    let odd = bytes.simd_lt(u8x16::splat(b' '))
        | bytes.simd_gt(u8x16::splat(b'~'))
        | bytes.simd_eq(u8x16::splat(b'"'))
        | bytes.simd_eq(u8x16::splat(b'\\'));
    !odd.any()
}

// Whether a byte is printable ASCII and needs no escape.
fn is_calm_byte(byte: u8) -> bool {
    (byte >= b' ') & (byte <= b'~') & (byte != b'"') & (byte != b'\\')
}

// Whether a character needs no escape.
fn is_calm(c: char) -> bool {
    !c.is_control() && c != '"' && c != '\\'
}

// Appends a byte of a quoted text, escaped if needed.
fn write_escaped(out: &mut Vec<u8>, byte: u8) -> Result<(), AllocError>
    ensures { OnOk result (out.new.items ≡ out.old.items ++ escaped byte) }
{
    match escape_letter(byte) {
        Some(letter) => out.extend_from_slice(&[b'\\', letter]),
        None => write_plain_or_octal(out, byte),
    }
}

// The letter after the backslash, for a byte whose escape has one.
fn escape_letter(byte: u8) -> Option<u8>
    ensures { result ≡ letter_of byte }
{
    match byte {
        7 => Some(b'a'),
        8 => Some(b'b'),
        b'\t' => Some(b't'),
        b'\n' => Some(b'n'),
        11 => Some(b'v'),
        12 => Some(b'f'),
        b'\r' => Some(b'r'),
        b'"' | b'\\' => Some(byte),
        _ => None,
    }
}

// Appends a byte whose escape has no letter: as it is if printable, else as `\` and three octal digits.
fn write_plain_or_octal(out: &mut Vec<u8>, byte: u8) -> Result<(), AllocError>
    ensures { OnOk result (out.new.items ≡ out.old.items ++ plain_or_octal byte) }
{
    if byte >= b' ' && byte <= b'~' {
        return out.extend_from_slice(&[byte]);
    }
    out.extend_from_slice(&[
        b'\\',
        b'0' + byte / 64,
        b'0' + byte / 8 % 8,
        b'0' + byte % 8,
    ])
}
