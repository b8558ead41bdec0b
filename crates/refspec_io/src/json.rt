//! Results and refusals as JSON, one object a line.

ghost use Rattle.std.specs.Prelude.{◌≡◌, option_map, string_bytes, IfOk, OnOk};
ghost use Rattle.std.specs.Str.{IsUtf8};
ghost use Rattle.refspec_io.specs.Json.{begins_quoted, json_text, operation_name, ShowsWrong, WritesRefused};
ghost use Rattle.refspec_io.specs.Messages.{IsLocation};
ghost use Rattle.refspec_io.specs.Shown.{in_quotes};
ghost use Rattle.refspec_io.specs.declared.call.Form.TheVariants as form;

use crate::blame::{advice_for, blame_of};
use crate::call::Form;
use crate::quote::write_in_quotes;
use crate::texts::{Location, Text};
use gix_refspec::parsing::{Error, Operation};
use std::alloc::{AllocError, Global};

/// A text for a JSON string: unchanged if it is UTF-8 and doesn't begin with a double quote, else in double
/// quotes with escapes, as Git quotes paths.
pub fn text_of(alloc: Global, bytes: &[u8]) -> Result<String, AllocError>
    ensures { IfOk result (λ text. string_bytes text ≡ json_text bytes.now) }
{
    if begins_with_quote(bytes) {
        return quoted(alloc, bytes);
    }
    match str::from_utf8(bytes) {
        Ok(text) => String::from_str(alloc, text),
        Err(_) => quoted(alloc, bytes),
    }
}

/// `text_of` for a text that may be missing.
pub fn text_or_none(alloc: Global, bytes: Option<&[u8]>) -> Result<Option<String>, AllocError>
    ensures { IfOk result (λ text. option_map string_bytes text
        ≡ option_map json_text (option_map (λ b. b.now) bytes.entry)) }
{
    match bytes {
        None => Ok(None),
        Some(bytes) => Ok(Some(text_of(alloc, bytes)?)),
    }
}

fn begins_with_quote(bytes: &[u8]) -> bool
    ensures { result ≡ begins_quoted bytes.now }
{
    match bytes {
        [first, ..] => *first == b'"',
        [] => false,
    }
}

// A text in double quotes, with escapes.
fn quoted(alloc: Global, bytes: &[u8]) -> Result<String, AllocError>
    ensures { IfOk result (λ text. string_bytes text ≡ in_quotes bytes.now) }
{
    let mut quoted = Vec::new(alloc);
    write_in_quotes(&mut quoted, bytes)?;
    string_of(alloc, quoted.as_slice())
}

// Copies bytes, which must be UTF-8, to a string.
fn string_of(alloc: Global, bytes: &[u8]) -> Result<String, AllocError>
    requires { IsUtf8 bytes.now }
    ensures { IfOk result (λ text. string_bytes text ≡ bytes.now) }
{
    match str::from_utf8(bytes) {
        Ok(text) => String::from_str(alloc, text),
        Err(_) => unreachable!(),
    }
}

/// A location for a JSON string.
pub fn shown_location(alloc: Global, location: &Location<'_>) -> Result<String, AllocError>
    ensures { IfOk result (λ shown. IsLocation form.Json location.now (string_bytes shown)) }
{
    let mut shown = Vec::new(alloc);
    location.write(&mut shown, Form::Json)?;
    string_of(alloc, shown.as_slice())
}

/// The name of an operation, for the member `operation`.
pub fn operation_of(operation: Operation) -> &'static str
    ensures { result.now ≡ operation_name operation }
{
    match operation {
        Operation::Fetch => "fetch",
        Operation::Push => "push",
    }
}

/// Appends the object of a refusal, as a line.
pub fn write_refusal(
    alloc: Global,
    out: &mut Vec<u8>,
    text: &Text<'_>,
    error: &Error,
) -> Result<(), AllocError>
    ensures { OnOk result (WritesRefused text.now error.now out.old.items out.new.items) }
{
    let location = shown_location(alloc, &text.location)?;
    let shown = text_of(alloc, text.bytes)?;
    let wrong = wrong_in(alloc, text)?;
    let side = wrong.side;
    let part = wrong.part.as_deref();
    let at = wrong.at;
    let advice = advice_for(alloc, text, error)?;
    let object = refspec_json::Refused {
        location: location.as_str(),
        operation: operation_of(text.operation),
        text: shown.as_str(),
        reason: error.reason(),
        message: error.explanation(),
        side,
        part,
        at,
        advice,
    };
    object.write_line(alloc, out)
}

// What an object has of the wrong bytes of a text. All is missing if no bytes are wrong.
#[derive(Debug, Drop)]
struct Wrong {
    side: Option<&'static str>,
    part: Option<String>,
    at: Option<usize>,
}

// The wrong bytes of a text, for its object.
fn wrong_in(alloc: Global, text: &Text<'_>) -> Result<Wrong, AllocError>
    ensures { IfOk result (λ wrong. ShowsWrong text.now.operation text.now.bytes.now
        (option_map (λ t. t.now) wrong.side) (option_map string_bytes wrong.part) wrong.at) }
{
    let Some(blame) = blame_of(text) else {
        return Ok(Wrong {
            side: None,
            part: None,
            at: None,
        });
    };
    let part = text_of(alloc, blame.part)?;
    Ok(Wrong {
        side: Some(blame.side),
        part: Some(part),
        at: Some(blame.at),
    })
}
