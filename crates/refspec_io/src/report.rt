//! What a run writes: its results and its messages.

ghost use Rattle.std.specs.Prelude.{◌≡◌, ◌++◌, ◌∷◌, [], OnOk};
ghost use Rattle.refspec_io.specs.Json.{AddsRefusal};
ghost use Rattle.refspec_io.specs.Messages.{WritesReason, WritesRefusal, ReportsRefusal};
ghost use Rattle.refspec_io.specs.Shown.{AddsNames, Grows, KeepsReport};
ghost use Rattle.refspec_io.specs.Wrong.{blame_line, WritesDetails, WritesWrong};

use crate::blame::{Blame, advice_for, blame_of};
use crate::call::Form;
use crate::json;
use crate::quote::{write_in_message, write_in_quotes, write_quoted};
use crate::texts::{Text, write_number};
use gix_refspec::parsing::Error;
use std::alloc::{AllocError, Global};

/// The results and the messages of a run.
#[derive(Debug, Drop)]
pub struct Report {
    pub form: Form,
    /// What goes to the standard output.
    pub results: Vec<u8>,
    /// What goes to the standard error.
    pub messages: Vec<u8>,
}

impl Report {
    /// An empty report.
    pub fn new(alloc: Global, form: Form) -> Report
        ensures form { result.form ≡ form }
        ensures empty { result.results.items ≡ [] }
        ensures no_message { result.messages.items ≡ [] }
    {
        Report {
            form,
            results: Vec::new(alloc),
            messages: Vec::new(alloc),
        }
    }

    /// Reports that a text is refused: its location, the text, the reason, the part that is wrong and
    /// what to do.
    pub fn report_refusal(
        &mut self,
        alloc: Global,
        text: &Text<'_>,
        error: &Error,
    ) -> Result<(), AllocError>
        ensures kept { OnOk result (KeepsReport self.old self.new) }
        ensures reported { OnOk result (ReportsRefusal self.old.form text.now error.now
            self.old.messages.items self.new.messages.items) }
        ensures object { OnOk result (AddsRefusal self.old.form text.now error.now
            self.old.results.items self.new.results.items) }
    {
        match self.form {
            Form::Json => json::write_refusal(alloc, &mut self.results, text, error),
            Form::Lines | Form::Zeros => write_refusal(alloc, &mut self.messages, text, error),
        }
    }

    /// Appends a name to the results: in a line, quoted if needed and after the bytes `before`, or raw and ended
    /// by a zero byte. In JSON nothing is appended.
    pub fn write_name(&mut self, before: &[u8], name: &[u8]) -> Result<(), AllocError>
        ensures form { OnOk result (self.new.form ≡ self.old.form) }
        ensures no_message { OnOk result (self.new.messages ≡ self.old.messages) }
        ensures reported { OnOk result (AddsNames self.old.form before.now (name.now ∷ [])
            self.old.results.items self.new.results.items) }
    {
        match self.form {
            Form::Lines => {
                self.results.extend_from_slice(before)?;
                write_quoted(&mut self.results, name)?;
                self.results.push(b'\n')?;
            }
            Form::Zeros => {
                self.results.extend_from_slice(name)?;
                self.results.push(0)?;
            }
            Form::Json => {}
        }
        Ok(())
    }
}

// Appends the lines of a refusal.
fn write_refusal(
    alloc: Global,
    out: &mut Vec<u8>,
    text: &Text<'_>,
    error: &Error,
) -> Result<(), AllocError>
    ensures { OnOk result (WritesRefusal text.now error.now out.old.items out.new.items) }
{
    write_reason(out, text, error)?;
    write_details(alloc, out, text, error)
}

// Appends the first line of a refusal: the location, the text and the reason.
fn write_reason(out: &mut Vec<u8>, text: &Text<'_>, error: &Error) -> Result<(), AllocError>
    ensures { OnOk result (WritesReason text.now error.now out.old.items out.new.items) }
{
    text.location.write(out, Form::Lines)?;
    out.extend_from_slice(b": ")?;
    write_in_message(out, text.bytes)?;
    out.extend_from_slice(b": ")?;
    out.extend_from_slice(error.explanation().as_bytes())?;
    out.push(b'\n')?;
    Ok(())
}

// Appends the other lines of a refusal: the line on the wrong bytes, if there are any, and the advice.
fn write_details(
    alloc: Global,
    out: &mut Vec<u8>,
    text: &Text<'_>,
    error: &Error,
) -> Result<(), AllocError>
    ensures { OnOk result (WritesDetails text.now out.old.items out.new.items) }
{
    let advice = advice_for(alloc, text, error)?;
    write_wrong(out, text)?;
    write_advice(out, advice)
}

// Appends the line on the wrong bytes of a text, if there are any.
fn write_wrong(out: &mut Vec<u8>, text: &Text<'_>) -> Result<(), AllocError>
    ensures { OnOk result (WritesWrong text.now out.old.items out.new.items) }
{
    let Some(blame) = blame_of(text) else {
        return Ok(());
    };
    write_blame(out, &blame)
}

// Appends the line on wrong bytes.
fn write_blame(out: &mut Vec<u8>, blame: &Blame<'_>) -> Result<(), AllocError>
    ensures { OnOk result (out.new.items ≡ out.old.items ++ blame_line blame.now) }
{
    out.extend_from_slice(b"    The ")?;
    out.extend_from_slice(blame.side.as_bytes())?;
    out.extend_from_slice(b" has ")?;
    write_in_quotes(out, blame.part)?;
    out.extend_from_slice(b" at byte ")?;
    write_number(out, blame.at)?;
    out.extend_from_slice(b".\n")
}

/// Appends an indented line of advice, unless the advice is empty.
pub fn write_advice(out: &mut Vec<u8>, advice: &str) -> Result<(), AllocError>
    ensures { OnOk result (Grows out.old.items out.new.items) }
{
    if advice.is_empty() {
        return Ok(());
    }
    out.extend_from_slice(b"    ")?;
    out.extend_from_slice(advice.as_bytes())?;
    out.push(b'\n')?;
    Ok(())
}
