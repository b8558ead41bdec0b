//! The report on renamed values.

ghost use Rattle.std.specs.Prelude.{◌≡◌, OnOk};
ghost use Rattle.refspec_io.specs.declared.call.Form.TheVariants as form;
ghost use Rattle.refspec_commands.specs.Each.{AddsEach, AddsOne};
ghost use Rattle.refspec_commands.specs.Renames.{IsReported};

use crate::renames::answer::{Renaming, Value};
use gix_refspec_text::side::joined;
use refspec_io::call::Form;
use refspec_io::json;
use refspec_io::quote::{write_in_message, write_in_quotes};
use refspec_io::report::Report;
use std::alloc::{AllocError, Global};

/// Reports what becomes of each value, and which Git leaves as they are. Fails if memory runs out.
pub fn report_answer(
    alloc: Global,
    renaming: Renaming<'_>,
    values: &[Value<'_>],
    report: &mut Report,
) -> Result<(), AllocError>
    ensures { OnOk result (AddsEach (IsReported report.old.form) values.now
        report.old.results.items report.new.results.items) }
{
    for value in values {
        report_value(alloc, renaming, value, report)?;
    }
    Ok(())
}

// Reports what becomes of a value.
fn report_value(
    alloc: Global,
    renaming: Renaming<'_>,
    value: &Value<'_>,
    report: &mut Report,
) -> Result<(), AllocError>
    ensures form { OnOk result (report.new.form ≡ report.old.form) }
    ensures reported { OnOk result (AddsOne (IsReported report.old.form) value.now
        report.old.results.items report.new.results.items) }
{
    match report.form {
        Form::Json => {
            let message = message_on(alloc, renaming.old)?;
            write_object(alloc, value, message.as_slice(), &mut report.results)
        }
        Form::Lines | Form::Zeros => match &value.renamed {
            Some(text) => report.write_name(b"", text.as_bytes()),
            None => {
                let message = message_on(alloc, renaming.old)?;
                write_unchanged(value.text, message.as_slice(), &mut report.messages)?;
                report.write_name(b"", value.text)
            }
        },
    }
}

// The sentence on a value that Git leaves as the remote is renamed.
fn message_on(alloc: Global, remote: &[u8]) -> Result<Vec<u8>, AllocError> {
    let folder = joined(alloc, b":refs/remotes/", remote, b"/")?;
    let mut message = Vec::from_slice(alloc, b"Git leaves this value, which doesn't contain ")?;
    write_in_quotes(&mut message, folder.as_bytes())?;
    message.push(b'.')?;
    Ok(message)
}

// Appends the message on such a value.
fn write_unchanged(text: &[u8], message: &[u8], out: &mut Vec<u8>) -> Result<(), AllocError> {
    write_in_message(out, text)?;
    out.extend_from_slice(b": ")?;
    out.extend_from_slice(message)?;
    Ok(out.push(b'\n')?)
}

// Appends the object of a value, as a line; with a message if Git leaves it.
fn write_object(
    alloc: Global,
    value: &Value<'_>,
    message: &[u8],
    out: &mut Vec<u8>,
) -> Result<(), AllocError>
    ensures { OnOk result (AddsOne (IsReported form.Json) value.now out.old.items out.new.items) }
{
    let shown = json::text_of(alloc, value.text)?;
    match &value.renamed {
        Some(text) => {
            let renamed = json::text_of(alloc, text.as_bytes())?;
            let object = refspec_json::Renamed {
                text: shown.as_str(),
                renamed: renamed.as_str(),
            };
            object.write_line(alloc, out)
        }
        None => {
            let message = json::text_of(alloc, message)?;
            let object = refspec_json::Unchanged {
                text: shown.as_str(),
                message: message.as_str(),
            };
            object.write_line(alloc, out)
        }
    }
}
