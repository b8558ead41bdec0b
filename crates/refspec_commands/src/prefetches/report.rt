//! The report on what a prefetch applies.

ghost use Rattle.std.specs.Prelude.{◌≡◌, OnOk};
ghost use Rattle.refspec_io.specs.declared.call.Form.TheVariants as form;
ghost use Rattle.refspec_commands.specs.Each.{AddsEach, AddsOne};
ghost use Rattle.refspec_commands.specs.Prefetches.{IsReported};

use crate::prefetches::answer::Applied;
use refspec_io::call::Form;
use refspec_io::json;
use refspec_io::quote::write_quoted;
use refspec_io::report::Report;
use std::alloc::{AllocError, Global};

/// Reports what a prefetch applies in place of each spec, and which specs it ignores. Fails if memory runs out.
pub fn report_answer(alloc: Global, all: &[Applied], report: &mut Report) -> Result<(), AllocError>
    ensures { OnOk result (AddsEach (IsReported report.old.form) all.now
        report.old.results.items report.new.results.items) }
{
    for one in all {
        report_one(alloc, one, report)?;
    }
    Ok(())
}

// Reports what is applied in place of a spec, or that it is ignored.
fn report_one(alloc: Global, one: &Applied, report: &mut Report) -> Result<(), AllocError>
    ensures form { OnOk result (report.new.form ≡ report.old.form) }
    ensures reported { OnOk result (AddsOne (IsReported report.old.form) one.now
        report.old.results.items report.new.results.items) }
{
    match report.form {
        Form::Json => write_object(alloc, one, WHY_IGNORED, &mut report.results),
        Form::Lines | Form::Zeros => match &one.applied {
            Some(text) => report.write_name(b"", text.as_bytes()),
            None => write_ignored(one.text.as_bytes(), &mut report.messages),
        },
    }
}

const WHY_IGNORED: &str =
    "A prefetch ignores this spec, since it stores nothing, or takes tags by a source that begins with refs/tags/.";

// Appends the message on a spec that is ignored.
fn write_ignored(text: &[u8], out: &mut Vec<u8>) -> Result<(), AllocError> {
    write_quoted(out, text)?;
    out.extend_from_slice(b": ")?;
    out.extend_from_slice(WHY_IGNORED.as_bytes())?;
    Ok(out.push(b'\n')?)
}

// Appends the object of a spec, as a line; with a message if it is ignored.
fn write_object(
    alloc: Global,
    one: &Applied,
    message: &str,
    out: &mut Vec<u8>,
) -> Result<(), AllocError>
    ensures { OnOk result (AddsOne (IsReported form.Json) one.now out.old.items out.new.items) }
{
    let spec = json::text_of(alloc, one.text.as_bytes())?;
    match &one.applied {
        Some(text) => {
            let prefetch = json::text_of(alloc, text.as_bytes())?;
            let object = refspec_json::Prefetch {
                spec: spec.as_str(),
                prefetch: prefetch.as_str(),
            };
            object.write_line(alloc, out)
        }
        None => {
            let object = refspec_json::Ignored {
                spec: spec.as_str(),
                message,
            };
            object.write_line(alloc, out)
        }
    }
}
