//! Settings with a key of refspecs and without a value.

ghost use Rattle.std.specs.Prelude.{OnOk};
ghost use Rattle.refspec_io.specs.declared.call.Form.TheVariants as form;
ghost use Rattle.refspec_io.specs.Shown.{KeepsReport, KeepsResults};

use crate::call::Form;
use crate::json;
use crate::report::{Report, write_advice};
use crate::settings::{Setting, lacks_value, operation_of};
use crate::texts::Location;
use gix_refspec::parsing::Operation;
use std::alloc::{AllocError, Global};

/// Reports each key of refspecs without a value as refused, and nothing about the other settings.
pub fn refuse_lacking(
    alloc: Global,
    settings: &[Setting<'_>],
    report: &mut Report,
) -> Result<(), AllocError>
    ensures { OnOk result (KeepsReport report.old report.new) }
{
    for setting in settings {
        refuse_key(alloc, setting, report)?;
    }
    Ok(())
}

// Reports a setting as refused if its key is one of refspecs and its value is missing.
fn refuse_key(alloc: Global, setting: &Setting<'_>, report: &mut Report) -> Result<(), AllocError>
    ensures { OnOk result (KeepsReport report.old report.new) }
{
    if !lacks_value(setting) {
        return Ok(());
    }
    match report.form {
        Form::Json => write_object(alloc, setting, &mut report.results),
        Form::Lines | Form::Zeros => write_lines(setting, &mut report.messages),
    }
}

const MESSAGE: &str = "The value is missing.";

const ADVICE: &str =
    "Write `=` and a spec behind the key, or remove its line: Git uses no remote until then.";

// Appends the lines on a key without a value.
fn write_lines(setting: &Setting<'_>, out: &mut Vec<u8>) -> Result<(), AllocError> {
    location_of(setting).write(out, Form::Lines)?;
    out.extend_from_slice(b": ")?;
    out.extend_from_slice(MESSAGE.as_bytes())?;
    out.push(b'\n')?;
    write_advice(out, ADVICE)
}

// Appends the object of a key without a value.
fn write_object(alloc: Global, setting: &Setting<'_>, out: &mut Vec<u8>) -> Result<(), AllocError>
    ensures { OnOk result (KeepsResults form.Json out.old.items out.new.items) }
{
    let location = json::shown_location(alloc, &location_of(setting))?;
    let operation = operation_of(setting.key).unwrap_or(Operation::Fetch);
    write_missing(alloc, location.as_str(), json::operation_of(operation), out)
}

// Appends the object of a key without a value, from its location and the name of its operation.
fn write_missing<'a>(
    alloc: Global,
    location: &'a str,
    operation: &'a str,
    out: &mut Vec<u8>,
) -> Result<(), AllocError>
    ensures { OnOk result (KeepsResults form.Json out.old.items out.new.items) }
{
    let object = refspec_json::Refused {
        location,
        operation,
        text: "",
        reason: "MissingValue",
        message: MESSAGE,
        side: None,
        part: None,
        at: None,
        advice: ADVICE,
    };
    object.write_line(alloc, out)
}

fn location_of<'a>(setting: &Setting<'a>) -> Location<'a> {
    Location::Setting {
        origin: setting.origin,
        key: setting.key,
    }
}
