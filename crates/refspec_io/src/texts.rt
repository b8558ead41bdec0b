//! The texts of specs, and their locations.

ghost use Rattle.std.specs.Prelude.{◌≡◌, ◌++◌, ◌∷◌, [], decimal, map, IfOk, OnOk};
ghost use Rattle.refspec_io.specs.Input.{end_byte};
ghost use Rattle.refspec_io.specs.Settings.{AreSettingsOf};
ghost use Rattle.refspec_io.specs.Texts.{AddsRecords, AddsValues, AreTexts, IsGivenCount, given_of, numbered, record_at, spec_input, spec_name};

use crate::call::{Call, Command, Files, Form, Terminator};
use crate::input::{end_of, records};
use crate::quote::write_shown;
use crate::settings::{Setting, operation_of};
use gix_refspec::parsing::Operation;
use itoa::Buffer;
use std::alloc::{AllocError, Global};

/// Where the text of a spec was given.
#[derive(Clone, Copy, Debug)]
pub enum Location<'a> {
    /// The spec with this number among the arguments, counted from 1.
    Argument(usize),
    /// The record of an input with this number, counted from 1.
    Record { input: &'a str, number: usize },
    /// The setting of a configuration with this key.
    Setting { origin: &'a [u8], key: &'a [u8] },
}

/// The text of a spec.
#[derive(Clone, Copy, Debug)]
pub struct Text<'a> {
    pub location: Location<'a>,
    pub operation: Operation,
    pub bytes: &'a [u8],
}

impl Location<'_> {
    ghost use Rattle.refspec_io.specs.Messages.{WritesLocation};

    /// Appends the location, in the format of compilers: `spec 1`, `INPUT:1`, or `ORIGIN: KEY`.
    pub fn write(&self, out: &mut Vec<u8>, form: Form) -> Result<(), AllocError>
        ensures { OnOk result (WritesLocation form self.now out.old.items out.new.items) }
    {
        match self {
            Location::Argument(number) => {
                out.extend_from_slice(b"spec ")?;
                write_number(out, *number)
            }
            Location::Record { input, number } => {
                write_shown(out, input.as_bytes(), form)?;
                out.push(b':')?;
                write_number(out, *number)
            }
            Location::Setting { origin, key } => {
                write_shown(out, origin, form)?;
                out.extend_from_slice(b": ")?;
                write_shown(out, key, form)
            }
        }
    }
}

/// Appends a number in decimal.
pub fn write_number(out: &mut Vec<u8>, number: usize) -> Result<(), AllocError>
    ensures { OnOk result (out.new.items ≡ out.old.items ++ decimal number) }
{
    let mut buffer = Buffer::new();
    out.extend_from_slice(buffer.format(number).as_bytes())
}

/// The texts of the specs of a call, in order, and how many of them are given: the others are configured.
#[derive(Debug, Drop)]
pub struct Texts<'a> {
    pub all: Vec<Text<'a>>,
    pub given: usize,
}

/// The texts of the specs of a call: those among its arguments, those of the file of specs, and those of its input;
/// a plan has configured specs in the place of its input, and `stale` and `why` nothing. If the call reads settings,
/// `settings` has those of both, and all are configured.
pub fn texts_of<'a>(
    alloc: Global,
    call: &Call<'a>,
    files: &Files<'a>,
    input: &'a [u8],
    settings: &[Setting<'a>],
) -> Result<Texts<'a>, AllocError>
    ensures { IfOk result (λ texts. AreSettingsOf call.now.ends files.now.specs.now
        (spec_input call.now.command files.now.configured.now input.now) settings.now
        → AreTexts call.now files.now input.now (map given_of texts.all.items)
        × IsGivenCount call.now files.now.specs.now texts.given) }
{
    let mut texts = Vec::new(alloc);
    for word in &call.specs {
        texts.push(Text {
            location: Location::Argument(texts.len().saturating_add(1)),
            operation: call.operation,
            bytes: word.as_bytes(),
        })?;
    }
    match call.ends {
        Terminator::Settings => {
            let given = texts.len();
            add_values(settings, &mut texts)?;
            Ok(Texts { all: texts, given })
        }
        Terminator::Newline | Terminator::Zero => {
            add_texts(alloc, call, call.beside, files.specs, &mut texts)?;
            let given = texts.len();
            let specs = spec_input(call.command, files.configured, input);
            add_texts(alloc, call, spec_name(call), specs, &mut texts)?;
            Ok(Texts { all: texts, given })
        }
    }
}

/// What a command reads as specs besides its arguments and the file of specs: its input, but for a plan the
/// configured specs, and for `stale` and `why` nothing, since their input is refs.
pub fn spec_input<'a>(command: Command, configured: &'a [u8], input: &'a [u8]) -> &'a [u8]
    ensures { result.now ≡ spec_input command configured.now input.now }
{
    match command {
        Command::Plan => configured,
        Command::Stale | Command::Why => b"",
        _ => input,
    }
}

// The name of that in messages.
fn spec_name<'a>(call: &Call<'a>) -> &'a str
    ensures { result.now ≡ spec_name call.now }
{
    match call.command {
        Command::Plan => call.configured,
        _ => call.input,
    }
}

// Splits an input into records, and adds each as a text.
fn add_texts<'a>(
    alloc: Global,
    call: &Call<'a>,
    name: &'a str,
    input: &'a [u8],
    texts: &mut Vec<Text<'a>>,
) -> Result<(), AllocError>
    ensures { OnOk result (AddsRecords (end_byte call.now.ends) call.now.operation name.now input.now
        (map given_of texts.old.items) (map given_of texts.new.items)) }
{
    let records = records(alloc, input, end_of(call.ends))?;
    add_records(call.operation, name, records.as_slice(), texts)
}

// Adds each record as a text, numbered from 1.
fn add_records<'a>(
    operation: Operation,
    name: &'a str,
    records: &[&'a [u8]],
    texts: &mut Vec<Text<'a>>,
) -> Result<(), AllocError>
    ensures { OnOk result (map given_of texts.new.items ≡ map given_of texts.old.items
        ++ numbered (record_at name.now operation) 1 (map (λ r. r.now) records.now)) }
{
    texts.reserve(records.len())?;
    let mut number: usize = 0;
    for record in records {
        number = number.saturating_add(1);
        texts.push(Text {
            location: Location::Record {
                input: name,
                number,
            },
            operation,
            bytes: record,
        })?;
    }
    Ok(())
}

// Adds the text of each refspec among settings.
fn add_values<'a>(settings: &[Setting<'a>], texts: &mut Vec<Text<'a>>) -> Result<(), AllocError>
    ensures { OnOk result (AddsValues settings.now
        (map given_of texts.old.items) (map given_of texts.new.items)) }
{
    for setting in settings {
        add_value(setting, texts)?;
    }
    Ok(())
}

// Adds the refspec of a setting, if its key is one of refspecs and it has a value.
fn add_value<'a>(setting: &Setting<'a>, texts: &mut Vec<Text<'a>>) -> Result<(), AllocError>
    ensures { OnOk result (AddsValues (setting.now ∷ [])
        (map given_of texts.old.items) (map given_of texts.new.items)) }
{
    let Some(operation) = operation_of(setting.key) else {
        return Ok(());
    };
    let Some(bytes) = setting.value else {
        return Ok(());
    };
    texts.push(Text {
        location: Location::Setting {
            origin: setting.origin,
            key: setting.key,
        },
        operation,
        bytes,
    })?;
    Ok(())
}
