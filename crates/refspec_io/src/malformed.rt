//! The report of bad records.

ghost use Rattle.std.specs.Prelude.{◌≡◌, ◌≢◌, ◌∷◌, [], map, IfOk, MatchBool, OnOk};
ghost use Rattle.refspec_io.specs.Refs.{bad_bytes};
ghost use Rattle.refspec_io.specs.Json.{AddsObjects};
ghost use Rattle.refspec_io.specs.Malformed.{IsBadLine, WritesMalformed};

use crate::call::Form;
use crate::input::first_record;
use crate::json;
use crate::quote::write_in_message;
use crate::refs::BadRecord;
use crate::report::{Report, write_advice};
use crate::texts::Location;
use bstr::ByteSlice;
use std::alloc::{AllocError, Global};

/// Reports bad records, in order. Returns whether there are any.
pub fn report_bad_records(
    alloc: Global,
    input: &str,
    bad: &[BadRecord<'_>],
    report: &mut Report,
) -> Result<bool, AllocError>
    ensures form { OnOk result (report.new.form ≡ report.old.form) }
    ensures reported { OnOk result (AddsObjects report.old.form (IsBadLine input.now) bad.now
        report.old.results.items report.new.results.items) }
    ensures some { IfOk result (λ some. MatchBool some
        (map bad_bytes bad.now ≢ []) (map bad_bytes bad.now ≡ [])) }
{
    for record in bad {
        report_bad_record(alloc, input, record, report)?;
    }
    Ok(!bad.is_empty())
}

// Reports a bad record.
fn report_bad_record(
    alloc: Global,
    input: &str,
    bad: &BadRecord<'_>,
    report: &mut Report,
) -> Result<(), AllocError>
    ensures form { OnOk result (report.new.form ≡ report.old.form) }
    ensures reported { OnOk result (AddsObjects report.old.form (IsBadLine input.now) (bad.now ∷ [])
        report.old.results.items report.new.results.items) }
{
    let location = Location::Record {
        input,
        number: bad.number,
    };
    match report.form {
        Form::Json => write_malformed(alloc, &location, bad, &mut report.results),
        Form::Lines | Form::Zeros => write_bad_record(alloc, &location, bad, &mut report.messages),
    }
}

// Why a record is bad, and what to do.
fn why_malformed(bad: &BadRecord<'_>) -> (&'static str, &'static str) {
    if bad.is_peeled {
        return (
            "The tag that this line peels does not stand right before it.",
            "Keep the lines in the order in which Git prints them.",
        );
    }
    if bad.bytes.contains(&b'\n') {
        return (
            "This isn't a ref: with `-z` or `--read-z` a zero byte ends each ref, and here a newline does.",
            "Leave the option out, or end each line with a zero byte, as `tr '\\n' '\\0'` does.",
        );
    }
    if bad.bytes.ends_with(b"\r") {
        return (
            "This isn't a ref: the line ends with a carriage return, as lines do on Windows.",
            "End lines with a newline alone, as `tr -d '\\r'` does.",
        );
    }
    if has_type(bad.bytes) {
        return (
            "This isn't a ref: the type of the object stands before the name.",
            "Give `git for-each-ref` the option `--format='%(objectname) %(refname)'`.",
        );
    }
    (
        "This isn't a ref: a line is an object id, one tab or space, and a name without spaces.",
        "Give the output of `git ls-remote`, `git show-ref -d` or `git for-each-ref --format='%(objectname) %(refname)'`.",
    )
}

// Whether an object type and a tab follow the first space, as in the default format of `git for-each-ref`.
fn has_type(line: &[u8]) -> bool {
    let Some((_, back)) = line.split_once_str(b" ") else {
        return false;
    };
    let types = [b"commit\t".as_slice(), b"tag\t", b"tree\t", b"blob\t"];
    types.iter().any(|kind| back.starts_with(kind))
}

// Appends the object of a bad record, as a line.
fn write_malformed(
    alloc: Global,
    location: &Location<'_>,
    bad: &BadRecord<'_>,
    out: &mut Vec<u8>,
) -> Result<(), AllocError>
    ensures { OnOk result (WritesMalformed location.now (bad_bytes bad.now) out.old.items out.new.items) }
{
    let (message, advice) = why_malformed(bad);
    let location = json::shown_location(alloc, location)?;
    let text = json::text_of(alloc, bad.bytes)?;
    let object = refspec_json::Malformed {
        location: location.as_str(),
        text: text.as_str(),
        message,
        advice,
    };
    object.write_line(alloc, out)
}

// Appends the lines on a bad record.
fn write_bad_record(
    alloc: Global,
    location: &Location<'_>,
    bad: &BadRecord<'_>,
    out: &mut Vec<u8>,
) -> Result<(), AllocError> {
    let (message, advice) = why_malformed(bad);
    // Of a record with several lines, the first is enough to recognise it.
    let (line, _) = first_record(bad.bytes, b'\n');
    location.write(out, Form::Lines)?;
    out.extend_from_slice(b": ")?;
    write_in_message(out, line)?;
    out.extend_from_slice(b": ")?;
    out.extend_from_slice(message.as_bytes())?;
    out.push(b'\n')?;
    write_advice(out, advice)
}
