//! The report on tracking refs, for a call that names remotes or none.

ghost use Rattle.std.specs.Prelude.{◌≡◌, ◌++◌, codes, map, IfOk, OnOk};
ghost use Rattle.refspec_json.specs.Objects.{ambiguous_object, line_of, noted_object, untracked_object};
ghost use Rattle.refspec_io.specs.Json.{json_text};
ghost use Rattle.refspec_io.specs.Shown.{Grows, KeepsReport};
ghost use Rattle.refspec_commands.specs.Answer.{AddsAnswer, AreRows, rows_in};
ghost use Rattle.refspec_commands.specs.Rows.{shown_row};

use crate::mappings::{Row, report_rows};
use crate::tracking::answer::{Answer, Found, Looked, Tracked};
use crate::tracking::question::Order;
use gix_refspec::RefSpecRef;
use refspec_io::call::Form;
use refspec_io::canonical::text_at;
use refspec_io::json;
use refspec_io::quote::write_quoted;
use refspec_io::report::Report;
use std::alloc::{AllocError, Global};
use std::collections::BTreeMap;

/// Lines of advice on refs that aren't written, by name. They follow the message on the ref; JSON has none.
pub type Advice<'a> = BTreeMap<&'a [u8], Vec<u8>>;

/// Reports the specs that were left out, the rows of an answer, and each ref that isn't written or that several remotes
/// write. Fails if memory runs out.
pub fn report_answer(
    alloc: Global,
    order: Order,
    answer: &Answer<'_, '_>,
    advice: &Advice<'_>,
    report: &mut Report,
) -> Result<(), AllocError>
    ensures { OnOk result (AddsAnswer order answer.now.remotes.items report.old.form
        report.old.results.items report.new.results.items) }
{
    report_left_out(alloc, answer.remotes.as_slice(), report)?;
    let rows = rows_of(alloc, order, answer.remotes.as_slice())?;
    report_rows(alloc, rows.as_slice(), report)?;
    for looked in &answer.refs {
        report_ref(alloc, looked, answer.remotes.as_slice(), advice, report)?;
    }
    Ok(())
}

// Reports the specs that were left out.
fn report_left_out(
    alloc: Global,
    remotes: &[Tracked<'_, '_>],
    report: &mut Report,
) -> Result<(), AllocError>
    ensures { OnOk result (KeepsReport report.old report.new) }
{
    for remote in remotes {
        for spec in &remote.left_out {
            report_to_object(alloc, remote.name, spec, report)?;
        }
    }
    Ok(())
}

const WHY_TO_OBJECT: &str =
    "The destination reads as an object id, so no ref can be looked up by its name. Write the full name of a ref, such as refs/heads/x.";

// Reports a spec of a remote whose destination is an object id.
fn report_to_object(
    alloc: Global,
    remote: Option<&[u8]>,
    spec: &RefSpecRef<'_>,
    report: &mut Report,
) -> Result<(), AllocError>
    ensures { OnOk result (KeepsReport report.old report.new) }
{
    let canonical = spec.to_bstring(alloc)?;
    match report.form {
        Form::Json => write_to_object(alloc, remote, canonical.as_bytes(), &mut report.results),
        Form::Lines | Form::Zeros => write_line(
            canonical.as_bytes(),
            WHY_TO_OBJECT,
            &mut report.messages,
        ),
    }
}

// Appends the object of such a spec of a remote and a sentence on it, as a line.
fn write_to_object(
    alloc: Global,
    remote: Option<&[u8]>,
    spec: &[u8],
    out: &mut Vec<u8>,
) -> Result<(), AllocError>
    ensures { OnOk result (Grows out.old.items out.new.items) }
{
    let line = to_object(alloc, spec, WHY_TO_OBJECT)?;
    match remote {
        None => out.extend_from_slice(line.as_slice()),
        Some(remote) => {
            let remote = json::text_of(alloc, remote)?;
            let line = refspec_json::with_remote(alloc, remote.as_str(), line.as_slice())?;
            out.extend_from_slice(line.as_slice())
        }
    }
}

// The object of such a spec and a sentence on it, as a line.
fn to_object(alloc: Global, spec: &[u8], message: &str) -> Result<Vec<u8>, AllocError>
    ensures { IfOk result (λ line. line.items
        ≡ line_of (noted_object (codes "to_object") (json_text spec.now) message.now)) }
{
    let shown = json::text_of(alloc, spec)?;
    let object = refspec_json::ToObject {
        spec: shown.as_str(),
        message,
    };
    let mut line = Vec::new(alloc);
    object.write_line(alloc, &mut line)?;
    Ok(line)
}

// The rows of what remotes write, in an order.
fn rows_of<'r, 'spec, 'item>(
    alloc: Global,
    order: Order,
    remotes: &'r [Tracked<'spec, 'item>],
) -> Result<Vec<Row<'r, 'spec, 'item>>, AllocError>
    ensures { IfOk result (λ rows. AreRows order remotes.now rows.items) }
{
    let mut rows = Vec::new(alloc);
    for remote in remotes {
        add_rows(remote, &mut rows)?;
    }
    match order {
        Order::Specs => Ok(rows),
        Order::Refs => {
            rows.sort_by_key(|row| row.mapping.item_index.unwrap_or(0))?;
            Ok(rows)
        }
    }
}

// Adds the rows of what a remote writes.
fn add_rows<'r, 'spec, 'item>(
    remote: &'r Tracked<'spec, 'item>,
    rows: &mut Vec<Row<'r, 'spec, 'item>>,
) -> Result<(), AllocError>
    ensures { OnOk result (map shown_row rows.new.items ≡ map shown_row rows.old.items ++ rows_in remote.now) }
{
    for mapping in &remote.mappings {
        rows.push(Row {
            remote: remote.name,
            mapping,
            text: text_at(remote.texts.as_slice(), mapping.spec_index),
        })?;
    }
    Ok(())
}

// Reports a ref that isn't written, or that several remotes write.
fn report_ref(
    alloc: Global,
    looked: &Looked<'_>,
    remotes: &[Tracked<'_, '_>],
    advice: &Advice<'_>,
    report: &mut Report,
) -> Result<(), AllocError>
    ensures { OnOk result (KeepsReport report.old report.new) }
{
    let name = looked.name;
    match looked.found {
        Found::Tracked => Ok(()),
        Found::Ambiguous(count) => report_ambiguous(alloc, name, count, report),
        Found::Untracked => {
            report_untracked(alloc, name, why_untracked(name, remotes), advice, report)
        }
    }
}

// Reports a ref that isn't written, and the advice on it.
fn report_untracked(
    alloc: Global,
    name: &[u8],
    message: &str,
    advice: &Advice<'_>,
    report: &mut Report,
) -> Result<(), AllocError>
    ensures { OnOk result (KeepsReport report.old report.new) }
{
    match report.form {
        Form::Json => write_untracked(alloc, name, message, &mut report.results),
        Form::Lines | Form::Zeros => {
            write_line(name, message, &mut report.messages)?;
            match advice.get(name) {
                None => Ok(()),
                Some(lines) => report.messages.extend_from_slice(lines.as_slice()),
            }
        }
    }
}

// The message on a ref that isn't written.
fn why_untracked(name: &[u8], remotes: &[Tracked<'_, '_>]) -> &'static str {
    if remotes.iter().any(|remote| remote.name.is_some()) {
        "No value of a remote writes this ref."
    } else if name.starts_with(b"refs/") {
        "No spec writes this ref."
    } else {
        "No spec writes this ref. Give its full name, such as `refs/remotes/origin/main`."
    }
}

// Appends a line with a name or a spec, and a message on it.
fn write_line(name: &[u8], message: &str, out: &mut Vec<u8>) -> Result<(), AllocError> {
    write_quoted(out, name)?;
    out.extend_from_slice(b": ")?;
    out.extend_from_slice(message.as_bytes())?;
    out.push(b'\n')?;
    Ok(())
}

// Appends the object of a ref that isn't written, as a line.
fn write_untracked(
    alloc: Global,
    name: &[u8],
    message: &str,
    out: &mut Vec<u8>,
) -> Result<(), AllocError>
    ensures { OnOk result (out.new.items ≡
        out.old.items ++ line_of (untracked_object (json_text name.now) message.now)) }
{
    let name = json::text_of(alloc, name)?;
    let object = refspec_json::Untracked {
        name: name.as_str(),
        message,
    };
    object.write_line(alloc, out)
}

const WHY_AMBIGUOUS: &str = ", so Git refuses to set it as an upstream: it is ambiguous";

// Reports a ref that this many remotes write.
fn report_ambiguous(
    alloc: Global,
    name: &[u8],
    count: usize,
    report: &mut Report,
) -> Result<(), AllocError>
    ensures { OnOk result (KeepsReport report.old report.new) }
{
    match report.form {
        Form::Json => {
            let message = format!(in alloc; "{count} remotes write this ref{WHY_AMBIGUOUS}")?;
            write_ambiguous(alloc, name, message.as_str(), &mut report.results)
        }
        Form::Lines | Form::Zeros => {
            let front = format!(in alloc; "git refspec: {count} remotes write ")?;
            report.messages.extend_from_slice(front.as_bytes())?;
            write_quoted(&mut report.messages, name)?;
            report.messages.extend_from_slice(WHY_AMBIGUOUS.as_bytes())?;
            Ok(report.messages.push(b'\n')?)
        }
    }
}

// Appends the object of a ref that several remotes write, as a line.
fn write_ambiguous(
    alloc: Global,
    name: &[u8],
    message: &str,
    out: &mut Vec<u8>,
) -> Result<(), AllocError>
    ensures { OnOk result (out.new.items ≡
        out.old.items ++ line_of (ambiguous_object (json_text name.now) message.now)) }
{
    let name = json::text_of(alloc, name)?;
    let object = refspec_json::Ambiguous {
        name: name.as_str(),
        message,
    };
    object.write_line(alloc, out)
}
