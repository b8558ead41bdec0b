//! The report of the specs whose source the remote lacks.

ghost use Rattle.std.specs.Prelude.{◌≡◌, ◌∷◌, [], length, IfOk, OnOk};
ghost use Rattle.refspec_io.specs.Shown.{Grows};
ghost use Rattle.refspec_fetch.specs.Missing.{AddsMissing, WritesMissing, WritesMissingObject, some_more};
ghost use Rattle.refspec_fetch.specs.Origins.{text_of};
ghost use Rattle.refspec_fetch.specs.declared.origins.SpecTexts.{SpecTexts};

use crate::answer::Answer;
use crate::origins::{SpecTexts, note_of, origin_name};
use bstr::ByteSlice;
use gix_refspec::match_group::Item;
use gix_refspec_plan::Origin;
use refspec_io::call::{Form, Limit};
use refspec_io::counts::{few, write_more};
use refspec_io::json;
use refspec_io::quote::write_in_message;
use refspec_io::report::{Report, write_advice};
use std::alloc::{AllocError, Global};

const MISSING: &str = "the remote has no such ref, so git fetch writes nothing";

// The names of the remote, sorted by their last component and then by index.
#[derive(Drop)]
struct Names<'i> {
    sorted: Vec<Named<'i>>,
}

// The last component of a name, and the name.
#[derive(Clone, Copy, PartialEq, Eq, PartialOrd, Ord)]
struct Named<'i> {
    end: &'i [u8],
    name: &'i [u8],
}

impl<'i> Names<'i> {
    // The names of these items.
    fn of(alloc: Global, items: &[Item<'i>]) -> Result<Names<'i>, AllocError> {
        let mut sorted = Vec::with_capacity(alloc, items.len())?;
        for item in items {
            let name = item.full_ref_name.as_bytes();
            sorted.push(Named {
                end: last_component(name),
                name,
            })?;
        }
        sorted.sort_unstable();
        sorted.dedup();
        Ok(Names { sorted })
    }

    // The names with this last component, sorted.
    fn ending(&self, end: &[u8]) -> &[Named<'i>] {
        let first = self.sorted.partition_point(|named| named.end < end);
        let rest = &self.sorted[first..];
        let len = rest.partition_point(|named| named.end == end);
        &rest[..len]
    }
}

// What follows the last slash of a name; the whole name without one.
fn last_component(name: &[u8]) -> &[u8] {
    match name.rfind_byte(b'/') {
        None => name,
        Some(index) => &name[index..][1..],
    }
}

// The source of a text of a spec without stars: what precedes its colon, without a sign.
fn source_in(text: &[u8]) -> &[u8] {
    let text = text.strip_prefix(b"+").unwrap_or(text);
    match text.split_once_str(b":") {
        None => text,
        Some((source, _)) => source,
    }
}

// A spec whose source the remote lacks.
#[derive(Clone, Copy)]
struct Missing<'a, 'i> {
    origin: Origin,
    text: &'a [u8],
    // The names of the remote that have the same last component.
    names: &'a [Named<'i>],
}

/// Reports the specs of an answer whose source the remote lacks, in order, each with names of the remote that have the
/// same last component: those within a limit, and how many more there are.
pub fn report_missing(
    alloc: Global,
    answer: &Answer<'_, '_, '_>,
    texts: &SpecTexts,
    limit: Limit,
    report: &mut Report,
) -> Result<(), AllocError>
    ensures form { OnOk result (report.new.form ≡ report.old.form) }
    ensures reported { OnOk result (AddsMissing limit report.old.form texts.now answer.now.plan.missing.items
        report.old.messages.items report.new.messages.items report.old.results.items report.new.results.items) }
{
    let missing = answer.plan.missing.as_slice();
    if missing.is_empty() {
        return Ok(());
    }
    let names = Names::of(alloc, answer.question.refs)?;
    for origin in missing {
        report_one(alloc, &missing_by(*origin, texts, &names), limit, report)?;
    }
    Ok(())
}

// The spec from an origin whose source the remote lacks.
fn missing_by<'a, 'i>(origin: Origin, texts: &'a SpecTexts, names: &'a Names<'i>) -> Missing<'a, 'i>
    ensures origin { result.origin ≡ origin }
    ensures text { result.text.now ≡ text_of texts.now origin }
{
    let text = texts.text_of(origin);
    let names = names.ending(last_component(source_in(text)));
    Missing {
        origin,
        text,
        names,
    }
}

// Reports a spec whose source the remote lacks.
fn report_one(
    alloc: Global,
    missing: &Missing<'_, '_>,
    limit: Limit,
    report: &mut Report,
) -> Result<(), AllocError>
    ensures form { OnOk result (report.new.form ≡ report.old.form) }
    ensures reported { (texts : SpecTexts) → missing.now.text.now ≡ text_of texts missing.now.origin
        → OnOk result (AddsMissing limit report.old.form texts (missing.now.origin ∷ [])
        report.old.messages.items report.new.messages.items report.old.results.items report.new.results.items) }
{
    match report.form {
        Form::Json => write_object(alloc, missing, limit, &mut report.results),
        Form::Lines | Form::Zeros => write_lines(missing, limit, &mut report.messages),
    }
}

// Appends the lines on a missing source, with names of the remote: those within a limit, and how many more there are.
fn write_lines(missing: &Missing<'_, '_>, limit: Limit, out: &mut Vec<u8>) -> Result<(), AllocError>
    ensures { OnOk result (WritesMissing missing.now.text.now missing.now.origin out.old.items out.new.items) }
{
    write_first_line(missing.origin, missing.text, out)?;
    let names = missing.names;
    let (listed, more) = names.split_at(few(limit, names.len()));
    write_names(listed, out)?;
    write_more("    ", more.len(), out)
}

// Appends the first of these lines.
fn write_first_line(origin: Origin, text: &[u8], out: &mut Vec<u8>) -> Result<(), AllocError>
    ensures { OnOk result (WritesMissing text.now origin out.old.items out.new.items) }
{
    out.extend_from_slice(b"missing: ")?;
    write_in_message(out, text)?;
    out.extend_from_slice(note_of(origin).as_bytes())?;
    out.extend_from_slice(b": ")?;
    out.extend_from_slice(MISSING.as_bytes())?;
    Ok(out.push(b'\n')?)
}

// Appends a line for each name, or advice if there is none.
fn write_names(names: &[Named<'_>], out: &mut Vec<u8>) -> Result<(), AllocError>
    ensures { OnOk result (Grows out.old.items out.new.items) }
{
    if names.is_empty() {
        return write_advice(out, "See `git ls-remote` for the refs that it has.");
    }
    for named in names {
        out.extend_from_slice(b"    It has ")?;
        write_in_message(out, named.name)?;
        out.push(b'\n')?;
    }
    Ok(())
}

// Appends the object of a missing source, as a line, with names of the remote: those within a limit, and how many more
// there are.
fn write_object(
    alloc: Global,
    missing: &Missing<'_, '_>,
    limit: Limit,
    out: &mut Vec<u8>,
) -> Result<(), AllocError>
    ensures { OnOk result (WritesMissingObject limit missing.now.text.now missing.now.origin
        out.old.items out.new.items) }
{
    let names = missing.names;
    let listed = few(limit, names.len());
    let shown = texts_of(alloc, &names[..listed])?;
    let spec = json::text_of(alloc, missing.text)?;
    let object = refspec_json::Missing {
        spec: spec.as_str(),
        origin: origin_name(missing.origin),
        message: MISSING,
        names: shown.as_slice(),
        more: some_more(names.len() - listed),
    };
    object.write_line(alloc, out)
}

// How many more there are, if there are.
fn some_more(count: usize) -> Option<usize>
    ensures { result ≡ some_more count }
{
    match count {
        0 => None,
        _ => Some(count),
    }
}

// The names, each for a JSON string.
fn texts_of(alloc: Global, names: &[Named<'_>]) -> Result<Vec<String>, AllocError>
    ensures { IfOk result (λ texts. length texts.items ≡ length names.now) }
{
    let mut texts = Vec::with_capacity(alloc, names.len())?;
    for named in names {
        texts.push(json::text_of(alloc, named.name)?)?;
    }
    Ok(texts)
}
