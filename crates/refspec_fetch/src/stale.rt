//! The report of the local refs that a pruning fetch deletes, and of those that it should keep although they look stale.

ghost use Rattle.std.specs.Prelude.{◌≡◌, ◌++◌, ◌∷◌, [], map, IfOk, OnOk};
ghost use Rattle.std.specs.List.{flat_map};
ghost use Rattle.bstr.specs.Owned.{bstring_bytes};
ghost use Rattle.gix_refspec.specs.Views.Group.{ref_of};
ghost use Rattle.gix_refspec_plan.specs.Views.Stale.{found_of};
ghost use Rattle.refspec_io.specs.Json.{AddsObjects};
ghost use Rattle.refspec_io.specs.Shown.{AddsNames};
ghost use Rattle.refspec_fetch.specs.Answer.{answer_of};
ghost use Rattle.refspec_fetch.specs.Stale.{AddsDeleted, AddsOne, AddsStale, AreParted, IsKeptLine, WritesKept, kept_of, name_at, name_fields, stale_line};

use crate::answer::Answer;
use crate::origins::SpecTexts;
use crate::question::Subject;
use crate::report::Style;
use bstr::BString;
use gix_refspec::match_group::Item;
use gix_refspec_plan::stale::Stale;
use refspec_io::call::Form;
use refspec_io::canonical::text_at;
use refspec_io::json;
use refspec_io::malformed::report_bad_records;
use refspec_io::quote::write_in_message;
use refspec_io::report::Report;
use std::alloc::{AllocError, Global};

/// Reports the records among the refs here that are none, and the refs here that a fetch deletes or keeps if it prunes.
pub fn report_stale(
    alloc: Global,
    answer: &Answer<'_, '_, '_>,
    style: &Style<'_>,
    texts: &SpecTexts,
    report: &mut Report,
) -> Result<(), AllocError>
    ensures form { OnOk result (report.new.form ≡ report.old.form) }
    ensures reported { OnOk result (AddsStale report.old.form texts.now (answer_of answer.now)
        report.old.results.items report.new.results.items) }
{
    let question = &answer.question;
    let local = question.local;
    report_bad_records(alloc, style.local, question.unread, report)?;
    let found = Found::of(alloc, answer.stale.as_slice(), local, texts.pruning())?;
    report_deleted(alloc, found.deleted.as_slice(), question.subject, report)?;
    report_kept(alloc, found.kept.as_slice(), report)
}

// A ref that is kept, and the text of the spec that keeps it.
#[derive(Clone, Copy, Debug)]
struct Kept<'a> {
    name: &'a [u8],
    spec: &'a [u8],
}

// The refs that are deleted and those that are kept, each in order.
#[derive(Debug, Drop)]
struct Found<'a> {
    deleted: Vec<&'a [u8]>,
    kept: Vec<Kept<'a>>,
}

impl<'a> Found<'a> {
    fn of(
        alloc: Global,
        stale: &[Stale],
        local: &[Item<'a>],
        texts: &'a [BString],
    ) -> Result<Found<'a>, AllocError>
        ensures { IfOk result (AreParted (map bstring_bytes texts.now) (map ref_of local.now) (map found_of stale.now)) }
    {
        let mut found = Found {
            deleted: Vec::new(alloc),
            kept: Vec::new(alloc),
        };
        for one in stale {
            found.add(*one, local, texts)?;
        }
        Ok(found)
    }

    // Adds a local ref.
    fn add(
        &mut self,
        one: Stale,
        local: &[Item<'a>],
        texts: &'a [BString],
    ) -> Result<(), AllocError>
        ensures { OnOk result (AddsOne (map bstring_bytes texts.now) (map ref_of local.now) (found_of one) self.old self.new) }
    {
        let name = name_at(local, one.item_index);
        match one.kept_by {
            None => {
                self.deleted.push(name)?;
            }
            Some(index) => {
                let spec = text_at(texts, index);
                self.kept.push(Kept { name, spec })?;
            }
        }
        Ok(())
    }
}

// The name of the item at an index; empty if there is none.
fn name_at<'a>(items: &[Item<'a>], index: usize) -> &'a [u8]
    ensures { result.now ≡ name_at (map ref_of items.now) index }
{
    match items.get(index) {
        Some(item) => item.full_ref_name.as_bytes(),
        None => b"",
    }
}

// Reports the names of refs that are deleted. Behind updates lines have a heading, and records four fields.
fn report_deleted(
    alloc: Global,
    names: &[&[u8]],
    subject: Subject,
    report: &mut Report,
) -> Result<(), AllocError>
    ensures form { OnOk result (report.new.form ≡ report.old.form) }
    ensures reported { OnOk result (AddsDeleted subject report.old.form (map (λ n. n.now) names.now)
        report.old.results.items report.new.results.items) }
{
    match (report.form, subject) {
        (Form::Json, _) => write_objects(alloc, names, &mut report.results),
        (Form::Lines | Form::Zeros, Subject::Stale) => write_names(b"", names, report),
        (Form::Zeros, Subject::Updates | Subject::Both) => write_records(
            names,
            &mut report.results,
        ),
        (Form::Lines, Subject::Updates | Subject::Both) => {
            if !names.is_empty() {
                report.results.extend_from_slice(b"(stale)\n")?;
            }
            write_names(b"  ", names, report)
        }
    }
}

// Appends names to the results, as `write_name` does.
fn write_names(before: &[u8], names: &[&[u8]], report: &mut Report) -> Result<(), AllocError>
    ensures form { OnOk result (report.new.form ≡ report.old.form) }
    ensures reported { OnOk result (AddsNames report.old.form before.now (map (λ n. n.now) names.now)
        report.old.results.items report.new.results.items) }
{
    for name in names {
        report.write_name(before, name)?;
    }
    Ok(())
}

// Appends names as records of four fields, of which only the name and `stale` aren't empty.
fn write_records(names: &[&[u8]], out: &mut Vec<u8>) -> Result<(), AllocError>
    ensures { OnOk result (out.new.items ≡ out.old.items ++ flat_map name_fields (map (λ n. n.now) names.now)) }
{
    for name in names {
        out.push(0)?;
        out.extend_from_slice(name)?;
        out.extend_from_slice(b"\0\0stale\0")?;
    }
    Ok(())
}

// Appends the objects of names, each as a line.
fn write_objects(alloc: Global, names: &[&[u8]], out: &mut Vec<u8>) -> Result<(), AllocError>
    ensures { OnOk result (out.new.items ≡ out.old.items ++ flat_map stale_line (map (λ n. n.now) names.now)) }
{
    for name in names {
        let name = json::text_of(alloc, name)?;
        let object = refspec_json::Stale {
            name: name.as_str(),
        };
        object.write_line(alloc, out)?;
    }
    Ok(())
}

const KEPT: &str =
    "A spec excludes a ref from which it is written, so a pruning fetch should keep it.";

// Reports the refs that are kept.
fn report_kept(alloc: Global, kept: &[Kept<'_>], report: &mut Report) -> Result<(), AllocError>
    ensures form { OnOk result (report.new.form ≡ report.old.form) }
    ensures reported { OnOk result (AddsObjects report.old.form IsKeptLine (map kept_of kept.now)
        report.old.results.items report.new.results.items) }
{
    for one in kept {
        report_one_kept(alloc, one, report)?;
    }
    Ok(())
}

// Reports a ref that is kept.
fn report_one_kept(alloc: Global, kept: &Kept<'_>, report: &mut Report) -> Result<(), AllocError>
    ensures form { OnOk result (report.new.form ≡ report.old.form) }
    ensures reported { OnOk result (AddsObjects report.old.form IsKeptLine (kept_of kept.now ∷ [])
        report.old.results.items report.new.results.items) }
{
    match report.form {
        Form::Json => write_kept_object(alloc, kept, &mut report.results),
        Form::Lines | Form::Zeros => write_kept(kept, &mut report.messages),
    }
}

// Appends the object of a ref that is kept, as a line.
fn write_kept_object(alloc: Global, kept: &Kept<'_>, out: &mut Vec<u8>) -> Result<(), AllocError>
    ensures { OnOk result (WritesKept (kept_of kept.now) out.old.items out.new.items) }
{
    let name = json::text_of(alloc, kept.name)?;
    let spec = json::text_of(alloc, kept.spec)?;
    let object = refspec_json::Kept {
        name: name.as_str(),
        spec: spec.as_str(),
        message: KEPT,
    };
    object.write_line(alloc, out)
}

// Appends the line on a ref that is kept.
fn write_kept(kept: &Kept<'_>, out: &mut Vec<u8>) -> Result<(), AllocError> {
    out.extend_from_slice(b"kept: ")?;
    write_in_message(out, kept.name)?;
    out.extend_from_slice(b" (")?;
    write_in_message(out, kept.spec)?;
    out.extend_from_slice(b"): ")?;
    out.extend_from_slice(KEPT.as_bytes())?;
    Ok(out.push(b'\n')?)
}
