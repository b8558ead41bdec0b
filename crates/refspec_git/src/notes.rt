//! Notes on a plan: the specs that match no ref of the remote, and what the specs and the names of refs leave open.

ghost use Rattle.std.specs.Prelude.{OnOk};
ghost use Rattle.refspec_io.specs.Shown.{Grows, KeepsReport};

use crate::sources::{Names, is_needed, merged_spec, takes_some};
use crate::unsure::Unsure;
use bstr::BString;
use refspec_fetch::answer::pruning_specs;
use refspec_fetch::question::Question;
use refspec_fetch::report::Style;
use refspec_io::call::Form;
use refspec_io::counts::{reported_count, write_more};
use refspec_io::json::text_of;
use refspec_io::report::Report;
use refspec_request::refusal::write_about;
use serde_json::{Value, json};
use std::alloc::{AllocError, Global};

// What a note is about.
#[derive(Clone, Copy)]
enum About<'a> {
    Spec(&'a [u8]),
    Ref(&'a [u8]),
}

// A kind of notes: its name in JSON, and its message.
#[derive(Clone, Copy)]
struct Kind {
    name: &'static str,
    message: &'static str,
}

const UNLISTED: Kind = Kind {
    name: "unlisted",
    message: "no ref of the remote has this id: if the remote refuses to send it, Git writes nothing",
};

const FOLLOWED: Kind = Kind {
    name: "followed",
    message: "the remote has this tag too: if Git follows it, it writes nothing; --no-tags prevents that",
};

const PREFERRED: Kind = Kind {
    name: "followed",
    message: "the remote has this tag too: if Git follows it, it writes the tag here; --no-tags prevents that",
};

const PRUNED: Kind = Kind {
    name: "pruned",
    message: "git fetch --prune deletes this ref, and then fails to write it",
};

/// Notes the specs that map refs, and match no ref of the remote, unless that stops the fetch. Fails if memory runs out.
pub fn report_unmatched(
    alloc: Global,
    question: &Question<'_, '_, '_>,
    names: &Names<'_>,
    report: &mut Report,
) -> Result<(), AllocError>
    ensures { OnOk result (KeepsReport report.old report.new) }
{
    for one in &unmatched_in(alloc, question, names)? {
        let kind = Kind {
            name: "unmatched",
            message: one.message,
        };
        write_note(alloc, kind, About::Spec(one.spec.as_bytes()), report)?;
    }
    Ok(())
}

// A spec that matches no ref of the remote.
#[derive(Drop)]
struct Unmatched {
    // Its canonical text.
    spec: BString,
    message: &'static str,
}

// The specs that match no ref of the remote: of those that map refs the patterns and the negative ones, and without
// given specs what the branch merges.
fn unmatched_in(
    alloc: Global,
    question: &Question<'_, '_, '_>,
    names: &Names<'_>,
) -> Result<Vec<Unmatched>, AllocError> {
    let mut unmatched = Vec::new(alloc);
    for spec in pruning_specs(question) {
        if !is_needed(spec) && !takes_some(alloc, spec, names)? {
            unmatched.push(Unmatched {
                spec: spec.to_bstring(alloc)?,
                message: if spec.is_negative() {
                    "this spec leaves out no ref of the remote"
                } else {
                    "this spec takes no ref of the remote"
                },
            })?;
        }
    }
    if question.given.is_empty() {
        for merge in question.merges {
            if let Some(spec) = merged_spec(alloc, *merge)? {
                if !takes_some(alloc, &spec, names)? {
                    unmatched.push(Unmatched {
                        spec: spec.to_bstring(alloc)?,
                        message: "the current branch merges this ref, but the remote has no such ref",
                    })?;
                }
            }
        }
    }
    Ok(unmatched)
}

/// Notes what is unsure of a plan: of each kind all in JSON, else those within the limit of a style. Fails if
/// memory runs out.
pub fn report_unsure(
    alloc: Global,
    unsure: &Unsure<'_>,
    style: &Style<'_>,
    report: &mut Report,
) -> Result<(), AllocError>
    ensures { OnOk result (KeepsReport report.old report.new) }
{
    let mut ids = Vec::with_capacity(alloc, unsure.ids.len())?;
    for id in &unsure.ids {
        ids.push(id.as_bytes())?;
    }
    write_notes(alloc, UNLISTED, ids.as_slice(), style, report)?;
    write_notes(
        alloc,
        FOLLOWED,
        unsure.tags.stopping.as_slice(),
        style,
        report,
    )?;
    write_notes(
        alloc,
        PREFERRED,
        unsure.tags.preferred.as_slice(),
        style,
        report,
    )?;
    write_notes(alloc, PRUNED, unsure.pruned.as_slice(), style, report)
}

// Writes notes of one kind, and how many more there are.
fn write_notes(
    alloc: Global,
    kind: Kind,
    names: &[&[u8]],
    style: &Style<'_>,
    report: &mut Report,
) -> Result<(), AllocError>
    ensures { OnOk result (KeepsReport report.old report.new) }
{
    let (shown, more) = names.split_at(reported_count(report.form, style.limit, names.len()));
    for name in shown {
        write_note(alloc, kind, About::Ref(name), report)?;
    }
    write_more("git refspec: note: ", more.len(), &mut report.messages)
}

// Writes a note: in JSON as an object among the results, else as a line among the messages.
fn write_note(
    alloc: Global,
    kind: Kind,
    about: About<'_>,
    report: &mut Report,
) -> Result<(), AllocError>
    ensures { OnOk result (KeepsReport report.old report.new) }
{
    match report.form {
        Form::Json => write_object(alloc, kind, about, &mut report.results),
        Form::Lines | Form::Zeros => write_line(kind, about, &mut report.messages),
    }
}

// Appends the object of a note, as a line.
fn write_object(
    alloc: Global,
    kind: Kind,
    about: About<'_>,
    out: &mut Vec<u8>,
) -> Result<(), AllocError>
    ensures { OnOk result (Grows out.old.items out.new.items) }
{
    let (name, message) = (kind.name, kind.message);
    let object: Value = match about {
        About::Spec(text) => {
            let spec = text_of(alloc, text)?;
            json!(in alloc; {"kind": name, "message": message, "spec": spec.as_str()})?
        }
        About::Ref(text) => {
            let text = text_of(alloc, text)?;
            json!(in alloc; {"kind": name, "message": message, "name": text.as_str()})?
        }
    };
    out.extend_from_slice(object.to_vec(alloc)?.as_slice())?;
    Ok(out.push(b'\n')?)
}

// Appends the line of a note.
fn write_line(kind: Kind, about: About<'_>, out: &mut Vec<u8>) -> Result<(), AllocError> {
    let (About::Spec(text) | About::Ref(text)) = about;
    write_about(out, "git refspec: note: ", text, ": ")?;
    out.extend_from_slice(kind.message.as_bytes())?;
    Ok(out.push(b'\n')?)
}
