//! The report on checked texts: their refusals, and of each spec its canonical text, its meaning, or that it is valid.

ghost use Rattle.std.specs.Prelude.{◌≡◌, ◌∷◌, [], List, Some, option_map, OnOk, ℕ};
ghost use Rattle.bstr.specs.Owned.{bstring_bytes};
ghost use Rattle.gix_refspec.specs.Specs.Meaning.{printed};
ghost use Rattle.gix_refspec.specs.Views.Spec.{reading_of};
ghost use Rattle.refspec_json.specs.Views.{kind_name};
ghost use Rattle.refspec_io.specs.Json.{WritesSpec};
ghost use Rattle.refspec_io.specs.Messages.{ReportsRefusals};
ghost use Rattle.refspec_commands.specs.Canon.{AddsCanonicalName, AddsShown};

use bstr::BString;
use gix_refspec::RefSpecRef;
use gix_refspec::parsing::Operation;
use refspec_io::call::Form;
use refspec_io::checked::Checked;
use refspec_io::json;
use refspec_io::quote::write_quoted;
use refspec_io::report::Report;
use refspec_io::sentence::write_sentence;
use refspec_io::texts::{Location, Text};
use refspec_json::SpecKind;
use std::alloc::{AllocError, Global};
use std::collections::BTreeMap;

/// Reports each refusal, and of each spec what `kind` says, in order; for `None` nothing. Fails if memory runs out.
pub fn report_texts(
    alloc: Global,
    kind: Option<SpecKind>,
    all: &[Checked<'_>],
    report: &mut Report,
) -> Result<(), AllocError>
    ensures form { OnOk result (report.new.form ≡ report.old.form) }
    ensures reported { OnOk result (AddsShown kind report.old.form all.now
        report.old.results.items report.new.results.items) }
    ensures refused { OnOk result (ReportsRefusals report.old.form all.now
        report.old.messages.items report.new.messages.items) }
{
    let mut seen = Seen::new(alloc);
    for checked in all {
        report_text(alloc, kind, checked, &mut seen, report)?;
    }
    Ok(())
}

// Reports the refusal of a checked text, or what `kind` says of the spec.
fn report_text<'a>(
    alloc: Global,
    kind: Option<SpecKind>,
    checked: &Checked<'a>,
    seen: &mut Seen<'a>,
    report: &mut Report,
) -> Result<(), AllocError>
    ensures form { OnOk result (report.new.form ≡ report.old.form) }
    ensures reported { OnOk result (AddsShown kind report.old.form (checked.now ∷ [])
        report.old.results.items report.new.results.items) }
    ensures refused { OnOk result (ReportsRefusals report.old.form (checked.now ∷ [])
        report.old.messages.items report.new.messages.items) }
{
    match checked {
        Checked::Bad { text, error } => report.report_refusal(alloc, text, error),
        Checked::Good { text, spec } => match kind {
            None => Ok(()),
            Some(SpecKind::Canonical) => report_canonical(alloc, text, spec, report),
            Some(SpecKind::Meaning) => report_meaning(alloc, text, spec, report),
            Some(SpecKind::Good) => report_good(alloc, text, spec, seen, report),
        },
    }
}

// Reports the canonical text of a spec.
fn report_canonical(
    alloc: Global,
    text: &Text<'_>,
    spec: &RefSpecRef<'_>,
    report: &mut Report,
) -> Result<(), AllocError>
    ensures form { OnOk result (report.new.form ≡ report.old.form) }
    ensures no_message { OnOk result (report.new.messages ≡ report.old.messages) }
    ensures reported { OnOk result ((name : List ℕ) × (printed (reading_of spec.now) ≡ Some name)
        × AddsCanonicalName report.old.form text.now name
        report.old.results.items report.new.results.items) }
{
    let canonical = spec.to_bstring(alloc)?;
    match report.form {
        Form::Json => {
            let shown = Shown {
                kind: SpecKind::Canonical,
                canonical: &canonical,
                meaning: None,
                same_as: None,
            };
            write_spec(alloc, text, &shown, &mut report.results)
        }
        Form::Lines | Form::Zeros => report.write_name(b"", canonical.as_bytes()),
    }
}

// Reports the meaning of a spec.
fn report_meaning(
    alloc: Global,
    text: &Text<'_>,
    spec: &RefSpecRef<'_>,
    report: &mut Report,
) -> Result<(), AllocError>
    ensures form { OnOk result (report.new.form ≡ report.old.form) }
    ensures no_message { OnOk result (report.new.messages ≡ report.old.messages) }
{
    let mut sentence = Vec::new(alloc);
    write_sentence(alloc, &mut sentence, spec, report.form)?;
    let end = match report.form {
        Form::Lines => b'\n',
        Form::Zeros => 0,
        Form::Json => {
            let canonical = spec.to_bstring(alloc)?;
            let sentence = json::text_of(alloc, sentence.as_slice())?;
            let shown = Shown {
                kind: SpecKind::Meaning,
                canonical: &canonical,
                meaning: Some(sentence.as_str()),
                same_as: None,
            };
            return write_spec(alloc, text, &shown, &mut report.results);
        }
    };
    report.results.append(&mut sentence)?;
    Ok(report.results.push(end)?)
}

// Reports that a spec is good, and the location of an earlier duplicate, if there is one.
fn report_good<'a>(
    alloc: Global,
    text: &Text<'a>,
    spec: &RefSpecRef<'_>,
    seen: &mut Seen<'a>,
    report: &mut Report,
) -> Result<(), AllocError>
    ensures form { OnOk result (report.new.form ≡ report.old.form) }
    ensures no_message { OnOk result (report.new.messages ≡ report.old.messages) }
{
    let canonical = spec.to_bstring(alloc)?;
    let earlier = seen.earlier(alloc, text, &canonical)?;
    if report.form == Form::Json {
        let location = match &earlier {
            None => None,
            Some(location) => Some(json::shown_location(alloc, location)?),
        };
        let shown = Shown {
            kind: SpecKind::Good,
            canonical: &canonical,
            meaning: None,
            same_as: location.as_ref().map(|location| location.as_str()),
        };
        return write_spec(alloc, text, &shown, &mut report.results);
    }
    write_good(text, &canonical, &earlier, report.form, &mut report.results)
}

// Appends the line of a good spec, or its three fields: location, canonical text, and the location of an
// earlier duplicate.
fn write_good(
    text: &Text<'_>,
    canonical: &BString,
    earlier: &Option<Location<'_>>,
    form: Form,
    out: &mut Vec<u8>,
) -> Result<(), AllocError> {
    text.location.write(out, form)?;
    if form == Form::Zeros {
        out.push(0)?;
        out.extend_from_slice(canonical.as_bytes())?;
        out.push(0)?;
        if let Some(location) = earlier {
            location.write(out, form)?;
        }
        out.push(0)?;
        return Ok(());
    }
    out.extend_from_slice(b": ")?;
    write_quoted(out, canonical.as_bytes())?;
    if let Some(location) = earlier {
        out.extend_from_slice(b" (says the same as ")?;
        location.write(out, form)?;
        out.push(b')')?;
    }
    out.push(b'\n')?;
    Ok(())
}

// What the object of a spec shows beside its text.
#[derive(Clone, Copy)]
struct Shown<'c, 's> {
    kind: SpecKind,
    canonical: &'c BString,
    meaning: Option<&'s str>,
    // The location of an earlier duplicate.
    same_as: Option<&'s str>,
}

// Appends the object of a spec, as a line.
fn write_spec(
    alloc: Global,
    text: &Text<'_>,
    shown: &Shown<'_, '_>,
    out: &mut Vec<u8>,
) -> Result<(), AllocError>
    ensures { OnOk result (WritesSpec (kind_name shown.now.kind) text.now (bstring_bytes shown.now.canonical.now)
        (option_map (λ t. t.now) shown.now.meaning) (option_map (λ t. t.now) shown.now.same_as)
        out.old.items out.new.items) }
{
    let location = json::shown_location(alloc, &text.location)?;
    let bytes = json::text_of(alloc, text.bytes)?;
    let canonical = json::text_of(alloc, shown.canonical.as_bytes())?;
    let object = refspec_json::Spec {
        kind: shown.kind,
        location: location.as_str(),
        operation: json::operation_of(text.operation),
        text: bytes.as_str(),
        canonical: canonical.as_str(),
        meaning: shown.meaning,
        same_as: shown.same_as,
    };
    object.write_line(alloc, out)
}

// The first location of each canonical text. A key is one byte for the operation, and the text.
#[derive(Drop)]
struct Seen<'a> {
    locations: BTreeMap<Vec<u8>, Location<'a>>,
}

impl<'a> Seen<'a> {
    fn new(alloc: Global) -> Seen<'a> {
        Seen {
            locations: BTreeMap::new(alloc),
        }
    }

    // The location of an earlier spec with the same operation and canonical text. Without one, adds this spec.
    fn earlier(
        &mut self,
        alloc: Global,
        text: &Text<'a>,
        canonical: &BString,
    ) -> Result<Option<Location<'a>>, AllocError> {
        let mut key = Vec::new(alloc);
        key.push(u8::from(text.operation == Operation::Push))?;
        key.extend_from_slice(canonical.as_bytes())?;
        if let Some(location) = self.locations.get(&key) {
            return Ok(Some(*location));
        }
        self.locations.insert(key, text.location)?;
        Ok(None)
    }
}
