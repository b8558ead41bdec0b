//! Single specs that do something else than they seem to.

ghost use Rattle.std.specs.Prelude.{◌≡◌, IfOk, OnOk};
ghost use Rattle.refspec_commands.specs.declared.warnings.Topic.TheVariants as topic;
ghost use Rattle.refspec_commands.specs.WarnedViews.{AreOthers};

use super::group::Group;
use super::idle::{advise_full_name, may_exclude};
use super::{Topic, Warning, say};
use gix_refspec::RefSpecRef;
use gix_refspec::oid::is_id;
use gix_refspec::parsing::Operation;
use gix_refspec_match::exclusions::Exclusions;
use gix_refspec_text::side::written_name;
use refspec_io::sentence::{is_pattern, may_be_ref};
use refspec_io::texts::Text;
use std::alloc::{AllocError, Global};

// The destination that Git refuses.
const NOWHERE: &[u8] = b"@";

/// The warnings on single specs, in order.
pub(super) fn faults_in<'a>(
    alloc: Global,
    group: &Group<'a>,
) -> Result<Vec<Warning<'a>>, AllocError>
    ensures { IfOk result (λ warnings. AreOthers warnings.items) }
{
    let exclusions = Exclusions::of(alloc, group.specs.as_slice())?;
    let mut found = Vec::new(alloc);
    for (text, spec) in group.texts.iter().zip(group.specs.iter()) {
        if spec.is_negative() {
            add_for_negative(alloc, text, spec, &mut found)?;
        } else if text.operation == Operation::Fetch {
            add_for_fetch(alloc, text, spec, &exclusions, &mut found)?;
        }
    }
    Ok(found)
}

// Adds a warning for a negative spec that isn't a full name.
fn add_for_negative<'a>(
    alloc: Global,
    text: &Text<'a>,
    spec: &RefSpecRef<'_>,
    found: &mut Vec<Warning<'a>>,
) -> Result<(), AllocError>
    ensures { AreOthers found.old.items → OnOk result (AreOthers found.new.items) }
{
    let Some(source) = spec.source() else {
        return Ok(());
    };
    let source = source.as_bytes();
    if may_exclude(spec) {
        return Ok(());
    }
    let mut warning = Warning::on(alloc, Topic::ExcludesNoBranch, *text, None)?;
    warning.message.extend_from_slice(
        b"Git compares it with full names, and that of a branch begins with refs/heads/.",
    )?;
    advise_full_name(alloc, b"^", source, &mut warning)?;
    found.push(warning)?;
    Ok(())
}

// Adds the warnings on a positive spec for a fetch.
fn add_for_fetch<'a>(
    alloc: Global,
    text: &Text<'a>,
    spec: &RefSpecRef<'_>,
    exclusions: &Exclusions<'_>,
    found: &mut Vec<Warning<'a>>,
) -> Result<(), AllocError>
    ensures { AreOthers found.old.items → OnOk result (AreOthers found.new.items) }
{
    let Some(destination) = spec.destination() else {
        return Ok(());
    };
    let destination = destination.as_bytes();
    let full = written_name(alloc, destination)?;
    let sides = Sides {
        source: source_of(spec),
        destination,
        full: full.as_bstr().as_bytes(),
    };
    if sides.is_completed() {
        let mut warning = Warning::on(alloc, Topic::DestinationOutsideRefs, *text, None)?;
        explain_outside(&sides, &mut warning.message)?;
        advise_outside(alloc, spec, &sides, exclusions, &mut warning.advice)?;
        found.push(warning)?;
    }
    if is_partial(sides.source) && destination != NOWHERE {
        found.push(partial_source(alloc, text, &sides)?)?;
    }
    Ok(())
}

// The sides of a spec, and the ref that Git writes for its destination.
#[derive(Clone, Copy)]
struct Sides<'s> {
    source: &'s [u8],
    destination: &'s [u8],
    full: &'s [u8],
}

impl Sides<'_> {
    // Whether Git completes the destination.
    fn is_completed(&self) -> bool {
        !is_pattern(self.destination) && self.full != self.destination
    }
}

// The source of a spec; empty without one.
fn source_of<'a>(spec: &RefSpecRef<'a>) -> &'a [u8] {
    match spec.source() {
        None => b"",
        Some(source) => source.as_bytes(),
    }
}

// Whether a source is neither a full name nor a pattern nor an object id.
fn is_partial(source: &[u8]) -> bool {
    !source.is_empty() && !is_pattern(source) && !may_be_ref(source) && !is_id(source)
}

// Says what Git makes of a destination that it completes.
fn explain_outside(sides: &Sides<'_>, out: &mut Vec<u8>) -> Result<(), AllocError> {
    if sides.destination == NOWHERE {
        return out.extend_from_slice(b"Git refuses @ as a destination.");
    }
    say(out, "Git writes ", sides.full)?;
    let owner: &[u8] = if sides.full.starts_with(b"refs/heads/") {
        b", a branch of this repository. "
    } else {
        b". "
    };
    out.extend_from_slice(owner)?;
    out.extend_from_slice(b"`git fetch --prune` never deletes it for this spec.")
}

// Advises to write the destination in full. A full destination is pruned if no ref that is fetched has the source as
// written, so the source has to be in full too, and not excluded.
fn advise_outside(
    alloc: Global,
    spec: &RefSpecRef<'_>,
    sides: &Sides<'_>,
    exclusions: &Exclusions<'_>,
    out: &mut Vec<u8>,
) -> Result<(), AllocError> {
    if sides.destination == NOWHERE {
        return out.extend_from_slice(b"Write a full name.");
    }
    let source = full_source(alloc, sides.source)?;
    if exclusions.spec_of(source.as_slice()).is_some() {
        return out.extend_from_slice(
            b"Exclude less first: `git fetch --prune` deletes a full destination of an excluded source.",
        );
    }
    if !is_partial(sides.source) {
        say(out, "Write ", sides.full)?;
        return out.extend_from_slice(b", or the full name of another ref.");
    }
    let mut both = Vec::new(alloc);
    if spec.allow_non_fast_forward() {
        both.push(b'+')?;
    }
    both.extend_from_slice(source.as_slice())?;
    both.push(b':')?;
    both.extend_from_slice(sides.full)?;
    say(out, "Write both sides in full: ", both.as_slice())?;
    say(out, ", if ", sides.source)?;
    say(out, " is ", source.as_slice())?;
    out.extend_from_slice(b" on the remote.")
}

// A source in full, if it is partial as that of a branch.
fn full_source(alloc: Global, source: &[u8]) -> Result<Vec<u8>, AllocError> {
    if is_partial(source) {
        return Ok(written_name(alloc, source)?.into_vec());
    }
    Vec::from_slice(alloc, source)
}

// The warning on a source that isn't a full name.
fn partial_source<'a>(
    alloc: Global,
    text: &Text<'a>,
    sides: &Sides<'_>,
) -> Result<Warning<'a>, AllocError>
    ensures { IfOk result (λ w. w.topic ≡ topic.PartialSource) }
{
    let mut warning = Warning::on(alloc, Topic::PartialSource, *text, None)?;
    let message = &mut warning.message;
    if sides.is_completed() {
        say(message, "Git compares ", sides.source)?;
        message.extend_from_slice(b" with full names, so it isn't the upstream of a branch.")?;
    } else {
        say(message, "When Git prunes, it compares ", sides.source)?;
        say(
            message,
            " with full names: one `git fetch --prune` deletes ",
            sides.full,
        )?;
        message.extend_from_slice(
            b", and the next writes it again. Nor is it the upstream of a branch.",
        )?;
    }
    advise_full_name(alloc, b"", sides.source, &mut warning)?;
    Ok(warning)
}
