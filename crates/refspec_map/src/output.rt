//! The lines of the output.

ghost use Rattle.std.specs.Prelude.{◌≡◌, ◌++◌, ◌∷◌, List, ℕ, [], codes, decimal, map, option_map, IfErr, IfOk, IsOk, OnOk};
ghost use Rattle.std.specs.List.{flat_map, zip};
ghost use Rattle.bstr.specs.Owned.{bstring_bytes};
ghost use Rattle.gix_refspec.specs.Views.Group.{name_bytes, start_of};
ghost use Rattle.gix_refspec.specs.Views.Issue.{removed_of};
ghost use Rattle.gix_refspec.specs.Texts.ObjectId.{id_bytes, lower_of};
ghost use Rattle.refspec_map.specs.Fault.{IsMemory};
ghost use Rattle.refspec_map.specs.Matching.{destination_text, item_text, source_text, tab};
ghost use Rattle.refspec_map.specs.Plan.{AppendsFix, AppendsFixes, claim_text};

use crate::fault::Fault;
use bstr::BString;
use gix_refspec::RefSpecRef;
use gix_refspec::match_group::validate::{Fix, Issue};
use gix_refspec::match_group::{Mapping, NameRef, Source, SourceRef};
use gix_refspec::oid::ObjectId;
use itoa::Buffer;
use std::alloc::{AllocError, Global};
use std::io;
use std::io::Write;

/// The answer of a canon command to a line.
#[derive(Clone, Copy)]
pub(crate) enum Answer<'a> {
    /// The line is this spec.
    Accepted(RefSpecRef<'a>),
    /// The line is refused for the reason with this name.
    Refused(&'static str),
}

impl<'a> Answer<'a> {
    ghost use Rattle.refspec_map.specs.Output.{AppendsLine, is_refusal};

    pub(crate) fn is_refused(&self) -> bool
        ensures { result ≡ is_refusal self.now }
    {
        matches!(self, Answer::Refused(_))
    }

    /// Appends the answer as a line: `ok` and the canonical text, or `err` and the name of the
    /// reason.
    pub(crate) fn append(&self, output: &mut Vec<u8>) -> Result<(), Fault>
        ensures ok { OnOk result (AppendsLine self.now output.old.items output.new.items) }
        ensures err { IfErr result IsMemory }
    {
        grown(self.write_to(output))
    }

    // The same, but returns the error of the writer.
    fn write_to(&self, output: &mut Vec<u8>) -> io::Result<()>
        ensures { OnOk result (AppendsLine self.now output.old.items output.new.items) }
    {
        match self {
            Answer::Accepted(spec) => {
                output.write_all(b"ok ")?;
                spec.write_to(output)?;
            }
            Answer::Refused(name) => {
                output.write_all(b"err ")?;
                output.write_all(name.as_bytes())?;
            }
        }
        output.write_all(b"\n")
    }
}

/// A value that has a line of its own in the output.
pub(crate) trait HasLine {
    ghost line: { Self → List ℕ };

    /// Appends the line, with its newline.
    fn write_line(&self, output: &mut Vec<u8>) -> Result<(), AllocError>
        ensures { OnOk result (output.new.items ≡ output.old.items ++ line self.now) };
}

/// The lines of values, in order.
pub(crate) fn lines_of<L: HasLine>(alloc: Global, shown: &[L]) -> Result<Vec<u8>, Fault>
    ensures ok { IfOk result (λ lines. lines.items ≡ flat_map L.line shown.now) }
    ensures err { IfErr result IsMemory }
{
    let mut lines = Vec::new(alloc);
    for one in shown {
        let Ok(()) = one.write_line(&mut lines) else {
            return Err(Fault::Memory);
        };
    }
    Ok(lines)
}

/// Appends the lines of fixes, in order.
pub(crate) fn append_fixes(output: &mut Vec<u8>, fixes: &[Fix]) -> Result<(), Fault>
    ensures ok { OnOk result (AppendsFixes
        (map removed_of fixes.now) output.old.items output.new.items) }
    ensures err { IfErr result IsMemory }
{
    for fix in fixes {
        grown(write_fix(output, fix))?;
    }
    Ok(())
}

// The result of writing to a vector, which fails only if memory runs out.
fn grown<E: Drop>(written: Result<(), E>) -> Result<(), Fault>
    ensures ok { OnOk result (IsOk written) }
    ensures err { IfErr result IsMemory }
{
    match written {
        Ok(()) => Ok(()),
        Err(_) => Err(Fault::Memory),
    }
}

impl HasLine for Mapping<'_, '_> {
    ghost use Rattle.gix_refspec.specs.Views.Group.{mapped_of};
    ghost use Rattle.refspec_map.specs.Matching.{map_line};

    ghost line = { λ m. map_line (mapped_of m) };

    fn write_line(&self, output: &mut Vec<u8>) -> Result<(), AllocError> {
        write_indexes(output, self.spec_index, self.item_index)?;
        write_source(output, &self.lhs)?;
        write_destination(output, &self.rhs)?;
        output.extend_from_slice(b"\n")
    }
}

// Writes the start of a mapping's line: the indexes of its spec and of its item, or `-` without an item.
fn write_indexes(output: &mut Vec<u8>, spec: usize, item: Option<usize>) -> Result<(), AllocError>
    ensures { OnOk result (output.new.items ≡ output.old.items
        ++ (codes "map\t" ++ (decimal spec ++ (tab ∷ (item_text item ++ (tab ∷ [])))))) }
{
    output.extend_from_slice(b"map\t")?;
    write_number(output, spec)?;
    output.extend_from_slice(b"\t")?;
    match item {
        Some(place) => {
            write_number(output, place)?;
            output.extend_from_slice(b"\t")
        }
        None => output.extend_from_slice(b"-\t"),
    }
}

// Writes a number in decimal digits.
fn write_number(output: &mut Vec<u8>, number: usize) -> Result<(), AllocError>
    ensures { OnOk result (output.new.items ≡ output.old.items ++ decimal number) }
{
    output.extend_from_slice(Buffer::new().format(number).as_bytes())
}

// Writes a source: a name by its bytes, or an id in lower case.
fn write_source(output: &mut Vec<u8>, source: &SourceRef<'_>) -> Result<(), AllocError>
    ensures { OnOk result (output.new.items ≡
        output.old.items ++ source_text (start_of source.now)) }
{
    match source {
        SourceRef::FullName(name) => output.extend_from_slice(name.as_bstr().as_bytes()),
        SourceRef::ObjectId(id) => write_id(output, id),
    }
}

// Writes an id in lower case.
fn write_id(output: &mut Vec<u8>, id: &ObjectId) -> Result<(), AllocError>
    ensures { OnOk result (output.new.items ≡ output.old.items ++ lower_of (id_bytes id.now)) }
{
    match write!(output, "{id}") {
        Ok(()) => Ok(()),
        Err(_) => Err(AllocError),
    }
}

// Writes a tab and the destination, if there is one.
fn write_destination(
    output: &mut Vec<u8>,
    destination: &Option<NameRef<'_>>,
) -> Result<(), AllocError>
    ensures { OnOk result (output.new.items ≡
        output.old.items ++ destination_text (option_map name_bytes destination.now)) }
{
    match destination {
        Some(name) => {
            output.extend_from_slice(b"\t")?;
            output.extend_from_slice(name.as_bstr().as_bytes())
        }
        None => Ok(()),
    }
}

impl HasLine for Issue {
    ghost use Rattle.gix_refspec.specs.Views.Issue.{conflict_of};
    ghost use Rattle.refspec_map.specs.Plan.{conflict_line};

    ghost line = { λ issue. conflict_line (conflict_of issue) };

    fn write_line(&self, output: &mut Vec<u8>) -> Result<(), AllocError> {
        let Issue::Conflict {
            destination_full_ref_name,
            sources,
            specs,
        } = self;
        output.extend_from_slice(b"conflict\t")?;
        output.extend_from_slice(destination_full_ref_name.as_bytes())?;
        write_claims(output, sources.as_slice(), specs.as_slice())?;
        output.extend_from_slice(b"\n")
    }
}

// Writes sources and the texts of their specs, with a tab before each.
fn write_claims(
    output: &mut Vec<u8>,
    sources: &[Source],
    specs: &[BString],
) -> Result<(), AllocError>
    ensures { OnOk result (output.new.items ≡ output.old.items
        ++ flat_map claim_text (zip (map start_of sources.now) (map bstring_bytes specs.now))) }
{
    for (source, spec) in sources.iter().zip(specs) {
        output.extend_from_slice(b"\t")?;
        write_source(output, source)?;
        output.extend_from_slice(b"\t")?;
        output.extend_from_slice(spec.as_bytes())?;
    }
    Ok(())
}

// Writes the line of a fix: the destination that was removed, and the canonical text of its spec.
fn write_fix(output: &mut Vec<u8>, fix: &Fix) -> io::Result<()>
    ensures { OnOk result (AppendsFix (removed_of fix.now) output.old.items output.new.items) }
{
    let Fix::MappingWithPartialDestinationRemoved { name, spec } = fix;
    output.write_all(b"fix\t")?;
    output.write_all(name.as_bytes())?;
    output.write_all(b"\t")?;
    spec.to_ref().write_to(output)?;
    output.write_all(b"\n")
}
