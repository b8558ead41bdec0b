//! What one refspec makes of one name.

ghost use Rattle.std.specs.Prelude.{◌≡◌, OnOk, IfErr};
ghost use Rattle.gix_refspec.specs.Views.Spec.{reading_of};
ghost use Rattle.gix_refspec_c.specs.Naming.{IsAnswered, IsNotWrittenAs, IsWrittenAs, IsUnanswered, WritesNoName};
ghost use Rattle.gix_refspec_c.specs.Naming.{Shown, ShowsBackward, ShowsForward};
ghost use Rattle.gix_refspec_c.specs.Outcome.{Answers};
ghost use Rattle.gix_refspec_c.specs.Reading.{code_of};

use crate::failure::{Failure, outcome_of};
use crate::reading::{operation_of, read};
use crate::write::write;
use bstr::BStr;
use gix_refspec::RefSpecRef;
use gix_refspec::match_group::{MapName, SourceRef};
use std::alloc::Global;

/// What a refspec makes of a name. The name that it makes is at the start of the buffer.
#[repr(C)]
#[derive(Clone, Copy)]
pub struct Made {
    /// 1 if the refspec maps the name, else 0.
    pub mapped: u32,
    /// 1 if the mapping has a destination, else 0.
    pub has_destination: u32,
    /// The length of the name that the refspec makes: of the destination, or for `gix_refspec_map_back` of the source.
    pub len: usize,
}

/// Maps a name by a refspec alone, from left to right: the name is the source, and the destination is made. Sets
/// `made` even if `buffer` is too small, and leaves `buffer` unchanged then; after any other failure nothing has
/// changed.
#[unsafe(no_mangle)]
pub extern "C" fn gix_refspec_map(
    alloc: Global,
    text: &[u8],
    operation: u32,
    name: &[u8],
    buffer: &mut [u8],
    made: &mut Made,
) -> u32
    ensures { Answers code_of operation
        (λ op. (s : Shown) × IsAnswered (ShowsForward name.now) op text.now s ×
        IsWrittenAs s buffer.old buffer.new made.new)
        (λ op. WritesNoName (IsAnswered (ShowsForward name.now) op text.now) (IsUnanswered op text.now)
        buffer.old buffer.new made.old made.new)
        ((buffer.new ≡ buffer.old) × (made.new ≡ made.old)) result }
{
    let operation = match operation_of(operation) {
        Some(operation) => operation,
        None => return Failure::NoOperation.number(),
    };
    match read(alloc, text, operation) {
        Ok(spec) => outcome_of(map(alloc, &spec, name, buffer, made)),
        Err(failure) => failure.number(),
    }
}

/// Maps a name by a refspec alone, from right to left: the name is the destination, and the source is made. All else
/// is as in `gix_refspec_map`.
#[unsafe(no_mangle)]
pub extern "C" fn gix_refspec_map_back(
    alloc: Global,
    text: &[u8],
    operation: u32,
    name: &[u8],
    buffer: &mut [u8],
    made: &mut Made,
) -> u32
    ensures { Answers code_of operation
        (λ op. (s : Shown) × IsAnswered (ShowsBackward name.now) op text.now s ×
        IsWrittenAs s buffer.old buffer.new made.new)
        (λ op. WritesNoName (IsAnswered (ShowsBackward name.now) op text.now) (IsUnanswered op text.now)
        buffer.old buffer.new made.old made.new)
        ((buffer.new ≡ buffer.old) × (made.new ≡ made.old)) result }
{
    let operation = match operation_of(operation) {
        Some(operation) => operation,
        None => return Failure::NoOperation.number(),
    };
    match read(alloc, text, operation) {
        Ok(spec) => outcome_of(map_back(alloc, &spec, name, buffer, made)),
        Err(failure) => failure.number(),
    }
}

// Writes what a spec makes of a name from left to right.
fn map(
    alloc: Global,
    spec: &RefSpecRef<'_>,
    name: &[u8],
    buffer: &mut [u8],
    made: &mut Made,
) -> Result<(), Failure>
    ensures ok { OnOk result ((s : Shown) × ShowsForward name.now (reading_of spec.now) s ×
        IsWrittenAs s buffer.old buffer.new made.new) }
    ensures err { IfErr result (WritesNoName (ShowsForward name.now (reading_of spec.now))
        (λ f. f ≡ Failure.NoMemory) buffer.old buffer.new made.old made.new) }
{
    let mapping = match spec.map(alloc, BStr::new(name)) {
        Ok(Some(mapping)) => mapping,
        Ok(None) => return write_made(0, 0, b"", buffer, made),
        Err(_) => return Err(Failure::NoMemory),
    };
    match &mapping.rhs {
        Some(destination) => write_made(1, 1, destination.as_bstr().as_bytes(), buffer, made),
        None => write_made(1, 0, b"", buffer, made),
    }
}

// Writes what a spec makes of a name from right to left.
fn map_back(
    alloc: Global,
    spec: &RefSpecRef<'_>,
    name: &[u8],
    buffer: &mut [u8],
    made: &mut Made,
) -> Result<(), Failure>
    ensures ok { OnOk result ((s : Shown) × ShowsBackward name.now (reading_of spec.now) s ×
        IsWrittenAs s buffer.old buffer.new made.new) }
    ensures err { IfErr result (WritesNoName (ShowsBackward name.now (reading_of spec.now))
        (λ f. f ≡ Failure.NoMemory) buffer.old buffer.new made.old made.new) }
{
    let mapping = match spec.map_back(alloc, BStr::new(name)) {
        Ok(Some(mapping)) => mapping,
        Ok(None) => return write_made(0, 0, b"", buffer, made),
        Err(_) => return Err(Failure::NoMemory),
    };
    let has_destination = if mapping.rhs.is_some() { 1 } else { 0 };
    match &mapping.lhs {
        SourceRef::FullName(source) => {
            write_made(
                1,
                has_destination,
                source.as_bstr().as_bytes(),
                buffer,
                made,
            )
        }
        // No name is mapped back to an id.
        SourceRef::ObjectId(_) => unreachable!(),
    }
}

// Copies a name to the start of a slice, if that is long enough, and sets the struct in any case.
fn write_made(
    mapped: u32,
    has_destination: u32,
    name: &[u8],
    buffer: &mut [u8],
    made: &mut Made,
) -> Result<(), Failure>
    ensures ok { OnOk result (IsWrittenAs
        (record { mapped = mapped; has_destination = has_destination; name = name.now })
        buffer.old buffer.new made.new) }
    ensures small { IfErr result (λ f. (f ≡ Failure.TooSmall) × IsNotWrittenAs
        (record { mapped = mapped; has_destination = has_destination; name = name.now })
        buffer.old buffer.new made.new) }
{
    made.mapped = mapped;
    made.has_destination = has_destination;
    write(name, buffer, &mut made.len)
}
