//! The mode of a refspec and its sides, for C.

ghost use Rattle.std.specs.Prelude.{◌≡◌, OnOk, IfErr};
ghost use Rattle.gix_refspec.specs.Views.Spec.{reading_of};
ghost use Rattle.gix_refspec_c.specs.Outcome.{Answers};
ghost use Rattle.gix_refspec_c.specs.Reading.{IsUnread, code_of};
ghost use Rattle.gix_refspec_c.specs.Sides.{HasSides, SidesShown, mode_code, sides_in, sides_of};

use crate::failure::{Failure, outcome_of};
use crate::reading::{operation_of, read};
use gix_refspec::RefSpecRef;
use gix_refspec::parsing::Operation;
use std::alloc::Global;

/// The mode and the sides of a refspec. A missing side is empty; a present side never is.
#[repr(C)]
#[derive(Clone, Copy)]
pub struct Sides<'a> {
    /// From 1: without a sign, forced by `+`, negative by `^`.
    pub mode: u32,
    /// 1 if there is a source, else 0.
    pub has_source: u32,
    /// 1 if there is a destination, else 0. It is 0 for a push of `main`, whose destination is its source.
    pub has_destination: u32,
    /// A slice of the text, or the constant `HEAD`.
    pub source: &'a [u8],
    /// A slice of the text.
    pub destination: &'a [u8],
}

/// The mode of a refspec and its sides: what its text says, before defaults for a push are filled in.
/// After a failure `sides` is unchanged.
#[unsafe(no_mangle)]
pub extern "C" fn gix_refspec_read<'a>(
    alloc: Global,
    text: &'a [u8],
    operation: u32,
    sides: &mut Sides<'a>,
) -> u32
    ensures { Answers code_of operation
        (λ op. HasSides op text.now (sides_in sides.new))
        (λ op f. IsUnread op text.now f × (sides.new ≡ sides.old))
        (sides.new ≡ sides.old) result }
{
    match operation_of(operation) {
        Some(operation) => outcome_of(read_sides(alloc, text, operation, sides)),
        None => Failure::NoOperation.number(),
    }
}

// Sets the sides to those of a refspec for the operation.
fn read_sides<'a>(
    alloc: Global,
    text: &'a [u8],
    operation: Operation,
    sides: &mut Sides<'a>,
) -> Result<(), Failure>
    ensures ok { OnOk result (HasSides operation text.now (sides_in sides.new)) }
    ensures err { IfErr result (λ f. IsUnread operation text.now f × (sides.new ≡ sides.old)) }
{
    let spec = read(alloc, text, operation)?;
    *sides = sides_of(&spec);
    Ok(())
}

// The mode and the sides of a spec.
fn sides_of<'a>(spec: &RefSpecRef<'a>) -> Sides<'a>
    ensures { sides_in result ≡ sides_of (reading_of spec.now) }
{
    let (has_source, source) = match spec.source() {
        Some(source) => (1, source.as_bytes()),
        None => (0, b"".as_slice()),
    };
    let (has_destination, destination) = match spec.destination() {
        Some(destination) => (1, destination.as_bytes()),
        None => (0, b"".as_slice()),
    };
    Sides {
        mode: mode_number(spec),
        has_source,
        has_destination,
        source,
        destination,
    }
}

// The number of the mode of a spec.
fn mode_number(spec: &RefSpecRef<'_>) -> u32
    ensures { result ≡ mode_code (reading_of spec.now).mode }
{
    if spec.is_negative() {
        3
    } else if spec.allow_non_fast_forward() {
        2
    } else {
        1
    }
}
