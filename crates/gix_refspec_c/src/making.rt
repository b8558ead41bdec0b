//! Refspecs made from their parts.

ghost use Rattle.std.specs.Prelude.{◌≡◌, ◌≢◌, ℕ, List, Some, option_map, IfErr, IfOk, MatchOption};
ghost use Rattle.bstr.specs.BStr.{bstr_bytes};
ghost use Rattle.bstr.specs.Owned.{bstring_bytes};
ghost use Rattle.gix_refspec.specs.Specs.Meaning.{printed};
ghost use Rattle.gix_refspec.specs.Specs.Refusal.{Refusal};
ghost use Rattle.gix_refspec.specs.Views.Instruction.{IsShownAs};
ghost use Rattle.gix_refspec.specs.Views.Spec.{owned_reading_of};
ghost use Rattle.gix_refspec_remote.specs.Parts.{mode_in};
ghost use Rattle.gix_refspec_c.specs.Buffer.{IsWrittenTo, WritesNothing};
ghost use Rattle.gix_refspec_c.specs.Making.{IsMadeOf, IsNoMode, IsUnmadeOf, side_given, source_given};
ghost use Rattle.gix_refspec_c.specs.Outcome.{Answers, of_refusal};
ghost use Rattle.gix_refspec_c.specs.Reading.{code_of};
ghost use Rattle.gix_refspec_c.specs.Sides.{mode_code, sides_in};

use crate::failure::{Failure, failure_of, outcome_of};
use crate::reading::operation_of;
use crate::sides::Sides;
use crate::write::write;
use bstr::{BStr, BString};
use gix_refspec::RefSpec;
use gix_refspec::parsing::{Error, Operation};
use gix_refspec_remote::{PartsError, Sign, SpecParts, from_parts};
use std::alloc::Global;

/// The canonical text of the refspec with this mode and these sides. Any number but 0 says that a side is
/// there; a missing source is written as an empty one, and a missing destination without its colon. Fails
/// with `OtherParts` if the text that they make has another mode or other sides, as for a source that begins
/// with a sign; with `NoOperation` if the mode is unknown; and otherwise as that text is refused. Sets `len`
/// to the required size even if `buffer` is too small, and leaves `buffer` unchanged then; after any other
/// failure nothing has changed.
#[unsafe(no_mangle)]
pub extern "C" fn gix_refspec_from_parts(
    alloc: Global,
    sides: &Sides<'_>,
    operation: u32,
    buffer: &mut [u8],
    len: &mut usize,
) -> u32
    ensures { Answers code_of operation
        (λ op. (answer : List ℕ) × IsMadeOf op (sides_in sides.now) answer ×
        IsWrittenTo answer buffer.old buffer.new len.new)
        (λ op. WritesNothing (IsMadeOf op (sides_in sides.now)) (IsUnmadeOf op (sides_in sides.now))
        buffer.old buffer.new len.old len.new)
        ((buffer.new ≡ buffer.old) × (len.new ≡ len.old)) result }
{
    let operation = match operation_of(operation) {
        Some(operation) => operation,
        None => return Failure::NoOperation.number(),
    };
    match made_of(alloc, sides, operation) {
        Ok(answer) => outcome_of(write(answer.as_bytes(), buffer, len)),
        Err(failure) => failure.number(),
    }
}

// The canonical text of a refspec with these sides.
fn made_of(alloc: Global, sides: &Sides<'_>, operation: Operation) -> Result<BString, Failure>
    ensures ok { IfOk result (λ answer. IsMadeOf operation (sides_in sides.now) (bstring_bytes answer)) }
    ensures err { IfErr result (λ f. (f ≢ Failure.TooSmall) × IsUnmadeOf operation (sides_in sides.now) f) }
{
    let Some(sign) = sign_numbered(sides.mode) else {
        return Err(Failure::NoOperation);
    };
    let parts = SpecParts {
        operation,
        sign,
        source: source_of(sides),
        destination: side_given(sides.has_destination, sides.destination),
    };
    let spec = match from_parts(alloc, parts) {
        Ok(spec) => spec,
        Err(error) => return Err(failure_of_parts(&error)),
    };
    print_owned(alloc, &spec)
}

// The sign of the mode with this number.
fn sign_numbered(number: u32) -> Option<Sign>
    ensures { MatchOption result (IsNoMode number) (λ sign. number ≡ mode_code (mode_in sign)) }
{
    match number {
        1 => Some(Sign::None),
        2 => Some(Sign::Plus),
        3 => Some(Sign::Caret),
        _ => None,
    }
}

// The source, which is empty if it is missing.
fn source_of<'a>(sides: &Sides<'a>) -> BStr<'a>
    ensures { bstr_bytes result ≡ source_given (sides_in sides.now) }
{
    match side_given(sides.has_source, sides.source) {
        Some(source) => source,
        None => BStr::new(b""),
    }
}

/// A side that a caller gives, unless the number is 0, which says that it is missing.
pub(crate) fn side_given(present: u32, side: &[u8]) -> Option<BStr<'_>>
    ensures { option_map bstr_bytes result ≡ side_given present side.now }
{
    if present == 0 {
        return None;
    }
    Some(BStr::new(side))
}

/// The failure that reports why parts make no refspec.
pub(crate) fn failure_of_parts(error: &PartsError) -> Failure
    ensures other { error.now ≡ PartsError.OtherParts → result ≡ Failure.OtherParts }
    ensures text { (e : Error) (r : Refusal) → error.now ≡ PartsError.Text e → IsShownAs e r → result ≡ of_refusal r }
    ensures memory { error.now ≡ PartsError.Memory → result ≡ Failure.NoMemory }
{
    match error {
        PartsError::OtherParts => Failure::OtherParts,
        PartsError::Text(error) => failure_of(error),
        PartsError::Memory => Failure::NoMemory,
    }
}

/// The canonical text of a refspec.
pub(crate) fn print_owned(alloc: Global, spec: &RefSpec) -> Result<BString, Failure>
    ensures ok { IfOk result (λ text. printed (owned_reading_of spec.now) ≡ Some (bstring_bytes text)) }
    ensures err { IfErr result (λ f. f ≡ Failure.NoMemory) }
{
    match spec.to_ref().to_bstring(alloc) {
        Ok(text) => Ok(text),
        Err(_) => Err(Failure::NoMemory),
    }
}
