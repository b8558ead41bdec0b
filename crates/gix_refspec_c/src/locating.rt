//! Which bytes of a refused text are wrong.

ghost use Rattle.std.specs.Prelude.{◌≡◌};
ghost use Rattle.gix_refspec_c.specs.Outcome.{Answers};
ghost use Rattle.gix_refspec_c.specs.Reading.{code_of};
ghost use Rattle.gix_refspec_c.specs.Span.{ShowsSpan, shown_as};

use crate::failure::Failure;
use crate::reading::operation_of;
use bstr::BStr;
use gix_refspec::locate;
use gix_refspec::parsing::{Operation, Side, Span as Found};

/// The bytes of a text that are wrong, all in one side. If none are, all fields are 0.
#[repr(C)]
#[derive(Clone, Copy)]
pub struct Span {
    /// 1 for the source, 2 for the destination.
    pub side: u32,
    /// The index of the first of them in the text, from 0.
    pub start: usize,
    /// How many they are, at least one.
    pub len: usize,
}

/// The bytes of a text that make `gix_refspec_check` refuse it for the same operation. All fields of `span`
/// are 0 if the text is a refspec, or if something is missing rather than wrong. Never needs memory.
#[unsafe(no_mangle)]
pub extern "C" fn gix_refspec_locate(text: &[u8], operation: u32, span: &mut Span) -> u32
    ensures { Answers code_of operation
        (λ op. ShowsSpan op text.now span.new) (λ op f. ⊥) (span.new ≡ span.old) result }
{
    match operation_of(operation) {
        Some(operation) => {
            *span = located(text, operation);
            0
        }
        None => Failure::NoOperation.number(),
    }
}

// The wrong bytes of a text for an operation.
fn located(text: &[u8], operation: Operation) -> Span
    ensures { ShowsSpan operation text.now result }
{
    match locate(BStr::new(text), operation) {
        Some(found) => shown(found),
        None => Span {
            side: 0,
            start: 0,
            len: 0,
        },
    }
}

// The span for C.
fn shown(found: Found) -> Span
    ensures { result ≡ shown_as found }
{
    Span {
        side: match found.side {
            Side::Source => 1,
            Side::Destination => 2,
        },
        start: found.start,
        len: found.len,
    }
}
