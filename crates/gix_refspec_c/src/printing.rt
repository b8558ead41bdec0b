//! Instructions as canonical text, also those that a caller makes.

ghost use Rattle.std.specs.Prelude.{◌≡◌, OnOk, IfErr, MatchOption};
ghost use Rattle.gix_refspec.specs.Specs.Meaning.{text_of};
ghost use Rattle.gix_refspec.specs.Views.Instruction.{meaning_of_instruction};
ghost use Rattle.gix_refspec_c.specs.Buffer.{IsWrittenTo, WritesNothing};
ghost use Rattle.gix_refspec_c.specs.Outcome.{Answers};
ghost use Rattle.gix_refspec_c.specs.Printing.{kind_code, meaning_with, text_with};
ghost use Rattle.gix_refspec_c.specs.Single.{parts_in};

use crate::failure::{Failure, outcome_of};
use crate::parts::Parts;
use crate::write::write;
use bstr::BStr;
use gix_refspec::Instruction;
use gix_refspec::instruction::{Fetch, Push};
use std::alloc::Global;

/// What an instruction does.
#[derive(Clone, Copy)]
pub enum Kind {
    /// Pushes all matching branches.
    PushAllMatching,
    /// Deletes the destination.
    PushDelete,
    /// Pushes the source to the destination.
    PushMatching,
    /// Excludes the source from a push.
    PushExclude,
    /// Fetches the source.
    FetchOnly,
    /// Excludes the source from a fetch.
    FetchExclude,
    /// Fetches the source, and updates the destination.
    FetchAndUpdate,
}

/// The canonical text of an instruction. If a caller made it, the text may not be a refspec. A side counts
/// only where the kind has it, and `forced`, which is true unless 0, likewise. Sets `len` to the required
/// size even if `buffer` is too small, and leaves `buffer` unchanged then; after any other failure nothing
/// has changed. For an unknown kind the failure is `NoOperation`.
#[unsafe(no_mangle)]
pub extern "C" fn gix_refspec_print(
    alloc: Global,
    parts: &Parts<'_>,
    buffer: &mut [u8],
    len: &mut usize,
) -> u32
    ensures { Answers kind_code parts.now.kind
        (λ kind. IsWrittenTo (text_with kind (parts_in parts.now)) buffer.old buffer.new len.new)
        (λ kind. WritesNothing (λ text. text ≡ text_with kind (parts_in parts.now))
        (λ f. f ≡ Failure.NoMemory) buffer.old buffer.new len.old len.new)
        ((buffer.new ≡ buffer.old) × (len.new ≡ len.old)) result }
{
    match kind_numbered(parts.kind) {
        Some(kind) => outcome_of(print_parts(alloc, kind, parts, buffer, len)),
        None => Failure::NoOperation.number(),
    }
}

// The kind with this number in C.
fn kind_numbered(number: u32) -> Option<Kind>
    ensures { MatchOption result
        ((kind : Kind) → ¬ (number ≡ kind_code kind)) (λ kind. number ≡ kind_code kind) }
{
    Some(match number {
        1 => Kind::PushAllMatching,
        2 => Kind::PushDelete,
        3 => Kind::PushMatching,
        4 => Kind::PushExclude,
        5 => Kind::FetchOnly,
        6 => Kind::FetchExclude,
        7 => Kind::FetchAndUpdate,
        _ => return None,
    })
}

// Writes the canonical text of the instruction of this kind to a buffer.
fn print_parts(
    alloc: Global,
    kind: Kind,
    parts: &Parts<'_>,
    buffer: &mut [u8],
    len: &mut usize,
) -> Result<(), Failure>
    ensures ok { OnOk result (IsWrittenTo (text_with kind (parts_in parts.now)) buffer.old buffer.new len.new) }
    ensures err { IfErr result (WritesNothing (λ text. text ≡ text_with kind (parts_in parts.now))
        (λ f. f ≡ Failure.NoMemory) buffer.old buffer.new len.old len.new) }
{
    let Ok(text) = instruction_of(kind, parts).to_bstring(alloc) else {
        return Err(Failure::NoMemory);
    };
    write(text.as_bytes(), buffer, len)
}

// The instruction of this kind with these parts.
fn instruction_of<'a>(kind: Kind, parts: &Parts<'a>) -> Instruction<'a>
    ensures { meaning_of_instruction result ≡ meaning_with kind (parts_in parts.now) }
{
    let (src, dst) = (BStr::new(parts.source), BStr::new(parts.destination));
    let allow_non_fast_forward = parts.forced != 0;
    match kind {
        Kind::PushAllMatching => Instruction::Push(Push::AllMatchingBranches {
            allow_non_fast_forward,
        }),
        Kind::PushDelete => Instruction::Push(Push::Delete {
            ref_or_pattern: dst,
        }),
        Kind::PushMatching => Instruction::Push(Push::Matching {
            src,
            dst,
            allow_non_fast_forward,
        }),
        Kind::PushExclude => Instruction::Push(Push::Exclude { src }),
        Kind::FetchOnly => Instruction::Fetch(Fetch::Only { src }),
        Kind::FetchExclude => Instruction::Fetch(Fetch::Exclude { src }),
        Kind::FetchAndUpdate => Instruction::Fetch(Fetch::AndUpdate {
            src,
            dst,
            allow_non_fast_forward,
        }),
    }
}
