//! The parts of an instruction, for C.

ghost use Rattle.std.specs.Prelude.{◌≡◌};
ghost use Rattle.gix_refspec.specs.Views.Instruction.{meaning_of_instruction, meaning_of_fetch, meaning_of_push};
ghost use Rattle.gix_refspec_c.specs.Single.{bit, parts_in, parts_of};

use gix_refspec::Instruction;
use gix_refspec::instruction::{Fetch, Push};

/// The instruction of a refspec. A missing side is empty; a present side never is.
#[repr(C)]
#[derive(Clone, Copy)]
pub struct Parts<'a> {
    /// From 1: a push of all matching branches, a push that deletes, a push, a push that excludes, a
    /// fetch of a source alone, a fetch that excludes, a fetch that updates.
    pub kind: u32,
    /// 1 if non-fast-forward updates are allowed, else 0.
    pub forced: u32,
    /// A slice of the text, or the constant `HEAD`.
    pub source: &'a [u8],
    /// A slice of the text, or the constant `HEAD` for a push of `@`.
    pub destination: &'a [u8],
}

/// The parts of an instruction.
pub(crate) fn parts_of(instruction: Instruction<'_>) -> Parts<'_>
    ensures { parts_in result ≡ parts_of (meaning_of_instruction instruction.entry) }
{
    match instruction {
        Instruction::Push(push) => parts_of_push(push),
        Instruction::Fetch(fetch) => parts_of_fetch(fetch),
    }
}

fn parts_of_push(push: Push<'_>) -> Parts<'_>
    ensures { parts_in result ≡ parts_of (meaning_of_push push.entry) }
{
    match push {
        Push::AllMatchingBranches {
            allow_non_fast_forward,
        } => made_of(1, allow_non_fast_forward, b"", b""),
        Push::Delete { ref_or_pattern } => made_of(2, false, b"", ref_or_pattern.as_bytes()),
        Push::Matching {
            src,
            dst,
            allow_non_fast_forward,
        } => made_of(3, allow_non_fast_forward, src.as_bytes(), dst.as_bytes()),
        Push::Exclude { src } => made_of(4, false, src.as_bytes(), b""),
    }
}

fn parts_of_fetch(fetch: Fetch<'_>) -> Parts<'_>
    ensures { parts_in result ≡ parts_of (meaning_of_fetch fetch.entry) }
{
    match fetch {
        Fetch::Only { src } => made_of(5, false, src.as_bytes(), b""),
        Fetch::Exclude { src } => made_of(6, false, src.as_bytes(), b""),
        Fetch::AndUpdate {
            src,
            dst,
            allow_non_fast_forward,
        } => made_of(7, allow_non_fast_forward, src.as_bytes(), dst.as_bytes()),
    }
}

// `Parts` of these values, with 1 or 0 for `forced`.
fn made_of<'a>(kind: u32, forced: bool, source: &'a [u8], destination: &'a [u8]) -> Parts<'a>
    ensures { parts_in result ≡ record { kind = kind; forced = bit forced; source = source.now; destination = destination.now } }
{
    Parts {
        kind,
        forced: if forced { 1 } else { 0 },
        source,
        destination,
    }
}
