//! The instructions of refspecs, by operation.

ghost use Rattle.std.specs.Prelude.{◌≡◌};
ghost use Rattle.gix_refspec_text.specs.Views.Instruction.{meaning_of_instruction, meant_for};

use crate::parsing::Operation;
use crate::types::Instruction;
use bstr::BStr;

/// What a push does.
#[derive(Clone, Copy, Debug, PartialEq, Eq, PartialOrd, Ord, Hash)]
pub enum Push<'a> {
    /// Pushes each local branch that the remote has too.
    AllMatchingBranches {
        /// Whether the spec had a `+`: non-fast-forward updates are allowed.
        allow_non_fast_forward: bool,
    },
    /// Deletes the remote ref. A `+` changes nothing.
    Delete {
        /// The ref name, full or partial. No spec deletes a pattern; the field has its name from the Rust
        /// crate.
        ref_or_pattern: BStr<'a>,
    },
    /// Pushes the source to the destination; both are patterns, or neither.
    Matching {
        /// The local side. If the text has a destination, it may also be any expression for an object, such
        /// as `main~2`: any bytes but a star.
        src: BStr<'a>,
        /// The side on the remote. It is the source if the text has no destination.
        dst: BStr<'a>,
        /// Whether the spec had a `+`: non-fast-forward updates are allowed.
        allow_non_fast_forward: bool,
    },
    /// Excludes the refs that the source matches.
    Exclude {
        /// A name or a pattern, without the `^`.
        src: BStr<'a>,
    },
}

/// What a fetch does.
#[derive(Clone, Copy, Debug, PartialEq, Eq, PartialOrd, Ord, Hash)]
pub enum Fetch<'a> {
    /// Fetches the source and updates no local ref. A `+` changes nothing.
    Only {
        /// The side on the remote: a name, full or partial, or an object id.
        src: BStr<'a>,
    },
    /// Excludes the refs that the source matches.
    Exclude {
        /// A name or a pattern, without the `^`.
        src: BStr<'a>,
    },
    /// Fetches the source and updates the destination. Both are patterns, or neither is.
    AndUpdate {
        /// The side on the remote.
        src: BStr<'a>,
        /// The local side.
        dst: BStr<'a>,
        /// Whether the spec had a `+`: non-fast-forward updates are allowed.
        allow_non_fast_forward: bool,
    },
}

impl Instruction<'_> {
    /// Whether the instruction is for a push or for a fetch.
    pub fn operation(&self) -> Operation
        ensures { result ≡ meant_for (meaning_of_instruction self.now) }
    {
        match self {
            Instruction::Push(_) => Operation::Push,
            Instruction::Fetch(_) => Operation::Fetch,
        }
    }
}
