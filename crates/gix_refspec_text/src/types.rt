//! The mode of a refspec, and its instruction.

use crate::instruction;

/// The mode of a refspec, given by its sign.
#[derive(Clone, Copy, Debug, PartialEq, Eq)]
pub(crate) enum Mode {
    /// No sign.
    Normal,
    /// `+`: non-fast-forward updates are allowed.
    Force,
    /// `^`: matching refs are excluded.
    Negative,
}

/// What a refspec says to do. Instructions are compared, ordered and hashed by their operation, then their
/// variant, then their fields; specs by their instructions. The instruction of a spec is one that `parse`
/// accepts; an instruction built by a caller is not checked.
#[derive(Clone, Copy, Debug, PartialEq, Eq, PartialOrd, Ord, Hash)]
pub enum Instruction<'a> {
    /// For a push.
    Push(instruction::Push<'a>),
    /// For a fetch.
    Fetch(instruction::Fetch<'a>),
}
