//! The operation that a refspec is parsed for, and the errors of parsing.

ghost use Rattle.std.specs.Prelude.{◌≡◌};
ghost use Rattle.gix_refspec_text.specs.Specs.Explained.{explained, reason_name};
ghost use Rattle.gix_refspec_text.specs.Specs.Refusal.{ReferenceName};
ghost use Rattle.gix_refspec_text.specs.Views.Instruction.{IsShownAs};

use crate::name;
use bstr::BString;

pub(crate) mod locating;
pub(crate) mod reading;

/// What a refspec is used for.
#[derive(Clone, Copy, Debug, PartialEq, Eq, PartialOrd, Ord, Hash)]
pub enum Operation {
    /// The source is local and the destination is on the remote.
    Push,
    /// The source is on the remote and the destination is local.
    Fetch,
}

/// A side of a refspec.
#[derive(Clone, Copy, Debug, PartialEq, Eq)]
pub enum Side {
    /// What comes before the last colon, or the whole text without a colon. The sign isn't part of it.
    Source,
    /// What follows the last colon.
    Destination,
}

/// The bytes of a refused text that are wrong, all in one side.
#[derive(Clone, Copy, Debug, PartialEq, Eq)]
pub struct Span {
    /// The side that contains them.
    pub side: Side,
    /// The index of the first of them in the whole text, from 0.
    pub start: usize,
    /// How many they are, at least one.
    pub len: usize,
}

/// Why a text is not a refspec. If several reasons apply, the first in this order is returned: `Empty`,
/// `NegativeWithDestination`, `PushToEmpty`, `PatternUnsupported` or `ReferenceName` of the source,
/// the same of the destination, `PatternUnbalanced`, `NegativeEmpty`, `NegativeObjectHash`. `Memory`
/// is returned only if no reason applies before the check of the side that needs the memory.
#[derive(Debug, Drop, PartialEq, Eq, thiserror::Error)]
pub enum Error {
    /// The text for a push is empty.
    #[error("Empty refspecs are invalid")]
    Empty,
    /// A negative spec has a colon.
    #[error("Negative refspecs cannot have destinations as they exclude sources")]
    NegativeWithDestination,
    /// A negative spec has no source.
    #[error("Negative specs must not be empty")]
    NegativeEmpty,
    /// A negative spec has 40 or more hex digits and nothing else.
    #[error("Negative specs must not be object hashes")]
    NegativeObjectHash,
    /// Kept for callers that match on it, and never returned: a negative spec may be a partial name.
    #[error("Negative specs must be full ref names, starting with \"refs/\"")]
    NegativePartialName,
    /// Kept for callers that match on it, and never returned: a negative spec may be a pattern.
    #[error("Negative glob patterns are not allowed")]
    NegativeGlobPattern,
    /// Kept for callers that match on it, and never returned: a bad destination is a `ReferenceName`.
    #[error("Fetch destinations must be ref-names, like 'HEAD:refs/heads/branch'")]
    InvalidFetchDestination,
    /// A push has a source, a colon, and no destination after it.
    #[error("Cannot push into an empty destination")]
    PushToEmpty,
    /// A side has two stars or more.
    #[error("refspec patterns may only contain a single '*' character, found {pattern:?}")]
    PatternUnsupported {
        /// The side, whole.
        pattern: BString,
    },
    /// Exactly one side has a star. A missing side has none, but a push of a source alone is balanced, as
    /// its source is its destination too.
    #[error("Both sides of a two-sided specification need a pattern, like 'a/*:b/*'")]
    PatternUnbalanced,
    /// A side is neither a ref name nor a pattern. Holds one fault of it, with a letter for its only star.
    #[error(transparent)]
    ReferenceName(name::Error),
    /// Memory ran out. Only for a side with several stars, which the error would hold whole; the contract
    /// also allows it for a side with a star and more than 256 bytes.
    #[error("out of memory")]
    Memory,
}

impl Error {
    /// The name of the reason, as its variant has it, without what the variant holds.
    pub fn reason(&self) -> &'static str
        ensures { result.now ≡ reason_name self.now }
    {
        match self {
            Error::Empty => "Empty",
            Error::NegativeWithDestination => "NegativeWithDestination",
            Error::NegativeEmpty => "NegativeEmpty",
            Error::NegativeObjectHash => "NegativeObjectHash",
            Error::NegativePartialName => "NegativePartialName",
            Error::NegativeGlobPattern => "NegativeGlobPattern",
            Error::InvalidFetchDestination => "InvalidFetchDestination",
            Error::PushToEmpty => "PushToEmpty",
            Error::PatternUnsupported { .. } => "PatternUnsupported",
            Error::PatternUnbalanced => "PatternUnbalanced",
            Error::ReferenceName(_) => "ReferenceName",
            Error::Memory => "Memory",
        }
    }

    /// What is wrong with the refspec, in one sentence for a user of Git.
    pub fn explanation(&self) -> &'static str
        ensures { result.now ≡ explained self.now }
    {
        match self {
            Error::Empty => "A refspec for a push must not be empty.",
            Error::NegativeWithDestination => {
                "A refspec that begins with `^` must not have a destination."
            }
            Error::NegativeEmpty => "A refspec that begins with `^` needs a source after the `^`.",
            Error::NegativeObjectHash => {
                "A refspec that begins with `^` must not have an object id as its source."
            }
            Error::NegativePartialName => {
                "A refspec that begins with `^` needs a full name, which begins with `refs/`."
            }
            Error::NegativeGlobPattern => "A refspec that begins with `^` must not have a pattern.",
            Error::InvalidFetchDestination =>
                "The destination of a fetch must be the name of a ref.",
            Error::PushToEmpty => "A push needs a destination after the colon.",
            Error::PatternUnsupported { .. } => {
                "A side of a refspec must not have more than one `*`."
            }
            Error::PatternUnbalanced =>
                "Either both sides of a refspec have a `*`, or neither has.",
            Error::ReferenceName(name) => name.explanation(),
            Error::Memory => "There was not enough memory to read the refspec.",
        }
    }
}

impl From<name::Error> for Error {
    ghost from_gives = { λ fault e. IsShownAs e (ReferenceName fault) };

    fn from(fault: name::Error) -> Error {
        Error::ReferenceName(fault)
    }
}
