//! The failures of calls, and their numbers in C.

ghost use Rattle.std.specs.Prelude.{◌≡◌};
ghost use Rattle.gix_refspec.specs.Specs.Refusal.{Refusal};
ghost use Rattle.gix_refspec.specs.Views.Instruction.{IsShownAs};
ghost use Rattle.gix_refspec_c.specs.Outcome.{IsNumberOf, number_of, of_fault, of_refusal};

use gix_refspec::name;
use gix_refspec::parsing::Error;

/// Why a call fails. At `InConflict` and `MissingSource` its lists are filled all the same.
#[derive(Clone, Copy)]
pub enum Failure {
    /// The text for a push is empty.
    Empty,
    /// A negative spec has a colon.
    NegativeWithDestination,
    /// A negative spec has no source.
    NegativeEmpty,
    /// A negative spec is made of 40 or more hex digits.
    NegativeObjectHash,
    /// A push has a source and nothing after its last colon.
    PushToEmpty,
    /// A side has two stars or more.
    PatternUnsupported,
    /// Exactly one side has a star.
    PatternUnbalanced,
    /// A side is empty. Kept for the fault of that name, and never returned.
    NameEmpty,
    /// A side begins or ends with a slash, or contains two in a row.
    NameEmptyComponent,
    /// A component begins with a dot.
    NameStartsWithDot,
    /// A component ends with `.lock`.
    NameLockSuffix,
    /// A side ends with a dot.
    NameEndsWithDot,
    /// A side contains two dots in a row.
    NameRepeatedDot,
    /// A side contains `@{`.
    NameReflogPortion,
    /// A name contains a star. Kept for the fault of that name, and never returned.
    NameAsterisk,
    /// A side contains a control character, a space or one of `~ ^ : ? [ \`.
    NameInvalidByte,
    /// Only a request for all refs is safe.
    NoList,
    /// The buffer is too small for the answer.
    TooSmall,
    /// Memory ran out.
    NoMemory,
    /// The number isn't that of an operation, a direction, a kind or an outcome.
    NoOperation,
    /// A destination is an id, which can't be matched by names alone.
    NeedsIds,
    /// An update is in conflict.
    InConflict,
    /// The remote lacks the source of a refspec.
    MissingSource,
    /// Digits spell no id.
    InvalidId,
    /// The text of the parts has other parts.
    OtherParts,
}

impl Failure {
    /// Its number in C.
    pub fn number(self) -> u32
        ensures { result ≡ number_of self }
    {
        match self {
            Failure::Empty => 1,
            Failure::NegativeWithDestination => 2,
            Failure::NegativeEmpty => 3,
            Failure::NegativeObjectHash => 4,
            Failure::PushToEmpty => 5,
            Failure::PatternUnsupported => 6,
            Failure::PatternUnbalanced => 7,
            Failure::NameEmpty => 8,
            Failure::NameEmptyComponent => 9,
            Failure::NameStartsWithDot => 10,
            Failure::NameLockSuffix => 11,
            Failure::NameEndsWithDot => 12,
            Failure::NameRepeatedDot => 13,
            Failure::NameReflogPortion => 14,
            Failure::NameAsterisk => 15,
            Failure::NameInvalidByte => 16,
            Failure::NoList => 17,
            Failure::TooSmall => 18,
            Failure::NoMemory => 19,
            Failure::NoOperation => 20,
            Failure::NeedsIds => 21,
            Failure::InConflict => 22,
            Failure::MissingSource => 23,
            Failure::InvalidId => 24,
            Failure::OtherParts => 25,
        }
    }
}

/// The outcome of a call: 0, or the number of the failure.
pub(crate) fn outcome_of(ended: Result<(), Failure>) -> u32
    ensures { IsNumberOf ended result }
{
    match ended {
        Ok(()) => 0,
        Err(failure) => failure.number(),
    }
}

/// The failure that reports a refusal, or `NoMemory` if memory ran out. Variants of `Error` that are
/// never returned give `NoMemory` too.
pub(crate) fn failure_of(error: &Error) -> Failure
    ensures refusal { (e : Refusal) → IsShownAs error.now e → result ≡ of_refusal e }
    ensures memory { error.now ≡ Error.Memory → result ≡ Failure.NoMemory }
{
    match error {
        Error::Empty => Failure::Empty,
        Error::NegativeWithDestination => Failure::NegativeWithDestination,
        Error::NegativeEmpty => Failure::NegativeEmpty,
        Error::NegativeObjectHash => Failure::NegativeObjectHash,
        Error::PushToEmpty => Failure::PushToEmpty,
        Error::PatternUnsupported { .. } => Failure::PatternUnsupported,
        Error::PatternUnbalanced => Failure::PatternUnbalanced,
        Error::ReferenceName(fault) => failure_of_name(fault),
        Error::NegativePartialName
        | Error::NegativeGlobPattern
        | Error::InvalidFetchDestination
        | Error::Memory => Failure::NoMemory,
    }
}

// The failure that reports a fault of a name.
fn failure_of_name(fault: &name::Error) -> Failure
    ensures { result ≡ of_fault fault.now }
{
    match fault {
        name::Error::Empty => Failure::NameEmpty,
        name::Error::EmptyComponent => Failure::NameEmptyComponent,
        name::Error::StartsWithDot => Failure::NameStartsWithDot,
        name::Error::LockSuffix => Failure::NameLockSuffix,
        name::Error::EndsWithDot => Failure::NameEndsWithDot,
        name::Error::RepeatedDot => Failure::NameRepeatedDot,
        name::Error::ReflogPortion => Failure::NameReflogPortion,
        name::Error::Asterisk => Failure::NameAsterisk,
        name::Error::InvalidByte { .. } => Failure::NameInvalidByte,
    }
}
