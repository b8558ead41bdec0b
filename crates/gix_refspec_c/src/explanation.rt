//! The outcomes explained, each in one sentence for a user of Git.

ghost use Rattle.std.specs.Prelude.{◌≡◌, ◌≢◌, ℕ, List, ◌++◌, ◌∷◌, [], MatchOption};
ghost use Rattle.gix_refspec_c.specs.Explanation.{ended, said, well};
ghost use Rattle.gix_refspec_c.specs.Outcome.{Answers, number_of};

use crate::failure::Failure;

/// A text of the caller, or for the caller: in C a pointer and a length.
#[repr(C)]
#[derive(Clone, Copy)]
pub struct Text<'a> {
    /// The bytes.
    pub bytes: &'a [u8],
}

/// Sets `sentence` to the sentence for an outcome, followed in memory by a NUL that its length doesn't
/// count. For an unknown outcome the text is unchanged, and the number of `NoOperation` is returned.
#[unsafe(no_mangle)]
pub extern "C" fn gix_refspec_explanation(outcome: u32, sentence: &mut Text<'static>) -> u32
    ensures done { outcome ≡ 0 → (result ≡ 0) × (sentence.new.bytes.now ≡ well) }
    ensures failure { outcome ≢ 0 → Answers number_of outcome
        (λ f. sentence.new.bytes.now ≡ said f) (λ f g. ⊥)
        (sentence.new ≡ sentence.old) result }
{
    if outcome == 0 {
        *sentence = before_nul(b"The call has its answer.\0");
        return 0;
    }
    match failure_numbered(outcome) {
        Some(failure) => {
            *sentence = before_nul(sentence_of(failure));
            0
        }
        None => Failure::NoOperation.number(),
    }
}

/// The text without the NUL at its end.
pub(crate) fn before_nul(text: &'static [u8]) -> Text<'static>
    ensures { (sentence : List ℕ) → text.now ≡ ended sentence → result.bytes.now ≡ sentence }
{
    let sentence = match text.split_last() {
        Some((_, before)) => before,
        None => text,
    };
    Text { bytes: sentence }
}

// The failure with this number.
fn failure_numbered(number: u32) -> Option<Failure>
    ensures { MatchOption result
        ((f : Failure) → ¬ (number ≡ number_of f)) (λ f. number ≡ number_of f) }
{
    Some(match number {
        1 => Failure::Empty,
        2 => Failure::NegativeWithDestination,
        3 => Failure::NegativeEmpty,
        4 => Failure::NegativeObjectHash,
        5 => Failure::PushToEmpty,
        6 => Failure::PatternUnsupported,
        7 => Failure::PatternUnbalanced,
        8 => Failure::NameEmpty,
        9 => Failure::NameEmptyComponent,
        10 => Failure::NameStartsWithDot,
        11 => Failure::NameLockSuffix,
        12 => Failure::NameEndsWithDot,
        13 => Failure::NameRepeatedDot,
        14 => Failure::NameReflogPortion,
        15 => Failure::NameAsterisk,
        16 => Failure::NameInvalidByte,
        17 => Failure::NoList,
        18 => Failure::TooSmall,
        19 => Failure::NoMemory,
        20 => Failure::NoOperation,
        21 => Failure::NeedsIds,
        22 => Failure::InConflict,
        23 => Failure::MissingSource,
        24 => Failure::InvalidId,
        25 => Failure::OtherParts,
        _ => return None,
    })
}

// The sentence for a failure, and a NUL.
fn sentence_of(failure: Failure) -> &'static [u8]
    ensures { result.now ≡ ended (said failure) }
{
    match failure {
        Failure::Empty => b"A refspec for a push must not be empty.\0",
        Failure::NegativeWithDestination => {
            b"A refspec that begins with `^` must not have a destination.\0"
        }
        Failure::NegativeEmpty => b"A refspec that begins with `^` needs a source after the `^`.\0",
        Failure::NegativeObjectHash => {
            b"A refspec that begins with `^` must not have an object id as its source.\0"
        }
        Failure::PushToEmpty => b"A push needs a destination after the colon.\0",
        Failure::PatternUnsupported => { b"A side of a refspec must not have more than one `*`.\0" }
        Failure::PatternUnbalanced => {
            b"Either both sides of a refspec have a `*`, or neither has.\0"
        }
        Failure::NameEmpty => b"A ref name must not be empty.\0",
        Failure::NameEmptyComponent => {
            b"A ref name must not begin or end with a slash, or have two slashes in a row.\0"
        }
        Failure::NameStartsWithDot => {
            b"No part of a ref name between slashes may begin with a dot.\0"
        }
        Failure::NameLockSuffix => {
            b"No part of a ref name between slashes may end with `.lock`.\0"
        }
        Failure::NameEndsWithDot => b"A ref name must not end with a dot.\0",
        Failure::NameRepeatedDot => b"A ref name must not have two dots in a row.\0",
        Failure::NameReflogPortion => b"A ref name must not have `@{` in it.\0",
        Failure::NameAsterisk => b"A ref name must not have a `*` in it.\0",
        Failure::NameInvalidByte => {
            b"A ref name must not have a control character, a space or one of ~ ^ : ? [ \\ in it.\0"
        }
        Failure::NoList => b"Only a request for all refs is safe.\0",
        Failure::TooSmall => b"The buffer has no room for the answer.\0",
        Failure::NoMemory => b"Memory ran out.\0",
        Failure::NoOperation => b"There is no such operation, direction, kind, mode or outcome.\0",
        Failure::NeedsIds => {
            b"A destination is an object id, and names alone don't tell which refs have it.\0"
        }
        Failure::InConflict => b"Several refs would be written to one destination.\0",
        Failure::MissingSource => b"The remote lacks the source of a refspec.\0",
        Failure::InvalidId => b"An object id has 40 or 64 hexadecimal digits.\0",
        Failure::OtherParts => {
            b"The source begins with a sign, or the last part has a colon in it.\0"
        }
    }
}
