//! Checks ref names and patterns, by git-check-ref-format(1).

ghost use Rattle.std.specs.Prelude.{◌≡◌, ◌≢◌, ◌↔◌, IsTrue, MatchOption, MatchResult, ◌∷◌, ◌≤◌, [], List, ℕ, length};
ghost use Rattle.std.specs.Bool.{OnTrue};
ghost use Rattle.gix_refspec_text.specs.declared.name.Error.{Error};
ghost use Rattle.gix_refspec_text.specs.Texts.Words.{EndsWith};
ghost use Rattle.gix_refspec_text.specs.Texts.Name.{IsName, HasFault, IsPattern, HasOneStar, ReplacesStar, with_letters};
ghost use Rattle.gix_refspec_text.specs.Texts.Bytes.{slash};
ghost use Rattle.gix_refspec_text.specs.Specs.Explained.{name_explained};
ghost use Rattle.gix_refspec_text.specs.Texts.PatternError.{IsPatternFault};
ghost use Rattle.gix_refspec_text.specs.Private.Scan.{AddsFault, LeavesFault, Finds, IsFoundAt, IsScanned, IsStarCount, Stops, one_if};
ghost use Rattle.gix_refspec_text.specs.Private.Words.{word_begins, word_ends};
ghost use Rattle.gix_refspec_text.specs.Specs.Span.{IsFirstWrongWord};
ghost use Rattle.bstr.specs.BStr.{bstr_bytes};

mod calm;
mod class;

use self::calm::{LANES, calm_run};
use self::class::{Class, class_of};
use bstr::{BStr, ByteSlice};
use smallvec::SmallVec;
use std::alloc::Global;

/// Why a text is not a valid ref name. Which of several faults is reported is left open.
#[derive(Clone, Copy, Debug, PartialEq, Eq, thiserror::Error)]
pub enum Error {
    /// The text is empty.
    #[error("Empty")]
    Empty,
    /// The text begins or ends with a slash, or has two in a row.
    #[error("EmptyComponent")]
    EmptyComponent,
    /// A component begins with a dot.
    #[error("StartsWithDot")]
    StartsWithDot,
    /// A component ends with `.lock`.
    #[error("LockSuffix")]
    LockSuffix,
    /// The text ends with a dot.
    #[error("EndsWithDot")]
    EndsWithDot,
    /// The text has two dots in a row.
    #[error("RepeatedDot")]
    RepeatedDot,
    /// The text contains `@{`.
    #[error("ReflogPortion")]
    ReflogPortion,
    /// The text contains a star.
    #[error("Asterisk")]
    Asterisk,
    /// The text contains a control character, a space or one of `~ ^ : ? [ \`.
    #[error("InvalidByte")]
    InvalidByte {
        /// One such byte of the text.
        byte: u8,
    },
}

impl Error {
    /// What is wrong with the name, in one sentence for a user of Git.
    pub fn explanation(&self) -> &'static str
        ensures { result.now ≡ name_explained self.now }
    {
        match self {
            Error::Empty => "A ref name must not be empty.",
            Error::EmptyComponent => {
                "A ref name must not begin or end with a slash, or have two slashes in a row."
            }
            Error::StartsWithDot => "No part of a ref name between slashes may begin with a dot.",
            Error::LockSuffix => "No part of a ref name between slashes may end with `.lock`.",
            Error::EndsWithDot => "A ref name must not end with a dot.",
            Error::RepeatedDot => "A ref name must not have two dots in a row.",
            Error::ReflogPortion => "A ref name must not have `@{` in it.",
            Error::Asterisk => "A ref name must not have a `*` in it.",
            Error::InvalidByte { .. } => {
                "A ref name must not have a control character, a space or one of ~ ^ : ? [ \\ in it."
            }
        }
    }
}

/// Why a text with exactly one star is not a valid pattern.
#[derive(Clone, Copy, Debug, PartialEq, Eq, thiserror::Error)]
pub enum PatternError {
    /// The text has this fault of a ref name, with a letter in place of its star.
    #[error("{0}")]
    Name(Error),
    /// The text has more than 256 bytes, and memory ran out while copying it.
    #[error("out of memory")]
    Memory,
}

/// Checks a ref name, by git-check-ref-format(1) with `--allow-onelevel`. Unlike there, `@` alone is
/// valid.
///
/// Refuses the empty text, a component that is empty, begins with a dot or ends with `.lock`, a dot at
/// the end, `..`, `@{`, a star, and the bytes listed at `Error::InvalidByte`. If the text has several of
/// these faults, the error is any one of them. Nothing is borrowed or allocated.
pub fn name_partial(name: BStr<'_>) -> Result<(), Error>
    ensures { MatchResult result
        (λ _. IsName (bstr_bytes name.entry))
        (λ e. HasFault (bstr_bytes name.entry) e) }
{
    match fault_of(name.as_bytes()) {
        None => Ok(()),
        Some(fault) => Err(fault),
    }
}

/// Whether a text has exactly one star: the condition of [`pattern_partial`].
pub fn has_one_star(text: BStr<'_>) -> bool
    ensures { IsTrue result ↔ HasOneStar (bstr_bytes text.entry) }
{
    text.as_bytes().iter().filter(|byte| **byte == b'*').count() == 1
}

/// Checks a pattern, as git-check-ref-format(1) does with `--refspec-pattern`: with a letter in place of
/// its star it must be a valid ref name. A text that ends with a slash is refused, as by Git's command,
/// although the manual gives one as an example.
///
/// Requires exactly one star, as [`has_one_star`] tests. `Name` holds one fault of the text with the
/// letter. A text of more than 256 bytes is copied to the heap until the call ends; if memory runs out
/// there, the error is `Memory`.
pub fn pattern_partial(alloc: Global, pattern: BStr<'_>) -> Result<(), PatternError>
    requires { HasOneStar (bstr_bytes pattern) }
    ensures { MatchResult result
        (λ _. IsPattern (bstr_bytes pattern.entry))
        (λ e. IsPatternFault e (bstr_bytes pattern.entry)) }
{
    let text = pattern.as_bytes();
    let Ok(mut with_letter) = SmallVec::<u8, 256>::from_slice(alloc, text) else {
        return Err(PatternError::Memory);
    };
    replace_star(with_letter.as_mut_slice());
    match fault_of(with_letter.as_slice()) {
        None => Ok(()),
        Some(fault) => Err(PatternError::Name(fault)),
    }
}

// A fault of the text, or `None` if it is a valid ref name. Most names need only one pass.
fn fault_of(text: &[u8]) -> Option<Error>
    ensures { MatchOption result (IsName text.now) (λ e. HasFault text.now e) }
{
    if let Ok(false) = starred_name(text) {
        return None;
    }
    found_fault(text)
}

// The same, checked byte by byte.
fn found_fault(text: &[u8]) -> Option<Error>
    ensures { MatchOption result (IsName text.now) (λ e. HasFault text.now e) }
{
    if text.is_empty() {
        return Some(Error::Empty);
    }
    for (index, byte) in text.iter().enumerate() {
        if let Some(fault) = added_fault(&text[..index], *byte) {
            return Some(fault);
        }
    }
    left_fault(text, last_of(text))
}

// Why a text is neither a valid ref name nor a pattern.
#[derive(Clone, Copy)]
pub(crate) enum Stop {
    // It has a second star.
    SecondStar,
    // With letters in place of its stars it has this fault. The index is that of the first byte that adds
    // a fault to those before it, or the length of the text if only its end does.
    Fault(Error, usize),
}

// Whether a ref name or pattern has a star. Fails at a second star, or at the first fault that the text
// has with letters in place of its stars.
#[inline(never)]
pub(crate) fn starred_name(text: &[u8]) -> Result<bool, Stop>
    ensures { MatchResult result
        (λ starred. IsStarCount text.now (one_if starred) × IsName (with_letters text.now))
        (Stops text.now) }
{
    if text.is_empty() {
        return Err(Stop::Fault(Error::Empty, 0));
    }
    let starred = scanned(text)?;
    match left_fault(text, last_of(text)) {
        Some(fault) => Err(Stop::Fault(fault, text.len())),
        None => Ok(starred),
    }
}

// Some bytes of a side: the index of the first, and how many they are.
#[derive(Clone, Copy)]
pub(crate) struct Word {
    pub(crate) start: usize,
    pub(crate) len: usize,
}

// The first bytes that break a rule, in a text whose stars are read as letters: those with the fault that a
// check found at `index`, as `Stop::Fault` says.
pub(crate) fn wrong_word(text: &[u8], fault: Error, index: usize) -> Word
    requires some { text.now ≢ [] }
    requires found { IsFoundAt text.now fault index }
    ensures { IsFirstWrongWord (with_letters text.now) result.start result.len }
{
    let start = start_of_word(fault, index);
    let end = end_of_word(fault, text.len(), index);
    let len = end - start;
    Word { start, len }
}

// The index of the first of these bytes.
fn start_of_word(fault: Error, index: usize) -> usize
    ensures { result ≡ word_begins fault index }
{
    match fault {
        Error::LockSuffix => index.saturating_sub(5),
        Error::Asterisk | Error::InvalidByte { .. } => index,
        _ => index.saturating_sub(1),
    }
}

// The index after the last of them, in a text of `len` bytes.
fn end_of_word(fault: Error, len: usize, index: usize) -> usize
    requires { index ≤ len }
    ensures { result ≡ word_ends fault len index }
{
    match fault {
        Error::LockSuffix => index,
        _ if index == len => len,
        _ => index + 1,
    }
}

// Scans all bytes. Returns whether there is a star; fails at a second star or at a byte that adds a fault.
#[inline(always)]
fn scanned(text: &[u8]) -> Result<bool, Stop>
    ensures { MatchResult result
        (λ starred. IsScanned text.now (length text.now) starred)
        (Stops text.now) }
{
    if text.len() <= LANES {
        return scanned_to(text, 0, text.len(), false);
    }
    let mut starred = scanned_to(text, 0, 1, false)?;
    let mut index = 1;
    while index < text.len() {
        // The last sixteen bytes may overlap those checked before.
        let from = index.min(text.len() - LANES);
        let calm = index.max(from + calm_run(text, from));
        starred = scanned_to(text, calm, from + LANES, starred)?;
        index = from + LANES;
    }
    Ok(starred)
}

// Continues a scan from `from` to `to`; `known` says whether there is a star before `from`. Returns
// whether there is one before `to`, and fails as `scanned` does.
#[inline(always)]
fn scanned_to(text: &[u8], from: usize, to: usize, known: bool) -> Result<bool, Stop>
    requires { (from ≤ to) × (to ≤ length text.now) × IsScanned text.now from known }
    ensures { MatchResult result
        (λ starred. IsScanned text.now to starred)
        (Stops text.now) }
{
    let mut starred = known;
    for index in from..to {
        let byte = text[index];
        if is_plain(byte) {
            continue;
        }
        if byte == b'*' {
            if starred {
                return Err(Stop::SecondStar);
            }
            starred = true;
        } else if let Some(fault) = added_fault(&text[..index], byte) {
            return Err(Stop::Fault(fault, index));
        }
    }
    Ok(starred)
}

// The last byte of a text, or a slash if it is empty: the first component begins as if after a slash.
fn last_of(text: &[u8]) -> u8
    ensures { EndsWith (result ∷ []) (slash ∷ text.now) }
{
    match text {
        [.., last] => *last,
        [] => b'/',
    }
}

// The fault that a byte adds to the text before it.
#[inline(always)]
fn added_fault(before: &[u8], byte: u8) -> Option<Error>
    ensures { Finds result (AddsFault (slash ∷ before.now) byte) }
{
    // Most bytes are plain and need no further check.
    if is_plain(byte) {
        return None;
    }
    special_fault(before, last_of(before), byte)
}

// Whether a byte is allowed anywhere in a ref name.
#[inline(always)]
fn is_plain(byte: u8) -> bool
    ensures { OnTrue result ((y : List ℕ) (e : Error) → ¬ (AddsFault y byte e)) }
{
    matches!(class_of(byte), Class::Plain)
}

// The fault that any byte, plain or not, adds to the text before it. `previous` is the last byte of that
// text, or a slash if it is empty.
fn special_fault(before: &[u8], previous: u8, byte: u8) -> Option<Error>
    requires { EndsWith (previous ∷ []) (slash ∷ before.now) }
    ensures { Finds result (AddsFault (slash ∷ before.now) byte) }
{
    match class_of(byte) {
        Class::Plain => None,
        Class::Slash => {
            if previous == b'/' {
                Some(Error::EmptyComponent)
            } else if before.ends_with(b".lock") {
                Some(Error::LockSuffix)
            } else {
                None
            }
        }
        Class::Dot => match previous {
            b'/' => Some(Error::StartsWithDot),
            b'.' => Some(Error::RepeatedDot),
            _ => None,
        },
        Class::Brace => (previous == b'@').then_some(Error::ReflogPortion),
        Class::Star => Some(Error::Asterisk),
        Class::Refused => Some(Error::InvalidByte { byte }),
    }
}

// The fault at the end of a text. `previous` is its last byte, or a slash if it is empty.
fn left_fault(text: &[u8], previous: u8) -> Option<Error>
    requires { EndsWith (previous ∷ []) (slash ∷ text.now) }
    ensures { Finds result (LeavesFault (slash ∷ text.now)) }
{
    match previous {
        b'/' => Some(Error::EmptyComponent),
        b'.' => Some(Error::EndsWithDot),
        _ if text.ends_with(b".lock") => Some(Error::LockSuffix),
        _ => None,
    }
}

// Replaces the star with the letter `a`.
fn replace_star(text: &mut [u8])
    requires { HasOneStar text.old }
    ensures { ReplacesStar text.old text.new }
{
    if let Some(index) = (&*text).find_byte(b'*') {
        text[index] = b'a';
    }
}
