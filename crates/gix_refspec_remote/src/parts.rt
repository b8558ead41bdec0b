//! Refspecs made from their parts.

ghost use Rattle.std.specs.Prelude.{◌≡◌, ◌≢◌, ◌↔◌, [], option_map, IfErr, IfOk, IsTrue};
ghost use Rattle.bstr.specs.BStr.{bstr_bytes};
ghost use Rattle.bstr.specs.Owned.{bstring_bytes};
ghost use Rattle.gix_refspec_text.specs.Specs.Grammar.{IsSigned, IsUnsigned, LastLacksColon, with_colon};
ghost use Rattle.gix_refspec_text.specs.Views.Spec.{owned_reading_of};
ghost use Rattle.gix_refspec_remote.specs.Parts.{AreApart, HasReading, IsWhyNot, destination_in, mode_in, text_of_parts, sign_bytes};

use bstr::{BStr, BString};
use gix_refspec_text::parsing::Operation;
use gix_refspec_text::split::contains;
use gix_refspec_text::{RefSpec, parse, parsing};
use std::alloc::{AllocError, Global};

/// The sign of a refspec, which gives its mode.
#[derive(Clone, Copy, Debug, PartialEq, Eq)]
pub enum Sign {
    /// No sign.
    None,
    /// `+`: non-fast-forward updates are allowed.
    Plus,
    /// `^`: matching refs are excluded.
    Caret,
}

/// The parts of a refspec, which needn't make one.
#[derive(Clone, Copy, Debug)]
pub struct SpecParts<'a> {
    /// What the refspec is used for.
    pub operation: Operation,
    /// The sign.
    pub sign: Sign,
    /// What comes after the sign, up to the last colon. It may be empty.
    pub source: BStr<'a>,
    /// What follows the last colon, and may be empty; `None` without a colon.
    pub destination: Option<BStr<'a>>,
}

/// Why parts don't make a refspec.
#[derive(Debug, Drop, PartialEq, Eq, thiserror::Error)]
pub enum PartsError {
    /// Their text has other parts: it begins with a sign where there is none, or the last part contains a colon.
    #[error("the source begins with a sign, or the last part contains a colon")]
    OtherParts,
    /// `parse` refuses their text, for this reason. It isn't `Memory`.
    #[error(transparent)]
    Text(parsing::Error),
    /// Memory ran out.
    #[error("out of memory")]
    Memory,
}

impl From<AllocError> for PartsError {
    ghost use Rattle.gix_refspec_remote.specs.declared.parts.PartsError.{PartsError};

    ghost from_gives = { λ _ e. e ≡ PartsError.Memory };

    fn from(_error: AllocError) -> PartsError {
        PartsError::Memory
    }
}

/// The refspec with these parts: what `parse` makes of their text, which is the sign, the source, and a colon and the
/// destination if there is one. Any text with other parts than these is refused, and so is what `parse` refuses, for
/// the same reason.
///
/// As in `parse`, a source `@` is read as `HEAD`, and so is the empty source of a fetch; an empty destination is none.
/// Fails if memory runs out.
pub fn from_parts(alloc: Global, parts: SpecParts<'_>) -> Result<RefSpec, PartsError>
    ensures ok { IfOk result (λ spec. HasReading parts.entry (owned_reading_of spec)) }
    ensures refused { IfErr result (λ e. e ≢ PartsError.Memory → IsWhyNot parts.entry e) }
{
    if !are_apart(&parts) {
        return Err(PartsError::OtherParts);
    }
    let text = text_of(alloc, &parts)?;
    match parse(alloc, text.as_bstr(), parts.operation) {
        Ok(spec) => Ok(spec.to_owned(alloc)?),
        Err(error) => match error {
            parsing::Error::Memory => Err(PartsError::Memory),
            error => Err(PartsError::Text(error)),
        },
    }
}

// Whether the text of parts has these parts.
fn are_apart(parts: &SpecParts<'_>) -> bool
    ensures { IsTrue result ↔ AreApart parts.now }
{
    begins_so(parts) && ends_so(parts)
}

// Whether the text of parts has their sign: without one, the source doesn't begin with one.
fn begins_so(parts: &SpecParts<'_>) -> bool
    ensures { IsTrue result ↔ IsSigned (mode_in parts.now.sign)
        (text_of_parts parts.now) (with_colon (bstr_bytes parts.now.source) (destination_in parts.now)) }
{
    match parts.sign {
        Sign::None => is_unsigned(parts.source.as_bytes()),
        Sign::Plus | Sign::Caret => true,
    }
}

// Whether the last part doesn't contain a colon.
fn ends_so(parts: &SpecParts<'_>) -> bool
    ensures { IsTrue result ↔ LastLacksColon (bstr_bytes parts.now.source) (destination_in parts.now) }
{
    match parts.destination {
        None => !contains(parts.source.as_bytes(), b':'),
        Some(destination) => !contains(destination.as_bytes(), b':'),
    }
}

// Whether a source begins without a sign.
fn is_unsigned(source: &[u8]) -> bool
    ensures { IsTrue result ↔ IsUnsigned source.now }
{
    match source {
        [b'+' | b'^', ..] => false,
        _ => true,
    }
}

// The text of parts.
fn text_of(alloc: Global, parts: &SpecParts<'_>) -> Result<BString, AllocError>
    ensures { IfOk result (λ text. bstring_bytes text ≡ text_of_parts parts.now) }
{
    let mut text = Vec::new(alloc);
    text.extend_from_slice(bytes_of(parts.sign))?;
    text.extend_from_slice(parts.source.as_bytes())?;
    if let Some(destination) = parts.destination {
        text.push(b':')?;
        text.extend_from_slice(destination.as_bytes())?;
    }
    Ok(BString::new(text))
}

// The bytes of a sign.
fn bytes_of(sign: Sign) -> &'static [u8]
    ensures { result.now ≡ sign_bytes (mode_in sign) }
{
    match sign {
        Sign::None => b"",
        Sign::Plus => b"+",
        Sign::Caret => b"^",
    }
}
