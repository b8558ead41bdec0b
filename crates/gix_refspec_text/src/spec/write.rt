//! Instructions and refspecs as canonical text.

ghost use Rattle.std.specs.Prelude.{◌≡◌, ◌∷◌, ◌++◌, ◌≤◌, IfOk, OnOk, length};
ghost use Rattle.std.specs.Io.KnownBytes.{Appends};
ghost use Rattle.bstr.specs.Owned.{bstring_bytes};
ghost use Rattle.gix_refspec_text.specs.Texts.Bytes.{colon};
ghost use Rattle.gix_refspec_text.specs.Specs.Meaning.{sign as sign_of, text_of};
ghost use Rattle.gix_refspec_text.specs.Views.Instruction.{meaning_of_instruction, meaning_of_push, meaning_of_fetch};
ghost use Rattle.gix_refspec_text.specs.Private.Pieces.{text_of_pieces, optional_byte};

use crate::instruction::{Fetch, Push};
use crate::spec::RefSpecRef;
use crate::types::Instruction;
use bstr::BString;
use std::alloc::{AllocError, Global};
use std::io;
use std::io::Write;

// The pieces of a canonical text, in this order, with a colon before a destination.
#[derive(Clone, Copy)]
pub(crate) struct Pieces<'a> {
    pub(crate) sign: Option<u8>,
    pub(crate) source: &'a [u8],
    pub(crate) destination: Option<&'a [u8]>,
}

// `+` if forced.
fn sign(forced: bool) -> Option<u8>
    ensures { optional_byte result ≡ sign_of forced }
{
    if forced { Some(b'+') } else { None }
}

impl<'a> Instruction<'a> {
    /// The canonical text of the instruction. For an instruction built by a caller it may not be a valid
    /// refspec. Fails if memory runs out.
    pub fn to_bstring(&self, alloc: Global) -> Result<BString, AllocError>
        ensures { IfOk result (λ text. bstring_bytes text ≡ text_of (meaning_of_instruction self.now)) }
    {
        let pieces = self.pieces();
        let mut text = Vec::with_capacity(alloc, pieces.len())?;
        if let Some(sign) = pieces.sign {
            text.push(sign)?;
        }
        text.extend_from_slice(pieces.source)?;
        if let Some(destination) = pieces.destination {
            text.push(b':')?;
            text.extend_from_slice(destination)?;
        }
        Ok(BString::new(text))
    }

    /// Writes the canonical text of the instruction, and allocates nothing itself. Fails if the writer
    /// fails; a part of the text may then have been written.
    pub fn write_to<W: Write>(&self, out: &mut W) -> io::Result<()>
        ensures { OnOk result (Appends
            (W.contents out.old) (W.contents out.new) (text_of (meaning_of_instruction self.now))) }
    {
        let pieces = self.pieces();
        if let Some(sign) = pieces.sign {
            out.write_all(&[sign])?;
        }
        out.write_all(pieces.source)?;
        if let Some(destination) = pieces.destination {
            out.write_all(b":")?;
            out.write_all(destination)?;
        }
        Ok(())
    }

    fn pieces(&self) -> Pieces<'a>
        ensures { text_of_pieces result ≡ text_of (meaning_of_instruction self.now) }
    {
        match *self {
            Instruction::Push(push) => push.pieces(),
            Instruction::Fetch(fetch) => fetch.pieces(),
        }
    }
}

impl<'a> Push<'a> {
    fn pieces(self) -> Pieces<'a>
        ensures { text_of_pieces result ≡ text_of (meaning_of_push self.entry) }
    {
        match self {
            Push::AllMatchingBranches {
                allow_non_fast_forward,
            } => Pieces::of_two(allow_non_fast_forward, b"", b""),
            Push::Delete { ref_or_pattern } => Pieces::of_two(
                false,
                b"",
                ref_or_pattern.as_bytes(),
            ),
            Push::Matching {
                src,
                dst,
                allow_non_fast_forward,
            } => Pieces::of_two(allow_non_fast_forward, src.as_bytes(), dst.as_bytes()),
            Push::Exclude { src } => Pieces::of_one(Some(b'^'), src.as_bytes()),
        }
    }
}

impl<'a> Fetch<'a> {
    fn pieces(self) -> Pieces<'a>
        ensures { text_of_pieces result ≡ text_of (meaning_of_fetch self.entry) }
    {
        match self {
            // A `+` that begins the source would be read as the sign, so another is written before it.
            Fetch::Only { src } => {
                let source = src.as_bytes();
                Pieces::of_one(sign(source.first() == Some(&b'+')), source)
            }
            Fetch::Exclude { src } => Pieces::of_one(Some(b'^'), src.as_bytes()),
            Fetch::AndUpdate {
                src,
                dst,
                allow_non_fast_forward,
            } => Pieces::of_two(allow_non_fast_forward, src.as_bytes(), dst.as_bytes()),
        }
    }
}

impl<'a> Pieces<'a> {
    // One side after a sign.
    fn of_one(sign: Option<u8>, source: &'a [u8]) -> Pieces<'a>
        ensures { text_of_pieces result ≡ optional_byte sign ++ source.now }
    {
        Pieces {
            sign,
            source,
            destination: None,
        }
    }

    // Two sides around a colon, after a sign.
    fn of_two(forced: bool, source: &'a [u8], destination: &'a [u8]) -> Pieces<'a>
        ensures { text_of_pieces result ≡ sign_of forced ++ (source.now ++ (colon ∷ destination.now)) }
    {
        Pieces {
            sign: sign(forced),
            source,
            destination: Some(destination),
        }
    }

    // The length of the text in bytes, at most `usize::MAX`.
    fn len(self) -> usize
        ensures { length (text_of_pieces self.entry) ≤ 18446744073709551615 →
            result ≡ length (text_of_pieces self.entry) }
    {
        let sign = if self.sign.is_some() { 1 } else { 0 };
        let destination = match self.destination {
            None => 0,
            Some(destination) => destination.len().saturating_add(1),
        };
        self.source
            .len()
            .saturating_add(sign)
            .saturating_add(destination)
    }
}

impl<'a> RefSpecRef<'a> {
    ghost use Rattle.std.specs.Prelude.{Some};
    ghost use Rattle.gix_refspec_text.specs.Specs.Meaning.{printed, WritesPrinted};
    ghost use Rattle.gix_refspec_text.specs.Views.Spec.{reading_of};

    /// The canonical text of the spec, which `parse` reads back as an equal spec. Fails if memory runs out.
    pub fn to_bstring(&self, alloc: Global) -> Result<BString, AllocError>
        ensures { IfOk result (λ text. printed (reading_of self.now) ≡ Some (bstring_bytes text)) }
    {
        self.instruction().to_bstring(alloc)
    }

    /// Writes the canonical text of the spec, and allocates nothing itself. Fails if the writer fails; a
    /// part of the text may then have been written.
    pub fn write_to<W: Write>(&self, out: &mut W) -> io::Result<()>
        ensures { OnOk result (WritesPrinted
            (reading_of self.now) (W.contents out.old) (W.contents out.new)) }
    {
        self.instruction().write_to(out)
    }
}
