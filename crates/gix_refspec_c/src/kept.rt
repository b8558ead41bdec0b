//! The mappings that a match keeps, written straight to the slices of a caller.

ghost use Rattle.std.specs.Prelude.{◌≡◌, ◌≤◌, ◌<◌, ◌+◌, get_or, length, IfErr, IfSome, OnOk};
ghost use Rattle.std.specs.List.{flat_map};
ghost use Rattle.gix_refspec.specs.Texts.ObjectId.{id_bytes, lower_of};
ghost use Rattle.gix_refspec.specs.Views.Group.{mapped_of, readings_of};
ghost use Rattle.gix_refspec_c.specs.Kept.{Fills, entries_of, entry_in, no_entry, text_in, with_text};
ghost use Rattle.gix_refspec_c.specs.Mapping.{HasAll, LacksRoom, Room, backward_entry, forward_entry, text_of};

use crate::failure::Failure;
use crate::listing::{MappingOut, Numbers, numbers_of, struct_of};
use gix_refspec::MatchGroup;
use gix_refspec::match_group::{Mapping, SourceRef, match_lhs, match_rhs};
use gix_refspec::oid::ObjectId;

/// What a match keeps: the group, and its mappings.
#[derive(Drop)]
pub(crate) enum Kept<'spec, 'item> {
    /// From left to right.
    Forward(match_lhs::Outcome<'spec, 'item>),
    /// From right to left.
    Backward(match_rhs::Outcome<'spec, 'item>),
}

/// A text of a mapping: bytes, or the hexadecimal digits of an id.
#[derive(Clone, Copy)]
pub(crate) enum Shown<'m> {
    Bytes(&'m [u8]),
    Id(&'m ObjectId),
}

/// A mapping for C: its numbers, and its texts.
#[derive(Clone, Copy)]
pub(crate) struct Piece<'m> {
    pub(crate) numbers: Numbers,
    pub(crate) id: Shown<'m>,
    pub(crate) made: Shown<'m>,
}

impl<'m> Shown<'m> {
    // How many bytes the text has.
    fn len(&self) -> usize
        ensures { result ≡ length (text_in self.now) }
    {
        match self {
            Shown::Bytes(bytes) => bytes.len(),
            Shown::Id(id) => id.kind().len_in_hex(),
        }
    }

    // Writes the text to a buffer from this offset on. Returns the offset after it.
    fn write_at(&self, at: usize, buffer: &mut [u8]) -> usize
        requires { at + length (text_in self.now) ≤ length buffer.old }
        ensures end { result ≡ at + length (text_in self.now) }
        ensures written { buffer.new ≡ with_text at (text_in self.now) buffer.old }
    {
        let end = at + self.len();
        match self {
            Shown::Bytes(bytes) => buffer[at..end].copy_from_slice(bytes),
            Shown::Id(id) => write_digits(id, &mut buffer[at..end]),
        }
        end
    }
}

// Writes the digits of an id to a slice of their length.
fn write_digits(id: &ObjectId, slice: &mut [u8])
    requires { length slice.old ≡ length (lower_of (id_bytes id.now)) }
    ensures { slice.new ≡ lower_of (id_bytes id.now) }
{
    match hex::encode_to_slice(id.as_slice(), slice) {
        Ok(()) => {}
        Err(_) => unreachable!(),
    }
}

impl Kept<'_, '_> {
    // How many mappings there are.
    fn count(&self) -> usize
        ensures { result ≡ length (entries_of self.now) }
    {
        match self {
            Kept::Forward(outcome) => outcome.mappings.len(),
            Kept::Backward(outcome) => outcome.mappings.len(),
        }
    }

    // The mapping with this index.
    fn piece(&self, index: usize) -> Piece<'_>
        requires { index < length (entries_of self.now) }
        ensures { entry_in result ≡ get_or (entries_of self.now) index no_entry }
    {
        match self {
            Kept::Forward(outcome) => forward_piece(&outcome.group, &outcome.mappings[index]),
            Kept::Backward(outcome) => backward_piece(&outcome.group, &outcome.mappings[index]),
        }
    }

    // How many bytes all texts have. `None` if there are more than a `usize` can count.
    fn texts_len(&self) -> Option<usize>
        ensures { IfSome result (λ len. len ≡ length (flat_map text_of (entries_of self.now))) }
    {
        let mut len = 0usize;
        for index in 0..self.count() {
            let piece = self.piece(index);
            len = len
                .checked_add(piece.id.len())?
                .checked_add(piece.made.len())?;
        }
        Some(len)
    }
}

// A mapping from left to right.
fn forward_piece<'m>(group: &MatchGroup<'_>, mapping: &'m Mapping<'_, '_>) -> Piece<'m>
    ensures { entry_in result ≡ forward_entry (readings_of group.now) (mapped_of mapping.now) }
{
    let id = match &mapping.lhs {
        SourceRef::FullName(_) => Shown::Bytes(b""),
        SourceRef::ObjectId(id) => Shown::Id(id),
    };
    let (has_destination, made) = match &mapping.rhs {
        None => (0, b"".as_slice()),
        Some(name) => (1, name.as_bstr().as_bytes()),
    };
    Piece {
        numbers: numbers_of(group, mapping, has_destination),
        id,
        made: Shown::Bytes(made),
    }
}

// A mapping from right to left.
fn backward_piece<'m>(group: &MatchGroup<'_>, mapping: &'m Mapping<'_, '_>) -> Piece<'m>
    ensures { entry_in result ≡ backward_entry (readings_of group.now) (mapped_of mapping.now) }
{
    let made = match &mapping.lhs {
        SourceRef::FullName(name) => Shown::Bytes(name.as_bstr().as_bytes()),
        SourceRef::ObjectId(id) => Shown::Id(id),
    };
    let has_destination = if mapping.rhs.is_some() { 1 } else { 0 };
    Piece {
        numbers: numbers_of(group, mapping, has_destination),
        id: Shown::Bytes(b""),
        made,
    }
}

/// Writes mappings to the start of two slices, if both are long enough, and sets the counts to the required sizes in
/// any case. Fails with `NoMemory`, and then changes nothing, if the texts are too long for any memory.
pub(crate) fn write_kept(
    kept: &Kept<'_, '_>,
    mappings: &mut [MappingOut],
    buffer: &mut [u8],
    count: &mut usize,
    len: &mut usize,
) -> Result<(), Failure>
    ensures ok { OnOk result (HasAll (entries_of kept.now)
        (record { mappings = mappings.old; buffer = buffer.old; count = count.old; len = len.old })
        (record { mappings = mappings.new; buffer = buffer.new; count = count.new; len = len.new })) }
    ensures err { IfErr result (LacksRoom (entries_of kept.now)
        (record { mappings = mappings.old; buffer = buffer.old; count = count.old; len = len.old })
        (record { mappings = mappings.new; buffer = buffer.new; count = count.new; len = len.new })) }
{
    let Some(texts_len) = kept.texts_len() else {
        return Err(Failure::NoMemory);
    };
    *count = kept.count();
    *len = texts_len;
    if mappings.len() < *count || buffer.len() < *len {
        return Err(Failure::TooSmall);
    }
    fill(kept, mappings, buffer);
    Ok(())
}

// Writes mappings to the start of two slices that are long enough.
fn fill(kept: &Kept<'_, '_>, mappings: &mut [MappingOut], buffer: &mut [u8])
    requires count { length (entries_of kept.now) ≤ length mappings.old }
    requires len { length (flat_map text_of (entries_of kept.now)) ≤ length buffer.old }
    ensures { Fills (entries_of kept.now) mappings.old buffer.old mappings.new buffer.new }
{
    let mut at = 0;
    for index in 0..kept.count() {
        let piece = kept.piece(index);
        let made_at = piece.id.write_at(at, buffer);
        let end = piece.made.write_at(made_at, buffer);
        mappings[index] = struct_of(piece.numbers, at, piece.id.len(), made_at, piece.made.len());
        at = end;
    }
}
