//! Mappings as a caller receives them: a struct for each, and their texts.

ghost use Rattle.std.specs.Prelude.{◌≡◌, ◌++◌, ◌∷◌, [], map, length, IfErr, IfOk, OnOk};
ghost use Rattle.std.specs.String.{string_bytes};
ghost use Rattle.gix_refspec.specs.Views.Group.{mapped_of, readings_of, start_of};
ghost use Rattle.gix_refspec.specs.Views.Spec.{reading_of};
ghost use Rattle.gix_refspec_c.specs.Mapping.{IsNotWritten, IsWritten, Room, Describes, backward_entry, entry_with, forced_at, forward_entry, id_text, number_of_index, text_of, described_at, described_by};

use crate::failure::Failure;
use crate::parts::parts_of;
use gix_refspec::match_group::{Mapping, SourceRef};
use gix_refspec::{MatchGroup, RefSpecRef};
use std::alloc::{AllocError, Global};

/// A mapping for C. Its texts are in the buffer, each with an offset and a length.
#[repr(C)]
#[derive(Clone, Copy)]
pub struct MappingOut {
    /// The index of the spec in the texts; in a plan in those that `origin` says, or `usize::MAX`.
    pub spec: usize,
    /// The index of the name in the names, or `usize::MAX` for an object that is asked for by its id.
    pub item: usize,
    /// 1 if there is a destination, else 0.
    pub has_destination: u32,
    /// 1 if the spec allows non-fast-forward updates, else 0.
    pub forced: u32,
    /// The number of the origin in a plan, and 0 in a match.
    pub origin: u32,
    /// The number of the verdict in a plan, and 0 in a match.
    pub verdict: u32,
    /// The offset of the text of a source that is an id. For any other source its length is 0.
    pub id_at: usize,
    /// Its length.
    pub id_len: usize,
    /// The offset of the name that the spec makes: the destination, or from right to left the source.
    pub made_at: usize,
    /// Its length.
    pub made_len: usize,
}

/// The numbers of a mapping for C.
#[derive(Clone, Copy)]
pub(crate) struct Numbers {
    pub(crate) spec: usize,
    pub(crate) item: usize,
    pub(crate) has_destination: u32,
    pub(crate) forced: u32,
    pub(crate) origin: u32,
    pub(crate) verdict: u32,
}

/// The structs and the texts of mappings.
#[derive(Drop)]
pub(crate) struct Listing {
    pub(crate) mappings: Vec<MappingOut>,
    pub(crate) text: Vec<u8>,
}

impl Listing {
    /// An empty listing with room for so many mappings.
    pub(crate) fn with_room(alloc: Global, count: usize) -> Result<Listing, Failure>
        ensures ok { IfOk result (λ l. Describes [] l.mappings.items l.text.items) }
        ensures err { IfErr result (λ f. f ≡ Failure.NoMemory) }
    {
        match Vec::with_capacity(alloc, count) {
            Ok(mappings) => Ok(Listing {
                mappings,
                text: Vec::new(alloc),
            }),
            Err(_) => Err(Failure::NoMemory),
        }
    }

    /// Adds an element with these numbers and texts.
    pub(crate) fn add(&mut self, numbers: Numbers, id: &[u8], made: &[u8]) -> Result<(), Failure>
        ensures text { OnOk result (self.new.text.items ≡ self.old.text.items ++ (id.now ++ made.now)) }
        ensures described { OnOk result (map described_by self.new.mappings.items ≡
            map described_by self.old.mappings.items ++
            described_at (length self.old.text.items) (entry_with numbers id.now made.now) ∷ []) }
        ensures err { IfErr result (λ f. f ≡ Failure.NoMemory) }
    {
        let id_at = self.text.len();
        if self.text.extend_from_slice(id).is_err() {
            return Err(Failure::NoMemory);
        }
        let made_at = self.text.len();
        if self.text.extend_from_slice(made).is_err() {
            return Err(Failure::NoMemory);
        }
        let described = struct_of(numbers, id_at, id.len(), made_at, made.len());
        match self.mappings.push(described) {
            Ok(()) => Ok(()),
            Err(_) => Err(Failure::NoMemory),
        }
    }
}

/// The struct with these numbers, and these offsets and lengths of texts.
pub(crate) fn struct_of(
    numbers: Numbers,
    id_at: usize,
    id_len: usize,
    made_at: usize,
    made_len: usize,
) -> MappingOut
    ensures { result ≡ record { spec = numbers.spec; item = numbers.item; has_destination = numbers.has_destination; forced = numbers.forced; origin = numbers.origin; verdict = numbers.verdict; id_at = id_at; id_len = id_len; made_at = made_at; made_len = made_len } }
{
    MappingOut {
        spec: numbers.spec,
        item: numbers.item,
        has_destination: numbers.has_destination,
        forced: numbers.forced,
        origin: numbers.origin,
        verdict: numbers.verdict,
        id_at,
        id_len,
        made_at,
        made_len,
    }
}

/// The numbers of a mapping of a group in a match.
pub(crate) fn numbers_of(
    group: &MatchGroup<'_>,
    mapping: &Mapping<'_, '_>,
    has_destination: u32,
) -> Numbers
    ensures { result ≡ record { spec = mapping.now.spec_index; item = number_of_index mapping.now.item_index; has_destination = has_destination; forced = forced_at (readings_of group.now) mapping.now.spec_index; origin = 0; verdict = 0 } }
{
    Numbers {
        spec: mapping.spec_index,
        item: index_number(mapping.item_index),
        has_destination,
        forced: forced_of(group.specs.as_slice(), mapping.spec_index),
        origin: 0,
        verdict: 0,
    }
}

/// 1 if the spec with this index allows non-fast-forward updates, else 0.
pub(crate) fn forced_of(specs: &[RefSpecRef<'_>], index: usize) -> u32
    ensures { result ≡ forced_at (map reading_of specs.now) index }
{
    match specs.get(index) {
        Some(spec) => parts_of(spec.instruction()).forced,
        None => 0,
    }
}

/// The index, or `usize::MAX`.
pub(crate) fn index_number(index: Option<usize>) -> usize
    ensures { result ≡ number_of_index index }
{
    match index {
        Some(place) => place,
        None => usize::MAX,
    }
}

/// The hexadecimal digits of a source that is an id, and none for a name.
pub(crate) fn id_digits(alloc: Global, source: &SourceRef<'_>) -> Result<String, AllocError>
    ensures { IfOk result (λ digits. string_bytes digits ≡ id_text (start_of source.now)) }
{
    match source {
        SourceRef::FullName(_) => Ok(String::new(alloc)),
        SourceRef::ObjectId(id) => hex::encode(alloc, id.as_slice()),
    }
}

/// Copies a listing to the start of two slices, if both are long enough, and sets the counts to the
/// required sizes in any case.
pub(crate) fn write_all(
    listing: &Listing,
    mappings: &mut [MappingOut],
    buffer: &mut [u8],
    count: &mut usize,
    len: &mut usize,
) -> Result<(), Failure>
    ensures ok { OnOk result (IsWritten listing.now.mappings.items listing.now.text.items
        (record { mappings = mappings.old; buffer = buffer.old; count = count.old; len = len.old })
        (record { mappings = mappings.new; buffer = buffer.new; count = count.new; len = len.new })) }
    ensures small { IfErr result (λ f. (f ≡ Failure.TooSmall) × IsNotWritten
        listing.now.mappings.items listing.now.text.items
        (record { mappings = mappings.old; buffer = buffer.old; count = count.old; len = len.old })
        (record { mappings = mappings.new; buffer = buffer.new; count = count.new; len = len.new })) }
{
    let structs = listing.mappings.as_slice();
    let text = listing.text.as_slice();
    *count = structs.len();
    *len = text.len();
    if mappings.len() < structs.len() || buffer.len() < text.len() {
        return Err(Failure::TooSmall);
    }
    mappings[..structs.len()].copy_from_slice(structs);
    buffer[..text.len()].copy_from_slice(text);
    Ok(())
}
