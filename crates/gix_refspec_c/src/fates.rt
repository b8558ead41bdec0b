//! What each spec of a fetch does with one ref.

ghost use Rattle.std.specs.Prelude.{◌≡◌, ◌⊎◌, ◌++◌, ◌∷◌, [], length, map, IfErr, IfOk, OnOk};
ghost use Rattle.gix_refspec_why.specs.Views.Why.{effect_of};
ghost use Rattle.gix_refspec_c.specs.Fates.{AreEffectsIn, EffectsRoom, EffectsShown, IsWrittenWhy, LacksEffects, ShowEffects};
ghost use Rattle.gix_refspec_c.specs.Fates.{IsNotWrittenWhy, described_at, described_by, effect_text, effects_in, fate_shown};
ghost use Rattle.gix_refspec_c.specs.Fates.{mismatch_shown, numbers_in, shown_beside, shown_by, shown_with};
ghost use Rattle.gix_refspec_c.specs.Group.{AreUnread, bytes_of};
ghost use Rattle.gix_refspec_c.specs.Outcome.{Concludes};

use crate::explanation::Text;
use crate::failure::{Failure, outcome_of};
use crate::listing::index_number;
use crate::matching::items_of;
use crate::reading::read_all;
use bstr::BStr;
use gix_refspec::oid::{Kind, ObjectId};
use gix_refspec::parsing::Operation;
use gix_refspec_why::{Effect, Fate, Mismatch, Rival, StarWord, why};
use std::alloc::{AllocError, Global};

/// What a spec does with a ref, for C. The destination is in the buffer, with an offset and a length.
#[repr(C)]
#[derive(Clone, Copy)]
pub struct EffectOut {
    /// What becomes of the ref by the spec, from 1 in the order of `gix_refspec_why::Fate`.
    pub fate: u32,
    /// Why its source doesn't match, from 1 in the order of `gix_refspec_why::Mismatch`, or 0 if it does.
    pub mismatch: u32,
    /// 1 if there is a destination, else 0.
    pub has_destination: u32,
    /// 1 if a pattern excludes the ref, so that its star stands for a word, else 0.
    pub has_word: u32,
    /// The index of the other spec that decides the fate, or `usize::MAX`.
    pub spec: usize,
    /// The index of the other name that does, or `usize::MAX`.
    pub item: usize,
    /// How many bytes of a prefix or suffix agree with the name.
    pub count: usize,
    /// The index of the first byte of the word in the name.
    pub word_at: usize,
    /// Its length.
    pub word_len: usize,
    /// The offset of the destination.
    pub made_at: usize,
    /// Its length.
    pub made_len: usize,
}

/// The numbers of a fate for C.
#[derive(Clone, Copy)]
pub(crate) struct FateNumbers {
    pub(crate) fate: u32,
    pub(crate) mismatch: u32,
    pub(crate) has_word: u32,
    pub(crate) spec: usize,
    pub(crate) item: usize,
    pub(crate) count: usize,
    pub(crate) word_at: usize,
    pub(crate) word_len: usize,
}

/// The index of the ref, and the structs and destinations of what specs do with it.
#[derive(Drop)]
pub(crate) struct EffectListing {
    pub(crate) item: usize,
    pub(crate) effects: Vec<EffectOut>,
    pub(crate) text: Vec<u8>,
}

/// What each spec of a fetch does with the ref of this name, if the remote has the refs with these names: why it
/// is fetched or not. Sets an element of `effects` for each text, and `item` to the index of the name among the
/// names, or to `usize::MAX` if it is none of them: then the effects are those that the specs would have. Sets
/// `item` and `len` even if `effects` or `buffer` is too small, and leaves both of these unchanged then; after any
/// other failure nothing has changed.
#[unsafe(no_mangle)]
pub extern "C" fn gix_refspec_why(
    alloc: Global,
    texts: &[Text<'_>],
    names: &[Text<'_>],
    name: &[u8],
    effects: &mut [EffectOut],
    buffer: &mut [u8],
    item: &mut usize,
    len: &mut usize,
) -> u32
    ensures { Concludes
        ((shown : EffectsShown) × AreEffectsIn (map bytes_of texts.now) (map bytes_of names.now) name.now shown ×
        IsWrittenWhy shown
        (record { effects = effects.old; buffer = buffer.old; item = item.old; len = len.old })
        (record { effects = effects.new; buffer = buffer.new; item = item.new; len = len.new }))
        (LacksEffects (AreEffectsIn (map bytes_of texts.now) (map bytes_of names.now) name.now)
        (AreUnread Operation.Fetch (map bytes_of texts.now))
        (record { effects = effects.old; buffer = buffer.old; item = item.old; len = len.old })
        (record { effects = effects.new; buffer = buffer.new; item = item.new; len = len.new }))
        result }
{
    match listing_of(alloc, texts, names, name) {
        Ok(listing) => outcome_of(write_effects(&listing, effects, buffer, item, len)),
        Err(failure) => failure.number(),
    }
}

// The listing of what each spec of a fetch does with a ref.
fn listing_of(
    alloc: Global,
    texts: &[Text<'_>],
    names: &[Text<'_>],
    name: &[u8],
) -> Result<EffectListing, Failure>
    ensures ok { IfOk result (λ l. AreEffectsIn (map bytes_of texts.now) (map bytes_of names.now) name.now (effects_in l)) }
    ensures err { IfErr result (AreUnread Operation.Fetch (map bytes_of texts.now)) }
{
    let group = match read_all(alloc, texts, Operation::Fetch) {
        Ok(group) => group,
        Err(failure) => return Err(failure),
    };
    let null = ObjectId::null(Kind::Sha1);
    let Ok(items) = items_of(alloc, names, &null) else {
        return Err(Failure::NoMemory);
    };
    let Ok(found) = why(
        alloc,
        group.specs.as_slice(),
        items.as_slice(),
        BStr::new(name),
    ) else {
        return Err(Failure::NoMemory);
    };
    match listed(
        alloc,
        found.of_specs.as_slice(),
        index_number(found.item_index),
    ) {
        Ok(listing) => Ok(listing),
        Err(_) => Err(Failure::NoMemory),
    }
}

// The listing of effects on the ref with this index.
fn listed(alloc: Global, effects: &[Effect], item: usize) -> Result<EffectListing, AllocError>
    ensures item { IfOk result (λ l. l.item ≡ item) }
    ensures show { IfOk result (λ l. ShowEffects (map effect_of effects.now) l.effects.items l.text.items) }
{
    let mut structs = Vec::with_capacity(alloc, effects.len())?;
    let mut text = Vec::new(alloc);
    for effect in effects {
        add(&mut structs, &mut text, effect)?;
    }
    Ok(EffectListing {
        item,
        effects: structs,
        text,
    })
}

// Adds the struct of an effect and its destination.
fn add(structs: &mut Vec<EffectOut>, text: &mut Vec<u8>, effect: &Effect) -> Result<(), AllocError>
    ensures made { OnOk result (text.new.items ≡ text.old.items ++ effect_text (effect_of effect.now)) }
    ensures described { OnOk result (map described_by structs.new.items ≡ map described_by structs.old.items ++
        described_at (length text.old.items) (effect_of effect.now) ∷ []) }
{
    let made_at = text.len();
    let (has_destination, made) = match &effect.destination {
        None => (0, b"".as_slice()),
        Some(name) => (1, name.as_bytes()),
    };
    text.extend_from_slice(made)?;
    let numbers = numbers_of(effect.fate);
    structs.push(EffectOut {
        fate: numbers.fate,
        mismatch: numbers.mismatch,
        has_destination,
        has_word: numbers.has_word,
        spec: numbers.spec,
        item: numbers.item,
        count: numbers.count,
        word_at: numbers.word_at,
        word_len: numbers.word_len,
        made_at,
        made_len: made.len(),
    })?;
    Ok(())
}

// The numbers of a fate.
fn numbers_of(fate: Fate) -> FateNumbers
    ensures { numbers_in result ≡ fate_shown fate }
{
    match fate {
        Fate::Unmatched(mismatch) => numbers_of_mismatch(mismatch),
        Fate::Excludes(word) => numbers_with(2, usize::MAX, word),
        Fate::Excluded(by) => numbers_with(3, by.spec_index, by.word),
        Fate::InvalidName => numbers_by(4, usize::MAX),
        Fate::InvalidDestination => numbers_by(5, usize::MAX),
        Fate::Duplicate(index) => numbers_by(6, index),
        Fate::InConflict(rival) => numbers_beside(7, rival),
        Fate::DirectoryConflict(rival) => numbers_beside(8, rival),
        Fate::Written => numbers_by(9, usize::MAX),
    }
}

// The numbers of the fate that a source doesn't match.
fn numbers_of_mismatch(mismatch: Mismatch) -> FateNumbers
    ensures { numbers_in result ≡ mismatch_shown mismatch }
{
    let (mismatch, item, count) = match mismatch {
        Mismatch::NoSource => (1, usize::MAX, 0),
        Mismatch::Prefix(count) => (2, usize::MAX, count),
        Mismatch::Suffix(count) => (3, usize::MAX, count),
        Mismatch::Overlap => (4, usize::MAX, 0),
        Mismatch::OtherName => (5, usize::MAX, 0),
        Mismatch::Object => (6, usize::MAX, 0),
        Mismatch::NoCandidate => (7, usize::MAX, 0),
        Mismatch::EarlierCandidate(index) => (8, index, 0),
    };
    FateNumbers {
        fate: 1,
        mismatch,
        has_word: 0,
        spec: usize::MAX,
        item,
        count,
        word_at: 0,
        word_len: 0,
    }
}

// The numbers of a fate with another spec, or `usize::MAX` for none.
fn numbers_by(fate: u32, spec: usize) -> FateNumbers
    ensures { numbers_in result ≡ shown_by fate spec }
{
    FateNumbers {
        fate,
        mismatch: 0,
        has_word: 0,
        spec,
        item: usize::MAX,
        count: 0,
        word_at: 0,
        word_len: 0,
    }
}

// The numbers of an exclusion, with the word for the star if a pattern excludes.
fn numbers_with(fate: u32, spec: usize, word: Option<StarWord>) -> FateNumbers
    ensures { numbers_in result ≡ shown_with fate spec word }
{
    match word {
        None => numbers_by(fate, spec),
        Some(word) => FateNumbers {
            fate,
            mismatch: 0,
            has_word: 1,
            spec,
            item: usize::MAX,
            count: 0,
            word_at: word.start,
            word_len: word.len,
        },
    }
}

// The numbers of a conflict with another mapping.
fn numbers_beside(fate: u32, rival: Rival) -> FateNumbers
    ensures { numbers_in result ≡ shown_beside fate rival }
{
    FateNumbers {
        fate,
        mismatch: 0,
        has_word: 0,
        spec: rival.spec_index,
        item: index_number(rival.item_index),
        count: 0,
        word_at: 0,
        word_len: 0,
    }
}

// Copies a listing to the start of two slices, if both are long enough, and sets the index and the length in any case.
fn write_effects(
    listing: &EffectListing,
    effects: &mut [EffectOut],
    buffer: &mut [u8],
    item: &mut usize,
    len: &mut usize,
) -> Result<(), Failure>
    ensures ok { OnOk result (IsWrittenWhy (effects_in listing.now)
        (record { effects = effects.old; buffer = buffer.old; item = item.old; len = len.old })
        (record { effects = effects.new; buffer = buffer.new; item = item.new; len = len.new })) }
    ensures small { IfErr result (λ f. (f ≡ Failure.TooSmall) × IsNotWrittenWhy (effects_in listing.now)
        (record { effects = effects.old; buffer = buffer.old; item = item.old; len = len.old })
        (record { effects = effects.new; buffer = buffer.new; item = item.new; len = len.new })) }
{
    let structs = listing.effects.as_slice();
    let text = listing.text.as_slice();
    *item = listing.item;
    *len = text.len();
    if effects.len() < structs.len() || buffer.len() < text.len() {
        return Err(Failure::TooSmall);
    }
    effects[..structs.len()].copy_from_slice(structs);
    buffer[..text.len()].copy_from_slice(text);
    Ok(())
}
