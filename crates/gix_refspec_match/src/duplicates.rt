//! Which elements of a list equal an earlier one.
//!
//! They are found by sorting, so that no choice of elements makes it slow. Each element gets a key, of the upper
//! bits of its hash and, after them, its index. Keys whose upper bits no other one has are left out. In the
//! sorted list of the others equal elements follow one another, and each is compared with the one before it.
//! Where different elements have the same upper bits, keys of another hash are tried. Only where that fails too
//! are the elements themselves sorted.

ghost use Rattle.std.specs.Prelude.{◌≡◌, ◌⊎◌, ◌<◌, ◌≤◌, [], ℕ, length, map, MatchOption, IfOk, OnErr, ◌↔◌, OnOk, ◌≢◌, ◌%◌, ◌^◌, slice_index_or, IsTrue};
ghost use Rattle.std.specs.Cmp.{IsTotalOrder};
ghost use Rattle.std.specs.declared.cmp.Ordering.{Ordering};
ghost use Rattle.std.specs.declared.cmp.Ordering.TheVariants.{Equal};
ghost use Rattle.std.specs.declared.hash.FoldHasher.{FoldHasher};
ghost use Rattle.gix_refspec_match.specs.Private.Duplicates.{FindDuplicates, FlagsDuplicates, AreFirsts, AreIndexesBelow, ArePlaced, placed_order, AreKeysOf, HasShared, is_shared};
ghost use Rattle.gix_refspec_match.specs.Private.Bloom.{IsWhole};
ghost use Rattle.std.specs.List.Sorted.{IsSorted};
ghost use Rattle.gix_refspec_match.specs.Private.Kept.{IsFlagged, Rises, IsUnflagged};
ghost use Rattle.std.specs.List.{All, filter};
ghost use Rattle.gix_refspec_match.specs.Matching.Lists.{IsMadeFrom};

mod elements;
pub mod redundant;

use crate::bloom::Bloom;
use crate::hashes::{bits_for, lower_bits, seeds, upper_bits};
use std::alloc::{AllocError, Global};
use std::cmp::Ordering;
use std::hash::FoldHasher;

/// What duplicates are found among: elements in a total order, with a hash that equal ones share.
pub trait Element {
    ghost order: { Self → Self → Ordering };

    ghost hash: { FoldHasher → Self → ℕ };

    /// The hash by a seed.
    fn hash_by(&self, seed: FoldHasher) -> u64
        ensures { result ≡ hash seed self.now };

    /// How the element compares with another. Duplicates are equal.
    fn compare(&self, other: &Self) -> Ordering
        ensures { result ≡ order self.now other.now };

    /// Whether the element equals another, which may be told faster than how it compares.
    fn equals(&self, other: &Self) -> bool
        ensures { IsTrue result ↔ (order self.now other.now ≡ Equal) }
    {
        self.compare(other).is_eq()
    }

    ghost total: { IsTotalOrder order };

    ghost alike: { (seed : FoldHasher) (x y : Self) → order x y ≡ Equal → hash seed x ≡ hash seed y };
}

/// Flags the elements that equal an earlier one. There are no flags at all where none does. Fails if memory
/// runs out, and never for fewer than two elements.
pub fn duplicates<T: Element>(alloc: Global, elements: &[T]) -> Result<Vec<bool>, AllocError>
    ensures ok { IfOk result (λ flags. FlagsDuplicates T.order elements.now flags.items) }
    ensures memory { OnErr result (1 < length elements.now) }
{
    if elements.len() < 2 {
        return Ok(Vec::new(alloc));
    }
    let bits = bits_for(elements.len());
    for seed in seeds() {
        let keys = keys_in_order(alloc, elements, bits, seed)?;
        if let Some(flags) = flags_by_key(alloc, elements, keys.as_slice(), bits)? {
            return Ok(flags);
        }
    }
    flags_by_order(alloc, elements)
}

// Flags the elements that equal the first one of those whose keys have the same upper bits. `None` where one differs
// from it. They are compared in their own order, since that reads most of them in the order of memory.
fn flags_by_key<T: Element>(
    alloc: Global,
    elements: &[T],
    keys: &[u64],
    bits: u32,
) -> Result<Option<Vec<bool>>, AllocError>
    requires few { bits < 64 }
    requires rises { Rises keys.now }
    requires finds { FindDuplicates T.order elements.now bits keys.now }
    ensures { IfOk result (λ found. MatchOption found
        (Unit {0}) (λ flags. FlagsDuplicates T.order elements.now flags.items)) }
{
    if u32::try_from(elements.len()).is_err() {
        return Ok(None);
    }
    let firsts = firsts_by_key(alloc, elements.len(), keys, bits)?;
    let mut flags = Vec::new(alloc);
    for index in 0..firsts.len() {
        let first = firsts[index] as usize;
        if first == index {
            continue;
        }
        if !elements[first].equals(&elements[index]) {
            return Ok(None);
        }
        raise(&mut flags, elements.len(), index)?;
    }
    Ok(Some(flags))
}

// For each index the first one whose key has the same upper bits, which may be itself. Nothing at all where no two keys
// have the same. Half as wide as indexes are, since it takes memory beside the keys.
fn firsts_by_key(alloc: Global, len: usize, keys: &[u64], bits: u32) -> Result<Vec<u32>, AllocError>
    requires few { bits < 64 }
    requires fits { len < 2 ^ 32 }
    requires rises { Rises keys.now }
    requires inside { All (λ key. key % 2 ^ bits < len) keys.now }
    ensures { IfOk result (λ firsts. AreFirsts len bits keys.now firsts.items) }
{
    let mut firsts = Vec::new(alloc);
    let mut first = 0;
    for at in 1..keys.len() {
        if upper_bits(keys[first], bits) != upper_bits(keys[at], bits) {
            first = at;
            continue;
        }
        if firsts.is_empty() {
            firsts = indexes_below(alloc, len)?;
        }
        firsts[lower_bits(keys[at], bits)] = lower_bits(keys[first], bits) as u32;
    }
    Ok(firsts)
}

// All indexes below `len`, each at its own.
fn indexes_below(alloc: Global, len: usize) -> Result<Vec<u32>, AllocError>
    requires { len < 2 ^ 32 }
    ensures { IfOk result (λ indexes. AreIndexesBelow len indexes.items) }
{
    let mut indexes = Vec::with_capacity(alloc, len)?;
    for index in 0..len {
        indexes.push(index as u32)?;
    }
    Ok(indexes)
}

// An element, and its index.
#[derive(Drop)]
struct Placed<'e, T> {
    element: &'e T,
    index: usize,
}

// Flags the elements that equal the one before them where all are sorted.
fn flags_by_order<T: Element>(alloc: Global, elements: &[T]) -> Result<Vec<bool>, AllocError>
    ensures { IfOk result (λ flags. FlagsDuplicates T.order elements.now flags.items) }
{
    let placed = placed_in_order(alloc, elements)?;
    let mut flags = Vec::new(alloc);
    for at in 1..placed.len() {
        let (before, here) = (&placed[at - 1], &placed[at]);
        if before.element.compare(here.element).is_eq() {
            raise(&mut flags, elements.len(), here.index)?;
        }
    }
    Ok(flags)
}

// The elements in order, and equal ones by their index.
fn placed_in_order<T: Element>(
    alloc: Global,
    elements: &[T],
) -> Result<Vec<Placed<'_, T>>, AllocError>
    ensures all { IfOk result (λ placed. ArePlaced elements.now placed.items) }
    ensures order { IfOk result (λ placed. IsSorted (placed_order T.order) placed.items) }
{
    let mut placed = Vec::with_capacity(alloc, elements.len())?;
    for (index, element) in elements.iter().enumerate() {
        placed.push(Placed { element, index })?;
    }
    placed.sort_unstable_by(|a, b| { a.element.compare(b.element).then(a.index.cmp(&b.index)) });
    Ok(placed)
}

// Sets the flag of one of `len` indexes.
fn raise(flags: &mut Vec<bool>, len: usize, index: usize) -> Result<(), AllocError>
    requires below { index < len }
    requires fits { (flags.old.items ≡ []) ⊎ (length flags.old.items ≡ len) }
    ensures fits { OnOk result (length flags.new.items ≡ len) }
    ensures raised { OnOk result ((k : ℕ) → IsFlagged flags.new.items k ↔
        (IsFlagged flags.old.items k ⊎ (index ≡ k))) }
{
    if flags.is_empty() {
        flags.resize(len, false)?;
    }
    flags[index] = true;
    Ok(())
}

// The keys of the elements whose upper bits others may have too, in order. A key is the upper bits of a hash, and an index
// in the lower ones.
fn keys_in_order<T: Element>(
    alloc: Global,
    elements: &[T],
    bits: u32,
    seed: FoldHasher,
) -> Result<Vec<u64>, AllocError>
    requires few { bits < 64 }
    requires fit { length elements.now < 2 ^ 63 → length elements.now ≤ 2 ^ bits }
    ensures all { IfOk result (λ keys. AreKeysOf (map (T.hash seed) elements.now) bits keys.items) }
    ensures rises { IfOk result (λ keys. Rises keys.items) }
{
    let mut keys = Vec::with_capacity(alloc, elements.len())?;
    for (index, element) in elements.iter().enumerate() {
        let hash = element.hash_by(seed);
        keys.push((hash >> bits << bits) | index as u64)?;
    }
    let shared = shared_among(alloc, keys.as_slice(), bits)?;
    keep_shared(&mut keys, &shared, bits);
    keys.sort_unstable();
    Ok(keys)
}

// The upper bits that two keys have, and some others.
fn shared_among(alloc: Global, keys: &[u64], bits: u32) -> Result<Bloom, AllocError>
    requires { bits < 64 }
    ensures { IfOk result (HasShared bits keys.now) }
{
    let mut once = Bloom::new(alloc, keys.len())?;
    let mut shared = Bloom::new(alloc, keys.len())?;
    for key in keys {
        let upper = upper_bits(*key, bits);
        if once.has(upper) {
            shared.add(upper);
        } else {
            once.add(upper);
        }
    }
    Ok(shared)
}

// Leaves out the keys whose upper bits no other one has, or most of them.
fn keep_shared(keys: &mut Vec<u64>, shared: &Bloom, bits: u32)
    requires few { bits < 64 }
    requires whole { IsWhole shared.now }
    ensures { keys.new.items ≡ filter (is_shared shared.now bits) keys.old.items }
{
    let mut kept = 0;
    for at in 0..keys.len() {
        let key = keys[at];
        if shared.has(upper_bits(key, bits)) {
            keys[kept] = key;
            kept += 1;
        }
    }
    keys.truncate(kept);
}

// Drops the elements that are flagged. The others stay in order.
pub(crate) fn drop_flagged<T: Drop>(flags: &[bool], elements: &mut Vec<T>)
    ensures { IsMadeFrom (IsUnflagged flags.now) 0 elements.old.items elements.new.items }
{
    let mut kept = 0;
    for place in 0..elements.len() {
        if !is_flagged(flags, place) {
            elements.swap(kept, place);
            kept += 1;
        }
    }
    elements.truncate(kept);
}

/// Whether an index is flagged. No flags at all flag no index.
pub fn is_flagged(flags: &[bool], place: usize) -> bool
    ensures { IsTrue result ↔ IsFlagged flags.now place }
{
    flags.get(place) == Some(&true)
}
