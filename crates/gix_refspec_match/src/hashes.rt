//! Hashes, by two seeds, and the lower and the upper bits of one. A hash only tells names apart: its seeds are
//! fixed, and a server could choose names of one hash. So no table is keyed by it but filters of the names that
//! specs ask for.

ghost use Rattle.std.specs.Prelude.{◌≡◌, [], ◌∷◌, ◌<◌, ◌≤◌, ◌/◌, ◌%◌, ◌^◌};
ghost use Rattle.gix_refspec_match.specs.Private.Kept.{hash_after, name_hash};

use std::hash::{FoldHasher, Hasher};

// Makes the second seed differ. Any number serves but 0 and 1, with which a mapping's hash begins.
const SALT: u64 = 2;

// The seeds by which hashes are made, one after the other. What has one hash by the first mostly has
// different ones by the second, unless it was chosen for both.
pub(crate) fn seeds() -> [FoldHasher; 2] {
    let first = FoldHasher::default();
    let mut second = first;
    second.write_u64(SALT);
    [first, second]
}

/// The hash of a name by the first seed.
pub fn hash_of_name(name: &[u8]) -> u64
    ensures { result ≡ name_hash name.now }
{
    hash_by(FoldHasher::default(), name)
}

// The hash of a name by a seed, in one write.
pub(crate) fn hash_by(seed: FoldHasher, name: &[u8]) -> u64
    ensures { result ≡ hash_after seed (name.now ∷ []) }
{
    let mut state = seed;
    state.write(name);
    state.finish()
}

// How many bits an index below `len` takes, and 63 at most: no list of numbers is longer.
pub(crate) fn bits_for(len: usize) -> u32
    ensures few { result < 64 }
    ensures fit { len < 2 ^ 63 → len ≤ 2 ^ result }
{
    (usize::BITS - len.leading_zeros()).min(63)
}

// All but the lower bits of a number.
#[inline(always)]
pub(crate) fn upper_bits(number: u64, bits: u32) -> u64
    requires { bits < 64 }
    ensures { result ≡ number / 2 ^ bits }
{
    number >> bits
}

// The lower bits of a number.
#[inline(always)]
pub(crate) fn lower_bits(number: u64, bits: u32) -> usize
    requires { bits < 64 }
    ensures { result ≡ number % 2 ^ bits }
{
    (number & ((1 << bits) - 1)) as usize
}
