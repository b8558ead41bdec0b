//! Bloom filters, which reject most names that no spec asks for. That costs less than to look the names up.

ghost use Rattle.std.specs.Prelude.{◌≡◌, ◌↔◌, ◌/◌, ◌%◌, ◌^◌, ℕ, IfOk, IsTrue, List, length, map, false};
ghost use Rattle.gix_refspec_match.specs.Private.Bloom.{HasNumber, IsWhole};
ghost use Rattle.std.specs.List.{AllByRecursion};
ghost use Rattle.gix_refspec_match.specs.Views.Mapping.{name_bytes};
ghost use Rattle.gix_refspec_match.specs.Private.Filter.{IsWholeFilter, Passes, tail_number, AreWholeTails, HasTail, short_tail_number};
ghost use Rattle.gix_refspec_text.specs.Matching.Side.{IsCandidate};

use crate::hashes::{bits_for, hash_of_name, lower_bits, upper_bits};
use crate::types::NameRef;
use std::alloc::{AllocError, Global};

// A filter has a 64-bit word for 16 numbers, rounded up to a power of two: more than four bits a number, and at most
// eight from eight numbers on.
const NUMBERS_A_WORD: usize = 16;

// A Bloom filter with one bit a number. It never misses a number that was added, and accepts some others.
#[derive(Drop)]
pub(crate) struct Bloom {
    words: Vec<u64>,
    // So many lower bits of a number are the index of its word.
    bits: u32,
}

impl Bloom {
    // An empty filter, for so many numbers.
    pub(crate) fn new(alloc: Global, count: usize) -> Result<Bloom, AllocError>
        ensures { IfOk result IsWhole }
    {
        let bits = bits_for(count / NUMBERS_A_WORD);
        let mut words = Vec::new(alloc);
        words.resize(1 << bits, 0)?;
        Ok(Bloom { words, bits })
    }

    // The index of a number's bit in its word.
    #[inline(always)]
    fn bit(&self, number: u64) -> u64
        requires { IsWhole self.now }
        ensures { result ≡ number / 2 ^ self.now.bits % 64 }
    {
        upper_bits(number, self.bits) % 64
    }

    // Adds a number.
    pub(crate) fn add(&mut self, number: u64)
        requires { IsWhole self.old }
        ensures whole { IsWhole self.new }
        ensures here { HasNumber self.new number }
        ensures others { (k : ℕ) → HasNumber self.old k → HasNumber self.new k }
    {
        let bit = self.bit(number);
        self.words[lower_bits(number, self.bits)] |= 1 << bit;
    }

    // Whether a number may have been added.
    #[inline(always)]
    pub(crate) fn has(&self, number: u64) -> bool
        requires { IsWhole self.now }
        ensures { IsTrue result ↔ HasNumber self.now number }
    {
        let word = self.words[lower_bits(number, self.bits)];
        (word >> self.bit(number)) & 1 == 1
    }
}

// For how many lengths of names a filter is made.
const LENGTHS: usize = 128;

// The multiplier of a multiplicative hash: 2^64 divided by the golden ratio, and odd.
const MIXER: u64 = 0x9e37_79b9_7f4a_7c15;

// A hash of a name's last eight bytes, which differ in most names. That of a shorter name is 0.
#[inline(always)]
fn tail_of(name: &[u8]) -> u64
    ensures { result ≡ tail_number name.now }
{
    match name.last_chunk::<8>() {
        None => 0,
        Some(tail) => u64::from_le_bytes(*tail).wrapping_mul(MIXER) >> 32,
    }
}

// The lengths, the last bytes and the hashes of some names.
#[derive(Drop)]
pub(crate) struct NameFilter {
    lengths: Bloom,
    tails: Bloom,
    hashes: Bloom,
}

impl NameFilter {
    // The filter that some names pass.
    pub(crate) fn of(alloc: Global, names: &[NameRef<'_>]) -> Result<NameFilter, AllocError>
        ensures whole { IfOk result IsWholeFilter }
        ensures all { IfOk result (λ filter. AllByRecursion
            (Passes filter) (map name_bytes names.now)) }
    {
        let mut filter = NameFilter {
            lengths: Bloom::new(alloc, LENGTHS)?,
            tails: Bloom::new(alloc, names.len())?,
            hashes: Bloom::new(alloc, names.len())?,
        };
        for name in names {
            let name = name.as_bstr().as_bytes();
            filter.lengths.add(name.len() as u64);
            filter.tails.add(tail_of(name));
            filter.hashes.add(hash_of_name(name));
        }
        Ok(filter)
    }

    // Whether a name passes. Most names aren't hashed.
    #[inline(always)]
    pub(crate) fn passes(&self, name: &[u8]) -> bool
        requires { IsWholeFilter self.now }
        ensures { IsTrue result ↔ Passes self.now name.now }
    {
        self.lengths.has(name.len() as u64)
            && self.tails.has(tail_of(name))
            && self.hashes.has(hash_of_name(name))
    }
}

// How many bytes are hashed. Few partial names are shorter.
const TAIL: usize = 4;

// The last four bytes of partial names, and `HEAD`.
#[derive(Drop)]
pub(crate) struct ShortTails {
    tails: Bloom,
    // Whether a partial name is shorter, so that any name may be its candidate.
    any: bool,
}

// A hash of a name's last four bytes. That of a shorter name is 0.
#[inline(always)]
fn short_tail_of(name: &[u8]) -> u64
    ensures { result ≡ short_tail_number name.now }
{
    match name.last_chunk::<TAIL>() {
        None => 0,
        Some(tail) => u64::from(u32::from_le_bytes(*tail)).wrapping_mul(MIXER) >> 32,
    }
}

impl ShortTails {
    // Those of some partial names.
    pub(crate) fn of(alloc: Global, names: &[NameRef<'_>]) -> Result<ShortTails, AllocError>
        ensures whole { IfOk result AreWholeTails }
        ensures all { IfOk result (λ tails. AllByRecursion
            (HasTail tails) (map name_bytes names.now)) }
    {
        let mut tails = Bloom::new(alloc, names.len())?;
        tails.add(short_tail_of(b"HEAD"));
        let mut short_tails = ShortTails { tails, any: false };
        for name in names {
            let name = name.as_bstr().as_bytes();
            short_tails.any = short_tails.any || name.len() < TAIL;
            short_tails.tails.add(short_tail_of(name));
        }
        Ok(short_tails)
    }

    // Whether a name may be a candidate.
    #[inline(always)]
    pub(crate) fn may_have(&self, name: &[u8]) -> bool
        requires { AreWholeTails self.now }
        ensures { result ≡ false → (x : List ℕ)
            → HasTail self.now x → ¬ (IsCandidate x name.now) }
    {
        self.any || self.tails.has(short_tail_of(name))
    }
}
