//! The names that decide what two patterns have in common.

ghost use Rattle.std.specs.Prelude.{◌≡◌, ◌+◌, ◌++◌, ◌≤◌, List, ℕ, drop, length, map, IfOk, MatchOption};
ghost use Rattle.bstr.specs.Owned.{bstring_bytes};
ghost use Rattle.gix_refspec_text.specs.Texts.Words.{BeginsWith, EndsWith};
ghost use Rattle.gix_refspec_lint.specs.Private.Lints.{AreApart, AreCommon, IsBounded, IsLongerPrefix, IsLongerSuffix, words_with};
ghost use Rattle.gix_refspec_lint.specs.Private.Overlaps.{AreOverlaps};

use super::borders::borders;
use bstr::BString;
use gix_refspec_text::side::joined;
use std::alloc::{AllocError, Global};

// What a name may lack before the free byte so that it begins `refs/`.
const ENDINGS: [&[u8]; 6] = [b"", b"/", b"s/", b"fs/", b"efs/", b"refs/"];

// The parts of `refs/` and of `HEAD`: what a star may match of a name that is one of these, or that ends with the text after
// the star within `refs/`.
const PARTS: [&[u8]; 26] = [
    b"", b"r", b"re", b"ref", b"refs", b"refs/", b"e", b"ef", b"efs", b"efs/", b"f", b"fs", b"fs/",
    b"s", b"s/", b"/", b"H", b"HE", b"HEA", b"HEAD", b"E", b"EA", b"EAD", b"A", b"AD", b"D",
];

/// The words to try for the star of a pattern.
pub fn words_of(alloc: Global, letter: u8) -> Result<Vec<BString>, AllocError>
    ensures { IfOk result (λ words. map bstring_bytes words.items ≡ words_with letter) }
{
    let mut words = Vec::with_capacity(alloc, ENDINGS.len() + PARTS.len())?;
    for ending in ENDINGS.as_slice() {
        words.push(joined(alloc, ending, [letter].as_slice(), b"")?)?;
    }
    for part in PARTS.as_slice() {
        words.push(joined(alloc, part, b"", b"")?)?;
    }
    Ok(words)
}

/// The texts that each name begins and ends with that two patterns match, and in how many bytes these may overlap in one.
#[derive(Clone, Copy)]
pub struct Common<'a> {
    pub prefix: &'a [u8],
    pub suffix: &'a [u8],
    pub most: usize,
}

impl<'a> Common<'a> {
    ghost use Rattle.gix_refspec_lint.specs.declared.words.Common.{Common};

    /// Those of two patterns, by the texts before and after their stars. `None` if no name matches both.
    pub fn of(one: (&'a [u8], &'a [u8]), other: (&'a [u8], &'a [u8])) -> Option<Common<'a>>
        ensures { MatchOption result
            (AreApart one.entry.0.now one.entry.1.now other.entry.0.now other.entry.1.now)
            (AreCommon one.entry.0.now one.entry.1.now other.entry.0.now other.entry.1.now) }
    {
        let Some(prefix) = longer_prefix(one.0, other.0) else {
            return None;
        };
        let Some(suffix) = longer_suffix(one.1, other.1) else {
            return None;
        };
        let most = smaller(
            smaller(prefix.len(), suffix.len()),
            smaller(
                beyond(prefix, suffix, one.0, one.1),
                beyond(prefix, suffix, other.0, other.1),
            ),
        );
        Some(Common {
            prefix,
            suffix,
            most,
        })
    }

    // The name with a word between the texts.
    pub(super) fn with_word(&self, alloc: Global, word: &BString) -> Result<BString, AllocError>
        ensures { IfOk result (λ name. bstring_bytes name ≡
            self.now.prefix.now ++ (bstring_bytes word.now ++ self.now.suffix.now)) }
    {
        self.with_text(alloc, word.as_bstr().as_bytes())
    }

    // The same with a word that is borrowed.
    pub(super) fn with_text(&self, alloc: Global, word: &[u8]) -> Result<BString, AllocError>
        ensures { IfOk result (λ name. bstring_bytes name ≡
            self.now.prefix.now ++ (word.now ++ self.now.suffix.now)) }
    {
        joined(alloc, self.prefix, word, self.suffix)
    }

    /// The name in which the texts overlap in so many bytes.
    pub fn overlapping(&self, alloc: Global, shared: usize) -> Result<BString, AllocError>
        requires { shared ≤ length self.now.suffix.now }
        ensures { IfOk result (λ name. bstring_bytes name ≡ self.now.prefix.now ++ drop shared self.now.suffix.now) }
    {
        joined(alloc, self.prefix, b"", &self.suffix[shared..])
    }

    /// In how many bytes the texts can overlap, the most first: in so many as one ends with and the other begins with.
    pub fn overlaps(&self, alloc: Global) -> Result<Vec<usize>, AllocError>
        requires { IsBounded self.now }
        ensures { IfOk result (λ shared. AreOverlaps self.now.prefix.now self.now.suffix.now self.now.most shared.items) }
    {
        let front = &self.suffix[..self.most];
        let end = &self.prefix[self.prefix.len() - self.most..];
        let text = joined(alloc, front, b"", end)?;
        let mut shared = Vec::new(alloc);
        for length in &borders(alloc, text.as_bstr().as_bytes())? {
            if *length <= self.most {
                shared.push(*length)?;
            }
        }
        Ok(shared)
    }
}

// How many bytes two texts have more than two others, which are no longer.
fn beyond(prefix: &[u8], suffix: &[u8], before: &[u8], after: &[u8]) -> usize
    requires { (length before.now ≤ length prefix.now) × (length after.now ≤ length suffix.now) }
    ensures { result + (length before.now + length after.now) ≡ length prefix.now + length suffix.now }
{
    (prefix.len() - before.len()).saturating_add(suffix.len() - after.len())
}

fn smaller(one: usize, other: usize) -> usize
    ensures { (result ≤ one) × (result ≤ other) × ((x : ℕ) → x ≤ one → x ≤ other → x ≤ result) }
{
    if one < other { one } else { other }
}

// The longer of two texts, if it begins with the other.
pub(super) fn longer_prefix<'a>(one: &'a [u8], other: &'a [u8]) -> Option<&'a [u8]>
    ensures { MatchOption result
        ((n : List ℕ) → BeginsWith one.now n → ¬ (BeginsWith other.now n))
        (λ longer. IsLongerPrefix one.now other.now longer.now) }
{
    if one.starts_with(other) {
        Some(one)
    } else if other.starts_with(one) {
        Some(other)
    } else {
        None
    }
}

// The longer of two texts, if it ends with the other.
fn longer_suffix<'a>(one: &'a [u8], other: &'a [u8]) -> Option<&'a [u8]>
    ensures { MatchOption result
        ((n : List ℕ) → EndsWith one.now n → ¬ (EndsWith other.now n))
        (λ longer. IsLongerSuffix one.now other.now longer.now) }
{
    if one.ends_with(other) {
        Some(one)
    } else if other.ends_with(one) {
        Some(other)
    } else {
        None
    }
}
