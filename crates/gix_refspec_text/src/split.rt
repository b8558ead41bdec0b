//! Texts, split at a byte.

ghost use Rattle.std.specs.Prelude.{◌≡◌, [], ◌∷◌, ◌++◌, MatchOption, MatchBool};
ghost use Rattle.gix_refspec_text.specs.Texts.Words.{Lacks, ContainsText};

use bstr::ByteSlice;

// The text before and after the last occurrence of a byte.
pub(crate) fn split_at_last(text: &[u8], byte: u8) -> Option<(&[u8], &[u8])>
    ensures { MatchOption result
        (Lacks byte text.now)
        (λ parts. (text.now ≡ parts.0.now ++ (byte ∷ parts.1.now)) × Lacks byte parts.1.now) }
{
    let at = text.rfind_byte(byte)?;
    let (front, back) = text.split_at(at);
    Some((front, &back[1..]))
}

/// Whether a text contains a byte. The loop has no early exit, so that it can be vectorized.
pub fn contains(text: &[u8], byte: u8) -> bool
    ensures { MatchBool result (ContainsText (byte ∷ []) text.now) (Lacks byte text.now) }
{
    let mut found = false;
    for other in text {
        found |= *other == byte;
    }
    found
}
