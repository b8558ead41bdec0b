//! The byte that stands for any word.

ghost use Rattle.std.specs.Prelude.{◌≡◌, ◌↔◌, ◌≤◌, ◌<◌, ℕ, map, option_map, IsTrue, MatchBool, MatchOption, MatchResult};
ghost use Rattle.bstr.specs.BStr.{bstr_bytes};
ghost use Rattle.gix_refspec_text.specs.Views.Spec.{reading_of};
ghost use Rattle.gix_refspec_lint.specs.Matching.Lint.{IsFree, is_usable};
ghost use Rattle.gix_refspec.specs.Laws.Plans.{LacksIn, SidesLack};
ghost use Rattle.gix_refspec_lint.specs.declared.Error.TheVariants as error;

use super::Error;
use bstr::BStr;
use gix_refspec_text::RefSpecRef;

/// A byte that is in no side of a spec, and that may be anywhere in a ref name. A letter in lower case if there is one.
pub fn free_byte(specs: &[RefSpecRef<'_>]) -> Result<u8, Error>
    ensures { MatchResult result
        (IsFree (map reading_of specs.now))
        (λ e. (e ≡ error.NoFreeByte) × ((b : ℕ) → ¬ (IsFree (map reading_of specs.now) b))) }
{
    if let Some(byte) = free_between(specs, 97, 123) {
        return Ok(byte);
    }
    match free_between(specs, 0, 256) {
        Some(byte) => Ok(byte),
        None => Err(Error::NoFreeByte),
    }
}

// The first of the bytes from the one to the other that is free.
fn free_between(specs: &[RefSpecRef<'_>], from: usize, to: usize) -> Option<u8>
    requires { (from ≤ to) × (to ≤ 256) }
    ensures { MatchOption result
        ((b : ℕ) → from ≤ b → b < to → ¬ (IsFree (map reading_of specs.now) b))
        (IsFree (map reading_of specs.now)) }
{
    for byte in from..to {
        if is_free(specs, byte as u8) {
            return Some(byte as u8);
        }
    }
    None
}

fn is_free(specs: &[RefSpecRef<'_>], byte: u8) -> bool
    ensures { IsTrue result ↔ IsFree (map reading_of specs.now) byte }
{
    if !is_usable(byte) {
        return false;
    }
    for spec in specs {
        if has_byte(spec, byte) {
            return false;
        }
    }
    true
}

// Whether a ref name may have the byte anywhere, and neither the folders that are tried for a partial name nor `HEAD` nor
// `.lock` has it.
fn is_usable(byte: u8) -> bool
    ensures { result ≡ is_usable byte }
{
    let refused = byte < 32 || byte == 127 || b" ~^:?[\\".contains(&byte);
    !refused && !b"refs/tags/heads/remotes/HEAD.lock*@{".contains(&byte)
}

// Whether a side of the spec has the byte.
fn has_byte(spec: &RefSpecRef<'_>, byte: u8) -> bool
    ensures { MatchBool result
        (¬ (SidesLack byte (reading_of spec.now))) (SidesLack byte (reading_of spec.now)) }
{
    side_has_byte(spec.source(), byte) || side_has_byte(spec.destination(), byte)
}

fn side_has_byte(side: Option<BStr<'_>>, byte: u8) -> bool
    ensures { MatchBool result
        (¬ (LacksIn byte (option_map bstr_bytes side.entry))) (LacksIn byte (option_map bstr_bytes side.entry)) }
{
    match side {
        None => false,
        Some(side) => side.as_bytes().contains(&byte),
    }
}
