//! Which texts of a list begin with others, and add nothing to what the list stands for.
//!
//! In the order of their bytes, the texts that begin with a text follow it directly. So one pass over the sorted texts
//! finds them, and no choice of texts makes it slow.

ghost use Rattle.std.specs.Prelude.{◌<◌, length, map, IfOk, OnErr};
ghost use Rattle.std.specs.List.{AllByRecursion};
ghost use Rattle.bstr.specs.Owned.{bstring_bytes};
ghost use Rattle.gix_refspec_match.specs.Matching.Redundant.{AreNeeded};
ghost use Rattle.gix_refspec_match.specs.Private.Duplicates.{BeginsWithNeeded, FlagsRedundant};

use super::{drop_flagged, placed_in_order, raise};
use bstr::BString;
use std::alloc::{AllocError, Global};

/// Drops each text that begins with another one, and all but the first of equal ones. The others stay in order, and
/// each text begins with one of them. Fails if memory runs out, and never for fewer than two texts.
pub fn without_redundant(alloc: Global, mut texts: Vec<BString>) -> Result<Vec<BString>, AllocError>
    ensures ok { IfOk result (λ needed. AreNeeded
        (map bstring_bytes texts.items) (map bstring_bytes needed.items)) }
    ensures memory { OnErr result (1 < length texts.items) }
{
    let flags = redundant(alloc, texts.as_slice())?;
    drop_flagged(flags.as_slice(), &mut texts);
    Ok(texts)
}

// Flags the texts that begin with another one. In order, the last text that begins with no other is at `upper`.
fn redundant(alloc: Global, texts: &[BString]) -> Result<Vec<bool>, AllocError>
    ensures ok { IfOk result (λ flags. FlagsRedundant (map bstring_bytes texts.now) flags.items) }
    ensures begin { IfOk result (λ flags. AllByRecursion
        (BeginsWithNeeded (map bstring_bytes texts.now)) (map bstring_bytes texts.now)) }
    ensures memory { OnErr result (1 < length texts.now) }
{
    let mut flags = Vec::new(alloc);
    if texts.len() < 2 {
        return Ok(flags);
    }
    let placed = placed_in_order(alloc, texts)?;
    let mut upper = 0;
    for at in 1..placed.len() {
        let (above, here) = (&placed[upper], &placed[at]);
        let start = above.element.as_bytes();
        if here.element.as_bytes().starts_with(start) {
            raise(&mut flags, texts.len(), here.index)?;
        } else {
            upper = at;
        }
    }
    Ok(flags)
}
