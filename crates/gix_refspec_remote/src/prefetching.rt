//! What a prefetch makes of a fetch spec.

ghost use Rattle.std.specs.Prelude.{◌≡◌, ℕ, List, Some, MatchOption, IfOk};
ghost use Rattle.bstr.specs.Owned.{bstring_bytes};
ghost use Rattle.gix_refspec_text.specs.Specs.Meaning.{printed};
ghost use Rattle.gix_refspec_text.specs.Specs.Reading.{Reading};
ghost use Rattle.gix_refspec_text.specs.Views.Spec.{reading_of};
ghost use Rattle.gix_refspec_remote.specs.Prefetch.{IsPrefetchName, IsPrefetched};

use bstr::BString;
use gix_refspec_text::instruction::Fetch;
use gix_refspec_text::side::{joined, strip_refs};
use gix_refspec_text::{Instruction, RefSpecRef};
use std::alloc::{AllocError, Global};

/// The text of the spec that `git fetch --prefetch` applies in place of this one, by git-fetch(1). A negative spec stays.
/// A spec with a destination is forced, and stores refs in `refs/prefetch/`, in place of `refs/` if its destination
/// begins with that. `None` if the spec is ignored, since it stores nothing, or its source begins with `refs/tags/`.
///
/// Sides are taken as they are written: `tags/v1:x` isn't ignored, and `x` is stored as `refs/prefetch/x`. Git takes
/// `s:` for a spec that stores to the empty name, and refuses to; here it is `s`, and ignored. Fails if memory runs out.
pub fn prefetched(alloc: Global, spec: &RefSpecRef<'_>) -> Result<Option<BString>, AllocError>
    ensures { IfOk result (λ text. MatchOption text
        ((made : Reading) → ¬ (IsPrefetched (reading_of spec.now) made))
        (λ text. (made : Reading) × IsPrefetched (reading_of spec.now) made
        × (printed made ≡ Some (bstring_bytes text)))) }
{
    if spec.is_negative() {
        let text = spec.to_bstring(alloc)?;
        return Ok(Some(text));
    }
    let Some(source) = spec.source() else {
        return Ok(None);
    };
    let Some(destination) = spec.destination() else {
        return Ok(None);
    };
    if source.as_bytes().starts_with(b"refs/tags/") {
        return Ok(None);
    }
    let stored = stored_at(alloc, destination.as_bytes())?;
    let update = Instruction::Fetch(Fetch::AndUpdate {
        src: source,
        dst: stored.as_bstr(),
        allow_non_fast_forward: true,
    });
    let text = update.to_bstring(alloc)?;
    Ok(Some(text))
}

// The destination in `refs/prefetch/` for this one.
fn stored_at(alloc: Global, destination: &[u8]) -> Result<BString, AllocError>
    ensures { IfOk result (λ name. IsPrefetchName destination.now (bstring_bytes name)) }
{
    match strip_refs(destination) {
        None => joined(alloc, b"refs/prefetch/", destination, b""),
        Some(rest) => joined(alloc, b"refs/prefetch/", rest, b""),
    }
}
