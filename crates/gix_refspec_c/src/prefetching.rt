//! What a prefetch applies in place of a fetch.

ghost use Rattle.std.specs.Prelude.{◌≢◌, ℕ, List, IfErr, IfOk};
ghost use Rattle.bstr.specs.Owned.{bstring_bytes};
ghost use Rattle.gix_refspec_c.specs.Buffer.{IsWrittenTo, WritesNothing};
ghost use Rattle.gix_refspec_c.specs.Outcome.{Concludes};
ghost use Rattle.gix_refspec_c.specs.Remote.{IsInPlaceOf};
ghost use Rattle.gix_refspec_c.specs.Single.{IsUnprinted};

use crate::failure::{Failure, outcome_of};
use crate::reading::read;
use crate::write::write;
use bstr::BString;
use gix_refspec::parsing::Operation;
use gix_refspec_remote::prefetched;
use std::alloc::Global;

/// The canonical text of the fetch that `git fetch --prefetch` applies in place of this one; empty if it
/// ignores that. Sets `len` to the required size even if `buffer` is too small, and leaves `buffer`
/// unchanged then; after any other failure nothing has changed.
#[unsafe(no_mangle)]
pub extern "C" fn gix_refspec_prefetched(
    alloc: Global,
    text: &[u8],
    buffer: &mut [u8],
    len: &mut usize,
) -> u32
    ensures { Concludes
        ((answer : List ℕ) × IsInPlaceOf text.now answer × IsWrittenTo answer buffer.old buffer.new len.new)
        (WritesNothing (IsInPlaceOf text.now) (IsUnprinted Operation.Fetch text.now)
        buffer.old buffer.new len.old len.new)
        result }
{
    match in_place_of(alloc, text) {
        Ok(answer) => outcome_of(write(answer.as_bytes(), buffer, len)),
        Err(failure) => failure.number(),
    }
}

// The canonical text of what a prefetch applies in place of a fetch, or an empty one.
fn in_place_of(alloc: Global, text: &[u8]) -> Result<BString, Failure>
    ensures ok { IfOk result (λ answer. IsInPlaceOf text.now (bstring_bytes answer)) }
    ensures err { IfErr result (λ f. (f ≢ Failure.TooSmall) × IsUnprinted Operation.Fetch text.now f) }
{
    let spec = match read(alloc, text, Operation::Fetch) {
        Ok(spec) => spec,
        Err(failure) => return Err(failure),
    };
    match prefetched(alloc, &spec) {
        Ok(Some(answer)) => Ok(answer),
        Ok(None) => Ok(BString::new(Vec::new(alloc))),
        Err(_) => Err(Failure::NoMemory),
    }
}
