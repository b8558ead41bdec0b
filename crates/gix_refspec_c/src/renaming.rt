//! What a new name of a remote makes of a value.

ghost use Rattle.std.specs.Prelude.{◌≡◌, ℕ, List, IfOk};
ghost use Rattle.bstr.specs.Owned.{bstring_bytes};
ghost use Rattle.gix_refspec_c.specs.Buffer.{IsWrittenTo, WritesNothing};
ghost use Rattle.gix_refspec_c.specs.Outcome.{Concludes};
ghost use Rattle.gix_refspec_c.specs.Remote.{IsNewValue};

use crate::failure::{Failure, outcome_of};
use crate::write::write;
use bstr::{BStr, BString};
use gix_refspec_remote::renamed;
use std::alloc::{AllocError, Global};

/// What `git remote rename` makes of a value of `remote.<name>.fetch`; empty if it leaves that. Neither the
/// value nor the names are checked. Sets `len` to the required size even if `buffer` is too small, and leaves
/// `buffer` unchanged then; if memory runs out, nothing has changed.
#[unsafe(no_mangle)]
pub extern "C" fn gix_refspec_renamed(
    alloc: Global,
    value: &[u8],
    old_name: &[u8],
    new_name: &[u8],
    buffer: &mut [u8],
    len: &mut usize,
) -> u32
    ensures { Concludes
        ((answer : List ℕ) × IsNewValue value.now old_name.now new_name.now answer ×
        IsWrittenTo answer buffer.old buffer.new len.new)
        (WritesNothing (IsNewValue value.now old_name.now new_name.now) (λ f. f ≡ Failure.NoMemory)
        buffer.old buffer.new len.old len.new)
        result }
{
    match new_value(alloc, value, old_name, new_name) {
        Ok(answer) => outcome_of(write(answer.as_bytes(), buffer, len)),
        Err(_) => Failure::NoMemory.number(),
    }
}

// The value with the new name, or an empty one.
fn new_value(
    alloc: Global,
    value: &[u8],
    old_name: &[u8],
    new_name: &[u8],
) -> Result<BString, AllocError>
    ensures { IfOk result (λ answer. IsNewValue value.now old_name.now new_name.now (bstring_bytes answer)) }
{
    let (old, new) = (BStr::new(old_name), BStr::new(new_name));
    match renamed(alloc, BStr::new(value), old, new)? {
        Some(answer) => Ok(answer),
        None => Ok(BString::new(Vec::new(alloc))),
    }
}
