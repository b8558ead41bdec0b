//! Writing an answer to a slice of the caller.

ghost use Rattle.std.specs.Prelude.{OnOk, OnErr, ◌≡◌, IfErr};
ghost use Rattle.gix_refspec_c.specs.Buffer.{IsWrittenTo, IsTooSmall};

use crate::failure::Failure;

/// Copies an answer to the start of a slice, if that is long enough, and sets the length to that of the
/// answer.
pub(crate) fn write<T: Copy>(answer: &[T], buffer: &mut [T], len: &mut usize) -> Result<(), Failure>
    ensures ok { OnOk result (IsWrittenTo answer.now buffer.old buffer.new len.new) }
    ensures small { IfErr result (λ f. (f ≡ Failure.TooSmall) × IsTooSmall answer.now buffer.old buffer.new len.new) }
{
    *len = answer.len();
    if buffer.len() < answer.len() {
        return Err(Failure::TooSmall);
    }
    buffer[..answer.len()].copy_from_slice(answer);
    Ok(())
}
