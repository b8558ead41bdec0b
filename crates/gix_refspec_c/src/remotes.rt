//! The fetch values that Git writes for a remote, and those of reviews.

ghost use Rattle.std.specs.Prelude.{◌≡◌, ◌≢◌, ℕ, List, IfErr, IfOk, MatchOption};
ghost use Rattle.bstr.specs.Owned.{bstring_bytes};
ghost use Rattle.gix_refspec.specs.Views.Spec.{owned_reading_of};
ghost use Rattle.gix_refspec_c.specs.Buffer.{IsWrittenTo, WritesNothing};
ghost use Rattle.gix_refspec_c.specs.Outcome.{Answers};
ghost use Rattle.gix_refspec_c.specs.Values.{IsFetchOf, IsNoFetchOf, IsNoValue, IsValue, value_code};

use crate::failure::{Failure, outcome_of};
use crate::making::{failure_of_parts, print_owned};
use crate::write::write;
use bstr::{BStr, BString};
use gix_refspec::RefSpec;
use gix_refspec_remote::{PartsError, Reviews, Storage, branch_spec, reviews_spec};
use std::alloc::Global;

/// What a value of `remote.<name>.fetch` fetches, and where it stores that.
#[derive(Clone, Copy)]
pub enum Value {
    /// Branches, in the folder of the remote.
    Branch,
    /// Refs, under their own names.
    Mirror,
    /// The reviews of GitHub, in the folder of the remote.
    PullRequests,
    /// The reviews of GitLab, likewise.
    MergeRequests,
}

/// The canonical text of a value of `remote.<name>.fetch`: those that `git remote add` writes for a branch or
/// for all (`*`), and as a mirror; or that of reviews. `branch` counts for the first two alone, and `remote`
/// for all but a mirror. It fails as `gix_refspec_from_parts` does, but with `NoOperation` if the value is
/// unknown. Sets `len` to the required size even if `buffer` is too small, and leaves `buffer` unchanged
/// then; after any other failure nothing has changed.
#[unsafe(no_mangle)]
pub extern "C" fn gix_refspec_remote_value(
    alloc: Global,
    value: u32,
    remote: &[u8],
    branch: &[u8],
    buffer: &mut [u8],
    len: &mut usize,
) -> u32
    ensures { Answers value_code value
        (λ v. (answer : List ℕ) × IsValue v remote.now branch.now answer ×
        IsWrittenTo answer buffer.old buffer.new len.new)
        (λ v. WritesNothing (IsValue v remote.now branch.now) (IsNoValue v remote.now branch.now)
        buffer.old buffer.new len.old len.new)
        ((buffer.new ≡ buffer.old) × (len.new ≡ len.old)) result }
{
    let value = match value_numbered(value) {
        Some(value) => value,
        None => return Failure::NoOperation.number(),
    };
    match text_of(alloc, value, remote, branch) {
        Ok(answer) => outcome_of(write(answer.as_bytes(), buffer, len)),
        Err(failure) => failure.number(),
    }
}

// The value with this number in C.
fn value_numbered(number: u32) -> Option<Value>
    ensures { MatchOption result
        ((v : Value) → ¬ (number ≡ value_code v)) (λ v. number ≡ value_code v) }
{
    match number {
        1 => Some(Value::Branch),
        2 => Some(Value::Mirror),
        3 => Some(Value::PullRequests),
        4 => Some(Value::MergeRequests),
        _ => None,
    }
}

// The canonical text of a value.
fn text_of(alloc: Global, value: Value, remote: &[u8], branch: &[u8]) -> Result<BString, Failure>
    ensures ok { IfOk result (λ answer. IsValue value remote.now branch.now (bstring_bytes answer)) }
    ensures err { IfErr result (λ f. (f ≢ Failure.TooSmall) × IsNoValue value remote.now branch.now f) }
{
    match spec_of(alloc, value, remote, branch) {
        Ok(spec) => print_owned(alloc, &spec),
        Err(error) => Err(failure_of_parts(&error)),
    }
}

// The spec of a value.
fn spec_of(alloc: Global, value: Value, remote: &[u8], branch: &[u8]) -> Result<RefSpec, PartsError>
    ensures ok { IfOk result (λ spec. IsFetchOf value remote.now branch.now (owned_reading_of spec)) }
    ensures refused { IfErr result (IsNoFetchOf value remote.now branch.now) }
{
    let (remote, branch) = (BStr::new(remote), BStr::new(branch));
    match value {
        Value::Branch => branch_spec(alloc, Storage::Tracking(remote), branch),
        Value::Mirror => branch_spec(alloc, Storage::Mirror, branch),
        Value::PullRequests => reviews_spec(alloc, Reviews::PullRequests, remote),
        Value::MergeRequests => reviews_spec(alloc, Reviews::MergeRequests, remote),
    }
}
