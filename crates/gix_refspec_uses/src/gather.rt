//! Groups of the specs in a vector, in a slice, or among results of `parse`.

ghost use Rattle.std.specs.Prelude.{◌≡◌, filter, IfOk};
ghost use Rattle.gix_refspec.specs.Views.Group.{is_for};
ghost use Rattle.gix_refspec_uses.specs.Claims.{specs_read};

use gix_refspec::parsing::{Error, Operation};
use gix_refspec::{MatchGroup, RefSpecRef};
use std::alloc::{AllocError, Global};

/// The group of the fetch specs of a vector, in order. Fails if memory runs out.
pub fn fetches_of<'a>(
    alloc: Global,
    specs: Vec<RefSpecRef<'a>>,
) -> Result<MatchGroup<'a>, AllocError>
    ensures { IfOk result (λ group.
        group.specs.items ≡ filter (is_for Operation.Fetch) specs.entry.items) }
{
    MatchGroup::from_fetch_specs(alloc, specs)
}

/// The group of the push specs of a slice, in order. Fails if memory runs out.
pub fn pushes_among<'a>(
    alloc: Global,
    specs: &[RefSpecRef<'a>],
) -> Result<MatchGroup<'a>, AllocError>
    ensures { IfOk result (λ group.
        group.specs.items ≡ filter (is_for Operation.Push) specs.now) }
{
    MatchGroup::from_push_specs(alloc, specs.iter().copied())
}

/// The group of the fetch specs among results of `parse`, in order and without the errors. Fails if
/// memory runs out.
pub fn fetches_read<'a>(
    alloc: Global,
    answers: &[Result<RefSpecRef<'a>, Error>],
) -> Result<MatchGroup<'a>, AllocError>
    ensures { IfOk result (λ group.
        group.specs.items ≡ filter (is_for Operation.Fetch) (specs_read answers.now)) }
{
    let read = answers.iter().filter_map(|answer| match answer {
        Ok(spec) => Some(*spec),
        Err(_) => None,
    });
    MatchGroup::from_fetch_specs(alloc, read)
}
