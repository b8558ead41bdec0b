//! Groups of specs, and the outcomes of matching them.

ghost use Rattle.std.specs.Prelude.{◌≡◌, [], Some, IfOk};
ghost use Rattle.gix_refspec_match.specs.Views.Mapping.{AreMappingCopies};

use gix_refspec_match::types::Mapping;
use gix_refspec_text::RefSpecRef;
use gix_refspec_text::parsing::Operation;
use std::alloc::{AllocError, Global};
use std::{error, fmt};

fn clone_all<'a, 'b>(
    alloc: Global,
    mappings: &[Mapping<'a, 'b>],
) -> Result<Vec<Mapping<'a, 'b>>, AllocError>
    ensures { IfOk result (λ copies. AreMappingCopies mappings.now copies.items) }
{
    let mut copies = Vec::with_capacity(alloc, mappings.len())?;
    for mapping in mappings {
        copies.push(mapping.clone(alloc)?)?;
    }
    Ok(copies)
}

/// Specs that are matched together: their order is that of the mappings, and the negative ones exclude
/// mappings of all others.
#[derive(Debug, Drop)]
pub struct MatchGroup<'a> {
    /// The specs, in order.
    pub specs: Vec<RefSpecRef<'a>>,
}

impl<'a> MatchGroup<'a> {
    ghost use Rattle.std.specs.Iterator.{IsFiniteIterable};
    ghost use Rattle.gix_refspec.specs.Views.Group.{IsGathered};

    /// An empty group. Allocates nothing.
    pub fn new(alloc: Global) -> Self
        ensures { result.specs.items ≡ [] }
    {
        MatchGroup {
            specs: Vec::new(alloc),
        }
    }

    /// The fetch specs among these, in order. Requires a finite iterator whose `next` may be called
    /// until it ends, like those of `std`. Fails if memory runs out, and then the iterator is dropped.
    pub fn from_fetch_specs<I>(alloc: Global, specs: I) -> Result<Self, AllocError>
    where
        I: IntoIterator<Item = RefSpecRef<'a>>,
        I::IntoIter: Drop,
        requires { IsFiniteIterable I.into_iter_gives I.IntoIter.can_next I.IntoIter.remaining specs }
        ensures { IfOk result (IsGathered I.into_iter_gives I.IntoIter.next_gives Operation.Fetch specs) }
    {
        Self::of(alloc, Operation::Fetch, specs)
    }

    /// The push specs among these, in order. Requires an iterator as `from_fetch_specs` does. Fails if
    /// memory runs out, and then the iterator is dropped.
    pub fn from_push_specs<I>(alloc: Global, specs: I) -> Result<Self, AllocError>
    where
        I: IntoIterator<Item = RefSpecRef<'a>>,
        I::IntoIter: Drop,
        requires { IsFiniteIterable I.into_iter_gives I.IntoIter.can_next I.IntoIter.remaining specs }
        ensures { IfOk result (IsGathered I.into_iter_gives I.IntoIter.next_gives Operation.Push specs) }
    {
        Self::of(alloc, Operation::Push, specs)
    }

    // The specs for an operation among these, in order.
    fn of<I: IntoIterator<Item = RefSpecRef<'a>>>(
        alloc: Global,
        operation: Operation,
        specs: I,
    ) -> Result<Self, AllocError>
    where
        I::IntoIter: Drop,
        requires { IsFiniteIterable I.into_iter_gives I.IntoIter.can_next I.IntoIter.remaining specs }
        ensures { IfOk result (IsGathered I.into_iter_gives I.IntoIter.next_gives operation specs) }
    {
        let mut group = MatchGroup::new(alloc);
        for spec in specs {
            if spec.operation() == operation {
                group.specs.push(spec)?;
            }
        }
        Ok(group)
    }

    /// A copy of the group, whose specs borrow what these borrow. Fails if memory runs out.
    pub fn clone(&self, alloc: Global) -> Result<MatchGroup<'a>, AllocError>
        ensures { IfOk result (λ copy. copy.specs.items ≡ self.now.specs.items) }
    {
        Ok(MatchGroup {
            specs: Vec::from_slice(alloc, self.specs.as_slice())?,
        })
    }
}

/// Memory ran out while a group was matched. Holds the unchanged group.
#[derive(Debug, Drop)]
pub struct NoRoom<'a> {
    /// The group that was to be matched.
    pub group: MatchGroup<'a>,
}

impl<'a> fmt::Display for NoRoom<'a> {
    ghost use Rattle.std.specs.Prelude.{codes};

    ghost output = { λ _. Some (codes "out of memory") };

    fn fmt<W: fmt::Write>(&self, f: &mut fmt::Formatter<W>) -> fmt::Result {
        f.write_str("out of memory")
    }
}

impl<'a> error::Error for NoRoom<'a> {}

/// A group, and its mappings: from left to right if `FORWARD` is true, otherwise from right to left. So
/// the outcomes of the two directions have different types.
#[derive(Debug, Drop)]
pub struct Outcome<'spec, 'lhs, 'rhs, const FORWARD: bool> {
    /// The group that was matched.
    pub group: MatchGroup<'spec>,
    /// The mappings, in the order of the match call. Each has the index of a spec of the group.
    pub mappings: Vec<Mapping<'lhs, 'rhs>>,
}

impl<'spec, 'lhs, 'rhs, const FORWARD: bool> Outcome<'spec, 'lhs, 'rhs, FORWARD> {
    /// A copy, which borrows what this one borrows. Fails if memory runs out.
    pub fn clone(&self, alloc: Global) -> Result<Outcome<'spec, 'lhs, 'rhs, FORWARD>, AllocError>
        ensures specs { IfOk result (λ copy.
            copy.group.specs.items ≡ self.now.group.specs.items) }
        ensures mappings { IfOk result (λ copy.
            AreMappingCopies self.now.mappings.items copy.mappings.items) }
    {
        Ok(Outcome {
            group: self.group.clone(alloc)?,
            mappings: clone_all(alloc, self.mappings.as_slice())?,
        })
    }
}

/// The results of matching by left sides.
pub mod match_lhs {
    use super::NoRoom;

    /// What `match_lhs` returns. Sources are names of items, or ids that specs ask for; destinations are
    /// made by the specs.
    pub type Outcome<'spec, 'item> = super::Outcome<'spec, 'item, 'spec, true>;

    /// An outcome, or the group if memory ran out.
    pub type Result<'spec, 'item> = std::result::Result<Outcome<'spec, 'item>, NoRoom<'spec>>;
}

/// The results of matching by right sides.
pub mod match_rhs {
    use super::NoRoom;

    /// What `match_rhs` returns. Sources are made by the specs; destinations are names of items.
    pub type Outcome<'spec, 'item> = super::Outcome<'spec, 'spec, 'item, false>;

    /// An outcome, or the group if memory ran out.
    pub type Result<'spec, 'item> = std::result::Result<Outcome<'spec, 'item>, NoRoom<'spec>>;
}
