//! Which other mappings of a fetch stand in the way of one.

ghost use Rattle.std.specs.Prelude.{ℕ, List, map, option_map, IfOk, MatchBool, MatchOption};
ghost use Rattle.gix_refspec_match.specs.Views.Mapping.{mapped_of};
ghost use Rattle.gix_refspec_plan.specs.Private.Verdicts.{AreSoundDestinations, WritesTo};
ghost use Rattle.gix_refspec_why.specs.Private.Rivals.{AreRivalsTo, IsNotFrom};

use crate::Rival;
use crate::attempts::destination_of;
use gix_refspec::match_group::{Mapping, SourceRef};
use gix_refspec_plan::directories::nested_names;
use gix_refspec_plan::mapped::is_sound;
use std::alloc::{AllocError, Global};
use std::collections::BTreeMap;

// The valid mappings of a fetch by their destinations: the first with each, the first of those whose source isn't the ref in
// question, and for destinations of which one is a directory of another such another one.
#[derive(Drop)]
pub(crate) struct Rivals<'m> {
    all: BTreeMap<&'m [u8], Rival>,
    others: BTreeMap<&'m [u8], Rival>,
    nested: BTreeMap<&'m [u8], &'m [u8]>,
}

impl<'m> Rivals<'m> {
    ghost use Rattle.std.specs.List.{Any};
    ghost use Rattle.gix_refspec_match.specs.Matching.Mappings.{Mapped};
    ghost use Rattle.gix_refspec_why.specs.declared.Rival.{Rival};
    ghost use Rattle.gix_refspec_why.specs.Private.Rivals.{AreRivalsOf, IsContesting, IsObstructing};

    pub(crate) fn of(
        alloc: Global,
        kept: &'m [Mapping<'_, '_>],
        name: &[u8],
    ) -> Result<Rivals<'m>, AllocError>
        ensures { IfOk result (AreRivalsOf (map mapped_of kept.now) name.now) }
    {
        Ok(Rivals {
            all: first_rivals(alloc, kept, None)?,
            others: first_rivals(alloc, kept, Some(name))?,
            nested: nested_names(alloc, valid_destinations(alloc, kept)?)?,
        })
    }

    // The first mapping from another source to this destination.
    pub(crate) fn contesting(&self, destination: &[u8]) -> Option<Rival>
        ensures { (l : List Mapped) (n : List ℕ) → AreRivalsOf l n self.now → MatchOption result
            ((rival : Rival) → ¬ (IsContesting l n destination.now rival))
            (IsContesting l n destination.now) }
    {
        self.others.get(destination).copied()
    }

    // The first mapping to a destination that is a directory of this one, or is in it. Some mapping has this one.
    pub(crate) fn obstructing(&self, destination: &[u8]) -> Option<Rival>
        ensures { (l : List Mapped) (n : List ℕ) → AreRivalsOf l n self.now → Any (WritesTo destination.now) l →
            MatchOption result ((rival : Rival) → ¬ (IsObstructing l destination.now rival))
            (IsObstructing l destination.now) }
    {
        self.all.get(*self.nested.get(destination)?).copied()
    }
}

// The first valid mapping with each destination, without those from a name.
fn first_rivals<'m>(
    alloc: Global,
    kept: &'m [Mapping<'_, '_>],
    without: Option<&[u8]>,
) -> Result<BTreeMap<&'m [u8], Rival>, AllocError>
    ensures { IfOk result (AreRivalsTo (option_map (λ n. n.now) without.entry) (map mapped_of kept.now)) }
{
    let mut rivals = BTreeMap::new(alloc);
    for mapping in kept {
        let Some(destination) = valid_destination(mapping) else {
            continue;
        };
        if is_from(mapping, without) || rivals.contains_key(destination) {
            continue;
        }
        rivals.insert(
            destination,
            Rival {
                spec_index: mapping.spec_index,
                item_index: mapping.item_index,
            },
        )?;
    }
    Ok(rivals)
}

// Whether the source of a mapping is this name.
fn is_from(mapping: &Mapping<'_, '_>, name: Option<&[u8]>) -> bool
    ensures { MatchBool result (¬ (IsNotFrom (option_map (λ n. n.now) name.entry) (mapped_of mapping.now)))
        (IsNotFrom (option_map (λ n. n.now) name.entry) (mapped_of mapping.now)) }
{
    let Some(name) = name else {
        return false;
    };
    match &mapping.lhs {
        SourceRef::FullName(source) => source.as_bstr().as_bytes() == name,
        SourceRef::ObjectId(_) => false,
    }
}

// The destinations of the valid mappings.
fn valid_destinations<'m>(
    alloc: Global,
    kept: &'m [Mapping<'_, '_>],
) -> Result<Vec<&'m [u8]>, AllocError>
    ensures { IfOk result (λ names. AreSoundDestinations
        (map mapped_of kept.now) (map (λ name. name.now) names.items)) }
{
    let mut names = Vec::with_capacity(alloc, kept.len())?;
    for mapping in kept {
        if let Some(destination) = valid_destination(mapping) {
            names.push(destination)?;
        }
    }
    Ok(names)
}

// The destination of a valid mapping.
fn valid_destination<'m>(mapping: &'m Mapping<'_, '_>) -> Option<&'m [u8]>
    ensures { MatchOption result
        ((d : List ℕ) → ¬ (WritesTo d (mapped_of mapping.now)))
        (λ d. WritesTo d.now (mapped_of mapping.now)) }
{
    let destination = destination_of(mapping)?;
    if is_sound(mapping) {
        Some(destination)
    } else {
        None
    }
}
