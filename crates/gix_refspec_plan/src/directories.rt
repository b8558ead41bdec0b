//! Which destinations are directories of others, so that Git can't store both.
//!
//! In the order of their bytes, but with `/` below all others, the names in the directory of a name follow that name
//! directly. So one pass over the sorted names finds them, and no choice of names makes it slow.

ghost use Rattle.std.specs.Prelude.{◌≡◌, ◌↔◌, List, ℕ, map, IfOk, IsTrue, MatchOption};
ghost use Rattle.std.specs.Cmp.Lexicographic.{slice_cmp};
ghost use Rattle.gix_refspec_match.specs.Views.Mapping.{mapped_of};
ghost use Rattle.gix_refspec_plan.specs.Matching.Plan.{IsDirectoryOf};
ghost use Rattle.gix_refspec_plan.specs.Private.Directories.{AreInOrder, TellNestedIn, by_component, rank};
ghost use Rattle.gix_refspec_plan.specs.Private.Verdicts.{AreSoundDestinations, TellNested, WritesTo};

use super::mapped::is_sound;
use gix_refspec::match_group::Mapping;
use std::alloc::{AllocError, Global};
use std::cmp::Ordering;
use std::collections::BTreeMap;

// The destinations of sound mappings of which one is a directory of another. Each has such a one in this map.
pub(crate) fn nested_among<'m>(
    alloc: Global,
    mappings: &'m [Mapping<'_, '_>],
) -> Result<BTreeMap<&'m [u8], &'m [u8]>, AllocError>
    ensures { IfOk result (λ nested. TellNested (map mapped_of mappings.now) nested) }
{
    nested_names(alloc, sound_destinations(alloc, mappings)?)
}

/// The names of which one is a directory of another: that, followed by `/`, begins the other one. Each is a key, and its
/// value is its directory, or a name in its own. Fails if memory runs out.
pub fn nested_names<'m>(
    alloc: Global,
    mut names: Vec<&'m [u8]>,
) -> Result<BTreeMap<&'m [u8], &'m [u8]>, AllocError>
    ensures { IfOk result (λ nested. TellNestedIn (map (λ name. name.now) names.entry.items) nested) }
{
    names.sort_unstable_by(|one, other| { compare(one, other) });
    nested_in(alloc, names.as_slice())
}

// The destinations of the sound mappings.
fn sound_destinations<'m>(
    alloc: Global,
    mappings: &'m [Mapping<'_, '_>],
) -> Result<Vec<&'m [u8]>, AllocError>
    ensures { IfOk result (λ names. AreSoundDestinations
        (map mapped_of mappings.now) (map (λ name. name.now) names.items)) }
{
    let mut names = Vec::with_capacity(alloc, mappings.len())?;
    for mapping in mappings {
        if let Some(destination) = sound_destination(mapping) {
            names.push(destination)?;
        }
    }
    Ok(names)
}

// The destination of a sound mapping.
pub(crate) fn sound_destination<'m>(mapping: &'m Mapping<'_, '_>) -> Option<&'m [u8]>
    ensures { MatchOption result
        ((d : List ℕ) → ¬ (WritesTo d (mapped_of mapping.now)))
        (λ d. WritesTo d.now (mapped_of mapping.now)) }
{
    let Some(name) = &mapping.rhs else {
        return None;
    };
    if is_sound(mapping) {
        Some(name.as_bstr().as_bytes())
    } else {
        None
    }
}

// The names of which one is a directory of another, among sorted ones. The last name that is in no other's directory is at
// `upper`.
fn nested_in<'m>(
    alloc: Global,
    names: &[&'m [u8]],
) -> Result<BTreeMap<&'m [u8], &'m [u8]>, AllocError>
    requires { AreInOrder names.now }
    ensures { IfOk result (λ nested. TellNestedIn (map (λ name. name.now) names.now) nested) }
{
    let mut nested = BTreeMap::new(alloc);
    let mut upper = 0;
    for at in 1..names.len() {
        if is_directory_of(names[upper], names[at]) {
            nested.insert(names[upper], names[at])?;
            nested.insert(names[at], names[upper])?;
        } else {
            upper = at;
        }
    }
    Ok(nested)
}

/// Whether a name is in the directory of another: that, followed by `/`, begins it.
pub fn is_directory_of(upper: &[u8], name: &[u8]) -> bool
    ensures { IsTrue result ↔ IsDirectoryOf upper.now name.now }
{
    if name.len() <= upper.len() || name[upper.len()] != b'/' {
        return false;
    }
    name.starts_with(upper)
}

// How two names compare, with `/` below all other bytes.
fn compare(one: &[u8], other: &[u8]) -> Ordering
    ensures { result ≡ by_component one.now other.now }
{
    let len = one.len().min(other.len());
    for index in 0..len {
        let (here, there) = (rank_of(one[index]), rank_of(other[index]));
        if here != there {
            return here.cmp(&there);
        }
    }
    one.len().cmp(&other.len())
}

// The place of a byte in that order.
fn rank_of(byte: u8) -> u16
    ensures { result ≡ rank byte }
{
    if byte == b'/' { 0 } else { byte as u16 + 1 }
}
