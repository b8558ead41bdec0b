//! Which items have the names that matchers look for. Full names, partial names and, if there are many, the
//! prefixes of patterns have an index each. Names that no matcher looks for take no memory and are no keys,
//! since a server chooses them.

ghost use Rattle.std.specs.Prelude.{◌≡◌, ◌↔◌, IsTrue, [], map, option_map, MatchOption, IfOk, ◌∷◌};
ghost use Rattle.gix_refspec_match.specs.Views.Mapping.{name_bytes, ref_of};
ghost use Rattle.gix_refspec_text.specs.Private.SideViews.{kind_of_side};
ghost use Rattle.gix_refspec_match.specs.Private.Index.{HaveNamesOf, HavePlaces, list_of};
ghost use Rattle.gix_refspec_match.specs.Private.Needles.{TakesEach};
ghost use Rattle.std.specs.Cmp.Rules.{hashing};
ghost use Rattle.std.proofs.Common.{rules};

mod partials;
mod prefixes;

use crate::bloom::NameFilter;
use crate::matcher::{Candidates, Matchers};
use crate::types::{Item, NameRef};
use bstr::BStr;
use gix_refspec_text::side::SideKind;
use partials::places_of_partials;
use prefixes::places_of_prefixes;
use std::alloc::{AllocError, Global};
use std::collections::HashMap;
use std::hash::{Hash, Hasher};

// For each of some names the indexes of all items that have it, strictly increasing; and likewise of partial
// names, and of prefixes of patterns.
#[derive(Drop)]
pub(crate) struct Index<'n> {
    full: HashMap<Key<'n>, Vec<usize>>,
    partials: HashMap<Key<'n>, Vec<usize>>,
    prefixes: HashMap<Key<'n>, Vec<usize>>,
}

// The names that matchers look for, and the prefixes of their patterns.
#[derive(Drop)]
pub(crate) struct Names<'spec> {
    full: Vec<NameRef<'spec>>,
    partial: Vec<NameRef<'spec>>,
    prefixes: Vec<NameRef<'spec>>,
}

impl<'spec> Names<'spec> {
    pub(crate) fn of(alloc: Global, matchers: &Matchers<'spec>) -> Result<Names<'spec>, AllocError>
        ensures { IfOk result (HaveNamesOf matchers.now) }
    {
        let mut names = Names {
            full: Vec::new(alloc),
            partial: Vec::new(alloc),
            prefixes: Vec::new(alloc),
        };
        for matcher in &matchers.list {
            match matcher.needle {
                SideKind::FullName(name) => { names.full.push(NameRef::Borrowed(BStr::new(name)))? }
                SideKind::Partial(name) => {
                    names.partial.push(NameRef::Borrowed(BStr::new(name)))?
                }
                SideKind::Pattern { before, .. } => {
                    names.prefixes.push(NameRef::Borrowed(BStr::new(before)))?
                }
                // An id is no name.
                SideKind::Object(_) => {}
            }
        }
        Ok(names)
    }
}

// A map whose keys are exactly these names, each without an item.
fn without_places<'n>(
    alloc: Global,
    names: &'n [NameRef<'_>],
) -> Result<HashMap<Key<'n>, Vec<usize>>, AllocError>
    ensures { IfOk result (λ places. HavePlaces
        (map name_bytes names.now) [] (list_of places)) }
{
    let mut places = HashMap::with_capacity(alloc, names.len())?;
    for name in names {
        let name = name.as_bstr().as_bytes();
        places.insert(Key { name }, Vec::new(alloc))?;
    }
    Ok(places)
}

// The items that have some names. It isn't inlined, so that its loop over all items has registers of its own.
#[inline(never)]
fn places_of<'n>(
    alloc: Global,
    names: &'n [NameRef<'_>],
    items: &'n [Item<'_>],
) -> Result<HashMap<Key<'n>, Vec<usize>>, AllocError>
    ensures { IfOk result (λ places. HavePlaces
        (map name_bytes names.now) (map ref_of items.now) (list_of places)) }
{
    let mut places = without_places(alloc, names)?;
    let filter = NameFilter::of(alloc, names)?;
    for (place, item) in items.iter().enumerate() {
        let name = item.full_ref_name.as_bytes();
        if !filter.passes(name) {
            continue;
        }
        if let Some(list) = places.get_mut(&Key { name }) {
            list.push(place)?;
        }
    }
    Ok(places)
}

// From how many patterns on their prefixes are looked up. For fewer it is cheaper to compare each with all names.
const MANY: usize = 8;

impl<'n> Index<'n> {
    ghost use Rattle.gix_refspec_match.specs.Private.Index.{HasNone, IsIndexOf, Serves};

    // The index of some names and prefixes. Without any the items aren't looked at.
    pub(crate) fn of(
        alloc: Global,
        candidates: Candidates,
        names: &'n Names<'_>,
        items: &'n [Item<'_>],
    ) -> Result<Index<'n>, AllocError>
        ensures { IfOk result (IsIndexOf candidates names.now (map ref_of items.now)) }
    {
        let full = if names.full.is_empty() {
            HashMap::new(alloc)
        } else {
            places_of(alloc, names.full.as_slice(), items)?
        };
        let partials = if names.partial.is_empty() {
            HashMap::new(alloc)
        } else {
            places_of_partials(alloc, candidates, names.partial.as_slice(), items)?
        };
        let prefixes = if names.prefixes.len() < MANY {
            HashMap::new(alloc)
        } else {
            places_of_prefixes(alloc, names.prefixes.as_slice(), items)?
        };
        Ok(Index {
            full,
            partials,
            prefixes,
        })
    }

    // The indexes of the items that a needle may match, strictly increasing. `None` for all items. A partial
    // name matches only those that it takes.
    pub(crate) fn items_of(&self, needle: SideKind<'n>) -> Option<&[usize]>
        ensures { MatchOption result (TakesEach (kind_of_side needle.entry))
            (λ listed. Serves self.now (kind_of_side needle.entry) listed.now) }
    {
        match needle {
            SideKind::FullName(name) => Some(listed(&self.full, name).unwrap_or(&[])),
            SideKind::Partial(name) => Some(listed(&self.partials, name).unwrap_or(&[])),
            SideKind::Pattern { before, .. } => listed(&self.prefixes, before),
            SideKind::Object(_) => None,
        }
    }

    // Whether a needle is a name that no item has.
    pub(crate) fn lacks(&self, needle: SideKind<'n>) -> bool
        ensures { IsTrue result ↔ HasNone self.now (kind_of_side needle.entry) }
    {
        match needle {
            SideKind::FullName(name) => listed(&self.full, name).unwrap_or(&[]).is_empty(),
            SideKind::Partial(name) => listed(&self.partials, name).unwrap_or(&[]).is_empty(),
            SideKind::Pattern { .. } | SideKind::Object(_) => false,
        }
    }
}

// The indexes that are listed for a name.
fn listed<'p>(places: &'p HashMap<Key<'_>, Vec<usize>>, name: &'p [u8]) -> Option<&'p [usize]>
    ensures { option_map (λ l. l.now) result ≡ option_map (λ l. l.items) (list_of places.now name.now) }
{
    Some(places.get(&Key { name })?.as_slice())
}

// A name, or the prefix of a pattern, as the key of a map.
#[derive(Clone, Copy, PartialEq, Eq)]
pub(crate) struct Key<'n> {
    pub(crate) name: &'n [u8],
}

impl<'n> Hash for Key<'n> {
    ghost hash_input = { λ k. k.name.now ∷ [] };

    ghost respects_eq = { Prim.search (hashing, rules) };

    fn hash<H: Hasher>(&self, state: &mut H) {
        state.write(self.name);
    }
}
