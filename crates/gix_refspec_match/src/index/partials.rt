//! The indexes of the items that partial names take. The partial names are the only keys: an item's name is
//! looked up without each of the folders that are tried before a partial name.

ghost use Rattle.std.specs.Prelude.{◌≡◌, codes, ℕ, List, length, map, MatchOption, IfOk, OnOk};
ghost use Rattle.gix_refspec_match.specs.Views.Mapping.{name_bytes, ref_of};
ghost use Rattle.gix_refspec_text.specs.Matching.Side.{Fits, IsCandidate};
ghost use Rattle.gix_refspec_match.specs.Private.Filter.{IsWholeFilter, Passes};
ghost use Rattle.gix_refspec_match.specs.Private.Index.{AddsWhere, IsBelowPlace, Joins, JoinsFirst, ListPartials, list_of, name_at};

use super::{Key, without_places};
use crate::bloom::{NameFilter, ShortTails};
use crate::matcher::Candidates;
use crate::types::{Item, NameRef};
use gix_refspec_text::side::strip_refs;
use std::alloc::{AllocError, Global};
use std::collections::HashMap;

// For each of some partial names the indexes of all items that it takes, strictly increasing.
pub(super) fn places_of_partials<'n>(
    alloc: Global,
    candidates: Candidates,
    names: &'n [NameRef<'_>],
    items: &'n [Item<'_>],
) -> Result<HashMap<Key<'n>, Vec<usize>>, AllocError>
    ensures { IfOk result (λ places. ListPartials
        candidates (map name_bytes names.now) (map ref_of items.now) (list_of places)) }
{
    let mut places = without_places(alloc, names)?;
    let filter = NameFilter::of(alloc, names)?;
    let lookup = Lookup {
        candidates,
        items,
        filter,
    };
    let tails = ShortTails::of(alloc, names)?;
    for (place, item) in items.iter().enumerate() {
        let name = item.full_ref_name.as_bytes();
        if !tails.may_have(name) {
            continue;
        }
        lookup.add_item(name, place, &mut places)?;
    }
    Ok(places)
}

// How the items of partial names are found: by which candidates, among these items, and for the names that pass.
#[derive(Drop)]
struct Lookup<'l, 'item> {
    candidates: Candidates,
    items: &'l [Item<'item>],
    filter: NameFilter,
}

impl<'l, 'item> Lookup<'l, 'item> {
    // Adds the index of an item to those of each partial name that may stand for its name. That is the name
    // itself, or what is left of it without `refs/`, or without a folder below that.
    fn add_item<'n>(
        &self,
        name: &'n [u8],
        place: usize,
        places: &mut HashMap<Key<'n>, Vec<usize>>,
    ) -> Result<(), AllocError>
        requires { IsWholeFilter self.now.filter }
        ensures { OnOk result (AddsWhere (Passes self.now.filter) (λ x. IsCandidate x name.now)
            (Joins self.now.candidates (map ref_of self.now.items.now) place)
            (list_of places.old) (list_of places.new)) }
    {
        self.add(name, place, places)?;
        let Some(below) = strip_refs(name) else {
            return Ok(());
        };
        self.add(below, place, places)?;
        let Some(short) = below_place(below) else {
            return Ok(());
        };
        self.add(short, place, places)?;
        let Some(remote) = remote_of_head(below) else {
            return Ok(());
        };
        self.add(remote, place, places)
    }

    // Adds an index to those of a partial name, if that is asked for.
    #[inline(always)]
    fn add<'n>(
        &self,
        partial: &'n [u8],
        place: usize,
        places: &mut HashMap<Key<'n>, Vec<usize>>,
    ) -> Result<(), AllocError>
        requires { IsWholeFilter self.now.filter }
        ensures { OnOk result (AddsWhere (Passes self.now.filter) (λ x. partial.now ≡ x)
            (Joins self.now.candidates (map ref_of self.now.items.now) place)
            (list_of places.old) (list_of places.new)) }
    {
        if !self.filter.passes(partial) {
            return Ok(());
        }
        match places.get_mut(&Key { name: partial }) {
            None => Ok(()),
            Some(list) => match self.candidates {
                Candidates::First => join_first(place, self.items, list),
                Candidates::All => Ok(list.push(place)?),
            },
        }
    }
}

// What follows `tags/`, `heads/` or `remotes/` in a name below `refs/`.
#[inline(always)]
fn below_place(below: &[u8]) -> Option<&[u8]>
    ensures { MatchOption result
        ((x : List ℕ) → ¬ (IsBelowPlace below.now x))
        (λ short. IsBelowPlace below.now short.now) }
{
    match below {
        [b't', b'a', b'g', b's', b'/', short @ ..] => Some(short),
        [b'h', b'e', b'a', b'd', b's', b'/', short @ ..] => Some(short),
        [b'r', b'e', b'm', b'o', b't', b'e', b's', b'/', short @ ..] => Some(short),
        _ => None,
    }
}

// The remote whose head has the name below `refs/`.
#[inline(always)]
fn remote_of_head(below: &[u8]) -> Option<&[u8]>
    ensures { MatchOption result
        ((x : List ℕ) → ¬ (Fits (codes "remotes/") (codes "/HEAD") below.now x))
        (λ remote. Fits (codes "remotes/") (codes "/HEAD") below.now remote.now) }
{
    below.strip_prefix(b"remotes/")?.strip_suffix(b"/HEAD")
}

// Adds an index to those of the first candidate that is there. The earlier of two is the shorter one.
fn join_first(place: usize, items: &[Item<'_>], places: &mut Vec<usize>) -> Result<(), AllocError>
    ensures { OnOk result (JoinsFirst (map ref_of items.now) place places.old.items places.new.items) }
{
    if let Some(first) = places.first() {
        let least = size_at(items, *first);
        let size = size_at(items, place);
        if least < size {
            return Ok(());
        }
        if size < least {
            places.clear();
        }
    }
    Ok(places.push(place)?)
}

// How long the name of the item at an index is.
fn size_at(items: &[Item<'_>], place: usize) -> usize
    ensures { result ≡ length (name_at (map ref_of items.now) place) }
{
    items
        .get(place)
        .map_or(0, |item| item.full_ref_name.as_bytes().len())
}
