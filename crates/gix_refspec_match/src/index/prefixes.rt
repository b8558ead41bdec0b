//! The indexes of the items whose names begin as patterns do. The text before the star of a pattern
//! is its prefix. Prefixes are the only keys, and no name is looked at past the longest of them.

ghost use Rattle.std.specs.Prelude.{ℕ, length, map, IfOk, OnOk};
ghost use Rattle.std.specs.List.{AllByRecursion};
ghost use Rattle.gix_refspec_match.specs.Views.Mapping.{name_bytes, ref_of};
ghost use Rattle.gix_refspec_match.specs.Private.Index.{AddsPlace, HaveLengths, ListPrefixes, list_of};
ghost use Rattle.gix_refspec_match.specs.Private.Kept.{IsFlagged};

use super::{Key, without_places};
use crate::types::{Item, NameRef};
use std::alloc::{AllocError, Global};
use std::collections::HashMap;

// How many prefixes list an item at most, on average. Where prefixes begin with one another, a server can list
// names that begin with all of them, and then the index would take memory for each.
const MOST: usize = 2;

// For each of some prefixes the indexes of all items whose names begin with it, strictly increasing. For none
// where that would list too much.
pub(super) fn places_of_prefixes<'n>(
    alloc: Global,
    prefixes: &'n [NameRef<'_>],
    items: &'n [Item<'_>],
) -> Result<HashMap<Key<'n>, Vec<usize>>, AllocError>
    ensures { IfOk result (λ places. ListPrefixes (map ref_of items.now) (list_of places)) }
{
    let mut places = without_places(alloc, prefixes)?;
    let lengths = lengths_of(alloc, prefixes)?;
    let mut listed: usize = 0;
    for (place, item) in items.iter().enumerate() {
        let name = item.full_ref_name.as_bytes();
        let prefixes = add_place(name, place, lengths.as_slice(), &mut places)?;
        listed = listed.saturating_add(prefixes);
        if MOST.saturating_mul(items.len()) < listed {
            return Ok(HashMap::new(alloc));
        }
    }
    Ok(places)
}

// Flags the lengths that some texts have.
fn lengths_of(alloc: Global, texts: &[NameRef<'_>]) -> Result<Vec<bool>, AllocError>
    ensures { IfOk result (λ flags. AllByRecursion
        (λ n. IsFlagged flags.items (length n)) (map name_bytes texts.now)) }
{
    let mut flags = Vec::new(alloc);
    for text in texts {
        flag_length(text.as_bstr().as_bytes(), &mut flags)?;
    }
    Ok(flags)
}

// Flags the length of a text.
fn flag_length(text: &[u8], flags: &mut Vec<bool>) -> Result<(), AllocError>
    ensures here { OnOk result (IsFlagged flags.new.items (length text.now)) }
    ensures others { OnOk result ((k : ℕ) → IsFlagged flags.old.items k → IsFlagged flags.new.items k) }
{
    if flags.len() <= text.len() {
        flags.resize(text.len() + 1, false)?;
    }
    flags[text.len()] = true;
    Ok(())
}

// Adds the index of an item to those of each prefix that its name begins with, and says to how many. The
// lengths of the prefixes are flagged.
fn add_place<'n>(
    name: &'n [u8],
    place: usize,
    lengths: &[bool],
    places: &mut HashMap<Key<'n>, Vec<usize>>,
) -> Result<usize, AllocError>
    requires { HaveLengths lengths.now (list_of places.old) }
    ensures { OnOk result (AddsPlace name.now place (list_of places.old) (list_of places.new)) }
{
    let mut count: usize = 0;
    for (len, is_asked) in lengths.iter().enumerate() {
        if name.len() < len {
            return Ok(count);
        }
        if !*is_asked {
            continue;
        }
        if let Some(list) = places.get_mut(&Key { name: &name[..len] }) {
            list.push(place)?;
            count = count.saturating_add(1);
        }
    }
    Ok(count)
}
