//! The first item of each name. So a name that a server lists again and again is matched once.

ghost use Rattle.std.specs.Prelude.{map, IfOk};
ghost use Rattle.gix_refspec_match.specs.Views.Mapping.{ref_of};
ghost use Rattle.gix_refspec_match.specs.Private.Part.{IsPart};

use crate::duplicates::{duplicates, is_flagged};
use crate::types::Item;
use std::alloc::{AllocError, Global};

// The first item of each name, and their indexes among all items.
#[derive(Drop)]
pub(crate) struct Unique<'item> {
    pub(crate) items: Vec<Item<'item>>,
    pub(crate) indexes: Vec<usize>,
}

impl<'item> Unique<'item> {
    // The items of which no earlier one has the name.
    pub(crate) fn of(alloc: Global, items: &[Item<'item>]) -> Result<Unique<'item>, AllocError>
        ensures { IfOk result (λ unique. IsPart
            (map ref_of items.now) (map ref_of unique.items.items) unique.indexes.items) }
    {
        let flags = duplicates(alloc, items)?;
        let flagged = flags.iter().filter(|flag| **flag).count();
        let room = items.len().saturating_sub(flagged);
        let mut unique = Unique {
            items: Vec::with_capacity(alloc, room)?,
            indexes: Vec::with_capacity(alloc, room)?,
        };
        for (index, item) in items.iter().enumerate() {
            if !is_flagged(flags.as_slice(), index) {
                unique.items.push(*item)?;
                unique.indexes.push(index)?;
            }
        }
        Ok(unique)
    }
}
