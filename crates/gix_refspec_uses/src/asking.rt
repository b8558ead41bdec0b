//! Matching only the refs that a server lists for the ref prefixes of a group.

ghost use Rattle.std.specs.Prelude.{◌≡◌, [], map, IfOk, MatchOption};
ghost use Rattle.bstr.specs.Owned.{bstring_bytes};
ghost use Rattle.gix_refspec.specs.Matching.Asked.{ListsBeside, Requests};
ghost use Rattle.gix_refspec.specs.Views.Group.{readings_of};
ghost use Rattle.gix_refspec.specs.declared.match_group.prefixes.RefPrefixes.TheVariants as request;
ghost use Rattle.gix_refspec.specs.Views.Issue.{mappings_of};
ghost use Rattle.gix_refspec.specs.Laws.Items.{is_begun};
ghost use Rattle.gix_refspec_uses.specs.Asking.{LosesNothing, items_asked};
ghost use Rattle.gix_refspec_uses.specs.Planned.{fetch_readings};

use crate::gather::fetches_of;
use bstr::BString;
use gix_refspec::match_group::{Item, RefPrefixes, match_lhs};
use gix_refspec::{MatchGroup, RefSpecRef, laws};
use std::alloc::{AllocError, Global};

/// The items listed for the ref prefixes of a group, and their mappings.
#[derive(Debug, Drop)]
pub struct Asked<'spec, 'item> {
    /// The items whose names begin with a ref prefix, in order.
    pub items: Vec<Item<'item>>,
    /// The mappings of these items.
    pub outcome: match_lhs::Outcome<'spec, 'item>,
}

/// Matches the fetch specs among these over only the items listed for their ref prefixes. The same
/// pairs are kept as over all items. `None` exactly if only a request for all refs is safe. Fails if
/// memory runs out.
pub fn match_asked<'spec, 'item>(
    alloc: Global,
    specs: Vec<RefSpecRef<'spec>>,
    items: &[Item<'item>],
) -> Result<Option<Asked<'spec, 'item>>, AllocError>
    ensures { IfOk result (λ found. MatchOption found
        (Requests (fetch_readings specs.entry.items) request.All)
        (λ asked. LosesNothing (fetch_readings specs.entry.items)
        items.now asked.items.items (mappings_of asked.outcome))) }
{
    let group = fetches_of(alloc, specs)?;
    let Some(entries) = prefixes_of(alloc, &group)? else {
        return Ok(None);
    };
    let asked = keep_asked(alloc, entries.as_slice(), items)?;
    laws::asked_items(&group, items, asked.as_slice());
    match group.match_lhs(alloc, asked.as_slice()) {
        Ok(outcome) => Ok(Some(Asked {
            items: asked,
            outcome,
        })),
        Err(_) => Err(AllocError),
    }
}

// The ref prefixes to send for a group. `None` if all refs are to be requested.
fn prefixes_of(alloc: Global, group: &MatchGroup<'_>) -> Result<Option<Vec<BString>>, AllocError>
    ensures { IfOk result (λ found. MatchOption found
        (Requests (readings_of group.now) request.All)
        (λ list. ListsBeside [] (readings_of group.now) (map bstring_bytes list.items))) }
{
    match group.ref_prefixes(alloc)? {
        RefPrefixes::Nothing => Ok(Some(Vec::new(alloc))),
        RefPrefixes::Listed(list) => Ok(Some(list)),
        RefPrefixes::All => Ok(None),
    }
}

/// The items whose names begin with one of the entries, in order. Fails if memory runs out.
pub fn keep_asked<'item>(
    alloc: Global,
    entries: &[BString],
    items: &[Item<'item>],
) -> Result<Vec<Item<'item>>, AllocError>
    ensures { IfOk result (λ asked. asked.items ≡
        items_asked (map bstring_bytes entries.now) items.now) }
{
    let mut asked = Vec::new(alloc);
    for item in items {
        if begins_with_one(item.full_ref_name.as_bytes(), entries) {
            asked.push(*item)?;
        }
    }
    Ok(asked)
}

// Whether a name begins with one of the entries.
fn begins_with_one(name: &[u8], entries: &[BString]) -> bool
    ensures { result ≡ is_begun (map bstring_bytes entries.now) name.now }
{
    for entry in entries {
        if name.starts_with(entry.as_bytes()) {
            return true;
        }
    }
    false
}
