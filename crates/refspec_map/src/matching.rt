//! Matching the specs of an input against its refs.

ghost use Rattle.std.specs.Prelude.{◌≡◌, ◌⊎◌, map, IfOk, IfErr, IfSome, MatchBool};
ghost use Rattle.gix_refspec.specs.Views.Group.{ref_of};
ghost use Rattle.gix_refspec.specs.Views.Spec.{reading_of};
ghost use Rattle.gix_refspec.specs.Matching.Hits.{AreKeptBackward, AreKeptForward};
ghost use Rattle.refspec_map.specs.Fault.{IsMemory};
ghost use Rattle.refspec_map.specs.Line.{IsFirstFault};
ghost use Rattle.refspec_map.specs.Matching.{AreMapLines, IsMatching};
ghost use Rattle.refspec_map.specs.Plan.{IsPlan};
ghost use Rattle.refspec_map.specs.Parsed.{parsed_ref};

use crate::fault::Fault;
use crate::line::{Entries, ParsedRef, push};
use crate::output::lines_of;
use crate::plan::plan;
use bstr::ByteSlice;
use gix_refspec::match_group::Item;
use gix_refspec::oid::{Kind, ObjectId};
use gix_refspec::{MatchGroup, RefSpecRef, laws};
use std::alloc::Global;

/// The lines of the mappings from left to right, and false. The names of the refs determine them.
pub(crate) fn lhs_lines(alloc: Global, input: &[u8]) -> Result<(Vec<u8>, bool), Fault>
    ensures ok { IfOk result (λ made.
        IsMatching (AreMapLines AreKeptForward) input.now made.0.items made.1) }
    ensures err { IfErr result (λ f. IsMemory f ⊎ IsFirstFault input.now f) }
{
    let blank = ObjectId::null(Kind::Sha1);
    let Entries { specs, items, .. } = Entries::read(alloc, input, Some(&blank))?;
    let group = MatchGroup { specs };
    let items = items.as_slice();
    laws::names_decide(&group, items);
    let outcome = group.match_lhs(alloc, items)?;
    Ok((lines_of(alloc, outcome.mappings.as_slice())?, false))
}

/// The lines of a plan, and whether it has conflicts.
pub(crate) fn planned(alloc: Global, input: &[u8]) -> Result<(Vec<u8>, bool), Fault>
    ensures ok { IfOk result (λ made. IsMatching IsPlan input.now made.0.items made.1) }
    ensures err { IfErr result (λ f. IsMemory f ⊎ IsFirstFault input.now f) }
{
    let blank = ObjectId::null(Kind::Sha1);
    let Entries { specs, items, .. } = Entries::read(alloc, input, Some(&blank))?;
    let group = MatchGroup { specs };
    let items = items.as_slice();
    laws::names_decide(&group, items);
    plan(alloc, group, items)
}

/// The lines of the mappings from right to left, and false.
pub(crate) fn rhs_lines(alloc: Global, input: &[u8]) -> Result<(Vec<u8>, bool), Fault>
    ensures ok { IfOk result (λ made.
        IsMatching (AreMapLines AreKeptBackward) input.now made.0.items made.1) }
    ensures err { IfErr result (λ f. IsMemory f ⊎ IsFirstFault input.now f) }
{
    match rhs_by_name(alloc, input)? {
        Some(made) => Ok(made),
        None => rhs_by_id(alloc, input),
    }
}

// The same from the names of the refs alone. `None` if a destination is an id, which matches the ids of refs.
fn rhs_by_name(alloc: Global, input: &[u8]) -> Result<Option<(Vec<u8>, bool)>, Fault>
    ensures ok { IfOk result (λ found. IfSome found (λ made.
        IsMatching (AreMapLines AreKeptBackward) input.now made.0.items made.1)) }
    ensures err { IfErr result (λ f. IsMemory f ⊎ IsFirstFault input.now f) }
{
    let blank = ObjectId::null(Kind::Sha1);
    let Entries { specs, items, .. } = Entries::read(alloc, input, Some(&blank))?;
    let group = MatchGroup { specs };
    if !group.asks_for_no_id() {
        return Ok(None);
    }
    let items = items.as_slice();
    laws::names_decide_back(&group, items);
    let outcome = group.match_rhs(alloc, items)?;
    Ok(Some((lines_of(alloc, outcome.mappings.as_slice())?, false)))
}

// The same from refs with their ids, for which the input is parsed again.
fn rhs_by_id(alloc: Global, input: &[u8]) -> Result<(Vec<u8>, bool), Fault>
    ensures ok { IfOk result (λ made.
        IsMatching (AreMapLines AreKeptBackward) input.now made.0.items made.1) }
    ensures err { IfErr result (λ f. IsMemory f ⊎ IsFirstFault input.now f) }
{
    let Entries { specs, refs, .. } = Entries::read(alloc, input, None)?;
    let items = items_of(alloc, refs.as_slice())?;
    let group = MatchGroup { specs };
    let outcome = group.match_rhs(alloc, items.as_slice())?;
    Ok((lines_of(alloc, outcome.mappings.as_slice())?, false))
}

// The refs as items, in order.
fn items_of<'a>(alloc: Global, refs: &'a [ParsedRef<'_>]) -> Result<Vec<Item<'a>>, Fault>
    ensures ok { IfOk result (λ items. map ref_of items.items ≡ map parsed_ref refs.now) }
    ensures err { IfErr result IsMemory }
{
    let Ok(mut items) = Vec::with_capacity(alloc, refs.len()) else {
        return Err(Fault::Memory);
    };
    for told in refs {
        push(&mut items, told.as_item())?;
    }
    Ok(items)
}
