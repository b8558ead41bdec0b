//! Which local refs a pruning fetch should delete.

ghost use Rattle.std.specs.Prelude.{◌≢◌, List, map, IfErr, IfOk, OnOk};
ghost use Rattle.gix_refspec_plan.specs.Views.Stale.{found_of};
ghost use Rattle.gix_refspec_c.specs.Buffer.{IsWrittenTo, WritesNothing};
ghost use Rattle.gix_refspec_c.specs.Group.{AreUnread, bytes_of};
ghost use Rattle.gix_refspec_c.specs.Outcome.{Concludes};
ghost use Rattle.gix_refspec_c.specs.Stale.{AreShown, AreStaleIn};

use crate::explanation::Text;
use crate::failure::{Failure, outcome_of};
use crate::listing::index_number;
use crate::matching::items_of;
use crate::reading::read_all;
use crate::write::write;
use gix_refspec::oid::{Kind, ObjectId};
use gix_refspec::parsing::Operation;
use gix_refspec_plan::stale::{Stale, stale_refs};
use std::alloc::{AllocError, Global};

/// A local ref that looks stale, for C.
#[repr(C)]
#[derive(Clone, Copy)]
pub struct StaleOut {
    /// The index of its name.
    pub item: usize,
    /// The index of the refspec that keeps it, or `usize::MAX` if it is stale.
    pub kept_by: usize,
}

/// The local refs that look stale by fetch specs, if the remote has the refs with these names. Sets
/// `count` to the required size even if `stale` is too small, and leaves `stale` unchanged then; after
/// any other failure nothing has changed.
#[unsafe(no_mangle)]
pub extern "C" fn gix_refspec_stale(
    alloc: Global,
    texts: &[Text<'_>],
    remote: &[Text<'_>],
    local: &[Text<'_>],
    stale: &mut [StaleOut],
    count: &mut usize,
) -> u32
    ensures { Concludes
        ((structs : List StaleOut) × AreStaleIn (map bytes_of texts.now) (map bytes_of remote.now) (map bytes_of local.now) structs ×
        IsWrittenTo structs stale.old stale.new count.new)
        (WritesNothing (AreStaleIn (map bytes_of texts.now) (map bytes_of remote.now) (map bytes_of local.now))
        (AreUnread Operation.Fetch (map bytes_of texts.now)) stale.old stale.new count.old count.new)
        result }
{
    outcome_of(find_stale(alloc, texts, remote, local, stale, count))
}

// Writes the local refs that look stale to a slice.
fn find_stale(
    alloc: Global,
    texts: &[Text<'_>],
    remote: &[Text<'_>],
    local: &[Text<'_>],
    stale: &mut [StaleOut],
    count: &mut usize,
) -> Result<(), Failure>
    ensures ok { OnOk result ((structs : List StaleOut) ×
        AreStaleIn (map bytes_of texts.now) (map bytes_of remote.now) (map bytes_of local.now) structs ×
        IsWrittenTo structs stale.old stale.new count.new) }
    ensures err { IfErr result (WritesNothing
        (AreStaleIn (map bytes_of texts.now) (map bytes_of remote.now) (map bytes_of local.now))
        (AreUnread Operation.Fetch (map bytes_of texts.now)) stale.old stale.new count.old count.new) }
{
    let structs = match stale_among(alloc, texts, remote, local) {
        Ok(structs) => structs,
        Err(failure) => return Err(failure),
    };
    write(structs.as_slice(), stale, count)
}

// The structs of the local refs that look stale.
fn stale_among(
    alloc: Global,
    texts: &[Text<'_>],
    remote: &[Text<'_>],
    local: &[Text<'_>],
) -> Result<Vec<StaleOut>, Failure>
    ensures ok { IfOk result (λ structs.
        AreStaleIn (map bytes_of texts.now) (map bytes_of remote.now) (map bytes_of local.now) structs.items) }
    ensures err { IfErr result (λ f.
        (f ≢ Failure.TooSmall) × AreUnread Operation.Fetch (map bytes_of texts.now) f) }
{
    let group = match read_all(alloc, texts, Operation::Fetch) {
        Ok(group) => group,
        Err(failure) => return Err(failure),
    };
    let null = ObjectId::null(Kind::Sha1);
    let Ok(remote) = items_of(alloc, remote, &null) else {
        return Err(Failure::NoMemory);
    };
    let Ok(local) = items_of(alloc, local, &null) else {
        return Err(Failure::NoMemory);
    };
    let Ok(stale) = stale_refs(
        alloc,
        group.specs.as_slice(),
        remote.as_slice(),
        local.as_slice(),
    ) else {
        return Err(Failure::NoMemory);
    };
    match shown(alloc, stale.as_slice()) {
        Ok(structs) => Ok(structs),
        Err(_) => Err(Failure::NoMemory),
    }
}

// The structs of local refs that look stale.
fn shown(alloc: Global, stale: &[Stale]) -> Result<Vec<StaleOut>, AllocError>
    ensures { IfOk result (λ structs. AreShown (map found_of stale.now) structs.items) }
{
    let mut structs = Vec::with_capacity(alloc, stale.len())?;
    for one in stale {
        structs.push(StaleOut {
            item: one.item_index,
            kept_by: index_number(one.kept_by),
        })?;
    }
    Ok(structs)
}
