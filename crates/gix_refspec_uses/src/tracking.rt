//! Which tracking branches a remote ref is fetched to, and which remote refs a tracking branch is
//! fetched from.

ghost use Rattle.std.specs.Prelude.{◌≡◌, ◌↔◌, [], ◌∷◌, map, IfOk, IfErr};
ghost use Rattle.std.specs.List.{AllByRecursion};
ghost use Rattle.bstr.specs.BStr.{bstr_bytes};
ghost use Rattle.gix_refspec.specs.Views.Group.{IsOutcome, mapped_of, readings_of, ref_of};
ghost use Rattle.gix_refspec.specs.Matching.Hits.{AreKeptBackward, AreKeptForward};
ghost use Rattle.gix_refspec.specs.Laws.Matching.{GoesBothWays};
ghost use Rattle.gix_refspec_uses.specs.Tracking.{HasBoth, IfOneWay, TellsBranches, TellsRemotes};

use gix_refspec::match_group::{Item, match_lhs, match_rhs};
use gix_refspec::{MatchGroup, laws};
use std::alloc::Global;

/// The mappings of a remote ref to the tracking branches that it is fetched to. If memory runs out,
/// fails with the unchanged group.
pub fn tracking_branches<'spec, 'item>(
    alloc: Global,
    group: MatchGroup<'spec>,
    remote: &Item<'item>,
) -> match_lhs::Result<'spec, 'item>
    ensures ok { IfOk result (IsOutcome AreKeptForward group.entry (remote.now ∷ [])) }
    ensures exactly { IfOk result (λ found. TellsBranches
        (readings_of group.entry) (ref_of remote.now) (map mapped_of found.mappings.items)) }
    ensures err { IfErr result (λ e. e.group ≡ group.entry) }
{
    let items = [*remote];
    laws::kept_exactly(&group, items.as_slice());
    group.match_lhs(alloc, items.as_slice())
}

/// The mappings of the remote refs that a tracking branch is fetched from. If memory runs out, fails
/// with the unchanged group.
pub fn remote_refs<'spec, 'item>(
    alloc: Global,
    group: MatchGroup<'spec>,
    tracking: &Item<'item>,
) -> match_rhs::Result<'spec, 'item>
    ensures ok { IfOk result (IsOutcome AreKeptBackward group.entry (tracking.now ∷ [])) }
    ensures exactly { IfOk result (λ found. TellsRemotes
        (readings_of group.entry) (ref_of tracking.now) (map mapped_of found.mappings.items)) }
    ensures err { IfErr result (λ e. e.group ≡ group.entry) }
{
    let items = [*tracking];
    laws::kept_exactly(&group, items.as_slice());
    group.match_rhs(alloc, items.as_slice())
}

/// What a look-up there and back finds.
#[derive(Debug, Drop)]
pub struct LookUp<'spec, 'item> {
    /// The tracking branches of the remote ref.
    pub there: match_lhs::Outcome<'spec, 'item>,
    /// The remote refs of the tracking branch.
    pub back: match_rhs::Outcome<'spec, 'item>,
}

/// Why there is no look-up.
#[derive(Debug, Drop)]
pub enum NoLookUp<'spec> {
    /// The group doesn't go both ways. Holds the unchanged group.
    OneWay(MatchGroup<'spec>),
    /// Memory ran out.
    Memory,
}

/// Looks up the tracking branches of a remote ref, and the remote refs of a tracking branch. The remote
/// ref has this tracking branch exactly if the tracking branch has this remote ref.
///
/// Fails with `OneWay` exactly if `goes_both_ways` is false for the group, and with `Memory` if memory
/// runs out.
pub fn there_and_back<'spec, 'item>(
    alloc: Global,
    group: MatchGroup<'spec>,
    remote: &Item<'item>,
    tracking: &Item<'item>,
) -> Result<LookUp<'spec, 'item>, NoLookUp<'spec>>
    ensures there { IfOk result (λ found. TellsBranches
        (readings_of group.entry) (ref_of remote.now) (map mapped_of found.there.mappings.items)) }
    ensures back { IfOk result (λ found. TellsRemotes
        (readings_of group.entry) (ref_of tracking.now) (map mapped_of found.back.mappings.items)) }
    ensures agree { IfOk result (λ found.
        HasBoth (map mapped_of found.there.mappings.items)
        (bstr_bytes remote.now.full_ref_name) (bstr_bytes tracking.now.full_ref_name) ↔
        HasBoth (map mapped_of found.back.mappings.items)
        (bstr_bytes remote.now.full_ref_name) (bstr_bytes tracking.now.full_ref_name)) }
    ensures one_way { IfErr result (λ e. IfOneWay e (λ g. (g ≡ group.entry) ×
        ¬ (AllByRecursion GoesBothWays (readings_of group.entry)))) }
{
    if !group.goes_both_ways() {
        return Err(NoLookUp::OneWay(group));
    }
    laws::transpose(&group, [*remote].as_slice(), [*tracking].as_slice());
    let Ok(copy) = group.clone(alloc) else {
        return Err(NoLookUp::Memory);
    };
    let Ok(there) = tracking_branches(alloc, copy, remote) else {
        return Err(NoLookUp::Memory);
    };
    let Ok(back) = remote_refs(alloc, group, tracking) else {
        return Err(NoLookUp::Memory);
    };
    Ok(LookUp { there, back })
}
