//! What a fetch writes: each ref once, and nothing where a source is missing or in conflict.

ghost use Rattle.std.specs.Prelude.{◌≡◌, map, IfOk};
ghost use Rattle.gix_refspec.specs.Views.Group.{ref_of};
ghost use Rattle.gix_refspec_plan.specs.Views.Plan.{wish_of};
ghost use Rattle.gix_refspec_uses.specs.Planned.{AreFetched, IfCarriedOut, IfHindered, IsHindered, is_written};

use gix_refspec::match_group::Item;
use gix_refspec_plan::{Plan, Update, Verdict, Wish, laws, plan_fetch};
use std::alloc::{AllocError, Global};

/// What comes of a fetch.
#[derive(Debug, Drop)]
pub enum Fetch<'item> {
    /// It is carried out. Holds the updates that are written, in order. Of those in a directory conflict, which are left out
    /// here, Git writes some, and then ends with status 1.
    CarriedOut(Vec<Update<'item>>),
    /// Nothing is fetched, as a source is missing, or updates are in conflict. Holds the whole plan.
    Hindered(Plan<'item>),
}

/// Plans what is fetched of the items. Fails if memory runs out.
pub fn plan_updates<'item>(
    alloc: Global,
    wish: &Wish<'_, '_>,
    items: &[Item<'item>],
) -> Result<Fetch<'item>, AllocError>
    ensures carried_out { IfOk result (λ fetch. IfCarriedOut fetch
        (AreFetched (wish_of wish.now) (map ref_of items.now))) }
    ensures hindered { IfOk result (λ fetch. IfHindered fetch
        (IsHindered (wish_of wish.now) (map ref_of items.now))) }
{
    laws::writes_once(wish, items);
    laws::carried_out_exactly(wish, items);
    let plan = plan_fetch(alloc, wish, items)?;
    if !plan.is_carried_out() {
        return Ok(Fetch::Hindered(plan));
    }
    let mut updates = plan.updates;
    updates.retain(|update| has_to_be_written(update));
    Ok(Fetch::CarriedOut(updates))
}

fn has_to_be_written(update: &Update<'_>) -> bool
    ensures { result ≡ is_written update.now }
{
    match update.verdict {
        Verdict::Written => true,
        Verdict::LeftOut(_) | Verdict::InConflict => false,
        Verdict::Overruled | Verdict::DirectoryConflict => false,
    }
}
