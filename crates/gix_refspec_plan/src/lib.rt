//! What a fetch writes, with all that the configuration adds to the specs of the call; and which local refs are stale.
//!
//! ```rust
//! let text = BStr::new(b"refs/heads/*:refs/remotes/origin/*");
//! let configured = [gix_refspec::parse(alloc, text, Operation::Fetch)?];
//! let wish = Wish {
//!     given: &[],
//!     configured: configured.as_slice(),
//!     merges: &[],
//!     tags: false,
//! };
//! let plan = plan_fetch(alloc, &wish, items)?;    // an update for each branch of the remote
//! ```
//!
//! Groups, items and mappings are those of `gix_refspec`, on which this crate is built.
#![tactic(auto)]

ghost use Rattle.std.specs.Prelude.{◌↔◌, map, IfOk, IsTrue, MatchBool};
ghost use Rattle.gix_refspec_match.specs.Views.Mapping.{ref_of};
ghost use Rattle.gix_refspec_plan.specs.Matching.Plan.{AreLacking, IsCarriedOut, IsPlan, MayBeMissing};
ghost use Rattle.gix_refspec_plan.specs.Views.Plan.{asked_of, planned_of, wish_of};

pub mod directories;
pub mod laws;
pub mod mapped;
mod specs;
pub mod stale;
mod verdicts;

use bstr::{BStr, BString};
use gix_refspec::match_group::ref_names::InvalidSide;
use gix_refspec::match_group::{Item, SourceRef};
use gix_refspec_match::missing_sources;
use gix_refspec_text::RefSpecRef;
use mapped::{mapped, names_in, specs_in};
use specs::{asked_specs, track};
use std::alloc::{AllocError, Global};
use verdicts::judged;

/// What a fetch is asked for.
#[derive(Clone, Copy, Debug)]
pub struct Wish<'w, 'spec> {
    /// The specs of the call, as in `git fetch REMOTE SPEC..`. Without any, the configured ones are fetched.
    pub given: &'w [RefSpecRef<'spec>],
    /// The values of `remote.<name>.fetch`, or those of `--refmap` in their place.
    pub configured: &'w [RefSpecRef<'spec>],
    /// The values of `branch.<name>.merge` of the current branch, if its `branch.<name>.remote` is this remote. One that isn't a
    /// full name or `HEAD` is ignored.
    pub merges: &'w [BStr<'spec>],
    /// Whether all tags are asked for, by `--tags` or `remote.<name>.tagOpt`.
    pub tags: bool,
}

/// Which spec makes an update.
#[derive(Clone, Copy, Debug, PartialEq, Eq)]
pub enum Origin {
    /// The spec of the call at this index.
    Given(usize),
    /// The configured spec at this index.
    Configured(usize),
    /// The merged ref at this index.
    Merge(usize),
    /// None: `HEAD` is fetched, as nothing is asked for.
    Default,
    /// `refs/tags/*:refs/tags/*`, as all tags are asked for.
    AllTags,
}

/// What becomes of an update.
#[derive(Clone, Copy, Debug, PartialEq, Eq)]
pub enum Verdict {
    /// It is fetched, and written to its destination if it has one.
    Written,
    /// It is left out, as this side isn't a valid ref name.
    LeftOut(InvalidSide),
    /// Another source has the same destination, so nothing is fetched.
    InConflict,
    /// A spec of the call, or that of all tags, writes another ref to its destination. Git warns that it "usually tracks"
    /// this one.
    Overruled,
    /// The destination of another update is a directory of this one's, or the other way round, as of `refs/x/a` and
    /// `refs/x/a/y`. Git writes one of them, fails to write the other with "cannot lock ref", and ends with status 1. Which one
    /// it writes is its affair. By `--atomic` it writes nothing.
    DirectoryConflict,
}

/// A ref or an object that a spec fetches. Its source is borrowed from the items.
#[derive(Debug, Drop)]
pub struct Update<'item> {
    /// The ref on the remote, or the object.
    pub source: SourceRef<'item>,
    /// The index of its item. `None` for an object that is asked for by its id.
    pub item_index: Option<usize>,
    /// The local ref. `None` if the spec has no destination.
    pub destination: Option<BString>,
    /// The spec that makes it.
    pub origin: Origin,
    /// What becomes of it.
    pub verdict: Verdict,
}

/// What a fetch does, as [`plan_fetch`] returns it.
#[derive(Debug, Drop)]
pub struct Plan<'item> {
    /// First what the specs of the call fetch, or without any the configured ones, in the order of `match_lhs`. Then what
    /// configured specs write besides, of the refs that specs of the call fetch.
    pub updates: Vec<Update<'item>>,
    /// The specs whose source the remote lacks, in order. A merged ref may be missing.
    pub missing: Vec<Origin>,
}

impl<'item> Plan<'item> {
    /// Whether no source is missing, and no update is in conflict. Otherwise a fetch writes nothing. A directory conflict
    /// doesn't stop a fetch.
    pub fn is_carried_out(&self) -> bool
        ensures { IsTrue result ↔ IsCarriedOut (map planned_of self.now.updates.items) self.now.missing.items }
    {
        if !self.missing.is_empty() {
            return false;
        }
        for update in &self.updates {
            if let Verdict::InConflict = update.verdict {
                return false;
            }
        }
        true
    }
}

/// What `git fetch` writes of these refs of a remote, as far as specs decide that.
///
/// The specs of the call map the refs, or without any the configured ones. In that case the refs that the current branch merges
/// are fetched too, unless a configured spec fetches them already; with neither, `HEAD` is. All tags follow, if they are asked
/// for. The configured specs also map the refs that specs of the call fetch: so `git fetch origin main` writes
/// `refs/remotes/origin/main` too. Negative specs of the call exclude from both, and configured ones only without specs of the
/// call.
///
/// Refs are mapped as by `match_lhs`, but Git completes a destination without a star otherwise: `refs/` is put before
/// `heads/x`, `tags/x` and `remotes/x`, and `refs/heads/` before any other that doesn't begin `refs/`.
///
/// An update with a side that isn't a valid ref name is left out, and conflicts with no other. So is one with the destination
/// `HEAD`, which a pattern may make.
///
/// Not in the plan is what Git decides by objects and local refs: whether an update is a fast-forward, existing tags, the
/// checked-out branch, local refs that are directories of destinations or in these, symbolic refs, and the tags that are followed.
///
/// All specs are taken for those of a fetch. Fails if memory runs out.
pub fn plan_fetch<'item>(
    alloc: Global,
    wish: &Wish<'_, '_>,
    items: &[Item<'item>],
) -> Result<Plan<'item>, AllocError>
    ensures { IfOk result (λ plan. IsPlan (wish_of wish.now) (map ref_of items.now)
        (map planned_of plan.updates.items) plan.missing.items) }
{
    let asked = asked_specs(alloc, wish, items)?;
    let names = names_in(alloc, asked.as_slice())?;
    let firsts = mapped(alloc, asked.as_slice(), names.as_slice(), items)?;
    let tracked = track(alloc, wish, items)?;
    let missing = missing_of(alloc, asked.as_slice(), items)?;
    let updates = judged(alloc, asked.as_slice(), firsts, tracked)?;
    Ok(Plan { updates, missing })
}

// A spec, and where it comes from.
#[derive(Clone, Copy)]
pub(crate) struct Asked<'spec> {
    pub(crate) spec: RefSpecRef<'spec>,
    pub(crate) origin: Origin,
}

// The origins of the specs whose source no item has. What a branch merges may be missing.
fn missing_of(
    alloc: Global,
    asked: &[Asked<'_>],
    items: &[Item<'_>],
) -> Result<Vec<Origin>, AllocError>
    ensures { IfOk result (λ missing. AreLacking (map ref_of items.now) (map asked_of asked.now) missing.items) }
{
    let specs = specs_in(alloc, asked)?;
    let mut missing = Vec::new(alloc);
    for index in missing_sources(alloc, specs.as_slice(), items)?.as_slice() {
        let origin = asked[*index].origin;
        if !may_be_missing(origin) {
            missing.push(origin)?;
        }
    }
    Ok(missing)
}

// Whether a missing source doesn't stop a fetch: that of a merged ref.
fn may_be_missing(origin: Origin) -> bool
    ensures { MatchBool result (MayBeMissing origin) (¬ (MayBeMissing origin)) }
{
    match origin {
        Origin::Merge(_) => true,
        Origin::Given(_) => false,
        Origin::Configured(_) => false,
        Origin::Default => false,
        Origin::AllTags => false,
    }
}
