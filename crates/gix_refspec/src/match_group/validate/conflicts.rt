//! Destinations that several sources are mapped to.
//!
//! They are found by sorting, so that no choice of names makes it slow. If all destinations differ, as they
//! mostly do, there is no conflict, and nothing is sorted.

ghost use Rattle.std.specs.Prelude.{◌≡◌, ◌≢◌, ◌<◌, ◌≤◌, [], List, ℕ, length, map, take, drop, IfOk, OnOk, OnErr, IsTrue};
ghost use Rattle.std.specs.List.Sorted.{IsStrictlySortedBy};
ghost use Rattle.bstr.specs.BStr.{bstr_bytes};
ghost use Rattle.gix_refspec_text.specs.Views.Spec.{reading_of};
ghost use Rattle.gix_refspec_match.specs.Views.Mapping.{mapped_of};
ghost use Rattle.gix_refspec.specs.Matching.Validation.{IndexesFit, HasConflictAt, AreConflicts};
ghost use Rattle.gix_refspec.specs.Views.Issue.{conflict_of};
ghost use Rattle.gix_refspec.specs.Private.Updates.{AddsConflict, AreUpdates, AreFirstUpdates, AreConflicting, IsRun, IsConflictOf, update_cmp, all_destinations};

use crate::match_group::validate::Issue;
use bstr::{BStr, BString};
use gix_refspec_match::duplicates::{duplicates, is_flagged};
use gix_refspec_match::types::Mapping;
use gix_refspec_text::RefSpecRef;
use std::alloc::{AllocError, Global};

// A destination, and the index of a mapping to it.
#[derive(Clone, Copy, PartialEq, Eq, PartialOrd, Ord)]
struct Update<'m> {
    destination: &'m [u8],
    index: usize,
}

// The conflicts of some mappings. Fails if memory runs out; never without mappings.
pub(crate) fn issues_of(
    alloc: Global,
    specs: &[RefSpecRef<'_>],
    mappings: &[Mapping<'_, '_>],
) -> Result<Vec<Issue>, AllocError>
    requires { IndexesFit (map reading_of specs.now) (map mapped_of mappings.now) }
    ensures ok { IfOk result (λ issues. AreConflicts
        (map reading_of specs.now) (map mapped_of mappings.now) (map conflict_of issues.items)) }
    ensures memory { OnErr result (map mapped_of mappings.now ≢ []) }
{
    if mappings.is_empty() {
        return Ok(Vec::new(alloc));
    }
    if destinations_differ(alloc, mappings)? {
        return Ok(Vec::new(alloc));
    }
    let repeats = duplicates(alloc, mappings)?;
    let firsts = updates_in_order(alloc, mappings, repeats.as_slice())?;
    issues_among(alloc, specs, mappings, firsts.as_slice())
}

/// Whether no two mappings have the same destination: then there is no conflict. Fails if memory runs out.
pub fn destinations_differ(alloc: Global, mappings: &[Mapping<'_, '_>]) -> Result<bool, AllocError>
    ensures { IfOk result (λ differ. IsTrue differ →
        (d : List ℕ) → ¬ (HasConflictAt (map mapped_of mappings.now) d)) }
{
    let destinations = destinations_of(alloc, mappings)?;
    let flags = duplicates(alloc, destinations.as_slice())?;
    Ok(flags.is_empty())
}

// The destinations, without missing ones.
fn destinations_of<'m>(
    alloc: Global,
    mappings: &'m [Mapping<'_, '_>],
) -> Result<Vec<BStr<'m>>, AllocError>
    ensures { IfOk result (λ destinations. map bstr_bytes destinations.items ≡
        all_destinations (map mapped_of mappings.now)) }
{
    let mut destinations = Vec::with_capacity(alloc, mappings.len())?;
    for mapping in mappings {
        if let Some(name) = &mapping.rhs {
            destinations.push(name.as_bstr())?;
        }
    }
    Ok(destinations)
}

// The updates of the mappings that have a destination and aren't flagged, by destination and then by
// index.
fn updates_in_order<'m>(
    alloc: Global,
    mappings: &'m [Mapping<'_, '_>],
    flags: &[bool],
) -> Result<Vec<Update<'m>>, AllocError>
    ensures { IfOk result (λ updates. AreUpdates (map mapped_of mappings.now) flags.now updates.items) }
{
    let mut updates = Vec::with_capacity(alloc, mappings.len())?;
    for (index, mapping) in mappings.iter().enumerate() {
        let Some(name) = &mapping.rhs else {
            continue;
        };
        if !is_flagged(flags, index) {
            updates.push(Update {
                destination: name.as_bstr().as_bytes(),
                index,
            })?;
        }
    }
    updates.sort_unstable();
    Ok(updates)
}

// The conflicts of sorted updates, each the first from its source to its destination.
fn issues_among(
    alloc: Global,
    specs: &[RefSpecRef<'_>],
    mappings: &[Mapping<'_, '_>],
    firsts: &[Update<'_>],
) -> Result<Vec<Issue>, AllocError>
    requires fits { IndexesFit (map reading_of specs.now) (map mapped_of mappings.now) }
    requires firsts { AreFirstUpdates (map mapped_of mappings.now) firsts.now }
    ensures { IfOk result (λ issues. AreConflicts
        (map reading_of specs.now) (map mapped_of mappings.now) (map conflict_of issues.items)) }
{
    let mut issues = Vec::new(alloc);
    let mut at = 0;
    while at < firsts.len() {
        let rest = &firsts[at..];
        let len = len_of_run(rest);
        add_issue(alloc, specs, mappings, &rest[..len], &mut issues)?;
        at += len;
    }
    Ok(issues)
}

// Adds the conflict of all updates of one destination, if there are several.
fn add_issue(
    alloc: Global,
    specs: &[RefSpecRef<'_>],
    mappings: &[Mapping<'_, '_>],
    run: &[Update<'_>],
    issues: &mut Vec<Issue>,
) -> Result<(), AllocError>
    requires fits { IndexesFit (map reading_of specs.now) (map mapped_of mappings.now) }
    requires conflicting { 1 < length run.now → AreConflicting (map mapped_of mappings.now) run.now }
    ensures { OnOk result (AddsConflict
        (map reading_of specs.now) (map mapped_of mappings.now) run.now
        (map conflict_of issues.old.items) (map conflict_of issues.new.items)) }
{
    if run.len() > 1 {
        issues.push(issue_of(alloc, specs, mappings, run)?)?;
    }
    Ok(())
}

// How many of the sorted updates, from the first on, have the first one's destination.
fn len_of_run(updates: &[Update<'_>]) -> usize
    requires some { 0 < length updates.now }
    requires order { IsStrictlySortedBy update_cmp updates.now }
    ensures some { 0 < result }
    ensures fits { result ≤ length updates.now }
    ensures split { IsRun (take result updates.now) (drop result updates.now) }
{
    for (len, update) in updates.iter().enumerate() {
        if update.destination != updates[0].destination {
            return len;
        }
    }
    updates.len()
}

// The conflict of the updates of one destination.
fn issue_of(
    alloc: Global,
    specs: &[RefSpecRef<'_>],
    mappings: &[Mapping<'_, '_>],
    run: &[Update<'_>],
) -> Result<Issue, AllocError>
    requires fits { IndexesFit (map reading_of specs.now) (map mapped_of mappings.now) }
    requires conflicting { AreConflicting (map mapped_of mappings.now) run.now }
    ensures { IfOk result (λ issue. IsConflictOf
        (map reading_of specs.now) (map mapped_of mappings.now) run.now (conflict_of issue)) }
{
    let mut sources = Vec::with_capacity(alloc, run.len())?;
    let mut texts = Vec::with_capacity(alloc, run.len())?;
    for update in run {
        let mapping = &mappings[update.index];
        sources.push(mapping.lhs.clone(alloc)?.into_owned(alloc)?)?;
        texts.push(specs[mapping.spec_index].to_bstring(alloc)?)?;
    }
    Ok(Issue::Conflict {
        destination_full_ref_name: BString::from_slice(alloc, BStr::new(run[0].destination))?,
        sources,
        specs: texts,
    })
}
