//! Where branches have their upstreams.

ghost use Rattle.std.specs.Prelude.{◌≡◌, map, option_map, IfOk, MatchBool};
ghost use Rattle.std.specs.List.{All, AllZip, Any};
ghost use Rattle.bstr.specs.Owned.{bstring_bytes};
ghost use Rattle.gix_refspec.specs.Views.Spec.{reading_of};
ghost use Rattle.gix_refspec_remote.specs.Views.{shown};
ghost use Rattle.refspec_commands.specs.Upstreams.{FindsUpstream, HasUpstream, IsFound, IsHere, IsStatus};
ghost use Rattle.refspec_commands.specs.Upstreams.{IsTextAt, spec_named};

use crate::upstreams::question::{Merged, Question, Setup};
use bstr::{BStr, BString};
use gix_refspec::RefSpecRef;
use gix_refspec_remote::{Upstream, upstream_of};
use std::alloc::{AllocError, Global};

/// The answer to a question. It borrows from the names and specs of the question.
#[derive(Drop)]
pub struct Answer<'q, 'spec> {
    /// What was found for each merged ref, in the order of the question.
    pub found: Vec<Found<'q, 'spec>>,
}

/// The upstream of a branch, or why it has none. A branch that merges from this repository always has one.
#[derive(Debug, Drop)]
pub struct Found<'q, 'spec> {
    /// The ref that it merges.
    pub merged: Merged<'q, 'spec>,
    /// What its remote's specs make of that.
    pub upstream: Upstream<'spec>,
    /// The canonical text of the spec that stores the ref, that excludes it, or that fetches it without storing it; empty
    /// if there is none.
    pub text: BString,
}

impl Answer<'_, '_> {
    /// The exit status: 1 if a branch has no upstream, else 0.
    pub fn status(&self) -> u8
        ensures { IsStatus self.now.found.items result }
    {
        if has_all(self.found.as_slice()) { 0 } else { 1 }
    }
}

// Whether each branch has an upstream.
fn has_all(found: &[Found<'_, '_>]) -> bool
    ensures { MatchBool result
        (All FindsUpstream found.now)
        (Any (λ f. ¬ (FindsUpstream f)) found.now) }
{
    for one in found {
        if !has_upstream(one.merged.setup, &one.upstream) {
            return false;
        }
    }
    true
}

// Whether a branch has an upstream.
fn has_upstream(setup: Setup<'_>, upstream: &Upstream<'_>) -> bool
    ensures { MatchBool result (HasUpstream setup.entry (shown upstream.now))
        (¬ (HasUpstream setup.entry (shown upstream.now))) }
{
    match upstream {
        Upstream::Tracked { .. } => true,
        Upstream::Excluded { .. } => is_here(setup),
        Upstream::NotStored { .. } => is_here(setup),
        Upstream::NotFetched => is_here(setup),
    }
}

// Whether a branch merges from this repository.
fn is_here(setup: Setup<'_>) -> bool
    ensures { MatchBool result (IsHere setup.entry) (¬ (IsHere setup.entry)) }
{
    match setup {
        Setup::Here(_) => true,
        Setup::Remote | Setup::NoRemote | Setup::NoMerge => false,
    }
}

/// The answer to a question. Fails if memory runs out.
pub fn answer_to<'q, 'spec>(
    alloc: Global,
    question: &Question<'q, 'spec>,
) -> Result<Answer<'q, 'spec>, AllocError>
    ensures { IfOk result (λ answer. AllZip IsFound question.now.merged.items answer.found.items) }
{
    let mut found = Vec::with_capacity(alloc, question.merged.len())?;
    for merged in &question.merged {
        found.push(found_for(alloc, merged)?)?;
    }
    Ok(Answer { found })
}

// What the specs of a remote make of a merged ref.
fn found_for<'q, 'spec>(
    alloc: Global,
    merged: &Merged<'q, 'spec>,
) -> Result<Found<'q, 'spec>, AllocError>
    ensures { IfOk result (IsFound merged.now) }
{
    let upstream = upstream_of(alloc, merged.specs, BStr::new(merged.name))?;
    let text = text_at(alloc, merged.specs, spec_of(&upstream))?;
    Ok(Found {
        merged: *merged,
        upstream,
        text,
    })
}

// The index of the spec that stores a merged ref, that excludes it, or that fetches it without storing it.
fn spec_of(upstream: &Upstream<'_>) -> Option<usize>
    ensures { result ≡ spec_named (shown upstream.now) }
{
    match upstream {
        Upstream::Tracked { spec_index, .. } => Some(*spec_index),
        Upstream::Excluded { excluded_by, .. } => Some(*excluded_by),
        Upstream::NotStored { spec_index } => Some(*spec_index),
        Upstream::NotFetched => None,
    }
}

// The canonical text of the spec at an index; empty without an index.
pub(crate) fn text_at(
    alloc: Global,
    specs: &[RefSpecRef<'_>],
    index: Option<usize>,
) -> Result<BString, AllocError>
    ensures { IfOk result (λ text. IsTextAt (map reading_of specs.now) index (bstring_bytes text)) }
{
    let Some(index) = index else {
        return Ok(BString::new(Vec::new(alloc)));
    };
    match specs.get(index) {
        None => Ok(BString::new(Vec::new(alloc))),
        Some(spec) => spec.to_bstring(alloc),
    }
}
