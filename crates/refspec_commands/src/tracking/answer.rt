//! From which refs of remotes tracking refs are fetched.

ghost use Rattle.std.specs.Prelude.{◌≡◌, ◌≢◌, ◌≤◌, ◌++◌, [], List, length, map, IfOk, MatchBool, OnOk};
ghost use Rattle.std.specs.List.{All, AllZip, Any};
ghost use Rattle.gix_refspec.specs.Views.Group.{mapped_of, ref_of};
ghost use Rattle.gix_refspec.specs.Matching.Hits.{AreKeptBackward};
ghost use Rattle.gix_refspec.specs.Matching.Mappings.{Mapped};
ghost use Rattle.gix_refspec.specs.Views.Spec.{reading_of};
ghost use Rattle.refspec_commands.specs.Answer.{AreLeftOut, IsAnswer, IsFound, IsFoundBy, IsLooked, IsStatus, IsStatusOfRefs, IsTracked, mappings_in};
ghost use Rattle.refspec_commands.specs.declared.tracking.answer.Found.TheVariants as how;
ghost use Rattle.refspec_commands.specs.declared.tracking.answer.Tracked.{Tracked};
ghost use Rattle.refspec_commands.specs.Track.{AreByNames, AreWritten};

use crate::tracking::question::{Question, Remote};
use bstr::BString;
use gix_refspec::match_group::{Item, Mapping, has_id_destination, match_rhs};
use gix_refspec::{MatchGroup, RefSpecRef};
use refspec_io::canonical::canonical_texts;
use std::alloc::{AllocError, Global};
use std::collections::BTreeSet;

/// The answer to a question. It borrows from the names and specs of the question.
#[derive(Debug, Drop)]
pub struct Answer<'spec, 'item> {
    /// What each remote writes, in the order of the question.
    pub remotes: Vec<Tracked<'spec, 'item>>,
    /// By how many remotes each ref is written, in the order of the question.
    pub refs: Vec<Looked<'item>>,
}

/// What a remote writes.
#[derive(Debug, Drop)]
pub struct Tracked<'spec, 'item> {
    /// The name of the remote, as in the question.
    pub name: Option<&'spec [u8]>,
    /// The specs whose destination is an object id, in order: no ref is looked up by them.
    pub left_out: Vec<RefSpecRef<'spec>>,
    /// The other specs, in order.
    pub specs: Vec<RefSpecRef<'spec>>,
    /// The canonical texts of those.
    pub texts: Vec<BString>,
    /// Their mappings of the refs, as `match_rhs` lists them.
    pub mappings: Vec<Mapping<'spec, 'item>>,
}

/// A ref that was looked up.
#[derive(Clone, Copy, Debug)]
pub struct Looked<'a> {
    pub name: &'a [u8],
    pub found: Found,
}

/// By how many remotes a ref is written.
#[derive(Clone, Copy, Debug, PartialEq, Eq)]
pub enum Found {
    /// By none.
    Untracked,
    /// By at least one, and Git finds at most one.
    Tracked,
    /// Git finds this many, as it compares full destinations alone.
    Ambiguous(usize),
}

impl Answer<'_, '_> {
    /// The exit status of `refspec track`: 1 if a spec was left out, a ref isn't written, or Git finds several remotes
    /// for one; else 0.
    pub fn status(&self) -> u8
        ensures { IsStatus self.now.remotes.items self.now.refs.items result }
    {
        if has_left_out(self.remotes.as_slice()) || has_exception(self.refs.as_slice()) {
            1
        } else {
            0
        }
    }

    /// The exit status of `git refspec track`, for which a spec that was left out is no failure: 1 if a ref isn't
    /// written, or Git finds several remotes for one; else 0.
    pub fn status_of_refs(&self) -> u8
        ensures { IsStatusOfRefs self.now.refs.items result }
    {
        if has_exception(self.refs.as_slice()) {
            1
        } else {
            0
        }
    }
}

// Whether a spec was left out.
fn has_left_out(remotes: &[Tracked<'_, '_>]) -> bool
    ensures { MatchBool result
        (Any (λ t. t.left_out.items ≢ []) remotes.now)
        (All (λ t. t.left_out.items ≡ []) remotes.now) }
{
    for remote in remotes {
        if !remote.left_out.is_empty() {
            return true;
        }
    }
    false
}

// Whether a ref isn't written, or Git finds several remotes for it.
fn has_exception(refs: &[Looked<'_>]) -> bool
    ensures { MatchBool result
        (Any (λ l. l.found ≢ how.Tracked) refs.now)
        (All (λ l. l.found ≡ how.Tracked) refs.now) }
{
    for looked in refs {
        if looked.found != Found::Tracked {
            return true;
        }
    }
    false
}

/// The answer to a question. Fails if memory runs out.
pub fn answer_to<'spec, 'item>(
    alloc: Global,
    question: &Question<'spec, 'item>,
) -> Result<Answer<'spec, 'item>, AllocError>
    ensures { IfOk result (λ found. IsAnswer question.now.refs.items question.now.remotes.items
        found.remotes.items found.refs.items) }
{
    let mut remotes = Vec::with_capacity(alloc, question.remotes.len())?;
    for remote in &question.remotes {
        remotes.push(tracked_by(alloc, question.refs.as_slice(), remote)?)?;
    }
    let refs = looked_up(alloc, question.refs.as_slice(), remotes.as_slice())?;
    Ok(Answer { remotes, refs })
}

// What a remote writes of these refs.
fn tracked_by<'spec, 'item>(
    alloc: Global,
    refs: &[Item<'item>],
    remote: &Remote<'spec>,
) -> Result<Tracked<'spec, 'item>, AllocError>
    ensures { IfOk result (IsTracked (map ref_of refs.now) remote.now) }
{
    let (specs, left_out) = by_names(alloc, remote.specs.as_slice())?;
    let texts = canonical_texts(alloc, specs.as_slice())?;
    let outcome = mapped_back(alloc, specs, refs)?;
    Ok(Tracked {
        name: remote.name,
        left_out,
        specs: outcome.group.specs,
        texts,
        mappings: outcome.mappings,
    })
}

// The specs by which refs can be looked up, and the others, whose destination is an object id: both in order.
fn by_names<'a>(alloc: Global, specs: &[RefSpecRef<'a>]) -> Result<Parts<'a>, AllocError>
    ensures { IfOk result (λ parts.
        AreByNames (map reading_of specs.now) (map reading_of parts.0.items)
        × AreLeftOut (map reading_of specs.now) (map reading_of parts.1.items)) }
{
    let mut kept = Vec::with_capacity(alloc, specs.len())?;
    let mut left_out = Vec::new(alloc);
    for spec in specs {
        if has_id_destination(spec) {
            left_out.push(*spec)?;
        } else {
            kept.push(*spec)?;
        }
    }
    Ok((kept, left_out))
}

// Two parts of a list of specs.
type Parts<'a> = (Vec<RefSpecRef<'a>>, Vec<RefSpecRef<'a>>);

/// Maps the items, as destinations, back to their sources by specs for a fetch.
pub fn mapped_back<'spec, 'item>(
    alloc: Global,
    specs: Vec<RefSpecRef<'spec>>,
    items: &[Item<'item>],
) -> Result<match_rhs::Outcome<'spec, 'item>, AllocError>
    ensures { IfOk result (λ found. AreKeptBackward
        (map reading_of specs.entry.items) (map ref_of items.now)
        (map mapped_of found.mappings.items)) }
{
    let group = MatchGroup { specs };
    match group.match_rhs(alloc, items) {
        Ok(outcome) => Ok(outcome),
        Err(_) => Err(AllocError),
    }
}

// By how many remotes each ref is written, in order.
fn looked_up<'a>(
    alloc: Global,
    refs: &[Item<'a>],
    remotes: &[Tracked<'_, '_>],
) -> Result<Vec<Looked<'a>>, AllocError>
    ensures { IfOk result (λ looked. AllZip (IsLooked remotes.now) (map ref_of refs.now) looked.items) }
{
    let written = written_by(alloc, remotes)?;
    let in_full = written_in_full(alloc, remotes)?;
    let mut looked = Vec::with_capacity(alloc, refs.len())?;
    for item in refs {
        let name = item.full_ref_name.as_bytes();
        let found = found_of(&written, in_full.as_slice(), name);
        looked.push(Looked { name, found })?;
    }
    Ok(looked)
}

// How a ref is written, given the names that are written, and for each remote those that it writes by a full
// destination.
fn found_of(written: &BTreeSet<&[u8]>, in_full: &[BTreeSet<&[u8]>], name: &[u8]) -> Found
    ensures { (ts : List Tracked) → AreWritten written.now (mappings_in ts)
        → length in_full.now ≡ length ts → IsFound ts name.now result }
{
    if !written.contains(name) {
        return Found::Untracked;
    }
    found_by(count_in(in_full, name))
}

// How a ref is written that this many remotes write by a full destination.
fn found_by(count: usize) -> Found
    ensures { IsFoundBy count result }
{
    if count > 1 {
        Found::Ambiguous(count)
    } else {
        Found::Tracked
    }
}

// The names of the refs that remotes write.
fn written_by<'r>(
    alloc: Global,
    remotes: &'r [Tracked<'_, '_>],
) -> Result<BTreeSet<&'r [u8]>, AllocError>
    ensures { IfOk result (λ written. AreWritten written (mappings_in remotes.now)) }
{
    let mut written = BTreeSet::new(alloc);
    for remote in remotes {
        add_written(remote.mappings.as_slice(), &mut written)?;
    }
    Ok(written)
}

// Adds the names of the refs that mappings write.
fn add_written<'r>(
    mappings: &'r [Mapping<'_, '_>],
    written: &mut BTreeSet<&'r [u8]>,
) -> Result<(), AllocError>
    ensures { OnOk result ((before : List Mapped) → AreWritten written.old before
        → AreWritten written.new (before ++ map mapped_of mappings.now)) }
{
    for mapping in mappings {
        if let Some(name) = &mapping.rhs {
            written.insert(name.as_bstr().as_bytes())?;
        }
    }
    Ok(())
}

// For each remote, the names of the refs that it writes by a full destination.
fn written_in_full<'r>(
    alloc: Global,
    remotes: &'r [Tracked<'_, '_>],
) -> Result<Vec<BTreeSet<&'r [u8]>>, AllocError>
    ensures { IfOk result (λ sets. length sets.items ≡ length remotes.now) }
{
    let mut sets = Vec::with_capacity(alloc, remotes.len())?;
    for remote in remotes {
        sets.push(full_names(alloc, remote)?)?;
    }
    Ok(sets)
}

// The names of the refs that a remote writes by a full destination.
fn full_names<'r>(
    alloc: Global,
    remote: &'r Tracked<'_, '_>,
) -> Result<BTreeSet<&'r [u8]>, AllocError> {
    let mut names = BTreeSet::new(alloc);
    for mapping in &remote.mappings {
        if let (Some(spec), Some(name)) = (remote.specs.get(mapping.spec_index), &mapping.rhs) {
            if has_full_destination(spec) {
                names.insert(name.as_bstr().as_bytes())?;
            }
        }
    }
    Ok(names)
}

// Whether the destination of a spec begins with `refs/`.
fn has_full_destination(spec: &RefSpecRef<'_>) -> bool {
    match spec.destination() {
        None => false,
        Some(destination) => destination.as_bytes().starts_with(b"refs/"),
    }
}

// How many of these sets contain a name.
fn count_in(sets: &[BTreeSet<&[u8]>], name: &[u8]) -> usize
    ensures { result ≤ length sets.now }
{
    let mut count: usize = 0;
    for set in sets {
        if set.contains(name) {
            count += 1;
        }
    }
    count
}
