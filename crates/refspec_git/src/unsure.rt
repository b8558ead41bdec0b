//! What the specs and the names of refs leave open of a plan.

use crate::sources::Names;
use bstr::ByteSlice;
use gix_refspec::match_group::SourceRef;
use gix_refspec_plan::{Origin, Update, Verdict};
use refspec_fetch::answer::{Answer, pruning_specs};
use refspec_fetch::question::{Question, Tags};
use std::alloc::{AllocError, Global};
use std::collections::BTreeSet;

/// What is unsure of a plan that is carried out: each list is in the order of its updates.
#[derive(Drop)]
pub struct Unsure<'a> {
    /// The object ids that are asked for, in lower case, if no ref of the remote has them.
    pub ids: Vec<String>,
    /// The destinations that a fetch which follows tags may have from two refs.
    pub tags: FollowedTags<'a>,
    /// The stale refs that are written by other specs than those by which the fetch prunes.
    pub pruned: Vec<&'a [u8]>,
}

/// Destinations below `refs/tags/` that are written from a ref of another name, and that the remote has as tags too.
#[derive(Drop)]
pub struct FollowedTags<'a> {
    /// Those of the specs that are fetched: if Git follows the tag, it writes nothing.
    pub stopping: Vec<&'a [u8]>,
    /// Those of configured specs beside given ones: if Git follows the tag, it writes that.
    pub preferred: Vec<&'a [u8]>,
}

impl<'a> FollowedTags<'a> {
    fn new(alloc: Global) -> FollowedTags<'a> {
        FollowedTags {
            stopping: Vec::new(alloc),
            preferred: Vec::new(alloc),
        }
    }
}

/// What is unsure of an answer, given the lines of `git ls-remote` and the ref names in them. Fails if memory runs out.
pub fn unsure_of<'a>(
    alloc: Global,
    answer: &'a Answer<'_, '_, 'a>,
    lines: &[u8],
    names: &Names<'_>,
) -> Result<Unsure<'a>, AllocError> {
    if !answer.plan.is_carried_out() {
        return Ok(Unsure {
            ids: Vec::new(alloc),
            tags: FollowedTags::new(alloc),
            pruned: Vec::new(alloc),
        });
    }
    Ok(Unsure {
        ids: unlisted_ids(alloc, answer, lines)?,
        tags: followed_tags(alloc, answer, names)?,
        pruned: pruned_names(alloc, answer)?,
    })
}

// The object ids that are asked for, without those that a line of `git ls-remote` begins with.
fn unlisted_ids(
    alloc: Global,
    answer: &Answer<'_, '_, '_>,
    lines: &[u8],
) -> Result<Vec<String>, AllocError> {
    let mut ids = Vec::new(alloc);
    for update in &answer.plan.updates {
        if let (Verdict::Written, SourceRef::ObjectId(id)) = (update.verdict, &update.source) {
            ids.push(format!(in alloc; "{id}")?)?;
        }
    }
    if !ids.is_empty() {
        let mut listed = BTreeSet::new(alloc);
        for line in lines.split(|byte| *byte == b'\n') {
            if let Some((id, _)) = line.split_once_str(b"\t") {
                listed.insert(id)?;
            }
        }
        ids.retain(|id| !listed.contains(id.as_bytes()));
    }
    Ok(ids)
}

// The destinations that are tags of the remote too, and written from a ref of another name.
fn followed_tags<'a>(
    alloc: Global,
    answer: &'a Answer<'_, '_, 'a>,
    names: &Names<'_>,
) -> Result<FollowedTags<'a>, AllocError> {
    let mut tags = FollowedTags::new(alloc);
    if !follows_tags(&answer.question) {
        return Ok(tags);
    }
    for update in &answer.plan.updates {
        if let (Verdict::Written, Some(name)) = (update.verdict, &update.destination) {
            let name = name.as_bytes();
            if name.starts_with(b"refs/tags/")
                && !is_called(&update.source, name)
                && names.has(name)
            {
                if is_opportunistic(&answer.question, update) {
                    tags.preferred.push(name)?;
                } else {
                    tags.stopping.push(name)?;
                }
            }
        }
    }
    Ok(tags)
}

// Whether a fetch follows tags: a spec that is fetched has a destination, and no option is about tags.
fn follows_tags(question: &Question<'_, '_, '_>) -> bool {
    let has_destination = pruning_specs(question)
        .iter()
        .any(|spec| spec.destination().is_some());
    question.tags == Tags::Followed && has_destination
}

// Whether an update is one by a configured spec beside given ones.
fn is_opportunistic(question: &Question<'_, '_, '_>, update: &Update<'_>) -> bool {
    match update.origin {
        Origin::Configured(_) => !question.given.is_empty(),
        Origin::Given(_) | Origin::Merge(_) | Origin::Default | Origin::AllTags => false,
    }
}

// Whether a source is the ref of this name.
fn is_called(source: &SourceRef<'_>, name: &[u8]) -> bool {
    match source {
        SourceRef::FullName(full) => full.as_bstr().as_bytes() == name,
        SourceRef::ObjectId(_) => false,
    }
}

// The stale refs that are written by other specs than those by which a fetch prunes.
fn pruned_names<'a>(
    alloc: Global,
    answer: &'a Answer<'_, '_, 'a>,
) -> Result<Vec<&'a [u8]>, AllocError> {
    let question = &answer.question;
    let mut stale = BTreeSet::new(alloc);
    for found in &answer.stale {
        if let (None, Some(item)) = (found.kept_by, question.local.get(found.item_index)) {
            stale.insert(item.full_ref_name.as_bytes())?;
        }
    }
    let mut pruned = Vec::new(alloc);
    for update in &answer.plan.updates {
        if let (Verdict::Written, Some(name)) = (update.verdict, &update.destination) {
            if !prunes(question, update) && stale.contains(name.as_bytes()) {
                pruned.push(name.as_bytes())?;
            }
        }
    }
    Ok(pruned)
}

// Whether a fetch prunes by the spec of an update: by the given specs, or without any by the configured ones.
fn prunes(question: &Question<'_, '_, '_>, update: &Update<'_>) -> bool {
    match update.origin {
        Origin::Given(_) => true,
        Origin::Configured(_) => question.given.is_empty(),
        Origin::Merge(_) | Origin::Default | Origin::AllTags => false,
    }
}
