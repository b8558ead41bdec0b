//! The line that sums up a plan on a terminal.

use crate::answer::{Answer, pruning_specs};
use crate::updates::is_written;
use gix_refspec::MatchGroup;
use gix_refspec_plan::{Origin, Update, Verdict};
use std::alloc::{AllocError, Global};
use std::collections::BTreeSet;
use std::mem;

/// Appends the line: how many refs are written by how many specs, how many negative specs leave out, and how many are
/// left out for an invalid name.
pub fn write_summary(
    alloc: Global,
    answer: &Answer<'_, '_, '_>,
    out: &mut Vec<u8>,
) -> Result<(), AllocError> {
    let mut seen = Seen::new(alloc, answer.question.refs.len())?;
    for update in &answer.plan.updates {
        if is_written(update.verdict) {
            seen.add(update)?;
        }
    }
    let refs = counted(alloc, seen.refs, "ref")?;
    let specs = counted(alloc, seen.origins.len(), "spec")?;
    let mut line = format!(in alloc; "{refs} by {specs}")?;
    let mut bad: usize = 0;
    for update in &answer.plan.updates {
        if let Verdict::LeftOut(_) = update.verdict {
            seen.add(update)?;
            bad = bad.saturating_add(1);
        }
    }
    let excluded = seen.count_excluded(alloc, answer)?;
    if excluded > 0 {
        line.push_str(format!(in alloc; "; {excluded} left out by negative specs")?.as_str())?;
    }
    if bad > 0 {
        line.push_str(format!(in alloc; "; {bad} left out for an invalid name")?.as_str())?;
    }
    out.extend_from_slice(line.as_bytes())?;
    Ok(out.push(b'\n')?)
}

// The indexes of the refs that the positive specs of a fetch map, without exclusions. Some may be there several times.
// Only the specs count that are fetched: the given ones, or without any the configured ones.
fn taken_by(alloc: Global, answer: &Answer<'_, '_, '_>) -> Result<Vec<usize>, AllocError> {
    let mut positive = Vec::new(alloc);
    for spec in pruning_specs(&answer.question) {
        if !spec.is_negative() {
            positive.push(*spec)?;
        }
    }
    let group = MatchGroup { specs: positive };
    let Ok(outcome) = group.match_lhs(alloc, answer.question.refs) else {
        return Err(AllocError);
    };
    let mut indexes = Vec::new(alloc);
    for mapping in &outcome.mappings {
        if let Some(index) = mapping.item_index {
            indexes.push(index)?;
        }
    }
    Ok(indexes)
}

// The distinct refs and the distinct specs of updates.
#[derive(Drop)]
struct Seen {
    refs: usize,
    has_ref: Vec<bool>,
    origins: BTreeSet<(u8, usize)>,
}

impl Seen {
    // Nothing counted yet, of at most this many refs.
    fn new(alloc: Global, refs: usize) -> Result<Seen, AllocError> {
        let mut seen = Seen {
            refs: 0,
            has_ref: Vec::new(alloc),
            origins: BTreeSet::new(alloc),
        };
        seen.has_ref.resize(refs, false)?;
        Ok(seen)
    }

    // Counts the ref and the spec of an update, if they are new.
    fn add(&mut self, update: &Update<'_>) -> Result<(), AllocError> {
        self.add_item(update.item_index);
        self.origins.insert(key_of(update.origin))?;
        Ok(())
    }

    // Counts the other refs that the positive specs of a fetch map, and returns how many they are.
    fn count_excluded(
        &mut self,
        alloc: Global,
        answer: &Answer<'_, '_, '_>,
    ) -> Result<usize, AllocError> {
        let before = self.refs;
        for index in &taken_by(alloc, answer)? {
            self.add_item(Some(*index));
        }
        Ok(self.refs.saturating_sub(before))
    }

    // Counts a ref, if it is new. An object id always counts as a new ref.
    fn add_item(&mut self, index: Option<usize>) {
        let is_new = match index {
            None => true,
            Some(index) => set(&mut self.has_ref, index),
        };
        if is_new {
            self.refs = self.refs.saturating_add(1);
        }
    }
}

// Tells the specs of a plan apart.
fn key_of(origin: Origin) -> (u8, usize) {
    match origin {
        Origin::Given(index) => (0, index),
        Origin::Configured(index) => (1, index),
        Origin::Merge(index) => (2, index),
        Origin::Default => (3, 0),
        Origin::AllTags => (4, 0),
    }
}

// Sets a flag, and returns whether it wasn't set before.
fn set(flags: &mut Vec<bool>, index: usize) -> bool {
    match flags.get_mut(index) {
        None => false,
        Some(flag) => !mem::replace(flag, true),
    }
}

// A number and a noun, in the singular or the plural.
fn counted(alloc: Global, count: usize, thing: &str) -> Result<String, AllocError> {
    match count {
        1 => format!(in alloc; "1 {thing}"),
        _ => format!(in alloc; "{count} {thing}s"),
    }
}
