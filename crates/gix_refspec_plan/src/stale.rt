//! Local refs that a pruning fetch should delete, and those that it keeps although they look stale.

ghost use Rattle.std.specs.Prelude.{◌≡◌, ℕ, List, Some, map, option_map, IfOk, MatchOption, OnOk};
ghost use Rattle.std.specs.List.{AllZip, Contains};
ghost use Rattle.bstr.specs.BStr.{bstr_bytes};
ghost use Rattle.bstr.specs.Owned.{bstring_bytes};
ghost use Rattle.gix_refspec_text.specs.Texts.Name.{HasSeveralStars};
ghost use Rattle.gix_refspec_text.specs.Specs.Reading.{Reading};
ghost use Rattle.gix_refspec_text.specs.Matching.Side.{candidates as candidates_of};
ghost use Rattle.gix_refspec_text.specs.Views.Spec.{reading_of};
ghost use Rattle.gix_refspec_match.specs.Private.Kept.{ExcludeName, ExcludeNameAt};
ghost use Rattle.gix_refspec_match.specs.Views.Mapping.{mapped_of, ref_of};
ghost use Rattle.gix_refspec_plan.specs.Matching.Stale.{AreStale};
ghost use Rattle.gix_refspec_plan.specs.Private.Stales.{AreDestinations, AreNames, AreWritersOf, FlagWritten, HasParts, HasPatternState, HasState, IsNamedBy, IsWrittenBy, WritesPattern, ref_names};
ghost use Rattle.gix_refspec_plan.specs.Views.Stale.{found_of};
ghost use Rattle.gix_refspec_plan.specs.declared.stale.Pattern.{Pattern};

use crate::mapped::{completed_names, mapped_by_specs};
use bstr::{BStr, BString};
use gix_refspec::match_group::{Item, Mapping};
use gix_refspec_match::duplicates::{duplicates, is_flagged};
use gix_refspec_match::exclusions::Exclusions;
use gix_refspec_match::needle::word_between;
use gix_refspec_text::RefSpecRef;
use gix_refspec_text::side::{
    SideKind, candidates, joined, kind_of, split_at_first_star, written_name,
};
use std::alloc::{AllocError, Global};
use std::collections::HashMap;

/// A local ref that looks stale: specs can write it, and a fetch doesn't.
#[derive(Clone, Copy, Debug, PartialEq, Eq)]
pub struct Stale {
    /// The index of its item.
    pub item_index: usize,
    /// The index of a negative spec that excludes a ref from which it could be written. So it is kept. `None` if it is stale.
    pub kept_by: Option<usize>,
}

// What is known of a local ref by the specs alone: whether one can write it, and whether a ref is excluded from which it could
// be written, by the spec at an index.
#[derive(Clone, Copy)]
enum State {
    Unwritable,
    Included,
    Excluded(usize),
}

/// The local refs that look stale, in order; of those of one name the first.
///
/// A local ref is stale if some positive spec can write it, none of the refs from which it could be written is on the remote,
/// and none of these is excluded by a negative spec: a pruning fetch should delete it. These refs are, for a pattern, the one
/// with the same word, for a full name that one, and for a partial name its six candidates. What is asked for by an object id
/// is never stale. If one of these refs is excluded, and a fetch writes the local ref from no other, it is kept, and listed
/// with a negative spec that excludes one.
///
/// `git fetch --prune` does so with the refs that patterns write. It compares the sides of a spec without a star as they are
/// written, and excludes none of its sources, so it deletes more.
///
/// The specs are those of a fetch, and destinations are completed as by `plan_fetch`. Symbolic refs aren't told from others.
/// Each local ref that a fetch doesn't write is compared with each pattern. Fails if memory runs out.
pub fn stale_refs(
    alloc: Global,
    specs: &[RefSpecRef<'_>],
    remote: &[Item<'_>],
    local: &[Item<'_>],
) -> Result<Vec<Stale>, AllocError>
    ensures { IfOk result (λ stale. AreStale (map reading_of specs.now)
        (map ref_of remote.now) (map ref_of local.now) (map found_of stale.items)) }
{
    let names = written_names(alloc, specs)?;
    let writers = Writers::of(alloc, specs, names.as_slice())?;
    let completed = completed_names(alloc, specs)?;
    let written = mapped_by_specs(alloc, specs, completed.as_slice(), remote)?;
    let flags = written_flags(alloc, written.as_slice(), local)?;
    let mut stale = Vec::new(alloc);
    for (item_index, item) in local.iter().enumerate() {
        if is_flagged(flags.as_slice(), item_index) {
            continue;
        }
        match writers.state_of(alloc, item.full_ref_name)? {
            State::Unwritable => {}
            State::Included => stale.push(Stale {
                item_index,
                kept_by: None,
            })?,
            State::Excluded(spec) => stale.push(Stale {
                item_index,
                kept_by: Some(spec),
            })?,
        }
    }
    Ok(stale)
}

// The ref that each positive spec without stars writes. `None` for others, and without a destination.
fn written_names(
    alloc: Global,
    specs: &[RefSpecRef<'_>],
) -> Result<Vec<Option<BString>>, AllocError>
    ensures { IfOk result (λ names. AllZip IsWrittenBy
        (map reading_of specs.now) (map (option_map bstring_bytes) names.items)) }
{
    let mut names = Vec::with_capacity(alloc, specs.len())?;
    for spec in specs {
        names.push(written_by(alloc, spec)?)?;
    }
    Ok(names)
}

fn written_by(alloc: Global, spec: &RefSpecRef<'_>) -> Result<Option<BString>, AllocError>
    ensures { IfOk result (λ name. IsWrittenBy (reading_of spec.now) (option_map bstring_bytes name)) }
{
    if spec.is_negative() {
        return Ok(None);
    }
    let Some(destination) = spec.destination() else {
        return Ok(None);
    };
    let destination = destination.as_bytes();
    if split_at_first_star(destination).is_some() {
        return Ok(None);
    }
    Ok(Some(written_name(alloc, destination)?))
}

// A pattern that refs are written by, and the pattern of the refs from which they are.
#[derive(Clone, Copy)]
struct Pattern<'s> {
    before: &'s [u8],
    after: &'s [u8],
    source: Option<(&'s [u8], &'s [u8])>,
}

// What specs write. The names are those of specs without stars, each with a spec that excludes one of the refs from which it
// could be written. They are the client's: a server chooses no key.
#[derive(Drop)]
struct Writers<'s, 'n> {
    exclusions: Exclusions<'s>,
    names: HashMap<BStr<'n>, Option<usize>>,
    patterns: Vec<Pattern<'s>>,
}

impl<'s, 'n> Writers<'s, 'n> {
    ghost use Rattle.gix_refspec_plan.specs.Private.Stales.{AddsName, AddsPattern};

    // What these specs write, by the names that they do.
    fn of(
        alloc: Global,
        specs: &[RefSpecRef<'s>],
        names: &'n [Option<BString>],
    ) -> Result<Writers<'s, 'n>, AllocError>
        requires { AllZip IsWrittenBy (map reading_of specs.now) (map (option_map bstring_bytes) names.now) }
        ensures { IfOk result (AreWritersOf (map reading_of specs.now)) }
    {
        let mut writers = Writers {
            exclusions: Exclusions::of(alloc, specs)?,
            names: HashMap::new(alloc),
            patterns: Vec::new(alloc),
        };
        for (index, spec) in specs.iter().enumerate() {
            match &names[index] {
                Some(name) => writers.add_name(alloc, spec, name.as_bstr())?,
                None => writers.add_pattern(spec)?,
            }
        }
        Ok(writers)
    }

    // Adds the name that a spec writes.
    fn add_name(
        &mut self,
        alloc: Global,
        spec: &RefSpecRef<'s>,
        name: BStr<'n>,
    ) -> Result<(), AllocError>
        ensures { OnOk result (AddsName (reading_of spec.now) (bstr_bytes name.entry) self.old self.new) }
    {
        let excluded = excluded_source(alloc, &self.exclusions, spec)?;
        let earlier = self.names.get(&name).copied().flatten();
        self.names.insert(name, earlier.or(excluded))?;
        Ok(())
    }

    // Adds the pattern of a spec that writes by one.
    fn add_pattern(&mut self, spec: &RefSpecRef<'s>) -> Result<(), AllocError>
        ensures { OnOk result (AddsPattern (reading_of spec.now) self.old self.new) }
    {
        if let Some(pattern) = pattern_of(spec) {
            self.patterns.push(pattern)?;
        }
        Ok(())
    }

    // What is known of a local ref.
    fn state_of(&self, alloc: Global, name: BStr<'_>) -> Result<State, AllocError>
        ensures { (g : List Reading) → AreWritersOf g self.now → IfOk result (HasState g (bstr_bytes name.entry)) }
    {
        let mut state = match self.names.get(&name) {
            None => State::Unwritable,
            Some(None) => State::Included,
            Some(Some(spec)) => return Ok(State::Excluded(*spec)),
        };
        for pattern in &self.patterns {
            match pattern_state(alloc, &self.exclusions, pattern, name.as_bytes())? {
                State::Unwritable => {}
                State::Included => state = State::Included,
                State::Excluded(spec) => return Ok(State::Excluded(spec)),
            }
        }
        Ok(state)
    }
}

// The pattern that a spec writes by.
fn pattern_of<'s>(spec: &RefSpecRef<'s>) -> Option<Pattern<'s>>
    ensures { MatchOption result
        ((p : Pattern) → ¬ (WritesPattern (reading_of spec.now) p))
        (WritesPattern (reading_of spec.now)) }
{
    if spec.is_negative() {
        return None;
    }
    let Some((before, after)) = parts_of(spec.destination()) else {
        return None;
    };
    let source = parts_of(spec.source());
    Some(Pattern {
        before,
        after,
        source,
    })
}

/// The texts before and after the star of a side. `None` if it has no star, or is missing.
pub fn parts_of(side: Option<BStr<'_>>) -> Option<(&[u8], &[u8])>
    requires { (x : List ℕ) → option_map bstr_bytes side ≡ Some x → ¬ (HasSeveralStars x) }
    ensures { HasParts (option_map bstr_bytes side.entry) result }
{
    match side {
        None => None,
        Some(side) => split_at_first_star(side.as_bytes()),
    }
}

// What one pattern says of a local ref.
fn pattern_state(
    alloc: Global,
    exclusions: &Exclusions<'_>,
    pattern: &Pattern<'_>,
    name: &[u8],
) -> Result<State, AllocError>
    ensures { IfOk result (HasPatternState exclusions.now pattern.now name.now) }
{
    let Some(word) = word_between(pattern.before, pattern.after, name) else {
        return Ok(State::Unwritable);
    };
    let Some((before, after)) = pattern.source else {
        return Ok(State::Included);
    };
    let source = joined(alloc, before, word, after)?;
    match exclusions.spec_of(source.as_bstr().as_bytes()) {
        None => Ok(State::Included),
        Some(spec) => Ok(State::Excluded(spec)),
    }
}

// The index of a spec that excludes one of the refs for which the source of another may stand, which has no star.
fn excluded_source(
    alloc: Global,
    exclusions: &Exclusions<'_>,
    spec: &RefSpecRef<'_>,
) -> Result<Option<usize>, AllocError>
    ensures { IfOk result (λ by. MatchOption by
        ((s : List ℕ) → IsNamedBy (reading_of spec.now) s → ¬ (ExcludeName exclusions.now s))
        (λ k. (s : List ℕ) × IsNamedBy (reading_of spec.now) s × ExcludeNameAt exclusions.now s k)) }
{
    let Some(source) = spec.source() else {
        return Ok(None);
    };
    match kind_of(source.as_bytes()) {
        SideKind::FullName(name) => Ok(exclusions.spec_of(name)),
        SideKind::Partial(name) => excluded_candidate(alloc, exclusions, name),
        SideKind::Pattern { .. } | SideKind::Object(_) => Ok(None),
    }
}

// The same of the candidates of a partial name.
fn excluded_candidate(
    alloc: Global,
    exclusions: &Exclusions<'_>,
    name: &[u8],
) -> Result<Option<usize>, AllocError>
    ensures { IfOk result (λ spec. MatchOption spec
        ((s : List ℕ) → Contains (candidates_of name.now) s → ¬ (ExcludeName exclusions.now s))
        (λ k. (s : List ℕ) × Contains (candidates_of name.now) s × ExcludeNameAt exclusions.now s k)) }
{
    for candidate in &candidates(alloc, name)? {
        if let Some(spec) = exclusions.spec_of(candidate.as_bstr().as_bytes()) {
            return Ok(Some(spec));
        }
    }
    Ok(None)
}

// Flags the local refs that are destinations of mappings, or whose name is listed before.
fn written_flags(
    alloc: Global,
    written: &[Mapping<'_, '_>],
    local: &[Item<'_>],
) -> Result<Vec<bool>, AllocError>
    ensures { IfOk result (λ flags. FlagWritten (map mapped_of written.now)
        (ref_names (map ref_of local.now)) flags.items) }
{
    let names = names_of(alloc, written, local)?;
    let before = names.len().saturating_sub(local.len());
    let all = duplicates(alloc, names.as_slice())?;
    let mut flags = Vec::with_capacity(alloc, local.len())?;
    for index in 0..local.len() {
        flags.push(is_flagged(all.as_slice(), before.saturating_add(index)))?;
    }
    Ok(flags)
}

// The destinations of mappings, and then the names of local refs.
fn names_of<'m, 'l: 'm>(
    alloc: Global,
    written: &'m [Mapping<'_, '_>],
    local: &[Item<'l>],
) -> Result<Vec<BStr<'m>>, AllocError>
    ensures { IfOk result (λ names. AreNames
        (map mapped_of written.now) (map ref_of local.now) (map bstr_bytes names.items)) }
{
    let mut names = destinations_of(alloc, written)?;
    for item in local {
        names.push(item.full_ref_name)?;
    }
    Ok(names)
}

// The destinations of mappings.
fn destinations_of<'m>(
    alloc: Global,
    written: &'m [Mapping<'_, '_>],
) -> Result<Vec<BStr<'m>>, AllocError>
    ensures { IfOk result (λ names. AreDestinations (map mapped_of written.now) (map bstr_bytes names.items)) }
{
    let mut names = Vec::with_capacity(alloc, written.len())?;
    for mapping in written {
        if let Some(name) = &mapping.rhs {
            names.push(name.as_bstr())?;
        }
    }
    Ok(names)
}
