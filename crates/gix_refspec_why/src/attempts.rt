//! What each spec makes of a name before the other specs have a say, and which earlier spec makes the same of it.

ghost use Rattle.std.specs.Prelude.{◌≡◌, List, length, map, IfOk, option_map};
ghost use Rattle.bstr.specs.BStr.{bstr_bytes};
ghost use Rattle.gix_refspec_text.specs.Matching.Match.{HasName, Ref};
ghost use Rattle.gix_refspec_text.specs.Views.Spec.{reading_of};
ghost use Rattle.gix_refspec_match.specs.Views.Mapping.{name_bytes, ref_of};
ghost use Rattle.gix_refspec_why.specs.Private.Attempts.{AreAttempts, FindsEarlier, IsAttempt, NamesFirst};

use crate::exclusion::exclusion_fate;
use crate::sources::{earlier_candidate, source_mismatch};
use crate::{Fate, Mismatch};
use bstr::BStr;
use gix_refspec::match_group::{Item, Mapping};
use gix_refspec_match::single::MapName;
use gix_refspec_text::RefSpecRef;
use std::alloc::{AllocError, Global};
use std::collections::BTreeMap;

// What a spec makes of a name: its fate, if it doesn't map it; or its mapping of it, whatever the other specs are.
#[derive(Drop)]
pub(crate) enum Attempt<'n, 's> {
    Stops(Fate),
    Maps(Mapping<'n, 's>),
}

// What each of the specs makes of a name that some item has.
pub(crate) fn attempts_of<'n, 's>(
    alloc: Global,
    specs: &[RefSpecRef<'s>],
    items: &[Item<'_>],
    name: BStr<'n>,
) -> Result<Vec<Attempt<'n, 's>>, AllocError>
    requires { HasName (map ref_of items.now) (bstr_bytes name) }
    ensures { IfOk result (λ made. AreAttempts (map reading_of specs.now) (map ref_of items.now)
        (bstr_bytes name.entry) made.items) }
{
    let firsts = crate::first_items(alloc, items)?;
    let mut attempts = Vec::with_capacity(alloc, specs.len())?;
    for spec in specs {
        attempts.push(attempt_by(alloc, spec, name, &firsts)?)?;
    }
    Ok(attempts)
}

fn attempt_by<'n, 's>(
    alloc: Global,
    spec: &RefSpecRef<'s>,
    name: BStr<'n>,
    firsts: &BTreeMap<&[u8], usize>,
) -> Result<Attempt<'n, 's>, AllocError>
    ensures { (refs : List Ref) → NamesFirst refs firsts.now → HasName refs (bstr_bytes name.entry) → IfOk result
        (IsAttempt refs (reading_of spec.now) (bstr_bytes name.entry)) }
{
    if spec.is_negative() {
        return Ok(Attempt::Stops(exclusion_fate(spec, name.as_bytes())));
    }
    let Some(mapping) = spec.map(alloc, name)? else {
        let mismatch = source_mismatch(spec, name.as_bytes());
        return Ok(Attempt::Stops(Fate::Unmatched(mismatch)));
    };
    match earlier_candidate(alloc, spec, name.as_bytes(), firsts)? {
        Some(index) => Ok(Attempt::Stops(Fate::Unmatched(Mismatch::EarlierCandidate(index)))),
        None => Ok(Attempt::Maps(mapping)),
    }
}

// For each spec that maps the name the first earlier one that maps it to the same destination, if there is one.
pub(crate) fn earlier_makers(
    alloc: Global,
    attempts: &[Attempt<'_, '_>],
) -> Result<Vec<Option<usize>>, AllocError>
    ensures { IfOk result (λ earlier. FindsEarlier attempts.now earlier.items) }
{
    let mut makers = Makers {
        by_destination: BTreeMap::new(alloc),
        without: None,
    };
    let mut earlier = Vec::with_capacity(alloc, attempts.len())?;
    for (index, attempt) in attempts.iter().enumerate() {
        earlier.push(match attempt {
            Attempt::Stops(_) => None,
            Attempt::Maps(mapping) => makers.note(destination_of(mapping), index)?,
        })?;
    }
    Ok(earlier)
}

// The destination of a mapping.
pub(crate) fn destination_of<'m>(mapping: &'m Mapping<'_, '_>) -> Option<&'m [u8]>
    ensures { option_map (λ d. d.now) result ≡ option_map name_bytes mapping.now.rhs }
{
    match &mapping.rhs {
        None => None,
        Some(name) => Some(name.as_bstr().as_bytes()),
    }
}

// The first spec that maps the name to each destination, and the first that does so without one.
#[derive(Drop)]
struct Makers<'m> {
    by_destination: BTreeMap<&'m [u8], usize>,
    without: Option<usize>,
}

impl<'m> Makers<'m> {
    ghost use Rattle.std.specs.Prelude.{◌++◌, ◌∷◌, [], OnOk};
    ghost use Rattle.gix_refspec_why.specs.declared.attempts.Attempt.{Attempt};
    ghost use Rattle.gix_refspec_why.specs.Private.Attempts.{AreMakersOf, AttemptsTo, FirstOf};

    // Notes that the spec at an index maps the name to this destination, after all earlier ones. Returns the first of those
    // that did so too.
    fn note(
        &mut self,
        destination: Option<&'m [u8]>,
        index: usize,
    ) -> Result<Option<usize>, AllocError>
        ensures found { (attempts : List Attempt) → AreMakersOf attempts self.old → IfOk result
            (FirstOf (AttemptsTo (option_map (λ d. d.now) destination.entry)) attempts) }
        ensures noted { (attempts : List Attempt) (a : Attempt) → AreMakersOf attempts self.old →
            index ≡ length attempts → AttemptsTo (option_map (λ d. d.now) destination.entry) a →
            OnOk result (AreMakersOf (attempts ++ a ∷ []) self.new) }
    {
        let Some(name) = destination else {
            let earlier = self.without;
            if earlier.is_none() {
                self.without = Some(index);
            }
            return Ok(earlier);
        };
        if let Some(earlier) = self.by_destination.get(name) {
            return Ok(Some(*earlier));
        }
        self.by_destination.insert(name, index)?;
        Ok(None)
    }
}
