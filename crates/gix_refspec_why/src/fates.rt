//! What becomes of a ref by each spec.

ghost use Rattle.std.specs.Prelude.{◌≡◌, ℕ, List, Option, map, option_map, IfOk};
ghost use Rattle.bstr.specs.BStr.{bstr_bytes};
ghost use Rattle.bstr.specs.Owned.{bstring_bytes};
ghost use Rattle.gix_refspec_text.specs.Matching.Match.{HasName};
ghost use Rattle.gix_refspec_text.specs.Views.Spec.{reading_of};
ghost use Rattle.gix_refspec_match.specs.Matching.Hits.{AreKeptForward};
ghost use Rattle.gix_refspec_match.specs.Views.Mapping.{mapped_of, ref_of};
ghost use Rattle.gix_refspec_why.specs.Matching.Why.{HaveFates};
ghost use Rattle.gix_refspec_why.specs.Views.Why.{effect_of};

use crate::attempts::{Attempt, attempts_of, destination_of, earlier_makers};
use crate::exclusion::first_exclusion;
use crate::rivals::Rivals;
use crate::{Effect, ExcludedBy, Fate};
use bstr::{BStr, BString};
use gix_refspec::match_group::{Item, Mapping};
use gix_refspec_plan::mapped::{is_sound, is_valid_source};
use gix_refspec_text::RefSpecRef;
use std::alloc::{AllocError, Global};

// What each of the specs, whose destinations are completed, does with the ref of a name that some item has. Their mappings
// that are kept are `kept`.
pub(crate) fn fates_of(
    alloc: Global,
    specs: &[RefSpecRef<'_>],
    kept: &[Mapping<'_, '_>],
    items: &[Item<'_>],
    name: BStr<'_>,
) -> Result<Vec<Effect>, AllocError>
    requires listed { HasName (map ref_of items.now) (bstr_bytes name) }
    requires kept { AreKeptForward (map reading_of specs.now) (map ref_of items.now) (map mapped_of kept.now) }
    ensures { IfOk result (λ effects. HaveFates (map reading_of specs.now) (map ref_of items.now)
        (bstr_bytes name.entry) (map effect_of effects.items)) }
{
    let attempts = attempts_of(alloc, specs, items, name)?;
    let earlier = earlier_makers(alloc, attempts.as_slice())?;
    let group = Group::of(alloc, specs, kept, name.as_bytes())?;
    group.effects_of(alloc, attempts.as_slice(), earlier.as_slice())
}

// What the other specs have to say.
#[derive(Drop)]
struct Group<'m> {
    excluded: Option<ExcludedBy>,
    rivals: Rivals<'m>,
}

impl<'m> Group<'m> {
    ghost use Rattle.std.specs.Prelude.{Some, take};
    ghost use Rattle.std.specs.List.{slice_get};
    ghost use Rattle.gix_refspec_text.specs.Specs.Reading.{Reading};
    ghost use Rattle.gix_refspec_text.specs.Matching.Match.{Ref};
    ghost use Rattle.gix_refspec_match.specs.Matching.Mappings.{name as name_source};
    ghost use Rattle.gix_refspec_why.specs.Matching.Why.{HasFate, MapsFirst, MapsTo};
    ghost use Rattle.gix_refspec_why.specs.Private.Attempts.{AreAttempts, AttemptsTo, FindsEarlier, FirstOf, IsAttempt};
    ghost use Rattle.gix_refspec_why.specs.Private.Rivals.{IsGroupOf};
    ghost use Rattle.gix_refspec_why.specs.Views.Why.{effect_of};

    // What the specs have to say, whose mappings that are kept are `kept`.
    fn of(
        alloc: Global,
        specs: &[RefSpecRef<'_>],
        kept: &'m [Mapping<'_, '_>],
        name: &[u8],
    ) -> Result<Group<'m>, AllocError>
        ensures { (refs : List Ref) →
            AreKeptForward (map reading_of specs.now) refs (map mapped_of kept.now) →
            IfOk result (IsGroupOf (map reading_of specs.now) refs name.now) }
    {
        let excluded = first_exclusion(specs, name);
        let rivals = Rivals::of(alloc, kept, name)?;
        Ok(Group { excluded, rivals })
    }

    // What becomes of the ref by each spec with such an attempt, after an earlier one that is the same.
    fn effects_of(
        &self,
        alloc: Global,
        attempts: &[Attempt<'_, '_>],
        earlier: &[Option<usize>],
    ) -> Result<Vec<Effect>, AllocError>
        requires { FindsEarlier attempts.now earlier.now }
        ensures { (g : List Reading) (refs : List Ref) (n : List ℕ) → IsGroupOf g refs n self.now →
            AreAttempts g refs n attempts.now →
            IfOk result (λ effects. HaveFates g refs n (map effect_of effects.items)) }
    {
        let mut effects = Vec::with_capacity(alloc, attempts.len())?;
        for (index, attempt) in attempts.iter().enumerate() {
            effects.push(self.effect_of(alloc, attempt, earlier[index])?)?;
        }
        Ok(effects)
    }

    fn effect_of(
        &self,
        alloc: Global,
        attempt: &Attempt<'_, '_>,
        earlier: Option<usize>,
    ) -> Result<Effect, AllocError>
        ensures { (g : List Reading) (refs : List Ref) (n : List ℕ) (k : ℕ) (r : Reading) →
            IsGroupOf g refs n self.now → IsAttempt refs r n attempt.now → slice_get g k ≡ Some r →
            ((d : Option (List ℕ)) → AttemptsTo d attempt.now → FirstOf (MapsTo refs n d) (take k g) earlier) →
            IfOk result (λ e. HasFate g refs n k r (effect_of e).destination e.fate) }
    {
        match attempt {
            Attempt::Stops(fate) => Ok(Effect {
                destination: None,
                fate: *fate,
            }),
            Attempt::Maps(mapping) => Ok(Effect {
                destination: owned_destination(alloc, mapping)?,
                fate: self.fate_of(mapping, earlier),
            }),
        }
    }

    // What becomes of the ref by a spec with this mapping of it.
    fn fate_of(&self, mapping: &Mapping<'_, '_>, earlier: Option<usize>) -> Fate
        ensures { (g : List Reading) (refs : List Ref) (n : List ℕ) (k : ℕ) (r : Reading) →
            IsGroupOf g refs n self.now → (mapped_of mapping.now).source ≡ name_source n →
            MapsTo refs n (mapped_of mapping.now).destination r → slice_get g k ≡ Some r →
            FirstOf (MapsTo refs n (mapped_of mapping.now).destination) (take k g) earlier →
            HasFate g refs n k r (mapped_of mapping.now).destination result }
    {
        if let Some(excluded) = self.excluded {
            return Fate::Excluded(excluded);
        }
        if !is_valid_source(&mapping.lhs) {
            return Fate::InvalidName;
        }
        if !is_sound(mapping) {
            return Fate::InvalidDestination;
        }
        if let Some(spec_index) = earlier {
            return Fate::Duplicate(spec_index);
        }
        match destination_of(mapping) {
            None => Fate::Written,
            Some(destination) => self.fate_at(destination),
        }
    }

    // What becomes of it if it is to be written there.
    fn fate_at(&self, destination: &[u8]) -> Fate
        ensures { (g : List Reading) (refs : List Ref) (n : List ℕ) (k : ℕ) (r : Reading) →
            IsGroupOf g refs n self.now → slice_get g k ≡ Some r → MapsFirst g refs n (Some destination.now) k r →
            HasFate g refs n k r (Some destination.now) result }
    {
        if let Some(rival) = self.rivals.contesting(destination) {
            return Fate::InConflict(rival);
        }
        match self.rivals.obstructing(destination) {
            Some(rival) => Fate::DirectoryConflict(rival),
            None => Fate::Written,
        }
    }
}

// The destination of a mapping, copied.
fn owned_destination(
    alloc: Global,
    mapping: &Mapping<'_, '_>,
) -> Result<Option<BString>, AllocError>
    ensures { IfOk result (λ d. option_map bstring_bytes d ≡ (mapped_of mapping.now).destination) }
{
    match &mapping.rhs {
        None => Ok(None),
        Some(name) => Ok(Some(BString::from_slice(alloc, name.as_bstr())?)),
    }
}
