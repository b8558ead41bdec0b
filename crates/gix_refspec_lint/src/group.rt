//! The specs of a group, and what one of them maps.

ghost use Rattle.std.specs.Prelude.{◌≡◌, ◌↔◌, ◌++◌, ◌∷◌, [], List, ℕ, Option, Some, map, option_map, IfOk, IfSome, IsTrue, MatchBool, MatchOption, OnOk};
ghost use Rattle.std.specs.List.{Contains};
ghost use Rattle.bstr.specs.BStr.{bstr_bytes};
ghost use Rattle.bstr.specs.Owned.{bstring_bytes};
ghost use Rattle.gix_refspec_text.specs.Texts.Name.{IsSplit};
ghost use Rattle.gix_refspec_text.specs.Specs.Reading.{Reading};
ghost use Rattle.gix_refspec_text.specs.Matching.Match.{Ref};
ghost use Rattle.gix_refspec_text.specs.Matching.Side.{Fits};
ghost use Rattle.gix_refspec_text.specs.Views.Spec.{reading_of};
ghost use Rattle.gix_refspec_match.specs.Matching.Mappings.{IsSamePair, Source, name};
ghost use Rattle.gix_refspec_match.specs.Views.Mapping.{mapped_of, name_bytes, ref_of, start_of};
ghost use Rattle.gix_refspec.specs.Laws.Items.{HaveSameNames};
ghost use Rattle.gix_refspec.specs.Laws.Matching.{MakesForward};
ghost use Rattle.gix_refspec_lint.specs.Matching.Lint.{AreStorable, refs_of};
ghost use Rattle.gix_refspec_plan.specs.Matching.Plan.{IsCompleted};
ghost use Rattle.gix_refspec_plan.specs.Matching.Stale.{ref_named};
ghost use Rattle.gix_refspec_lint.specs.Private.Lints.{HasSourcesOf, pair_of};
ghost use Rattle.gix_refspec_lint.specs.Private.Runs.{ArePaired};

use super::words::words_of;
use bstr::{BStr, BString};
use gix_refspec::match_group::{Item, Mapping, NameRef, Source, SourceRef};
use gix_refspec_match::exclusions::Exclusions;
use gix_refspec_match::match_forward;
use gix_refspec_match::needle::word_between;
use gix_refspec_plan::directories::is_directory_of;
use gix_refspec_plan::stale::parts_of;
use gix_refspec_text::RefSpecRef;
use gix_refspec_text::oid::{Kind, ObjectId};
use gix_refspec_text::side::{SideKind, candidates, joined, kind_of, split_at_first_star};
use std::alloc::{AllocError, Global};

/// Specs with completed destinations, what the negative ones exclude, and the words to try for a star.
#[derive(Drop)]
pub struct Group<'g, 's> {
    pub specs: &'g [RefSpecRef<'g>],
    pub exclusions: Exclusions<'s>,
    pub words: Vec<BString>,
}

impl<'g, 's> Group<'g, 's> {
    ghost use Rattle.std.specs.List.{AllZip, slice_get};
    ghost use Rattle.gix_refspec_match.specs.Matching.Mappings.{IsExcludedBy, IsSourceExcluded};
    ghost use Rattle.gix_refspec_lint.specs.Matching.Lint.{IsFree};
    ghost use Rattle.gix_refspec_lint.specs.Private.Lints.{IsGroupOf};

    /// The group of these specs, whose destinations were completed, with a free byte.
    pub fn of(
        alloc: Global,
        specs: &[RefSpecRef<'s>],
        completed: &'g [RefSpecRef<'g>],
        letter: u8,
    ) -> Result<Group<'g, 's>, AllocError>
        requires completed { AllZip IsCompleted (map reading_of specs.now) (map reading_of completed.now) }
        requires free { IsFree (map reading_of specs.now) letter }
        ensures { IfOk result (IsGroupOf (map reading_of specs.now)) }
    {
        Ok(Group {
            specs: completed,
            exclusions: Exclusions::of(alloc, specs)?,
            words: words_of(alloc, letter)?,
        })
    }

    /// The index of a spec that excludes a source.
    pub fn excluding(&self, source: &SourceRef<'_>) -> Option<usize>
        ensures { (g : List Reading) → IsGroupOf g self.now → MatchOption result
            (¬ (IsSourceExcluded g (start_of source.now)))
            (λ k. (n : List ℕ) × (start_of source.now ≡ name n) ×
            ((r : Reading) × (slice_get g k ≡ Some r) × IsExcludedBy n r)) }
    {
        match source {
            SourceRef::FullName(name) => self.exclusions.spec_of(name.as_bstr().as_bytes()),
            SourceRef::ObjectId(_) => None,
        }
    }
}

/// Adds an item for the name of a source, whatever it points to.
pub fn add_item<'i>(
    items: &mut Vec<Item<'i>>,
    source: &'i Source,
    target: &'i ObjectId,
) -> Result<(), AllocError>
    ensures { OnOk result (HaveSameNames (map ref_of items.new.items)
        (map ref_of items.old.items ++ refs_of (start_of source.now))) }
{
    if let SourceRef::FullName(name) = source {
        items.push(Item {
            full_ref_name: name.as_bstr(),
            target,
            object: None,
        })?;
    }
    Ok(())
}

// What the items point to, as no source is compared with it.
pub(super) fn any_target() -> ObjectId {
    ObjectId::null(Kind::Sha1)
}

// Whether a spec, whatever others do, maps a source to this destination among the items.
pub(super) fn makes(
    alloc: Global,
    spec: RefSpecRef<'_>,
    items: &[Item<'_>],
    source: &SourceRef<'_>,
    destination: Option<BStr<'_>>,
) -> Result<bool, AllocError>
    ensures { IfOk result (λ is. IsTrue is ↔ MakesForward
        (map ref_of items.now) (start_of source.now) (option_map bstr_bytes destination.entry) (reading_of spec.entry)) }
{
    let specs = [spec];
    let mappings = match_forward(alloc, specs.as_slice(), items)?;
    for mapping in &mappings {
        if is_pair(mapping, source, destination) {
            return Ok(true);
        }
    }
    Ok(false)
}

// Whether a mapping is from this source to this destination.
fn is_pair(mapping: &Mapping<'_, '_>, source: &SourceRef<'_>, destination: Option<BStr<'_>>) -> bool
    ensures { IsTrue result ↔ IsSamePair (mapped_of mapping.now)
        (pair_of (start_of source.now) (option_map bstr_bytes destination.entry)) }
{
    same_source(&mapping.lhs, source) && same_name(&mapping.rhs, destination)
}

// Whether two sources are the same name or the same id.
pub(super) fn same_source(one: &SourceRef<'_>, other: &SourceRef<'_>) -> bool
    ensures { IsTrue result ↔ (start_of one.now ≡ start_of other.now) }
{
    one == other
}

// Whether a repository can have both sources: neither is a directory of the other.
pub(super) fn can_stand_together(one: &Source, other: &Source) -> bool
    ensures { MatchBool result
        (AreStorable (refs_of (start_of one.now) ++ refs_of (start_of other.now)))
        (¬ (AreStorable (refs_of (start_of one.now) ++ refs_of (start_of other.now)))) }
{
    match one {
        SourceRef::ObjectId(_) => true,
        SourceRef::FullName(one) => match other {
            SourceRef::ObjectId(_) => true,
            SourceRef::FullName(other) => {
                names_can_stand_together(one.as_bstr().as_bytes(), other.as_bstr().as_bytes())
            }
        },
    }
}

// The same of two names.
fn names_can_stand_together(one: &[u8], other: &[u8]) -> bool
    ensures { MatchBool result
        (AreStorable (ref_named one.now ∷ ref_named other.now ∷ []))
        (¬ (AreStorable (ref_named one.now ∷ ref_named other.now ∷ []))) }
{
    if is_directory_of(one, other) {
        return false;
    }
    !is_directory_of(other, one)
}

// Whether two destinations are the same, or both are missing.
fn same_name(one: &Option<NameRef<'_>>, other: Option<BStr<'_>>) -> bool
    ensures { IsTrue result ↔ (option_map name_bytes one.now ≡ option_map bstr_bytes other.entry) }
{
    match (one, other) {
        (None, None) => true,
        (Some(one), Some(other)) => one.as_bstr() == other,
        _ => false,
    }
}

/// The bytes of a destination.
pub fn name_of<'n>(name: &'n Option<NameRef<'_>>) -> Option<BStr<'n>>
    ensures { option_map bstr_bytes result ≡ option_map name_bytes name.now }
{
    match name {
        None => None,
        Some(name) => Some(name.as_bstr()),
    }
}

// The sources from which a spec may be able to write a destination.
pub(super) fn sources_for(
    alloc: Global,
    spec: &RefSpecRef<'_>,
    destination: &[u8],
) -> Result<Vec<Source>, AllocError>
    ensures { (r : Reading) → IsCompleted r (reading_of spec.now) → IfOk result (λ sources.
        HasSourcesOf (reading_of spec.now) destination.now (map start_of sources.items)) }
{
    let Some(side) = spec.destination() else {
        return Ok(Vec::new(alloc));
    };
    let Some(far) = split_at_first_star(side.as_bytes()) else {
        if side.as_bytes() != destination {
            return Ok(Vec::new(alloc));
        }
        return named_sources(alloc, spec);
    };
    let Some(near) = parts_of(spec.source()) else {
        return Ok(Vec::new(alloc));
    };
    let mut sources = Vec::new(alloc);
    if let Some(name) = with_its_word(alloc, far, near, destination)? {
        sources.push(source_named(name))?;
    }
    Ok(sources)
}

// The source from which a spec of patterns writes a destination. `None` if it doesn't, or isn't one of patterns.
pub(super) fn source_of(
    alloc: Global,
    spec: &RefSpecRef<'_>,
    destination: &[u8],
) -> Result<Option<BString>, AllocError>
    ensures { IfOk result (λ source. IfSome source (λ n.
        ArePaired (reading_of spec.now) (bstring_bytes n) destination.now)) }
{
    match (parts_of(spec.source()), parts_of(spec.destination())) {
        (Some(near), Some(far)) => with_its_word(alloc, far, near, destination),
        _ => Ok(None),
    }
}

// The destination to which it writes a source.
pub(super) fn destination_of(
    alloc: Global,
    spec: &RefSpecRef<'_>,
    source: &[u8],
) -> Result<Option<BString>, AllocError>
    ensures { IfOk result (λ destination. IfSome destination (λ d.
        ArePaired (reading_of spec.now) source.now (bstring_bytes d))) }
{
    match (parts_of(spec.source()), parts_of(spec.destination())) {
        (Some(near), Some(far)) => with_its_word(alloc, near, far, source),
        _ => Ok(None),
    }
}

// What a pattern becomes with the word that another one has in a name. `None` if that doesn't match.
pub(super) fn with_its_word(
    alloc: Global,
    matching: (&[u8], &[u8]),
    pattern: (&[u8], &[u8]),
    name: &[u8],
) -> Result<Option<BString>, AllocError>
    ensures { IfOk result (λ other. MatchOption other
        ((word : List ℕ) → ¬ (Fits matching.entry.0.now matching.entry.1.now name.now word))
        (λ n. (word : List ℕ) × Fits matching.entry.0.now matching.entry.1.now name.now word ×
        (bstring_bytes n ≡ pattern.entry.0.now ++ (word ++ pattern.entry.1.now)))) }
{
    match word_between(matching.0, matching.1, name) {
        None => Ok(None),
        Some(word) => Ok(Some(joined(alloc, pattern.0, word, pattern.1)?)),
    }
}

/// The sources that a spec without a star may map.
pub fn named_sources(alloc: Global, spec: &RefSpecRef<'_>) -> Result<Vec<Source>, AllocError>
    ensures { ((x before after : List ℕ) → (reading_of spec.now).source ≡ Some x → ¬ (IsSplit before after x)) →
        IfOk result (λ sources. (refs : List Ref) (s : Source) (d : Option (List ℕ)) →
        MakesForward refs s d (reading_of spec.now) → Contains (map start_of sources.items) s) }
{
    let mut sources = Vec::new(alloc);
    let Some(side) = spec.source() else {
        return Ok(sources);
    };
    if spec.is_negative() {
        return Ok(sources);
    }
    match kind_of(side.as_bytes()) {
        SideKind::Pattern { .. } => {}
        SideKind::FullName(_) => sources.push(source_named(BString::from_slice(alloc, side)?))?,
        SideKind::Object(id) => sources.push(SourceRef::ObjectId(id))?,
        SideKind::Partial(name) => {
            for candidate in candidates(alloc, name)? {
                sources.push(source_named(candidate))?;
            }
        }
    }
    Ok(sources)
}

/// The name of a ref as a source.
pub fn source_named(text: BString) -> Source
    ensures { start_of result ≡ name (bstring_bytes text) }
{
    SourceRef::FullName(NameRef::Owned(text))
}
