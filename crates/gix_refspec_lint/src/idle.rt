//! Specs that never do anything.

ghost use Rattle.std.specs.Prelude.{◌≡◌, ◌≢◌, ◌↔◌, ◌⊎◌, ◌++◌, ◌<◌, ◌≤◌, List, ℕ, Option, Some, length, map, option_map};
ghost use Rattle.std.specs.Prelude.{IfOk, IfSome, IsTrue, MatchBool, MatchOption, OnOk};
ghost use Rattle.std.specs.List.{Contains, slice_get};
ghost use Rattle.bstr.specs.BStr.{bstr_bytes};
ghost use Rattle.bstr.specs.Owned.{bstring_bytes};
ghost use Rattle.gix_refspec_text.specs.Specs.Reading.{Reading};
ghost use Rattle.gix_refspec_text.specs.Specs.Grammar.{IsPositive};
ghost use Rattle.gix_refspec_text.specs.Matching.Match.{Ref};
ghost use Rattle.gix_refspec_text.specs.Views.Spec.{reading_of};
ghost use Rattle.gix_refspec_match.specs.Matching.Mappings.{Source, name};
ghost use Rattle.gix_refspec_match.specs.Views.Mapping.{ref_of, start_of};
ghost use Rattle.gix_refspec_lint.specs.declared.idle.Others.{Others};
ghost use Rattle.gix_refspec.specs.Laws.Items.{HaveSameNames};
ghost use Rattle.gix_refspec.specs.Laws.Matching.{MakesForward};
ghost use Rattle.gix_refspec_lint.specs.Matching.Lint.{AreIdle, IsDispensable, IsRequired, Maps};
ghost use Rattle.gix_refspec.specs.Matching.RefNames.{IsRefName};
ghost use Rattle.gix_refspec_plan.specs.Matching.Plan.{IsCompleted};
ghost use Rattle.gix_refspec_plan.specs.Matching.Stale.{ref_named};
ghost use Rattle.gix_refspec_lint.specs.Private.Alike.{AreReasons, IsEarlier};
ghost use Rattle.gix_refspec_lint.specs.Private.Idles.{AreAllowed, AreFreeing, ArePreferred, AreTriedBefore, Explains, HasPlainSource, HasSourcePattern, IsCovering, IsOther, IsReasonOf, IsShown, IsWhy, IsWhyAt, IsWhyBeside};
ghost use Rattle.gix_refspec_lint.specs.Private.Lints.{IsGroupOf};
ghost use Rattle.gix_refspec_lint.specs.Views.Lint.{unused_of};
ghost use Rattle.gix_refspec_lint.specs.declared.Reason.TheVariants as reasons;

use super::alike::earlier_alike;
use super::group::{Group, add_item, any_target, makes, name_of, named_sources, source_named};
use super::required::{contains, is_required};
use super::sound::sound_mapping;
use super::{IdleSpec, Reason};
use bstr::{BStr, BString};
use gix_refspec::match_group::ref_names::is_ref_name;
use gix_refspec::match_group::{Item, Source, SourceRef};
use gix_refspec_match::needle::word_between;
use gix_refspec_plan::stale::parts_of;
use gix_refspec_text::RefSpecRef;
use gix_refspec_text::oid::ObjectId;
use gix_refspec_text::side::{SideKind, candidates, joined, kind_of};
use std::alloc::{AllocError, Global};

/// Which specs a spec is compared with: those from an index on, before another one.
#[derive(Clone, Copy)]
pub struct Others {
    pub from: usize,
    pub to: usize,
}

// Why a spec maps nothing of its own.
#[derive(Clone, Copy)]
pub(super) enum Idleness {
    // Each mapping has an invalid side.
    Invalid,
    // Negative specs exclude each source of a valid mapping: the one at this index does one.
    Excluded(usize),
    // The others map each source that isn't excluded to the same destination: the one at this index does one.
    Duplicate(usize),
}

// The positive specs that are idle, in order.
pub(super) fn idle_in(alloc: Global, group: &Group<'_, '_>) -> Result<Vec<IdleSpec>, AllocError>
    ensures { (g : List Reading) → IsGroupOf g group.now → IfOk result (λ idle.
        AreIdle g (map unused_of idle.items)) }
{
    let earlier = earlier_alike(alloc, group.specs)?;
    let mut reasons = Vec::with_capacity(alloc, group.specs.len())?;
    let mut idle = Vec::new(alloc);
    for spec_index in 0..group.specs.len() {
        let before = earlier[spec_index];
        let reason = reason_at(alloc, group, spec_index, before, reasons.as_slice())?;
        reasons.push(reason)?;
        if let Some(reason) = reason {
            let is_required = is_required_but_for(alloc, group.specs, spec_index, before)?;
            idle.push(IdleSpec {
                spec_index,
                reason,
                is_required,
            })?;
        }
    }
    Ok(idle)
}

// Why a spec is idle, if it is known of those before it, and which one of them has the same sides.
fn reason_at(
    alloc: Global,
    group: &Group<'_, '_>,
    index: usize,
    before: Option<usize>,
    reasons: &[Option<Reason>],
) -> Result<Option<Reason>, AllocError>
    requires within { index < length group.now.specs.now }
    requires earlier { IfSome before (IsEarlier (map reading_of group.now.specs.now) index) }
    requires long { length reasons.now ≡ index }
    ensures { (g : List Reading) → IsGroupOf g group.now →
        AreReasons g (map reading_of group.now.specs.now) reasons.now → IfOk result (λ why. (c : Reading) →
        slice_get (map reading_of group.now.specs.now) index ≡ Some c → IsReasonOf g index c why) }
{
    match before {
        None => idle_reason(alloc, group, index),
        Some(before) => reason_behind(alloc, group, index, before, reasons[before]),
    }
}

// Why a spec behind one with the same sides is idle, by the reason of that one.
fn reason_behind(
    alloc: Global,
    group: &Group<'_, '_>,
    index: usize,
    before: usize,
    why: Option<Reason>,
) -> Result<Option<Reason>, AllocError>
    requires { index < length group.now.specs.now }
    ensures { (g : List Reading) → IsGroupOf g group.now → IsEarlier (map reading_of group.now.specs.now) index before →
        ((b : Reading) → slice_get (map reading_of group.now.specs.now) before ≡ Some b → IsReasonOf g before b why) →
        IfOk result (λ why. (c : Reading) →
        slice_get (map reading_of group.now.specs.now) index ≡ Some c → IsReasonOf g index c why) }
{
    let spec = &group.specs[index];
    if spec.is_negative() {
        return Ok(None);
    }
    let Some(reason) = why else {
        return Ok(Some(Reason::Duplicate(before)));
    };
    if is_by_several(reason) {
        return idle_reason(alloc, group, index);
    }
    Ok(Some(reason))
}

// Whether several specs together make one idle.
fn is_by_several(reason: Reason) -> bool
    ensures { MatchBool result (reason ≡ reasons.Duplicates) (reason ≢ reasons.Duplicates) }
{
    match reason {
        Reason::Invalid => false,
        Reason::Excluded(_) => false,
        Reason::Duplicate(_) => false,
        Reason::Duplicates => true,
    }
}

// Whether a spec is required, which it isn't behind one with the same source.
fn is_required_but_for(
    alloc: Global,
    specs: &[RefSpecRef<'_>],
    index: usize,
    before: Option<usize>,
) -> Result<bool, AllocError>
    requires within { index < length specs.now }
    requires earlier { IfSome before (IsEarlier (map reading_of specs.now) index) }
    ensures { IfOk result (λ is. MatchBool is
        (IsRequired (map reading_of specs.now) index)
        (IsDispensable (map reading_of specs.now) index)) }
{
    match before {
        None => is_required(alloc, specs, index),
        Some(_) => Ok(false),
    }
}

// Why a spec is idle. `None` if it isn't, or is negative.
pub(super) fn idle_reason(
    alloc: Global,
    group: &Group<'_, '_>,
    index: usize,
) -> Result<Option<Reason>, AllocError>
    requires { index < length group.now.specs.now }
    ensures { (g : List Reading) → IsGroupOf g group.now → IfOk result (λ why. (c : Reading) →
        slice_get (map reading_of group.now.specs.now) index ≡ Some c → IsReasonOf g index c why) }
{
    let earlier = Others { from: 0, to: index };
    let Some(why) = idle_beside_others(alloc, group, index, earlier)? else {
        return Ok(None);
    };
    match why {
        Idleness::Invalid => Ok(Some(Reason::Invalid)),
        Idleness::Excluded(spec) => Ok(Some(Reason::Excluded(spec))),
        Idleness::Duplicate(_) => match covering(alloc, group, index)? {
            None => Ok(Some(Reason::Duplicates)),
            Some(spec) => Ok(Some(Reason::Duplicate(spec))),
        },
    }
}

// The first of the earlier specs that maps all by itself that a spec fetches.
fn covering(alloc: Global, group: &Group<'_, '_>, index: usize) -> Result<Option<usize>, AllocError>
    requires { index < length group.now.specs.now }
    ensures { (g : List Reading) → IsGroupOf g group.now → IfOk result (λ found. (c : Reading) →
        slice_get (map reading_of group.now.specs.now) index ≡ Some c → IsPositive c.mode → IsCovering g index found) }
{
    for at in 0..index {
        let alone = Others {
            from: at,
            to: at + 1,
        };
        if idle_beside_others(alloc, group, index, alone)?.is_some() {
            return Ok(Some(at));
        }
    }
    Ok(None)
}

// Why a spec maps nothing that others don't. `None` if it does, or is negative.
pub(super) fn idle_beside_others(
    alloc: Global,
    group: &Group<'_, '_>,
    index: usize,
    others: Others,
) -> Result<Option<Idleness>, AllocError>
    requires { (index < length group.now.specs.now) × (others.to ≤ length group.now.specs.now) }
    ensures { (g : List Reading) → IsGroupOf g group.now → IfOk result (λ why. (c : Reading) →
        slice_get (map reading_of group.now.specs.now) index ≡ Some c → IsWhyBeside g others index c why) }
{
    let spec = &group.specs[index];
    if spec.is_negative() {
        return Ok(None);
    }
    match parts_of(spec.source()) {
        None => idle_by_sources(alloc, group, index, others),
        Some((prefix, suffix)) => idle_by_words(alloc, group, index, others, prefix, suffix),
    }
}

// The same of a spec without a star, by its sources.
fn idle_by_sources(
    alloc: Global,
    group: &Group<'_, '_>,
    index: usize,
    others: Others,
) -> Result<Option<Idleness>, AllocError>
    requires { (index < length group.now.specs.now) × (others.to ≤ length group.now.specs.now) }
    ensures { (g : List Reading) → IsGroupOf g group.now → IfOk result (λ why. (c : Reading) →
        slice_get (map reading_of group.now.specs.now) index ≡ Some c → HasPlainSource c → IsWhy g others index why) }
{
    let mut reason = Idleness::Invalid;
    for source in &named_sources(alloc, &group.specs[index])? {
        match idle_at(alloc, group, index, others, source)? {
            None => return Ok(None),
            Some(found) => reason = stronger(reason, found),
        }
    }
    Ok(Some(reason))
}

// The same of a pattern with these texts, by the words to try.
fn idle_by_words(
    alloc: Global,
    group: &Group<'_, '_>,
    index: usize,
    others: Others,
    prefix: &[u8],
    suffix: &[u8],
) -> Result<Option<Idleness>, AllocError>
    requires { (index < length group.now.specs.now) × (others.to ≤ length group.now.specs.now) }
    ensures { (g : List Reading) → IsGroupOf g group.now → IfOk result (λ why. (c : Reading) →
        slice_get (map reading_of group.now.specs.now) index ≡ Some c → IsPositive c.mode →
        HasSourcePattern c prefix.now suffix.now → IsWhy g others index why) }
{
    let mut reason = Idleness::Invalid;
    for word in &group.words {
        let name = joined(alloc, prefix, word.as_bstr().as_bytes(), suffix)?;
        match idle_at(alloc, group, index, others, &source_named(name))? {
            None => return Ok(None),
            Some(found) => reason = stronger(reason, found),
        }
    }
    Ok(Some(reason))
}

// The reason that explains two mappings that aren't kept: the last of the two, in the order of `Idleness`.
fn stronger(one: Idleness, other: Idleness) -> Idleness
    ensures explains { (g : List Reading) (others : Others) (k : ℕ) (s : Source) →
        Explains g others k s one ⊎ Explains g others k s other → Explains g others k s result }
    ensures shown { (g : List Reading) (others : Others) (k : ℕ) →
        IsShown g others k one → IsShown g others k other → IsShown g others k result }
{
    match one {
        Idleness::Invalid => other,
        Idleness::Excluded(_) => match other {
            Idleness::Duplicate(_) => other,
            Idleness::Invalid => one,
            Idleness::Excluded(_) => one,
        },
        Idleness::Duplicate(_) => one,
    }
}

// Why no mapping of this source by the spec is ever kept. `None` if one is.
fn idle_at(
    alloc: Global,
    group: &Group<'_, '_>,
    index: usize,
    others: Others,
    source: &Source,
) -> Result<Option<Idleness>, AllocError>
    requires { (index < length group.now.specs.now) × (others.to ≤ length group.now.specs.now) }
    ensures { (g : List Reading) → IsGroupOf g group.now → IfOk result
        (IsWhyAt g others index (start_of source.now)) }
{
    let names = freeing_names(alloc, group, index, others, source)?;
    let target = any_target();
    idle_beside(
        alloc,
        group,
        index,
        others,
        source,
        names.as_slice(),
        &target,
    )
}

// The same on a remote that has refs of these names besides.
fn idle_beside<'x>(
    alloc: Global,
    group: &Group<'_, '_>,
    index: usize,
    others: Others,
    source: &'x Source,
    names: &'x [BString],
    target: &'x ObjectId,
) -> Result<Option<Idleness>, AllocError>
    requires { (index < length group.now.specs.now) × (others.to ≤ length group.now.specs.now) }
    ensures { (g : List Reading) → IsGroupOf g group.now →
        AreFreeing g others index (start_of source.now) (map bstring_bytes names.now) → IfOk result
        (IsWhyAt g others index (start_of source.now)) }
{
    let mut items = Vec::new(alloc);
    add_item(&mut items, source, target)?;
    add_names(&mut items, names, target)?;
    let items = items.as_slice();
    let Some(mapping) = sound_mapping(alloc, group.specs[index], items, source)? else {
        return Ok(Some(Idleness::Invalid));
    };
    if let Some(spec) = group.excluding(source) {
        return Ok(Some(Idleness::Excluded(spec)));
    }
    let destination = name_of(&mapping.rhs);
    match first_of(alloc, group, others, items, source, destination)? {
        None => Ok(None),
        Some(spec) => Ok(Some(Idleness::Duplicate(spec))),
    }
}

/// Adds an item for each name, whatever it points to.
pub fn add_names<'i>(
    items: &mut Vec<Item<'i>>,
    names: &'i [BString],
    target: &'i ObjectId,
) -> Result<(), AllocError>
    ensures { OnOk result (HaveSameNames (map ref_of items.new.items)
        (map ref_of items.old.items ++ map ref_named (map bstring_bytes names.now))) }
{
    for name in names {
        items.push(Item {
            full_ref_name: name.as_bstr(),
            target,
            object: None,
        })?;
    }
    Ok(())
}

/// The first of the specs that maps a source to a destination among the items.
pub fn first_of(
    alloc: Global,
    group: &Group<'_, '_>,
    others: Others,
    items: &[Item<'_>],
    source: &Source,
    destination: Option<BStr<'_>>,
) -> Result<Option<usize>, AllocError>
    requires { others.to ≤ length group.now.specs.now }
    ensures { (g : List Reading) → IsGroupOf g group.now → IfOk result (λ found. MatchOption found
        ((h : ℕ) → IsOther others h →
        ¬ (Maps g (map ref_of items.now) h (start_of source.now) (option_map bstr_bytes destination.entry)))
        (λ h. IsOther others h ×
        Maps g (map ref_of items.now) h (start_of source.now) (option_map bstr_bytes destination.entry))) }
{
    for at in others.from..others.to {
        if does_map(alloc, group, at, items, source, destination)? {
            return Ok(Some(at));
        }
    }
    Ok(None)
}

// Whether the spec at an index maps a source to a destination among the items.
fn does_map(
    alloc: Global,
    group: &Group<'_, '_>,
    at: usize,
    items: &[Item<'_>],
    source: &Source,
    destination: Option<BStr<'_>>,
) -> Result<bool, AllocError>
    requires { at < length group.now.specs.now }
    ensures { (g : List Reading) → IsGroupOf g group.now → IfOk result (λ does. MatchBool does
        (Maps g (map ref_of items.now) at (start_of source.now) (option_map bstr_bytes destination.entry))
        (¬ (Maps g (map ref_of items.now) at (start_of source.now) (option_map bstr_bytes destination.entry)))) }
{
    let spec = group.specs[at];
    if !may_take(&spec, source) {
        return Ok(false);
    }
    if !may_write(&spec, destination) {
        return Ok(false);
    }
    makes(alloc, spec, items, source, destination)
}

// Whether a spec may take a source: false only if it never does. It saves most calls that match.
fn may_take(spec: &RefSpecRef<'_>, source: &Source) -> bool
    ensures { (refs : List Ref) (d : Option (List ℕ)) →
        MakesForward refs (start_of source.now) d (reading_of spec.now) → IsTrue result }
{
    let (Some(side), SourceRef::FullName(name)) = (spec.source(), source) else {
        return true;
    };
    let name = name.as_bstr().as_bytes();
    match parts_of(Some(side)) {
        Some((before, after)) => word_between(before, after, name).is_some(),
        None => name.ends_with(side.as_bytes()) || name.ends_with(b"/HEAD"),
    }
}

// Whether a spec may write a destination: false only if it never does. It saves calls that match too.
fn may_write(spec: &RefSpecRef<'_>, destination: Option<BStr<'_>>) -> bool
    ensures { (r : Reading) (refs : List Ref) (s : Source) → IsCompleted r (reading_of spec.now) →
        MakesForward refs s (option_map bstr_bytes destination.entry) (reading_of spec.now) → IsTrue result }
{
    let (Some(side), Some(name)) = (spec.destination(), destination) else {
        return true;
    };
    match parts_of(Some(side)) {
        Some((before, after)) => word_between(before, after, name.as_bytes()).is_some(),
        None => side == name,
    }
}

// Names of refs because of which others with a partial source don't take this source, although the spec at the index does:
// their other candidates, without those that this one tries before the source.
fn freeing_names(
    alloc: Global,
    group: &Group<'_, '_>,
    index: usize,
    others: Others,
    source: &Source,
) -> Result<Vec<BString>, AllocError>
    requires { (index < length group.now.specs.now) × (others.to ≤ length group.now.specs.now) }
    ensures { (g : List Reading) → IsGroupOf g group.now → IfOk result (λ names.
        AreFreeing g others index (start_of source.now) (map bstring_bytes names.items)) }
{
    let mut names = Vec::new(alloc);
    let kept_away = candidates_before(alloc, &group.specs[index], source)?;
    for at in others.from..others.to {
        let before = candidates_before(alloc, &group.specs[at], source)?;
        add_allowed(&mut names, before, kept_away.as_slice())?;
    }
    Ok(names)
}

// Adds those names of the second list that are valid, and neither in the third nor there already: so there are few,
// however many specs have one source.
fn add_allowed(
    names: &mut Vec<BString>,
    before: Vec<BString>,
    kept_away: &[BString],
) -> Result<(), AllocError>
    ensures { OnOk result (AreAllowed (map bstring_bytes names.old.items) (map bstring_bytes before.items)
        (map bstring_bytes kept_away.now) (map bstring_bytes names.new.items)) }
{
    for name in before {
        if is_new(name.as_bstr(), names.as_slice(), kept_away) {
            names.push(name)?;
        }
    }
    Ok(())
}

// Whether a name isn't in the first list, and may be added to it.
fn is_new(name: BStr<'_>, names: &[BString], kept_away: &[BString]) -> bool
    ensures { MatchBool result
        (IsRefName (bstr_bytes name.entry) × ¬ (Contains (map bstring_bytes kept_away.now) (bstr_bytes name.entry)))
        (Contains (map bstring_bytes names.now) (bstr_bytes name.entry) ⊎ ¬ (IsRefName (bstr_bytes name.entry) ×
        ¬ (Contains (map bstring_bytes kept_away.now) (bstr_bytes name.entry)))) }
{
    if contains(names, name) {
        return false;
    }
    is_allowed(name, kept_away)
}

/// Whether a name is valid, and not in a list.
pub fn is_allowed(name: BStr<'_>, kept_away: &[BString]) -> bool
    ensures { MatchBool result
        (IsRefName (bstr_bytes name.entry) × ¬ (Contains (map bstring_bytes kept_away.now) (bstr_bytes name.entry)))
        (¬ (IsRefName (bstr_bytes name.entry) × ¬ (Contains (map bstring_bytes kept_away.now) (bstr_bytes name.entry)))) }
{
    if !is_ref_name(name.as_bytes()) {
        return false;
    }
    !contains(kept_away, name)
}

/// The candidates that a partial source tries before a name. None if it isn't one of them.
pub fn candidates_before(
    alloc: Global,
    spec: &RefSpecRef<'_>,
    source: &Source,
) -> Result<Vec<BString>, AllocError>
    ensures { IfOk result (λ before. ArePreferred (reading_of spec.now) (start_of source.now)
        (map bstring_bytes before.items)) }
{
    let (Some(side), SourceRef::FullName(name)) = (spec.source(), source) else {
        return Ok(Vec::new(alloc));
    };
    if spec.is_negative() || !may_take(spec, source) {
        return Ok(Vec::new(alloc));
    }
    match kind_of(side.as_bytes()) {
        SideKind::Partial(text) => tried_before(alloc, text, name.as_bstr()),
        SideKind::Pattern { .. } => Ok(Vec::new(alloc)),
        SideKind::FullName(_) => Ok(Vec::new(alloc)),
        SideKind::Object(_) => Ok(Vec::new(alloc)),
    }
}

// The candidates of a partial name before one of them. None if it isn't one.
fn tried_before(
    alloc: Global,
    partial: &[u8],
    candidate: BStr<'_>,
) -> Result<Vec<BString>, AllocError>
    ensures { IfOk result (λ before. AreTriedBefore partial.now (bstr_bytes candidate.entry)
        (map bstring_bytes before.items)) }
{
    let mut names = candidates(alloc, partial)?;
    for at in 0..names.len() {
        if names[at].as_bstr() == candidate {
            names.truncate(at);
            return Ok(names);
        }
    }
    Ok(Vec::new(alloc))
}
