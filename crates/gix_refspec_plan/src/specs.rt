//! The specs that a fetch applies, with what the configuration adds.

ghost use Rattle.std.specs.Prelude.{◌≡◌, ◌≢◌, [], map, IfOk, MatchBool};
ghost use Rattle.bstr.specs.BStr.{bstr_bytes};
ghost use Rattle.gix_refspec_text.specs.Views.Spec.{reading_of};
ghost use Rattle.gix_refspec_match.specs.Views.Mapping.{mapped_of, ref_of};
ghost use Rattle.gix_refspec_plan.specs.Matching.Plan.{AreAsked, AreConfigured, AreMerges, AreTaken, AreThose, IsTracked};
ghost use Rattle.gix_refspec_plan.specs.Private.Plans.{AreNames, AreSoundNames, FlagCovered, FlagsTaken, IsIn, origin_in};
ghost use Rattle.gix_refspec_plan.specs.Views.Plan.{asked_of, wish_of};

use super::mapped::{is_sound, mapped, names_in, owned};
use super::{Asked, Origin, Wish};
use bstr::BStr;
use gix_refspec::match_group::ref_names::is_ref_name;
use gix_refspec::match_group::{Item, Mapping, SourceRef};
use gix_refspec_match::duplicates::{duplicates, is_flagged};
use gix_refspec_text::RefSpecRef;
use std::alloc::{AllocError, Global};

// Some specs of a list.
#[derive(Clone, Copy)]
enum Part {
    All,
    Positive,
    Negative,
}

impl Part {
    fn has(self, spec: &RefSpecRef<'_>) -> bool
        ensures { MatchBool result
            (IsIn self (reading_of spec.now))
            (¬ (IsIn self (reading_of spec.now))) }
    {
        match self {
            Part::All => true,
            Part::Positive => !spec.is_negative(),
            Part::Negative => spec.is_negative(),
        }
    }
}

// A list of a wish that has specs.
#[derive(Clone, Copy)]
enum SpecList {
    Given,
    Configured,
}

impl SpecList {
    fn origin(self, index: usize) -> Origin
        ensures { result ≡ origin_in self index }
    {
        match self {
            SpecList::Given => Origin::Given(index),
            SpecList::Configured => Origin::Configured(index),
        }
    }
}

// A part of the specs of a list, each with its origin.
fn specs_of<'spec>(
    alloc: Global,
    list: SpecList,
    specs: &[RefSpecRef<'spec>],
    part: Part,
) -> Result<Vec<Asked<'spec>>, AllocError>
    ensures { IfOk result (λ asked. AreThose (IsIn part) (origin_in list)
        (map reading_of specs.now) (map asked_of asked.items)) }
{
    let mut asked = Vec::new(alloc);
    for (index, spec) in specs.iter().enumerate() {
        if part.has(spec) {
            asked.push(Asked {
                spec: *spec,
                origin: list.origin(index),
            })?;
        }
    }
    Ok(asked)
}

// The specs that map the refs of the remote.
pub(crate) fn asked_specs<'spec>(
    alloc: Global,
    wish: &Wish<'_, 'spec>,
    items: &[Item<'_>],
) -> Result<Vec<Asked<'spec>>, AllocError>
    ensures { IfOk result (λ asked. AreAsked (wish_of wish.now) (map ref_of items.now) (map asked_of asked.items)) }
{
    let mut asked = if !wish.given.is_empty() {
        specs_of(alloc, SpecList::Given, wish.given, Part::All)?
    } else {
        configured_or_head(alloc, wish, items)?
    };
    if wish.tags {
        asked.push(Asked {
            spec: RefSpecRef::fetch_of_all_tags(),
            origin: Origin::AllTags,
        })?;
    }
    Ok(asked)
}

// The configured specs and what the current branch merges, or `HEAD` where nothing is configured.
fn configured_or_head<'spec>(
    alloc: Global,
    wish: &Wish<'_, 'spec>,
    items: &[Item<'_>],
) -> Result<Vec<Asked<'spec>>, AllocError>
    ensures { IfOk result (λ asked. AreConfigured (wish_of wish.now) (map ref_of items.now) (map asked_of asked.items)) }
{
    let mut asked = specs_of(alloc, SpecList::Configured, wish.configured, Part::All)?;
    if !wish.merges.is_empty() {
        let names = names_in(alloc, asked.as_slice())?;
        let configured = mapped(alloc, asked.as_slice(), names.as_slice(), items)?;
        let mut merges = merge_specs(alloc, wish.merges, configured.as_slice())?;
        asked.append(&mut merges)?;
    } else if wish.configured.is_empty() {
        asked.push(Asked {
            spec: RefSpecRef::fetch_of(BStr::new(b"HEAD")),
            origin: Origin::Default,
        })?;
    }
    Ok(asked)
}

// The merged refs of which no configured mapping is made, each once.
fn merge_specs<'spec>(
    alloc: Global,
    merges: &[BStr<'spec>],
    configured: &[Mapping<'_, '_>],
) -> Result<Vec<Asked<'spec>>, AllocError>
    ensures { IfOk result (λ made. AreMerges
        (map bstr_bytes merges.now) (map mapped_of configured.now) (map asked_of made.items)) }
{
    let flags = covered_flags(alloc, merges, configured)?;
    let mut made = Vec::new(alloc);
    for (index, name) in merges.iter().enumerate() {
        if !is_flagged(flags.as_slice(), index) && is_ref_name(name.as_bytes()) {
            made.push(Asked {
                spec: RefSpecRef::fetch_of(*name),
                origin: Origin::Merge(index),
            })?;
        }
    }
    Ok(made)
}

// Flags the merged refs that are those of sound mappings, or are given before.
fn covered_flags(
    alloc: Global,
    merges: &[BStr<'_>],
    configured: &[Mapping<'_, '_>],
) -> Result<Vec<bool>, AllocError>
    ensures { IfOk result (λ flags. FlagCovered
        (map bstr_bytes merges.now) (map mapped_of configured.now) flags.items) }
{
    let names = names_of(alloc, merges, configured)?;
    let fetched = names.len().saturating_sub(merges.len());
    let all = duplicates(alloc, names.as_slice())?;
    let mut flags = Vec::with_capacity(alloc, merges.len())?;
    for index in 0..merges.len() {
        flags.push(is_flagged(all.as_slice(), fetched.saturating_add(index)))?;
    }
    Ok(flags)
}

// The names of the refs of sound mappings, and then those that are merged.
fn names_of<'m, 's: 'm>(
    alloc: Global,
    merges: &[BStr<'s>],
    mappings: &'m [Mapping<'_, '_>],
) -> Result<Vec<BStr<'m>>, AllocError>
    ensures { IfOk result (λ names. AreNames
        (map bstr_bytes merges.now) (map mapped_of mappings.now) (map bstr_bytes names.items)) }
{
    let mut names = sources_of(alloc, mappings)?;
    for name in merges {
        names.push(*name)?;
    }
    Ok(names)
}

// The names of the refs of sound mappings.
fn sources_of<'m>(
    alloc: Global,
    mappings: &'m [Mapping<'_, '_>],
) -> Result<Vec<BStr<'m>>, AllocError>
    ensures { IfOk result (λ names. AreSoundNames (map mapped_of mappings.now) (map bstr_bytes names.items)) }
{
    let mut names = Vec::with_capacity(alloc, mappings.len())?;
    for mapping in mappings {
        if let SourceRef::FullName(name) = &mapping.lhs {
            if is_sound(mapping) {
                names.push(name.as_bstr())?;
            }
        }
    }
    Ok(names)
}

// The mappings of the configured specs that are applied to what the specs of the call take. They have the indexes of their
// items among all, and their specs are beside them.
#[derive(Drop)]
pub(crate) struct Tracked<'spec, 'item, 'n> {
    pub(crate) specs: Vec<Asked<'spec>>,
    pub(crate) indexes: Vec<usize>,
    pub(crate) mappings: Vec<Mapping<'item, 'n>>,
}

// What is tracked besides. Nothing without specs of the call.
pub(crate) fn track<'spec, 'item, 'n>(
    alloc: Global,
    wish: &Wish<'_, 'spec>,
    items: &[Item<'item>],
) -> Result<Tracked<'spec, 'item, 'n>, AllocError>
    ensures { IfOk result (λ tracked. IsTracked (wish_of wish.now) (map ref_of items.now)
        (map asked_of tracked.specs.items) tracked.indexes.items (map mapped_of tracked.mappings.items)) }
{
    if wish.given.is_empty() {
        return Ok(Tracked {
            specs: Vec::new(alloc),
            indexes: Vec::new(alloc),
            mappings: Vec::new(alloc),
        });
    }
    let mut specs = specs_of(alloc, SpecList::Configured, wish.configured, Part::Positive)?;
    let mut negative = specs_of(alloc, SpecList::Given, wish.given, Part::Negative)?;
    specs.append(&mut negative)?;
    let taken = taken_by(alloc, wish.given, items)?;
    let names = names_in(alloc, specs.as_slice())?;
    let borrowed = mapped(
        alloc,
        specs.as_slice(),
        names.as_slice(),
        taken.items.as_slice(),
    )?;
    let mappings = owned(alloc, borrowed)?;
    Ok(Tracked {
        specs,
        indexes: taken.indexes,
        mappings,
    })
}

// Some items, and their indexes among all.
#[derive(Drop)]
struct Taken<'item> {
    items: Vec<Item<'item>>,
    indexes: Vec<usize>,
}

// The items that the positive ones of these specs map, whatever the negative ones exclude.
fn taken_by<'item>(
    alloc: Global,
    given: &[RefSpecRef<'_>],
    items: &[Item<'item>],
) -> Result<Taken<'item>, AllocError>
    ensures { IfOk result (λ taken. AreTaken (map reading_of given.now) (map ref_of items.now)
        taken.indexes.items (map ref_of taken.items.items)) }
{
    let positive = specs_of(alloc, SpecList::Given, given, Part::Positive)?;
    let names = names_in(alloc, positive.as_slice())?;
    let mappings = mapped(alloc, positive.as_slice(), names.as_slice(), items)?;
    let flags = taken_flags(alloc, mappings.as_slice(), items.len())?;
    let mut taken = Taken {
        items: Vec::new(alloc),
        indexes: Vec::new(alloc),
    };
    for (index, item) in items.iter().enumerate() {
        if is_flagged(flags.as_slice(), index) {
            taken.items.push(*item)?;
            taken.indexes.push(index)?;
        }
    }
    Ok(taken)
}

// Flags the items of sound mappings.
fn taken_flags(
    alloc: Global,
    mappings: &[Mapping<'_, '_>],
    len: usize,
) -> Result<Vec<bool>, AllocError>
    ensures { IfOk result (λ flags. FlagsTaken (map mapped_of mappings.now) len flags.items) }
{
    let mut flags = Vec::new(alloc);
    flags.resize(len, false)?;
    for mapping in mappings {
        if let Some(index) = mapping.item_index {
            if index < flags.len() && is_sound(mapping) {
                flags[index] = true;
            }
        }
    }
    Ok(flags)
}
