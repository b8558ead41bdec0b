//! Why a ref of a remote is fetched, or isn't: what each spec of a fetch does with it.
//!
//! ```rust
//! let specs = [
//!     gix_refspec::parse(alloc, BStr::new(b"refs/heads/*:refs/x/*"), Operation::Fetch)?,
//!     gix_refspec::parse(alloc, BStr::new(b"^refs/heads/wip/*"), Operation::Fetch)?,
//! ];
//! let effects = why(alloc, specs.as_slice(), items, BStr::new(b"refs/heads/wip/a"))?;
//! let first = effects.of_specs[0].fate;    // excluded by the spec at index 1, whose star stands for `a`
//! ```
//!
//! Specs and items are those of `gix_refspec`, and plans those of `gix_refspec_plan`, on which this crate is built.
#![tactic(auto)]

ghost use Rattle.std.specs.Prelude.{map, IfOk};
ghost use Rattle.bstr.specs.BStr.{bstr_bytes};
ghost use Rattle.gix_refspec_text.specs.Matching.Match.{HasName};
ghost use Rattle.gix_refspec_text.specs.Views.Spec.{reading_of};
ghost use Rattle.gix_refspec_match.specs.Views.Mapping.{ref_of};
ghost use Rattle.gix_refspec_why.specs.Matching.Why.{AreEffects, IsExplained};
ghost use Rattle.gix_refspec_why.specs.Private.Attempts.{EndsWithName, NamesFirst};
ghost use Rattle.gix_refspec_why.specs.Views.Why.{effect_of};

mod attempts;
mod exclusion;
mod fates;
pub mod laws;
mod rivals;
pub mod sources;

use bstr::{BStr, BString};
use fates::fates_of;
use gix_refspec::match_group::{Item, Mapping};
use gix_refspec_match::match_forward;
use gix_refspec_plan::mapped::{completed_names, completed_specs};
use gix_refspec_text::RefSpecRef;
use gix_refspec_text::oid::{Kind, ObjectId};
use std::alloc::{AllocError, Global};
use std::collections::BTreeMap;

/// What specs do with one ref, as [`why`] returns it.
#[derive(Debug, Drop)]
pub struct Effects {
    /// The index of the first item that has the name. `None` if the remote lacks the ref: then each effect is the one that its
    /// spec would have if the remote had this ref too.
    pub item_index: Option<usize>,
    /// The effect of each spec, in order.
    pub of_specs: Vec<Effect>,
}

/// What one spec does with the ref.
#[derive(Debug, Drop)]
pub struct Effect {
    /// The local ref that the spec maps the ref to, whether or not it writes it, as a fetch completes it. `None` if the spec
    /// doesn't map the ref, or has no destination.
    pub destination: Option<BString>,
    /// What becomes of the ref by this spec.
    pub fate: Fate,
}

/// What becomes of a ref by one spec: the first of these that applies, in this order.
#[derive(Clone, Copy, Debug, PartialEq, Eq)]
pub enum Fate {
    /// The source of the spec doesn't match the name, for this reason. A negative spec excludes nothing then.
    Unmatched(Mismatch),
    /// The spec is negative, and excludes the ref; by a pattern, with this word for its star.
    Excludes(Option<StarWord>),
    /// A negative spec excludes the ref.
    Excluded(ExcludedBy),
    /// The name isn't a valid ref name, so a fetch leaves it out.
    InvalidName,
    /// The destination isn't a valid name below `refs/`, so a fetch leaves it out.
    InvalidDestination,
    /// The earlier spec at this index, the first of those, maps the ref to the same destination.
    Duplicate(usize),
    /// Another source has the same destination, so nothing is fetched.
    InConflict(Rival),
    /// The destination of this other mapping is a directory of the destination, or the other way round, so Git writes one of
    /// both.
    DirectoryConflict(Rival),
    /// It is fetched, and written to the destination if there is one.
    Written,
}

/// Why the source of a spec doesn't match a name.
#[derive(Clone, Copy, Debug, PartialEq, Eq)]
pub enum Mismatch {
    /// The spec has no source, as `:main` of a push.
    NoSource,
    /// The name doesn't begin with the prefix of the pattern. They begin with this many equal bytes, so the byte at this index
    /// differs, or the name ends there.
    Prefix(usize),
    /// The name begins with the prefix of the pattern, but doesn't end with its suffix. They end with this many equal bytes.
    Suffix(usize),
    /// The name begins with the prefix of the pattern and ends with its suffix, but they would overlap in it.
    Overlap,
    /// The source is a full name, or that of a negative spec without a star, and this is another name.
    OtherName,
    /// The source is an object id, which matches no name.
    Object,
    /// The source is a partial name, and the name isn't one of its candidates.
    NoCandidate,
    /// The source is a partial name, and the name one of its candidates, but the remote has an earlier candidate. The first of
    /// those is the ref that the spec takes, and this is the index of its item, the first of that name.
    EarlierCandidate(usize),
}

/// The part of a name that the star of a pattern stands for.
#[derive(Clone, Copy, Debug, PartialEq, Eq)]
pub struct StarWord {
    /// The index of its first byte in the name.
    pub start: usize,
    /// How many bytes it has.
    pub len: usize,
}

/// The first negative spec that excludes a ref.
#[derive(Clone, Copy, Debug, PartialEq, Eq)]
pub struct ExcludedBy {
    /// The index of the spec.
    pub spec_index: usize,
    /// If its source is a pattern, the word for its star.
    pub word: Option<StarWord>,
}

/// Another mapping of the same fetch, with a valid source and a valid destination, that no negative spec excludes.
#[derive(Clone, Copy, Debug, PartialEq, Eq)]
pub struct Rival {
    /// The index of its spec.
    pub spec_index: usize,
    /// The index of the item that is its source. `None` if that is an object id.
    pub item_index: Option<usize>,
}

/// What each spec of a fetch does with the ref of this name, of a remote that has these refs: why it is fetched or not.
///
/// That is what `plan_fetch` makes of the specs as configured ones, by git-fetch(1) under `<refspec>` and gitrevisions(7): the
/// plan writes the ref exactly if an item has the name and some spec has the fate [`Fate::Written`]. Destinations are completed
/// as in a plan.
///
/// The items may be in any order. If none has the name, the effects are those of the items with one more, at the end, that has
/// it. All specs are taken for those of a fetch. Fails if memory runs out.
pub fn why(
    alloc: Global,
    specs: &[RefSpecRef<'_>],
    items: &[Item<'_>],
    name: BStr<'_>,
) -> Result<Effects, AllocError>
    ensures { IfOk result (λ effects. IsExplained (map reading_of specs.now) (map ref_of items.now)
        (bstr_bytes name.entry) effects.item_index (map effect_of effects.of_specs.items)) }
{
    let firsts = first_items(alloc, items)?;
    if let Some(index) = firsts.get(name.as_bytes()) {
        return Ok(Effects {
            item_index: Some(*index),
            of_specs: effects_among(alloc, specs, items, name)?,
        });
    }
    let target = ObjectId::null(Kind::Sha1);
    let all = with_name(alloc, items, name, &target)?;
    Ok(Effects {
        item_index: None,
        of_specs: effects_among(alloc, specs, all.as_slice(), name)?,
    })
}

// The items with one more at the end, of this name.
fn with_name<'i>(
    alloc: Global,
    items: &[Item<'i>],
    name: BStr<'i>,
    target: &'i ObjectId,
) -> Result<Vec<Item<'i>>, AllocError>
    ensures { IfOk result (λ all. EndsWithName (map ref_of items.now) (bstr_bytes name.entry) (map ref_of all.items)) }
{
    let mut all = Vec::with_capacity(alloc, items.len().saturating_add(1))?;
    for item in items {
        all.push(*item)?;
    }
    all.push(Item {
        full_ref_name: name,
        target,
        object: None,
    })?;
    Ok(all)
}

// The index of the first item of each name.
pub(crate) fn first_items<'i>(
    alloc: Global,
    items: &[Item<'i>],
) -> Result<BTreeMap<&'i [u8], usize>, AllocError>
    ensures { IfOk result (NamesFirst (map ref_of items.now)) }
{
    let mut firsts = BTreeMap::new(alloc);
    for (index, item) in items.iter().enumerate() {
        let name = item.full_ref_name.as_bytes();
        if !firsts.contains_key(name) {
            firsts.insert(name, index)?;
        }
    }
    Ok(firsts)
}

// What each spec does with the ref of a name that some item has.
fn effects_among(
    alloc: Global,
    specs: &[RefSpecRef<'_>],
    items: &[Item<'_>],
    name: BStr<'_>,
) -> Result<Vec<Effect>, AllocError>
    requires { HasName (map ref_of items.now) (bstr_bytes name) }
    ensures { IfOk result (λ effects. AreEffects (map reading_of specs.now) (map ref_of items.now)
        (bstr_bytes name.entry) (map effect_of effects.items)) }
{
    let names = completed_names(alloc, specs)?;
    let completed = completed_specs(alloc, specs, names.as_slice())?;
    let kept = match_forward(alloc, completed.as_slice(), items)?;
    fates_of(alloc, completed.as_slice(), kept.as_slice(), items, name)
}
