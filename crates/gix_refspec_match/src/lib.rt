//! What specs match among refs, and the mappings that this makes: specs become matchers, matchers hit items,
//! hits become mappings, and duplicates are dropped. The library to use is `gix_refspec`, which is built on
//! this crate: it has items and mappings under the same names, and groups of specs.
#![tactic(auto)]

ghost use Rattle.std.specs.Prelude.{◌≡◌, ◌++◌, [], map, IfOk, OnOk};
ghost use Rattle.gix_refspec_text.specs.Views.Spec.{reading_of};
ghost use Rattle.gix_refspec_match.specs.Matching.Hits.{AreKeptForward, AreKeptBackward};
ghost use Rattle.gix_refspec_match.specs.Matching.Mappings.{IsKept};
ghost use Rattle.gix_refspec_match.specs.Matching.Missing.{AreMissing};
ghost use Rattle.gix_refspec_match.specs.Views.Mapping.{mapped_of, ref_of};
ghost use Rattle.gix_refspec_match.specs.declared.matcher.Candidates.TheVariants.{First, All};
ghost use Rattle.gix_refspec_match.specs.Private.Fills.{AddsMapped, object_mapping};
ghost use Rattle.gix_refspec_match.specs.Private.Hits.{AreSound};
ghost use Rattle.gix_refspec_match.specs.Private.Matchers.{HaveOthers};

mod bloom;
pub mod duplicates;
pub mod exclusions;
pub mod hashes;
mod hits;
mod index;
pub mod matcher;
pub mod needle;
pub mod single;
pub mod types;
mod unique;

use crate::duplicates::{drop_flagged, duplicates};
use crate::exclusions::Exclusions;
use crate::hits::{Hit, hits_among};
use crate::index::{Index, Names};
use crate::matcher::{Candidates, Matcher, Matchers, ObjectSpec};
use crate::needle::{filled, word_in};
use crate::types::{Item, Mapping, NameRef, SourceRef};
use gix_refspec_text::RefSpecRef;
use std::alloc::{AllocError, Global};

/// The mappings from left to right that are kept: first those of ids, in the order of specs, and then those of
/// items, in the order of specs and then of items. Fails if memory runs out.
pub fn match_forward<'spec, 'item>(
    alloc: Global,
    specs: &[RefSpecRef<'spec>],
    items: &[Item<'item>],
) -> Result<Vec<Mapping<'item, 'spec>>, AllocError>
    ensures { IfOk result (λ kept. AreKeptForward
        (map reading_of specs.now) (map ref_of items.now) (map mapped_of kept.items)) }
{
    let exclusions = Exclusions::of(alloc, specs)?;
    let (matchers, objects) = Matchers::forward(alloc, specs)?;
    let mut hits = hits_among(alloc, &matchers, items)?;
    let room = objects.len().saturating_add(hits.len());
    let later = hits.split_off(hits.len() / 2)?;
    let mut mappings = Vec::with_capacity(alloc, room)?;
    map_objects(alloc, objects.as_slice(), &mut mappings)?;
    // Each call drops its hits: half of them are gone before the names of the others are filled.
    let list = matchers.list.as_slice();
    map_forward(alloc, list, items, &exclusions, hits, &mut mappings)?;
    map_forward(alloc, list, items, &exclusions, later, &mut mappings)?;
    without_duplicates(alloc, mappings)
}

/// The mappings from right to left that are kept, in the order of specs and then of items. Fails if memory runs
/// out.
pub fn match_backward<'spec, 'item>(
    alloc: Global,
    specs: &[RefSpecRef<'spec>],
    items: &[Item<'item>],
) -> Result<Vec<Mapping<'spec, 'item>>, AllocError>
    ensures { IfOk result (λ kept. AreKeptBackward
        (map reading_of specs.now) (map ref_of items.now) (map mapped_of kept.items)) }
{
    let exclusions = Exclusions::of(alloc, specs)?;
    let matchers = Matchers::backward(alloc, specs)?;
    let mut hits = hits_among(alloc, &matchers, items)?;
    let room = hits.len();
    let later = hits.split_off(room / 2)?;
    let mut mappings = Vec::with_capacity(alloc, room)?;
    // Each call drops its hits: half of them are gone before the names of the others are filled.
    let list = matchers.list.as_slice();
    map_backward(alloc, list, items, &exclusions, hits, &mut mappings)?;
    map_backward(alloc, list, items, &exclusions, later, &mut mappings)?;
    without_duplicates(alloc, mappings)
}

/// The indexes of the positive specs whose source is a full or partial name that no item has, in order. Of a partial
/// name no item has a candidate then. Fails if memory runs out.
pub fn missing_sources(
    alloc: Global,
    specs: &[RefSpecRef<'_>],
    items: &[Item<'_>],
) -> Result<Vec<usize>, AllocError>
    ensures { IfOk result (λ missing. AreMissing
        (map reading_of specs.now) (map ref_of items.now) missing.items) }
{
    let named = Matchers::of_names(alloc, specs)?;
    let names = Names::of(alloc, &named)?;
    let index = Index::of(alloc, Candidates::All, &names, items)?;
    let mut missing = Vec::new(alloc);
    for matcher in &named.list {
        if index.lacks(matcher.needle) {
            missing.push(matcher.spec_index)?;
        }
    }
    Ok(missing)
}

// Adds the mappings of objects.
fn map_objects<'spec, 'item>(
    alloc: Global,
    objects: &[ObjectSpec<'spec>],
    mappings: &mut Vec<Mapping<'item, 'spec>>,
) -> Result<(), AllocError>
    ensures { OnOk result (map mapped_of mappings.new.items ≡
        map mapped_of mappings.old.items ++ map object_mapping objects.now) }
{
    for object in objects {
        mappings.push(Mapping {
            item_index: None,
            lhs: SourceRef::ObjectId(object.id),
            rhs: filled(alloc, object.destination, None)?,
            spec_index: object.spec_index,
        })?;
    }
    Ok(())
}

// Adds the mappings of hits on sources. What is excluded isn't filled.
fn map_forward<'spec, 'item>(
    alloc: Global,
    matchers: &[Matcher<'spec>],
    items: &[Item<'item>],
    exclusions: &Exclusions<'_>,
    hits: Vec<Hit>,
    mappings: &mut Vec<Mapping<'item, 'spec>>,
) -> Result<(), AllocError>
    requires { AreSound matchers.now (map ref_of items.now) hits.items }
    ensures { OnOk result (AddsMapped First exclusions.now matchers.now (map ref_of items.now) hits.items
        (map mapped_of mappings.old.items) (map mapped_of mappings.new.items)) }
{
    for hit in &hits {
        let item = &items[hit.item];
        if exclusions.spec_of(item.full_ref_name.as_bytes()).is_some() {
            continue;
        }
        let matcher = &matchers[hit.matcher];
        mappings.push(Mapping {
            item_index: Some(hit.item),
            lhs: SourceRef::FullName(NameRef::Borrowed(item.full_ref_name)),
            rhs: filled(alloc, matcher.other, word_in(matcher.needle, item))?,
            spec_index: matcher.spec_index,
        })?;
    }
    Ok(())
}

// Adds the mappings of hits on destinations. A source has to be filled before it is known whether it is excluded.
fn map_backward<'spec, 'item>(
    alloc: Global,
    matchers: &[Matcher<'spec>],
    items: &[Item<'item>],
    exclusions: &Exclusions<'_>,
    hits: Vec<Hit>,
    mappings: &mut Vec<Mapping<'spec, 'item>>,
) -> Result<(), AllocError>
    requires sound { AreSound matchers.now (map ref_of items.now) hits.items }
    requires others { HaveOthers matchers.now }
    ensures { OnOk result (AddsMapped All exclusions.now matchers.now (map ref_of items.now) hits.items
        (map mapped_of mappings.old.items) (map mapped_of mappings.new.items)) }
{
    for hit in &hits {
        let item = &items[hit.item];
        let matcher = &matchers[hit.matcher];
        let Some(source) = filled(alloc, matcher.other, word_in(matcher.needle, item))? else {
            continue;
        };
        if exclusions.spec_of(source.as_bstr().as_bytes()).is_some() {
            continue;
        }
        mappings.push(Mapping {
            item_index: Some(hit.item),
            lhs: SourceRef::FullName(source),
            rhs: Some(NameRef::Borrowed(item.full_ref_name)),
            spec_index: matcher.spec_index,
        })?;
    }
    Ok(())
}

// Drops each mapping that has the source and destination of an earlier one.
fn without_duplicates<'a, 'b>(
    alloc: Global,
    mut mappings: Vec<Mapping<'a, 'b>>,
) -> Result<Vec<Mapping<'a, 'b>>, AllocError>
    ensures { IfOk result (λ kept.
        IsKept [] (map mapped_of mappings.entry.items) (map mapped_of kept.items)) }
{
    let flags = duplicates(alloc, mappings.as_slice())?;
    if !flags.is_empty() {
        drop_flagged(flags.as_slice(), &mut mappings);
    }
    Ok(mappings)
}
