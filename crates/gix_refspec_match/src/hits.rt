//! Which matchers hit which items, in the order of the matchers and then of the items.

ghost use Rattle.std.specs.Prelude.{◌≡◌, ◌≢◌, ◌++◌, ◌∷◌, [], map, MatchBool, MatchOption, IfOk, None};
ghost use Rattle.gix_refspec_text.specs.Private.SideViews.{kind_of_side};
ghost use Rattle.gix_refspec_match.specs.Views.Mapping.{ref_of};
ghost use Rattle.gix_refspec_match.specs.Private.Hits.{AddsFound, AreHitsOf, AreHitsAmong, hit_at, turned};
ghost use Rattle.gix_refspec_match.specs.Private.Index.{IsIndexFor};

use crate::hashes::hash_of_name;
use crate::index::{Index, Names};
use crate::matcher::{Candidates, Matchers};
use crate::needle::matches;
use crate::types::Item;
use crate::unique::Unique;
use gix_refspec_text::side::SideKind;
use std::alloc::{AllocError, Global};

// Of how many items the names are hashed to guess whether more repeat.
const SAMPLE: usize = 256;

// A matcher's hit on an item, by the indexes of both.
#[derive(Clone, Copy)]
pub(crate) struct Hit {
    pub(crate) matcher: usize,
    pub(crate) item: usize,
}

// The hits of matchers on items. If names seem to repeat, or there are more hits than items, only the first
// item of each name is hit: otherwise a name that a server lists again and again would take memory for each
// matcher and each time. An id hits all its items, since items of one name may have different objects.
pub(crate) fn hits_among(
    alloc: Global,
    matchers: &Matchers<'_>,
    items: &[Item<'_>],
) -> Result<Vec<Hit>, AllocError>
    ensures { IfOk result (λ hits. AreHitsAmong matchers.now (map ref_of items.now) hits.items) }
{
    if matchers.has_ids() {
        return Ok(hits_within(alloc, matchers, items, None)?.unwrap());
    }
    if items.len() < 2 || !seem_to_repeat(items) {
        if let Some(hits) = hits_within(alloc, matchers, items, Some(items.len()))? {
            return Ok(hits);
        }
    }
    let unique = Unique::of(alloc, items)?;
    let mut hits = hits_within(alloc, matchers, unique.items.as_slice(), None)?.unwrap();
    turn_back(hits.as_mut_slice(), unique.indexes.as_slice());
    Ok(hits)
}

// Whether names seem to repeat, as two of the first ones have the same hash. It is a guess: the hits serve either way.
fn seem_to_repeat(items: &[Item<'_>]) -> bool {
    let mut hashes = [0; SAMPLE];
    for (hash, item) in hashes.iter_mut().zip(items) {
        *hash = hash_of_name(item.full_ref_name.as_bytes());
    }
    let sample = &mut hashes[..items.len().min(SAMPLE)];
    sample.sort_unstable();
    sample.windows(2).any(|pair| pair[0] == pair[1])
}

// Turns the indexes of some items into their indexes among all items.
fn turn_back(hits: &mut [Hit], indexes: &[usize])
    ensures { hits.new ≡ map (turned indexes.now) hits.old }
{
    for hit in hits.iter_mut() {
        if let Some(index) = indexes.get(hit.item) {
            hit.item = *index;
        }
    }
}

// All hits, or `None` if there are more than the limit.
fn hits_within(
    alloc: Global,
    matchers: &Matchers<'_>,
    items: &[Item<'_>],
    limit: Option<usize>,
) -> Result<Option<Vec<Hit>>, AllocError>
    ensures { IfOk result (λ found. MatchOption found (limit ≢ None)
        (λ hits. AreHitsOf matchers.now (map ref_of items.now) hits.items)) }
{
    let names = Names::of(alloc, matchers)?;
    let index = Index::of(alloc, matchers.candidates, &names, items)?;
    let mut hits = Vec::new(alloc);
    for (matcher_index, matcher) in matchers.list.iter().enumerate() {
        let is_within = add_hits(
            matcher_index,
            matcher.needle,
            matchers.candidates,
            &index,
            items,
            limit,
            &mut hits,
        )?;
        if !is_within {
            return Ok(None);
        }
    }
    hits.shrink_to_fit();
    Ok(Some(hits))
}

// Adds the hits of a needle. Returns whether all are within the limit. It isn't inlined, so that its loops have registers
// of their own.
#[inline(never)]
fn add_hits<'n>(
    matcher: usize,
    needle: SideKind<'n>,
    candidates: Candidates,
    index: &Index<'n>,
    items: &[Item<'_>],
    limit: Option<usize>,
    hits: &mut Vec<Hit>,
) -> Result<bool, AllocError>
    requires { IsIndexFor candidates (map ref_of items.now) index.now (kind_of_side needle) }
    ensures { IfOk result (λ is_within. MatchBool is_within
        (AddsFound candidates (map ref_of items.now) (kind_of_side needle.entry) matcher hits.old.items hits.new.items)
        (limit ≢ None)) }
{
    match index.items_of(needle) {
        Some(indexes) => {
            for index in indexes {
                if matches(needle, &items[*index]) && !add_hit(matcher, *index, limit, hits)? {
                    return Ok(false);
                }
            }
        }
        None => {
            for (item_index, item) in items.iter().enumerate() {
                if matches(needle, item) && !add_hit(matcher, item_index, limit, hits)? {
                    return Ok(false);
                }
            }
        }
    }
    Ok(true)
}

// Adds a hit, unless there are as many as the limit.
#[inline(always)]
fn add_hit(
    matcher: usize,
    item: usize,
    limit: Option<usize>,
    hits: &mut Vec<Hit>,
) -> Result<bool, AllocError>
    ensures { IfOk result (λ is_within. MatchBool is_within
        (hits.new.items ≡ hits.old.items ++ hit_at matcher item ∷ [])
        (limit ≢ None)) }
{
    if limit == Some(hits.len()) {
        return Ok(false);
    }
    hits.push(Hit { matcher, item })?;
    Ok(true)
}
