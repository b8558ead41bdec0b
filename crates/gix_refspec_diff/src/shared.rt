//! The sources that decide what a pattern maps.

ghost use Rattle.std.specs.Prelude.{◌≡◌, List, ℕ, map, option_map, IfOk, OnOk};
ghost use Rattle.bstr.specs.BStr.{bstr_bytes};
ghost use Rattle.bstr.specs.Owned.{bstring_bytes};
ghost use Rattle.gix_refspec_text.specs.Views.Spec.{reading_of};
ghost use Rattle.gix_refspec_match.specs.Matching.Mappings.{name};
ghost use Rattle.gix_refspec_match.specs.Views.Mapping.{start_of};
ghost use Rattle.gix_refspec_lint.specs.Private.Lints.{AreCommon, IsBounded};
ghost use Rattle.gix_refspec_diff.specs.Private.Searches.{AddOverlaps, DecideExcluded, DecideShared, side_names};
ghost use Rattle.gix_refspec_diff.specs.Private.Searches.{with_words};

use bstr::{BStr, BString};
use gix_refspec::match_group::Source;
use gix_refspec_lint::group::source_named;
use gix_refspec_lint::words::Common;
use gix_refspec_plan::stale::parts_of;
use gix_refspec_text::RefSpecRef;
use gix_refspec_text::side::joined;
use std::alloc::{AllocError, Global};

// The sources of a pattern with these texts, with each of the words for its star.
pub(crate) fn own_sources(
    alloc: Global,
    words: &[BString],
    texts: (&[u8], &[u8]),
) -> Result<Vec<Source>, AllocError>
    ensures { IfOk result (λ sources. map start_of sources.items ≡
        with_words texts.entry.0.now texts.entry.1.now (map bstring_bytes words.now)) }
{
    let mut sources = Vec::with_capacity(alloc, words.len())?;
    for word in words {
        let name = joined(alloc, texts.0, word.as_bstr().as_bytes(), texts.1)?;
        sources.push(source_named(name))?;
    }
    Ok(sources)
}

// The sources that decide which of those of a pattern with these texts a negative value excludes: the ref that it
// names, or those of what both patterns have in common.
pub(crate) fn excluded_sources(
    alloc: Global,
    words: &[BString],
    texts: (&[u8], &[u8]),
    negative: &RefSpecRef<'_>,
) -> Result<Vec<Source>, AllocError>
    ensures { IfOk result (λ sources. DecideExcluded (map bstring_bytes words.now) texts.entry.0.now texts.entry.1.now
        (reading_of negative.now) (map start_of sources.items)) }
{
    let Some(others) = parts_of(negative.source()) else {
        return named_source(alloc, negative.source());
    };
    match Common::of(texts, others) {
        None => Ok(Vec::new(alloc)),
        Some(common) => common_sources(alloc, words, &common),
    }
}

// The source of this name, if there is one.
fn named_source(alloc: Global, side: Option<BStr<'_>>) -> Result<Vec<Source>, AllocError>
    ensures { IfOk result (λ sources. map start_of sources.items ≡
        map name (side_names (option_map bstr_bytes side.entry))) }
{
    let mut sources = Vec::new(alloc);
    if let Some(side) = side {
        sources.push(source_named(BString::from_slice(alloc, side)?))?;
    }
    Ok(sources)
}

// The sources that decide what two patterns have in common.
fn common_sources(
    alloc: Global,
    words: &[BString],
    common: &Common<'_>,
) -> Result<Vec<Source>, AllocError>
    requires { IsBounded common.now }
    ensures { (p t a b : List ℕ) → AreCommon p t a b common.now → IfOk result (λ sources.
        DecideShared (map bstring_bytes words.now) p t a b (map start_of sources.items)) }
{
    let mut sources = own_sources(alloc, words, (common.prefix, common.suffix))?;
    add_overlaps(alloc, &mut sources, common)?;
    Ok(sources)
}

// Adds the sources in which the texts of two patterns overlap.
fn add_overlaps(
    alloc: Global,
    sources: &mut Vec<Source>,
    common: &Common<'_>,
) -> Result<(), AllocError>
    requires { IsBounded common.now }
    ensures { (p t a b : List ℕ) → AreCommon p t a b common.now → OnOk result (AddOverlaps p t a b
        common.now.prefix.now common.now.suffix.now (map start_of sources.old.items) (map start_of sources.new.items)) }
{
    for shared in &common.overlaps(alloc)? {
        sources.push(source_named(common.overlapping(alloc, *shared)?))?;
    }
    Ok(())
}
