//! The upstream of a branch.

ghost use Rattle.std.specs.Prelude.{ℕ, List, map, IfOk, IsTrue, MatchOption, ◌↔◌};
ghost use Rattle.bstr.specs.BStr.{bstr_bytes};
ghost use Rattle.gix_refspec_text.specs.Views.Spec.{reading_of};
ghost use Rattle.gix_refspec_match.specs.Private.Kept.{ExcludeName, ExcludeNameAt};
ghost use Rattle.gix_refspec_match.specs.Views.Mapping.{name_bytes};
ghost use Rattle.gix_refspec_remote.specs.Private.{IsExclusion, IsTracked, IsUntracked};
ghost use Rattle.gix_refspec_remote.specs.Upstream.{AsksFor, AsksForExcluded, Fetches, HasNo, IsUpstream, Names, Stores, StoresSome, Turns};
ghost use Rattle.gix_refspec_remote.specs.Views.{shown};

use crate::written::{read_by, text_with, written_sides};
use bstr::BStr;
use gix_refspec_match::exclusions::Exclusions;
use gix_refspec_match::types::NameRef;
use gix_refspec_text::RefSpecRef;
use std::alloc::{AllocError, Global};

/// The upstream of a branch, or why it has none.
#[derive(Debug, Drop)]
pub enum Upstream<'spec> {
    /// The spec at this index, the first that can, fetches the merged ref to this one.
    Tracked {
        /// The ref, as the destination is written: Git doesn't complete it here.
        name: NameRef<'spec>,
        /// The index of the spec.
        spec_index: usize,
    },
    /// A negative spec excludes the merged ref, in Git's reading.
    Excluded {
        /// The index of the first positive spec with which it does.
        spec_index: usize,
        /// The index of the negative spec.
        excluded_by: usize,
    },
    /// The spec at this index, the first that does, fetches the merged ref, but no spec stores it.
    NotStored {
        /// The index of the spec.
        spec_index: usize,
    },
    /// No positive spec fetches the merged ref.
    NotFetched,
}

/// The upstream of a branch, which gitrevisions(7) writes `<branch>@{upstream}`: where the fetch specs of its remote
/// store the ref that the branch merges. `merge` is the value of `branch.<name>.merge`, of several the first.
///
/// Git compares sides as they are written here: `main` isn't `refs/heads/main`, and an object id is a text. A pattern
/// gives the word for its star to its destination, which isn't completed. Git also looks for exclusions as though the
/// value were a destination. So `^refs/heads/x` excludes the value `refs/heads/x` from `refs/heads/x:refs/y/x` and
/// from `refs/heads/*:refs/heads/*`, but not from `refs/heads/*:refs/y/*`. The first exclusion counts before any spec.
///
/// Two texts differ for Git that are one spec here. It stores nothing for a merged ref `refs/heads/x` if
/// `refs/heads/x:` comes before `refs/heads/*:refs/y/*`, and compares the source of `:refs/y/x` as an empty text,
/// which is `HEAD` here. Where the remote is `.`, Git takes the merged ref itself if no spec stores it.
///
/// A destination without a star borrows the spec. Fails if memory runs out.
pub fn upstream_of<'spec>(
    alloc: Global,
    specs: &[RefSpecRef<'spec>],
    merge: BStr<'_>,
) -> Result<Upstream<'spec>, AllocError>
    ensures { IfOk result (λ found. IsUpstream (map reading_of specs.now) (bstr_bytes merge.entry) (shown found)) }
{
    let excluded = excluded_in(alloc, specs, merge)?;
    match excluded {
        Some(upstream) => Ok(upstream),
        None => {
            let tracked = tracked_in(alloc, specs, merge)?;
            match tracked {
                Some(upstream) => Ok(upstream),
                None => Ok(untracked_in(specs, merge)),
            }
        }
    }
}

// The first exclusion of a merged ref.
fn excluded_in<'spec>(
    alloc: Global,
    specs: &[RefSpecRef<'spec>],
    merge: BStr<'_>,
) -> Result<Option<Upstream<'spec>>, AllocError>
    ensures { IfOk result (λ found. MatchOption found
        (HasNo (map reading_of specs.now) (AsksForExcluded (map reading_of specs.now) (bstr_bytes merge.entry)))
        (λ u. IsExclusion (map reading_of specs.now) (bstr_bytes merge.entry) (shown u))) }
{
    let exclusions = Exclusions::of(alloc, specs)?;
    for (spec_index, spec) in specs.iter().enumerate() {
        if let Some(excluded_by) = excluded_by(alloc, &exclusions, spec, merge)? {
            return Ok(Some(Upstream::Excluded {
                spec_index,
                excluded_by,
            }));
        }
    }
    Ok(None)
}

// The index of a negative spec that excludes a ref for which this spec is asked: the merged ref, if that is its source,
// and of a pattern what it would fetch to the merged ref.
fn excluded_by(
    alloc: Global,
    exclusions: &Exclusions<'_>,
    spec: &RefSpecRef<'_>,
    merge: BStr<'_>,
) -> Result<Option<usize>, AllocError>
    ensures { IfOk result (λ by. MatchOption by
        ((s : List ℕ) → AsksFor (bstr_bytes merge.entry) s (reading_of spec.now) → ¬ (ExcludeName exclusions.now s))
        (λ k. (s : List ℕ) × AsksFor (bstr_bytes merge.entry) s (reading_of spec.now)
        × ExcludeNameAt exclusions.now s k)) }
{
    if names(spec, merge) {
        return Ok(exclusions.spec_of(merge.as_bytes()));
    }
    let turned = turned_by(alloc, spec, merge)?;
    match turned {
        None => Ok(None),
        Some(name) => {
            let asked = name.as_bstr().as_bytes();
            let by = exclusions.spec_of(asked);
            Ok(by)
        }
    }
}

// Whether the source of a spec is the merged ref, without a star.
fn names(spec: &RefSpecRef<'_>, merge: BStr<'_>) -> bool
    ensures { IsTrue result ↔ Names (bstr_bytes merge.entry) (reading_of spec.now) }
{
    match written_sides(spec) {
        None => false,
        Some(sides) => match read_by(sides.source, merge.as_bytes()) {
            None => false,
            Some(read) => match read.word {
                None => true,
                Some(_) => false,
            },
        },
    }
}

// The ref that the pattern of a spec would store in the merged ref.
fn turned_by<'spec>(
    alloc: Global,
    spec: &RefSpecRef<'spec>,
    merge: BStr<'_>,
) -> Result<Option<NameRef<'spec>>, AllocError>
    ensures { IfOk result (λ found. MatchOption found
        ((s : List ℕ) → ¬ (Turns (bstr_bytes merge.entry) s (reading_of spec.now)))
        (λ name. Turns (bstr_bytes merge.entry) (name_bytes name) (reading_of spec.now))) }
{
    let Some(sides) = written_sides(spec) else {
        return Ok(None);
    };
    let Some(destination) = sides.destination else {
        return Ok(None);
    };
    match read_by(destination, merge.as_bytes()) {
        None => Ok(None),
        Some(read) => match read.word {
            None => Ok(None),
            Some(word) => text_with(alloc, sides.source, Some(word)),
        },
    }
}

// The ref in which the first spec that can stores a merged ref.
fn tracked_in<'spec>(
    alloc: Global,
    specs: &[RefSpecRef<'spec>],
    merge: BStr<'_>,
) -> Result<Option<Upstream<'spec>>, AllocError>
    ensures { IfOk result (λ found. MatchOption found
        (HasNo (map reading_of specs.now) (StoresSome (bstr_bytes merge.entry)))
        (λ u. IsTracked (map reading_of specs.now) (bstr_bytes merge.entry) (shown u))) }
{
    for (spec_index, spec) in specs.iter().enumerate() {
        if let Some(name) = stored_by(alloc, spec, merge)? {
            return Ok(Some(Upstream::Tracked { name, spec_index }));
        }
    }
    Ok(None)
}

// The ref in which a spec stores a merged ref.
fn stored_by<'spec>(
    alloc: Global,
    spec: &RefSpecRef<'spec>,
    merge: BStr<'_>,
) -> Result<Option<NameRef<'spec>>, AllocError>
    ensures { IfOk result (λ found. MatchOption found
        ((d : List ℕ) → ¬ (Stores (bstr_bytes merge.entry) d (reading_of spec.now)))
        (λ name. Stores (bstr_bytes merge.entry) (name_bytes name) (reading_of spec.now))) }
{
    let Some(sides) = written_sides(spec) else {
        return Ok(None);
    };
    let Some(destination) = sides.destination else {
        return Ok(None);
    };
    match read_by(sides.source, merge.as_bytes()) {
        None => Ok(None),
        Some(read) => text_with(alloc, destination, read.word),
    }
}

// Why no spec stores a merged ref that none excludes.
fn untracked_in<'spec>(specs: &[RefSpecRef<'spec>], merge: BStr<'_>) -> Upstream<'spec>
    ensures { IsUntracked (map reading_of specs.now) (bstr_bytes merge.entry) (shown result) }
{
    for (spec_index, spec) in specs.iter().enumerate() {
        if fetches(spec, merge) {
            return Upstream::NotStored { spec_index };
        }
    }
    Upstream::NotFetched
}

// Whether a spec fetches a merged ref.
fn fetches(spec: &RefSpecRef<'_>, merge: BStr<'_>) -> bool
    ensures { IsTrue result ↔ Fetches (bstr_bytes merge.entry) (reading_of spec.now) }
{
    match written_sides(spec) {
        None => false,
        Some(sides) => match read_by(sides.source, merge.as_bytes()) {
            None => false,
            Some(_) => true,
        },
    }
}
