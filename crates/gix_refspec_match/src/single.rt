//! What one spec makes of one name.

ghost use Rattle.std.specs.Prelude.{ℕ, List, Option, option_map, ◌↔◌, IfOk, OnErr, IsTrue, MatchOption};
ghost use Rattle.bstr.specs.BStr.{bstr_bytes};
ghost use Rattle.gix_refspec_text.specs.Matching.Side.{IsCandidate};
ghost use Rattle.gix_refspec_text.specs.Private.SideViews.{kind_of_side};
ghost use Rattle.gix_refspec_text.specs.Views.Spec.{reading_of};
ghost use Rattle.gix_refspec_match.specs.Matching.Mappings.{Mapped};
ghost use Rattle.gix_refspec_match.specs.Matching.Single.{IsRenamed, MapsName, MapsNameBack};
ghost use Rattle.gix_refspec_match.specs.Private.Needles.{IsFolder, MatchesNamed};
ghost use Rattle.gix_refspec_match.specs.Views.Mapping.{mapped_of};

use crate::matcher::sides_of;
use crate::needle::{filled, word_between};
use crate::types::{Mapping, NameRef, SourceRef};
use bstr::BStr;
use gix_refspec_text::RefSpecRef;
use gix_refspec_text::side::SideKind;
use std::alloc::{AllocError, Global};

/// What a spec makes of one name: of any ref that has it, where there is no other spec, by git-fetch(1) and
/// git-push(1) under `<refspec>`.
///
/// That is what `match_lhs` and `match_rhs` make of a group of this spec and one item of this name, whatever the item
/// points to. So no negative spec excludes anything, and a partial name takes each of the six names that
/// gitrevisions(7) tries. The indexes of a mapping are 0. Names aren't checked: `name_partial` checks one.
pub trait MapName<'spec> {
    /// The mapping of this name to the destination: of a pattern with the word for its star, and `None` if the spec
    /// has no destination. The result is `None` if the source doesn't match the name, as an object id never does, and
    /// if the spec is negative or lacks a source.
    ///
    /// The source borrows the name, and a destination that is a full name the spec. Fails if memory runs out, but
    /// only for another destination, which is owned.
    fn map<'name>(
        &self,
        alloc: Global,
        name: BStr<'name>,
    ) -> Result<Option<Mapping<'name, 'spec>>, AllocError>;

    /// The mapping of the source to this name, as the destination. The result is `None` if the destination doesn't
    /// match the name, as an object id never does here, and if the spec is negative or lacks a side.
    ///
    /// The destination borrows the name, and a source that is a full name the spec. Fails if memory runs out, but
    /// only for another source, which is owned: a pattern with the word for its star, and the full name that a
    /// partial name or an id becomes.
    fn map_back<'name>(
        &self,
        alloc: Global,
        name: BStr<'name>,
    ) -> Result<Option<Mapping<'spec, 'name>>, AllocError>;
}

impl<'spec> MapName<'spec> for RefSpecRef<'spec> {
    fn map<'name>(
        &self,
        alloc: Global,
        name: BStr<'name>,
    ) -> Result<Option<Mapping<'name, 'spec>>, AllocError>
        ensures ok { IfOk result (λ found. MatchOption found
            ((m : Mapped) → ¬ (MapsName (bstr_bytes name.entry) (reading_of self.now) m))
            (λ m. MapsName (bstr_bytes name.entry) (reading_of self.now) (mapped_of m))) }
        ensures memory { OnErr result (IsRenamed (reading_of self.now).destination) }
    {
        let Some(sides) = sides_of(self) else {
            return Ok(None);
        };
        let Some(matched) = match_name(sides.source, name.as_bytes()) else {
            return Ok(None);
        };
        Ok(Some(Mapping {
            item_index: Some(0),
            lhs: SourceRef::FullName(NameRef::Borrowed(name)),
            rhs: filled(alloc, sides.destination, matched.word)?,
            spec_index: 0,
        }))
    }

    fn map_back<'name>(
        &self,
        alloc: Global,
        name: BStr<'name>,
    ) -> Result<Option<Mapping<'spec, 'name>>, AllocError>
        ensures ok { IfOk result (λ found. MatchOption found
            ((m : Mapped) → ¬ (MapsNameBack (bstr_bytes name.entry) (reading_of self.now) m))
            (λ m. MapsNameBack (bstr_bytes name.entry) (reading_of self.now) (mapped_of m))) }
        ensures memory { OnErr result (IsRenamed (reading_of self.now).source) }
    {
        let Some(sides) = sides_of(self) else {
            return Ok(None);
        };
        let Some(destination) = sides.destination else {
            return Ok(None);
        };
        let Some(matched) = match_name(destination, name.as_bytes()) else {
            return Ok(None);
        };
        let Some(source) = filled(alloc, Some(sides.source), matched.word)? else {
            return Ok(None);
        };
        Ok(Some(Mapping {
            item_index: Some(0),
            lhs: SourceRef::FullName(source),
            rhs: Some(NameRef::Borrowed(name)),
            spec_index: 0,
        }))
    }
}

// That a side matches a name, if it is a pattern with this word for its star.
#[derive(Clone, Copy)]
struct Matched<'name> {
    word: Option<&'name [u8]>,
}

// How a side of this kind matches each ref of a name. An id doesn't, as it matches what points to it.
fn match_name<'name>(side: SideKind<'_>, name: &'name [u8]) -> Option<Matched<'name>>
    ensures { MatchOption result
        ((word : Option (List ℕ)) → ¬ (MatchesNamed (kind_of_side side.entry) name.now word))
        (λ m. MatchesNamed (kind_of_side side.entry) name.now (option_map (λ w. w.now) m.word)) }
{
    match side {
        SideKind::Pattern { before, after } => {
            let word = word_between(before, after, name)?;
            Some(Matched { word: Some(word) })
        }
        SideKind::FullName(full) if full == name => Some(Matched { word: None }),
        SideKind::Partial(partial) if is_candidate(partial, name) => Some(Matched { word: None }),
        SideKind::FullName(_) | SideKind::Partial(_) | SideKind::Object(_) => None,
    }
}

// Whether a name is a candidate of a partial name.
fn is_candidate(partial: &[u8], name: &[u8]) -> bool
    ensures { IsTrue result ↔ IsCandidate partial.now name.now }
{
    if let Some(folder) = name.strip_suffix(partial) {
        if is_folder(folder) {
            return true;
        }
    }
    match word_between(b"refs/remotes/", b"/HEAD", name) {
        None => false,
        Some(remote) => remote == partial,
    }
}

// Whether some candidate of a partial name begins with this text, and then has only the partial name.
fn is_folder(text: &[u8]) -> bool
    ensures { IsTrue result ↔ IsFolder text.now }
{
    text.is_empty()
        || text == b"refs/".as_slice()
        || text == b"refs/tags/".as_slice()
        || text == b"refs/heads/".as_slice()
        || text == b"refs/remotes/".as_slice()
}
