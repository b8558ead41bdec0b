//! Sides as they are written: a name stands for itself alone, and a pattern for what it matches.

ghost use Rattle.std.specs.Prelude.{◌≡◌, ℕ, List, Option, Some, option_map, IfOk, MatchOption};
ghost use Rattle.bstr.specs.BStr.{bstr_bytes};
ghost use Rattle.gix_refspec_text.specs.Texts.Name.{HasSeveralStars};
ghost use Rattle.gix_refspec_text.specs.Specs.Reading.{Reading};
ghost use Rattle.gix_refspec_text.specs.Views.Spec.{reading_of};
ghost use Rattle.gix_refspec_match.specs.Views.Mapping.{name_bytes};
ghost use Rattle.gix_refspec_remote.specs.Private.{AreWrittenIn, HasNoSource};
ghost use Rattle.gix_refspec_remote.specs.Written.{IsText};

use bstr::BStr;
use gix_refspec_match::needle::word_between;
use gix_refspec_match::types::NameRef;
use gix_refspec_text::RefSpecRef;
use gix_refspec_text::side::{joined, split_at_first_star};
use std::alloc::{AllocError, Global};

// The sides of a positive spec, each with one star at most.
#[derive(Clone, Copy)]
pub(crate) struct WrittenSides<'spec> {
    pub(crate) source: BStr<'spec>,
    pub(crate) destination: Option<BStr<'spec>>,
}

// The sides of a spec. `None` if it is negative, or has no source.
pub(crate) fn written_sides<'spec>(spec: &RefSpecRef<'spec>) -> Option<WrittenSides<'spec>>
    ensures { MatchOption result (HasNoSource (reading_of spec.now)) (AreWrittenIn (reading_of spec.now)) }
{
    if spec.is_negative() {
        return None;
    }
    match spec.source() {
        None => None,
        Some(source) => Some(WrittenSides {
            source,
            destination: spec.destination(),
        }),
    }
}

// That a side is a name, or matches it with this word for its star.
#[derive(Clone, Copy)]
pub(crate) struct Read<'name> {
    pub(crate) word: Option<&'name [u8]>,
}

// Reads a name by a side. `None` if the side is another name, or doesn't match it.
pub(crate) fn read_by<'name>(side: BStr<'_>, name: &'name [u8]) -> Option<Read<'name>>
    requires { ¬ (HasSeveralStars (bstr_bytes side)) }
    ensures { MatchOption result
        ((word : Option (List ℕ)) → ¬ (IsText (bstr_bytes side.entry) name.now word))
        (λ read. IsText (bstr_bytes side.entry) name.now (option_map (λ w. w.now) read.word)) }
{
    let text = side.as_bytes();
    match split_at_first_star(text) {
        None if text == name => Some(Read { word: None }),
        None => None,
        Some((before, after)) => match word_between(before, after, name) {
            None => None,
            Some(word) => Some(Read { word: Some(word) }),
        },
    }
}

// The name that a side is with this word for its star, or without one. `None` if only one of both has a star.
pub(crate) fn text_with<'side>(
    alloc: Global,
    side: BStr<'side>,
    word: Option<&[u8]>,
) -> Result<Option<NameRef<'side>>, AllocError>
    requires { ¬ (HasSeveralStars (bstr_bytes side)) }
    ensures { IfOk result (λ name. MatchOption name
        ((n : List ℕ) → ¬ (IsText (bstr_bytes side.entry) n (option_map (λ w. w.now) word.entry)))
        (λ name. IsText (bstr_bytes side.entry) (name_bytes name) (option_map (λ w. w.now) word.entry))) }
{
    match split_at_first_star(side.as_bytes()) {
        None => match word {
            None => Ok(Some(NameRef::Borrowed(side))),
            Some(_) => Ok(None),
        },
        Some((before, after)) => match word {
            None => Ok(None),
            Some(word) => {
                let name = joined(alloc, before, word, after)?;
                Ok(Some(NameRef::Owned(name)))
            }
        },
    }
}
