//! What negative specs do with a name.

ghost use Rattle.std.specs.Prelude.{◌≡◌, List, map, MatchOption};
ghost use Rattle.gix_refspec_text.specs.Matching.Match.{Ref};
ghost use Rattle.gix_refspec_text.specs.Specs.Reading.{Negative};
ghost use Rattle.gix_refspec_text.specs.Views.Spec.{reading_of};
ghost use Rattle.gix_refspec_match.specs.Matching.Mappings.{IsExcluded};
ghost use Rattle.gix_refspec_why.specs.Matching.Why.{IsFirstExclusion};
ghost use Rattle.gix_refspec_why.specs.Private.Attempts.{HasOwnFate};

use crate::sources::pattern_mismatch;
use crate::{ExcludedBy, Fate, Mismatch, StarWord};
use gix_refspec_match::needle::word_between;
use gix_refspec_text::RefSpecRef;
use gix_refspec_text::side::{SideKind, kind_of};

// What a negative spec does with a name.
pub(crate) fn exclusion_fate(spec: &RefSpecRef<'_>, name: &[u8]) -> Fate
    requires { (reading_of spec.now).mode ≡ Negative }
    ensures { (refs : List Ref) → HasOwnFate refs (reading_of spec.now) name.now result }
{
    let Some(source) = spec.source() else {
        return Fate::Unmatched(Mismatch::NoSource);
    };
    let source = source.as_bytes();
    let SideKind::Pattern { before, after } = kind_of(source) else {
        if source == name {
            return Fate::Excludes(None);
        }
        return Fate::Unmatched(Mismatch::OtherName);
    };
    match word_between(before, after, name) {
        None => Fate::Unmatched(pattern_mismatch(before, after, name)),
        Some(word) => Fate::Excludes(Some(StarWord {
            start: before.len(),
            len: word.len(),
        })),
    }
}

// The first negative spec that excludes a name.
pub(crate) fn first_exclusion(specs: &[RefSpecRef<'_>], name: &[u8]) -> Option<ExcludedBy>
    ensures { MatchOption result (¬ (IsExcluded (map reading_of specs.now) name.now))
        (IsFirstExclusion (map reading_of specs.now) name.now) }
{
    for (spec_index, spec) in specs.iter().enumerate() {
        if spec.is_negative() {
            if let Fate::Excludes(word) = exclusion_fate(spec, name) {
                return Some(ExcludedBy { spec_index, word });
            }
        }
    }
    None
}
