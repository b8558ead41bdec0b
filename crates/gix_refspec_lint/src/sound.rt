//! What one spec maps with valid sides.

ghost use Rattle.std.specs.Prelude.{List, ℕ, Option, map, IfOk, MatchOption};
ghost use Rattle.gix_refspec_text.specs.Views.Spec.{reading_of};
ghost use Rattle.gix_refspec_match.specs.Views.Mapping.{mapped_of, ref_of, start_of};
ghost use Rattle.gix_refspec_lint.specs.Private.Idles.{MakesSoundly};

use super::group::same_source;
use gix_refspec::match_group::{Item, Mapping, SourceRef};
use gix_refspec_match::match_forward;
use gix_refspec_plan::mapped::is_sound;
use gix_refspec_text::RefSpecRef;
use std::alloc::{AllocError, Global};

/// A mapping of the source among the items by the spec, whatever others do, whose sides are valid.
pub fn sound_mapping<'item, 's>(
    alloc: Global,
    spec: RefSpecRef<'s>,
    items: &[Item<'item>],
    source: &SourceRef<'_>,
) -> Result<Option<Mapping<'item, 's>>, AllocError>
    ensures { IfOk result (λ found. MatchOption found
        ((d : Option (List ℕ)) → ¬ (MakesSoundly (map ref_of items.now) (start_of source.now) d (reading_of spec.entry)))
        (λ m. MakesSoundly (map ref_of items.now) (start_of source.now) (mapped_of m).destination (reading_of spec.entry))) }
{
    let specs = [spec];
    for mapping in match_forward(alloc, specs.as_slice(), items)? {
        if same_source(&mapping.lhs, source) && is_sound(&mapping) {
            return Ok(Some(mapping));
        }
    }
    Ok(None)
}
