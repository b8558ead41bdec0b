//! The canonical texts of specs.

ghost use Rattle.std.specs.Prelude.{◌≡◌, [], IfOk, map, unwrap_or};
ghost use Rattle.std.specs.List.{slice_get};
ghost use Rattle.bstr.specs.Owned.{bstring_bytes};
ghost use Rattle.gix_refspec.specs.Views.Spec.{reading_of};
ghost use Rattle.refspec_io.specs.Rows.{AreSpecTexts};

use bstr::BString;
use gix_refspec::RefSpecRef;
use std::alloc::{AllocError, Global};

/// The canonical texts of specs, in order.
pub fn canonical_texts(alloc: Global, specs: &[RefSpecRef<'_>]) -> Result<Vec<BString>, AllocError>
    ensures { IfOk result (λ texts. AreSpecTexts
        (map reading_of specs.now) (map bstring_bytes texts.items)) }
{
    let mut texts = Vec::with_capacity(alloc, specs.len())?;
    for spec in specs {
        texts.push(spec.to_bstring(alloc)?)?;
    }
    Ok(texts)
}

/// The text at an index, or an empty text if the index is out of bounds.
pub fn text_at(texts: &[BString], index: usize) -> &[u8]
    ensures { result.now ≡ unwrap_or (slice_get (map bstring_bytes texts.now) index) [] }
{
    match texts.get(index) {
        Some(text) => text.as_bytes(),
        None => b"",
    }
}
