//! The values that a fetch applies.

ghost use Rattle.std.specs.Prelude.{◌≡◌, ◌++◌, map, IfOk};
ghost use Rattle.gix_refspec_text.specs.Views.Spec.{reading_of};
ghost use Rattle.gix_refspec_diff.specs.Matching.Difference.{or_head as or_head_of};

use bstr::BStr;
use gix_refspec_text::RefSpecRef;
use std::alloc::{AllocError, Global};

// The values, or `HEAD` where there are none.
pub(crate) fn or_head<'s>(
    alloc: Global,
    values: &[RefSpecRef<'s>],
) -> Result<Vec<RefSpecRef<'s>>, AllocError>
    ensures { IfOk result (λ all. map reading_of all.items ≡ or_head_of (map reading_of values.now)) }
{
    if !values.is_empty() {
        return Vec::from_slice(alloc, values);
    }
    let mut all = Vec::new(alloc);
    all.push(RefSpecRef::fetch_of(BStr::new(b"HEAD")))?;
    Ok(all)
}

// The values of one list, and then those of the other.
pub(crate) fn joined_lists<'s>(
    alloc: Global,
    one: &[RefSpecRef<'s>],
    other: &[RefSpecRef<'s>],
) -> Result<Vec<RefSpecRef<'s>>, AllocError>
    ensures { IfOk result (λ all. map reading_of all.items ≡ map reading_of one.now ++ map reading_of other.now) }
{
    let mut all = Vec::from_slice(alloc, one)?;
    all.extend_from_slice(other)?;
    Ok(all)
}
