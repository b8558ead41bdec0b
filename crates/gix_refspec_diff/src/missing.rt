//! Sources because of which a fetch by one list alone fails.

ghost use Rattle.std.specs.Prelude.{◌<◌, List, length, map, IfOk, MatchBool};
ghost use Rattle.bstr.specs.Owned.{bstring_bytes};
ghost use Rattle.gix_refspec_text.specs.Specs.Reading.{Reading};
ghost use Rattle.gix_refspec_text.specs.Views.Spec.{reading_of};
ghost use Rattle.gix_refspec_lint.specs.Private.Idles.{AreNamed};
ghost use Rattle.gix_refspec_diff.specs.Matching.Difference.{AreLackedAlone, LacksAlone};
ghost use Rattle.gix_refspec_diff.specs.Private.Searches.{AreHadBeside, AreKnown, LacksToo};

use crate::lists::known_in;
use bstr::BString;
use gix_refspec_lint::required::{lacks_with, named_refs};
use gix_refspec_match::duplicates::is_flagged;
use gix_refspec_text::RefSpecRef;
use std::alloc::{AllocError, Global};

// The indexes of the values of one list that on some remote are the first to lack their source, where no value of the
// other list lacks one.
pub(crate) fn lacked_alone(
    alloc: Global,
    one: &[RefSpecRef<'_>],
    other: &[RefSpecRef<'_>],
) -> Result<Vec<usize>, AllocError>
    ensures { IfOk result (λ lacked. AreLackedAlone (map reading_of one.now) (map reading_of other.now) lacked.items) }
{
    let is_known = known_in(alloc, one, other)?;
    let mut lacked = Vec::new(alloc);
    for index in 0..one.len() {
        if is_lacked_alone(alloc, one, other, is_known.as_slice(), index)? {
            lacked.push(index)?;
        }
    }
    Ok(lacked)
}

// Whether the value at an index is one of them, if it is known which values have the sides of others.
fn is_lacked_alone(
    alloc: Global,
    one: &[RefSpecRef<'_>],
    other: &[RefSpecRef<'_>],
    is_known: &[bool],
    index: usize,
) -> Result<bool, AllocError>
    requires within { index < length one.now }
    requires known { AreKnown (map reading_of one.now) (map reading_of other.now) is_known.now }
    ensures { IfOk result (λ is. MatchBool is
        (LacksAlone (map reading_of one.now) (map reading_of other.now) index)
        (¬ (LacksAlone (map reading_of one.now) (map reading_of other.now) index))) }
{
    if is_flagged(is_known, index) {
        return Ok(false);
    }
    let Some(names) = named_refs(alloc, &one[index])? else {
        return Ok(false);
    };
    if lacks_any(alloc, &one[..index], names.as_slice())? {
        return Ok(false);
    }
    if lacks_any(alloc, other, names.as_slice())? {
        return Ok(false);
    }
    Ok(true)
}

// Whether some value lacks its source wherever no ref has one of these names.
fn lacks_any(alloc: Global, specs: &[RefSpecRef<'_>], names: &[BString]) -> Result<bool, AllocError>
    ensures { (r : Reading) → AreNamed r (map bstring_bytes names.now) → IfOk result (λ does. MatchBool does
        (LacksToo r (map reading_of specs.now))
        (AreHadBeside (map reading_of specs.now) (map bstring_bytes names.now))) }
{
    for spec in specs {
        if lacks_with(alloc, spec, names)? {
            return Ok(true);
        }
    }
    Ok(false)
}
