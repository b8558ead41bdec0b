//! Specs without which a fetch would not fail.

ghost use Rattle.std.specs.Prelude.{◌≡◌, ◌↔◌, ◌<◌, ◌∷◌, [], List, length, map, IfOk, IsTrue, MatchBool, MatchOption};
ghost use Rattle.std.specs.List.{Contains};
ghost use Rattle.bstr.specs.BStr.{bstr_bytes};
ghost use Rattle.bstr.specs.Owned.{bstring_bytes};
ghost use Rattle.gix_refspec_text.specs.Specs.Reading.{Reading};
ghost use Rattle.gix_refspec_text.specs.Matching.Match.{Ref};
ghost use Rattle.gix_refspec_text.specs.Views.Spec.{reading_of};
ghost use Rattle.gix_refspec_match.specs.Matching.Missing.{LacksSource};
ghost use Rattle.gix_refspec_lint.specs.Matching.Lint.{AreValid, IsDispensable, IsRequired};
ghost use Rattle.gix_refspec_lint.specs.Private.Idles.{AreNamed, AreValidOf, IsHadBeside, IsNeverMissing};

use bstr::{BStr, BString};
use gix_refspec::match_group::ref_names::is_ref_name;
use gix_refspec_text::RefSpecRef;
use gix_refspec_text::side::{SideKind, candidates, kind_of};
use std::alloc::{AllocError, Global};

// Whether some remote lacks the source of the spec at an index, and that of no other spec.
pub(super) fn is_required(
    alloc: Global,
    specs: &[RefSpecRef<'_>],
    index: usize,
) -> Result<bool, AllocError>
    requires { index < length specs.now }
    ensures { IfOk result (λ is. MatchBool is
        (IsRequired (map reading_of specs.now) index)
        (IsDispensable (map reading_of specs.now) index)) }
{
    let Some(names) = named_refs(alloc, &specs[index])? else {
        return Ok(false);
    };
    for at in 0..specs.len() {
        if at != index {
            if lacks_with(alloc, &specs[at], names.as_slice())? {
                return Ok(false);
            }
        }
    }
    Ok(true)
}

/// Whether a spec lacks its source wherever no ref has one of these names.
pub fn lacks_with(
    alloc: Global,
    spec: &RefSpecRef<'_>,
    names: &[BString],
) -> Result<bool, AllocError>
    ensures { (r : Reading) → AreNamed r (map bstring_bytes names.now) → IfOk result (λ does. MatchBool does
        ((refs : List Ref) → AreValid refs → LacksSource refs r → LacksSource refs (reading_of spec.now))
        (IsHadBeside (reading_of spec.now) (map bstring_bytes names.now))) }
{
    let Some(named) = named_refs(alloc, spec)? else {
        return Ok(false);
    };
    for name in &named {
        if !contains(names, name.as_bstr()) {
            return Ok(false);
        }
    }
    Ok(true)
}

/// The refs that a positive spec without a star names: a full name, or the candidates of a partial one that are valid. `None` of
/// any other spec, whose source is never missing.
pub fn named_refs(alloc: Global, spec: &RefSpecRef<'_>) -> Result<Option<Vec<BString>>, AllocError>
    ensures { IfOk result (λ names. MatchOption names
        (IsNeverMissing (reading_of spec.now))
        (λ list. AreNamed (reading_of spec.now) (map bstring_bytes list.items))) }
{
    let Some(side) = spec.source() else {
        return Ok(None);
    };
    if spec.is_negative() {
        return Ok(None);
    }
    match kind_of(side.as_bytes()) {
        SideKind::Pattern { .. } => Ok(None),
        SideKind::Object(_) => Ok(None),
        SideKind::FullName(_) => Ok(Some(valid_names(alloc, one_name(alloc, side)?)?)),
        SideKind::Partial(name) => Ok(Some(valid_names(alloc, candidates(alloc, name)?)?)),
    }
}

fn one_name(alloc: Global, name: BStr<'_>) -> Result<Vec<BString>, AllocError>
    ensures { IfOk result (λ names. map bstring_bytes names.items ≡ bstr_bytes name.entry ∷ []) }
{
    let mut names = Vec::new(alloc);
    names.push(BString::from_slice(alloc, name)?)?;
    Ok(names)
}

// Those of the names that are valid names of refs.
pub(super) fn valid_names(alloc: Global, names: Vec<BString>) -> Result<Vec<BString>, AllocError>
    ensures { IfOk result (λ valid. AreValidOf (map bstring_bytes names.items) (map bstring_bytes valid.items)) }
{
    let mut valid = Vec::new(alloc);
    for name in names {
        if is_ref_name(name.as_bstr().as_bytes()) {
            valid.push(name)?;
        }
    }
    Ok(valid)
}

/// Whether a list has a name.
pub fn contains(names: &[BString], name: BStr<'_>) -> bool
    ensures { IsTrue result ↔ Contains (map bstring_bytes names.now) (bstr_bytes name.entry) }
{
    for one in names {
        if one.as_bstr() == name {
            return true;
        }
    }
    false
}
