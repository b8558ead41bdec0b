//! The refs because of which partial names don't take a source.

ghost use Rattle.std.specs.Prelude.{◌<◌, ◌⊎◌, List, length, map, IfOk, MatchBool, OnOk};
ghost use Rattle.std.specs.List.{Contains};
ghost use Rattle.bstr.specs.BStr.{bstr_bytes};
ghost use Rattle.bstr.specs.Owned.{bstring_bytes};
ghost use Rattle.gix_refspec_text.specs.Specs.Reading.{Reading};
ghost use Rattle.gix_refspec_text.specs.Views.Spec.{reading_of};
ghost use Rattle.gix_refspec_match.specs.Views.Mapping.{start_of};
ghost use Rattle.gix_refspec.specs.Matching.RefNames.{IsRefName};
ghost use Rattle.gix_refspec_lint.specs.Private.Idles.{AreAllowed};
ghost use Rattle.gix_refspec_diff.specs.Private.Searches.{AddBlockers, AreBlockers, AreListsOf};

use crate::lists::Lists;
use crate::pairs::Case;
use bstr::{BStr, BString};
use gix_refspec::match_group::Source;
use gix_refspec_lint::idle::{candidates_before, is_allowed};
use gix_refspec_lint::required::contains;
use gix_refspec_text::RefSpecRef;
use std::alloc::{AllocError, Global};

// The names of refs that keep the other values from the source, the earlier ones and those of the other list: the
// candidates that these try before it, without those that the value itself tries before it. Each name once.
pub(crate) fn blockers(
    alloc: Global,
    lists: &Lists<'_, '_>,
    case: &Case<'_>,
) -> Result<Vec<BString>, AllocError>
    requires { case.now.index < length lists.now.one.now.specs.now }
    ensures { (g h : List Reading) → AreListsOf g h lists.now → IfOk result (λ names.
        AreBlockers g h case.now.index (start_of case.now.source.now) (map bstring_bytes names.items)) }
{
    let ones = lists.one.specs;
    let away = candidates_before(alloc, &ones[case.index], case.source)?;
    let earlier = &ones[..case.index];
    let others = lists.other.specs;
    let mut names = Vec::new(alloc);
    add_blockers(alloc, &mut names, earlier, case.source, away.as_slice())?;
    add_blockers(alloc, &mut names, others, case.source, away.as_slice())?;
    Ok(names)
}

// Adds the candidates that the specs try before the source, if they are valid and aren't kept away.
pub(crate) fn add_blockers(
    alloc: Global,
    names: &mut Vec<BString>,
    specs: &[RefSpecRef<'_>],
    source: &Source,
    away: &[BString],
) -> Result<(), AllocError>
    ensures { OnOk result (AddBlockers (map reading_of specs.now) (start_of source.now) (map bstring_bytes away.now)
        (map bstring_bytes names.old.items) (map bstring_bytes names.new.items)) }
{
    for spec in specs {
        let before = candidates_before(alloc, spec, source)?;
        add_new(names, before, away)?;
    }
    Ok(())
}

// Adds those names that are valid, aren't kept away and aren't in the list.
fn add_new(
    names: &mut Vec<BString>,
    before: Vec<BString>,
    away: &[BString],
) -> Result<(), AllocError>
    ensures { OnOk result (AreAllowed (map bstring_bytes names.old.items) (map bstring_bytes before.items)
        (map bstring_bytes away.now) (map bstring_bytes names.new.items)) }
{
    for name in before {
        if is_new(name.as_bstr(), names.as_slice(), away) {
            names.push(name)?;
        }
    }
    Ok(())
}

// Whether a name is valid, isn't kept away and isn't in the list.
fn is_new(name: BStr<'_>, names: &[BString], away: &[BString]) -> bool
    ensures { MatchBool result
        (IsRefName (bstr_bytes name.entry) × ¬ (Contains (map bstring_bytes away.now) (bstr_bytes name.entry)))
        (¬ (IsRefName (bstr_bytes name.entry) × ¬ (Contains (map bstring_bytes away.now) (bstr_bytes name.entry)))
        ⊎ Contains (map bstring_bytes names.now) (bstr_bytes name.entry)) }
{
    if !is_allowed(name, away) {
        return false;
    }
    !contains(names, name)
}
