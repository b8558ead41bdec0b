//! The mappings that a fetch can write, or the conflicts that prevent it.

ghost use Rattle.std.specs.Prelude.{map, IfOk, IfErr};
ghost use Rattle.gix_refspec.specs.Views.Group.{readings_of, ref_of};
ghost use Rattle.refspec_map.specs.Fault.{IsMemory};
ghost use Rattle.refspec_map.specs.Plan.{IsPlan};

use crate::fault::Fault;
use crate::output::{append_fixes, lines_of};
use gix_refspec::match_group::Item;
use gix_refspec::match_group::validate::Refusal;
use gix_refspec::{MatchGroup, laws};
use std::alloc::Global;

/// The lines of the conflicts among the mappings from left to right, and true; without conflicts the
/// lines of the remaining mappings and of the fixes, and false.
pub(crate) fn plan(
    alloc: Global,
    group: MatchGroup<'_>,
    items: &[Item<'_>],
) -> Result<(Vec<u8>, bool), Fault>
    ensures ok { IfOk result (λ made. IsPlan
        (readings_of group.entry) (map ref_of items.now) made.0.items made.1) }
    ensures err { IfErr result IsMemory }
{
    let outcome = group.match_lhs(alloc, items)?;
    laws::forward_fits(&outcome.group, items);
    match outcome.validated(alloc) {
        Ok((valid, fixes)) => {
            let mut lines = lines_of(alloc, valid.mappings.as_slice())?;
            append_fixes(&mut lines, fixes.as_slice())?;
            Ok((lines, false))
        }
        Err(Refusal::Conflicts(error)) => { Ok((lines_of(alloc, error.issues.as_slice())?, true)) }
        Err(Refusal::Memory(_)) => Err(Fault::Memory),
    }
}
