//! What `git fetch --prefetch` applies in place of specs: the answer, and the report on it.

ghost use Rattle.std.specs.Prelude.{◌≡◌, false, map, IfOk};
ghost use Rattle.gix_refspec.specs.Views.Spec.{reading_of};
ghost use Rattle.refspec_commands.specs.Prefetches.{AddsPrefetches};

pub mod answer;
pub mod report;

use crate::prefetches::answer::answer_to;
use crate::prefetches::report::report_answer;
use gix_refspec::RefSpecRef;
use refspec_io::report::Report;
use std::alloc::{AllocError, Global};

/// Reports what a prefetch applies in place of specs. Nothing is refused.
pub(crate) fn report_prefetches(
    alloc: Global,
    specs: &[RefSpecRef<'_>],
    report: &mut Report,
) -> Result<bool, AllocError>
    ensures { IfOk result (λ refused. (refused ≡ false) × AddsPrefetches report.old.form (map reading_of specs.now)
        report.old.results.items report.new.results.items) }
{
    let all = answer_to(alloc, specs)?;
    report_answer(alloc, all.as_slice(), report)?;
    Ok(false)
}
