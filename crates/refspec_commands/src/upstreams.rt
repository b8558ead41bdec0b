//! The tracking refs that Git takes for the upstreams of branches: a question, its answer, and the report on it; and
//! what `refspec upstream` asks.

ghost use Rattle.std.specs.Prelude.{map, IfOk};
ghost use Rattle.std.specs.List.{AllZip};
ghost use Rattle.bstr.specs.BStr.{bstr_bytes};
ghost use Rattle.gix_refspec.specs.Views.Spec.{reading_of};
ghost use Rattle.refspec_commands.specs.Upstreams.{AddsUpstreams, IsAsked};

mod advice;
pub mod answer;
pub mod question;
pub mod report;

use crate::upstreams::answer::answer_to;
use crate::upstreams::question::{Merged, Question, Setup};
use crate::upstreams::report::report_answer;
use bstr::BStr;
use gix_refspec::RefSpecRef;
use refspec_io::report::Report;
use std::alloc::{AllocError, Global};

/// Reports the upstreams of branches that merge refs of these names, by these specs. Returns whether one has none.
pub(crate) fn report_upstreams(
    alloc: Global,
    names: &[BStr<'_>],
    specs: &[RefSpecRef<'_>],
    report: &mut Report,
) -> Result<bool, AllocError>
    ensures { IfOk result (λ refused. AddsUpstreams report.old.form (map bstr_bytes names.now) refused
        (map reading_of specs.now) report.old.results.items report.new.results.items) }
{
    let question = Question {
        merged: merged_refs(alloc, names, specs)?,
    };
    let answer = answer_to(alloc, &question)?;
    report_answer(alloc, &answer, report)?;
    Ok(answer.status() > 0)
}

// The merged refs of these names, whose branches and remote have no names.
fn merged_refs<'q, 'spec>(
    alloc: Global,
    names: &[BStr<'q>],
    specs: &'q [RefSpecRef<'spec>],
) -> Result<Vec<Merged<'q, 'spec>>, AllocError>
    ensures { IfOk result (λ merged. AllZip (IsAsked (map reading_of specs.now)) (map bstr_bytes names.now)
        merged.items) }
{
    let mut merged = Vec::with_capacity(alloc, names.len())?;
    for name in names {
        merged.push(Merged {
            branch: None,
            remote: None,
            specs,
            name: name.as_bytes(),
            setup: Setup::Remote,
        })?;
    }
    Ok(merged)
}
