//! What `git remote rename` makes of fetch values: the answer, and the report on it.

ghost use Rattle.std.specs.Prelude.{map, IfOk};
ghost use Rattle.refspec_io.specs.Texts.{given_of};
ghost use Rattle.refspec_commands.specs.Renames.{AddsRenamed};

pub mod answer;
pub mod report;

use crate::renames::answer::{Renaming, answer_to, has_unchanged};
use crate::renames::report::report_answer;
use refspec_io::call::Call;
use refspec_io::report::Report;
use refspec_io::texts::Text;
use std::alloc::{AllocError, Global};

/// Reports what the renaming of a call makes of values. Returns whether Git leaves some as they are.
pub(crate) fn report_renames(
    alloc: Global,
    call: &Call<'_>,
    texts: &[Text<'_>],
    report: &mut Report,
) -> Result<bool, AllocError>
    ensures { IfOk result (λ left. AddsRenamed call.now.remote.now call.now.new_remote.now report.old.form
        (map given_of texts.now) left report.old.results.items report.new.results.items) }
{
    let renaming = Renaming {
        old: call.remote.as_bytes(),
        new: call.new_remote.as_bytes(),
    };
    let values = answer_to(alloc, renaming, texts)?;
    report_answer(alloc, renaming, values.as_slice(), report)?;
    Ok(has_unchanged(values.as_slice()))
}
