//! Whether specs are valid, and what valid specs do, but hardly anybody wants: a question, its answer, and the report on
//! it. `refspec check` and `git refspec check` ask the same question.

ghost use Rattle.std.specs.Prelude.{map, IfOk, OnOk};
ghost use Rattle.refspec_commands.specs.WarnedViews.{asked_at, said_of, seen_of};
ghost use Rattle.refspec_commands.specs.Warnings.{AddsCheck, IsCheck, IsStatus, IsStrictStatus, WarnsIf};

use crate::specs::report_texts;
use crate::warnings::beside::Beside;
use crate::warnings::{Warning, report_warnings, warnings_of};
use refspec_io::call::Form;
use refspec_io::checked::{Checked, check_all, has_bad};
use refspec_io::report::Report;
use refspec_io::texts::Text;
use refspec_json::SpecKind;
use std::alloc::{AllocError, Global};
use std::collections::BTreeMap;

/// What `check` is asked.
#[derive(Debug, Drop)]
pub struct Question<'q, 'a> {
    /// The texts of specs, in order.
    pub texts: &'q [Text<'a>],
    /// What fetches take besides the values of a key, by this key.
    pub beside: BTreeMap<&'a [u8], Beside<'a>>,
    /// Whether it warns of what valid specs do.
    pub warns: bool,
    /// The form of the report: it has each conflict of a key in JSON, and the first 20 else.
    pub form: Form,
}

/// The answer to a question.
#[derive(Debug, Drop)]
pub struct Answer<'a> {
    /// The texts, each a spec or refused, in order.
    pub checked: Vec<Checked<'a>>,
    /// The warnings on those that are specs.
    pub warnings: Vec<Warning<'a>>,
}

impl Answer<'_> {
    /// The exit status: 1 if a text is refused, else 0.
    pub fn status(&self) -> u8
        ensures { IsStatus self.now result }
    {
        if has_bad(self.checked.as_slice()) {
            1
        } else {
            0
        }
    }

    /// The exit status of a strict call: 1 if a text is refused, or there is a warning, else 0.
    pub fn strict_status(&self) -> u8
        ensures { IsStrictStatus self.now result }
    {
        if self.warnings.is_empty() {
            self.status()
        } else {
            1
        }
    }
}

/// The answer to a question. Fails if memory runs out.
pub fn answer_to<'a>(alloc: Global, question: &Question<'_, 'a>) -> Result<Answer<'a>, AllocError>
    ensures { IfOk result (IsCheck question.now) }
{
    let checked = check_all(alloc, question.texts)?;
    let warnings = warnings_on(alloc, question, checked.as_slice())?;
    Ok(Answer { checked, warnings })
}

// The warnings on checked texts, if the question asks for them.
fn warnings_on<'a>(
    alloc: Global,
    question: &Question<'_, 'a>,
    checked: &[Checked<'a>],
) -> Result<Vec<Warning<'a>>, AllocError>
    ensures { IfOk result (λ found. WarnsIf question.now.warns question.now.form (asked_at question.now.beside)
        (map seen_of checked.now) (map said_of found.items)) }
{
    if question.warns {
        return warnings_of(alloc, question.form, checked, &question.beside);
    }
    Ok(Vec::new(alloc))
}

/// Reports the refusals, of each spec what `kind` says, and then the warnings. Fails if memory runs out.
pub fn report_answer(
    alloc: Global,
    kind: Option<SpecKind>,
    answer: &Answer<'_>,
    report: &mut Report,
) -> Result<(), AllocError>
    ensures { OnOk result (AddsCheck kind answer.now report.old report.new) }
{
    report_texts(alloc, kind, answer.checked.as_slice(), report)?;
    report_warnings(alloc, answer.warnings.as_slice(), report)
}
