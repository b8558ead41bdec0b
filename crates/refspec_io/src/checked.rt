//! Texts, each read as a spec or refused.

ghost use Rattle.std.specs.Prelude.{◌∷◌, [], map, IfOk, MatchBool, MatchOption};
ghost use Rattle.std.specs.List.{AllZip};
ghost use Rattle.gix_refspec.specs.Views.Spec.{reading_of};
ghost use Rattle.refspec_io.specs.Read.{AreGood, HasBad, IsChecked, IsSpec};

use crate::texts::Text;
use bstr::BStr;
use gix_refspec::parsing::Error;
use gix_refspec::{RefSpecRef, parse};
use std::alloc::{AllocError, Global};

/// The result of parsing a text.
#[derive(Debug, Drop)]
pub enum Checked<'a> {
    /// The text is this spec.
    Good {
        text: Text<'a>,
        spec: RefSpecRef<'a>,
    },
    /// The text is refused for this reason, which is never `Error::Memory`.
    Bad {
        text: Text<'a>,
        error: Error,
    },
}

/// Parses each text, in order. Fails only if memory runs out: a refused text is a `Bad` one.
pub fn check_all<'a>(alloc: Global, texts: &[Text<'a>]) -> Result<Vec<Checked<'a>>, AllocError>
    ensures { IfOk result (λ all. AllZip IsChecked texts.now all.items) }
{
    let mut all = Vec::with_capacity(alloc, texts.len())?;
    for text in texts {
        all.push(check(alloc, *text)?)?;
    }
    Ok(all)
}

// Parses a text. Running out of memory is an error here, and never a refusal.
fn check(alloc: Global, text: Text<'_>) -> Result<Checked<'_>, AllocError>
    ensures { IfOk result (IsChecked text.entry) }
{
    match parse(alloc, BStr::new(text.bytes), text.operation) {
        Ok(spec) => Ok(Checked::Good { text, spec }),
        Err(error) => {
            if matches!(error, Error::Memory) {
                return Err(AllocError);
            }
            Ok(Checked::Bad { text, error })
        }
    }
}

/// Whether some text is refused.
pub fn has_bad(all: &[Checked<'_>]) -> bool
    ensures { MatchBool result (HasBad all.now) (AreGood all.now) }
{
    for checked in all {
        if is_bad(checked) {
            return true;
        }
    }
    false
}

fn is_bad(checked: &Checked<'_>) -> bool
    ensures { MatchBool result (HasBad (checked.now ∷ [])) (AreGood (checked.now ∷ [])) }
{
    match checked {
        Checked::Good { .. } => false,
        Checked::Bad { .. } => true,
    }
}

/// The specs of the checked texts, in order, or `None` if some text is refused.
pub fn all_good<'a>(
    alloc: Global,
    all: &[Checked<'a>],
) -> Result<Option<Vec<RefSpecRef<'a>>>, AllocError>
    ensures { IfOk result (λ good. MatchOption good (HasBad all.now)
        (λ specs. AllZip IsSpec all.now (map reading_of specs.items))) }
{
    let mut specs = Vec::with_capacity(alloc, all.len())?;
    for checked in all {
        match checked {
            Checked::Good { spec, .. } => specs.push(*spec)?,
            Checked::Bad { .. } => return Ok(None),
        }
    }
    Ok(Some(specs))
}
