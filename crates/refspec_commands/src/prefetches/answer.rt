//! What a prefetch applies in place of specs.

ghost use Rattle.std.specs.Prelude.{map, IfOk};
ghost use Rattle.std.specs.List.{AllZip};
ghost use Rattle.gix_refspec.specs.Views.Spec.{reading_of};
ghost use Rattle.refspec_commands.specs.Prefetches.{IsApplied};

use bstr::BString;
use gix_refspec::RefSpecRef;
use gix_refspec_remote::prefetched;
use std::alloc::{AllocError, Global};

/// A spec, and what a prefetch applies in place of it.
#[derive(Debug, Drop)]
pub struct Applied {
    /// The canonical text of the spec.
    pub text: BString,
    /// The text that is applied; `None` if the spec is ignored.
    pub applied: Option<BString>,
}

/// The answer for specs, in order. Fails if memory runs out.
pub fn answer_to(alloc: Global, specs: &[RefSpecRef<'_>]) -> Result<Vec<Applied>, AllocError>
    ensures { IfOk result (λ all. AllZip IsApplied (map reading_of specs.now) all.items) }
{
    let mut all = Vec::with_capacity(alloc, specs.len())?;
    for spec in specs {
        all.push(applied_for(alloc, spec)?)?;
    }
    Ok(all)
}

// What a prefetch applies in place of a spec.
fn applied_for(alloc: Global, spec: &RefSpecRef<'_>) -> Result<Applied, AllocError>
    ensures { IfOk result (IsApplied (reading_of spec.now)) }
{
    let text = spec.to_bstring(alloc)?;
    let applied = prefetched(alloc, spec)?;
    Ok(Applied { text, applied })
}
