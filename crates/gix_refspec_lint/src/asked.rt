//! The specs that a configured fetch applies.

ghost use Rattle.std.specs.Prelude.{◌≡◌, map, IfOk};
ghost use Rattle.gix_refspec_text.specs.Views.Spec.{reading_of};
ghost use Rattle.gix_refspec_lint.specs.Matching.Lint.{specs_of};
ghost use Rattle.gix_refspec_lint.specs.Views.Lint.{configuration_of};

use super::Configured;
use gix_refspec_text::RefSpecRef;
use std::alloc::{AllocError, Global};

// The values, and behind them the spec of all tags, if these are asked for.
pub(super) fn asked_specs<'spec>(
    alloc: Global,
    fetch: &Configured<'_, 'spec>,
) -> Result<Vec<RefSpecRef<'spec>>, AllocError>
    ensures { IfOk result (λ specs. map reading_of specs.items ≡ specs_of (configuration_of fetch.now)) }
{
    let mut specs = Vec::from_slice(alloc, fetch.values)?;
    if fetch.tags {
        specs.push(RefSpecRef::fetch_of_all_tags())?;
    }
    Ok(specs)
}
