//! The specs in the arguments of a call.

ghost use Rattle.std.specs.Prelude.{◌≡◌, map, IfErr, IfOk};
ghost use Rattle.refspec_git.specs.Wanted.{AreSpecs, RefusesGiven, tag_spec};

use crate::answer::Stop;
use crate::texts::utf8;
use refspec_request::refusal::Refusal;
use std::alloc::{AllocError, Global};

/// The specs in arguments. `tag NAME` is `refs/tags/NAME:refs/tags/NAME`, as on the command line of `git fetch`.
/// Refuses an argument that isn't UTF-8, and a last `tag` without a name. Fails if memory runs out.
pub fn given_specs<'a>(alloc: Global, arguments: &[&'a [u8]]) -> Result<Vec<String>, Stop<'a>>
    ensures ok { IfOk result (λ specs.
        AreSpecs (map (λ a. a.now) arguments.now) (map (λ t. t.bytes.items) specs.items)) }
    ensures refused { IfErr result (RefusesGiven (map (λ a. a.now) arguments.now)) }
{
    let mut specs = Vec::with_capacity(alloc, arguments.len())?;
    let mut is_tag = false;
    for argument in arguments {
        let text = utf8(argument)?;
        if is_tag {
            specs.push(tag_spec(alloc, text)?)?;
            is_tag = false;
        } else if text == "tag" {
            is_tag = true;
        } else {
            specs.push(String::from_str(alloc, text)?)?;
        }
    }
    if is_tag {
        return Err(Stop::Refused(Refusal::NoTagName));
    }
    Ok(specs)
}

// The spec of a tag.
fn tag_spec(alloc: Global, name: &str) -> Result<String, AllocError>
    ensures { IfOk result (λ spec. spec.bytes.items ≡ tag_spec name.now) }
{
    let mut spec = String::from_str(alloc, "refs/tags/")?;
    spec.push_str(name)?;
    spec.push_str(":refs/tags/")?;
    spec.push_str(name)?;
    Ok(spec)
}
