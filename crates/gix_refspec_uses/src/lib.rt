//! What a caller can prove about refspecs, from the public definitions, contracts, laws and lemmas of
//! `gix_refspec` alone.
//!
//! Unless memory runs out, `parse` accepts exactly the texts of the grammar, two specs are equal
//! exactly if they are for one operation and print the same, and the printed text of a spec is read as
//! an equal spec. The modules gather groups, plan a fetch, look up tracking branches, and match only
//! the refs listed for the ref prefixes of a group.
#![tactic(auto)]

ghost use Rattle.std.specs.Prelude.{◌≡◌, ◌≢◌, ◌↔◌, IsTrue, IfOk, OnOk, OnErr, MatchOption};
ghost use Rattle.bstr.specs.BStr.{bstr_bytes};
ghost use Rattle.bstr.specs.Owned.{bstring_bytes};
ghost use Rattle.gix_refspec.specs.Specs.Refusal.{MayNeedMemory};
ghost use Rattle.gix_refspec.specs.Views.Spec.{reading_of, owned_reading_of};
ghost use Rattle.gix_refspec_uses.specs.Claims.{branches_of_origin, clone_text, IsRefspec, ReadsOnlyAs, PrintsSame, IsReadAgain, IsCanonicalText};

pub mod asking;
pub mod gather;
pub mod planner;
pub mod tracking;

use bstr::{BStr, BString};
use gix_refspec::parsing::{Error, Operation};
use gix_refspec::{RefSpec, RefSpecRef, laws, parse};
use std::alloc::{AllocError, Global};

/// Reads a text for an operation. `None` exactly if it isn't a refspec. Fails if memory runs out, which
/// can only happen for a side with several stars, or with one star and more than 256 bytes.
pub fn read<'a>(
    alloc: Global,
    text: BStr<'a>,
    operation: Operation,
) -> Result<Option<RefSpecRef<'a>>, AllocError>
    ensures ok { IfOk result (λ read. MatchOption read
        (¬ (IsRefspec operation (bstr_bytes text.entry)))
        (λ spec. ReadsOnlyAs operation (bstr_bytes text.entry) (reading_of spec))) }
    ensures memory { OnErr result (MayNeedMemory operation (bstr_bytes text.entry)) }
{
    laws::reads_or_refused(operation, text.as_bytes());
    match parse(alloc, text, operation) {
        Ok(spec) => Ok(Some(spec)),
        Err(error) => {
            unless_memory(&error)?;
            Ok(None)
        }
    }
}

/// The spec that `git clone` writes for a remote named `origin`: each branch, forced, to its tracking ref.
/// Fails only if [`read`] may need memory for its text.
pub fn clone_spec(alloc: Global) -> Result<RefSpecRef<'static>, AllocError>
    ensures ok { IfOk result (λ spec. reading_of spec ≡ branches_of_origin) }
    ensures memory { OnErr result (MayNeedMemory Operation.Fetch clone_text) }
{
    let text = BStr::new(b"+refs/heads/*:refs/remotes/origin/*");
    match read(alloc, text, Operation::Fetch)? {
        Some(spec) => Ok(spec),
        None => unreachable!(),
    }
}

// Fails if the error is `Memory`.
fn unless_memory(error: &Error) -> Result<(), AllocError>
    ensures ok { OnOk result (error.now ≢ Error.Memory) }
    ensures err { OnErr result (error.now ≡ Error.Memory) }
{
    match error {
        Error::Memory => Err(AllocError),
        _ => Ok(()),
    }
}

/// Whether two specs are for one operation and print the same text: the same as `==`. Fails if memory
/// runs out.
pub fn same_text<'a>(
    alloc: Global,
    a: &RefSpecRef<'a>,
    b: &RefSpecRef<'a>,
) -> Result<bool, AllocError>
    ensures equal { IfOk result (λ same. same ≡ ⟦<RefSpecRef<'a> as PartialEq>⟧.eq a.now b.now) }
    ensures text { IfOk result (λ same. IsTrue same ↔
        PrintsSame (reading_of a.now) (reading_of b.now)) }
{
    laws::equal_specs(a, b);
    laws::says_for_operation(a);
    laws::says_for_operation(b);
    let one_operation = a.instruction().operation() == b.instruction().operation();
    let text_of_a = a.to_bstring(alloc)?;
    let text_of_b = b.to_bstring(alloc)?;
    Ok(one_operation && text_of_a.as_bytes() == text_of_b.as_bytes())
}

/// As [`same_text`], of owned specs.
pub fn same_owned_text(alloc: Global, a: &RefSpec, b: &RefSpec) -> Result<bool, AllocError>
    ensures equal { IfOk result (λ same. same ≡ ⟦<RefSpec as PartialEq>⟧.eq a.now b.now) }
    ensures text { IfOk result (λ same. IsTrue same ↔
        PrintsSame (owned_reading_of a.now) (owned_reading_of b.now)) }
{
    same_text(alloc, &a.to_ref(), &b.to_ref())
}

/// Prints a spec, and reads the text again for its operation. Returns an equal spec that owns its
/// sides. Fails only if memory runs out: the text is never refused.
pub fn reread(alloc: Global, spec: &RefSpecRef<'_>) -> Result<RefSpec, AllocError>
    ensures { IfOk result (λ again. IsReadAgain (reading_of spec.now) (owned_reading_of again)) }
{
    laws::spec_reads_back(spec);
    laws::says_for_operation(spec);
    let text = spec.to_bstring(alloc)?;
    match read(alloc, text.as_bstr(), spec.instruction().operation())? {
        Some(again) => {
            laws::equal_specs(&again, spec);
            again.to_owned(alloc)
        }
        None => unreachable!(),
    }
}

/// As [`reread`], of an owned spec.
pub fn reread_owned(alloc: Global, spec: &RefSpec) -> Result<RefSpec, AllocError>
    ensures equal { IfOk result (λ again. IsTrue (⟦<RefSpec as PartialEq>⟧.eq again spec.now)) }
    ensures text { IfOk result (λ again.
        IsReadAgain (owned_reading_of spec.now) (owned_reading_of again)) }
{
    let again = reread(alloc, &spec.to_ref())?;
    laws::equal_owned_specs(&again, spec);
    Ok(again)
}

/// The canonical text of a refspec, which is its own canonical text. `None` exactly if the text isn't a
/// refspec. Fails if memory runs out.
pub fn canonical(
    alloc: Global,
    text: BStr<'_>,
    operation: Operation,
) -> Result<Option<BString>, AllocError>
    ensures { IfOk result (λ made. MatchOption made
        (¬ (IsRefspec operation (bstr_bytes text.entry)))
        (λ c. IsCanonicalText operation (bstr_bytes text.entry) (bstring_bytes c))) }
{
    laws::reads_back(operation, text.as_bytes());
    match read(alloc, text, operation)? {
        Some(spec) => Ok(Some(spec.to_bstring(alloc)?)),
        None => Ok(None),
    }
}

#[cfg(test)]
mod tests;
