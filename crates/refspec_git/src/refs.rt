//! How the arguments of `git refspec track` name refs, and which refs exist.

ghost use Rattle.std.specs.Prelude.{◌≡◌, ◌≢◌, ◌⊎◌, ◌↔◌, ◌++◌, ◌∷◌, [], List, IfOk, IsTrue, OnOk, ℕ};
ghost use Rattle.refspec_git.specs.Refs.{AreExisting, AreRefs, IsExpression, IsLookedUp, IsMeant, IsRef, IsSuffixed};

use bstr::BStr;
use gix_refspec::name;
use refspec_io::input::records;
use refspec_request::choice::{begins_with, has_word};
use refspec_request::settings::split_at_first;
use std::alloc::{AllocError, Global};
use std::collections::BTreeMap;

/// How an argument names a ref.
#[derive(Clone, Copy, Debug, PartialEq, Eq)]
pub enum Meaning {
    /// By its full name.
    Full,
    /// By a partial name, which Git completes to candidates.
    Short,
    /// By an expression that Git resolves, as `HEAD` and `main@{upstream}`.
    Expression,
    /// By an invalid ref name.
    Bad,
}

/// How an argument names a ref.
pub fn meaning_of(argument: &[u8]) -> Meaning
    ensures { IsMeant argument.now result }
{
    if is_expression(argument) {
        return Meaning::Expression;
    }
    if !is_ref(argument) {
        return Meaning::Bad;
    }
    if begins_with(argument, b"refs/") {
        return Meaning::Full;
    }
    Meaning::Short
}

// Whether Git resolves an argument.
fn is_expression(argument: &[u8]) -> bool
    ensures { IsTrue result ↔ IsExpression argument.now }
{
    argument == b"HEAD".as_slice() || argument == b"@".as_slice() || is_suffixed(argument)
}

// Whether an argument has `@{`, is in one line, and isn't an option.
fn is_suffixed(argument: &[u8]) -> bool
    ensures { IsTrue result ↔ IsSuffixed argument.now }
{
    has_word(argument, b"@{") && !begins_with(argument, b"-") && !has_word(argument, b"\n")
}

/// Whether an argument is a ref name that no option looks like.
pub fn is_ref(argument: &[u8]) -> bool
    ensures { IsTrue result ↔ IsRef argument.now }
{
    name::name_partial(BStr::new(argument)).is_ok() && !begins_with(argument, b"-")
}

/// The existing refs, each with its target; empty if it isn't symbolic.
pub type Existing<'a> = BTreeMap<&'a [u8], &'a [u8]>;

/// The refs in the lines of `git for-each-ref`: of each its name, a space, and the target of a symbolic ref. Other
/// lines are passed over.
pub fn existing_of<'a>(alloc: Global, lines: &'a [u8]) -> Result<Existing<'a>, AllocError>
    ensures { IfOk result (λ existing. AreExisting lines.entry.now existing) }
{
    let mut existing = BTreeMap::new(alloc);
    for line in &records(alloc, lines, b'\n')? {
        add_ref(&mut existing, line)?;
    }
    Ok(existing)
}

// Adds the ref in a line, if it has one.
fn add_ref<'a>(existing: &mut Existing<'a>, line: &'a [u8]) -> Result<(), AllocError>
    ensures { (lines : List (List ℕ)) → AreRefs lines existing.old → OnOk result
        (AreRefs (lines ++ line.entry.now ∷ []) existing.new) }
{
    let Some((name, target)) = split_at_first(line, b' ') else {
        return Ok(());
    };
    existing.insert(name, target)?;
    Ok(())
}

/// The target of a symbolic ref, or the ref itself.
pub fn looked_up<'a>(name: &'a [u8], existing: &'a Existing<'_>) -> &'a [u8]
    ensures { IsLookedUp existing.now name.entry.now result.now }
{
    match existing.get(name) {
        None => name,
        Some(target) => target_or(target, name),
    }
}

// The target of a ref, or its name if it isn't symbolic.
fn target_or<'a>(target: &'a [u8], name: &'a [u8]) -> &'a [u8]
    ensures { ((target.entry.now ≡ []) × (result.now ≡ name.entry.now))
        ⊎ ((target.entry.now ≢ []) × (result.now ≡ target.entry.now)) }
{
    if target.is_empty() { name } else { target }
}
