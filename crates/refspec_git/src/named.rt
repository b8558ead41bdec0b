//! The refs that the arguments of `git refspec track` name, and what Git is asked to find them.

ghost use Rattle.std.specs.Prelude.{◌≡◌, ◌≢◌, ◌⊎◌, ◌↔◌, ◌++◌, ◌∷◌, [], IfErr, IfOk, IsTrue, List, MatchBool, MatchOption, OnOk};
ghost use Rattle.std.specs.Prelude.{drop, map, option_map, ℕ};
ghost use Rattle.std.specs.List.{All, AllZip, Any, flat_map};
ghost use Rattle.bstr.specs.Owned.{bstring_bytes};
ghost use Rattle.gix_refspec_text.specs.Matching.Side.{candidates};
ghost use Rattle.refspec_request.specs.Refusals.{IsForMemory};
ghost use Rattle.refspec_git.specs.Named.{AreNames, AreSeen, IsAbove, IsBelow, IsBranchBelow, IsCompleted};
ghost use Rattle.refspec_git.specs.Named.{IsFolder, IsFound, IsNamed, IsNoRef, IsPrinted, RefusesName, RefusesNamed};
ghost use Rattle.refspec_git.specs.Named.{RefusesNaming, asked_lines, first_in, listed_for, name_lines, name_lines_from};
ghost use Rattle.refspec_git.specs.Named.{has_ref, name_printed, needs_name, refs_lines};
ghost use Rattle.refspec_request.specs.declared.refusal.Refusal.TheVariants as refusal;

use crate::answer::{Machine, Stop};
use crate::refs::{Existing, Meaning, existing_of, looked_up, meaning_of};
use bstr::{BString, ByteSlice};
use gix_refspec_text::side::{candidates, joined};
use refspec_commands::tracking::question::Remote;
use refspec_io::fault::Fault;
use refspec_request::ask::{GitCall, name_file};
use refspec_request::choice::begins_with;
use refspec_request::refusal::Refusal;
use std::alloc::{AllocError, Global};
use std::collections::BTreeSet;

/// An argument that names a ref.
#[derive(Debug, Drop)]
pub struct NamedRef<'a> {
    pub argument: &'a [u8],
    pub meaning: Meaning,
    /// What Git printed as the full name of an expression: the name and a newline. `None` before it was asked.
    pub printed: Option<Vec<u8>>,
}

/// What arguments name, in order, with what Git printed so far. Refuses the first that can't name a ref. Fails if a file
/// can't be read, or memory runs out.
pub fn named_in<'a, M: Machine>(
    alloc: Global,
    machine: &M,
    arguments: &[&'a [u8]],
) -> Result<Vec<NamedRef<'a>>, Stop<'a>>
    ensures ok { IfOk result (λ named. AllZip IsNamed arguments.now named.items) }
    ensures refused { IfErr result (RefusesNamed arguments.now) }
{
    let mut named = Vec::with_capacity(alloc, arguments.len())?;
    for (number, argument) in arguments.iter().enumerate() {
        named.push(named_by(alloc, machine, number, argument)?)?;
    }
    Ok(named)
}

// What the argument with an index names.
fn named_by<'a, M: Machine>(
    alloc: Global,
    machine: &M,
    number: usize,
    argument: &'a [u8],
) -> Result<NamedRef<'a>, Stop<'a>>
    ensures ok { IfOk result (IsNamed argument.entry) }
    ensures refused { IfErr result (RefusesName argument.entry) }
{
    let meaning = meaning_of(argument);
    let printed = match meaning {
        Meaning::Bad => return Err(Stop::Refused(Refusal::NoRefName(argument))),
        Meaning::Expression => full_name(alloc, machine, number)?,
        Meaning::Full | Meaning::Short => None,
    };
    Ok(NamedRef {
        argument,
        meaning,
        printed,
    })
}

// What Git printed as the full name for the argument with an index.
fn full_name<M: Machine>(
    alloc: Global,
    machine: &M,
    number: usize,
) -> Result<Option<Vec<u8>>, Fault> {
    let file = name_file(alloc, number)?;
    machine.output(file.as_str())
}

/// The commands that must still run to find the refs that arguments name, as `GitCall::write` writes them: for the full
/// name of each expression, and for the refs that the other arguments may mean. `refs` is what Git printed of these.
/// Fails if memory runs out.
pub fn asked_for(
    alloc: Global,
    named: &[NamedRef<'_>],
    refs: Option<&[u8]>,
) -> Result<Vec<u8>, AllocError>
    ensures { IfOk result (λ asked. asked.items ≡ asked_lines named.now (option_map (λ r. r.now) refs.entry)) }
{
    let mut asked = asked_names(alloc, named)?;
    match refs {
        Some(_) => Ok(asked),
        None => {
            let names = names_to_list(alloc, named)?;
            add_refs(alloc, names.as_slice(), &mut asked)?;
            Ok(asked)
        }
    }
}

// The commands for the full names of expressions.
fn asked_names(alloc: Global, named: &[NamedRef<'_>]) -> Result<Vec<u8>, AllocError>
    ensures { IfOk result (λ asked. asked.items ≡ name_lines_from 0 named.now) }
{
    let mut asked = Vec::new(alloc);
    for (number, one) in named.iter().enumerate() {
        add_name(alloc, number, one, &mut asked)?;
    }
    Ok(asked)
}

// Appends the command for the full name of an argument with an index, if Git is still to be asked for it.
fn add_name(
    alloc: Global,
    number: usize,
    named: &NamedRef<'_>,
    out: &mut Vec<u8>,
) -> Result<(), AllocError>
    ensures { OnOk result (out.new.items ≡ out.old.items ++ name_lines number named.now) }
{
    if !needs_name(named) {
        return Ok(());
    }
    GitCall::FullName(number, named.argument).write(alloc, out)
}

// Whether Git is still to be asked for the full name of an argument.
fn needs_name(named: &NamedRef<'_>) -> bool
    ensures { result ≡ needs_name named.now }
{
    match (named.meaning, &named.printed) {
        (Meaning::Expression, None) => true,
        (Meaning::Expression, Some(_)) => false,
        (Meaning::Full | Meaning::Short | Meaning::Bad, _) => false,
    }
}

// Appends the command for refs of these names, if there are any.
fn add_refs(alloc: Global, names: &[Vec<u8>], out: &mut Vec<u8>) -> Result<(), AllocError>
    ensures { OnOk result (out.new.items ≡ out.old.items ++ refs_lines (map (λ n. n.items) names.now)) }
{
    if names.is_empty() {
        return Ok(());
    }
    GitCall::Refs(names).write(alloc, out)
}

// The names of the refs that arguments may mean.
fn names_to_list(alloc: Global, named: &[NamedRef<'_>]) -> Result<Vec<Vec<u8>>, AllocError>
    ensures { IfOk result (λ names. map (λ n. n.items) names.items ≡ flat_map listed_for named.now) }
{
    let mut names = Vec::with_capacity(alloc, named.len())?;
    for one in named {
        add_listed(alloc, one, &mut names)?;
    }
    Ok(names)
}

// Adds the names of the refs that an argument may mean.
fn add_listed(
    alloc: Global,
    named: &NamedRef<'_>,
    names: &mut Vec<Vec<u8>>,
) -> Result<(), AllocError>
    ensures { OnOk result (map (λ n. n.items) names.new.items
        ≡ map (λ n. n.items) names.old.items ++ listed_for named.now) }
{
    match named.meaning {
        Meaning::Expression | Meaning::Bad => Ok(()),
        Meaning::Full => Ok(names.push(Vec::from_slice(alloc, named.argument)?)?),
        Meaning::Short => add_candidates(alloc, named.argument, names),
    }
}

// Adds the names below `refs/` to which Git completes a partial name.
fn add_candidates(alloc: Global, partial: &[u8], names: &mut Vec<Vec<u8>>) -> Result<(), AllocError>
    ensures { OnOk result (map (λ n. n.items) names.new.items
        ≡ map (λ n. n.items) names.old.items ++ drop 1 (candidates partial.now)) }
{
    let all = candidates(alloc, partial)?;
    for candidate in &all.as_slice()[1..] {
        names.push(Vec::from_slice(alloc, candidate.as_bytes())?)?;
    }
    Ok(())
}

/// The full names of the refs that arguments name, each once, in order. `refs` is what Git printed of these, and the
/// remotes decide where a partial name is that no ref has. Refuses an expression that means no ref. Fails with
/// `Refusal::Memory` if memory runs out.
pub fn names_of<'a>(
    alloc: Global,
    named: &[NamedRef<'a>],
    refs: &[u8],
    remotes: &[Remote<'_>],
) -> Result<Vec<Vec<u8>>, Refusal<'a>>
    ensures ok { IfOk result (λ names. AreNames refs.now remotes.now named.now (map (λ n. n.items) names.items)) }
    ensures refused { IfErr result (RefusesNaming named.now) }
{
    let existing = existing_of(alloc, refs)?;
    let mut names = Names::new(alloc);
    for one in named {
        names.add(alloc, name_of(alloc, one, &existing, remotes)?)?;
    }
    Ok(names.all)
}

// Names without duplicates.
#[derive(Drop)]
struct Names {
    all: Vec<Vec<u8>>,
    // The same.
    seen: BTreeSet<Vec<u8>>,
}

impl Names {
    fn new(alloc: Global) -> Names
        ensures { AreSeen [] result }
    {
        Names {
            all: Vec::new(alloc),
            seen: BTreeSet::new(alloc),
        }
    }

    // Adds a name, unless it is there.
    fn add(&mut self, alloc: Global, name: Vec<u8>) -> Result<(), AllocError>
        ensures { (all : List (List ℕ)) → AreSeen all self.old → OnOk result (AreSeen (all ++ name.items ∷ []) self.new) }
    {
        if self.seen.insert(Vec::from_slice(alloc, name.as_slice())?)? {
            self.all.push(name)?;
        }
        Ok(())
    }
}

// The full name of the ref that an argument names.
fn name_of<'a>(
    alloc: Global,
    named: &NamedRef<'a>,
    existing: &Existing<'_>,
    remotes: &[Remote<'_>],
) -> Result<Vec<u8>, Refusal<'a>>
    ensures ok { IfOk result (λ name. IsFound existing.now remotes.now named.now name.items) }
    ensures refused { IfErr result (λ e. IsForMemory e ⊎ IsNoRef named.now e) }
{
    match named.meaning {
        Meaning::Expression => printed_name(alloc, named),
        Meaning::Short => Ok(completed(alloc, named.argument, existing, remotes)?),
        Meaning::Full | Meaning::Bad => {
            Ok(Vec::from_slice(alloc, looked_up(named.argument, existing))?)
        }
    }
}

// What Git printed as the full name of an expression.
fn printed_name<'a>(alloc: Global, named: &NamedRef<'a>) -> Result<Vec<u8>, Refusal<'a>>
    ensures ok { IfOk result (λ name. IsPrinted named.now name.items) }
    ensures refused { IfErr result (λ e. IsForMemory e ⊎ ((name_printed named.now ≡ [])
        × (e ≡ refusal.NotARef named.now.argument))) }
{
    let name = name_printed(named);
    if name.is_empty() {
        return Err(Refusal::NotARef(named.argument));
    }
    Ok(Vec::from_slice(alloc, name)?)
}

// What Git printed, without the newline; nothing before it was asked.
fn name_printed<'n>(named: &'n NamedRef<'_>) -> &'n [u8]
    ensures { result.now ≡ name_printed named.now }
{
    match &named.printed {
        None => b"",
        Some(output) => output.as_slice().trim_end(),
    }
}

// The full name that Git completes a partial name to: the first that exists, or its target if it is symbolic; or, where
// none does, the one that would be meant.
fn completed(
    alloc: Global,
    partial: &[u8],
    existing: &Existing<'_>,
    remotes: &[Remote<'_>],
) -> Result<Vec<u8>, AllocError>
    ensures { IfOk result (λ name. IsCompleted existing.now remotes.now partial.now name.items) }
{
    let all = candidates(alloc, partial)?;
    match first_existing(all.as_slice(), existing) {
        Some(name) => Vec::from_slice(alloc, looked_up(name, existing)),
        None => {
            let name = joined(alloc, folder_of(partial, remotes), partial, b"")?;
            Ok(name.into_vec())
        }
    }
}

// The first of some names that exists.
fn first_existing<'n>(names: &'n [BString], existing: &Existing<'_>) -> Option<&'n [u8]>
    ensures { option_map (λ n. n.now) result ≡ first_in existing.now (map bstring_bytes names.now) }
{
    for name in names {
        if has_ref(existing, name.as_bytes()) {
            return Some(name.as_bytes());
        }
    }
    None
}

fn has_ref(existing: &Existing<'_>, name: &[u8]) -> bool
    ensures { result ≡ has_ref existing.now name.now }
{
    existing.contains_key(name)
}

// The folder in which a ref would be whose partial name this is: `refs/` if it begins with `heads/`, `tags/` or
// `remotes/`, that of tracking refs if it begins with the name of a remote, and else that of branches.
fn folder_of(partial: &[u8], remotes: &[Remote<'_>]) -> &'static [u8]
    ensures { IsFolder remotes.now partial.now result.now }
{
    if is_below(partial) {
        return b"refs/";
    }
    if has_above(remotes, partial) {
        return b"refs/remotes/";
    }
    b"refs/heads/"
}

// Whether a partial name begins with the name of a folder in `refs/`.
fn is_below(partial: &[u8]) -> bool
    ensures { IsTrue result ↔ IsBelow partial.now }
{
    begins_with(partial, b"heads/")
        || begins_with(partial, b"tags/")
        || begins_with(partial, b"remotes/")
}

// Whether a path begins with the name of one of these remotes, and more.
fn has_above(remotes: &[Remote<'_>], path: &[u8]) -> bool
    ensures { MatchBool result (Any (IsAbove path.now) remotes.now) (All (λ r. ¬ (IsAbove path.now r)) remotes.now) }
{
    for remote in remotes {
        if is_above(remote, path) {
            return true;
        }
    }
    false
}

// Whether a path begins with the name of a remote, and more.
fn is_above(remote: &Remote<'_>, path: &[u8]) -> bool
    ensures { MatchBool result (IsAbove path.now remote.now) (¬ (IsAbove path.now remote.now)) }
{
    match branch_below(remote, path) {
        None => false,
        Some(_) => true,
    }
}

/// What stands in a path behind the name of a remote and a slash. `None` if it doesn't begin with these, or nothing does.
pub fn branch_below<'p>(remote: &Remote<'_>, path: &'p [u8]) -> Option<&'p [u8]>
    ensures { MatchOption result (¬ (IsAbove path.entry.now remote.now))
        (λ branch. IsBranchBelow path.entry.now remote.now branch.now) }
{
    match remote.name {
        None => None,
        Some(name) => match behind_folder(path, name) {
            None => None,
            Some(branch) => {
                if branch.is_empty() {
                    None
                } else {
                    Some(branch)
                }
            }
        },
    }
}

// What stands in a path behind the name of a folder and a slash.
fn behind_folder<'p>(path: &'p [u8], folder: &[u8]) -> Option<&'p [u8]>
    ensures { MatchOption result
        ((rest : List ℕ) → path.entry.now ≢ folder.now ++ (47 ∷ rest))
        (λ rest. path.entry.now ≡ folder.now ++ (47 ∷ rest.now)) }
{
    let rest = path.strip_prefix(folder)?;
    rest.strip_prefix(b"/")
}
