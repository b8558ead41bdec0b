//! The branches of a call of `git refspec upstream`, and what the configuration says of each.

ghost use Rattle.std.specs.Prelude.{◌≡◌, ◌≢◌, ◌↔◌, ◌⊎◌, [], List, IfErr, IfOk, IsTrue, MatchBool, MatchOption};
ghost use Rattle.std.specs.Prelude.{MatchResult};
ghost use Rattle.std.specs.Prelude.{None, OnOk, option_map};
ghost use Rattle.std.specs.List.{All, AllZip};
ghost use Rattle.refspec_request.specs.Refusals.{IsForMemory};
ghost use Rattle.refspec_request.specs.Settings.{value_of_last};
ghost use Rattle.refspec_git.specs.Branches.{AddsBranch, AreAllBranches, AreBranches, AreChosenBranches, AreOfBranches};
ghost use Rattle.refspec_git.specs.Branches.{HasNoOldRemote, HasOldRemote, IsBelowHeads, IsBranch, IsHead};
ghost use Rattle.refspec_git.specs.Branches.{IsNamedBranch};
ghost use Rattle.refspec_git.specs.Branches.{NamesBranch, RefusesBranch, RefusesBranches};
ghost use Rattle.refspec_git.specs.Branches.{RefusesChosenBranches, RefusesNamedBranches};
ghost use Rattle.refspec_git.specs.Branches.{settings_at, value_of_first};
ghost use Rattle.refspec_io.specs.declared.settings.Setting.{Setting};
ghost use Rattle.refspec_request.specs.Choices.{HasNoOldForm, IsOldForm};
ghost use Rattle.refspec_git.specs.Named.{HasFirst};

use crate::refs::is_ref;
use refspec_io::settings::Setting;
use refspec_request::arguments::Request;
use refspec_request::choice::Repository;
use refspec_request::refusal::Refusal;
use refspec_request::remotes::{is_in_file, values_by_name};
use std::alloc::{AllocError, Global};
use std::collections::BTreeMap;

/// A branch, and what the configuration says of it.
#[derive(Clone, Copy, Debug)]
pub struct Branch<'a> {
    /// Its name below `refs/heads/`.
    pub name: &'a [u8],
    /// The last value of `branch.<name>.remote`.
    pub remote: Option<&'a [u8]>,
    /// The first value of `branch.<name>.merge`.
    pub merge: Option<&'a [u8]>,
}

/// The branches that arguments name, in order, or all that have a merge value, by name. Refuses `--remote`, the first
/// argument that names no branch, a call without arguments where no branch has a merge value, and then a branch whose
/// remote is configured in a file of its own. Fails with `Refusal::Memory` if memory runs out.
pub fn branches_of<'a>(
    alloc: Global,
    request: &Request<'a>,
    repository: &Repository<'a, 'a>,
) -> Result<Vec<Branch<'a>>, Refusal<'a>>
    ensures ok { IfOk result (λ branches. AreBranches repository.now request.now branches.items) }
    ensures refused { IfErr result (RefusesBranches repository.now request.now) }
{
    if names_remote(request) {
        return Err(Refusal::RemoteOfBranches);
    }
    let values = Values::of(alloc, repository.settings)?;
    let branches = chosen_in(alloc, request, repository, &values)?;
    refuse_old(branches.as_slice(), repository)?;
    Ok(branches)
}

// Whether an option names a remote.
fn names_remote(request: &Request<'_>) -> bool
    ensures { MatchBool result (request.now.remote ≢ None) (request.now.remote ≡ None) }
{
    match request.remote {
        Some(_) => true,
        None => false,
    }
}

// The branches that arguments name, or all that have a merge value.
fn chosen_in<'a>(
    alloc: Global,
    request: &Request<'a>,
    repository: &Repository<'a, 'a>,
    values: &Values<'a>,
) -> Result<Vec<Branch<'a>>, Refusal<'a>>
    ensures ok { IfOk result (λ branches. AreOfBranches repository.now.settings.now values.now
        → AreChosenBranches repository.now request.now branches.items) }
    ensures refused { IfErr result (λ e. AreOfBranches repository.now.settings.now values.now
        → RefusesChosenBranches repository.now request.now e) }
{
    let arguments = request.arguments.as_slice();
    if names_some(arguments) {
        let named = named_in(alloc, arguments, repository, values)?;
        return Ok(named);
    }
    let branches = values.all(alloc)?;
    if has_none(branches.as_slice()) {
        return Err(Refusal::NoMergedRef);
    }
    Ok(branches)
}

fn names_some(arguments: &[&[u8]]) -> bool
    ensures { MatchBool result (arguments.now ≢ []) (arguments.now ≡ []) }
{
    !arguments.is_empty()
}

fn has_none(branches: &[Branch<'_>]) -> bool
    ensures { MatchBool result (branches.now ≡ []) (branches.now ≢ []) }
{
    branches.is_empty()
}

// The branches that arguments name.
fn named_in<'a>(
    alloc: Global,
    arguments: &[&'a [u8]],
    repository: &Repository<'a, 'a>,
    values: &Values<'a>,
) -> Result<Vec<Branch<'a>>, Refusal<'a>>
    ensures ok { IfOk result (λ branches. AreOfBranches repository.now.settings.now values.now
        → AllZip (IsNamedBranch repository.now) arguments.now branches.items) }
    ensures refused { IfErr result (λ e. IsForMemory e
        ⊎ RefusesNamedBranches repository.now arguments.now e) }
{
    let mut branches = Vec::with_capacity(alloc, arguments.len())?;
    for argument in arguments {
        let name = name_of(argument, repository)?;
        branches.push(values.branch_of(name))?;
    }
    Ok(branches)
}

// The name of the branch that an argument names: by its full name or below `refs/heads/`, or the current one.
fn name_of<'a>(argument: &'a [u8], repository: &Repository<'a, 'a>) -> Result<&'a [u8], Refusal<'a>>
    ensures { MatchResult result (λ name. NamesBranch repository.now argument.entry.now name.now)
        (RefusesBranch repository.now argument.entry) }
{
    if is_head(argument) {
        return current_of(argument, repository);
    }
    if !is_ref(argument) {
        return Err(Refusal::NoRefName(argument));
    }
    Ok(below_heads(argument))
}

fn is_head(argument: &[u8]) -> bool
    ensures { IsTrue result ↔ IsHead argument.now }
{
    argument == b"HEAD".as_slice() || argument == b"@".as_slice()
}

// The current branch.
fn current_of<'a>(
    argument: &'a [u8],
    repository: &Repository<'a, 'a>,
) -> Result<&'a [u8], Refusal<'a>>
    requires { IsHead argument.now }
    ensures { MatchResult result (λ name. NamesBranch repository.now argument.entry.now name.now)
        (RefusesBranch repository.now argument.entry) }
{
    let branch = repository.branch;
    if is_nothing(branch) {
        return Err(Refusal::NoBranchAtHead(argument));
    }
    Ok(branch)
}

fn is_nothing(name: &[u8]) -> bool
    ensures { MatchBool result (name.now ≡ []) (name.now ≢ []) }
{
    name.is_empty()
}

// A name without `refs/heads/`, if it begins with that.
fn below_heads(name: &[u8]) -> &[u8]
    ensures { IsBelowHeads name.now result.now }
{
    match name.strip_prefix(b"refs/heads/") {
        None => name,
        Some(branch) => branch,
    }
}

// The settings of branches.
#[derive(Drop)]
struct Values<'a> {
    // Of each branch the values of `branch.<name>.remote`.
    remotes: BTreeMap<&'a [u8], Vec<Setting<'a>>>,
    // Of each branch the values of `branch.<name>.merge`.
    merges: BTreeMap<&'a [u8], Vec<Setting<'a>>>,
}

impl<'a> Values<'a> {
    fn of(alloc: Global, settings: &[Setting<'a>]) -> Result<Values<'a>, AllocError>
        ensures { IfOk result (AreOfBranches settings.now) }
    {
        Ok(Values {
            remotes: values_by_name(alloc, settings, b"branch", b"remote")?,
            merges: values_by_name(alloc, settings, b"branch", b"merge")?,
        })
    }

    // What the configuration says of a branch.
    fn branch_of(&self, name: &'a [u8]) -> Branch<'a>
        ensures { (settings : List Setting) → AreOfBranches settings self.now → IsBranch settings name.now result }
    {
        Branch {
            name,
            remote: last_of(&self.remotes, name),
            merge: first_of(&self.merges, name),
        }
    }

    // The branches that have a merge value, by name.
    fn all(&self, alloc: Global) -> Result<Vec<Branch<'a>>, AllocError>
        ensures { IfOk result (λ branches. (settings : List Setting) → AreOfBranches settings self.now
            → AreAllBranches settings branches.items) }
    {
        let mut branches = Vec::new(alloc);
        for (name, values) in &self.merges {
            self.add(name, values.as_slice(), &mut branches)?;
        }
        Ok(branches)
    }

    // Adds a branch with these merge values, if there are any.
    fn add(
        &self,
        name: &'a [u8],
        values: &[Setting<'a>],
        branches: &mut Vec<Branch<'a>>,
    ) -> Result<(), AllocError>
        ensures { OnOk result ((settings : List Setting) → AreOfBranches settings self.now
            → AddsBranch settings name.entry values.now branches.old.items branches.new.items) }
    {
        if has_some(values) {
            branches.push(self.branch_of(name))?;
        }
        Ok(())
    }
}

fn has_some(values: &[Setting<'_>]) -> bool
    ensures { MatchBool result (values.now ≢ []) (values.now ≡ []) }
{
    !values.is_empty()
}

// The value of the first of some settings.
fn first_value<'a>(settings: &[Setting<'a>]) -> Option<&'a [u8]>
    ensures { option_map (λ v. v.now) result ≡ value_of_first settings.now }
{
    match settings.first() {
        None => None,
        Some(setting) => setting.value,
    }
}

// The value of the last of some settings.
fn last_value<'a>(settings: &[Setting<'a>]) -> Option<&'a [u8]>
    ensures { option_map (λ v. v.now) result ≡ value_of_last settings.now }
{
    match settings.last() {
        None => None,
        Some(setting) => setting.value,
    }
}

// The value of the first setting of a name.
fn first_of<'a>(values: &BTreeMap<&'a [u8], Vec<Setting<'a>>>, name: &[u8]) -> Option<&'a [u8]>
    ensures { option_map (λ v. v.now) result ≡ value_of_first (settings_at values.now name.now) }
{
    let Some(settings) = values.get(name) else {
        return None;
    };
    first_value(settings.as_slice())
}

// The value of the last setting of a name.
fn last_of<'a>(values: &BTreeMap<&'a [u8], Vec<Setting<'a>>>, name: &[u8]) -> Option<&'a [u8]>
    ensures { option_map (λ v. v.now) result ≡ value_of_last (settings_at values.now name.now) }
{
    let Some(settings) = values.get(name) else {
        return None;
    };
    last_value(settings.as_slice())
}

// Refuses a branch whose remote is configured in a file of its own.
fn refuse_old<'a>(
    branches: &[Branch<'a>],
    repository: &Repository<'a, 'a>,
) -> Result<(), Refusal<'a>>
    ensures { MatchResult result (λ _. All (HasNoOldRemote repository.now) branches.now)
        (λ e. HasFirst (HasNoOldRemote repository.now) (HasOldRemote repository.now e) branches.now) }
{
    for one in branches {
        if let Some(refusal) = old_remote(one, repository) {
            return Err(refusal);
        }
    }
    Ok(())
}

// The refusal of the remote of a branch, if it is configured in a file of its own.
fn old_remote<'a>(branch: &Branch<'a>, repository: &Repository<'a, 'a>) -> Option<Refusal<'a>>
    ensures { MatchOption result (HasNoOldRemote repository.now branch.now)
        (λ e. HasOldRemote repository.now e branch.now) }
{
    match branch.remote {
        None => None,
        Some(remote) => old_form(remote, repository),
    }
}

// The refusal of a remote, if it is configured in a file of its own. Without such a file no settings are looked
// through.
fn old_form<'a>(remote: &'a [u8], repository: &Repository<'a, 'a>) -> Option<Refusal<'a>>
    ensures { MatchOption result (HasNoOldForm repository.now remote.entry.now)
        (IsOldForm repository.now remote.entry.now) }
{
    if !is_in_file(repository.old, remote) {
        return None;
    }
    repository.old_remote(remote)
}
