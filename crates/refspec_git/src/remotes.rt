//! The remotes by whose fetch values `git refspec track` looks refs up.

ghost use Rattle.std.specs.Prelude.{◌≡◌, ◌≢◌, [], IfErr, IfOk, MatchBool, MatchOption, OnOk, map};
ghost use Rattle.bstr.specs.BStr.{bstr_bytes};
ghost use Rattle.gix_refspec.specs.Views.Spec.{reading_of};
ghost use Rattle.refspec_git.specs.Tracking.{AddsRemote, AddsSpec, AreRemotes, AreSpecsIn, AreWithValues, HasNoOld};
ghost use Rattle.refspec_git.specs.Tracking.{IsOld, IsRemoteNamed, IsRemoteWith, RefusesAll, RefusesOne, RefusesRemotes};
ghost use Rattle.refspec_git.specs.Tracking.{text_in};

use bstr::BStr;
use gix_refspec::parsing::{Error, Operation};
use gix_refspec::{RefSpecRef, parse};
use refspec_commands::tracking::question::Remote;
use refspec_io::settings::Setting;
use refspec_request::arguments::Request;
use refspec_request::choice::Repository;
use refspec_request::refusal::Refusal;
use refspec_request::remotes::{fetch_values, is_configured};
use refspec_request::settings::settings_named;
use std::alloc::{AllocError, Global};

/// The remote that `--remote` names, or all that have fetch values, by name; each with the specs of its values, but for
/// refused ones. Refuses a name that no remote of the configuration has, one without fetch values, and a configuration
/// without any. Fails with `Refusal::Memory` if memory runs out.
pub fn remotes_of<'a>(
    alloc: Global,
    request: &Request<'a>,
    repository: &Repository<'a, 'a>,
) -> Result<Vec<Remote<'a>>, Refusal<'a>>
    ensures ok { IfOk result (λ remotes. AreRemotes repository.now request.now.remote remotes.items) }
    ensures refused { IfErr result (RefusesRemotes repository.now request.now.remote) }
{
    match request.remote {
        Some(name) => remote_named(alloc, name, repository),
        None => all_remotes(alloc, repository),
    }
}

// The remote with this name alone.
fn remote_named<'a>(
    alloc: Global,
    name: &'a [u8],
    repository: &Repository<'a, 'a>,
) -> Result<Vec<Remote<'a>>, Refusal<'a>>
    ensures ok { IfOk result (λ remotes. IsRemoteNamed repository.now name.entry remotes.items) }
    ensures refused { IfErr result (RefusesOne repository.now name.entry) }
{
    if let Some(old) = repository.old_remote(name) {
        return Err(old);
    }
    if !is_configured(repository.settings, name) {
        return Err(Refusal::NoRemoteNoSpec(name));
    }
    let values = settings_named(alloc, repository.settings, b"remote", name, b"fetch")?;
    if !has_some(values.as_slice()) {
        return Err(Refusal::NoValuesOf(name));
    }
    let mut remotes = Vec::with_capacity(alloc, 1)?;
    remotes.push(remote_with(alloc, name, values.as_slice())?)?;
    Ok(remotes)
}

// A remote with the specs of these values.
fn remote_with<'a>(
    alloc: Global,
    name: &'a [u8],
    values: &[Setting<'a>],
) -> Result<Remote<'a>, AllocError>
    ensures { IfOk result (IsRemoteWith name.entry values.now) }
{
    Ok(Remote {
        name: Some(name),
        specs: specs_of(alloc, values)?,
    })
}

fn has_some(values: &[Setting<'_>]) -> bool
    ensures { MatchBool result (values.now ≢ []) (values.now ≡ []) }
{
    !values.is_empty()
}

// All remotes with fetch values.
fn all_remotes<'a>(
    alloc: Global,
    repository: &Repository<'a, 'a>,
) -> Result<Vec<Remote<'a>>, Refusal<'a>>
    ensures ok { IfOk result (λ remotes. AreWithValues repository.now.settings.now remotes.items
        × (remotes.items ≢ [])) }
    ensures refused { IfErr result (RefusesAll repository.now) }
{
    let remotes = with_values(alloc, repository.settings)?;
    if !remotes.is_empty() {
        return Ok(remotes);
    }
    match first_old(repository) {
        Some(old) => Err(old),
        None => Err(Refusal::NoValuesAtAll),
    }
}

// The remotes with fetch values, by name.
fn with_values<'a>(alloc: Global, settings: &[Setting<'a>]) -> Result<Vec<Remote<'a>>, AllocError>
    ensures { IfOk result (λ remotes. AreWithValues settings.now remotes.items) }
{
    let mut remotes = Vec::new(alloc);
    for (name, values) in &fetch_values(alloc, settings)? {
        add_remote(alloc, name, values.as_slice(), &mut remotes)?;
    }
    Ok(remotes)
}

// Adds a remote with the specs of these values, if there are any.
fn add_remote<'a>(
    alloc: Global,
    name: &'a [u8],
    values: &[Setting<'a>],
    remotes: &mut Vec<Remote<'a>>,
) -> Result<(), AllocError>
    ensures { OnOk result (AddsRemote name.entry values.now remotes.old.items remotes.new.items) }
{
    if has_some(values) {
        remotes.push(remote_with(alloc, name, values)?)?;
    }
    Ok(())
}

// The refusal of the first remote that Git reads from a file of its own.
fn first_old<'a>(repository: &Repository<'a, 'a>) -> Option<Refusal<'a>>
    ensures { MatchOption result (HasNoOld repository.now) (IsOld repository.now) }
{
    for old in repository.old {
        if let Some(refusal) = repository.old_remote(old.name.as_slice()) {
            return Some(refusal);
        }
    }
    None
}

// The specs of values, but for refused ones.
fn specs_of<'a>(alloc: Global, values: &[Setting<'a>]) -> Result<Vec<RefSpecRef<'a>>, AllocError>
    ensures { IfOk result (λ specs. AreSpecsIn values.now (map reading_of specs.items)) }
{
    let mut specs = Vec::with_capacity(alloc, values.len())?;
    for value in values {
        add_spec(alloc, value, &mut specs)?;
    }
    Ok(specs)
}

/// Adds the spec of a value, if it isn't refused.
pub fn add_spec<'a>(
    alloc: Global,
    value: &Setting<'a>,
    specs: &mut Vec<RefSpecRef<'a>>,
) -> Result<(), AllocError>
    ensures { OnOk result (AddsSpec value.now (map reading_of specs.old.items) (map reading_of specs.new.items)) }
{
    match parse(alloc, text_of(value), Operation::Fetch) {
        Ok(spec) => Ok(specs.push(spec)?),
        Err(error) => {
            if matches!(error, Error::Memory) {
                return Err(AllocError);
            }
            Ok(())
        }
    }
}

// The text of a value; empty if it has none.
fn text_of<'a>(value: &Setting<'a>) -> BStr<'a>
    ensures { bstr_bytes result ≡ text_in value.now }
{
    match value.value {
        None => BStr::new(b""),
        Some(text) => BStr::new(text),
    }
}
