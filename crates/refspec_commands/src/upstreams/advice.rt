//! What would give a branch an upstream.

use crate::full_names::{
    full_name, is_kept, spec_storing, write_addition, write_branch_command, write_removal,
    write_value_command,
};
use crate::upstreams::answer::text_at;
use crate::upstreams::question::{Merged, Setup};
use bstr::BStr;
use gix_refspec::match_group::ref_names::is_ref_name;
use gix_refspec::parsing::{Error, Operation};
use gix_refspec::{RefSpecRef, parse};
use gix_refspec_remote::{Upstream, upstream_of};
use refspec_io::quote::write_in_message;
use std::alloc::{AllocError, Global};

// A branch without an upstream.
#[derive(Clone, Copy, Debug)]
pub(crate) struct Lack<'r, 'q, 'spec> {
    // What it merges.
    pub(crate) merged: &'r Merged<'q, 'spec>,
    // The canonical text of the spec that is the reason, if one is.
    pub(crate) spec: Option<&'r [u8]>,
    pub(crate) why: Why,
}

// Why a branch has no upstream.
#[derive(Clone, Copy, Debug)]
pub(crate) enum Why {
    // A negative spec excludes what it merges.
    Excluded,
    // What it merges is fetched, but not stored.
    NotStored,
    // What it merges isn't fetched.
    NotFetched,
}

impl Lack<'_, '_, '_> {
    // The sentence that says why.
    pub(crate) fn message(&self) -> &'static str {
        match (self.merged.setup, self.why) {
            (Setup::NoMerge, _) => "There is no upstream, as the branch has no merge value.",
            (Setup::NoRemote, _) => "There is no upstream, as the branch has no remote.",
            (_, Why::Excluded) => {
                "There is no upstream, as a negative spec excludes the merged ref."
            }
            (_, Why::NotStored) => {
                "There is no upstream, as the merged ref is fetched, but not stored."
            }
            (_, Why::NotFetched) => "There is no upstream, as no spec fetches the merged ref.",
        }
    }

    // Whether the branch merges no ref.
    pub(crate) fn has_no_ref(&self) -> bool {
        matches!(self.merged.setup, Setup::NoMerge)
    }
}

// What to do to give a branch an upstream, in a line.
pub(crate) fn advice_on(alloc: Global, lack: &Lack<'_, '_, '_>) -> Result<Vec<u8>, AllocError> {
    let mut advice = Vec::new(alloc);
    if is_unset(lack.merged.setup) {
        write_setting(lack.merged, &mut advice)?;
        return Ok(advice);
    }
    match (lack.why, lack.spec) {
        (Why::Excluded, Some(text)) => {
            write_removal(text, &mut advice)?;
            advice.push(b'.')?;
        }
        _ => write_value(alloc, lack, &mut advice)?,
    }
    Ok(advice)
}

// Whether the configuration of a branch has no remote, or nothing that it merges.
fn is_unset(setup: Setup<'_>) -> bool {
    matches!(setup, Setup::NoRemote | Setup::NoMerge)
}

// Appends how to set the remote of a branch, and what it merges.
fn write_setting(merged: &Merged<'_, '_>, out: &mut Vec<u8>) -> Result<(), AllocError> {
    let branch = merged.branch.unwrap_or(b"".as_slice());
    match merged.setup {
        Setup::NoRemote => {
            out.extend_from_slice(b"`git config branch.")?;
            write_in_message(out, branch)?;
            out.extend_from_slice(b".remote NAME` sets one.")
        }
        _ => {
            out.extend_from_slice(b"`git branch --set-upstream-to REF ")?;
            write_in_message(out, branch)?;
            out.extend_from_slice(b"` sets it, where REF is a tracking ref such as ")?;
            write_in_message(out, merged.remote.unwrap_or(b"origin".as_slice()))?;
            out.push(b'/')?;
            write_in_message(out, branch)?;
            Ok(out.push(b'.')?)
        }
    }
}

// Appends which spec would store what a branch merges, and which is to be left out for that: one that fetches it
// without storing it, as Git takes an empty destination for one, or else a negative one.
fn write_value(
    alloc: Global,
    lack: &Lack<'_, '_, '_>,
    out: &mut Vec<u8>,
) -> Result<(), AllocError> {
    let merged = lack.merged;
    if !is_ref_name(merged.name) {
        return write_full_name(alloc, merged.name, out);
    }
    let remote = merged.remote.unwrap_or(b"origin".as_slice());
    let value = spec_storing(alloc, merged.name, remote)?;
    let spec = match parse(alloc, value.as_bstr(), Operation::Fetch) {
        Ok(spec) => spec,
        Err(Error::Memory) => return Err(AllocError),
        Err(_) => return write_remote_name(remote, out),
    };
    match (
        lack.spec,
        excluding_with(alloc, merged.specs, spec, merged.name)?,
    ) {
        (Some(text), _) => write_exchange(merged, text, value.as_bytes(), out),
        (None, Some(index)) => {
            let text = text_at(alloc, merged.specs, Some(index))?;
            write_exchange(merged, text.as_bytes(), value.as_bytes(), out)
        }
        (None, None) => match merged.remote {
            None => write_addition(b"Add a spec such as ", value.as_bytes(), out),
            Some(remote) => write_command(remote, merged, value.as_bytes(), out),
        },
    }
}

// Appends that a spec is to be left out, and another one added.
fn write_exchange(
    merged: &Merged<'_, '_>,
    text: &[u8],
    value: &[u8],
    out: &mut Vec<u8>,
) -> Result<(), AllocError> {
    write_removal(text, out)?;
    match merged.remote {
        None => write_addition(b", and add a spec such as ", value, out),
        Some(remote) => {
            out.extend_from_slice(b"; ")?;
            write_command(remote, merged, value, out)
        }
    }
}

// Appends the command that adds a value to a remote: by the name of a branch, if the remote has values and is no mirror,
// else by its text.
fn write_command(
    remote: &[u8],
    merged: &Merged<'_, '_>,
    value: &[u8],
    out: &mut Vec<u8>,
) -> Result<(), AllocError> {
    match merged.name.strip_prefix(b"refs/heads/") {
        Some(branch) if takes_branches(merged) => write_branch_command(remote, branch, out)?,
        _ => write_value_command(remote, value, out)?,
    }
    out.extend_from_slice(b" adds a value that stores it.")
}

// Whether `git remote set-branches` adds a value that stores a branch below the folder of the remote.
fn takes_branches(merged: &Merged<'_, '_>) -> bool {
    !merged.specs.is_empty() && !merged.specs.iter().any(is_kept)
}

// Appends that the remote is to have a name: below this one no refs can be stored.
fn write_remote_name(remote: &[u8], out: &mut Vec<u8>) -> Result<(), AllocError> {
    out.extend_from_slice(b"Give the remote a name: `git remote add NAME ")?;
    write_in_message(out, remote)?;
    out.extend_from_slice(b"`, and set it as the remote of the branch.")
}

// The index of the negative spec that excludes a merged ref if there is one more spec.
fn excluding_with<'s>(
    alloc: Global,
    specs: &[RefSpecRef<'s>],
    spec: RefSpecRef<'s>,
    name: &[u8],
) -> Result<Option<usize>, AllocError> {
    let mut all = Vec::from_slice(alloc, specs)?;
    all.push(spec)?;
    match upstream_of(alloc, all.as_slice(), BStr::new(name))? {
        Upstream::Excluded { excluded_by, .. } => Ok(Some(excluded_by)),
        Upstream::Tracked { .. } | Upstream::NotStored { .. } | Upstream::NotFetched => Ok(None),
    }
}

// Appends which full name is to be given in place of a name.
fn write_full_name(alloc: Global, name: &[u8], out: &mut Vec<u8>) -> Result<(), AllocError> {
    match full_name(alloc, name)? {
        None => out.extend_from_slice(b"Give the name of a ref: this is none."),
        Some(full) => {
            out.extend_from_slice(b"Give the full name of the merged ref, such as ")?;
            write_in_message(out, full.as_bytes())?;
            out.extend_from_slice(b": Git compares names as they are written.")
        }
    }
}
