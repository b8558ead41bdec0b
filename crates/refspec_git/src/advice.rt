//! Advice on refs that no remote writes.

use crate::fates::kind_of;
use crate::named::branch_below;
use gix_refspec_match::exclusions::Exclusions;
use gix_refspec_text::side::joined;
use refspec_commands::fates::question::Kind;
use refspec_commands::full_names::{
    spec_storing, write_argument, write_branch_command, write_value_command,
};
use refspec_commands::tracking::answer::{Found, Looked};
use refspec_commands::tracking::question::Remote;
use refspec_commands::tracking::report::Advice;
use refspec_io::settings::Setting;
use refspec_request::refusal::write_about;
use refspec_request::settings::last_value;
use std::alloc::{AllocError, Global};
use std::collections::BTreeMap;

/// The advice on refs that no value of remotes writes, as lines.
pub fn advice_on<'r>(
    alloc: Global,
    remotes: &[Remote<'_>],
    settings: &[Setting<'_>],
    refs: &[Looked<'r>],
) -> Result<Advice<'r>, AllocError> {
    let mut all = BTreeMap::new(alloc);
    for looked in refs {
        if looked.found == Found::Untracked {
            let mut advice = Vec::new(alloc);
            write_advice(alloc, remotes, settings, looked.name, &mut advice)?;
            all.insert(looked.name, advice)?;
        }
    }
    Ok(all)
}

// Appends a line of advice on a ref that no value writes: for a tracking ref how to add a value, or that a negative
// value excludes its source; for a branch how to find its upstream.
fn write_advice(
    alloc: Global,
    remotes: &[Remote<'_>],
    settings: &[Setting<'_>],
    name: &[u8],
    out: &mut Vec<u8>,
) -> Result<(), AllocError> {
    if let Some(path) = name.strip_prefix(b"refs/remotes/".as_slice()) {
        write_addition(alloc, remotes, settings, path, out)?;
    }
    if let Some(branch) = name.strip_prefix(b"refs/heads/".as_slice()) {
        write_upstream(settings, branch, out)?;
    }
    Ok(())
}

// Appends how to name the upstream of a branch that merges a ref. Git knows none without a remote.
fn write_upstream(
    settings: &[Setting<'_>],
    branch: &[u8],
    out: &mut Vec<u8>,
) -> Result<(), AllocError> {
    if last_value(settings, b"branch", branch, b"merge").is_none() {
        return Ok(());
    }
    if last_value(settings, b"branch", branch, b"remote").is_some() {
        let start = "    This is a branch of your own; for its upstream give ";
        write_about(out, start, branch, "@{upstream}.\n")
    } else {
        out.extend_from_slice(b"    This is a branch of your own; `git refspec upstream ")?;
        write_argument(branch, out)?;
        out.extend_from_slice(b"` says why it has no upstream.\n")
    }
}

// Appends how to add a value that stores a branch at this path below `refs/remotes/`, or that one excludes it.
fn write_addition(
    alloc: Global,
    remotes: &[Remote<'_>],
    settings: &[Setting<'_>],
    path: &[u8],
    out: &mut Vec<u8>,
) -> Result<(), AllocError> {
    let Some(remote) = longest_above(remotes, path) else {
        return Ok(());
    };
    let (Some(name), Some(branch)) = (remote.name, branch_below(remote, path)) else {
        return Ok(());
    };
    if is_left_out(alloc, remote, branch)? {
        write_about(out, "    A negative value of ", name, " leaves ")?;
        write_about(out, "refs/heads/", branch, " out.\n")
    } else {
        write_command(alloc, settings, name, branch, out)
    }
}

// Appends the command that adds a value for a branch of a remote.
fn write_command(
    alloc: Global,
    settings: &[Setting<'_>],
    remote: &[u8],
    branch: &[u8],
    out: &mut Vec<u8>,
) -> Result<(), AllocError> {
    out.extend_from_slice(b"    ")?;
    match kind_of(alloc, settings, remote)? {
        Kind::Plain => write_branch_command(remote, branch, out)?,
        Kind::Mirror => {
            let full = joined(alloc, b"refs/heads/", branch, b"")?;
            let value = spec_storing(alloc, full.as_bytes(), remote)?;
            write_value_command(remote, value.as_bytes(), out)?;
        }
    }
    out.extend_from_slice(b" adds one, if the remote has that branch.\n")
}

// The remote with the longest name at the start of a path, and more behind it.
fn longest_above<'r, 'a>(remotes: &'r [Remote<'a>], path: &[u8]) -> Option<&'r Remote<'a>> {
    let mut found: Option<&'r Remote<'a>> = None;
    // The shortest branch is that of the longest name.
    let mut shortest = path.len();
    for remote in remotes {
        if let Some(branch) = branch_below(remote, path) {
            if branch.len() < shortest {
                shortest = branch.len();
                found = Some(remote);
            }
        }
    }
    found
}

// Whether a negative value of a remote excludes a branch of it.
fn is_left_out(alloc: Global, remote: &Remote<'_>, branch: &[u8]) -> Result<bool, AllocError> {
    let exclusions = Exclusions::of(alloc, remote.specs.as_slice())?;
    let source = joined(alloc, b"refs/heads/", branch, b"")?;
    Ok(exclusions.spec_of(source.as_bytes()).is_some())
}
