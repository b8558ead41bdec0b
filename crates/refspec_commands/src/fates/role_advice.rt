//! Why a local ref isn't written, and what to do.

use crate::fates::advice::{Lack, removal, stop_advice, stop_message};
use crate::fates::question::{Configured, Holder, Question};
use crate::fates::roles::{LocalAnswer, Mapped, Role, has_writer};
use crate::full_names::{
    full_name, is_below_folder, write_addition, write_argument, write_value_command,
};
use bstr::{BString, ByteSlice};
use gix_refspec::match_group::ref_names::is_ref_name;
use gix_refspec_text::side::joined;
use gix_refspec_why::Fate;
use refspec_io::canonical::text_at;
use refspec_io::quote::write_in_message;
use std::alloc::{AllocError, Global};

// Why the local ref of a question isn't written, and what to do.
pub(crate) fn local_advice_on(
    alloc: Global,
    question: &Question<'_, '_, '_>,
    holder: Holder<'_>,
    answer: &LocalAnswer,
) -> Result<Lack, AllocError> {
    if !is_ref_name(question.name) {
        return Ok(Lack {
            message: "This isn't the full name of a ref.",
            advice: full_name_advice(alloc, question.name)?,
        });
    }
    if let Some(stop) = &answer.stop {
        if has_writer(answer.roles.as_slice()) {
            return Ok(Lack {
                message: stop_message(stop),
                advice: stop_advice(alloc, holder, answer.texts.as_slice(), stop)?,
            });
        }
    }
    let Some(obstacle) = first_obstacle(answer) else {
        return Ok(Lack {
            message: "No spec writes this ref.",
            advice: addition(alloc, question.name, holder)?,
        });
    };
    obstacle_lack(alloc, obstacle, holder, answer)
}

// What is in the way of a ref of the remote that some spec maps to the local ref.
#[derive(Clone, Copy, Debug)]
enum Obstacle {
    // The remote lacks it.
    Missing,
    // The negative spec at this index excludes it.
    Excluded(usize),
    // Its name.
    Name,
    // The local ref isn't below `refs/`.
    Destination,
    Conflict,
}

// What is in the way by the first spec that maps a ref of the remote to the local ref. `None` if no spec does.
fn first_obstacle(answer: &LocalAnswer) -> Option<Obstacle> {
    for role in &answer.roles {
        let obstacle = match role {
            Role::NoDestination | Role::Unmatched(_) | Role::Object => None,
            Role::Missing(_) => Some(Obstacle::Missing),
            Role::Mapped(mapped) => obstacle_of(*mapped),
        };
        if obstacle.is_some() {
            return obstacle;
        }
    }
    None
}

// What is in the way by a spec that maps a ref of the remote to the local ref.
fn obstacle_of(mapped: Mapped) -> Option<Obstacle> {
    match mapped.fate {
        Fate::Excluded(by) => Some(Obstacle::Excluded(by.spec_index)),
        Fate::InvalidName => Some(Obstacle::Name),
        Fate::InvalidDestination => Some(Obstacle::Destination),
        Fate::InConflict(_) | Fate::DirectoryConflict(_) => Some(Obstacle::Conflict),
        Fate::Unmatched(_) | Fate::Excludes(_) | Fate::Duplicate(_) | Fate::Written => None,
    }
}

// Why the local ref isn't written if this is in the way, and what to do.
fn obstacle_lack(
    alloc: Global,
    obstacle: Obstacle,
    holder: Holder<'_>,
    answer: &LocalAnswer,
) -> Result<Lack, AllocError> {
    match obstacle {
        Obstacle::Missing => Ok(Lack {
            message: "The remote lacks the ref that it is fetched from.",
            advice: prune_advice(alloc, holder)?,
        }),
        Obstacle::Excluded(index) => Ok(Lack {
            message: "A negative spec excludes the ref that it is fetched from.",
            advice: removal(alloc, holder, text_at(answer.texts.as_slice(), index))?,
        }),
        Obstacle::Name => Ok(Lack {
            message: "Git leaves out the ref that it is fetched from, as its name isn't a valid one.",
            advice: Vec::from_slice(alloc, b"Give that ref another name on the remote.")?,
        }),
        Obstacle::Destination => Ok(Lack {
            message: "Git doesn't write this ref, as it isn't below refs/.",
            advice: Vec::from_slice(alloc, b"Write a destination below refs/.")?,
        }),
        Obstacle::Conflict => Ok(Lack {
            message: "The ref that it is fetched from is in conflict with another one.",
            advice: Vec::from_slice(
                alloc,
                b"Exclude the other source, or give one of the specs another destination.",
            )?,
        }),
    }
}

// That a full name is to be given, as `refs/remotes/origin/main` for `origin/main`.
fn full_name_advice(alloc: Global, name: &[u8]) -> Result<Vec<u8>, AllocError> {
    let full = if is_below_folder(name) {
        full_name(alloc, name)?
    } else {
        let path = joined(alloc, b"remotes/", name, b"")?;
        full_name(alloc, path.as_bytes())?
    };
    let mut advice = Vec::from_slice(alloc, b"Give the full name of a local ref, such as ")?;
    match full {
        None => advice.extend_from_slice(b"refs/remotes/origin/main")?,
        Some(full) => write_in_message(&mut advice, full.as_bytes())?,
    }
    advice.push(b'.')?;
    Ok(advice)
}

// Which command says whether a pruning fetch deletes the local ref.
fn prune_advice(alloc: Global, holder: Holder<'_>) -> Result<Vec<u8>, AllocError> {
    let Holder::Remote(remote) = holder else {
        return Vec::from_slice(
            alloc,
            b"`refspec stale` says whether a pruning fetch deletes it.",
        );
    };
    let mut advice = Vec::from_slice(alloc, b"`git remote prune --dry-run ")?;
    write_argument(remote.name, &mut advice)?;
    advice.extend_from_slice(b"` says whether a pruning fetch deletes it.")?;
    Ok(advice)
}

// How to write a local ref by one more spec.
fn addition(alloc: Global, name: &[u8], holder: Holder<'_>) -> Result<Vec<u8>, AllocError> {
    let mut advice = Vec::new(alloc);
    match holder {
        Holder::List => {
            let spec = spec_writing(alloc, name, b"origin")?;
            write_addition(b"Add a spec such as ", spec.as_bytes(), &mut advice)?;
        }
        Holder::Url(_) => {
            let spec = spec_writing(alloc, name, b"origin")?;
            write_addition(b"Give a spec such as ", spec.as_bytes(), &mut advice)?;
        }
        Holder::Remote(remote) => write_command(alloc, name, remote, &mut advice)?,
    }
    Ok(advice)
}

// Appends the command that adds a value by which a local ref is written.
fn write_command(
    alloc: Global,
    name: &[u8],
    remote: Configured<'_>,
    out: &mut Vec<u8>,
) -> Result<(), AllocError> {
    let value = spec_writing(alloc, name, remote.name)?;
    write_value_command(remote.name, value.as_bytes(), out)?;
    out.extend_from_slice(b" adds a value that writes it.")
}

// The text of a spec that writes a local ref: below the folder of a remote from a branch, and else from a ref of the same
// name.
fn spec_writing(alloc: Global, name: &[u8], remote: &[u8]) -> Result<BString, AllocError> {
    let source = match branch_in(name, remote) {
        None => joined(alloc, b"+", name, b":")?,
        Some(branch) => joined(alloc, b"+refs/heads/", branch, b":")?,
    };
    joined(alloc, source.as_bytes(), name, b"")
}

// The branch whose tracking ref this is. Without a folder of this remote, that of any remote counts.
fn branch_in<'n>(name: &'n [u8], remote: &[u8]) -> Option<&'n [u8]> {
    let path = name.strip_prefix(b"refs/remotes/")?;
    if let Some(rest) = path.strip_prefix(remote) {
        if let Some(branch) = rest.strip_prefix(b"/") {
            return Some(branch);
        }
    }
    let (_, branch) = path.split_once_str(b"/")?;
    Some(branch)
}
