//! How to fetch a ref by one more spec, and how to leave a spec out: that of a list, or a value of the configuration.

use crate::fates::answer::answer_to;
use crate::fates::question::{Configured, Holder, Kind, Question};
use crate::full_names::{
    self, is_kept, spec_storing, write_argument, write_branch_command, write_value_command,
};
use bstr::BString;
use gix_refspec::parse;
use gix_refspec::parsing::{Error, Operation};
use gix_refspec_text::side::{joined, strip_refs};
use refspec_fetch::question::Tags;
use refspec_io::quote::write_in_message;
use std::alloc::{AllocError, Global};

const HEAD: &[u8] = b"HEAD";

// Appends how to fetch the ref of a question, as a sentence.
pub(crate) fn write_addition(
    alloc: Global,
    question: &Question<'_, '_, '_>,
    holder: Holder<'_>,
    out: &mut Vec<u8>,
) -> Result<(), AllocError> {
    let name = question.name;
    match holder {
        Holder::List => {
            let spec = listed_spec(alloc, name)?;
            full_names::write_addition(b"Add a spec such as ", spec.as_bytes(), out)
        }
        Holder::Url(url) => {
            out.extend_from_slice(b"`git fetch ")?;
            write_argument(url, out)?;
            out.push(b' ')?;
            write_argument(name, out)?;
            out.extend_from_slice(b"` fetches it.")
        }
        Holder::Remote(remote) => write_command(alloc, question, remote, out),
    }
}

// Appends that a fetch follows the ref of a question, if it is a tag, as a sentence with a space behind it. Git follows
// tags if some spec has a destination.
pub(crate) fn write_followed(
    question: &Question<'_, '_, '_>,
    holder: Holder<'_>,
    out: &mut Vec<u8>,
) -> Result<(), AllocError> {
    let Holder::Remote(remote) = holder else {
        return Ok(());
    };
    let is_stored = question
        .specs
        .iter()
        .any(|spec| !spec.is_negative() && spec.destination().is_some());
    if remote.tags == Tags::Followed && question.name.starts_with(b"refs/tags/") && is_stored {
        out.extend_from_slice(
            b"Git follows this tag if the commit that it points to is fetched, or is here already. ",
        )?;
    }
    Ok(())
}

// Appends that a spec is to be left out, and how to fetch the ref of a question then, as a sentence.
pub(crate) fn write_exchange(
    alloc: Global,
    question: &Question<'_, '_, '_>,
    holder: Holder<'_>,
    text: &[u8],
    out: &mut Vec<u8>,
) -> Result<(), AllocError> {
    write_removal(holder, text, out)?;
    match holder {
        Holder::List | Holder::Url(_) => {
            let spec = listed_spec(alloc, question.name)?;
            full_names::write_addition(b", and add a spec such as ", spec.as_bytes(), out)
        }
        Holder::Remote(remote) => {
            out.extend_from_slice(b"; ")?;
            let value = usual_value(alloc, question, remote)?;
            write_value(remote, question.name, value.as_bytes(), out)
        }
    }
}

// Appends that a spec is to be left out, as the beginning of a sentence.
pub(crate) fn write_removal(
    holder: Holder<'_>,
    text: &[u8],
    out: &mut Vec<u8>,
) -> Result<(), AllocError> {
    match holder {
        Holder::List | Holder::Url(_) => full_names::write_removal(text, out),
        Holder::Remote(remote) => {
            out.extend_from_slice(b"`git config --fixed-value --unset-all remote.")?;
            write_argument(remote.name, out)?;
            out.extend_from_slice(b".fetch ")?;
            write_argument(text, out)?;
            out.extend_from_slice(b"` removes the value in the way")
        }
    }
}

// Appends how to see the refs of a remote, as a sentence.
pub(crate) fn write_list(holder: Holder<'_>, out: &mut Vec<u8>) -> Result<(), AllocError> {
    let remote = match holder {
        Holder::List => return out.extend_from_slice(b"List what it has by `git ls-remote`."),
        Holder::Url(url) => url,
        Holder::Remote(remote) => remote.name,
    };
    out.extend_from_slice(b"`git ls-remote ")?;
    write_argument(remote, out)?;
    out.extend_from_slice(b"` lists what it has.")
}

// Appends the command that adds a value by which the ref of a question is fetched: the usual one, or one with a longer
// destination; or that there is to be another destination, if both are in conflict.
fn write_command(
    alloc: Global,
    question: &Question<'_, '_, '_>,
    remote: Configured<'_>,
    out: &mut Vec<u8>,
) -> Result<(), AllocError> {
    let usual = usual_value(alloc, question, remote)?;
    if question.name == HEAD || is_fetched_with(alloc, question, &usual)? {
        return write_value(remote, question.name, usual.as_bytes(), out);
    }
    let longer = longer_value(alloc, remote, question.name)?;
    if is_fetched_with(alloc, question, &longer)? {
        write_value_command(remote.name, longer.as_bytes(), out)?;
        return out.extend_from_slice(b" adds a value that fetches it.");
    }
    out.extend_from_slice(b"Add a value that stores it where no other ref is written.")
}

// Appends the command that adds the usual value for a ref; for `HEAD`, which is another name of a branch, those that
// fetch it once and note which one.
fn write_value(
    remote: Configured<'_>,
    name: &[u8],
    value: &[u8],
    out: &mut Vec<u8>,
) -> Result<(), AllocError> {
    if name == HEAD {
        out.extend_from_slice(b"`git fetch ")?;
        write_argument(remote.name, out)?;
        out.extend_from_slice(b" HEAD` fetches it; `git remote set-head ")?;
        write_argument(remote.name, out)?;
        return out.extend_from_slice(b" --auto` notes which branch it is.");
    }
    match (remote.kind, name.strip_prefix(b"refs/heads/")) {
        (Kind::Plain, Some(branch)) => write_branch_command(remote.name, branch, out)?,
        _ => write_value_command(remote.name, value, out)?,
    }
    out.extend_from_slice(b" adds a value that fetches it.")
}

// Whether the ref of a question is fetched with one more spec.
fn is_fetched_with(
    alloc: Global,
    question: &Question<'_, '_, '_>,
    value: &BString,
) -> Result<bool, AllocError> {
    let spec = match parse(alloc, value.as_bstr(), Operation::Fetch) {
        Ok(spec) => spec,
        Err(Error::Memory) => return Err(AllocError),
        Err(_) => return Ok(false),
    };
    let mut specs = Vec::with_capacity(alloc, question.specs.len().saturating_add(1))?;
    for one in question.specs {
        specs.push(*one)?;
    }
    specs.push(spec)?;
    let changed = Question {
        name: question.name,
        specs: specs.as_slice(),
        refs: question.refs,
        known: question.known,
    };
    let answer = answer_to(alloc, &changed)?;
    Ok(answer.is_fetched(question.known))
}

// The spec of a list that fetches a ref. `HEAD` isn't stored: by that name Git finds a branch.
fn listed_spec(alloc: Global, name: &[u8]) -> Result<BString, AllocError> {
    if name == HEAD {
        return joined(alloc, name, b"", b"");
    }
    spec_storing(alloc, name, b"origin")
}

// The value that stores a ref: a tag, and any ref of a mirror that stores others so, under its own name; others below the
// folder of the remote.
fn usual_value(
    alloc: Global,
    question: &Question<'_, '_, '_>,
    remote: Configured<'_>,
) -> Result<BString, AllocError> {
    let name = question.name;
    let is_own = name.starts_with(b"refs/tags/")
        || remote.kind == Kind::Mirror
            && name.starts_with(b"refs/")
            && question.specs.iter().any(is_kept);
    if !is_own {
        return spec_storing(alloc, name, remote.name);
    }
    let source = joined(alloc, b"+", name, b":")?;
    joined(alloc, source.as_bytes(), name, b"")
}

// The value that stores a ref below the folder of the remote by all of its name behind `refs/`.
fn longer_value(alloc: Global, remote: Configured<'_>, name: &[u8]) -> Result<BString, AllocError> {
    let source = joined(alloc, b"+", name, b":refs/remotes/")?;
    let folder = joined(alloc, source.as_bytes(), remote.name, b"/")?;
    joined(
        alloc,
        folder.as_bytes(),
        strip_refs(name).unwrap_or(name),
        b"",
    )
}
