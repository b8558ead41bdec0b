//! Full names of refs in advice, and the specs that store them below the folder of a remote.

ghost use Rattle.std.specs.Prelude.{◌≡◌, ◌++◌, IfOk, MatchOption, OnOk, ⊤};
ghost use Rattle.std.specs.List.{list_all};
ghost use Rattle.std.specs.Str.{chars};
ghost use Rattle.bstr.specs.Owned.{bstring_bytes};
ghost use Rattle.gix_refspec.specs.Matching.RefNames.{IsRefName};
ghost use Rattle.refspec_commands.specs.Advice.{argument, branch_command, destination, in_single_quotes};
ghost use Rattle.refspec_commands.specs.Advice.{is_bare as bare};
ghost use Rattle.refspec_commands.specs.Advice.{is_printable as printable, is_shown, means_itself as itself};
ghost use Rattle.refspec_commands.specs.Advice.{part_stored as part_of, set_branches, spec_storing as storing};
ghost use Rattle.refspec_commands.specs.Advice.{value_command, within_quotes};

use bstr::{BString, ByteSlice};
use gix_refspec::RefSpecRef;
use gix_refspec::match_group::ref_names::is_ref_name;
use gix_refspec_text::side::joined;
use refspec_io::quote::{write_in_message, write_in_quotes};
use std::alloc::{AllocError, Global};

// The full name that may be meant by a name, as `refs/heads/main` is by `main`. `None` if that isn't valid.
pub(crate) fn full_name(alloc: Global, name: &[u8]) -> Result<Option<BString>, AllocError>
    ensures { IfOk result (λ full. MatchOption full ⊤ (λ full. IsRefName (bstring_bytes full))) }
{
    let full = completed(alloc, name)?;
    if is_ref_name(full.as_bytes()) {
        Ok(Some(full))
    } else {
        Ok(None)
    }
}

// A name with what Git puts before it: nothing before `refs/`, and else `refs/` before the name of a folder there.
fn completed(alloc: Global, name: &[u8]) -> Result<BString, AllocError> {
    if name == b"@".as_slice() {
        return joined(alloc, b"HEAD", b"", b"");
    }
    if name.starts_with(b"refs/") {
        return joined(alloc, name, b"", b"");
    }
    if is_below_folder(name) {
        return joined(alloc, b"refs/", name, b"");
    }
    joined(alloc, b"refs/heads/", name, b"")
}

// Whether a name begins with that of a folder of `refs/` in which Git looks for refs.
pub(crate) fn is_below_folder(name: &[u8]) -> bool {
    name.starts_with(b"heads/") || name.starts_with(b"tags/") || name.starts_with(b"remotes/")
}

/// The text of the spec that stores a ref below the folder of a remote.
pub fn spec_storing(alloc: Global, name: &[u8], remote: &[u8]) -> Result<BString, AllocError>
    ensures { IfOk result (λ text. bstring_bytes text ≡ storing name.now remote.now) }
{
    let mut text = Vec::new(alloc);
    text.extend_from_slice(b"+")?;
    text.extend_from_slice(name)?;
    write_destination(name, remote, &mut text)?;
    Ok(BString::new(text))
}

// Appends the destination of that spec, and the colon before it.
fn write_destination(name: &[u8], remote: &[u8], text: &mut Vec<u8>) -> Result<(), AllocError>
    ensures { OnOk result (text.new.items ≡ text.old.items ++ destination name.now remote.now) }
{
    text.extend_from_slice(b":refs/remotes/")?;
    text.extend_from_slice(remote)?;
    text.extend_from_slice(b"/")?;
    Ok(text.extend_from_slice(part_stored(name))?)
}

// The part of a ref name that is stored below the folder of a remote.
fn part_stored(name: &[u8]) -> &[u8]
    ensures { result.now ≡ part_of name.now }
{
    if let Some(branch) = name.strip_prefix(b"refs/heads/") {
        return branch;
    }
    match name.strip_prefix(b"refs/") {
        Some(part) => part,
        None => name,
    }
}

/// Appends the command that adds a value for a branch to a remote.
pub fn write_branch_command(
    remote: &[u8],
    branch: &[u8],
    out: &mut Vec<u8>,
) -> Result<(), AllocError>
    ensures { OnOk result (out.new.items ≡ out.old.items ++ branch_command remote.now branch.now) }
{
    write_set_branches(branch, out)?;
    write_argument(remote, out)?;
    out.extend_from_slice(b" ")?;
    write_argument(branch, out)?;
    out.extend_from_slice(b"`")
}

// Appends the words of that command before the remote; their `--` keeps Git from reading the branch as an option.
fn write_set_branches(branch: &[u8], out: &mut Vec<u8>) -> Result<(), AllocError>
    ensures { OnOk result (out.new.items ≡ out.old.items ++ set_branches branch.now) }
{
    if branch.starts_with(b"-") {
        return out.extend_from_slice(b"`git remote set-branches --add -- ");
    }
    out.extend_from_slice(b"`git remote set-branches --add ")
}

/// Appends the command that adds a value to a remote.
pub fn write_value_command(remote: &[u8], value: &[u8], out: &mut Vec<u8>) -> Result<(), AllocError>
    ensures { OnOk result (out.new.items ≡ out.old.items ++ value_command remote.now value.now) }
{
    out.extend_from_slice(b"`git config --add remote.")?;
    write_argument(remote, out)?;
    out.extend_from_slice(b".fetch ")?;
    write_argument(value, out)?;
    out.extend_from_slice(b"`")
}

/// Appends an argument of a command as a shell reads it: in single quotes, unless all its bytes mean themselves. One
/// that isn't UTF-8, or has control characters, which no ref name has, is in double quotes with escapes, as in other
/// messages.
pub fn write_argument(text: &[u8], out: &mut Vec<u8>) -> Result<(), AllocError>
    ensures { OnOk result (out.new.items ≡ out.old.items ++ argument text.now) }
{
    if !is_printable(text) {
        return write_in_quotes(out, text);
    }
    if is_bare(text) {
        return out.extend_from_slice(text);
    }
    write_in_single_quotes(text, out)
}

// Appends a text in single quotes.
fn write_in_single_quotes(text: &[u8], out: &mut Vec<u8>) -> Result<(), AllocError>
    ensures { OnOk result (out.new.items ≡ out.old.items ++ in_single_quotes text.now) }
{
    out.push(b'\'')?;
    for byte in text {
        write_within_quotes(*byte, out)?;
    }
    out.push(b'\'')?;
    Ok(())
}

// Appends a byte of a text in single quotes.
fn write_within_quotes(byte: u8, out: &mut Vec<u8>) -> Result<(), AllocError>
    ensures { OnOk result (out.new.items ≡ out.old.items ++ within_quotes byte) }
{
    if byte == b'\'' {
        return out.extend_from_slice(b"'\\''");
    }
    out.extend_from_slice(&[byte])
}

// Whether a word needs no quotes.
fn is_bare(text: &[u8]) -> bool
    ensures { result ≡ bare text.now }
{
    if text.is_empty() {
        return false;
    }
    mean_themselves(text)
}

// Whether each byte means itself to a shell.
fn mean_themselves(text: &[u8]) -> bool
    ensures { result ≡ list_all itself text.now }
{
    text.iter().all(|byte| means_itself(*byte))
}

// Whether a byte means itself to a shell.
fn means_itself(byte: u8) -> bool
    ensures { result ≡ itself byte }
{
    byte.is_ascii_alphanumeric() || b"%+,-./:=@_".contains(&byte) || byte >= 128
}

// Whether a text is UTF-8 without control characters.
fn is_printable(text: &[u8]) -> bool
    ensures { result ≡ printable text.now }
{
    match str::from_utf8(text) {
        Ok(text) => has_no_control(text),
        Err(_) => false,
    }
}

// Whether no character of a text is a control character.
fn has_no_control(text: &str) -> bool
    ensures { result ≡ list_all is_shown (chars text.now) }
{
    text.chars().all(|c| !c.is_control())
}

// Whether a spec stores refs other than tags under their own names.
pub(crate) fn is_kept(spec: &RefSpecRef<'_>) -> bool {
    match (spec.source(), spec.destination()) {
        (Some(source), Some(destination)) => source == destination
            && !source.starts_with(b"refs/tags/"),
        _ => false,
    }
}

// Appends that a spec is to be added, after these words.
pub(crate) fn write_addition(
    words: &[u8],
    value: &[u8],
    out: &mut Vec<u8>,
) -> Result<(), AllocError> {
    out.extend_from_slice(words)?;
    write_in_message(out, value)?;
    Ok(out.push(b'.')?)
}

// Appends that a spec is to be left out.
pub(crate) fn write_removal(text: &[u8], out: &mut Vec<u8>) -> Result<(), AllocError> {
    out.extend_from_slice(b"Leave out ")?;
    write_in_message(out, text)
}
