//! Ref prefixes to send to a server.

ghost use Rattle.std.specs.Prelude.{◌≡◌, ◌≢◌, ℕ, List, map, IfErr, IfOk, OnOk};
ghost use Rattle.bstr.specs.Owned.{bstring_bytes};
ghost use Rattle.gix_refspec.specs.Views.Spec.{reading_of};
ghost use Rattle.gix_refspec_c.specs.Buffer.{IsWrittenTo, WritesNothing};
ghost use Rattle.gix_refspec_c.specs.Group.{HasPrefixOrNothing, IsExpanded, IsExpandedTo, IsPrefixOrNothing, IsToAsk, IsUnasked, IsUnexpanded, bytes_of, lines_of};
ghost use Rattle.gix_refspec_c.specs.Outcome.{Answers};
ghost use Rattle.gix_refspec_c.specs.Reading.{IsUnread, code_of};

use crate::explanation::Text;
use crate::failure::{Failure, outcome_of};
use crate::reading::{operation_of, read, read_all};
use crate::write::write;
use bstr::BString;
use gix_refspec::RefSpecRef;
use gix_refspec::match_group::RefPrefixes;
use gix_refspec::parsing::Operation;
use std::alloc::{AllocError, Global};

/// The prefix of the ref names that a refspec has on the remote, by the source of a fetch or the
/// destination of a push: a full name, `HEAD`, or the prefix of a pattern below `refs/`. Empty if it
/// has none. After a failure `prefix` is unchanged.
#[unsafe(no_mangle)]
pub extern "C" fn gix_refspec_prefix<'a>(
    alloc: Global,
    text: &'a [u8],
    operation: u32,
    prefix: &mut Text<'a>,
) -> u32
    ensures { Answers code_of operation
        (λ op. HasPrefixOrNothing op text.now prefix.new.bytes.now)
        (λ op f. IsUnread op text.now f × (prefix.new ≡ prefix.old))
        (prefix.new ≡ prefix.old) result }
{
    match operation_of(operation) {
        Some(operation) => outcome_of(find_prefix(alloc, text, operation, prefix)),
        None => Failure::NoOperation.number(),
    }
}

/// The expansion of a refspec: its prefix, or the six names that a partial name may stand for, one per
/// line. It may be empty, contain a star, or for `HEAD` be incomplete: `gix_refspec_prefixes` says what
/// to ask a server for. Sets `len` to the required size even if `buffer` is too small, and leaves
/// `buffer` unchanged then; after any other failure nothing has changed.
#[unsafe(no_mangle)]
pub extern "C" fn gix_refspec_expand_prefixes(
    alloc: Global,
    text: &[u8],
    operation: u32,
    buffer: &mut [u8],
    len: &mut usize,
) -> u32
    ensures { Answers code_of operation
        (λ op. (answer : List ℕ) × IsExpanded op text.now answer ×
        IsWrittenTo answer buffer.old buffer.new len.new)
        (λ op. WritesNothing (IsExpanded op text.now) (IsUnexpanded op text.now)
        buffer.old buffer.new len.old len.new)
        ((buffer.new ≡ buffer.old) × (len.new ≡ len.old)) result }
{
    match operation_of(operation) {
        Some(operation) => outcome_of(expand(alloc, text, operation, buffer, len)),
        None => Failure::NoOperation.number(),
    }
}

/// The ref prefixes to send to a server, one per line, so that it lists each ref that the refspecs
/// take. None begins with another one. If there are none, no request is needed: a server takes an empty
/// list as a request for all refs. Fails with `NoList` if only such a request is safe. Sets `len` to the
/// required size even if `buffer` is too small, and leaves `buffer` unchanged then; after any other
/// failure nothing has changed.
#[unsafe(no_mangle)]
pub extern "C" fn gix_refspec_prefixes(
    alloc: Global,
    texts: &[Text<'_>],
    operation: u32,
    buffer: &mut [u8],
    len: &mut usize,
) -> u32
    ensures { Answers code_of operation
        (λ op. (answer : List ℕ) × IsToAsk op (map bytes_of texts.now) answer ×
        IsWrittenTo answer buffer.old buffer.new len.new)
        (λ op. WritesNothing (IsToAsk op (map bytes_of texts.now))
        (IsUnasked op (map bytes_of texts.now)) buffer.old buffer.new len.old len.new)
        ((buffer.new ≡ buffer.old) × (len.new ≡ len.old)) result }
{
    match operation_of(operation) {
        Some(operation) => outcome_of(ask(alloc, texts, operation, buffer, len)),
        None => Failure::NoOperation.number(),
    }
}

// Sets `prefix` to that of a refspec for the operation, or to an empty text if it has none.
fn find_prefix<'a>(
    alloc: Global,
    text: &'a [u8],
    operation: Operation,
    prefix: &mut Text<'a>,
) -> Result<(), Failure>
    ensures ok { OnOk result (HasPrefixOrNothing operation text.now prefix.new.bytes.now) }
    ensures err { IfErr result (λ f. IsUnread operation text.now f × (prefix.new ≡ prefix.old)) }
{
    let spec = read(alloc, text, operation)?;
    *prefix = Text {
        bytes: prefix_or_nothing(&spec),
    };
    Ok(())
}

// The prefix of a spec, or an empty slice.
fn prefix_or_nothing<'a>(spec: &RefSpecRef<'a>) -> &'a [u8]
    ensures { IsPrefixOrNothing (reading_of spec.now) result.now }
{
    match spec.prefix() {
        Some(prefix) => prefix.as_bytes(),
        None => b"",
    }
}

// Writes the expansion of a refspec for the operation to a buffer.
fn expand(
    alloc: Global,
    text: &[u8],
    operation: Operation,
    buffer: &mut [u8],
    len: &mut usize,
) -> Result<(), Failure>
    ensures ok { OnOk result ((answer : List ℕ) × IsExpanded operation text.now answer ×
        IsWrittenTo answer buffer.old buffer.new len.new) }
    ensures err { IfErr result (WritesNothing
        (IsExpanded operation text.now) (IsUnexpanded operation text.now)
        buffer.old buffer.new len.old len.new) }
{
    let spec = read(alloc, text, operation)?;
    let Ok(lines) = expanded(alloc, &spec) else {
        return Err(Failure::NoMemory);
    };
    write(lines.as_slice(), buffer, len)
}

// The expansion of a spec, one entry per line.
fn expanded(alloc: Global, spec: &RefSpecRef<'_>) -> Result<Vec<u8>, AllocError>
    ensures { IfOk result (λ lines. IsExpandedTo (reading_of spec.now) lines.items) }
{
    let mut names = Vec::new(alloc);
    spec.expand_prefixes(alloc, &mut names)?;
    joined(alloc, names.as_slice())
}

// Writes the ref prefixes of refspecs to a buffer.
fn ask(
    alloc: Global,
    texts: &[Text<'_>],
    operation: Operation,
    buffer: &mut [u8],
    len: &mut usize,
) -> Result<(), Failure>
    ensures ok { OnOk result ((answer : List ℕ) × IsToAsk operation (map bytes_of texts.now) answer ×
        IsWrittenTo answer buffer.old buffer.new len.new) }
    ensures err { IfErr result (WritesNothing
        (IsToAsk operation (map bytes_of texts.now)) (IsUnasked operation (map bytes_of texts.now))
        buffer.old buffer.new len.old len.new) }
{
    let lines = match lines_to_ask(alloc, texts, operation) {
        Ok(lines) => lines,
        Err(failure) => return Err(failure),
    };
    write(lines.as_slice(), buffer, len)
}

// The ref prefixes of refspecs, one per line.
fn lines_to_ask(alloc: Global, texts: &[Text<'_>], operation: Operation) -> Result<Vec<u8>, Failure>
    ensures ok { IfOk result (λ lines. IsToAsk operation (map bytes_of texts.now) lines.items) }
    ensures err { IfErr result (λ f.
        (f ≢ Failure.TooSmall) × IsUnasked operation (map bytes_of texts.now) f) }
{
    let group = match read_all(alloc, texts, operation) {
        Ok(group) => group,
        Err(failure) => return Err(failure),
    };
    match group.ref_prefixes(alloc) {
        Ok(RefPrefixes::Nothing) => Ok(Vec::new(alloc)),
        Ok(RefPrefixes::Listed(names)) => match joined(alloc, names.as_slice()) {
            Ok(lines) => Ok(lines),
            Err(_) => Err(Failure::NoMemory),
        },
        Ok(RefPrefixes::All) => Err(Failure::NoList),
        Err(_) => Err(Failure::NoMemory),
    }
}

// The names, each with a newline at its end.
fn joined(alloc: Global, names: &[BString]) -> Result<Vec<u8>, AllocError>
    ensures { IfOk result (λ lines. lines.items ≡ lines_of (map bstring_bytes names.now)) }
{
    let mut lines = Vec::new(alloc);
    for name in names {
        lines.extend_from_slice(name.as_bytes())?;
        lines.push(b'\n')?;
    }
    Ok(lines)
}
