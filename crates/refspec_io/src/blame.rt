//! Which part of a refused text is wrong, and what to do about it.

ghost use Rattle.std.specs.Prelude.{◌≡◌, MatchOption};
ghost use Rattle.gix_refspec.specs.Specs.Span.{HasNoSpan};
ghost use Rattle.refspec_io.specs.Wrong.{IsBlame, side_name};

use crate::texts::Text;
use bstr::{BStr, ByteSlice};
use gix_refspec::parsing::{Error, Operation, Side};
use gix_refspec::{locate, name, parse};
use std::alloc::{AllocError, Global};

/// The wrong bytes of a text, which they borrow.
#[derive(Clone, Copy, Debug)]
pub struct Blame<'a> {
    /// The name of the side that contains them.
    pub side: &'static str,
    pub part: &'a [u8],
    /// The index of the first of these bytes in the text, counted from 1.
    pub at: usize,
}

/// The wrong bytes of a text. `None` if the text is a spec, or if something is missing rather than wrong.
pub fn blame_of<'a>(text: &Text<'a>) -> Option<Blame<'a>>
    ensures { MatchOption result (HasNoSpan text.now.operation text.now.bytes.now) (IsBlame text.now) }
{
    let Some(span) = locate(BStr::new(text.bytes), text.operation) else {
        return None;
    };
    let (_, rest) = text.bytes.split_at(span.start);
    let (part, _) = rest.split_at(span.len);
    Some(Blame {
        side: name_of(span.side),
        part,
        at: span.start + 1,
    })
}

// The name of a side, as messages have it.
fn name_of(side: Side) -> &'static str
    ensures { result.now ≡ side_name side }
{
    match side {
        Side::Source => "source",
        Side::Destination => "destination",
    }
}

/// What to do about a refused text, or an empty text if the reason says it.
pub fn advice_for(
    alloc: Global,
    text: &Text<'_>,
    error: &Error,
) -> Result<&'static str, AllocError> {
    if are_specs(alloc, text)? {
        return Ok(
            "These are several specs. Write each by itself; in a configuration, each as a value of its own.",
        );
    }
    Ok(advice_for_one(text, error))
}

// What to do about a text that isn't several specs.
fn advice_for_one(text: &Text<'_>, error: &Error) -> &'static str {
    match error {
        Error::Empty => "To push all matching branches, write `:`.",
        Error::NegativeWithDestination => "Leave out the colon and what stands behind it.",
        Error::NegativeEmpty => "Write what to leave out, as in `^refs/heads/wip/*`.",
        Error::NegativeObjectHash => "Write the name of the ref that is to be left out.",
        Error::PushToEmpty => {
            "To delete a ref, leave the source empty, as in `:main`; to push to the same name, leave out the colon."
        }
        Error::PatternUnsupported { .. } => {
            "Keep one `*`, which stands for any bytes, slashes too; or write several specs."
        }
        Error::PatternUnbalanced => advice_for_pattern(text),
        Error::ReferenceName(fault) => advice_for_name(text.bytes, *fault),
        _ => "",
    }
}

// What to do about a pattern on only one side.
fn advice_for_pattern(text: &Text<'_>) -> &'static str {
    match sides_of(text.bytes) {
        [b"", _] if text.operation == Operation::Push => {
            "To delete refs, name each in a spec of its own, as in `:main`."
        }
        [b"", _] => "Write a source with a `*` too, as in `refs/heads/*:refs/remotes/origin/*`.",
        [source, b""] => advice_for_source(source, text.bytes),
        _ => "Write a `*` into the other side too, or name one ref on both.",
    }
}

// What to do about a pattern without a destination, in the text of a spec: an example of the usual one, forced if the
// spec is.
fn advice_for_source(source: &[u8], text: &[u8]) -> &'static str {
    match (source.starts_with(b"refs/tags/"), text.starts_with(b"+")) {
        (false, false) => {
            "Add a destination with a `*`, as in `refs/heads/*:refs/remotes/origin/*`, or name one ref."
        }
        (false, true) => {
            "Add a destination with a `*`, as in `+refs/heads/*:refs/remotes/origin/*`, or name one ref."
        }
        (true, false) => {
            "Add a destination with a `*`, as in `refs/tags/*:refs/tags/*`, or name one ref."
        }
        (true, true) => {
            "Add a destination with a `*`, as in `+refs/tags/*:refs/tags/*`, or name one ref."
        }
    }
}

// Whether a text is several specs separated by white space. Each must contain a colon or a star, or be negative:
// otherwise the text may be a name with spaces. None begins or ends with a colon: otherwise it may be one spec
// with a space beside its colon.
fn are_specs(alloc: Global, text: &Text<'_>) -> Result<bool, AllocError> {
    let mut count: usize = 0;
    for part in text.bytes.fields() {
        let is_marked = part.starts_with(b"^") || part.contains(&b':') || part.contains(&b'*');
        let is_side = part.starts_with(b":") || part.ends_with(b":");
        if !is_marked || is_side || !is_spec(alloc, part, text.operation)? {
            return Ok(false);
        }
        count = count.saturating_add(1);
    }
    Ok(count > 1)
}

fn is_spec(alloc: Global, text: &[u8], operation: Operation) -> Result<bool, AllocError> {
    match parse(alloc, BStr::new(text), operation) {
        Ok(_) => Ok(true),
        Err(Error::Memory) => Err(AllocError),
        Err(_) => Ok(false),
    }
}

// What to do about an invalid name.
fn advice_for_name(text: &[u8], fault: name::Error) -> &'static str {
    match fault {
        name::Error::InvalidByte { byte: b' ' } if text.starts_with(b"tag ") => {
            "For `tag NAME` of a command line write `refs/tags/NAME:refs/tags/NAME`."
        }
        name::Error::InvalidByte { byte: b' ' } if begins_or_ends(text, b' ') =>
            "Leave out the space.",
        name::Error::InvalidByte { byte: b' ' } => {
            "No ref name has a space. Several specs are written each by itself."
        }
        name::Error::InvalidByte { byte: b'\n' } => "Write each spec by itself.",
        name::Error::InvalidByte { byte: b'\r' } if text.ends_with(b"\r") => {
            "The line ends with a carriage return. End lines with a newline alone."
        }
        name::Error::InvalidByte { byte: b'^' } if begins(text, b'^') => {
            "To exclude refs, begin the spec with one `^`, without a `+`."
        }
        name::Error::InvalidByte { byte: b':' } => {
            "One colon parts the source from the destination, as in `main:refs/remotes/origin/main`. Leave out the others."
        }
        name::Error::InvalidByte { byte: b'~' | b'^' } => {
            "Expressions such as `main~2` stand only before the colon of a push."
        }
        name::Error::InvalidByte { byte: b'?' | b'[' } => "The only wildcard is one `*` a side.",
        name::Error::InvalidByte { .. } => "Leave this byte out, or choose another name.",
        name::Error::ReflogPortion => "Name the ref itself, without the `@{` and what follows it.",
        name::Error::LockSuffix => "Git keeps such names for its lock files. Choose another.",
        name::Error::EmptyComponent => "Leave out the slash that is too much.",
        name::Error::RepeatedDot =>
            "Name one ref, or write one dot: `..` is for ranges of commits, as in `v1..main`.",
        name::Error::EndsWithDot => "Leave out the dot at the end.",
        name::Error::StartsWithDot if has_parent(text) => {
            "Write the name in full: `..` does not lead to a folder above."
        }
        name::Error::StartsWithDot => "Leave out the dot, or write something before it.",
        name::Error::Asterisk => "Name one ref, without a `*`.",
        name::Error::Empty => "Write a ref name.",
    }
}

// Whether a side has a component `..`, as a path may.
fn has_parent(text: &[u8]) -> bool {
    sides_of(text).iter().any(|side| side.starts_with(b"../")
        || side.find(b"/../").is_some()
        || side.ends_with(b"/.."))
}

// Whether some side of a spec begins with a byte.
fn begins(text: &[u8], byte: u8) -> bool {
    sides_of(text)
        .iter()
        .any(|side| side.first() == Some(&byte))
}

// Whether some side of a spec begins or ends with a byte.
fn begins_or_ends(text: &[u8], byte: u8) -> bool {
    begins(text, byte) || sides_of(text).iter().any(|side| side.last() == Some(&byte))
}

// The source and the destination of a spec. A missing destination is empty.
fn sides_of(text: &[u8]) -> [&[u8]; 2] {
    let rest = match text {
        [b'^' | b'+', rest @ ..] => rest,
        _ => text,
    };
    let Some(colon) = rest.rfind_byte(b':') else {
        return [rest, b""];
    };
    let (source, destination) = rest.split_at(colon);
    [source, &destination[1..]]
}
