//! What a new name of a remote makes of its values.

ghost use Rattle.std.specs.Prelude.{map, IfOk, MatchBool};
ghost use Rattle.std.specs.List.{All, AllZip, Any};
ghost use Rattle.refspec_io.specs.Texts.{given_of};
ghost use Rattle.refspec_commands.specs.Renames.{IsValueOf, IsUnchanged};

use bstr::{BStr, BString};
use gix_refspec_remote::renamed;
use refspec_io::texts::Text;
use std::alloc::{AllocError, Global};

/// A remote, and its new name.
#[derive(Clone, Copy, Debug)]
pub struct Renaming<'a> {
    /// The name.
    pub old: &'a [u8],
    /// The new name.
    pub new: &'a [u8],
}

/// A value of a remote, and what its new name makes of it.
#[derive(Debug, Drop)]
pub struct Value<'a> {
    /// The value.
    pub text: &'a [u8],
    /// The value with the new name; `None` if Git leaves it as it is.
    pub renamed: Option<BString>,
}

/// The answer for values, in order. Neither they nor the names are checked. Fails if memory runs out.
pub fn answer_to<'a>(
    alloc: Global,
    renaming: Renaming<'_>,
    texts: &[Text<'a>],
) -> Result<Vec<Value<'a>>, AllocError>
    ensures { IfOk result (λ values. AllZip (IsValueOf renaming.entry.old.now renaming.entry.new.now)
        (map given_of texts.now) values.items) }
{
    let mut values = Vec::with_capacity(alloc, texts.len())?;
    for text in texts {
        values.push(value_of(alloc, renaming, text)?)?;
    }
    Ok(values)
}

// What the new name makes of a value.
fn value_of<'a>(
    alloc: Global,
    renaming: Renaming<'_>,
    text: &Text<'a>,
) -> Result<Value<'a>, AllocError>
    ensures { IfOk result (IsValueOf renaming.entry.old.now renaming.entry.new.now (given_of text.now)) }
{
    let (old, new) = (BStr::new(renaming.old), BStr::new(renaming.new));
    let renamed = renamed(alloc, BStr::new(text.bytes), old, new)?;
    Ok(Value {
        text: text.bytes,
        renamed,
    })
}

/// Whether Git leaves one of these values as it is.
pub fn has_unchanged(values: &[Value<'_>]) -> bool
    ensures { MatchBool result (Any IsUnchanged values.now) (All (λ v. ¬ (IsUnchanged v)) values.now) }
{
    for value in values {
        match &value.renamed {
            None => return true,
            Some(_) => {}
        }
    }
    false
}
