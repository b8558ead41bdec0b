//! What renaming a remote makes of its fetch values.

ghost use Rattle.std.specs.Prelude.{IfOk, MatchOption};
ghost use Rattle.bstr.specs.BStr.{bstr_bytes};
ghost use Rattle.bstr.specs.Owned.{bstring_bytes};
ghost use Rattle.gix_refspec_text.specs.Texts.Words.{ContainsText};
ghost use Rattle.gix_refspec_remote.specs.Rename.{IsRenamed, stored_below};

use bstr::{BStr, BString};
use gix_refspec_text::side::joined;
use memchr::memmem;
use std::alloc::{AllocError, Global};

/// What `git remote rename <old> <new>` makes of one value of `remote.<old>.fetch`: the first `:refs/remotes/<old>/` in it
/// becomes `:refs/remotes/<new>/`, and all else stays as it is written. `None` if the value doesn't contain that: Git
/// then leaves it, with a warning.
///
/// So only a destination changes, and only in the folder of the remote: `a:refs/remotes/<old>` stays, and a negative value
/// does. Neither the value nor the names are checked. Takes time linear in their lengths. Fails if memory runs out.
pub fn renamed(
    alloc: Global,
    value: BStr<'_>,
    old: BStr<'_>,
    new: BStr<'_>,
) -> Result<Option<BString>, AllocError>
    ensures { IfOk result (λ text. MatchOption text
        (¬ (ContainsText (stored_below (bstr_bytes old.entry)) (bstr_bytes value.entry)))
        (λ text. IsRenamed (bstr_bytes value.entry) (bstr_bytes old.entry) (bstr_bytes new.entry)
        (bstring_bytes text))) }
{
    let found = joined(alloc, b":refs/remotes/", old.as_bytes(), b"/")?;
    let put = joined(alloc, b":refs/remotes/", new.as_bytes(), b"/")?;
    let value = value.as_bytes();
    let found = found.as_bstr().as_bytes();
    match memmem::find(value, found) {
        None => Ok(None),
        Some(index) => {
            let after = &value[index + found.len()..];
            let text = joined(alloc, &value[..index], put.as_bstr().as_bytes(), after)?;
            Ok(Some(text))
        }
    }
}
