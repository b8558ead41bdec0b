//! What the needle of a matcher matches, and what the other side of its spec becomes then.

ghost use Rattle.std.specs.Prelude.{◌≡◌, ◌++◌, codes, ◌⊎◌, ◌↔◌, ℕ, List, MatchOption, option_map, IfOk, OnErr, IsTrue, Some};
ghost use Rattle.bstr.specs.Owned.{bstring_bytes};
ghost use Rattle.gix_refspec_text.specs.Texts.ObjectId.{id_bytes, lower_of};
ghost use Rattle.gix_refspec_text.specs.Matching.Side.{Fits, full_name_of};
ghost use Rattle.gix_refspec_match.specs.Views.Mapping.{name_bytes, ref_of};
ghost use Rattle.gix_refspec_text.specs.Private.SideViews.{kind_of_side};
ghost use Rattle.gix_refspec_match.specs.Private.Needles.{IsMade, IsMatched, MatchesListed, filled_side, word_in as word_of};

use crate::types::{Item, NameRef};
use bstr::{BStr, BString};
use gix_refspec_text::oid::ObjectId;
use gix_refspec_text::side::{SideKind, joined};
use std::alloc::{AllocError, Global};

// Whether a needle matches an item that is listed for it. What is listed for a partial name it takes. It is
// inlined, since it is called for each item of each matcher.
#[inline(always)]
pub(crate) fn matches(needle: SideKind<'_>, item: &Item<'_>) -> bool
    ensures { IsTrue result ↔ MatchesListed (kind_of_side needle.entry) (ref_of item.now) }
{
    let name = item.full_ref_name.as_bytes();
    match needle {
        SideKind::Pattern { before, after } => word_between(before, after, name).is_some(),
        SideKind::FullName(full) => name == full,
        SideKind::Object(id) => item.target == &id || item.object == Some(&id),
        SideKind::Partial(_) => true,
    }
}

/// The word of a name between two texts, which never overlap. `None` if the name doesn't begin and end with them.
// Most names that don't begin as they must have another byte at the end of the first text, and comparing that one is faster
// than a call that compares them all.
#[inline(always)]
pub fn word_between<'a>(before: &[u8], after: &[u8], name: &'a [u8]) -> Option<&'a [u8]>
    ensures { MatchOption result
        ((word : List ℕ) → ¬ (Fits before.now after.now name.now word))
        (λ word. Fits before.now after.now name.now word.now) }
{
    let (front, rest) = name.split_at_checked(before.len())?;
    if front.last() != before.last() || front != before {
        return None;
    }
    rest.strip_suffix(after)
}

// The word for the star of a needle that is a pattern, in the name of an item that it matches.
#[inline(always)]
pub(crate) fn word_in<'item>(needle: SideKind<'_>, item: &Item<'item>) -> Option<&'item [u8]>
    requires { IsMatched (kind_of_side needle) (ref_of item.now) }
    ensures { option_map (λ w. w.now) result ≡
        word_of (kind_of_side needle.entry) (ref_of item.now).name }
{
    let SideKind::Pattern { before, after } = needle else {
        return None;
    };
    let name = item.full_ref_name.as_bytes();
    Some(&name[before.len()..name.len() - after.len()])
}

// What a side becomes where the other side matched, with this word or with none. A full name is borrowed from
// the spec.
#[inline(always)]
pub(crate) fn filled<'spec>(
    alloc: Global,
    side: Option<SideKind<'spec>>,
    word: Option<&[u8]>,
) -> Result<Option<NameRef<'spec>>, AllocError>
    ensures value { IfOk result (λ name. option_map name_bytes name ≡
        filled_side side.entry (option_map (λ w. w.now) word.entry)) }
    ensures memory { OnErr result (IsMade side.entry) }
{
    let Some(side) = side else {
        return Ok(None);
    };
    Ok(Some(match side {
        SideKind::FullName(name) => NameRef::Borrowed(BStr::new(name)),
        SideKind::Pattern { before, after } => {
            let word = word.unwrap_or(b"*");
            NameRef::Owned(joined(alloc, before, word, after)?)
        }
        SideKind::Object(id) => NameRef::Owned(branch_of(alloc, &id)?),
        SideKind::Partial(name) => NameRef::Owned(joined(alloc, folder_of(name), name, b"")?),
    }))
}

// The branch that is named by an id.
fn branch_of(alloc: Global, id: &ObjectId) -> Result<BString, AllocError>
    ensures { IfOk result (λ name. bstring_bytes name ≡
        codes "refs/heads/" ++ lower_of (id_bytes id.now)) }
{
    let mut buffer = [0; 64];
    let digits = &mut buffer[..id.kind().len_in_hex()];
    hex::encode_to_slice(id.as_slice(), digits).unwrap();
    joined(alloc, b"refs/heads/", digits, b"")
}

// The folder of the full name that a partial name becomes.
fn folder_of(name: &[u8]) -> &'static [u8]
    ensures { result.now ++ name.now ≡ full_name_of name.now }
{
    if name.starts_with(b"tags/") || name.starts_with(b"remotes/") {
        b"refs/"
    } else {
        b"refs/heads/"
    }
}
