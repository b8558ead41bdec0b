//! A side of a refspec: its stars, its kind, and its candidates.

ghost use Rattle.std.specs.Prelude.{◌≡◌, ◌∷◌, ◌++◌, codes, map, MatchOption, IfOk};
ghost use Rattle.bstr.specs.Owned.{bstring_bytes};
ghost use Rattle.gix_refspec_text.specs.Texts.Bytes.{star};
ghost use Rattle.gix_refspec_text.specs.Texts.Words.{BeginsWith, Lacks};
ghost use Rattle.gix_refspec_text.specs.Texts.Name.{HasSeveralStars};
ghost use Rattle.gix_refspec_text.specs.Matching.Side.{HasKind, candidates as candidates_of, written_name_of};
ghost use Rattle.gix_refspec_text.specs.Private.SideViews.{AreStarsOf, kind_of_side};

use crate::oid::ObjectId;
use crate::split::contains;
use bstr::{BString, ByteSlice};
use std::alloc::{AllocError, Global};

// How many stars a side has, and the text before and after its only one.
#[derive(Clone, Copy)]
pub(crate) enum Stars<'a> {
    No,
    One { before: &'a [u8], after: &'a [u8] },
    Several,
}

/// The kind of a side. Its texts borrow from the side.
#[derive(Clone, Copy)]
pub enum SideKind<'a> {
    /// One star between two texts.
    Pattern { before: &'a [u8], after: &'a [u8] },
    /// A name that begins with `refs/`.
    FullName(&'a [u8]),
    /// An object id.
    Object(ObjectId),
    /// Any other side, taken as a partial name.
    Partial(&'a [u8]),
}

// Counts the stars of a side, up to two, and splits the side at its only one.
pub(crate) fn stars_of(side: &[u8]) -> Stars<'_>
    ensures { AreStarsOf side.now result }
{
    // Most sides that are asked about have no star, and this is the fastest way to see that.
    if !contains(side, b'*') {
        return Stars::No;
    }
    let Some((before, after)) = split_at_first_star(side) else {
        return Stars::No;
    };
    match split_at_first_star(after) {
        None => Stars::One { before, after },
        Some(_) => Stars::Several,
    }
}

/// The text before and after the first star of a side. `None` if the side has no star.
pub fn split_at_first_star(side: &[u8]) -> Option<(&[u8], &[u8])>
    ensures { MatchOption result
        (Lacks star side.now)
        (λ parts. (side.now ≡ parts.0.now ++ (star ∷ parts.1.now)) × Lacks star parts.0.now) }
{
    let at = side.find_byte(b'*')?;
    let (before, rest) = side.split_at(at);
    Some((before, &rest[1..]))
}

/// The kind of a side, which must have at most one star.
pub fn kind_of(side: &[u8]) -> SideKind<'_>
    requires { ¬ (HasSeveralStars side.now) }
    ensures { HasKind side.now (kind_of_side result) }
{
    if let Some((before, after)) = split_at_first_star(side) {
        return SideKind::Pattern { before, after };
    }
    if strip_refs(side).is_some() {
        return SideKind::FullName(side);
    }
    match ObjectId::from_hex(side) {
        Ok(id) => SideKind::Object(id),
        Err(_) => SideKind::Partial(side),
    }
}

/// Strips `refs/` from the front. `None` if the text doesn't begin with it.
pub fn strip_refs(side: &[u8]) -> Option<&[u8]>
    ensures { MatchOption result
        (¬ (BeginsWith (codes "refs/") side.now))
        (λ rest. side.now ≡ codes "refs/" ++ rest.now) }
{
    match side {
        [b'r', b'e', b'f', b's', b'/', rest @ ..] => Some(rest),
        _ => None,
    }
}

/// The six names that gitrevisions(7) tries for a partial name, in that order. Fails if memory runs out.
pub fn candidates(alloc: Global, name: &[u8]) -> Result<Vec<BString>, AllocError>
    ensures { IfOk result (λ list. map bstring_bytes list.items ≡ candidates_of name.now) }
{
    let mut names = Vec::with_capacity(alloc, 6)?;
    names.push(joined(alloc, b"", name, b"")?)?;
    names.push(joined(alloc, b"refs/", name, b"")?)?;
    names.push(joined(alloc, b"refs/tags/", name, b"")?)?;
    names.push(joined(alloc, b"refs/heads/", name, b"")?)?;
    names.push(joined(alloc, b"refs/remotes/", name, b"")?)?;
    names.push(joined(alloc, b"refs/remotes/", name, b"/HEAD")?)?;
    Ok(names)
}

/// The ref that git-fetch(1) writes for a destination without a star: `refs/` is put before `heads/x`, `tags/x` and
/// `remotes/x`, and `refs/heads/` before anything else that doesn't begin with `refs/`. Fails if memory runs out.
pub fn written_name(alloc: Global, destination: &[u8]) -> Result<BString, AllocError>
    ensures { IfOk result (λ name. bstring_bytes name ≡ written_name_of destination.now) }
{
    let before: &[u8] = if destination.starts_with(b"refs/") {
        b""
    } else if destination.starts_with(b"heads/")
        || destination.starts_with(b"tags/")
        || destination.starts_with(b"remotes/")
    {
        b"refs/"
    } else {
        b"refs/heads/"
    };
    joined(alloc, before, destination, b"")
}

/// `before`, `name` and `after` as one text. Fails if memory runs out.
pub fn joined(
    alloc: Global,
    before: &[u8],
    name: &[u8],
    after: &[u8],
) -> Result<BString, AllocError>
    ensures { IfOk result (λ text. bstring_bytes text ≡ before.now ++ (name.now ++ after.now)) }
{
    let room = before
        .len()
        .saturating_add(name.len())
        .saturating_add(after.len());
    let mut text = Vec::with_capacity(alloc, room)?;
    text.extend_from_slice(before)?;
    text.extend_from_slice(name)?;
    // Mostly empty, as most patterns end with their star. This runs for each mapping of a pattern.
    if !after.is_empty() {
        text.extend_from_slice(after)?;
    }
    Ok(BString::new(text))
}
