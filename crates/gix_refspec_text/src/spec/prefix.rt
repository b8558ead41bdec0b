//! The ref prefixes that a client sends to a server for a refspec.

ghost use Rattle.std.specs.Prelude.{◌≡◌, ◌↔◌, [], ◌∷◌, ℕ, List, map, MatchOption, IsTrue, IfOk, OnOk, OnErr};
ghost use Rattle.bstr.specs.BStr.{bstr_bytes};
ghost use Rattle.bstr.specs.Owned.{bstring_bytes};
ghost use Rattle.gix_refspec_text.specs.Texts.Name.{HasOneStar, HasSeveralStars};
ghost use Rattle.gix_refspec_text.specs.Texts.Bytes.{head};
ghost use Rattle.gix_refspec_text.specs.Matching.Prefix.{IsRefPrefix, HasNoPrefix, IsPrefix, Expands, HasPrefix, IsExpansion, AppendsExpansion, IsAsked};
ghost use Rattle.gix_refspec_text.specs.Laws.Covering.{IsCovering, HasCoveringSource};
ghost use Rattle.gix_refspec_text.specs.Views.Spec.{reading_of};

use crate::parsing::Operation;
use crate::side::{SideKind, candidates, kind_of, strip_refs};
use crate::spec::RefSpecRef;
use crate::split::contains;
use crate::types::Mode;
use bstr::{BStr, BString};
use std::alloc::{AllocError, Global};

impl<'a> RefSpecRef<'a> {
    /// The ref prefix of the spec: that of its side on the remote, the source of a fetch or the
    /// destination of a push.
    ///
    /// A full name is its own prefix; for a pattern it is the text before the star. For `HEAD` it is
    /// `HEAD`, although that may also be a partial name. `None` for a negative spec, a missing side, any
    /// other side that doesn't begin with `refs/`, a star directly after `refs/`, and a pattern that
    /// contains a `]`. Borrows from the text of the spec, or is the constant `HEAD`.
    pub fn prefix(&self) -> Option<BStr<'a>>
        ensures { MatchOption result
            ((p : List ℕ) → ¬ (HasPrefix (reading_of self.now) p))
            (λ p. HasPrefix (reading_of self.now) (bstr_bytes p)) }
    {
        let side = asked_side(self)?;
        let prefix = prefix_of(side)?;
        Some(BStr::new(prefix))
    }

    /// Appends the ref prefixes that a client may send to a server for the spec: its prefix, or for a
    /// partial name the six names that gitrevisions(7) tries, in that order.
    ///
    /// A pattern without a prefix gives nothing that a server can use: itself for `refs/*`, no entry for
    /// `refs/*/head` and `refs/a]/*`, and six names with the star in them if it doesn't begin with
    /// `refs/`. So if a positive spec gives no entry, or one with a star, a client has to ask for all
    /// refs. `MatchGroup::ref_prefixes` of `gix_refspec` decides that for a group. Negative specs, missing
    /// sides and object ids give no entry.
    ///
    /// Fails if memory runs out, and leaves the vector as it was; never fails if the spec gives no entry.
    pub fn expand_prefixes(&self, alloc: Global, out: &mut Vec<BString>) -> Result<(), AllocError>
        ensures ok { OnOk result (AppendsExpansion
            (reading_of self.now) (map bstring_bytes out.old.items)
            (map bstring_bytes out.new.items)) }
        ensures err { OnErr result (out.new.items ≡ out.old.items) }
        ensures memory { OnErr result (¬ (IsExpansion (reading_of self.now) [])) }
    {
        let Some(side) = asked_side(self) else {
            return Ok(());
        };
        let mut entries = expansions_of(alloc, side)?;
        out.append(&mut entries)
    }

    /// Whether the spec is a negative fetch, or a fetch whose source begins with `refs/` and has a prefix,
    /// or is an object id or a partial name other than `HEAD`. Then each ref name that it maps from left to
    /// right begins with an entry of `expand_prefixes`, by the law `cover` of `gix_refspec`. False for
    /// every push.
    pub fn has_covering_source(&self) -> bool
        ensures { IsTrue result ↔ HasCoveringSource (reading_of self.now) }
    {
        if self.op != Operation::Fetch {
            return false;
        }
        match asked_side(self) {
            None => true,
            Some(side) => is_covering(side),
        }
    }
}

/// The side on the remote of a positive spec: the source of a fetch, the destination of a push. `None` for
/// a negative spec, and for a push without a destination.
pub fn asked_side<'a>(spec: &RefSpecRef<'a>) -> Option<&'a [u8]>
    ensures { MatchOption result
        ((x : List ℕ) → ¬ (IsAsked (reading_of spec.now) x))
        (λ side. IsAsked (reading_of spec.now) side.now × ¬ (HasSeveralStars side.now)) }
{
    if spec.mode == Mode::Negative {
        return None;
    }
    let side = spec.remote()?;
    Some(side.as_bytes())
}

fn prefix_of(side: &[u8]) -> Option<&[u8]>
    requires { ¬ (HasSeveralStars side.now) }
    ensures { MatchOption result (HasNoPrefix side.now) (λ p. IsPrefix side.now p.now) }
{
    match kind_of(side) {
        SideKind::Pattern { before, after } => is_ref_prefix(before, after).then_some(before),
        SideKind::FullName(name) => Some(name),
        SideKind::Partial(name) => is_head(name).then_some(name),
        SideKind::Object(_) => None,
    }
}

/// Whether a side is `HEAD`.
pub fn is_head(side: &[u8]) -> bool
    ensures { IsTrue result ↔ (side.now ≡ head) }
{
    side == b"HEAD".as_slice()
}

/// Whether the text before the star of a pattern is a ref prefix: it begins with `refs/` and is longer, and
/// the pattern contains no `]`.
pub fn is_ref_prefix(before: &[u8], after: &[u8]) -> bool
    ensures { IsTrue result ↔ IsRefPrefix before.now after.now }
{
    match strip_refs(before) {
        None | Some([]) => false,
        Some(_) => !contains(before, b']') && !contains(after, b']'),
    }
}

// Whether each ref name that a source takes begins with one of its entries.
fn is_covering(source: &[u8]) -> bool
    requires { ¬ (HasSeveralStars source.now) }
    ensures { IsTrue result ↔ IsCovering source.now }
{
    match kind_of(source) {
        SideKind::Pattern { before, after } => is_ref_prefix(before, after),
        SideKind::FullName(_) | SideKind::Object(_) => true,
        SideKind::Partial(name) => !is_head(name),
    }
}

// The entries of a side: its prefix, itself, its candidates, or none.
fn expansions_of(alloc: Global, side: &[u8]) -> Result<Vec<BString>, AllocError>
    requires { ¬ (HasSeveralStars side.now) }
    ensures ok { IfOk result (λ list. Expands side.now (map bstring_bytes list.items)) }
    ensures memory { OnErr result (¬ (Expands side.now [])) }
{
    match kind_of(side) {
        SideKind::Pattern { before, after } if is_ref_prefix(before, after) => {
            one_entry(alloc, before)
        }
        SideKind::Pattern { .. } => pattern_expansions(alloc, side),
        SideKind::FullName(name) => one_entry(alloc, name),
        SideKind::Partial(name) if is_head(name) => one_entry(alloc, name),
        SideKind::Partial(name) => candidates(alloc, name),
        SideKind::Object(_) => Ok(Vec::new(alloc)),
    }
}

// The entries of a pattern without a prefix.
fn pattern_expansions(alloc: Global, side: &[u8]) -> Result<Vec<BString>, AllocError>
    requires { HasNoPrefix side.now × HasOneStar side.now }
    ensures ok { IfOk result (λ list. Expands side.now (map bstring_bytes list.items)) }
    ensures memory { OnErr result (¬ (Expands side.now [])) }
{
    match strip_refs(side) {
        Some(rest) if contains(rest, b'/') => Ok(Vec::new(alloc)),
        Some(_) => one_entry(alloc, side),
        None => candidates(alloc, side),
    }
}

/// A list of one entry. Fails if memory runs out.
pub fn one_entry(alloc: Global, entry: &[u8]) -> Result<Vec<BString>, AllocError>
    ensures { IfOk result (λ list. map bstring_bytes list.items ≡ entry.now ∷ []) }
{
    let mut entries = Vec::new(alloc);
    entries.push(BString::from_slice(alloc, entry)?)?;
    Ok(entries)
}
