//! Which refs to request from a server.

ghost use Rattle.std.specs.Prelude.{map, IfOk, MatchBool};
ghost use Rattle.bstr.specs.Owned.{bstring_bytes};
ghost use Rattle.gix_refspec.specs.Views.Spec.{reading_of};
ghost use Rattle.refspec_commands.specs.Prefixes.{AreOthers, AreReasons, CanBeListed, IsAnswer};
ghost use Rattle.refspec_commands.specs.Prefixes.{IsReason, IsWhole, TakesWhole};

use bstr::BString;
use gix_refspec::match_group::RefPrefixes;
use gix_refspec::{MatchGroup, RefSpecRef};
use std::alloc::{AllocError, Global};

/// What to request for specs.
#[derive(Debug, Drop)]
pub enum Answer<'a> {
    /// No request is needed.
    Nothing,
    /// The refs with these prefixes, in order, of which none begins with another one.
    Listed(Vec<BString>),
    /// All refs. These specs are the reason: none of them has a list that can be sent. Without such specs, all together
    /// have too many prefixes.
    All(Vec<RefSpecRef<'a>>),
}

/// The answer for specs and for ref prefixes beside theirs, which come first. Fails if memory runs out.
pub fn answer_to<'a>(
    alloc: Global,
    specs: &[RefSpecRef<'a>],
    beside: Vec<BString>,
) -> Result<Answer<'a>, AllocError>
    ensures { IfOk result (IsAnswer (map bstring_bytes beside.items) (map reading_of specs.now)) }
{
    let others = others_of(alloc, specs)?;
    let mut whole = whole_of(alloc, specs, others.as_slice())?;
    let mut list = beside;
    list.append(&mut whole)?;
    let group = MatchGroup { specs: others };
    match group.ref_prefixes_beside(alloc, list)? {
        RefPrefixes::Nothing => Ok(Answer::Nothing),
        RefPrefixes::Listed(list) => Ok(Answer::Listed(list)),
        RefPrefixes::All => Ok(Answer::All(reasons_among(alloc, group.specs.as_slice())?)),
    }
}

// `refs/`, if not all specs are among the others, and otherwise nothing.
fn whole_of(
    alloc: Global,
    specs: &[RefSpecRef<'_>],
    others: &[RefSpecRef<'_>],
) -> Result<Vec<BString>, AllocError>
    requires { AreOthers (map reading_of specs.now) (map reading_of others.now) }
    ensures { IfOk result (λ whole. IsWhole (map reading_of specs.now)
        (map reading_of others.now) (map bstring_bytes whole.items)) }
{
    let mut whole = Vec::new(alloc);
    if others.len() < specs.len() {
        whole.push(BString::from_slice(alloc, b"refs/")?)?;
    }
    Ok(whole)
}

// The specs, in order, except positive ones with a star right after `refs/` of the remote: for those Git requests
// `refs/` itself, and the library has no prefix.
fn others_of<'a>(alloc: Global, specs: &[RefSpecRef<'a>]) -> Result<Vec<RefSpecRef<'a>>, AllocError>
    ensures { IfOk result (λ others. AreOthers
        (map reading_of specs.now) (map reading_of others.items)) }
{
    let mut others = Vec::with_capacity(alloc, specs.len())?;
    for spec in specs {
        if !takes_whole(spec) {
            others.push(*spec)?;
        }
    }
    Ok(others)
}

// Whether a spec is positive, and the star of its side on the remote is right after `refs/`.
fn takes_whole(spec: &RefSpecRef<'_>) -> bool
    ensures { MatchBool result
        (TakesWhole (reading_of spec.now)) (¬ (TakesWhole (reading_of spec.now))) }
{
    if spec.is_negative() {
        return false;
    }
    match spec.remote() {
        None => false,
        Some(side) => side.as_bytes().starts_with(b"refs/*"),
    }
}

// The specs without a list that can be sent, in order.
fn reasons_among<'a>(
    alloc: Global,
    specs: &[RefSpecRef<'a>],
) -> Result<Vec<RefSpecRef<'a>>, AllocError>
    ensures { IfOk result (λ reasons. AreReasons
        (map reading_of specs.now) (map reading_of reasons.items)) }
{
    let mut reasons = Vec::new(alloc);
    for spec in specs {
        if is_reason(alloc, spec)? {
            reasons.push(*spec)?;
        }
    }
    Ok(reasons)
}

// Whether a spec alone has no list that can be sent.
fn is_reason(alloc: Global, spec: &RefSpecRef<'_>) -> Result<bool, AllocError>
    ensures { IfOk result (λ is. MatchBool is
        (IsReason (reading_of spec.now)) (CanBeListed (reading_of spec.now))) }
{
    let specs = Vec::from_slice(alloc, &[*spec])?;
    let group = MatchGroup { specs };
    match group.ref_prefixes(alloc)? {
        RefPrefixes::All => Ok(true),
        _ => Ok(false),
    }
}
