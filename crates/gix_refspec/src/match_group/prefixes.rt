//! The ref prefixes that a client sends to a server, for a whole group.

ghost use Rattle.std.specs.Prelude.{[], ℕ, List, map, MatchBool, MatchOption, IfOk, OnErr};
ghost use Rattle.bstr.specs.Owned.{bstring_bytes};
ghost use Rattle.gix_refspec_match.specs.Matching.Redundant.{NoneBeginsAnother};
ghost use Rattle.gix_refspec.specs.Laws.Items.{NeedsEach};
ghost use Rattle.gix_refspec.specs.Matching.Asked.{CanBeSent, HasNoList, IfNotAll, Lists, ListsBeside, ListsGroup, ListsSide, Requests, RequestsBeside, Serves};
ghost use Rattle.gix_refspec.specs.Private.Requested.{RequestsList};
ghost use Rattle.gix_refspec.specs.Views.Group.{readings_of};
ghost use Rattle.gix_refspec_text.specs.Texts.Name.{HasSeveralStars};
ghost use Rattle.gix_refspec_text.specs.Views.Spec.{reading_of};

use crate::match_group::types::MatchGroup;
use bstr::BString;
use gix_refspec_match::duplicates::redundant::without_redundant;
use gix_refspec_text::RefSpecRef;
use gix_refspec_text::side::{SideKind, candidates, kind_of};
use gix_refspec_text::spec::prefix::{asked_side, is_ref_prefix, one_entry};
use std::alloc::{AllocError, Global};

/// What a client requests from a server by `ls-refs` of gitprotocol-v2(5).
#[derive(Debug, Drop)]
pub enum RefPrefixes {
    /// No ref, as no spec takes one by its name: only negative specs and ids are in the group. Without a
    /// request nothing is listed. A server would take an empty list as a request for all refs.
    Nothing,
    /// The refs whose names begin with one of these, each to be sent as an argument `ref-prefix`. There
    /// are 1 to 65,535, of at most 65,505 bytes, and none begins with another one.
    Listed(Vec<BString>),
    /// All refs, by a request without ref prefixes.
    All,
}

// A server ignores all ref prefixes if there are more.
const MOST_PREFIXES: usize = 65_535;

// What fits into a packet line, of 65,516 bytes, behind `ref-prefix `.
const LONGEST_PREFIX: usize = 65_505;

/// Ref prefixes.
impl<'a> MatchGroup<'a> {
    /// What to request from a server by gitprotocol-v2(5), so that it lists each ref that a group of
    /// fetches maps from left to right: the name of each such ref begins with one of the ref prefixes,
    /// whatever other refs there are.
    ///
    /// A pattern has its prefix, a full name itself, and a partial name or `HEAD` its six candidates.
    /// Negative specs and ids have none. Of these, `Listed` has the ones that don't begin with another
    /// one, in the order of the specs, and of equal ones the first. So each is needed: without it, a
    /// ref that a spec takes could be missing. For a push the ref prefixes are those of the destination.
    ///
    /// `All` if only a request for all refs is safe: some positive spec has a pattern whose star is
    /// outside `refs/`, directly after `refs/`, or after a `]`; or it is a push without a destination;
    /// or the list can't be sent, as it has more than 65,535 ref prefixes or one of more than 65,505
    /// bytes.
    ///
    /// Fails if memory runs out; never if all specs are negative or ask for ids.
    pub fn ref_prefixes(&self, alloc: Global) -> Result<RefPrefixes, AllocError>
        ensures ok { IfOk result (Requests (readings_of self.now)) }
        ensures serves { IfOk result (λ asked. IfNotAll asked (λ list.
            Serves list (readings_of self.now))) }

        // The list is as short as it can be.
        ensures apart { IfOk result (λ asked. IfNotAll asked NoneBeginsAnother) }
        ensures needed { IfOk result (λ asked. IfNotAll asked (λ list.
            NeedsEach list (readings_of self.now))) }

        ensures memory { OnErr result (¬ (ListsGroup (readings_of self.now) [])) }
    {
        self.ref_prefixes_beside(alloc, Vec::new(alloc))
    }

    /// As `ref_prefixes`, with others beside those of the group, which come first: what to request from
    /// a server for both. Fails if memory runs out; never if there is nothing to request.
    pub fn ref_prefixes_beside(
        &self,
        alloc: Global,
        others: Vec<BString>,
    ) -> Result<RefPrefixes, AllocError>
        ensures ok { IfOk result (RequestsBeside
            (map bstring_bytes others.items) (readings_of self.now)) }
        ensures memory { OnErr result (¬ (ListsBeside
            (map bstring_bytes others.items) (readings_of self.now) [])) }
    {
        let Some(mut names) = self.all_names(alloc)? else {
            return Ok(RefPrefixes::All);
        };
        let mut list = others;
        list.append(&mut names)?;
        Ok(request_for(without_redundant(alloc, list)?))
    }

    // The ref prefixes of all specs, one after the other. `None` if some spec has no list.
    fn all_names(&self, alloc: Global) -> Result<Option<Vec<BString>>, AllocError>
        ensures ok { IfOk result (λ asked. MatchOption asked
            (HasNoList (readings_of self.now))
            (λ list. ListsGroup (readings_of self.now) (map bstring_bytes list.items))) }
        ensures memory { OnErr result (¬ (ListsGroup (readings_of self.now) [])) }
    {
        let mut list = Vec::new(alloc);
        for spec in &self.specs {
            let Some(mut names) = names_to_ask(alloc, spec)? else {
                return Ok(None);
            };
            list.append(&mut names)?;
        }
        Ok(Some(list))
    }
}

// What to request by these ref prefixes, of which none begins with another one.
fn request_for(list: Vec<BString>) -> RefPrefixes
    ensures { RequestsList (map bstring_bytes list.items) result }
{
    if list.is_empty() {
        return RefPrefixes::Nothing;
    }
    if can_be_sent(list.as_slice()) {
        return RefPrefixes::Listed(list);
    }
    RefPrefixes::All
}

// Whether a server heeds so many ref prefixes, and each fits into a packet line.
fn can_be_sent(list: &[BString]) -> bool
    ensures { MatchBool result
        (CanBeSent (map bstring_bytes list.now)) (¬ (CanBeSent (map bstring_bytes list.now))) }
{
    if list.len() > MOST_PREFIXES {
        return false;
    }
    for prefix in list {
        if prefix.as_bytes().len() > LONGEST_PREFIX {
            return false;
        }
    }
    true
}

// The ref prefixes of a spec. `None` if no list covers each ref that it takes.
fn names_to_ask(alloc: Global, spec: &RefSpecRef<'_>) -> Result<Option<Vec<BString>>, AllocError>
    ensures ok { IfOk result (λ asked. MatchOption asked
        ((list : List (List ℕ)) → ¬ (Lists (reading_of spec.now) list))
        (λ list. Lists (reading_of spec.now) (map bstring_bytes list.items))) }
    ensures memory { OnErr result (¬ (Lists (reading_of spec.now) [])) }
{
    if spec.is_negative() {
        return Ok(Some(Vec::new(alloc)));
    }
    let Some(side) = asked_side(spec) else {
        return Ok(None);
    };
    list_of(alloc, side)
}

// The ref prefixes of a side. `None` if no list covers each ref that it takes.
fn list_of(alloc: Global, side: &[u8]) -> Result<Option<Vec<BString>>, AllocError>
    requires { ¬ (HasSeveralStars side.now) }
    ensures ok { IfOk result (λ asked. MatchOption asked
        ((list : List (List ℕ)) → ¬ (ListsSide side.now list))
        (λ list. ListsSide side.now (map bstring_bytes list.items))) }
    ensures memory { OnErr result (¬ (ListsSide side.now [])) }
{
    Ok(Some(match kind_of(side) {
        SideKind::Pattern { before, .. } => {
            if !is_ref_prefix(before, b"") {
                return Ok(None);
            }
            one_entry(alloc, before)?
        }
        SideKind::FullName(name) => one_entry(alloc, name)?,
        SideKind::Partial(name) => candidates(alloc, name)?,
        SideKind::Object(_) => Vec::new(alloc),
    }))
}
