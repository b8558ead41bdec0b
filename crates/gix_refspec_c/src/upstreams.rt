//! The upstream of a branch.

ghost use Rattle.std.specs.Prelude.{◌≡◌, map, IfErr, OnOk};
ghost use Rattle.gix_refspec_remote.specs.Views.{shown};
ghost use Rattle.gix_refspec_c.specs.Group.{AreUnread, bytes_of};
ghost use Rattle.gix_refspec_c.specs.Outcome.{Concludes};
ghost use Rattle.gix_refspec_c.specs.Upstreams.{IsNotToldAs, IsToldAs, IsUpstreamIn, UpstreamShown, WritesNoUpstream};
ghost use Rattle.gix_refspec_c.specs.Upstreams.{shown_as, shown_in};

use crate::explanation::Text;
use crate::failure::{Failure, outcome_of};
use crate::reading::read_all;
use crate::write::write;
use bstr::BStr;
use gix_refspec::parsing::Operation;
use gix_refspec_remote::{Upstream, upstream_of};
use std::alloc::Global;

/// The upstream of a branch, for C. The name of a tracking ref is at the start of the buffer.
#[repr(C)]
#[derive(Clone, Copy)]
pub struct UpstreamOut {
    /// From 1: a ref is tracked, the merged ref is excluded, isn't stored, isn't fetched.
    pub kind: u32,
    /// The index of the spec, or `usize::MAX` if none fetches the merged ref.
    pub spec: usize,
    /// The index of the negative spec that excludes the merged ref, else `usize::MAX`.
    pub excluded_by: usize,
    /// The length of the name of the tracking ref, and 0 if there is none.
    pub len: usize,
}

/// What is written of an upstream.
#[derive(Clone, Copy)]
pub(crate) struct Shown<'a> {
    pub(crate) kind: u32,
    pub(crate) spec: usize,
    pub(crate) excluded_by: usize,
    pub(crate) name: &'a [u8],
}

/// The upstream of a branch that merges a ref, by the fetch specs of its remote, or why there is none. Sets
/// `upstream` even if `buffer` is too small, and leaves `buffer` unchanged then; after any other failure
/// nothing has changed.
#[unsafe(no_mangle)]
pub extern "C" fn gix_refspec_upstream(
    alloc: Global,
    texts: &[Text<'_>],
    merge: &[u8],
    buffer: &mut [u8],
    upstream: &mut UpstreamOut,
) -> u32
    ensures { Concludes
        ((s : UpstreamShown) × IsUpstreamIn (map bytes_of texts.now) merge.now s ×
        IsToldAs s buffer.old buffer.new upstream.new)
        (WritesNoUpstream (IsUpstreamIn (map bytes_of texts.now) merge.now)
        (AreUnread Operation.Fetch (map bytes_of texts.now)) buffer.old buffer.new upstream.old upstream.new)
        result }
{
    outcome_of(find_upstream(alloc, texts, merge, buffer, upstream))
}

// Writes the upstream of a branch that merges a ref.
fn find_upstream(
    alloc: Global,
    texts: &[Text<'_>],
    merge: &[u8],
    buffer: &mut [u8],
    upstream: &mut UpstreamOut,
) -> Result<(), Failure>
    ensures ok { OnOk result ((s : UpstreamShown) × IsUpstreamIn (map bytes_of texts.now) merge.now s ×
        IsToldAs s buffer.old buffer.new upstream.new) }
    ensures err { IfErr result (WritesNoUpstream (IsUpstreamIn (map bytes_of texts.now) merge.now)
        (AreUnread Operation.Fetch (map bytes_of texts.now)) buffer.old buffer.new upstream.old upstream.new) }
{
    let group = match read_all(alloc, texts, Operation::Fetch) {
        Ok(group) => group,
        Err(failure) => return Err(failure),
    };
    match upstream_of(alloc, group.specs.as_slice(), BStr::new(merge)) {
        Ok(found) => write_upstream(told_of(&found), buffer, upstream),
        Err(_) => Err(Failure::NoMemory),
    }
}

// What is written of an upstream.
fn told_of<'a>(found: &'a Upstream<'_>) -> Shown<'a>
    ensures { shown_in result ≡ shown_as (shown found.now) }
{
    match found {
        Upstream::Tracked { name, spec_index } => Shown {
            kind: 1,
            spec: *spec_index,
            excluded_by: usize::MAX,
            name: name.as_bstr().as_bytes(),
        },
        Upstream::Excluded {
            spec_index,
            excluded_by,
        } => Shown {
            kind: 2,
            spec: *spec_index,
            excluded_by: *excluded_by,
            name: b"",
        },
        Upstream::NotStored { spec_index } => Shown {
            kind: 3,
            spec: *spec_index,
            excluded_by: usize::MAX,
            name: b"",
        },
        Upstream::NotFetched => Shown {
            kind: 4,
            spec: usize::MAX,
            excluded_by: usize::MAX,
            name: b"",
        },
    }
}

// Copies the name to the start of a slice, if that is long enough, and sets the struct in any case.
fn write_upstream(
    shown: Shown<'_>,
    buffer: &mut [u8],
    upstream: &mut UpstreamOut,
) -> Result<(), Failure>
    ensures ok { OnOk result (IsToldAs (shown_in shown.entry) buffer.old buffer.new upstream.new) }
    ensures small { IfErr result (λ f. (f ≡ Failure.TooSmall) ×
        IsNotToldAs (shown_in shown.entry) buffer.old buffer.new upstream.new) }
{
    upstream.kind = shown.kind;
    upstream.spec = shown.spec;
    upstream.excluded_by = shown.excluded_by;
    write(shown.name, buffer, &mut upstream.len)
}
