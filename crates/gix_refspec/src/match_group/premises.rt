//! Tests for the conditions of the laws on matching.

ghost use Rattle.std.specs.Prelude.{◌↔◌, IsTrue, MatchBool, codes};
ghost use Rattle.std.specs.List.{AllByRecursion};
ghost use Rattle.gix_refspec_text.specs.Texts.Words.{BeginsWith};
ghost use Rattle.gix_refspec_text.specs.Views.Spec.{reading_of};
ghost use Rattle.gix_refspec.specs.Views.Group.{readings_of};
ghost use Rattle.gix_refspec_text.specs.Laws.Covering.{HasCoveringSource};
ghost use Rattle.gix_refspec.specs.Laws.Items.{AsksForNoId, HasIdDestination};
ghost use Rattle.gix_refspec.specs.Laws.Matching.{GoesBothWays};

use crate::match_group::types::MatchGroup;
use gix_refspec_text::RefSpecRef;
use gix_refspec_text::oid::is_id;
use gix_refspec_text::side::strip_refs;
use gix_refspec_text::split::contains;

impl<'a> MatchGroup<'a> {
    /// Whether each positive spec with two sides has two patterns, or two sides that begin `refs/`. Then
    /// both directions agree, by the law `transpose`.
    pub fn goes_both_ways(&self) -> bool
        ensures { IsTrue result ↔ AllByRecursion GoesBothWays (readings_of self.now) }
    {
        for spec in &self.specs {
            if !goes_both_ways(spec) {
                return false;
            }
        }
        true
    }

    /// Whether each spec has a covering source, as `RefSpecRef::has_covering_source` tests. Then each
    /// name that the group maps from left to right begins with an entry of its spec's expansion, by the
    /// law `cover`.
    pub fn has_covering_sources(&self) -> bool
        ensures { IsTrue result ↔ AllByRecursion HasCoveringSource (readings_of self.now) }
    {
        for spec in &self.specs {
            if !spec.has_covering_source() {
                return false;
            }
        }
        true
    }

    /// Whether no spec has an object id as its destination. Then the names of items decide alone which are mapped
    /// back, by the law `names_decide_back`.
    pub fn asks_for_no_id(&self) -> bool
        ensures { IsTrue result ↔ AsksForNoId (readings_of self.now) }
    {
        for spec in &self.specs {
            if has_id_destination(spec) {
                return false;
            }
        }
        true
    }
}

/// Whether the destination of a spec is an object id: from right to left the spec then matches items by their ids.
pub fn has_id_destination(spec: &RefSpecRef<'_>) -> bool
    ensures { MatchBool result
        (HasIdDestination (reading_of spec.now))
        (¬ (HasIdDestination (reading_of spec.now))) }
{
    match spec.destination() {
        None => false,
        Some(destination) => is_id(destination.as_bytes()),
    }
}

// Whether a spec is negative, or lacks a side, or has two patterns, or two sides that begin `refs/`.
// Either both sides have a star or neither does, so a test of the source is enough.
fn goes_both_ways(spec: &RefSpecRef<'_>) -> bool
    ensures { IsTrue result ↔ GoesBothWays (reading_of spec.now) }
{
    if spec.is_negative() {
        return true;
    }
    match (spec.source(), spec.destination()) {
        (Some(source), Some(destination)) => {
            let (source, destination) = (source.as_bytes(), destination.as_bytes());
            contains(source, b'*') || are_below_refs(source, destination)
        }
        _ => true,
    }
}

// Whether both sides begin `refs/`.
fn are_below_refs(source: &[u8], destination: &[u8]) -> bool
    ensures { IsTrue result ↔
        (BeginsWith (codes "refs/") source.now × BeginsWith (codes "refs/") destination.now) }
{
    strip_refs(source).is_some() && strip_refs(destination).is_some()
}
