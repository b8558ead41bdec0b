//! Whether the sides of mappings are valid ref names.

ghost use Rattle.std.specs.Prelude.{◌≡◌, ◌↔◌, [], map, IfOk, IfErr, OnErr, IsTrue, MatchOption, Some};
ghost use Rattle.std.specs.List.{AllByRecursion};
ghost use Rattle.gix_refspec_match.specs.Views.Mapping.{mapped_of, name_bytes, start_of};
ghost use Rattle.gix_refspec.specs.Matching.RefNames.{AreLeftOut, IsInvalidAt, HasRefNames, IsRefName, KeepsRefNames, left_out_of};
ghost use Rattle.gix_refspec.specs.Views.Issue.{mappings_of};

use crate::match_group::types::match_lhs;
use bstr::BStr;
use gix_refspec_match::types::{Mapping, NameRef, SourceRef};
use gix_refspec_text::name::name_partial;
use gix_refspec_text::spec::prefix::is_head;
use std::alloc::{AllocError, Global};
use std::{error, fmt};

/// The side of a mapping that isn't a valid ref name.
#[derive(Clone, Copy, Debug, PartialEq, Eq)]
pub enum InvalidSide {
    /// The source alone.
    Source,
    /// The destination alone.
    Destination,
    /// Both.
    Both,
}

/// A mapping that was left out because of an invalid ref name.
#[derive(Debug, Drop)]
pub struct InvalidMapping<'a, 'b> {
    /// A copy of the mapping, which borrows what the original borrowed.
    pub mapping: Mapping<'a, 'b>,
    /// The side that isn't a valid ref name.
    pub side: InvalidSide,
}

/// Memory ran out while names were checked. Holds the unchanged outcome.
#[derive(Debug, Drop)]
pub struct OutOfMemory<'spec, 'item> {
    /// The outcome whose names were to be checked.
    pub outcome: match_lhs::Outcome<'spec, 'item>,
}

impl<'spec, 'item> fmt::Display for OutOfMemory<'spec, 'item> {
    ghost use Rattle.std.specs.Prelude.{codes};

    ghost output = { λ _. Some (codes "out of memory") };

    fn fmt<W: fmt::Write>(&self, f: &mut fmt::Formatter<W>) -> fmt::Result {
        f.write_str("out of memory")
    }
}

impl<'spec, 'item> error::Error for OutOfMemory<'spec, 'item> {}

/// The check of names.
impl<'spec, 'item> match_lhs::Outcome<'spec, 'item> {
    /// Removes the mappings whose source or destination isn't a valid ref name, and lists them, each
    /// with the invalid side; both lists are in order. A valid ref name is `HEAD`, or begins `refs/`
    /// and passes `name_partial`. An id as source is valid, and so is a missing destination.
    ///
    /// A server may advertise `refs/heads/../../x`. After this call each destination is a path below
    /// `refs/`, or `HEAD`. May be called before `validated` or after it; before, so that invalid names
    /// cause no conflicts.
    ///
    /// Fails if memory runs out; never if no mapping has to be removed. The error holds the unchanged
    /// outcome.
    pub fn without_invalid_names(
        mut self,
        alloc: Global,
    ) -> Result<
        (
            match_lhs::Outcome<'spec, 'item>,
            Vec<InvalidMapping<'item, 'spec>>,
        ),
        OutOfMemory<'spec, 'item>,
    >
        ensures ok { IfOk result (λ v. (v.0.group ≡ self.entry.group) × KeepsRefNames
            (mappings_of self.entry) (mappings_of v.0) (map left_out_of v.1.items)) }
        ensures memory { IfErr result (λ e. (e.outcome ≡ self.entry) ×
            ¬ (AllByRecursion HasRefNames (mappings_of self.entry))) }
    {
        let Ok(bad) = invalid_mappings(alloc, self.mappings.as_slice()) else {
            return Err(OutOfMemory { outcome: self });
        };
        if bad.is_empty() {
            return Ok((self, bad));
        }
        self.mappings.retain(|mapping| has_ref_names(mapping));
        Ok((self, bad))
    }
}

// Copies of the mappings with an invalid ref name, in order.
fn invalid_mappings<'a, 'b>(
    alloc: Global,
    mappings: &[Mapping<'a, 'b>],
) -> Result<Vec<InvalidMapping<'a, 'b>>, AllocError>
    ensures ok { IfOk result (λ bad. AreLeftOut
        (map mapped_of mappings.now) (map left_out_of bad.items)) }
    ensures none { IfOk result (λ bad. bad.items ≡ [] →
        AllByRecursion HasRefNames (map mapped_of mappings.now)) }
    ensures memory { OnErr result (¬ (AllByRecursion HasRefNames (map mapped_of mappings.now))) }
{
    let mut bad = Vec::new(alloc);
    for mapping in mappings {
        if let Some(side) = invalid_side(mapping) {
            bad.push(InvalidMapping {
                mapping: mapping.clone(alloc)?,
                side,
            })?;
        }
    }
    Ok(bad)
}

// Whether neither side of a mapping is an invalid ref name.
fn has_ref_names(mapping: &Mapping<'_, '_>) -> bool
    ensures { IsTrue result ↔ HasRefNames (mapped_of mapping.now) }
{
    invalid_side(mapping).is_none()
}

// The side of a mapping that isn't a valid ref name. `None` if both sides are valid.
fn invalid_side(mapping: &Mapping<'_, '_>) -> Option<InvalidSide>
    ensures { MatchOption result
        (HasRefNames (mapped_of mapping.now)) (λ side. IsInvalidAt side (mapped_of mapping.now)) }
{
    let source = match &mapping.lhs {
        SourceRef::FullName(name) => is_valid(name),
        SourceRef::ObjectId(_) => true,
    };
    let destination = match &mapping.rhs {
        None => true,
        Some(name) => is_valid(name),
    };
    match (source, destination) {
        (true, true) => None,
        (false, true) => Some(InvalidSide::Source),
        (true, false) => Some(InvalidSide::Destination),
        (false, false) => Some(InvalidSide::Both),
    }
}

fn is_valid(name: &NameRef<'_>) -> bool
    ensures { IsTrue result ↔ IsRefName (name_bytes name.now) }
{
    is_ref_name(name.as_bstr().as_bytes())
}

/// Whether a text is a valid ref name: `HEAD`, or what begins `refs/` and is a name by git-check-ref-format(1).
pub fn is_ref_name(text: &[u8]) -> bool
    ensures { IsTrue result ↔ IsRefName text.now }
{
    is_head(text) || text.starts_with(b"refs/") && name_partial(BStr::new(text)).is_ok()
}
