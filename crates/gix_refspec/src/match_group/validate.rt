//! Whether the mappings of an outcome can be written.

ghost use Rattle.std.specs.Prelude.{◌≡◌, ◌≢◌, ◌↔◌, [], map, IfOk, IfErr, OnErr, IsTrue};
ghost use Rattle.std.specs.List.{AllByRecursion};
ghost use Rattle.gix_refspec_text.specs.Views.Spec.{reading_of};
ghost use Rattle.gix_refspec_match.specs.Views.Mapping.{mapped_of, name_bytes};
ghost use Rattle.gix_refspec.specs.Views.Group.{readings_of};
ghost use Rattle.gix_refspec.specs.Matching.Validation.{IndexesFit, AreConflicts, AreFixes, IsValidated, IsWritable, Survives};
ghost use Rattle.gix_refspec.specs.Views.Issue.{mappings_of, removed_of};

mod conflicts;

use crate::match_group::types::match_lhs;
use bstr::BString;
pub use conflicts::destinations_differ;
use conflicts::issues_of;
use gix_refspec_match::types::{Mapping, NameRef, Source};
use gix_refspec_text::spec::prefix::is_head;
use gix_refspec_text::{RefSpec, RefSpecRef};
use std::alloc::{AllocError, Global};
use std::{error, fmt};

/// Why mappings can't be written. An error of `validated` has at least one issue.
#[derive(Debug, Drop)]
pub struct Error {
    /// The issues, in the byte order of their destinations.
    pub issues: Vec<Issue>,
}

impl fmt::Display for Error {
    fn fmt<W: fmt::Write>(&self, f: &mut fmt::Formatter<W>) -> fmt::Result {
        let count = self.issues.len();
        let noun = if count == 1 {
            "issue that prevents"
        } else {
            "issues that prevent"
        };
        write!(
            f,
            "Found {count} {noun} the refspec mapping to be used: \n\t"
        )?;
        for (at, issue) in self.issues.iter().enumerate() {
            if at > 0 {
                f.write_str("\n\t")?;
            }
            write!(f, "{issue}")?;
        }
        Ok(())
    }
}

impl error::Error for Error {}

/// Something that keeps mappings from being written.
#[derive(Debug, Drop, PartialEq, Eq)]
pub enum Issue {
    /// Several sources are mapped to one destination, even if they have the same object.
    Conflict {
        /// The destination. It need not be a full name: that of a pattern may be `foo/x`.
        destination_full_ref_name: BString,
        /// The sources, in the order of their first mappings to the destination.
        sources: Vec<Source>,
        /// The canonical text of the spec of that first mapping, for each source.
        specs: Vec<BString>,
    },
}

impl fmt::Display for Issue {
    fn fmt<W: fmt::Write>(&self, f: &mut fmt::Formatter<W>) -> fmt::Result {
        let Issue::Conflict {
            destination_full_ref_name,
            sources,
            specs,
        } = self;
        write!(
            f,
            "Conflicting destination {destination_full_ref_name:?} would be written by "
        )?;
        for (at, (source, spec)) in sources.iter().zip(specs).enumerate() {
            if at > 0 {
                f.write_str(", ")?;
            }
            write!(f, "{source} ({spec:?})")?;
        }
        Ok(())
    }
}

/// What was changed so that the mappings can be written.
#[derive(Debug, Drop, PartialEq, Eq)]
pub enum Fix {
    /// A mapping was removed because its destination neither begins `refs/` nor is `HEAD`.
    MappingWithPartialDestinationRemoved {
        /// The destination.
        name: BString,
        /// The spec of the mapping.
        spec: RefSpec,
    },
}

impl Fix {
    /// A copy of the fix, which borrows nothing. Fails if memory runs out.
    pub fn clone(&self, alloc: Global) -> Result<Fix, AllocError>
        ensures { IfOk result (λ copy. removed_of copy ≡ removed_of self.now) }
    {
        let Fix::MappingWithPartialDestinationRemoved { name, spec } = self;
        Ok(Fix::MappingWithPartialDestinationRemoved {
            name: BString::from_slice(alloc, name.as_bstr())?,
            spec: spec.clone(alloc)?,
        })
    }
}

/// Why a validation fails.
#[derive(Debug, Drop)]
pub enum Refusal<'spec, 'item> {
    /// The mappings can't be written. The outcome is dropped.
    Conflicts(Error),
    /// Memory ran out. Holds the unchanged outcome.
    Memory(match_lhs::Outcome<'spec, 'item>),
}

impl<'spec, 'item> fmt::Display for Refusal<'spec, 'item> {
    fn fmt<W: fmt::Write>(&self, f: &mut fmt::Formatter<W>) -> fmt::Result {
        match self {
            Refusal::Conflicts(error) => write!(f, "{error}"),
            Refusal::Memory(_) => f.write_str("out of memory"),
        }
    }
}

impl<'spec, 'item> error::Error for Refusal<'spec, 'item> {}

/// Validation.
impl<'spec, 'item> match_lhs::Outcome<'spec, 'item> {
    ghost use Rattle.gix_refspec.specs.Views.Issue.{IfConflicts, IfMemory};

    /// Whether the `spec_index` of each mapping is that of a spec of the group: the condition of
    /// [`validated`](Self::validated). False only if the outcome was changed by hand.
    pub fn indexes_fit(&self) -> bool
        ensures { IsTrue result ↔ IndexesFit (readings_of self.now.group) (mappings_of self.now) }
    {
        for mapping in &self.mappings {
            if mapping.spec_index >= self.group.specs.len() {
                return false;
            }
        }
        true
    }

    /// Removes the mappings whose destination neither begins `refs/` nor is `HEAD`, and lists them as
    /// fixes; both lists are in order. Mappings without a destination are kept. Whether a destination
    /// below `refs/` is a valid ref name isn't checked: `without_invalid_names` does that.
    ///
    /// Requires that the spec of each mapping is one of the group. That holds for what `match_lhs`
    /// returns, by the law [`forward_fits`](crate::laws::forward_fits), and for what
    /// `without_invalid_names` keeps of that, by [`writes_refs`](crate::laws::writes_refs). For any
    /// other outcome `indexes_fit` checks it.
    ///
    /// Fails with `Conflicts` if several sources are mapped to one destination, even if that would be
    /// removed. There is an issue for each such destination, in the byte order of the destinations. It
    /// lists each source once, in the order of their first mappings to this destination, with the
    /// canonical text of the spec of that mapping. The outcome is dropped.
    ///
    /// Fails with `Memory` if memory runs out; never without mappings. The error holds the unchanged
    /// outcome.
    pub fn validated(
        mut self,
        alloc: Global,
    ) -> Result<(match_lhs::Outcome<'spec, 'item>, Vec<Fix>), Refusal<'spec, 'item>>
        requires { IndexesFit (readings_of self.group) (mappings_of self) }
        ensures ok { IfOk result (λ v. (v.0.group ≡ self.entry.group) × IsValidated
            (readings_of self.entry.group) (mappings_of self.entry)
            (mappings_of v.0) (map removed_of v.1.items)) }
        ensures conflicts { IfErr result (λ e. IfConflicts e (λ conflicts.
            (conflicts ≢ []) × AreConflicts
            (readings_of self.entry.group) (mappings_of self.entry) conflicts)) }
        ensures memory { IfErr result (λ e. IfMemory e (λ o.
            (o ≡ self.entry) × (mappings_of self.entry ≢ []))) }
    {
        let specs = self.group.specs.as_slice();
        let Ok(issues) = issues_of(alloc, specs, self.mappings.as_slice()) else {
            return Err(Refusal::Memory(self));
        };
        if !issues.is_empty() {
            return Err(Refusal::Conflicts(Error { issues }));
        }
        let Ok(fixes) = fixes_of(alloc, specs, self.mappings.as_slice()) else {
            return Err(Refusal::Memory(self));
        };
        if fixes.is_empty() {
            return Ok((self, fixes));
        }
        self.mappings.retain(|mapping| survives(mapping));
        Ok((self, fixes))
    }
}

// Fixes for the mappings that don't survive, in order.
fn fixes_of(
    alloc: Global,
    specs: &[RefSpecRef<'_>],
    mappings: &[Mapping<'_, '_>],
) -> Result<Vec<Fix>, AllocError>
    requires { IndexesFit (map reading_of specs.now) (map mapped_of mappings.now) }
    ensures ok { IfOk result (λ fixes. AreFixes
        (map reading_of specs.now) (map mapped_of mappings.now) (map removed_of fixes.items)) }
    ensures none { IfOk result (λ fixes. fixes.items ≡ [] →
        AllByRecursion Survives (map mapped_of mappings.now)) }
    ensures memory { OnErr result (map mapped_of mappings.now ≢ []) }
{
    let mut fixes = Vec::new(alloc);
    for mapping in mappings {
        if let Some(name) = &mapping.rhs {
            if !can_be_written(name) {
                fixes.push(Fix::MappingWithPartialDestinationRemoved {
                    name: BString::from_slice(alloc, name.as_bstr())?,
                    spec: specs[mapping.spec_index].to_owned(alloc)?,
                })?;
            }
        }
    }
    Ok(fixes)
}

// Whether a mapping has no destination, or one that can be written.
fn survives(mapping: &Mapping<'_, '_>) -> bool
    ensures { IsTrue result ↔ Survives (mapped_of mapping.now) }
{
    match &mapping.rhs {
        None => true,
        Some(name) => can_be_written(name),
    }
}

fn can_be_written(name: &NameRef<'_>) -> bool
    ensures { IsTrue result ↔ IsWritable (name_bytes name.now) }
{
    is_writable(name.as_bstr().as_bytes())
}

/// Whether a destination can be written: it begins `refs/`, or is `HEAD`. It need not be a valid ref name.
pub fn is_writable(destination: &[u8]) -> bool
    ensures { IsTrue result ↔ IsWritable destination.now }
{
    destination.starts_with(b"refs/") || is_head(destination)
}
