//! What specs do together, whatever refs a remote has: found from the specs alone.
//!
//! ```rust
//! let specs = [
//!     gix_refspec::parse(alloc, BStr::new(b"refs/heads/*:refs/x/*"), Operation::Fetch)?,
//!     gix_refspec::parse(alloc, BStr::new(b"refs/tags/*:refs/x/*"), Operation::Fetch)?,
//! ];
//! let fetch = Configured {
//!     values: specs.as_slice(),
//!     merges: &[],
//!     tags: false,
//! };
//! let found = possible_conflicts(alloc, &fetch, &[])?;    // refs/heads/a and refs/tags/a, both to refs/x/a
//! ```
//!
//! Specs and sources are those of `gix_refspec`, and plans those of `gix_refspec_plan`, on which this crate is built.
#![tactic(auto)]

ghost use Rattle.std.specs.Prelude.{◌≡◌, ℕ, map, IfErr, IfOk};
ghost use Rattle.bstr.specs.BStr.{bstr_bytes};
ghost use Rattle.gix_refspec_text.specs.Views.Spec.{reading_of};
ghost use Rattle.gix_refspec_lint.specs.Matching.Lint.{AreExamples, AreIdle, AreIdleExclusions, AreNestings, IsFree, specs_of};
ghost use Rattle.gix_refspec_lint.specs.Views.Lint.{configuration_of, example_of, nesting_of, unused_of};
ghost use Rattle.gix_refspec_lint.specs.declared.Error.TheVariants as error;

mod alike;
mod asked;
mod borders;
mod conflicts;
mod exclusions;
pub mod group;
pub mod idle;
pub mod laws;
pub mod letter;
mod nestings;
pub mod removal;
pub mod required;
mod runs;
pub mod sound;
pub mod words;

use asked::asked_specs;
use bstr::{BStr, BString};
use conflicts::conflicts_in;
use exclusions::idle_exclusions_in;
use gix_refspec::match_group::Source;
use gix_refspec_plan::mapped::{completed_names, completed_specs};
use gix_refspec_text::RefSpecRef;
use group::Group;
use idle::idle_in;
use letter::free_byte;
use nestings::nestings_in;
use std::alloc::{AllocError, Global};

/// Why nothing can be said of a group of specs.
#[derive(Clone, Copy, Debug, PartialEq, Eq)]
pub enum Error {
    /// Each byte that could stand for any word is in a side of some spec. What is said of a group rests on such a byte: one
    /// that is allowed anywhere in a ref name, and is in none of `refs/`, `tags/`, `heads/`, `remotes/`, `HEAD` and `.lock`.
    NoFreeByte,
    /// Memory ran out.
    Memory,
}

impl From<AllocError> for Error {
    ghost from_gives = { λ _ e. e ≡ error.Memory };

    fn from(_: AllocError) -> Error {
        Error::Memory
    }
}

/// What the configuration of a remote asks a fetch for, without specs of the call.
#[derive(Clone, Copy, Debug)]
pub struct Configured<'c, 'spec> {
    /// The values of `remote.<name>.fetch`, in order.
    pub values: &'c [RefSpecRef<'spec>],
    /// Each `branch.<name>.merge` of the branches whose `branch.<name>.remote` is this remote.
    pub merges: &'c [BStr<'spec>],
    /// Whether all tags are asked for, by `tagOpt = --tags` or `pruneTags`. Then `refs/tags/*:refs/tags/*` counts as one more
    /// value behind the others.
    pub tags: bool,
}

/// Two specs that can write one ref from two sources, with an example. Git refuses the whole fetch then.
#[derive(Debug, Drop)]
pub struct PossibleConflict {
    /// The index of the first spec.
    pub first_spec: usize,
    /// The index of the second spec, which is greater.
    pub second_spec: usize,
    /// A source of the first spec.
    pub first_source: Source,
    /// A source of the second spec.
    pub second_source: Source,
    /// The ref to which both are written on a remote with these two.
    pub destination: BString,
}

/// Two specs of which one can write a ref, and the other a ref in the directory of that, with an example. Git can't store both:
/// it writes one of them, and the fetch ends with status 1.
#[derive(Debug, Drop)]
pub struct PossibleDirectoryConflict {
    /// The index of the spec that writes the directory. It may be greater than the other.
    pub upper_spec: usize,
    /// The index of the spec that writes the ref in it.
    pub lower_spec: usize,
    /// A source of the spec at `upper_spec`.
    pub upper_source: Source,
    /// A source of the spec at `lower_spec`, which may be the same.
    pub lower_source: Source,
    /// The ref to which the first source is written on a remote with these two.
    pub directory: BString,
    /// The ref to which the other is written then: `directory`, a slash, and more.
    pub nested: BString,
}

/// A positive spec that maps nothing of its own.
#[derive(Clone, Copy, Debug, PartialEq, Eq)]
pub struct IdleSpec {
    /// The index of the spec.
    pub spec_index: usize,
    /// Why it maps nothing of its own.
    pub reason: Reason,
    /// Whether some remote lacks its source, and that of no other spec: then a fetch ends with "couldn't find remote ref" only
    /// because of this spec.
    pub is_required: bool,
}

/// Why a spec maps nothing of its own: the first of these that explains it alone.
#[derive(Clone, Copy, Debug, PartialEq, Eq)]
pub enum Reason {
    /// Each mapping has a side that isn't a valid ref name.
    Invalid,
    /// Negative specs exclude each source of a valid mapping: the spec at this index does one.
    Excluded(usize),
    /// The earlier spec at this index maps each source that isn't excluded to the same destination. Of several the first.
    Duplicate(usize),
    /// Several earlier specs do so together, and none of them alone.
    Duplicates,
}

/// The specs that can conflict on some remote, by the first and then by the second, each two with an example.
///
/// Two specs conflict if both map a ref of a remote, or an object, to one destination, and not the same one. Mappings with an
/// invalid side don't count, nor those of sources that a negative spec excludes; it doesn't matter whether an earlier spec
/// makes the same mapping. Destinations are completed as by `plan_fetch`. A remote has no two refs of which one is a directory
/// of the other. So if nothing is found, no update of a plan of these values is in conflict, whatever refs the remote has.
///
/// In an example of two patterns the star stands for the first of `words` with which the two conflict. If they do with none,
/// it stands for a letter that is in no spec, if there is one, otherwise for another byte.
///
/// Each two values are compared: two patterns with each of `words`, at 32 names, and at each in which their texts overlap.
/// Fails if there is no free byte, or if memory runs out.
pub fn possible_conflicts(
    alloc: Global,
    fetch: &Configured<'_, '_>,
    words: &[BStr<'_>],
) -> Result<Vec<PossibleConflict>, Error>
    ensures ok { IfOk result (λ found. AreExamples (specs_of (configuration_of fetch.now)) (map example_of found.items)) }
    ensures refused { IfErr result (λ e. e ≡ error.NoFreeByte →
        (b : ℕ) → ¬ (IsFree (specs_of (configuration_of fetch.now)) b)) }
{
    let specs = asked_specs(alloc, fetch)?;
    let specs = specs.as_slice();
    let letter = free_byte(specs)?;
    let names = completed_names(alloc, specs)?;
    let completed = completed_specs(alloc, specs, names.as_slice())?;
    let group = Group::of(alloc, specs, completed.as_slice(), letter)?;
    Ok(conflicts_in(alloc, &group, words)?)
}

/// The specs of which one can write a ref in the directory of what the other writes, by the lower index and then by the
/// greater, each two with an example.
///
/// What counts is as for [`possible_conflicts`], but the sources may be the same: mappings with an invalid side don't count, nor
/// those of excluded sources, nor remotes of which one ref is a directory of another. A spec isn't compared with itself, though
/// `refs/pull/*/head:refs/pr/*` alone writes `refs/pr/1` and `refs/pr/1/x` on a remote with `refs/pull/1/head` and
/// `refs/pull/1/x/head`.
///
/// Each two values that fetch anything are compared both ways, by the slash behind the directory: each one of the lower
/// destination, and for a pattern also one in the word of its star. Where a directory or what is in it is of a pattern, it is
/// tried with each of `words`, in their order, then at 32 names, and at each in which their texts overlap. The example is the first
/// that is found. Fails if there is no free byte, or if memory runs out.
pub fn possible_directory_conflicts(
    alloc: Global,
    fetch: &Configured<'_, '_>,
    words: &[BStr<'_>],
) -> Result<Vec<PossibleDirectoryConflict>, Error>
    ensures ok { IfOk result (λ found. AreNestings (specs_of (configuration_of fetch.now)) (map nesting_of found.items)) }
    ensures refused { IfErr result (λ e. e ≡ error.NoFreeByte →
        (b : ℕ) → ¬ (IsFree (specs_of (configuration_of fetch.now)) b)) }
{
    let specs = asked_specs(alloc, fetch)?;
    let specs = specs.as_slice();
    let letter = free_byte(specs)?;
    let names = completed_names(alloc, specs)?;
    let completed = completed_specs(alloc, specs, names.as_slice())?;
    let group = Group::of(alloc, specs, completed.as_slice(), letter)?;
    Ok(nestings_in(alloc, &group, words)?)
}

/// The positive values that map nothing of their own, in order, with the reason: over no refs with valid names does a plan have
/// an update of such a value whose sides are valid. But it may be required, as a fetch fails if its source is missing.
///
/// Destinations are completed as by `plan_fetch`. Each value is compared with the earlier ones: a pattern at 32 names, and at
/// one for each byte after its star. Fails if there is no free byte, or if memory runs out.
pub fn idle_specs(alloc: Global, fetch: &Configured<'_, '_>) -> Result<Vec<IdleSpec>, Error>
    ensures ok { IfOk result (λ idle. AreIdle (map reading_of fetch.now.values.now) (map unused_of idle.items)) }
    ensures refused { IfErr result (λ e. e ≡ error.NoFreeByte →
        (b : ℕ) → ¬ (IsFree (map reading_of fetch.now.values.now) b)) }
{
    let specs = fetch.values;
    let letter = free_byte(specs)?;
    let names = completed_names(alloc, specs)?;
    let completed = completed_specs(alloc, specs, names.as_slice())?;
    let group = Group::of(alloc, specs, completed.as_slice(), letter)?;
    Ok(idle_in(alloc, &group)?)
}

/// The indexes of the negative values that exclude nothing, in order: no source of a mapping with valid sides, and no merged
/// ref, whatever refs a remote has and whatever other negative values exclude.
///
/// Each negative value is compared with each other value: two patterns at 32 names, and at each in which their texts overlap.
/// Fails if there is no free byte, or if memory runs out.
pub fn idle_exclusions(alloc: Global, fetch: &Configured<'_, '_>) -> Result<Vec<usize>, Error>
    ensures ok { IfOk result (λ idle. AreIdleExclusions (specs_of (configuration_of fetch.now))
        (map bstr_bytes fetch.now.merges.now) idle.items) }
    ensures refused { IfErr result (λ e. e ≡ error.NoFreeByte →
        (b : ℕ) → ¬ (IsFree (specs_of (configuration_of fetch.now)) b)) }
{
    let specs = asked_specs(alloc, fetch)?;
    let specs = specs.as_slice();
    let letter = free_byte(specs)?;
    let names = completed_names(alloc, specs)?;
    let completed = completed_specs(alloc, specs, names.as_slice())?;
    let group = Group::of(alloc, specs, completed.as_slice(), letter)?;
    Ok(idle_exclusions_in(alloc, &group, fetch.merges)?)
}
