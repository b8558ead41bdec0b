//! Matching a group of refspecs against the refs of a repository.

ghost use Rattle.std.specs.Prelude.{◌≡◌, IfOk, IfErr};
ghost use Rattle.gix_refspec.specs.Views.Group.{IsOutcome};
ghost use Rattle.gix_refspec_match.specs.Matching.Hits.{AreKeptForward, AreKeptBackward};

mod prefixes;
mod premises;
pub mod ref_names;
pub(crate) mod types;
pub mod validate;

pub use gix_refspec_match::single::MapName;
pub use gix_refspec_match::types::{Item, Mapping, NameRef, Source, SourceRef};
use gix_refspec_match::{match_backward, match_forward};
pub use prefixes::RefPrefixes;
pub use premises::has_id_destination;
use std::alloc::{AllocError, Global};
use types::MatchGroup;
pub use types::{NoRoom, Outcome, match_lhs, match_rhs};

/// Matching, from left to right and from right to left.
impl<'spec> MatchGroup<'spec> {
    /// Matches items by the sources of the specs, and maps them to their destinations, as git-fetch(1)
    /// does with the refs of a remote.
    ///
    /// The order of the mappings: first those of positive specs with an id as source, by spec and
    /// without an item; then, by spec and then by item, those of the items that the source of a
    /// positive spec takes. A pattern takes each name that it matches, a full name only itself. A
    /// partial name takes the first of the six names tried by gitrevisions(7) that some item has: the
    /// tag `refs/tags/main` for `main`, even if there is a branch of that name too. Negative specs
    /// exclude after that choice: if one excludes the tag, `main` maps nothing. A spec without a
    /// destination gives mappings without one. Of mappings with the same source and destination only
    /// the first is kept, and none whose source is a name that a negative spec excludes.
    ///
    /// Names of items are borrowed from the items, and destinations that are full names from the specs.
    /// Other destinations are owned: a pattern with the word for its star, and the full names that
    /// partial names and ids become.
    ///
    /// Names aren't checked: a server may advertise `refs/heads/../../x`. `without_invalid_names` of
    /// the outcome checks them.
    ///
    /// Fails with `NoRoom` if memory runs out. The error holds the unchanged group.
    pub fn match_lhs<'i>(self, alloc: Global, items: &[Item<'i>]) -> match_lhs::Result<'spec, 'i>
        ensures ok { IfOk result (IsOutcome AreKeptForward self.entry items.now) }
        ensures err { IfErr result (λ e. e.group ≡ self.entry) }
    {
        match match_forward(alloc, self.specs.as_slice(), items) {
            Ok(mappings) => Ok(Outcome {
                group: self,
                mappings,
            }),
            Err(_) => Err(NoRoom { group: self }),
        }
    }

    /// Matches items by the destinations of the specs, and maps them back to their sources: which refs
    /// of a remote belong to these tracking refs.
    ///
    /// Only positive specs with both sides take part. Mappings are ordered by spec and then by item.
    /// The sides swap roles: the destination is the name of an item, borrowed from it, and the source
    /// is filled in by the spec. A partial destination takes all items that have one of its six names.
    /// A destination that is an id matches items that have it as target or object, and a source that is
    /// an id becomes the name of a branch. Negative specs exclude by the source. Names aren't checked:
    /// `without_invalid_names` is for outcomes of `match_lhs` only, and `name_partial` checks a single
    /// name. All else is as in `match_lhs`.
    ///
    /// Fails with `NoRoom` if memory runs out. The error holds the unchanged group.
    pub fn match_rhs<'i>(self, alloc: Global, items: &[Item<'i>]) -> match_rhs::Result<'spec, 'i>
        ensures ok { IfOk result (IsOutcome AreKeptBackward self.entry items.now) }
        ensures err { IfErr result (λ e. e.group ≡ self.entry) }
    {
        match match_backward(alloc, self.specs.as_slice(), items) {
            Ok(mappings) => Ok(Outcome {
                group: self,
                mappings,
            }),
            Err(_) => Err(NoRoom { group: self }),
        }
    }
}
