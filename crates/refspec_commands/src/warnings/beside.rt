//! What a fetch takes besides its values.

ghost use Rattle.std.specs.Prelude.{◌≡◌, ◌++◌, map, option_to_list, IfOk};
ghost use Rattle.gix_refspec_text.specs.Views.Spec.{reading_of};
ghost use Rattle.gix_refspec_lint.specs.Views.Lint.{configuration_of};
ghost use Rattle.refspec_io.specs.Texts.{given_of};
ghost use Rattle.refspec_commands.specs.Warned.{excludable_by, fetched_by, nothing_asked};
ghost use Rattle.refspec_commands.specs.WarnedViews.{asked_of};

use super::group::Group;
use bstr::BStr;
use gix_refspec::RefSpecRef;
use gix_refspec::parsing::Operation;
use gix_refspec_lint::Configured;
use refspec_io::texts::{Location, Text};
use std::alloc::{AllocError, Global};

// The value for all tags, as Git adds it.
const ALL_TAGS: &[u8] = b"refs/tags/*:refs/tags/*";

/// What the configuration of a remote asks a fetch for besides the values of its key.
#[derive(Debug, Drop)]
pub struct Beside<'a> {
    /// Each `branch.<name>.merge` of the branches that pull from the remote.
    pub merges: Vec<BStr<'a>>,
    pub tags: Tags<'a>,
}

/// Which tags a fetch takes besides.
#[derive(Clone, Copy, Debug)]
pub enum Tags<'a> {
    /// Those that point to objects that it fetches.
    Followed,
    /// All, by `tagOpt` at this location.
    All(Location<'a>),
    /// All, by `pruneTags` at this location: they count as one more value.
    Pruned(Location<'a>),
    /// None.
    Ignored,
}

impl<'a> Beside<'a> {
    /// Nothing but the tags that are followed.
    pub fn nothing(alloc: Global) -> Beside<'a>
        ensures { asked_of result ≡ nothing_asked }
    {
        Beside {
            merges: Vec::new(alloc),
            tags: Tags::Followed,
        }
    }

    // What a fetch asks for by the values of a group.
    pub(super) fn configured<'c>(&'c self, group: &'c Group<'a>) -> Configured<'c, 'a>
        ensures { configuration_of result ≡ fetched_by (asked_of self.now) (map reading_of group.now.specs.items) }
    {
        Configured {
            values: group.specs.as_slice(),
            merges: self.merges.as_slice(),
            tags: matches!(self.tags, Tags::All(_) | Tags::Pruned(_)),
        }
    }

    // The same for exclusions: these also leave out tags that a fetch follows.
    pub(super) fn excludable<'c>(&'c self, group: &'c Group<'a>) -> Configured<'c, 'a>
        ensures { configuration_of result ≡ excludable_by (asked_of self.now) (map reading_of group.now.specs.items) }
    {
        Configured {
            values: group.specs.as_slice(),
            merges: self.merges.as_slice(),
            tags: !matches!(self.tags, Tags::Ignored),
        }
    }

    // The texts of a group, and behind them that of all tags, if these are asked for.
    pub(super) fn texts_of(
        &self,
        alloc: Global,
        group: &Group<'a>,
    ) -> Result<Vec<Text<'a>>, AllocError>
        ensures { IfOk result (λ texts. map given_of texts.items
            ≡ map given_of group.now.texts.items ++ option_to_list (asked_of self.now).tags) }
    {
        let mut texts = Vec::from_slice(alloc, group.texts.as_slice())?;
        match self.tags {
            Tags::Followed | Tags::Ignored => {}
            Tags::All(location) | Tags::Pruned(location) => texts.push(Text {
                location,
                operation: Operation::Fetch,
                bytes: ALL_TAGS,
            })?,
        }
        Ok(texts)
    }
}

// A fetch of values, and of nothing else.
pub(super) fn values_alone<'c, 'spec>(values: &'c [RefSpecRef<'spec>]) -> Configured<'c, 'spec> {
    Configured {
        values,
        merges: &[],
        tags: false,
    }
}
