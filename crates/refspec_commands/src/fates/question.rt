//! What `why` is asked.

use gix_refspec::RefSpecRef;
use gix_refspec::match_group::Item;
use refspec_fetch::question::Tags;

/// A ref of a remote, and the specs of a fetch from it.
#[derive(Clone, Copy, Debug)]
pub struct Question<'q, 'spec, 'item> {
    /// The full name of the ref.
    pub name: &'q [u8],
    /// The specs, in order.
    pub specs: &'q [RefSpecRef<'spec>],
    /// The refs of the remote, in order; none if they aren't known.
    pub refs: &'q [Item<'item>],
    /// Whether these are known.
    pub known: Known,
}

/// Where specs come from: that decides how one is added or left out.
#[derive(Clone, Copy, Debug)]
pub enum Holder<'q> {
    /// From a list.
    List,
    /// From the configuration of a remote.
    Remote(Configured<'q>),
    /// From nowhere, as this URL or path isn't that of a configured remote.
    Url(&'q [u8]),
}

/// A remote that is configured.
#[derive(Clone, Copy, Debug)]
pub struct Configured<'q> {
    pub name: &'q [u8],
    /// Which tags a fetch from it takes besides those of its values.
    pub tags: Tags,
    pub kind: Kind,
}

/// What `git remote set-branches` does with a branch.
#[derive(Clone, Copy, Debug, PartialEq, Eq)]
pub enum Kind {
    /// It adds a value that stores the branch below the folder of the remote.
    Plain,
    /// It adds another one, as the remote is a mirror.
    Mirror,
}

/// Whether the refs of a remote are known.
#[derive(Clone, Copy, Debug, PartialEq, Eq)]
pub enum Known {
    /// They are all those listed.
    Listed,
    /// They aren't: the remote is taken to have the ref of the question alone.
    Assumed,
}
