//! What `track` is asked.

use gix_refspec::RefSpecRef;
use gix_refspec::match_group::Item;

/// The refs to look up, and the specs by which.
#[derive(Debug, Drop)]
pub struct Question<'spec, 'item> {
    /// The refs, in the order of the call. Only their full names matter.
    pub refs: Vec<Item<'item>>,
    /// The remotes, in the order of their names.
    pub remotes: Vec<Remote<'spec>>,
    /// The order of the rows of the report.
    pub order: Order,
}

/// The specs of a remote.
#[derive(Debug, Drop)]
pub struct Remote<'a> {
    /// The name; `None` for the specs of a call that names no remote.
    pub name: Option<&'a [u8]>,
    /// Its specs for a fetch, in order.
    pub specs: Vec<RefSpecRef<'a>>,
}

/// An order of rows.
#[derive(Clone, Copy, Debug, PartialEq, Eq)]
pub enum Order {
    /// By remote, then by spec, then by ref.
    Specs,
    /// By ref, then by remote, then by spec.
    Refs,
}
