//! What `upstream` is asked.

use gix_refspec::RefSpecRef;

/// The refs that branches merge, and the specs of their remotes.
#[derive(Drop)]
pub struct Question<'q, 'spec> {
    /// The merged refs, in the order of the report.
    pub merged: Vec<Merged<'q, 'spec>>,
}

/// A ref that a branch merges.
#[derive(Clone, Copy, Debug)]
pub struct Merged<'q, 'spec> {
    /// The name of the branch; `None` in a call that names none.
    pub branch: Option<&'q [u8]>,
    /// The name of its remote; `None` in a call that names none.
    pub remote: Option<&'q [u8]>,
    /// The specs of that for a fetch, in order.
    pub specs: &'q [RefSpecRef<'spec>],
    /// The name of the ref, as it is written; empty if the branch merges none.
    pub name: &'q [u8],
    /// From where the branch merges.
    pub setup: Setup<'q>,
}

/// From where a branch merges.
#[derive(Clone, Copy, Debug)]
pub enum Setup<'q> {
    /// From a remote, by whose specs its upstream is found.
    Remote,
    /// From this repository. If no spec stores the merged ref, this ref is the upstream.
    Here(&'q [u8]),
    /// From nowhere: it merges a ref, and has no remote.
    NoRemote,
    /// From nowhere: it merges no ref.
    NoMerge,
}
