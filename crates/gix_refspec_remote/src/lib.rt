//! What Git makes of the fetch values of one remote: the upstream that they give a branch, what a prefetch applies in
//! place of them, and what renaming the remote makes of them; and refspecs that are made from parts or names.
#![tactic(auto)]

pub mod laws;
mod parts;
mod prefetching;
mod remotes;
mod renames;
mod upstreams;
mod written;

pub use parts::{PartsError, Sign, SpecParts, from_parts};
pub use prefetching::prefetched;
pub use remotes::{Reviews, Storage, branch_spec, reviews_spec};
pub use renames::renamed;
pub use upstreams::{Upstream, upstream_of};
