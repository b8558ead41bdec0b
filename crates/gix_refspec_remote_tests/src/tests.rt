//! Upstreams, prefetches, new names of a remote, its specs, and refspecs from parts.

mod parts;
mod prefetching;
mod remotes;
mod renames;
mod upstreams;
