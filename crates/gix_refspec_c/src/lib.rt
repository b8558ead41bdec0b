//! Refspecs for callers in C: checked, split into parts, printed, compared, turned into ref prefixes,
//! and matched. `include/gix_refspec.h` has the prototypes.
//!
//! Each call returns an outcome: 0, or the number of a [`failure::Failure`]. The caller owns every
//! buffer, and nothing is kept from call to call.
#![tactic(auto)]

pub mod explanation;
pub mod failure;
pub mod fates;
pub mod kept;
pub mod listing;
pub mod locating;
pub mod making;
pub mod matching;
pub mod naming;
pub mod parts;
pub mod planning;
pub mod prefetching;
pub mod prefixes;
pub mod printing;
pub mod pruning;
pub mod reading;
pub mod refs;
pub mod remotes;
pub mod renaming;
pub mod sides;
pub mod single;
pub mod upstreams;
pub mod validating;
pub mod version;
mod write;
