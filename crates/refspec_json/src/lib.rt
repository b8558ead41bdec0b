//! The JSON objects that the program `refspec` writes for `--json`, one per line. The member `kind` tells them
//! apart. All strings are UTF-8: the caller quotes names that aren't.
#![tactic(auto)]

mod fates;
mod line;
mod mappings;
mod prefixes;
mod refs;
mod remotes;
mod specs;
mod tracking;
mod warnings;

pub use fates::{Fate, NotFetched};
pub use mappings::{Claim, Conflict, DirectoryConflict, LeftOut, Mapping, Overruled};
pub use prefixes::{AllTogether, Nothing, Prefix};
pub use refs::{Kept, Malformed, Missing, Stale, Untracked};
pub use remotes::{Ignored, NoUpstream, Prefetch, Renamed, Unchanged, Upstream};
pub use specs::{All, Refused, Spec, SpecKind, ToObject};
pub use tracking::{Ambiguous, RemoteMapping, with_remote};
pub use warnings::{WarnedSpec, Warning};
