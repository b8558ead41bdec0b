//! Git refspecs: read from bytes, compared, printed, matched against refs, and turned into the ref
//! prefixes that a client sends to a server.
//!
//! A refspec such as `+refs/heads/*:refs/remotes/origin/*` says which refs a fetch or a push takes and
//! what they become. From text to canonical text:
//!
//! ```rust
//! let text = BStr::new(b"+@:refs/remotes/origin/HEAD");
//! let spec = gix_refspec::parse(alloc, text, Operation::Fetch)?;
//! let printed = spec.to_bstring(alloc)?;    // +HEAD:refs/remotes/origin/HEAD
//! ```
//!
//! From the refs of a remote to the refs that a fetch writes:
//!
//! ```rust
//! let text = BStr::new(b"refs/heads/*:refs/remotes/origin/*");
//! let spec = gix_refspec::parse(alloc, text, Operation::Fetch)?;
//! let target = ObjectId::null(Kind::Sha1);
//! let items = [Item {
//!     full_ref_name: BStr::new(b"refs/heads/main"),
//!     target: &target,
//!     object: None,
//! }];
//! let group = MatchGroup::from_fetch_specs(alloc, [spec])?;
//! let outcome = group.match_lhs(alloc, items.as_slice())?;
//! let mapping = outcome.mappings.first();    // from refs/heads/main to refs/remotes/origin/main
//! ```
//!
//! Texts and single specs come from the crate `gix_refspec_text`, items and mappings from
//! `gix_refspec_match`. This crate re-exports all that callers need of these two. Two crates are built on it:
//! `gix_refspec_plan` tells what a fetch writes and which local refs are stale, and `gix_refspec_lint` what
//! specs do together, whatever refs a remote has.
#![tactic(auto)]

pub mod laws;
pub mod match_group;

pub use gix_refspec_text::parsing::Operation;
pub use gix_refspec_text::{
    Instruction, RefSpec, RefSpecRef, instruction, locate, name, oid, parse, parsing,
};
pub use match_group::types::MatchGroup;
