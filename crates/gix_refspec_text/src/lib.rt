//! Refspecs as texts: ref names, object ids, and single refspecs, which are parsed, compared, printed, and
//! turned into the ref prefixes that a client sends to a server. Use `gix_refspec` instead, which is built
//! on this crate: it has all of these under the same names, and groups of specs that match refs.
#![tactic(auto)]

pub mod instruction;
pub mod name;
pub mod oid;
pub mod parsing;
pub mod side;
pub mod spec;
pub mod split;
mod types;

pub use parsing::locating::locate;
pub use parsing::reading::parse;
pub use spec::{RefSpec, RefSpecRef};
pub use types::Instruction;
