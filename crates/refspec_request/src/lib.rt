//! A call of `git refspec`: its arguments, the remote and the specs that they mean by Git's settings, the Git commands
//! to run for it, and what it writes.
#![tactic(auto)]

pub mod arguments;
pub mod ask;
pub mod booleans;
pub mod choice;
pub mod needed;
pub mod output;
pub mod refusal;
pub mod remotes;
pub mod settings;
pub mod usage;
