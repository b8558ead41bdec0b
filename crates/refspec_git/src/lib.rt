//! What `git refspec` does with its call, and with what Git prints about a repository. It runs nothing itself: it
//! asks for Git commands to be run, and returns its answer once their outputs are there.
#![tactic(auto)]

mod advice;
pub mod answer;
mod branches;
pub mod call;
mod checking;
mod chosen;
mod configured;
mod fates;
mod fetch;
mod given;
mod named;
mod notes;
mod plan;
mod refs;
mod remotes;
mod repository;
mod sources;
mod specs;
mod stops;
mod texts;
mod tracking;
mod unsure;
mod upstreams;
mod warnings;
