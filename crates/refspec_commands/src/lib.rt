//! The commands of the program `refspec`: whether refspecs are valid, what they mean, and what a fetch with
//! them writes. The program itself parses the arguments, and supplies the input and the outputs.
#![tactic(auto)]

pub mod checking;
pub mod fates;
pub mod full_names;
mod mappings;
mod prefetches;
pub mod prefixes;
mod renames;
pub mod run;
pub mod specs;
mod track;
pub mod tracking;
pub mod upstreams;
pub mod warnings;
