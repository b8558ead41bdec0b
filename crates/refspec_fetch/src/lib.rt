//! What a fetch writes and deletes: a question, its answer, and the report on it. `refspec` and `git refspec` ask the
//! same question.
#![tactic(auto)]

pub mod answer;
mod conflicts;
pub mod fetch;
mod groups;
mod left_out;
mod missing;
mod nested;
mod origins;
pub mod question;
pub mod report;
mod stale;
mod summary;
mod updates;
