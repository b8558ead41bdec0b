//! The ref prefixes to request from a server: the answer to a question, which is some specs and what is asked for beside
//! them, and the report on it. `refspec prefixes` and `git refspec prefixes` ask the same question.

pub mod answer;
pub mod beside;
pub mod report;
