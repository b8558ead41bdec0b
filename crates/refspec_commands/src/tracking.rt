//! From which refs of remotes tracking refs are fetched: a question, its answer, and the report on it. `refspec track`
//! and `git refspec track` ask the same question.

pub mod answer;
pub mod question;
pub mod report;
