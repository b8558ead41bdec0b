//! What the commands of the program `refspec` read, and how they write: calls, settings, texts and refs; quotes, tables,
//! JSON and messages.
#![tactic(auto)]

mod blame;
pub mod call;
pub mod canonical;
pub mod checked;
pub mod counts;
pub mod fault;
pub mod fields;
pub mod input;
pub mod json;
pub mod lacking;
pub mod malformed;
pub mod quote;
pub mod refs;
pub mod report;
pub mod sentence;
pub mod settings;
pub mod table;
pub mod texts;
