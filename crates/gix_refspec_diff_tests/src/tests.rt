//! What two lists of fetch values do otherwise.

mod besides;
mod pairs;
