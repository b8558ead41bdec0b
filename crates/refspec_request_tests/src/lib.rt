//! Tests of `refspec_request` by its public names. They are a crate of their own, as a crate with tests is proved
//! twice.
#![tactic(auto)]

#[cfg(test)]
mod tests;
