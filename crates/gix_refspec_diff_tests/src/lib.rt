//! Tests of `gix_refspec_diff` by its public names.
#![tactic(auto)]

#[cfg(test)]
mod tests;
