//! Tests of `gix_refspec` by its public names: what groups ask for and map, conflicts, and growths refused.
#![tactic(auto)]

#[cfg(test)]
mod tests;
