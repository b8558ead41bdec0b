//! Tests of `gix_refspec_text` by its public names: texts from the manuals, single specs, what is printed, and faults.
#![tactic(auto)]

#[cfg(test)]
mod tests;
