//! Tests of `gix_refspec_remote` by its public names. The expected values are what Git 2.39.5 prints, fetches and configures.
#![tactic(auto)]

#[cfg(test)]
mod tests;
