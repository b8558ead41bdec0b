//! Tests of `gix_refspec_why` by its public names: what each spec does with a ref.
#![tactic(auto)]

#[cfg(test)]
mod tests;
