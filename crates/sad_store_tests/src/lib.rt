//! Tests of `sad_store`, which stand here so that it is proved once alone: each proof with tests proves the crate anew.
#![tactic(auto)]

#[cfg(test)]
mod tests;
