//! Tests of `rc_resource` and the crates that it gives, which stand here so that each is proved once alone: each proof with tests
//! proves the crate anew.
#![tactic(auto)]

#[cfg(test)]
mod answers;
#[cfg(test)]
mod exchanges;
