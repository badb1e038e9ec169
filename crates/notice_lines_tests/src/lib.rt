//! Tests of `notice_lines`, which stand here so that it is proved once alone: each proof with tests proves the crate anew.
#![tactic(auto)]

#[cfg(test)]
mod tests;
