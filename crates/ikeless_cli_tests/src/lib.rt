//! Tests of `ikeless_cli`, which stand here so that it is proved once: each proof with tests proves the crate anew.
#![tactic(auto)]

#[cfg(test)]
mod drills;
#[cfg(test)]
mod lines;
#[cfg(test)]
mod player;
#[cfg(test)]
mod rows;
#[cfg(test)]
mod transcripts;
