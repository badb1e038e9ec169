//! Tests of `gw_core` and the crates that it gives, which stand here so that each is proved once alone: each proof with tests
//! proves the crate anew.
#![tactic(auto)]

#[cfg(test)]
mod drops;
#[cfg(test)]
mod lifetimes;
#[cfg(test)]
mod player;
#[cfg(test)]
mod requests;
#[cfg(test)]
mod rows;
#[cfg(test)]
mod show;
#[cfg(test)]
mod transcripts;
