//! Tests of `live_gateway`, which stand here so that it is proved once: each proof with tests proves the crate anew.
//!
//! A gateway serves over devices in memory, and a table says what comes to it and what the devices hold then.
#![tactic(auto)]

#[cfg(test)]
mod cases;
#[cfg(test)]
mod play;
#[cfg(test)]
mod texts;
