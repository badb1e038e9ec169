//! Tests of `live_commands`, which stand here so that it is proved once: each proof with tests proves the crate anew.
//!
//! A command is run over devices in memory, and a table says what comes to it, how it ends and what it writes.
#![tactic(auto)]

#[cfg(test)]
mod client;
#[cfg(test)]
mod controller;
#[cfg(test)]
mod devices;
#[cfg(test)]
mod gateway;
#[cfg(test)]
mod texts;
