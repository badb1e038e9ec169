//! Tests of `live_devices`, which stand here so that it is proved once: each proof with tests proves the crate anew.
//!
//! A device is called as a table says, and what its calls answered is compared as one line: `+` for a call that was done,
//! `!` for one that failed, `-` where nothing waited, and octets in brackets.
#![tactic(auto)]

#[cfg(test)]
mod clocks;
#[cfg(test)]
mod dialers;
#[cfg(test)]
mod docks;
#[cfg(test)]
mod said;
#[cfg(test)]
mod streams;
#[cfg(test)]
mod wires;
