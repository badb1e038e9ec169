//! Tests of `live_sockets` over ports of this machine, which stand here so that it is proved once: each proof with tests
//! proves the crate anew.
//!
//! Both ends of each connection are in one thread. A dock waits in its accept until something has come, so a test that
//! looks for what it sent accepts before it reads.
#![tactic(auto)]

#[cfg(test)]
mod clocks;
#[cfg(test)]
mod commands;
#[cfg(test)]
mod ends;
#[cfg(test)]
mod pairs;
#[cfg(test)]
mod ports;
#[cfg(test)]
mod scenes;
#[cfg(test)]
mod talk;
#[cfg(test)]
mod wires;
