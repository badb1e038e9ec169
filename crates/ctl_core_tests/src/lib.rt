//! Tests of `ctl_core` and `ctl_tunnels`, which stand here so that these are proved once alone: each proof with tests proves
//! the crate anew.
//!
//! A transcript here is the controller's alone: what it is told or hears, and below that the orders that it gives and the
//! refusals. `expects` shows its oldest waiting order at a gateway.
#![tactic(auto)]

#[cfg(test)]
mod commands;
#[cfg(test)]
mod entries;
#[cfg(test)]
mod keys;
#[cfg(test)]
mod limits;
#[cfg(test)]
mod rows;
#[cfg(test)]
mod run;
#[cfg(test)]
mod said;
#[cfg(test)]
mod tunnels;
#[cfg(test)]
mod words;
