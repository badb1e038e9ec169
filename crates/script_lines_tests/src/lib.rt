//! Tests of `script_lines`, which stand here so that it is proved once alone: each proof with tests proves the crate anew.
#![tactic(auto)]

#[cfg(test)]
mod acts;
#[cfg(test)]
mod events;
#[cfg(test)]
mod headers;
#[cfg(test)]
mod said;
