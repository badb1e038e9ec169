//! The law of a gateway over what it keeps: what packets, datagrams, readings of the clock, requests and sessions make of that, told
//! as acts, is its history.
//!
//! `specs/Steps.antt` and `specs/Told.antt` have the definitions: `step_of` and `acts_told`. The crate has no code that runs.
#![tactic(auto)]

mod laws;

pub use laws::{
    events_follow, is_every_run_safe, packets_follow, pasts_are_orderly, pasts_have_no_fault,
    requests_follow, restarts_follow, runs_follow,
};
