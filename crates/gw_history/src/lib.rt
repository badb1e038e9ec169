//! The history of a gateway: what it does at each event, told as acts, is what the law of a gateway says.
//!
//! `specs/Told.antt` has the definitions: `told`, `step_told` and `run_of`. The crate has no code that runs.
#![tactic(auto)]

mod laws;

pub use laws::{
    histories_have_no_fault, is_every_run_safe, restarts_follow, runs_follow, steps_follow,
};
