//! The controller's steps follow its law: for which past a core stands, and what it does at each event.
//!
//! `specs/Stands.antt` says for which past a core stands, `specs/Told.antt` what it is told and does in the law's words.
#![tactic(auto)]

mod laws;

pub use laws::{
    begins, expects_oldest, keeps_within_bounds, refuses_first, runs_follow, steps_follow,
};
