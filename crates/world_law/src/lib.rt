//! The world of a script follows its law: for which past it stands, and what it does at each event.
//!
//! `specs/Stands.antt` has the definition: `StandsFor`.
#![tactic(auto)]

mod laws;

pub use laws::{begins, can_step, steps_follow};
