//! What sessions keep, of histories of the whole: each of their acts stands where it may, and what is under way on each lane
//! is what its acts say.
//!
//! `specs/Heard.antt` and `specs/Pipes.antt` have the definitions.
#![tactic(auto)]

mod laws;

pub use laws::{
    each_act_has_its_place, every_history_keeps_sessions, goes_by_numbers, pipes_follow_histories,
};
