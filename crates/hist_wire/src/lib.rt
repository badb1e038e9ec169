//! What `wire` shows of a history: the octets of the messages under way; and the one history of the events of a script with it.
//!
//! `specs/Wire.antt` has what is under way, `specs/Histories.antt` the history: `IsHistory`.
#![tactic(auto)]

mod laws;

pub use laws::{
    answers_are_of_replies, has_one_history, is_every_history_safe, notices_have_one_line,
    wire_shows_what_is_under_way,
};
