//! Each act of a history has a line: the transcript of a script can be written.
//!
//! `specs/Spelled.antt` has the definitions: when an act, an event and a header can be spelled.
#![tactic(auto)]

mod laws;

pub use laws::{
    begins, each_act_is_spelled, every_history_is_spelled, histories_have_one_text,
    reads_what_is_spelled,
};
