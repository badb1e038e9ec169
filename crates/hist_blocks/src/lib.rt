//! The blocks of a history of the whole: one for each event, and where a forged arrival ends it.
//!
//! `specs/Blocks.antt` and `specs/Ends.antt` have the definitions.
#![tactic(auto)]

mod laws;

pub use laws::{ends_with_a_forgery, goes_on_event_by_event, is_made_of_blocks};
