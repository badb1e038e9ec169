//! Every order, every reply and every notice has a text, since none is too long; and each text is read as what was written.
//!
//! It has no definitions of its own.
#![tactic(auto)]

mod laws;

pub use laws::{
    lines_are_short, orders_can_be_written, refusals_are_text, replies_can_be_written,
    requests_are_read, responses_are_read,
};
