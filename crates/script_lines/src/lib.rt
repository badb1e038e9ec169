//! The lines of scripts and transcripts: events and acts as text, each act in one spelling.
//!
//! `specs/Act.antt` has what is read as an act, `specs/Text.antt` the one text of each.
#![tactic(auto)]

mod act;
mod laws;
mod session;
mod typed;
mod write;
mod write_session;

pub use act::read_act;
pub use event_lines::{
    event_read_again, headers_name_gateways, read_event, read_events_are_spelled, read_header,
};
pub use hist_acts::{Act, Acts, Event, Header};
pub use laws::{act_read_again, read_acts_are_spelled, texts_differ};
pub use line_words::are_text;
pub use write::{put_acts, write_act};
