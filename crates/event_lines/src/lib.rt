//! The lines of scripts: the header and the events, read.
//!
//! `specs/Header.antt` and `specs/Event.antt` have the definitions: what each line says, and why it is refused.
#![tactic(auto)]

mod event;
mod header;
mod laws;
mod tunnel;

pub use event::{known_alone, read_event, reqid, time};
pub use header::read_header;
pub use laws::{event_read_again, headers_name_gateways, read_events_are_spelled};
