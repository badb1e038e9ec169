//! Notifications of a gateway as lines of JSON (RFC 8040 section 6.4, RFC 7951), written and read again in any pieces.
//!
//! `specs/Notifications.antt` has the definitions: which value is the notification of which notice. `specs/Reading.antt` has the lines.
#![tactic(auto)]

mod envelope;
mod event;
mod fault;
mod laws;
mod line;
mod moment;
mod reader;
mod write;

pub use fault::NoticeFault;
pub use laws::{
    cuts_do_not_matter, has_one_stamp, is_heard_in_any_pieces, notices_are_accepted,
    written_is_heard,
};
pub use reader::{Heard, LineReader};
pub use write::write_notice;
