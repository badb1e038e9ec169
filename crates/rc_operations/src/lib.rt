//! Commands to a controller as operations of RESTCONF (RFC 8040 section 3.6), both ways: their requests and the replies.
//!
//! `specs/Operations.antt` has the requests, `specs/Replies.antt` the replies.
#![tactic(auto)]

mod laws;
mod path;
mod read;
mod reply;
mod told;
mod write;

pub use laws::{refusals_can_be_answered, replies_are_told};
pub use read::read_operation;
pub use reply::{write_command_reply, write_error, write_fault};
pub use told::{Told, read_told};
pub use write::{can_be_sent, write_operation};
