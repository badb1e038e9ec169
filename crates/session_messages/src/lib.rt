//! The messages of a session as octets: orders as requests, replies as responses and notices as lines, each written and read whole.
//!
//! `specs/Whole.antt` has the definitions.
#![tactic(auto)]

mod line;
mod message;
mod request;
mod response;

pub use line::{read_line, write_line};
pub use request::{read_ask, write_order};
pub use response::{read_reply, write_reply};
