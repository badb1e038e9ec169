//! RESTCONF (RFC 8040) over the databases of a gateway: requests done and replied to, orders as requests, and their answers.
//!
//! `specs/Replies.antt` and `specs/Messages.antt` have the definitions: replies with their text, and the messages that carry them.
#![tactic(auto)]

mod error;
mod halves;
mod laws;
mod message;
mod perform;
mod policies;
mod reply;

pub use laws::{answers_are_read, errors_are_read, orders_are_read};
pub use message::{order_request, reply_response};
pub use perform::apply;
pub use rc_answer::{BadAnswer, ErrorTags, answers_have_statuses, read_answer, read_error};
pub use rc_request::{Ask, Place, RcError, Resource, message_fault, read_request};
pub use reply::{Reply, error_reply};
pub use reply_table::Change;
