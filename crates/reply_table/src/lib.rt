//! What RESTCONF requests ask of a gateway's databases, and the table of its replies.
//!
//! `specs/Reply.antt` has the definition: `reply`, with methods and statuses of RFC 8040; `specs/Order.antt` the requests of orders.
#![tactic(auto)]

mod ask;
mod laws;

pub use ask::{Ask, Change, Place};
pub use laws::{answers_orders, changes_fit, refuses};
