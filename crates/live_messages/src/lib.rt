//! The messages of a session that comes in as octets, one after another.
//!
//! `specs/Brings.antt` has the definition.
#![tactic(auto)]

mod feed;
mod laws;

pub use feed::{Brought, feed_next};
pub use laws::readers_hold;
