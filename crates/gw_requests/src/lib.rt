//! Requests at a gateway (RFC 8040): what each changes of what the gateway keeps, and its reply behind that.
//!
//! `specs/Requests.antt` has the definition: `handled`.
#![tactic(auto)]

mod act;
mod request;

pub use act::{GwAct, GwActs};
pub use request::handle;
