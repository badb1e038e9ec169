//! Requests of RESTCONF (RFC 8040) to the databases of a gateway, read and typed, and the paths of their entries.
//!
//! `specs/Requests.antt` has the definition: `request_of`, what a request asks, or its first fault.
#![tactic(auto)]

mod error;
mod operation;
mod path;
mod query;
mod request;
mod resource;

pub use error::RcError;
pub use path::{path_of_half, path_of_policy};
pub use reply_table::{Ask, Place};
pub use request::{message_fault, read_request};
pub use resource::Resource;
