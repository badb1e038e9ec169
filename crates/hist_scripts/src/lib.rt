//! The laws of the whole, of scripts: what is read as a header is one, what is read as an event under it is one of it, and so
//! the history of every script is safe.
//!
//! `specs/Script.antt` has the definitions.
#![tactic(auto)]

mod laws;

pub use laws::{is_every_script_safe, reads_events, reads_headers};
