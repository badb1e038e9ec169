//! The store of halves after any list of calls: what it is, looking back over them (RFC 4301 section 4.4.2).
//!
//! `specs/Calls.antt` and `specs/Back.antt` have the definitions. The crate has no code that runs.
#![tactic(auto)]

mod laws;

pub use laws::{is_what_calls_give, looks_back_over_calls};
