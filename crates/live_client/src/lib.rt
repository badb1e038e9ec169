//! A client of the controller, which asks it to carry out one command and is told what came of it.
//!
//! `specs/Asking.antt` and `specs/Replies.antt` have the definitions.
#![tactic(auto)]

mod ask;
mod fault;
mod reading;

pub use ask::ask_once;
pub use fault::AskFault;
pub use rc_operations::Told;
