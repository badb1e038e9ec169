//! What may happen in a world of gateways and their controller, and that whatever happens so is safe.
//!
//! `specs/Law.antt` says what each act may follow, `specs/Safe.antt` what is safe, and `specs/Kept.antt` what every lawful
//! history keeps. Its model is the list of what happened, of this project.
#![tactic(auto)]

mod laws;

pub use laws::{
    goes_on, is_every_lawful_history_safe, kept, number_is_sent_once, removed_is_ended,
};
