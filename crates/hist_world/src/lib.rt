//! The law of the whole: for each event the one block of acts of the gateways and their controller, and that every history
//! of such blocks is safe.
//!
//! `specs/Block.antt` has the definitions: `block` and `history`.
#![tactic(auto)]

mod laws;

pub use laws::{
    few_halves_are_live, is_every_history_lawful, is_every_history_safe, lists_never_go_back,
    no_put_is_refused, stands_between_events,
};
