//! The sessions of a gateway with its controller in memory: requests, answers and notices as whole messages of octets.
//!
//! A pipe is seen as what is under way: how many sessions were opened, which end has the last one, and the messages of
//! each lane that its reading end has not taken.
//!
//! `specs/UnderWay.antt` has the definitions: what is under way, and what each call makes of it.
#![tactic(auto)]

mod laws;
mod pipe;
mod queue;
#[cfg(test)]
mod tests;

pub use ikeless_tree::Lane;
pub use laws::{follows_the_past, gives_what_is_next};
pub use pipe::Pipe;
