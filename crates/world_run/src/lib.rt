//! The gateways of a script, their controller and all that is between them, in one state: each event of a script is taken in one
//! step, which gives its block of acts.
//!
//! `specs/Kept.antt` has what a world keeps, as contracts see it.
#![tactic(auto)]

mod control;
mod go;
mod packets;
mod parts;
mod sessions;
mod take;
mod world;

pub use go::Go;
pub use hist_acts::{Act, Acts, Event, Header};
pub use world::World;
