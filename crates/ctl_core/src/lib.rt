//! The controller of the IKE-less case (RFC 9061): what it is told, what it hears, and what it orders.
//!
//! It keeps, for each gateway, its session, the newest list of policies commanded and the orders that wait for answers;
//! the tunnels that aren't ended or have an association left, and how far each of their directions has come; and the keys
//! accepted.
//!
//! `specs/Step.antt` has the definition: `stepped`.
#![tactic(auto)]

mod acts;
mod change;
mod commands;
mod controller;
mod draft;
mod events;
mod idle;
mod peer;

pub use acts::{CtlAct, CtlActs, CtlEvent};
pub use controller::Controller;
