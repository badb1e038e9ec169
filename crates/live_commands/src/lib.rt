//! The commands `gateway`, `controller` and `client`: each reads its words, and then serves or asks over any devices.
//!
//! `specs/Gateway.antt`, `specs/Controller.antt` and `specs/Client.antt` have the definitions,
//! `specs/Lines.antt` the lines that are printed.
#![tactic(auto)]

mod client;
mod controller;
mod gateway;
mod line;

pub use client::run_client;
pub use controller::run_controller;
pub use gateway::run_gateway;
