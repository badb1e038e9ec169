//! The words of the commands `gateway`, `controller`, `client` and `drill`: what they must be, and what they say.
//!
//! `specs/Gateway.antt`, `specs/Controller.antt` and `specs/Client.antt` have the definitions.
#![tactic(auto)]

mod apps;
mod client;
mod controller;
mod drill;
mod gateway;
mod matching;
mod values;

pub use apps::{client_command, controller_command, drill_command, gateway_command};
pub use client::{ClientWords, read_client_words};
pub use controller::{ControllerWords, Link, Links, read_controller_words};
pub use drill::read_drill_words;
pub use gateway::{GatewayWords, read_gateway_words};
pub use matching::BadWords;
