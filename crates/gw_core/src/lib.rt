//! A gateway of the IKE-less case (RFC 9061): what it does at packets, datagrams, requests, sessions and readings of the clock, one
//! step after another.
//!
//! `specs/Machine.antt` has the definition: `stepped`.
#![tactic(auto)]

mod event;
mod gateway;
mod tell;

pub use event::GwEvent;
pub use gateway::Gateway;
pub use gw_packets::Config;
pub use gw_requests::{GwAct, GwActs};
