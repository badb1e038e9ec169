//! A gateway that serves over devices: packets from inside, datagrams from outside, and one session at a time.
//!
//! Each turn reads the clock, receives once from either wire, accepts once, and reads the session once where one is there. What each call
//! brings is done at the gateway at once, and its acts are carried out: packets and datagrams are sent, replies and notices written.
//!
//! `specs/Past.antt` has what came, `specs/Found.antt` what the devices hold after it, `specs/History.antt` the acts of the one history.
#![tactic(auto)]

mod carry;
mod ended;
mod happen;
mod laws;
mod node;
mod receive;
mod serve;
mod session;
mod write;

pub use ended::Ended;
pub use gw_core::Config;
pub use laws::follows_history;
pub use serve::serve_gateway;
