//! A gateway of a script with its sessions, and the log of the datagrams sent.
//!
//! A gateway is stepped; what it does is told as acts with its name and the numbers of its sessions and requests, its replies and
//! notices go into its pipe as octets, and its datagrams into the log.
//!
//! `specs/Told.antt` and `specs/Numbered.antt` have the definitions.
#![tactic(auto)]

mod damage;
mod naming;
mod node;
mod sent;
mod tell;

pub use damage::flip_bit;
pub use gw_core::{GwActs, GwEvent};
pub use node::Node;
pub use sent::{SentLog, esp_of};
pub use tell::has_opened;
