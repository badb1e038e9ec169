//! The controller as a node over devices: commands come in from clients, and orders go out to the gateways, its peers (RFC 9061).
#![tactic(auto)]

mod answers;
mod clients;
mod desk;
mod ended;
mod laws;
mod link;
mod messages;
mod notices;
mod orders;
mod serve;
mod sessions;

pub use ended::Ended;
pub use laws::follows_history;
pub use serve::serve_controller;
