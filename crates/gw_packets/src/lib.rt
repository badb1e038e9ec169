//! The way of packets through a gateway (RFC 4301 section 5): what is sealed, opened, let in clear or dropped, and what the
//! lifetimes of its halves end and tell.
//!
//! `specs/Outbound.antt`, `specs/Inbound.antt` and `specs/Looks.antt` have the definitions: `let_in`, `arrive` and `clock_read`.
#![tactic(auto)]

mod done;
mod flow;
mod inbound;
mod looks;
mod notices;
mod outbound;
mod plan;
mod seal;
mod unseal;

pub use done::{Config, Done, Notices, PacketAnswer};
pub use inbound::plan_arrive;
pub use looks::plan_clock;
pub use outbound::plan_let;
pub use plan::{Plan, TableChange, carry_out};
