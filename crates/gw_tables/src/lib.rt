//! What a gateway keeps (RFC 4301 section 4.4): its policies, its halves, the notices that stand, and the clock.
//!
//! `specs/Kept.antt` and `specs/Uses.antt` have the definitions: what is kept, and what each change makes of it.
#![tactic(auto)]

mod acquires;
mod rows;
mod tables;
mod uses;

pub use tables::Tables;
