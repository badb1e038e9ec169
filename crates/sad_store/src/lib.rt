//! The halves of associations at one gateway, in the order of their installation (RFC 4301 section 4.4.2).
//!
//! `specs/Halves.antt` has the definitions: what each call makes of a half, and which half is found.
#![tactic(auto)]

mod change;
mod column;
mod fault;
mod find;
mod half;
mod store;

pub use fault::InstallFault;
pub use half::Half;
pub use store::SadStore;
