//! The lifetime of one association: its counts, and when they reach a soft or a hard limit (RFC 4301 section 4.4.2.1).
//!
//! `specs/Lifetime.antt` has the definitions: `reaches`, `counts_at` and `event_by`. `specs/Calls.antt` looks back over uses.
#![tactic(auto)]

mod event;
mod laws;
mod life;

pub use event::LifeEvent;
pub use laws::looks_back;
pub use life::Life;

#[cfg(test)]
mod tests;
