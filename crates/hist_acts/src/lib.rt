//! What a script says and what a transcript tells, as events and acts, and the words for looking back over them.
//!
//! `specs/Past.antt` and `specs/Sessions.antt` have these words. Acts and events are of this project.
#![tactic(auto)]

mod act;
mod event;

pub use act::{Act, Acts};
pub use event::{Event, Header};
