//! The commands: what each reads, does and writes, over any devices.
//!
//! `specs/Run.antt` has what a run of `replay` is, `specs/Drill.antt` what the drill prints, `specs/Exit.antt` the exit numbers.
#![tactic(auto)]

mod drill;
mod reader;
mod replay;
mod running;
mod status;

pub use drill::run_drill;
pub use replay::run_replay;
pub use status::{exit_number, name_of, reason_of};
