//! The drill: a large script whose lines a number draws, and what is counted of its transcript.
//!
//! `specs/Script.antt` has the definition of the script, `specs/Tallies.antt` that of what is counted.
#![tactic(auto)]

mod drawing;
mod growing;
mod laws;
mod script;
mod summary;
mod tallying;

pub use growing::Growing;
pub use laws::lines_count_acts;
pub use script::write_drill;
pub use summary::write_summary;
pub use tallying::{Tally, count_lines};
