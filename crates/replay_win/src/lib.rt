//! The anti-replay window of one association: which numbers are fresh, seen, or too old to tell (RFC 4303 section 3.4.3).
//!
//! `specs/Marks.antt` has the definitions: `verdict_over`, the verdict over all numbers taken, and `Marks`, what a window keeps.
#![tactic(auto)]

mod bitmap;
mod laws;
mod verdict;
mod window;

pub use laws::verdicts;
pub use verdict::Verdict;
pub use window::Window;

#[cfg(test)]
mod tests;
