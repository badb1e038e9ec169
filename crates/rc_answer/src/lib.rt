//! The answers to orders, read from responses of RESTCONF (RFC 8040), and the tags of their errors.
//!
//! `specs/Answers.antt` has the definition: `answer_of`.
#![tactic(auto)]

mod answer;
mod laws;

pub use answer::{BadAnswer, ErrorTags, read_answer, read_error};
pub use laws::answers_have_statuses;
