//! The laws of a controller over what happened: its words, the one block of acts that each event has, and what every
//! history keeps.
//!
//! `specs/Past.antt` has the words and `specs/Law.antt` the definition, `block`. `specs/Clauses.antt` and `specs/Choice.antt` say the same
//! as clauses. The order of a rekey and of a recovery is that of RFC 9061. The crate has no code that runs.
#![tactic(auto)]

mod facts;
mod laws;

pub use facts::{
    awaits_one_answer, counts_what_waits, forgets_what_is_spent, has_short_blocks,
    leaves_others_alone, orders_what_is_left, orders_without_fault, refuses_seen_keys,
    takes_keys_in_turn,
};
pub use laws::{
    accepts_fresh_keys, each_put_has_its_cause, fits_a_table, follows_the_clauses, has_few_halves,
    has_homes, is_never_idle, keeps, knows_its_gateways, leaves_no_choice, names_differ,
    names_what_is_waited_for, orders_newest_lists, puts_for_causes, puts_once, reads_plainly,
    refuses_with_reason, removes_once, runs, stands_before, steps, tells_a_transcript,
};
