//! The law of a gateway over what happened: for each event the one block of acts that may follow a past.
//!
//! `specs/Block.antt` has the definition: `gw_block`, over the tables of `specs/Let.antt` and `specs/Arrive.antt` (RFC 4301 section 5)
//! and `specs/Handle.antt` (RFC 8040). The crate has no code that runs.
#![tactic(auto)]

mod laws;

pub use laws::{
    answers, answers_with_statuses, between, blocks_follow, counts_requests, counts_uses, delivers,
    expires_where_reached, goes_on, halves, is_every_history_safe, keeps, keeps_told_spis,
    looks_at_places, places, readings, requests_change, sealed, stays_elsewhere, steps,
    tells_where_none_stands,
};
