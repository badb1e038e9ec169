//! Words for looking back over the halves of a gateway: which are live, and what was sent and taken under each.
//!
//! `specs/Halves.antt` and `specs/Sealed.antt` have these words (RFC 4301, RFC 4303). The crate has no code that runs.
#![tactic(auto)]
