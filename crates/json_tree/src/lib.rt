//! Policies and entries of the SAD as JSON (RFC 7951) of the YANG module ietf-i2nsf-ikeless (RFC 9061), and read from it.
//!
//! `specs/PolicyRead.antt` and `specs/SadEntryRead.antt` have what is read or its first fault, `specs/SadEntryWritten.antt` what is
//! written. Which value stands for what is said in `json_values`.
#![tactic(auto)]

mod half_parts_write;
mod policy_read;
mod policy_write;
mod sad_entry_read;
mod sad_entry_write;
mod selector_read;
mod selector_write;
mod values;

pub use half_parts_write::{add_hex, add_lifetime};
pub use policy_read::{entries_member, spd, spd_entry};
pub use policy_write::{add_policies, write_spd, write_spd_entry};
pub use sad_entry_read::{limits_member, sad_entry};
pub use sad_entry_write::{write_sad, write_sad_entry, write_sad_row};
pub use selector_read::{read_counts, read_selector, read_selector_member};
pub use selector_write::add_prefix;
pub use values::{counts_value, selector_value};
