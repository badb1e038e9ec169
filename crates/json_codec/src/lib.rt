//! RESTCONF bodies and commands as JSON (RFC 7951) of the YANG module ietf-i2nsf-ikeless (RFC 9061), both ways.
//!
//! `specs/Bodies.antt` has the definitions: what a body is read as, or its first fault.
#![tactic(auto)]

mod body_read;
mod body_write;
mod command_read;
mod command_write;
mod laws;

pub use body_read::{read_command, read_sad_entry, read_spd, read_spd_entry};
pub use body_write::{write_sad_entry, write_spd, write_spd_entry};
pub use command_write::write_command;
pub use json_tree::{write_sad, write_sad_row};
pub use json_values::CodecFault;
pub use laws::{
    commands_are_accepted, commands_read_again, one_policy_is_accepted, one_policy_reads_again,
    one_sad_entry_is_accepted, one_sad_entry_reads_again, policies_are_accepted,
    policies_read_again,
};
