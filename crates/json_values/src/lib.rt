//! Values of JSON (RFC 7951) built and read: leaves, names, and the members that an object of the YANG module
//! ietf-i2nsf-ikeless (RFC 9061) may have, with the fault of one that isn't right.
//!
//! `specs/Json.antt` has the definitions: which value stands for which policy, half or command. `specs/Leaves.antt` and
//! `specs/Shapes.antt` say what is read of a value, `specs/Written.antt` what is written.
#![tactic(auto)]

mod build;
mod fault;
pub mod leaves;
pub mod members;
pub mod names;
mod shapes;
mod tokens;

pub use build::{
    Members, are_octets, put, put_count, put_text, put_wide, put_word, single, written,
};
pub use fault::{
    CodecFault, Fault, Kind, answer, at_made, at_member, kind_of_tree, not_json, within,
};
pub use leaves::{number_of, text_of};
pub use shapes::{at_item, has_shape, only, refused};
pub use tokens::Tokens;
