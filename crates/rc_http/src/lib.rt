//! HTTP/1.1 messages over octets (RFC 9112), read in any pieces and written.
//!
//! `specs/Looks.antt` has the definitions: what octets amount to. `specs/Heads.antt` says what a head says and `specs/Written.antt`
//! what is written.
#![tactic(auto)]

mod advance;
mod feeder;
mod head;
mod laws;
mod message;
mod place;
mod values;
mod write;

pub use feeder::{Fed, Feeder};
pub use laws::{
    cuts_make_no_difference, first_found_stays, fresh_has_read_nothing, heads_are_whole,
    messages_are_whole, octets_amount_to_one_thing, pieces_join,
};
pub use message::{HttpFault, HttpMessage, Kind};
pub use write::{write_request, write_response};
