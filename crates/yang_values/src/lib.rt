//! Values of YANG as text (RFC 7951, RFC 6991): numbers, hex, addresses, prefixes and ports.
//!
//! `specs/Numbers.antt`, `HexText`, `Addresses` and `Prefixes` have the definitions: which spellings are read, and the canonical text.
#![tactic(auto)]

mod address;
mod digits;
mod groups;
mod laws;
mod number;
mod parts;
mod prefix;
mod quad;
#[cfg(test)]
mod tests;
mod value;

pub use address::{put_address, read_address, write_address};
pub use digits::{put_digits, read_digits, read_hex, write_hex};
pub use laws::{
    address_read_again, digits_read_again, hex_read_again, plain_texts, prefix_read_again,
    u64_read_again,
};
pub use number::{put_number, read_number, read_port, read_u64, write_u64};
pub use prefix::{put_prefix, read_prefix, write_prefix};
pub use value::BadValue;
