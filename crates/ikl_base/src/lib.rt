//! Octets, names, addresses, the status of a command and the traits of the outside.
//!
//! `specs/Address.antt` has the bits of addresses and prefixes (RFC 4291, RFC 4632), `specs/Outside.antt` what a read gives and a
//! write takes, and `specs/Answers.antt` what a call answers that may run out of memory.
#![tactic(auto)]

mod address;
mod duplicate;
mod fault;
mod list;
mod memory;
mod octets;
mod outside;
mod standard;
mod status;
mod writing;

pub use address::{Addr, Prefix};
pub use duplicate::Duplicate;
pub use fault::{Failed, NoMemory, OrMemory};
pub use list::ListOf;
pub use memory::{FaultySink, FaultySource, MemorySink, MemorySource};
pub use octets::{Name, Octets};
pub use outside::{Sink, Source};
pub use standard::{FromReader, ToWriter};
pub use status::{LineFault, Status, reasons_read_again};
pub use writing::write_all;
