//! The words of the lines of scripts and transcripts, read and written: names, numbers, octets, policies, limits and halves.
//!
//! `specs/Words.antt`, `specs/Entry.antt` and `specs/Half.antt` have what is read, `specs/Text.antt` what is written.
#![tactic(auto)]

mod cutting;
mod entry;
mod halves;
mod lifetimes;
mod words;
mod write;
mod write_half;

pub use cutting::{is_word, parts};
pub use entry::{MOST_ENTRIES, entries, selector_from};
pub use halves::half;
pub use lifetimes::{Lifetimes, lifetimes_from, limits};
pub use words::{
    are_text, gateway, half_name, known, lane, octets, prefix_from, u8_from, u16_from, u32_from,
    u64_from,
};
pub use write::{
    put, put_entry_words, put_hex_word, put_lane_word, put_number_word, put_octet, put_selector,
    put_word,
};
pub use write_half::{put_half, put_limits};
