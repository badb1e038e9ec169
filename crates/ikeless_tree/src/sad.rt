// Halves as entries of the SAD, with their limits and counts.
use crate::entry::{Entries, Selector};
use ikl_base::{Addr, Duplicate, ListOf, Name, NoMemory, Octets};

/// Where the DF bit of the outer header comes from (RFC 4301 section 8.1).
#[derive(Clone, Copy, Debug, PartialEq, Eq)]
pub enum Df {
    Clear,
    Set,
    Copy,
}

/// Counts of a lifetime, or limits for them: seconds of age, octets, packets and idle seconds.
///
/// A limit of 0 is no limit.
#[derive(Clone, Copy, Debug, PartialEq, Eq)]
pub struct Limits {
    pub time: u32,
    pub bytes: u64,
    pub packets: u32,
    pub idle: u32,
}

/// An entry of the security association database (RFC 4301 section 4.4.2).
///
/// `key` is the AES key followed by the salt of 4 octets (RFC 4106 section 8.1).
#[derive(Debug, Drop)]
pub struct SadEntry {
    pub name: Name,
    pub reqid: u64,
    pub spi: u32,
    pub window: u32,
    pub selector: Selector,
    pub key: Octets,
    pub local: Addr,
    pub remote: Addr,
    pub df: Df,
    pub hard: Limits,
    pub soft: Limits,
}

impl Duplicate for SadEntry {
    fn copy(&self) -> Result<SadEntry, NoMemory> {
        Ok(SadEntry {
            name: self.name.copy()?,
            reqid: self.reqid,
            spi: self.spi,
            window: self.window,
            selector: self.selector.copy()?,
            key: self.key.copy()?,
            local: self.local,
            remote: self.remote,
            df: self.df,
            hard: self.hard,
            soft: self.soft,
        })
    }
}

/// What a gateway tells of a half: its counts, and its last sequence number.
#[derive(Clone, Copy, Debug, PartialEq, Eq)]
pub struct SaState {
    pub current: Limits,
    pub top: u64,
}

/// An entry of the security association database with its state.
#[derive(Debug, Drop)]
pub struct SadRow {
    pub entry: SadEntry,
    pub state: SaState,
}

impl Duplicate for SadRow {
    fn copy(&self) -> Result<SadRow, NoMemory> {
        Ok(SadRow {
            entry: self.entry.copy()?,
            state: self.state,
        })
    }
}

/// The rows of the security association database, in the order of installation.
pub type Rows = ListOf<SadRow>;

/// Both databases of a gateway.
#[derive(Debug, Drop)]
pub struct Tree {
    pub spd: Entries,
    pub sad: Rows,
}
