// What every value of the types of the tree has: its numbers are those of their types. Each call does nothing, and its contract
// says so of the value that it is given.
ghost use Rattle.std.specs.Prelude.{◌<◌, ◌^◌, All};
ghost use Rattle.ikeless_tree.specs.Typed.{AreOctets, IsTypedRange, IsTypedProtocol, IsTypedSelector, IsTypedPolicy, AreTypedPolicies, IsTypedLimits, IsTypedHalf, IsTypedState, IsTypedRow, AreTypedRows, IsTypedTree, IsTypedTunnel, IsTypedCommand, IsTypedOrder, IsTypedAnswer, IsTypedNotice};

use crate::command::{Command, TunnelSpec};
use crate::entry::{Entries, Ports, Range, Selector, SpdEntry};
use crate::order::{Answer, Notice, Order};
use crate::sad::{Limits, Rows, SaState, SadEntry, SadRow, Tree};

fn octets_fit(octets: &[u8])
    ensures { AreOctets octets.now }
{}

fn number_fits(n: u64)
    ensures { n < 2 ^ 64 }
{}

fn protocol_fits(proto: Option<u8>)
    ensures { IsTypedProtocol proto }
{
    match proto {
        None => (),
        Some(_) => (),
    }
}

impl Range {
    /// The numbers of this value are those of its type.
    pub fn numbers_fit(&self)
        ensures { IsTypedRange self.now }
    {
        let _start = self.start;
        let _end = self.end;
    }
}

/// The numbers of these values are those of their type.
pub fn ports_fit(ports: &Ports)
    ensures { All IsTypedRange ports.now }
{
    for range in ports.as_slice() {
        range.numbers_fit();
    }
}

impl Selector {
    /// The numbers of this value are those of its type.
    pub fn numbers_fit(&self)
        ensures { IsTypedSelector self.now }
    {
        self.local.addr.numbers_fit();
        self.remote.addr.numbers_fit();
        protocol_fits(self.proto);
        ports_fit(&self.local_ports);
        ports_fit(&self.remote_ports);
    }
}

impl SpdEntry {
    /// The numbers of this value are those of its type.
    pub fn numbers_fit(&self)
        ensures { IsTypedPolicy self.now }
    {
        let _reqid = self.reqid;
        let _window = self.window;
        self.selector.numbers_fit();
    }
}

/// The numbers of these values are those of their type.
pub fn policies_fit(list: &Entries)
    ensures { AreTypedPolicies list.now }
{
    for entry in list.as_slice() {
        entry.numbers_fit();
    }
}

impl Limits {
    /// The numbers of this value are those of its type.
    pub fn numbers_fit(&self)
        ensures { IsTypedLimits self.now }
    {
        let _time = self.time;
        let _bytes = self.bytes;
        let _packets = self.packets;
        let _idle = self.idle;
    }
}

impl SadEntry {
    /// The numbers of this value are those of its type.
    pub fn numbers_fit(&self)
        ensures { IsTypedHalf self.now }
    {
        let _reqid = self.reqid;
        let _spi = self.spi;
        let _window = self.window;
        self.selector.numbers_fit();
        octets_fit(self.key.as_slice());
        self.local.numbers_fit();
        self.remote.numbers_fit();
        self.hard.numbers_fit();
        self.soft.numbers_fit();
    }
}

impl SaState {
    /// The numbers of this value are those of its type.
    pub fn numbers_fit(&self)
        ensures { IsTypedState self.now }
    {
        self.current.numbers_fit();
        let _top = self.top;
    }
}

impl SadRow {
    /// The numbers of this value are those of its type.
    pub fn numbers_fit(&self)
        ensures { IsTypedRow self.now }
    {
        self.entry.numbers_fit();
        self.state.numbers_fit();
    }
}

/// The numbers of these values are those of their type.
pub fn rows_fit(rows: &Rows)
    ensures { AreTypedRows rows.now }
{
    for row in rows.as_slice() {
        row.numbers_fit();
    }
}

impl Tree {
    /// The numbers of this value are those of its type.
    pub fn numbers_fit(&self)
        ensures { IsTypedTree self.now }
    {
        policies_fit(&self.spd);
        rows_fit(&self.sad);
    }
}

impl TunnelSpec {
    /// The numbers of this value are those of its type.
    pub fn numbers_fit(&self)
        ensures { IsTypedTunnel self.entry.now }
    {
        let _reqid = self.reqid;
        self.first_prefix.addr.numbers_fit();
        self.second_prefix.addr.numbers_fit();
        let _window = self.window;
        self.hard.numbers_fit();
        self.soft.numbers_fit();
    }
}

impl Command {
    /// The numbers of this value are those of its type.
    pub fn numbers_fit(&self)
        ensures { IsTypedCommand self.now }
    {
        match self {
            Command::Policy { list, .. } => policies_fit(list),
            Command::Tunnel(spec) => spec.numbers_fit(),
            Command::End(reqid) => number_fits(*reqid),
            Command::Rekey(reqid) => number_fits(*reqid),
            Command::Keys(octets) => octets_fit(octets.as_slice()),
        }
    }
}

impl Order {
    /// The numbers of this value are those of its type.
    pub fn numbers_fit(&self)
        ensures { IsTypedOrder self.now }
    {
        match self {
            Order::Read => (),
            Order::Policy(list) => policies_fit(list),
            Order::Put(entry) => entry.numbers_fit(),
            Order::Remove(_) => (),
        }
    }
}

impl Answer {
    /// The numbers of this value are those of its type.
    pub fn numbers_fit(&self)
        ensures { IsTypedAnswer self.now }
    {
        let _status = self.status;
    }
}

impl Notice {
    /// The numbers of this value are those of its type.
    pub fn numbers_fit(&self)
        ensures { IsTypedNotice self.now }
    {
        match self {
            Notice::Acquire { selector, .. } => selector.numbers_fit(),
            Notice::Expire { current, .. } => current.numbers_fit(),
            Notice::SeqOverflow { .. } => (),
            Notice::BadSpi { spi } => number_fits(u64::from(*spi)),
        }
    }
}
