// The lines of a script.
use ikeless_tree::{Entries, Lane, Peers, TunnelSpec};
use ikl_base::{Name, Octets};

/// The first line of a script: the greatest sequence number of a half, and the gateways.
#[derive(Debug, Drop)]
pub struct Header {
    pub seq_last: u64,
    pub gateways: Peers,
}

/// What happens, one line of a script after its header.
#[derive(Debug, Drop)]
pub enum Event {
    /// A packet comes from inside at a gateway.
    Let(Name, Octets),
    /// A datagram comes from outside at a gateway.
    Arrive(Name, Octets),
    /// The datagram that was sent as this many-th comes, or no octets if fewer were sent.
    ArriveSent(Name, u64),
    /// The same with one bit of one octet changed, 0 the lowest bit; unchanged if there is no such octet.
    ArriveFlip(Name, u64, u64, u8),
    /// The same with another time to live.
    ArriveTtl(Name, u64, u8),
    /// The clock of all gateways is read, in seconds.
    Now(u32),
    /// A gateway restarts.
    Boot(Name),
    /// The controller opens a session.
    Open(Name),
    /// The controller sees its session end.
    Cut(Name),
    /// A gateway handles the next request of its session.
    Down(Name),
    /// The controller hears the next answer.
    Up(Name),
    /// The controller hears the next notice.
    Note(Name),
    /// The octets under way are shown.
    Wire(Name, Lane),
    /// A list of policies is commanded for a gateway.
    Policy(Name, Entries),
    /// A tunnel is commanded.
    Tunnel(TunnelSpec),
    /// The tunnel with this `reqid` is to end.
    End(u64),
    /// The tunnel with this `reqid` is to have new keys.
    Rekey(u64),
    /// A key is given: an AES key followed by a salt of 4 octets.
    Keys(Octets),
}
