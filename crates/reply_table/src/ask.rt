// What a request asks, and what its reply changes.
use ikeless_tree::{Entries, SadEntry, SpdEntry};
use ikl_base::Name;

/// Where a new policy stands among the others (RFC 8040 section 4.8.5).
#[derive(Debug, Drop)]
pub enum Place {
    First,
    Last,
    Before(Name),
    After(Name),
}

/// What a request asks of a gateway's databases: each resource with its methods.
#[derive(Debug, Drop)]
pub enum Ask {
    GetSpd,
    PutSpd(Entries),
    PostSpd { entry: SpdEntry, place: Place },
    GetSpdEntry(Name),
    PutSpdEntry(SpdEntry),
    DeleteSpdEntry(Name),
    GetSad,
    PostSad(SadEntry),
    GetSadEntry(Name),
    DeleteSad(Name),
}

/// What a reply changed: nothing, the policies, or one association.
#[derive(Debug, Drop)]
pub enum Change {
    Nothing,
    Spd,
    Put(SadEntry),
    Gone(Name),
}
