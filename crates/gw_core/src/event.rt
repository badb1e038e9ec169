// What happens at a gateway.
use rc_resource::{Ask, RcError};

/// What happens at a gateway.
#[derive(Debug, Drop)]
pub enum GwEvent<'a> {
    /// A packet from inside.
    Let(&'a [u8]),
    /// A datagram from outside.
    Arrive(&'a [u8]),
    /// A reading of the clock, in seconds.
    Clock(u32),
    /// The next request of the session, or why it could not be read.
    Handle(Result<Ask, RcError>),
    /// A session is taken.
    SessionTaken,
}
