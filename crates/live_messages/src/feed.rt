// The next octets of a session.
ghost use Rattle.std.specs.Prelude.{◌≡◌, IfOk, OnErr};
ghost use Rattle.live_messages.specs.Holds.{IsReading};
ghost use Rattle.live_messages.specs.Brings.{GoesOn};

use ikl_base::{NoMemory, OrMemory};
use rc_http::{
    Fed, Feeder, HttpFault, HttpMessage, messages_are_whole, octets_amount_to_one_thing,
    pieces_join,
};

/// What the next octets of a session bring.
#[derive(Drop)]
pub enum Brought {
    /// No message is whole yet. All octets are taken.
    Nothing,
    /// The next message, whose last octet is the octet `taken`, counted from 1.
    Message { message: HttpMessage, taken: usize },
    /// What comes now is no message. All octets are taken.
    Fault(HttpFault),
}

/// Feeds the next octets of a session to its reader, as far as the next message goes.
///
/// Whatever was read before, the reader goes on by the octets that are taken, of which there is one at least. Want of memory
/// changes nothing.
pub fn feed_next(feeder: &mut Feeder, piece: &[u8]) -> Result<Brought, NoMemory>
    requires { IsReading feeder.old }
    ensures goes { IfOk result (GoesOn feeder.old feeder.new piece.now) }
    ensures memory { OnErr result (feeder.new ≡ feeder.old) }
{
    pieces_join();
    octets_amount_to_one_thing();
    messages_are_whole();
    match feeder.feed(piece) {
        Ok(Fed::NoneYet) => Ok(Brought::Nothing),
        Ok(Fed::Whole { message, taken }) => Ok(Brought::Message { message, taken }),
        Err(OrMemory::Refused(fault)) => Ok(Brought::Fault(fault)),
        Err(OrMemory::NoMemory) => Err(NoMemory),
    }
}
