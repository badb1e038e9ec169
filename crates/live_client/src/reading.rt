// The octets of a response, as far as they came.
ghost use Rattle.std.specs.Prelude.{◌≡◌, ◌++◌, []};
ghost use Rattle.rc_operations.specs.Replies.{told_of};
ghost use Rattle.live_client.specs.Replies.{IsWaiting, Says, Takes};
ghost use Rattle.live_client.specs.declared.fault.AskFault.TheVariants as faults;

use crate::fault::AskFault;
use ikl_base::{Octets, OrMemory};
use rc_http::{Fed, Feeder, HttpMessage};
use rc_operations::{Told, read_told};
use std::alloc::Global;
use std::mem::replace;

/// All octets read, and the reader to which they were fed.
#[derive(Drop)]
pub(crate) struct Reading {
    pub octets: Vec<u8>,
    pub feeder: Feeder,
}

impl Reading {
    /// Nothing was read.
    pub(crate) fn begun(alloc: Global) -> Reading
        ensures waiting { IsWaiting result.feeder result.octets.items }
        ensures none { result.octets.items ≡ [] }
    {
        Reading {
            octets: Vec::new(alloc),
            feeder: Feeder::responses(alloc),
        }
    }

    /// The answer that what was read is no reply. It takes the octets.
    pub(crate) fn bad(&mut self, alloc: Global) -> AskFault
        ensures { result ≡ faults.BadReply self.old.octets.items }
    {
        AskFault::BadReply(Octets::from_items(replace(&mut self.octets, Vec::new(alloc))))
    }

    // What a whole response says.
    fn answer(&mut self, alloc: Global, m: &HttpMessage) -> Result<Option<Told>, AskFault>
        ensures { Says self.old.octets.items (told_of m.now) result }
    {
        match read_told(alloc, m) {
            Ok(told) => Ok(Some(told)),
            Err(OrMemory::Refused(_)) => Err(self.bad(alloc)),
            Err(OrMemory::NoMemory) => Err(AskFault::NoMemory),
        }
    }

    /// Takes more octets: what they say, once they are a whole response.
    pub(crate) fn take(&mut self, alloc: Global, piece: &[u8]) -> Result<Option<Told>, AskFault>
        requires { IsWaiting self.old.feeder self.old.octets.items }
        ensures { Takes (self.old.octets.items ++ piece.now) self.new.feeder self.new.octets.items result }
    {
        match self.octets.extend_from_slice(piece) {
            Ok(()) => (),
            Err(_) => return Err(AskFault::NoMemory),
        }
        match self.feeder.feed(piece) {
            Ok(Fed::NoneYet) => Ok(None),
            Ok(Fed::Whole { message, taken: _ }) => self.answer(alloc, &message),
            Err(OrMemory::Refused(_)) => Err(self.bad(alloc)),
            Err(OrMemory::NoMemory) => Err(AskFault::NoMemory),
        }
    }
}
