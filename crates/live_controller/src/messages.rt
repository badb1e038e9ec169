// Messages of a session, from octets in any pieces.
ghost use Rattle.std.specs.Prelude.{◌≡◌, ◌++◌, [], IfOk, OnErr, OnOk};
ghost use Rattle.rc_http.specs.declared.message.Kind.TheVariants.{Request, Response};
ghost use Rattle.live_controller.specs.Streams.{Brings};

use ikl_base::{NoMemory, OrMemory};
use rc_http::{Fed, Feeder, HttpFault, HttpMessage};
use std::alloc::Global;
use std::marker::Model;

/// What the next octets bring.
#[derive(Drop)]
pub(crate) enum Brought {
    /// No message is whole yet. All octets are taken.
    NoneYet,
    /// The next message, whose last octet is the octet `taken`, counted from 1.
    Whole { message: HttpMessage, taken: usize },
    /// What comes is no message.
    Broken(HttpFault),
}

/// Requests, as far as they came in. Contracts see the octets since the last whole one.
#[derive(Drop)]
pub(crate) struct Requests {
    feeder: Feeder,
}

impl Model for Requests {
    ghost use Rattle.std.specs.Prelude.{List, ℕ};
    ghost use Rattle.rc_http.specs.declared.message.Kind.TheVariants.{Request};
    ghost use Rattle.live_controller.specs.Streams.{IsWaiting};

    ghost Value = { List ℕ };

    ghost view = { λ r. r.feeder.octets };

    ghost invariant = { λ r. IsWaiting Request r.feeder };
}

impl Requests {
    /// Nothing came.
    pub(crate) fn begun(alloc: Global) -> Requests
        ensures { result ≡ [] }
    {
        Requests {
            feeder: Feeder::requests(alloc),
        }
    }

    /// Takes the next octets, as far as the next request goes.
    pub(crate) fn feed(&mut self, alloc: Global, piece: &[u8]) -> Result<Brought, NoMemory>
        ensures { IfOk result (Brings Request self.old self.new piece.now) }
    {
        match self.feeder.feed(piece) {
            Ok(Fed::NoneYet) => Ok(Brought::NoneYet),
            Ok(Fed::Whole { message, taken }) => Ok(Brought::Whole { message, taken }),
            Err(OrMemory::Refused(fault)) => {
                self.feeder = Feeder::requests(alloc);
                Ok(Brought::Broken(fault))
            }
            Err(OrMemory::NoMemory) => Err(NoMemory),
        }
    }
}

/// Responses, as far as they came in. Contracts see the octets since the last whole one.
#[derive(Drop)]
pub(crate) struct Responses {
    feeder: Feeder,
}

impl Model for Responses {
    ghost use Rattle.std.specs.Prelude.{List, ℕ};
    ghost use Rattle.rc_http.specs.declared.message.Kind.TheVariants.{Response};
    ghost use Rattle.live_controller.specs.Streams.{IsWaiting};

    ghost Value = { List ℕ };

    ghost view = { λ r. r.feeder.octets };

    ghost invariant = { λ r. IsWaiting Response r.feeder };
}

impl Responses {
    /// Nothing came.
    pub(crate) fn begun(alloc: Global) -> Responses
        ensures { result ≡ [] }
    {
        Responses {
            feeder: Feeder::responses(alloc),
        }
    }

    /// Takes the next octets, as far as the next response goes.
    pub(crate) fn feed(&mut self, alloc: Global, piece: &[u8]) -> Result<Brought, NoMemory>
        ensures { IfOk result (Brings Response self.old self.new piece.now) }
    {
        match self.feeder.feed(piece) {
            Ok(Fed::NoneYet) => Ok(Brought::NoneYet),
            Ok(Fed::Whole { message, taken }) => Ok(Brought::Whole { message, taken }),
            Err(OrMemory::Refused(fault)) => {
                self.feeder = Feeder::responses(alloc);
                Ok(Brought::Broken(fault))
            }
            Err(OrMemory::NoMemory) => Err(NoMemory),
        }
    }
}
