// Messages from octets that come in pieces.
ghost use Rattle.std.specs.Prelude.{◌≡◌, ℕ, List, Err};
ghost use Rattle.ikl_base.specs.declared.fault.OrMemory.TheVariants as failures;
ghost use Rattle.rc_http.specs.declared.message.Kind.TheVariants.{Request, Response};
ghost use Rattle.rc_http.specs.Feeding.{fresh, IsSince, FeedGives};

use crate::advance::{Stage, Step, advance};
use crate::message::{HttpFault, HttpMessage, Kind};
use crate::place::Place;
use ikl_base::{NoMemory, OrMemory};
use std::alloc::Global;
use std::marker::Model;

const START: Stage = Stage::InHead {
    place: Place::Before,
};

/// What feeding a piece gives.
#[derive(Drop)]
pub enum Fed {
    /// No message is whole; all octets of the piece are taken.
    NoneYet,
    /// The next message, whose last octet is the piece's octet `taken`, counted from 1.
    Whole { message: HttpMessage, taken: usize },
}

/// Reads messages from octets that come in pieces.
#[derive(Drop)]
pub struct Feeder {
    kind: Kind,
    kept: Vec<u8>,
    stage: Result<Stage, HttpFault>,
}

impl Model for Feeder {
    ghost use Rattle.rc_http.specs.Feeding.{Feeding};
    ghost use Rattle.rc_http.specs.Stages.{fault_of, IsKept};

    ghost Value = { Feeding };

    ghost view = { λ f. record { kind = f.kind; octets = f.kept.items; fault = fault_of f.stage } };

    ghost invariant = { λ f. IsKept f.kind f.kept.items f.stage };
}

impl Feeder {
    fn new(alloc: Global, kind: Kind) -> Feeder
        ensures { result ≡ fresh kind }
    {
        Feeder {
            kind,
            kept: Vec::new(alloc),
            stage: Ok(START),
        }
    }

    /// A reader of requests.
    pub fn requests(alloc: Global) -> Feeder
        ensures { result ≡ fresh Request }
    {
        Feeder::new(alloc, Kind::Request)
    }

    /// A reader of responses.
    pub fn responses(alloc: Global) -> Feeder
        ensures { result ≡ fresh Response }
    {
        Feeder::new(alloc, Kind::Response)
    }

    /// Takes the next piece of the octets, as far as the next message goes.
    ///
    /// A message is a head (RFC 9112 sections 3 to 5), then as many octets as its Content-Length says, none without
    /// it. The octets are looked at as if they came one by one, and the first fault is the answer, from then on for
    /// good. What follows a whole message is to be fed again. Want of memory changes nothing.
    pub fn feed(&mut self, piece: &[u8]) -> Result<Fed, OrMemory<HttpFault>>
        ensures kind { self.new.kind ≡ self.old.kind }
        ensures gives { (since : List ℕ) → IsSince self.old since → FeedGives self.old.kind since piece.now self.new result }
        ensures memory { result ≡ Err failures.NoMemory → self.new ≡ self.old }
    {
        let stage = match self.stage {
            Ok(stage) => stage,
            Err(fault) => return Err(OrMemory::Refused(fault)),
        };
        let held = self.kept.len();
        match advance(self.kind, &mut self.kept, stage, piece) {
            Err(NoMemory) => {
                self.kept.truncate(held);
                Err(OrMemory::NoMemory)
            }
            Ok(Step::Waits(stage)) => {
                self.stage = Ok(stage);
                Ok(Fed::NoneYet)
            }
            Ok(Step::Fails(fault)) => {
                self.stage = Err(fault);
                Err(OrMemory::Refused(fault))
            }
            Ok(Step::Whole { message, taken }) => {
                self.kept.clear();
                self.stage = Ok(START);
                Ok(Fed::Whole { message, taken })
            }
        }
    }
}
