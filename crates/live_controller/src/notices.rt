// Notices of a session, from octets in any pieces.
ghost use Rattle.std.specs.Prelude.{◌≡◌, [], IfOk};
ghost use Rattle.live_controller.specs.Streams.{Notes};

use ikeless_tree::Notice;
use ikl_base::{NoMemory, OrMemory};
use notice_lines::{Heard, LineReader};
use std::alloc::Global;
use std::marker::Model;

/// What the next octets bring.
#[derive(Drop)]
pub(crate) enum Noted {
    /// No line is whole yet. All octets are taken.
    NoneYet,
    /// The next notice, whose line ends with the octet `taken`, counted from 1.
    Line { notice: Notice, taken: usize },
    /// What comes is no line of a notice.
    Broken,
}

/// Notices, as far as their lines came in. Contracts see the octets since the last line.
#[derive(Drop)]
pub(crate) struct Notices {
    reader: LineReader,
}

impl Model for Notices {
    ghost use Rattle.std.specs.Prelude.{List, ℕ};
    ghost use Rattle.live_controller.specs.Streams.{IsPart};

    ghost Value = { List ℕ };

    ghost view = { λ n. n.reader.kept };

    ghost invariant = { λ n. IsPart n.reader };
}

impl Notices {
    /// Nothing came.
    pub(crate) fn begun(alloc: Global) -> Notices
        ensures { result ≡ [] }
    {
        Notices {
            reader: LineReader::new(alloc),
        }
    }

    /// Takes the next octets, as far as the next line goes.
    pub(crate) fn feed(&mut self, alloc: Global, piece: &[u8]) -> Result<Noted, NoMemory>
        ensures { IfOk result (Notes self.old self.new piece.now) }
    {
        match self.reader.feed(piece) {
            Ok(Heard::NoneYet) => Ok(Noted::NoneYet),
            Ok(Heard::Line { notice, taken }) => Ok(Noted::Line { notice, taken }),
            Err(OrMemory::Refused(_)) => {
                self.reader = LineReader::new(alloc);
                Ok(Noted::Broken)
            }
            Err(OrMemory::NoMemory) => Err(NoMemory),
        }
    }
}
