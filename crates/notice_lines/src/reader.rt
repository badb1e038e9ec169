// Lines of notices from octets that come in pieces.
ghost use Rattle.std.specs.Prelude.{◌≡◌, ◌≤◌, [], None, Some, length};
ghost use Rattle.notice_lines.specs.Reading.{Reading, kept_only, line_end, GivesNext, FeedGives};

use crate::fault::NoticeFault;
use crate::line::{append, line_end, read_joined};
use ikeless_tree::Notice;
use ikl_base::OrMemory;
use std::alloc::Global;
use std::marker::Model;

const MOST_OCTETS: usize = 4096;

/// What a piece of octets brings.
#[derive(Debug, Drop)]
pub enum Heard {
    /// Less than a line. All octets of the piece were taken.
    NoneYet,
    /// A notice, whose line ends after so many octets of the piece. The others are to be fed again.
    Line { notice: Notice, taken: usize },
}

/// A reader of lines that come in pieces of any size.
///
/// Contracts see the octets that came after the last line, and the fault answered before. After a fault the reader
/// answers it for good. Want of memory leaves it as it was.
#[derive(Drop)]
pub struct LineReader {
    alloc: Global,
    fault: Option<NoticeFault>,
    kept: Vec<u8>,
}

impl Model for LineReader {
    ghost Value = { Reading };

    ghost view = { λ r. record { fault = r.fault; kept = r.kept.items } };

    ghost invariant = { λ r. (line_end r.kept.items ≡ None) × (length r.kept.items ≤ 4096) };
}

impl LineReader {
    /// A reader to which nothing came.
    pub fn new(alloc: Global) -> LineReader
        ensures { result ≡ kept_only [] }
    {
        LineReader {
            alloc,
            fault: None,
            kept: Vec::new(alloc),
        }
    }

    /// Takes the next octets, up to the end of the first line in them.
    pub fn feed(&mut self, piece: &[u8]) -> Result<Heard, OrMemory<NoticeFault>>
        ensures { FeedGives self.old.fault self.old self.new piece.now result }
    {
        if let Some(fault) = self.fault {
            return Err(OrMemory::Refused(fault));
        }
        match line_end(piece) {
            Some(end) => self.hear(piece, end),
            None => self.keep(piece),
        }
    }

    // Keeps a piece that has no end of a line.
    fn keep(&mut self, piece: &[u8]) -> Result<Heard, OrMemory<NoticeFault>>
        requires fresh { self.old.fault ≡ None }
        requires part { line_end piece.now ≡ None }
        ensures { GivesNext self.old self.new piece.now result }
    {
        let room = MOST_OCTETS - self.kept.len();
        if piece.len() > room {
            self.fault = Some(NoticeFault::LineTooLong);
            return Err(OrMemory::Refused(NoticeFault::LineTooLong));
        }
        append(&mut self.kept, piece)?;
        Ok(Heard::NoneYet)
    }

    // Reads the line that ends after so many octets of the piece.
    fn hear(&mut self, piece: &[u8], end: usize) -> Result<Heard, OrMemory<NoticeFault>>
        requires fresh { self.old.fault ≡ None }
        requires line { line_end piece.now ≡ Some end }
        ensures { GivesNext self.old self.new piece.now result }
    {
        let room = MOST_OCTETS - self.kept.len();
        if end > room {
            self.fault = Some(NoticeFault::LineTooLong);
            return Err(OrMemory::Refused(NoticeFault::LineTooLong));
        }
        match read_joined(self.alloc, &self.kept, piece, end) {
            Ok(notice) => {
                self.kept.clear();
                Ok(Heard::Line {
                    notice,
                    taken: end + 1,
                })
            }
            Err(OrMemory::NoMemory) => Err(OrMemory::NoMemory),
            Err(OrMemory::Refused(fault)) => {
                self.fault = Some(fault);
                Err(OrMemory::Refused(fault))
            }
        }
    }
}
