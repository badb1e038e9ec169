// Takes the octets of a script, line by line, and writes the block of each.
ghost use Rattle.std.specs.Prelude.{◌≡◌, ◌+◌, ◌<◌, ◌≤◌, ◌^◌, ◌++◌, List, ℕ, Option, OnOk, OnErr, IfErr, MatchOption, [], ◌∷◌, length, false, None};
ghost use Rattle.ikl_base.specs.Outside.{AtEnd, Gains, HasCause, IsCalm, HasFailed};
ghost use Rattle.ikl_base.specs.declared.status.Status.TheVariants as statuses;
ghost use Rattle.ikl_base.specs.declared.status.LineFault.TheVariants as faults;
ghost use Rattle.ikeless_cli.specs.Script.{HasNoLf};
ghost use Rattle.ikeless_cli.specs.Run.{Ran, is_read_fault, is_write_fault};
ghost use Rattle.ikeless_cli.specs.Reader.{taken_of, lines_of, IsLive, Reads, Fits, Overflows, Takes, SinkTells, broke_of, ends_forged, fresh, kept};

use crate::running::{Running, next_line, take_line};
use ikl_base::{Failed, LineFault, Octets, OrMemory, Sink, Status, write_all};
use memchr::memchr;
use std::alloc::Global;
use std::marker::Model;
use std::mem::replace;

const LINE_LIMIT: usize = 1_048_576;

const INPUT_LIMIT: u64 = 67_108_864;

/// What a run keeps between octets: the world once there is a header, the line that has begun and
/// the number of octets of the whole lines before it. Where a line ended the run no world is left.
#[derive(Drop)]
pub struct Reader {
    running: Option<Running>,
    line: Vec<u8>,
    whole: u64,
}

impl Model for Reader {
    ghost use Rattle.ikeless_cli.specs.Reader.{IsCounted, State, kept};

    ghost Value = { State };

    ghost view = { λ r. kept r.running r.line.items r.whole };

    ghost invariant = { λ r. IsCounted (kept r.running r.line.items r.whole) };
}

// A forged arrival ends the run at its line.
fn go_on(line: u64, forged: Option<Octets>) -> Result<(), Status>
    ensures { result ≡ ends_forged line forged }
{
    match forged {
        None => Ok(()),
        Some(octets) => Err(Status::Forged { line, octets }),
    }
}

// Takes a line that an LF ends, and writes its block.
fn put_block<K: Sink>(
    alloc: Global,
    running: &mut Option<Running>,
    line: &[u8],
    output: &mut K,
) -> Result<(), Status>
    requires live { IsLive running.old }
    requires few { taken_of running.old < 2 ^ 31 }
    ensures takes { (whole : ℕ) → length line.now < 1048576 → whole + length line.now < 67108864
        → Takes result (kept running.old line.now whole) (kept running.new [] (whole + length line.now + 1))
        (K.written output.old) (K.written output.new) (10 ∷ []) }
    ensures live { OnOk result (IsLive running.new) }
    ensures count { taken_of running.new ≤ taken_of running.old + 1 }
    ensures sink { SinkTells (K.faults output.old) (K.faults output.new) (K.last_failed output.old) (K.last_failed output.new) (broke_of result) }
{
    let number = next_line(running);
    let block = match take_line(alloc, running, line) {
        Ok(block) => block,
        Err(OrMemory::NoMemory) => return Err(Status::NoMemory),
        Err(OrMemory::Refused(reason)) => {
            return Err(Status::Line {
                line: number,
                reason,
            });
        }
    };
    match write_all(output, block.text.as_slice()) {
        Ok(()) => go_on(number, block.forged),
        Err(Failed) => Err(Status::WriteFault),
    }
}

// The octets before the first LF, and those after it.
fn cut_line(octets: &[u8]) -> Option<(&[u8], &[u8])>
    ensures { MatchOption result (HasNoLf octets.now) (λ cut. HasNoLf cut.0.now × (octets.now ≡ cut.0.now ++ 10 ∷ cut.1.now)) }
{
    let n = memchr(b'\n', octets)?;
    let (line, rest) = octets.split_at(n);
    let (_, after) = rest.split_at(1);
    Some((line, after))
}

impl Reader {
    /// Nothing was read.
    pub fn new(alloc: Global) -> Reader
        ensures { result ≡ fresh }
    {
        Reader {
            running: None,
            line: Vec::new(alloc),
            whole: 0,
        }
    }

    // Whether so many more octets of a line are within the limits. Where an octet passes both, that of the input counts.
    fn fits(&self, count: usize) -> Result<(), Status>
        ensures ok { OnOk result (Fits self.now count) }
        ensures err { IfErr result (λ status. Overflows status self.now count) }
        ensures calm { broke_of result ≡ false }
    {
        let left = INPUT_LIMIT - self.whole - self.line.len() as u64;
        let short = LINE_LIMIT - self.line.len();
        if count as u64 <= left && count <= short {
            return Ok(());
        }
        if left <= short as u64 {
            return Err(Status::TooLong);
        }
        let line = next_line(&self.running);
        let reason = LineFault::Long;
        Err(Status::Line { line, reason })
    }

    // Takes a whole line, and writes its block.
    fn take_whole<K: Sink>(
        &mut self,
        alloc: Global,
        line: &[u8],
        output: &mut K,
    ) -> Result<(), Status>
        requires empty { self.old.line ≡ [] }
        requires short { length line.now < 1048576 }
        requires room { self.old.whole + length line.now < 67108864 }
        ensures takes { Takes result (kept self.old.running line.now self.old.whole) self.new (K.written output.old) (K.written output.new) (10 ∷ []) }
        ensures sink { SinkTells (K.faults output.old) (K.faults output.new) (K.last_failed output.old) (K.last_failed output.new) (broke_of result) }
    {
        self.whole += line.len() as u64 + 1;
        match put_block(alloc, &mut self.running, line, output) {
            Ok(()) => Ok(()),
            Err(status) => {
                self.running = None;
                Err(status)
            }
        }
    }

    // Takes the octets that come before the LF of a line. A line that lies whole in its piece isn't copied.
    fn end_line<K: Sink>(
        &mut self,
        alloc: Global,
        octets: &[u8],
        output: &mut K,
    ) -> Result<(), Status>
        requires { HasNoLf octets.now }
        ensures takes { Takes result self.old self.new (K.written output.old) (K.written output.new) (octets.now ++ 10 ∷ []) }
        ensures sink { SinkTells (K.faults output.old) (K.faults output.new) (K.last_failed output.old) (K.last_failed output.new) (broke_of result) }
    {
        match self.fits(octets.len() + 1) {
            Ok(()) => (),
            Err(status) => return Err(status),
        }
        if self.line.is_empty() {
            return self.take_whole(alloc, octets, output);
        }
        let mut line = replace(&mut self.line, Vec::new(alloc));
        match line.extend_from_slice(octets) {
            Ok(()) => self.take_whole(alloc, line.as_slice(), output),
            Err(_) => Err(Status::NoMemory),
        }
    }

    // Keeps the octets of a line that goes on.
    fn keep(&mut self, octets: &[u8]) -> Result<(), Status>
        requires { HasNoLf octets.now }
        ensures takes { (told : Option (List ℕ)) → Takes result self.old self.new told told octets.now }
        ensures calm { broke_of result ≡ false }
    {
        match self.fits(octets.len()) {
            Ok(()) => (),
            Err(status) => return Err(status),
        }
        match self.line.extend_from_slice(octets) {
            Ok(()) => Ok(()),
            Err(_) => Err(Status::NoMemory),
        }
    }

    /// Takes the octets of a piece, and writes the block of each line that ends in it. An `Err` ends the run.
    pub fn take_piece<K: Sink>(
        &mut self,
        alloc: Global,
        piece: &[u8],
        output: &mut K,
    ) -> Result<(), Status>
        ensures takes { Takes result self.old self.new (K.written output.old) (K.written output.new) piece.now }
        ensures sink { SinkTells (K.faults output.old) (K.faults output.new) (K.last_failed output.old) (K.last_failed output.new) (broke_of result) }
    {
        let mut rest = piece;
        while let Some((line, after)) = cut_line(rest) {
            match self.end_line(alloc, line, output) {
                Ok(()) => rest = after,
                Err(status) => return Err(status),
            }
        }
        self.keep(rest)
    }

    // The refusal of a line that the input ends in.
    fn cut_off(&self) -> Status
        ensures { result ≡ statuses.Line (lines_of self.now.running + 1) faults.End }
    {
        Status::Line {
            line: next_line(&self.running),
            reason: LineFault::End,
        }
    }

    /// How a run ends where its input does.
    pub fn at_end(&self) -> Status
        ensures ran { (input text : List ℕ) (left : Option (List ℕ)) → Reads input text self.now → AtEnd left → Ran result left input text }
        ensures no_read_fault { is_read_fault result ≡ false }
        ensures no_write_fault { is_write_fault result ≡ false }
    {
        match &self.running {
            None => self.cut_off(),
            Some(_) => {
                if self.line.is_empty() {
                    Status::Done
                } else {
                    self.cut_off()
                }
            }
        }
    }
}
