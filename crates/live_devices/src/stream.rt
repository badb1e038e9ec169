// Streams in memory.
ghost use Rattle.std.specs.Prelude.{◌≡◌, ◌<◌, ◌-◌, ◌^◌, List, ℕ, length, false, [], IfSome, ◌≤◌};
ghost use Rattle.live_devices.specs.Comings.{later};
ghost use Rattle.live_devices.specs.Streams.{Read, there_now, silent};
ghost use Rattle.live_devices.specs.StreamMemory.{script_held, stream_held};

use ikl_base::{ListOf, Octets};

/// What comes on a stream: its octets, how many of them are there at each read, and whether it ends after them.
///
/// A 0 is a read at which nothing is there. After the last number all octets are there.
#[derive(Drop)]
pub struct Script {
    pub octets: Octets,
    pub there: ListOf<usize>,
    pub ends: bool,
}

/// A stream in memory as far as it is read.
#[derive(Drop)]
pub struct MemoryStream<'a> {
    pub rest: &'a [u8],
    pub there: &'a [usize],
    pub ends: bool,
}

impl<'a> MemoryStream<'a> {
    /// A stream of which nothing was read.
    pub fn new(script: &'a Script) -> Self
        ensures { stream_held result ≡ script_held script.now }
    {
        MemoryStream {
            rest: script.octets.as_slice(),
            there: script.there.as_slice(),
            ends: script.ends,
        }
    }

    /// A stream on which nothing ever comes.
    pub fn silent() -> Self
        ensures { stream_held result ≡ silent }
    {
        MemoryStream {
            rest: &[],
            there: &[],
            ends: false,
        }
    }

    // How many octets are there at this read.
    fn take_there(&mut self) -> usize
        ensures there { result ≡ there_now self.old.there.now }
        ensures later { self.new.there.now ≡ later self.old.there.now }
        ensures rest { self.new.rest ≡ self.old.rest }
        ensures ends { self.new.ends ≡ self.old.ends }
    {
        let Some((there, later)) = self.there.split_first() else {
            return usize::MAX;
        };
        self.there = later;
        *there
    }

    /// Reads into the front of `buf`: Some(0) is the end, and None says that nothing is there.
    pub fn read(&mut self, buf: &mut [u8]) -> Option<usize>
        requires { 0 < length buf.old }
        ensures read { Read (stream_held self.old) (stream_held self.new) result buf.new }
        ensures room { length buf.new ≡ length buf.old }
        ensures bound { IfSome result (λ n. n ≤ length buf.new) }
    {
        let there = self.take_there();
        if there == 0 || (self.rest.is_empty() && !self.ends) {
            return None;
        }
        let n = self.rest.len().min(buf.len()).min(there);
        let (front, rest) = self.rest.split_at(n);
        buf[..n].copy_from_slice(front);
        self.rest = rest;
        Some(n)
    }
}
