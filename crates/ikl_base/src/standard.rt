// Adapters over the readers and writers of std, which tell no content.
ghost use Rattle.std.specs.Prelude.{◌≡◌, List, ℕ, None};

use crate::fault::Failed;
use crate::outside::{Sink, Source};
use std::io::{Read, Write};

/// A source over a reader, which tells no content.
#[derive(Drop)]
pub struct FromReader<R> {
    reader: R,
    faults: u64,
}

impl<R: Read> FromReader<R> {
    /// A source over this reader, which has not failed.
    pub fn new(reader: R) -> Self
        ensures { result.faults ≡ 0 }
    {
        FromReader { reader, faults: 0 }
    }
}

impl<R: Read> Source for FromReader<R> {
    ghost left = { λ _. None };

    ghost faults = { λ s. s.faults };

    ghost last_failed = { λ _. None };

    fn read(&mut self, buf: &mut [u8]) -> Result<usize, Failed> {
        match self.reader.read(buf) {
            Ok(n) => Ok(n),
            Err(_) => {
                self.faults = self.faults.saturating_add(1);
                Err(Failed)
            }
        }
    }
}

/// A sink over a writer, which tells no content.
#[derive(Drop)]
pub struct ToWriter<W> {
    writer: W,
    faults: u64,
}

impl<W: Write> ToWriter<W> {
    /// A sink over this writer, which has not failed.
    pub fn new(writer: W) -> Self
        ensures { result.faults ≡ 0 }
    {
        ToWriter { writer, faults: 0 }
    }
}

impl<W: Write> Sink for ToWriter<W> {
    ghost written = { λ _. None };

    ghost faults = { λ s. s.faults };

    ghost last_failed = { λ _. None };

    fn write(&mut self, buf: &[u8]) -> Result<usize, Failed> {
        match self.writer.write(buf) {
            Ok(n) if n > 0 || buf.is_empty() => Ok(n),
            _ => {
                self.faults = self.faults.saturating_add(1);
                Err(Failed)
            }
        }
    }
}
