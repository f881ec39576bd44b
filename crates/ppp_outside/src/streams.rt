ghost use Rattle.std.specs.Prelude.{◌≡◌, None};

use crate::sink::{Sink, Took};
use crate::source::{Got, Source};
use std::io::{Read, Write};

/// A reader of the standard library as a source. It tells of its content what the reader tells.
#[derive(Drop)]
pub struct FromReader<R> {
    reader: R,
    faults: u64,
    taken: u64,
}

impl<R> FromReader<R> {
    /// The reader, whose counts begin at 0.
    pub fn new(reader: R) -> FromReader<R>
        ensures reader { result.reader ≡ reader }
        ensures faults { result.faults ≡ 0 }
        ensures taken { result.taken ≡ 0 }
    {
        FromReader {
            reader,
            faults: 0,
            taken: 0,
        }
    }
}

impl<R: Read> Source for FromReader<R> {
    ghost state = { λ s. record { left = R.remaining s.reader; taken = s.taken; faults = s.faults } };

    fn read(&mut self, buf: &mut [u8]) -> Got {
        let taken = self.taken;
        match self.reader.read(buf) {
            Ok(0) if !buf.is_empty() => Got::End,
            Ok(count) => {
                self.taken = taken.saturating_add(count as u64);
                Got::Got(count)
            }
            Err(_) => {
                self.faults = self.faults.saturating_add(1);
                Got::Failed
            }
        }
    }
}

/// A writer of the standard library as a sink. It tells of its content what the writer tells.
#[derive(Drop)]
pub struct ToWriter<W> {
    writer: W,
    faults: u64,
}

impl<W> ToWriter<W> {
    /// The writer, whose count of faults begins at 0.
    pub fn new(writer: W) -> ToWriter<W>
        ensures writer { result.writer ≡ writer }
        ensures faults { result.faults ≡ 0 }
    {
        ToWriter { writer, faults: 0 }
    }
}

impl<W: Write> Sink for ToWriter<W> {
    ghost state = { λ s. record { written = W.contents s.writer; faults = s.faults } };

    ghost coming = { λ s. None };

    fn write(&mut self, piece: &[u8]) -> Took {
        match self.writer.write(piece) {
            Ok(count) if count > 0 || piece.is_empty() => Took::Took(count),
            _ => {
                self.faults = self.faults.saturating_add(1);
                Took::Failed
            }
        }
    }
}
