use std::io::{Result, Write};
use std::rt::{Stderr, Stdout};

/// A standard stream that is written to.
#[derive(Drop)]
pub enum StandardStream {
    Output(Stdout),
    Errors(Stderr),
}

impl Write for StandardStream {
    fn write(&mut self, octets: &[u8]) -> Result<usize> {
        match self {
            StandardStream::Output(stream) => stream.write(octets),
            StandardStream::Errors(stream) => stream.write(octets),
        }
    }

    fn flush(&mut self) -> Result<()> {
        match self {
            StandardStream::Output(stream) => stream.flush(),
            StandardStream::Errors(stream) => stream.flush(),
        }
    }
}
