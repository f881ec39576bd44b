ghost use Rattle.std.specs.Prelude.{◌≤◌, ◌≡◌, length, IfOk};
ghost use Rattle.ppp_outside.specs.Line.{FitsBuffer};
ghost use Rattle.std.specs.Io.{ReadsAtMost, WritesAtMost};

use ppp_outside::LineGot;
use std::io::{Error, ErrorKind, Read, Result, Write};
use std::net::TcpStream;
use std::os::unix::net::UnixStream;
use std::time::Duration;

/// The socket of a line.
#[derive(Drop)]
pub enum Socket {
    Tcp(TcpStream),
    Unix(UnixStream),
}

impl Socket {
    /// Another handle of the same socket.
    pub fn try_clone(&self) -> Result<Socket> {
        match self {
            Socket::Tcp(stream) => Ok(Socket::Tcp(stream.try_clone()?)),
            Socket::Unix(stream) => Ok(Socket::Unix(stream.try_clone()?)),
        }
    }

    // Lets each read wait so long at most.
    fn set_wait(&self, wait: Duration) -> Result<()> {
        match self {
            Socket::Tcp(stream) => stream.set_read_timeout(Some(wait)),
            Socket::Unix(stream) => stream.set_read_timeout(Some(wait)),
        }
    }

    // Reads once.
    fn receive(&mut self, buf: &mut [u8]) -> Result<usize>
        ensures { ReadsAtMost result buf.new }
    {
        match self {
            Socket::Tcp(stream) => stream.read(buf),
            Socket::Unix(stream) => stream.read(buf),
        }
    }

    /// Reads once, and waits so many milliseconds at most.
    pub fn read(&mut self, buf: &mut [u8], wait_ms: u32) -> LineGot
        ensures { FitsBuffer result buf.new }
    {
        if buf.is_empty() {
            return LineGot::Quiet;
        }
        if self.set_wait(wait_of(wait_ms)).is_err() {
            return LineGot::Failed;
        }
        match self.receive(buf) {
            Ok(0) => LineGot::End,
            Ok(count) => LineGot::Got(count),
            Err(error) if is_quiet(&error) => LineGot::Quiet,
            Err(_) => LineGot::Failed,
        }
    }

    /// Writes once.
    pub fn write(&mut self, piece: &[u8]) -> Result<usize>
        ensures { WritesAtMost result piece.now }
    {
        match self {
            Socket::Tcp(stream) => stream.write(piece),
            Socket::Unix(stream) => stream.write(piece),
        }
    }
}

/// Whether a call took nothing only because nothing came within its wait. A program that was stopped for a while ends
/// its waits early.
pub fn is_quiet(error: &Error) -> bool {
    match error.kind() {
        ErrorKind::WouldBlock | ErrorKind::TimedOut | ErrorKind::Interrupted => true,
        _ => false,
    }
}

/// The wait of a socket. No wait at all would be one without an end there, so it is the shortest.
pub fn wait_of(wait_ms: u32) -> Duration {
    if wait_ms == 0 {
        Duration::from_micros(1)
    } else {
        Duration::from_millis(u64::from(wait_ms))
    }
}
