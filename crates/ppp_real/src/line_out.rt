ghost use Rattle.std.specs.Prelude.{◌≡◌, None};
ghost use Rattle.std.specs.Io.{WritesAtMost};

use crate::socket::Socket;
use ppp_outside::{Sink, Took};
use std::io::{Result, Write};
use std::process::ChildStdin;

/// The writing half of a line.
#[derive(Drop)]
pub struct RealLineOut {
    outgoing: Outgoing,
    faults: u64,
}

/// Where a line's octets go.
#[derive(Drop)]
pub enum Outgoing {
    Socket(Socket),
    Child(ChildStdin),
}

impl Outgoing {
    // Writes once.
    fn write(&mut self, piece: &[u8]) -> Result<usize>
        ensures { WritesAtMost result piece.now }
    {
        match self {
            Outgoing::Socket(socket) => socket.write(piece),
            Outgoing::Child(input) => input.write(piece),
        }
    }
}

impl RealLineOut {
    /// A line to which nothing was written.
    pub fn new(outgoing: Outgoing) -> RealLineOut
        ensures { result.faults ≡ 0 }
    {
        RealLineOut {
            outgoing,
            faults: 0,
        }
    }
}

impl Sink for RealLineOut {
    ghost state = { λ line. record { written = None; faults = line.faults } };

    ghost coming = { λ line. None };

    fn write(&mut self, piece: &[u8]) -> Took {
        match self.outgoing.write(piece) {
            Ok(count) if count > 0 || piece.is_empty() => Took::Took(count),
            _ => {
                self.faults = self.faults.saturating_add(1);
                Took::Failed
            }
        }
    }
}
