ghost use Rattle.std.specs.Prelude.{◌≡◌, None};
ghost use Rattle.ppp_outside.specs.Line.{FitsBuffer};
ghost use Rattle.ppp_real.specs.Line.{state_of};

use crate::child::ChildReader;
use crate::line_counts::LineCounts;
use crate::socket::Socket;
use ppp_outside::{LineGot, LineIn};
use std::rt;
use std::sync::Wait;

/// The reading half of a line.
#[derive(Drop)]
pub struct RealLineIn<R> {
    incoming: Incoming<R>,
    counts: LineCounts,
}

/// Where a line's octets come from.
#[derive(Drop)]
pub enum Incoming<R> {
    Socket(Socket),
    Child(ChildReader<R>),
}

impl<R: Wait + rt::Clock> Incoming<R> {
    // Reads once, and waits so many milliseconds at most.
    fn read(&mut self, buf: &mut [u8], wait_ms: u32) -> LineGot
        ensures { FitsBuffer result buf.new }
    {
        match self {
            Incoming::Socket(socket) => socket.read(buf, wait_ms),
            Incoming::Child(child) => child.read(buf, wait_ms),
        }
    }
}

impl<R> RealLineIn<R> {
    /// A line of which nothing was read.
    pub fn new(incoming: Incoming<R>) -> RealLineIn<R>
        ensures { result.counts ≡ record { taken = 0; faults = 0; quiets = 0; ends = 0 } }
    {
        RealLineIn {
            incoming,
            counts: LineCounts::new(),
        }
    }
}

impl<R: Wait + rt::Clock + Drop> LineIn for RealLineIn<R> {
    ghost state = { λ line. state_of line.counts };

    ghost coming = { λ line. None };

    #[tactic(auto, using(crate::proofs::LineLemmas::reads_line))]
    fn read(&mut self, buf: &mut [u8], wait_ms: u32) -> LineGot {
        let answer = self.incoming.read(buf, wait_ms);
        self.counts.count(answer);
        answer
    }
}
