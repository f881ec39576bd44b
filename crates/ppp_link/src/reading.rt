ghost use Rattle.std.specs.Prelude.{◌≡◌, ℕ, ◌+◌, ◌<◌, ◌≤◌, length, take, IfSome};
ghost use Rattle.ppp_outside.specs.Counts.{raised};
ghost use Rattle.ppp_link.specs.ErrandValues.{IsReadEnd};
ghost use Rattle.ppp_link.specs.Reading.{Reads};

use crate::piece::Piece;
use ppp_base::{LinkId, Octets};
use ppp_link_rules::errand::ReadEnd;
use ppp_outside::{LineGot, LineIn, ScriptedLine};
use std::marker::Model;

/// How many octets are read at once.
const MOST_READ: usize = 1024;

/// The reading half of a link's line, while it is out. A link alone makes one.
#[derive(Drop)]
pub struct Reading<I: LineIn> {
    pub(crate) link: LinkId,
    pub(crate) session: u32,
    pub(crate) taken: u64,
    pub(crate) input: I,
}

impl<I: LineIn> Model for Reading<I> {
    ghost use Rattle.std.specs.Prelude.{◌≡◌};
    ghost use Rattle.ppp_link.specs.ErrandValues.{ReadingState};

    ghost Value = { ReadingState I };

    ghost view = { λ r. record { link = r.link; session = r.session; taken = r.taken; input = r.input } };

    ghost invariant = { λ r. r.taken ≡ (I.state r.input).taken };
}

/// A reading that came back, and why.
#[derive(Drop)]
pub struct ReadOver<I: LineIn> {
    pub(crate) link: LinkId,
    pub(crate) session: u32,
    pub(crate) end: ReadEnd,
    pub(crate) taken: u64,
    pub(crate) input: I,
}

impl<I: LineIn> Model for ReadOver<I> {
    ghost use Rattle.std.specs.Prelude.{◌≡◌};
    ghost use Rattle.ppp_link.specs.ErrandValues.{ReadOverState, IsReadEnd};

    ghost Value = { ReadOverState I };

    ghost view = { λ r. record { link = r.link; session = r.session; end = r.end; taken = r.taken; input = r.input } };

    ghost invariant = { λ r. IsReadEnd r.end (I.state r.input) × (r.taken ≡ (I.state r.input).taken) };
}

/// What a turn of a reading gives.
#[derive(Drop)]
pub enum ReadStep<I: LineIn> {
    /// Octets came.
    Piece(Reading<I>, Piece),
    /// Nothing came within the wait.
    Quiet(Reading<I>),
    /// The line is at its end, or has failed.
    Over(ReadOver<I>),
}

impl<I: LineIn> Reading<I> {
    /// Reads the line once, and waits so many milliseconds at most. The octets that came are numbered by how many the line
    /// had given before them.
    pub fn next(self, wait_ms: u32) -> ReadStep<I>
        ensures { Reads I.state I.coming self result }
    {
        let Reading {
            link,
            session,
            taken,
            mut input,
        } = self;
        let mut buf = [0u8; MOST_READ];
        match input.read(&mut buf, wait_ms) {
            LineGot::Got(count) => {
                let octets = front_of(&buf, count);
                let now = taken.saturating_add(count as u64);
                ReadStep::Piece(
                    Reading {
                        link,
                        session,
                        taken: now,
                        input,
                    },
                    Piece {
                        link,
                        session,
                        offset: taken,
                        octets,
                    },
                )
            }
            LineGot::Quiet => ReadStep::Quiet(Reading {
                link,
                session,
                taken,
                input,
            }),
            LineGot::End => ReadStep::Over(ReadOver {
                link,
                session,
                end: ReadEnd::End,
                taken,
                input,
            }),
            LineGot::Failed => ReadStep::Over(ReadOver {
                link,
                session,
                end: ReadEnd::Failed,
                taken,
                input,
            }),
        }
    }

    /// Gives the reading up.
    pub fn leave(self) -> ReadOver<I>
        ensures { result ≡ record { link = self.link; session = self.session; end = ReadEnd.Left; taken = self.taken; input = self.input } }
    {
        ReadOver {
            link: self.link,
            session: self.session,
            end: ReadEnd::Left,
            taken: self.taken,
            input: self.input,
        }
    }
}

impl<I: ScriptedLine> Reading<I> {
    /// Sets what the line answers next. Its counts and contents stay.
    pub fn next_is(&mut self, answer: &I::Next)
        ensures reading { self.new ≡ record self.old { input = self.new.input } }
        ensures same { I.SameButNext self.old.input self.new.input }
        ensures next { I.next self.new.input ≡ answer.now }
        ensures state { I.state self.new.input ≡ I.state self.old.input }
    {
        self.input.next_is(answer);
    }
}

// The octets at the front of a buffer.
fn front_of(buf: &[u8], count: usize) -> Octets<1024>
    requires within { count ≤ length buf.now }
    requires fits { length buf.now ≤ 1024 }
    ensures { result ≡ take count buf.now }
{
    let mut octets = Octets::new();
    octets.append(&buf[..count]);
    octets
}
