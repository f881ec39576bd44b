ghost use Rattle.std.specs.Prelude.{◌≡◌, Option, IfSome};
ghost use Rattle.ppp_outside.specs.Dialer.{DialerState, Dials, GivesNewLine, failed, is_fault};

use crate::line_in::LineIn;
use crate::line_words::LineWords;
use crate::sink::Sink;

/// What a dial answers.
#[derive(Drop)]
pub enum Dialled<I, O> {
    /// A line: its reading half and its writing half.
    Line(I, O),
    /// The outside failed. There is no line.
    Failed,
}

/// What a dial answers where this is set.
#[derive(Clone, Copy, Debug, PartialEq, Eq)]
pub enum DialNext {
    /// A line.
    Line,
    /// A fault.
    Failed,
}

/// Where lines come from.
pub trait Dialer: Drop {
    ghost use Rattle.ppp_outside.specs.declared.dialer.DialNext.{DialNext};

    /// The reading half of its lines.
    type In: LineIn + Send;

    /// The writing half of its lines.
    type Out: Sink + Drop + Send;

    /// Its counts, and what it was asked, where it tells this.
    ghost state: { Self → DialerState };

    /// The answer of the next call, where this is known.
    ghost coming: { Self → Option DialNext };

    /// Dials the line with these words, once.
    fn dial(&mut self, line: &LineWords) -> Dialled<Self::In, Self::Out>
        ensures dials { Dials (state self.old) (state self.new) line.now (failed result) }
        ensures new_line { GivesNewLine Self.In.state Self.Out.state result }
        ensures as_told { IfSome (coming self.old) (λ set. failed result ≡ is_fault set) };
}
