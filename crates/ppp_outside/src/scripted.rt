ghost use Rattle.std.specs.Prelude.{◌≡◌, Option, Some, IfSome};

use crate::dialer::{DialNext, Dialer};
use crate::line_in::{LineAnswer, LineIn};
use crate::sink::{Sink, SinkNext};
use crate::spawner::{ScriptEnd, Spawner};

/// An object of the outside whose next answer can be set.
pub trait Scripted {
    type Next;

    /// Whether two states differ in no more than the answer that was set.
    ghost SameButNext: { Self → Self → Type 0 };

    /// The answer that was set. The next call gives it unless the call fails.
    ghost next: { Self → Self.Next };

    /// Sets what the next call answers, and leaves all else as it is.
    fn next_is(&mut self, answer: &Self::Next)
        ensures same { SameButNext self.old self.new }
        ensures next { next self.new ≡ answer.now };
}

/// A spawner whose next answer can be set. Its counts and its record stay.
pub trait ScriptedSpawner: Spawner + Scripted<Next = ScriptEnd> {
    ghost keeps_tries: { (a b : Self) → Self.SameButNext a b → Self.tries b ≡ Self.tries a };

    ghost keeps_faults: { (a b : Self) → Self.SameButNext a b → Self.faults b ≡ Self.faults a };

    ghost keeps_runs: { (a b : Self) → Self.SameButNext a b → Self.runs b ≡ Self.runs a };

    /// Where the answer of the next call is known, it is the one that was set.
    ghost answers_it: { (s : Self) → IfSome (Self.answers s) (λ answer. answer ≡ Self.next s) };
}

/// A line whose next answer can be set. Its counts and contents stay.
pub trait ScriptedLine: LineIn + Scripted {
    ghost use Rattle.ppp_outside.specs.declared.line_in.LineAnswer.{LineAnswer};

    /// The answer that is set by this, where it is one and the same in each state of the line.
    ghost means: { Self.Next → Option LineAnswer };

    ghost keeps: { (a b : Self) → Self.SameButNext a b → Self.state b ≡ Self.state a };

    /// Where the answer of the next call is known, it is the one that was set.
    ghost answers_it: { (s : Self) → IfSome (Self.coming s) (λ answer. means (Self.next s) ≡ Some answer) };
}

/// A sink whose next answer can be set. Its count and what was written stay.
pub trait ScriptedSink: Sink + Scripted<Next = SinkNext> {
    ghost keeps: { (a b : Self) → Self.SameButNext a b → Self.state b ≡ Self.state a };

    /// Where the answer of the next call is known, it is the one that was set.
    ghost answers_it: { (s : Self) → IfSome (Self.coming s) (λ answer. answer ≡ Self.next s) };
}

/// A dialer whose next answer can be set. Its counts and what it was asked stay.
pub trait ScriptedDialer: Dialer + Scripted<Next = DialNext> {
    ghost keeps: { (a b : Self) → Self.SameButNext a b → Self.state b ≡ Self.state a };

    /// Where the answer of the next call is known, it is the one that was set.
    ghost answers_it: { (s : Self) → IfSome (Self.coming s) (λ answer. answer ≡ Self.next s) };
}
