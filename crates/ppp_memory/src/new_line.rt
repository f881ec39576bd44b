ghost use Rattle.std.specs.Prelude.{◌≡◌};
ghost use Rattle.ppp_memory.specs.Line.{state_of};
ghost use Rattle.ppp_outside.specs.Line.{IsNewLine};
ghost use Rattle.ppp_outside.specs.MemorySink.{state_of as sink_state_of};
ghost use Rattle.ppp_outside.specs.Sink.{IsNewSink};

use crate::line::MemoryLine;
use ppp_outside::MemorySink;
use std::marker::Model;

/// The two halves of a line that was not used yet.
#[derive(Drop)]
pub struct NewLine {
    input: MemoryLine,
    output: MemorySink,
}

impl Model for NewLine {
    ghost use Rattle.ppp_memory.specs.Dialer.{LineHalves};
    ghost use Rattle.ppp_memory.specs.Line.{state_of};
    ghost use Rattle.ppp_outside.specs.Line.{IsNewLine};
    ghost use Rattle.ppp_outside.specs.MemorySink.{state_of as sink_state_of};
    ghost use Rattle.ppp_outside.specs.Sink.{IsNewSink};

    ghost Value = { LineHalves };

    ghost view = { λ l. record { input = l.input; output = l.output } };

    ghost invariant = { λ l. IsNewLine (state_of l.input) × IsNewSink (sink_state_of l.output) };
}

impl NewLine {
    /// A line of these halves, of which none was used.
    pub fn new(input: MemoryLine, output: MemorySink) -> NewLine
        requires input { IsNewLine (state_of input) }
        requires output { IsNewSink (sink_state_of output) }
        ensures { result ≡ record { input = input; output = output } }
    {
        NewLine { input, output }
    }

    /// Its halves.
    pub fn halves(self) -> (MemoryLine, MemorySink)
        ensures halves { self ≡ record { input = result.0; output = result.1 } }
        ensures new { IsNewLine (state_of result.0) × IsNewSink (sink_state_of result.1) }
    {
        (self.input, self.output)
    }
}
