ghost use Rattle.std.specs.Prelude.{◌≡◌, Option, IfSome};
ghost use Rattle.ppp_outside.specs.Line.{AnswersAs, LineState, ReadsLine};

use ppp_base::Octets;

/// What a read of a line answers.
#[derive(Clone, Copy, Debug, PartialEq, Eq)]
pub enum LineGot {
    /// So many octets, at least one, stand at the front of the buffer.
    Got(usize),
    /// Nothing came within the wait.
    Quiet,
    /// The line is at its end: nothing will come.
    End,
    /// The outside failed. Nothing was given.
    Failed,
}

/// The most octets of an answer that is set.
pub const MOST_SET: usize = 1024;

/// An answer of a line with the octets that it gives.
#[derive(Debug, PartialEq, Eq, Drop)]
pub enum LineAnswer {
    /// These octets.
    Got(Octets<1024>),
    /// Nothing within the wait.
    Quiet,
    /// The end.
    End,
    /// A fault.
    Failed,
}

impl LineAnswer {
    /// The same answer again. It takes no memory.
    pub fn copy(&self) -> LineAnswer
        ensures { result ≡ self.now }
    {
        match self {
            LineAnswer::Got(octets) => LineAnswer::Got(octets.copy()),
            LineAnswer::Quiet => LineAnswer::Quiet,
            LineAnswer::End => LineAnswer::End,
            LineAnswer::Failed => LineAnswer::Failed,
        }
    }
}

/// The reading half of a line.
pub trait LineIn: Drop {
    ghost use Rattle.ppp_outside.specs.declared.line_in.LineAnswer.{LineAnswer};

    /// What is left and what was answered, where this line tells it, and its counts.
    ghost state: { Self → LineState };

    /// The answer of the next call, where this is known.
    ghost coming: { Self → Option LineAnswer };

    /// Reads octets into the front of the buffer: as many as are there at once. Where none is, it waits so many
    /// milliseconds at most.
    fn read(&mut self, buf: &mut [u8], wait_ms: u32) -> LineGot
        ensures reads { ReadsLine (state self.old) (state self.new) result buf.new }
        ensures as_told { IfSome (coming self.old) (λ set. AnswersAs set result buf.new) };
}
