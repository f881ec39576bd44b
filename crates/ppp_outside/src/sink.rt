ghost use Rattle.std.specs.Prelude.{Option, IfSome};
ghost use Rattle.std.specs.Io.KnownBytes.{Appends};
ghost use Rattle.ppp_outside.specs.Counts.{CountsFault};
ghost use Rattle.ppp_outside.specs.Sink.{AnswersAs, FitsPiece, SinkState, accepted, failed};

/// What a write answers.
#[derive(Clone, Copy, Debug, PartialEq, Eq)]
pub enum Took {
    /// So many octets of the piece were taken, from its front.
    Took(usize),
    /// The outside failed. Nothing was taken.
    Failed,
}

/// What a write answers where this is set.
#[derive(Clone, Copy, Debug, PartialEq, Eq)]
pub enum SinkNext {
    /// It takes as much as the sink can.
    Takes,
    /// It fails.
    Fails,
}

/// Where octets go.
pub trait Sink {
    ghost use Rattle.ppp_outside.specs.declared.sink.SinkNext.{SinkNext};

    /// What was written, where this sink tells it, and how often it has failed.
    ghost state: { Self → SinkState };

    /// The answer of the next call, where this is known.
    ghost coming: { Self → Option SinkNext };

    /// Writes octets from the front of the piece: at least one where the piece isn't empty.
    fn write(&mut self, piece: &[u8]) -> Took
        ensures fits { FitsPiece result piece.now }
        ensures written { Appends (state self.old).written (state self.new).written (accepted result piece.now) }
        ensures faults { CountsFault (failed result) (state self.old).faults (state self.new).faults }
        ensures as_told { IfSome (coming self.old) (λ set. AnswersAs set result piece.now) };
}
