ghost use Rattle.std.specs.Prelude.{◌≡◌, Some, refl};
ghost use Rattle.std.proofs.Common.{ap};
ghost use Rattle.ppp_memory.specs.Replay.{sink_state_of};
ghost use Rattle.ppp_outside.specs.declared.sink.SinkNext.TheVariants.{Takes};

use ppp_outside::{Scripted, ScriptedSink, Sink, SinkNext, Took};

/// A sink in memory that keeps no record. Each call takes the whole piece or fails, as was set.
#[derive(Clone, Copy, Debug, PartialEq, Eq)]
pub struct ReplaySink {
    next: SinkNext,
    faults: u64,
}

impl ReplaySink {
    /// It takes everything until another answer is set.
    pub fn new() -> ReplaySink
        ensures { result ≡ record { next = Takes; faults = 0 } }
    {
        ReplaySink {
            next: SinkNext::Takes,
            faults: 0,
        }
    }
}

impl Sink for ReplaySink {
    ghost state = { sink_state_of };

    ghost coming = { λ s. Some s.next };

    fn write(&mut self, piece: &[u8]) -> Took {
        match self.next {
            SinkNext::Takes => Took::Took(piece.len()),
            SinkNext::Fails => {
                self.faults = self.faults.saturating_add(1);
                Took::Failed
            }
        }
    }
}

impl Scripted for ReplaySink {
    type Next = SinkNext;

    ghost SameButNext = { λ a b. b ≡ record a { next = b.next } };

    ghost next = { λ s. s.next };

    fn next_is(&mut self, answer: &SinkNext) {
        self.next = *answer;
    }
}

impl ScriptedSink for ReplaySink {
    ghost keeps = { λ a b same. ap sink_state_of same };

    ghost answers_it = { λ s. refl };
}
