ghost use Rattle.std.specs.Prelude.{◌≡◌, Some, refl};
ghost use Rattle.std.proofs.Common.{ap};
ghost use Rattle.ppp_memory.specs.Replay.{dialer_state_of};
ghost use Rattle.ppp_outside.specs.declared.dialer.DialNext.TheVariants.{Line};

use crate::replay_line::ReplayLine;
use crate::replay_sink::ReplaySink;
use ppp_outside::{DialNext, Dialer, Dialled, LineWords, Scripted, ScriptedDialer};

/// A dialer in memory that keeps no record and never lacks a line. Each call has the answer that was set.
#[derive(Clone, Copy, Debug, PartialEq, Eq)]
pub struct ReplayDialer {
    next: DialNext,
    tries: u64,
    faults: u64,
}

impl ReplayDialer {
    /// It gives a line until another answer is set.
    pub fn new() -> ReplayDialer
        ensures { result ≡ record { next = Line; tries = 0; faults = 0 } }
    {
        ReplayDialer {
            next: DialNext::Line,
            tries: 0,
            faults: 0,
        }
    }
}

impl Dialer for ReplayDialer {
    type In = ReplayLine;

    type Out = ReplaySink;

    ghost state = { dialer_state_of };

    ghost coming = { λ s. Some s.next };

    fn dial(&mut self, _line: &LineWords) -> Dialled<ReplayLine, ReplaySink> {
        self.tries = self.tries.saturating_add(1);
        match self.next {
            DialNext::Line => Dialled::Line(ReplayLine::new(), ReplaySink::new()),
            DialNext::Failed => {
                self.faults = self.faults.saturating_add(1);
                Dialled::Failed
            }
        }
    }
}

impl Scripted for ReplayDialer {
    type Next = DialNext;

    ghost SameButNext = { λ a b. b ≡ record a { next = b.next } };

    ghost next = { λ s. s.next };

    fn next_is(&mut self, answer: &DialNext) {
        self.next = *answer;
    }
}

impl ScriptedDialer for ReplayDialer {
    ghost keeps = { λ a b same. ap dialer_state_of same };

    ghost answers_it = { λ s. refl };
}
