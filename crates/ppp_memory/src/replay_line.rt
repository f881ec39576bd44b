ghost use Rattle.std.specs.Prelude.{◌≡◌, None, Some, refl};
ghost use Rattle.std.proofs.Common.{ap};
ghost use Rattle.ppp_memory.specs.Replay.{line_state_of};
ghost use Rattle.ppp_outside.specs.declared.line_in.LineAnswer.TheVariants.{Quiet};

use ppp_outside::{LineAnswer, LineGot, LineIn, Scripted, ScriptedLine};

/// The reading half of a line in memory that keeps no record. Each call has the answer that was set, as far as the
/// buffer has room for its octets.
#[derive(Debug, Drop)]
pub struct ReplayLine {
    next: LineAnswer,
    taken: u64,
    faults: u64,
    quiets: u64,
    ends: u64,
}

impl ReplayLine {
    /// It is quiet until another answer is set.
    pub fn new() -> ReplayLine
        ensures { result ≡ record { next = Quiet; taken = 0; faults = 0; quiets = 0; ends = 0 } }
    {
        ReplayLine {
            next: LineAnswer::Quiet,
            taken: 0,
            faults: 0,
            quiets: 0,
            ends: 0,
        }
    }
}

impl LineIn for ReplayLine {
    ghost state = { line_state_of };

    ghost coming = { λ s. Some s.next };

    fn read(&mut self, buf: &mut [u8], _wait_ms: u32) -> LineGot {
        match &self.next {
            LineAnswer::Got(octets) => {
                let count = octets.len().min(buf.len());
                if count > 0 {
                    buf[..count].copy_from_slice(&octets.as_slice()[..count]);
                    self.taken = self.taken.saturating_add(count as u64);
                    return LineGot::Got(count);
                }
                self.quiets = self.quiets.saturating_add(1);
                LineGot::Quiet
            }
            LineAnswer::Quiet => {
                self.quiets = self.quiets.saturating_add(1);
                LineGot::Quiet
            }
            LineAnswer::End => {
                self.ends = self.ends.saturating_add(1);
                LineGot::End
            }
            LineAnswer::Failed => {
                self.faults = self.faults.saturating_add(1);
                LineGot::Failed
            }
        }
    }
}

impl Scripted for ReplayLine {
    type Next = LineAnswer;

    ghost SameButNext = { λ a b. b ≡ record a { next = b.next } };

    ghost next = { λ s. s.next };

    fn next_is(&mut self, answer: &LineAnswer) {
        self.next = answer.copy();
    }
}

impl ScriptedLine for ReplayLine {
    ghost means = { λ answer. Some answer };

    ghost keeps = { λ a b same. ap line_state_of same };

    ghost answers_it = { λ s. refl };
}
