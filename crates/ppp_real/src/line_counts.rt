ghost use Rattle.std.specs.Prelude.{◌≡◌};
ghost use Rattle.ppp_real.specs.Line.{after_answer};

use ppp_outside::LineGot;

/// The counts of a line.
#[derive(Clone, Copy, Debug, PartialEq, Eq)]
pub struct LineCounts {
    taken: u64,
    faults: u64,
    quiets: u64,
    ends: u64,
}

impl LineCounts {
    /// Those of a line that was just dialled.
    pub fn new() -> LineCounts
        ensures { result ≡ record { taken = 0; faults = 0; quiets = 0; ends = 0 } }
    {
        LineCounts {
            taken: 0,
            faults: 0,
            quiets: 0,
            ends: 0,
        }
    }

    /// Counts an answer.
    pub fn count(&mut self, answer: LineGot)
        ensures { self.new ≡ after_answer self.old answer }
    {
        let taken = self.taken;
        match answer {
            LineGot::Got(count) => self.taken = taken.saturating_add(count as u64),
            LineGot::Quiet => self.quiets = self.quiets.saturating_add(1),
            LineGot::End => self.ends = self.ends.saturating_add(1),
            LineGot::Failed => self.faults = self.faults.saturating_add(1),
        }
    }
}
