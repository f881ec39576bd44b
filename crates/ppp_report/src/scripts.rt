ghost use Rattle.std.specs.Prelude.{◌≡◌, ◌==◌, ◌↔◌, ℕ, IsTrue, List, [], ◌∷◌, MatchOption};
ghost use Rattle.ppp_outside.specs.declared.spawner.ScriptEnd.{ScriptEnd};
ghost use Rattle.ppp_hooks.specs.HookMark.{HookMark, Opened, Closed, Started, Ended};
ghost use Rattle.ppp_hooks.specs.HookPast.{IsSettled, Matches};
ghost use Rattle.ppp_hooks.specs.HookPlace.{MayStand, is_among, openings_in};
ghost use Rattle.ppp_mark.specs.declared.mark.Mark.{Mark};
ghost use Rattle.ppp_mark.specs.declared.kind.TheConstants.{START};
ghost use Rattle.ppp_mark.specs.Scripts.{MayStandMark, said_in};
ghost use Rattle.ppp_report.specs.Tells.{IsDue, Tells};

use ppp_mark::{Mark, kind};

/// What the marks of a log so far say of its scripts.
#[derive(Clone, Copy)]
pub struct Scripts {
    /// The last start: whether it was an up, and its opening.
    pub last: Option<(bool, u32)>,
    /// Whether a script runs.
    pub runs: bool,
    /// How many scripts have ended.
    pub ended: u32,
    /// The last opening, unless the protocol has closed since.
    pub now_open: Option<u32>,
    /// Whether more than one opening has come since the protocol last closed.
    pub several: bool,
}

impl Scripts {
    /// Nothing has been said.
    pub fn none() -> Scripts
        ensures { Tells result [] }
    {
        Scripts {
            last: None,
            runs: false,
            ended: 0,
            now_open: None,
            several: false,
        }
    }

    /// Whether the scripts agree with the protocol, or one runs.
    pub fn settled(&self) -> bool
        ensures { (past : List HookMark) → Tells self.now past → IsTrue result ↔ IsSettled past }
    {
        self.runs || self.agrees()
    }

    // Whether the last start is an up of the opening that is open, or a down or none where none is.
    fn agrees(&self) -> bool
        ensures { IsTrue result ↔ Matches self.now.last self.now.now_open }
    {
        match (self.last, self.now_open) {
            (Some((up, opening)), Some(present)) => up && opening == present,
            (Some((up, _)), None) => !up,
            (None, Some(_)) => false,
            (None, None) => true,
        }
    }

    /// What is said with one mark more, where the law of scripts lets it stand. Of a start it is given whether its
    /// opening is one of those since the protocol last closed.
    pub fn with(&self, mark: Mark, among: bool) -> Option<Scripts>
        ensures { (past : List Mark) → Tells self.now (said_in past) → (mark.kind ≡ START → among ≡ is_among mark.z (openings_in (said_in past)))
            → MatchOption result (¬ MayStandMark 0 (said_in past) mark) (λ s. MayStandMark 0 (said_in past) mark × Tells s (said_in (mark ∷ past))) }
    {
        match mark.kind {
            kind::AUTH_OPEN | kind::IP_OPEN => Some(self.with_open(mark.z)),
            kind::AUTH_CLOSED | kind::IP_CLOSED => Some(self.with_closed()),
            kind::START => self.with_start(mark.x, mark.z, among),
            kind::ENDED => self.with_end(mark.z),
            _ => Some(*self),
        }
    }

    // The protocol opens.
    fn with_open(&self, opening: u32) -> Scripts
        ensures { (past : List HookMark) → Tells self.now past → Tells result (Opened opening ∷ past) }
    {
        Scripts {
            several: self.now_open.is_some(),
            now_open: Some(opening),
            ..*self
        }
    }

    // The protocol closes.
    fn with_closed(&self) -> Scripts
        ensures { (past : List HookMark) (opening : ℕ) → Tells self.now past → Tells result (Closed opening ∷ past) }
    {
        Scripts {
            several: false,
            now_open: None,
            ..*self
        }
    }

    // A script is started.
    fn with_start(&self, direction: u8, opening: u32, among: bool) -> Option<Scripts>
        ensures { (past : List HookMark) → Tells self.now past → among ≡ is_among opening (openings_in past)
            → MatchOption result (¬ IsDue past direction opening) (λ s. IsDue past direction opening × Tells s (Started (direction == 1) opening ∷ past)) }
    {
        if self.runs {
            return None;
        }
        let up = match (self.last, direction) {
            (None, 1) | (Some((false, _)), 1) => true,
            (Some((true, last)), 2) if last == opening => false,
            _ => return None,
        };
        if up != among {
            return None;
        }
        Some(Scripts {
            last: Some((up, opening)),
            runs: true,
            ..*self
        })
    }

    // A script has ended.
    fn with_end(&self, job: u32) -> Option<Scripts>
        ensures { (past : List HookMark) (answer : ScriptEnd) → Tells self.now past
            → MatchOption result (¬ MayStand 0 past (Ended answer job)) (λ s. MayStand 0 past (Ended answer job) × Tells s (Ended answer job ∷ past)) }
    {
        if !self.runs || job == 0 || self.ended != job - 1 {
            return None;
        }
        Some(Scripts {
            runs: false,
            ended: job,
            ..*self
        })
    }
}
