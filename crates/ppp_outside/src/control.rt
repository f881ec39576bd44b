ghost use Rattle.ppp_outside.specs.Control.{ControlState, HearsWord};

use ppp_base::SignalWord;

/// What a control answers.
#[derive(Clone, Copy, Debug, PartialEq, Eq)]
pub enum Word {
    /// A signal.
    Signal(SignalWord),
    /// Nothing came within the wait, or a word that is no signal.
    Quiet,
    /// Nothing will come.
    End,
    /// The outside failed.
    Failed,
}

/// Where the daemon hears signals, as words.
pub trait Control: Drop {
    /// The signals that are left, where this control tells them, and its counts.
    ghost state: { Self → ControlState };

    /// The next word. It waits for it so many milliseconds at most.
    fn next(&mut self, wait_ms: u32) -> Word
        ensures { HearsWord (state self.old) (state self.new) result };
}
