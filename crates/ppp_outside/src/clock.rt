ghost use Rattle.std.specs.Prelude.{◌≡◌};
ghost use Rattle.ppp_outside.specs.Clock.{ClockState, Reads};

/// The time.
pub trait Clock: Drop {
    /// The greatest reading so far, and the readings, where this clock tells them.
    ghost state: { Self → ClockState };

    /// The milliseconds since some moment. A later reading may be smaller: who wants the time takes the greatest.
    fn now_ms(&mut self) -> u64
        ensures { Reads (state self.old) (state self.new) result };

    /// Waits so many milliseconds.
    fn rest(&mut self, ms: u32)
        ensures { state self.new ≡ state self.old };
}
