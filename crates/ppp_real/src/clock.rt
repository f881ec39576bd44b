ghost use Rattle.std.specs.Prelude.{◌≡◌, None};

use ppp_outside::Clock;
use std::time::Duration;
use std::{rt, thread};

/// The machine's clock that never goes back, in milliseconds since some moment before the program began.
#[derive(Drop)]
pub struct RealClock<R> {
    rt: R,
    latest: u64,
}

impl<R> RealClock<R> {
    /// A clock that has given no reading.
    pub fn new(rt: R) -> RealClock<R>
        ensures { result.latest ≡ 0 }
    {
        RealClock { rt, latest: 0 }
    }
}

impl<R: rt::Clock + Drop> Clock for RealClock<R> {
    ghost state = { λ c. record { latest = c.latest; readings = None } };

    // Where the machine's clock can't be read, the greatest reading so far is given again.
    fn now_ms(&mut self) -> u64 {
        let reading = match self.rt.monotonic() {
            Ok(time) => u64::try_from(time.as_millis()).unwrap_or(u64::MAX),
            Err(_) => self.latest,
        };
        self.latest = self.latest.max(reading);
        reading
    }

    fn rest(&mut self, ms: u32) {
        thread::sleep(&self.rt, Duration::from_millis(u64::from(ms)));
    }
}
