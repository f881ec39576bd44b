ghost use Rattle.std.specs.Prelude.{◌≡◌, ◌↔◌, Some, None, IsTrue};
ghost use Rattle.ppp_base.specs.Stepped.{IsTaken, OnTaken, IfStale};

/// Whether an event was taken.
#[derive(Debug, Drop)]
pub enum Stepped<E> {
    /// It was.
    Taken,
    /// It wasn't: here it is, and nothing has changed.
    Stale(E),
}

impl<E: Drop> Stepped<E> {
    /// Whether the event was taken.
    pub fn is_taken(&self) -> bool
        ensures { IsTrue result ↔ IsTaken self.now }
    {
        match self {
            Stepped::Taken => true,
            Stepped::Stale(_) => false,
        }
    }

    /// The event, where it wasn't taken.
    pub fn into_stale(self) -> Option<E>
        ensures taken { OnTaken self (result ≡ None) }
        ensures stale { IfStale self (λ event. result ≡ Some event) }
    {
        match self {
            Stepped::Taken => None,
            Stepped::Stale(event) => Some(event),
        }
    }
}
