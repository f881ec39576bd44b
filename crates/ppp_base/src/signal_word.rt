/// A signal that the daemon hears.
#[derive(Clone, Copy, Debug, PartialEq, Eq)]
pub enum SignalWord {
    /// It ends a session, or at once the wait for the next one.
    Hup,
    /// It stops the link.
    Int,
    /// It stops the link.
    Term,
    /// It has no effect.
    Usr1,
    /// It has no effect.
    Usr2,
}
