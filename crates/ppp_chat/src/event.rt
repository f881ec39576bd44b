/// A call of a conversation that was begun: an octet comes, or the time alone is looked at. `ChatOf` is of lists of them.
#[derive(Clone, Copy)]
pub struct Event {
    /// When, in milliseconds of one clock.
    pub at: u64,
    /// The octet that came, if one did.
    pub octet: Option<u8>,
}
