/// What a link is to do after a call.
#[derive(Clone, Copy, Debug, PartialEq, Eq)]
pub enum DialNow {
    /// Nothing new.
    Nothing,
    /// Begin an attempt.
    Begin,
    /// Begin no attempt for so many milliseconds.
    Hold(u32),
    /// Begin no attempt before a packet wakes the link.
    Wait,
    /// Finish with this exit status, for good.
    Finish(u8),
}
