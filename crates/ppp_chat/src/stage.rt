use crate::now::ChatEnd;

/// What a conversation waits for. Moments are milliseconds.
#[derive(Clone, Copy)]
pub(crate) enum Stage {
    /// To be begun.
    NotBegun,
    /// The string of the step at hand. The expect began at this moment.
    Expecting(u64),
    /// The end of the delay of the step at hand, which began at this moment.
    Pausing(u64),
    /// The next call.
    Waiting,
    /// Nothing: the script has ended.
    Over(ChatEnd),
}
