use crate::octets::SentOctets;

/// How a script has ended.
#[derive(Clone, Copy, Debug, PartialEq, Eq)]
pub enum ChatEnd {
    /// Each pair was done.
    Done,
    /// An expect was late, and nothing was to be sent instead.
    TimedOut,
    /// This abort string came, counted from 1 in the order in which they were set, without those cleared.
    Aborted(u8),
}

/// What a call of a conversation answers.
#[derive(Debug, Drop, PartialEq, Eq)]
pub enum ChatNow {
    /// The script waits.
    Going,
    /// These octets are to be sent. There is at least one.
    Sent(SentOctets),
    /// Each pair was done.
    Done,
    /// An expect was late, and nothing was to be sent instead.
    TimedOut,
    /// This abort string came, counted from 1 in the order in which they were set, without those cleared.
    Aborted(u8),
}
