/// Where an errand of a link is.
#[derive(Clone, Copy, Debug, PartialEq, Eq)]
pub enum Errand {
    /// There is none.
    Absent,
    /// It waits to be taken.
    Waiting,
    /// It was taken, and hasn't come back.
    Out,
}

/// Why a reading came back.
#[derive(Clone, Copy, Debug, PartialEq, Eq)]
pub enum ReadEnd {
    /// The line was at its end.
    End,
    /// A read failed.
    Failed,
    /// It was left.
    Left,
}

/// How a writing came back.
#[derive(Clone, Copy, Debug, PartialEq, Eq)]
pub enum SentEnd {
    /// All its octets went out.
    All,
    /// A write failed behind so many octets.
    Failed(usize),
}
