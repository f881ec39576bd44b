/// What was thrown away. Each count stands still at 2^64 - 1.
#[derive(Clone, Copy, Debug, PartialEq, Eq, Default)]
pub struct GatherCounts {
    /// Pieces whose number was settled before.
    pub old: u64,
    /// Pieces whose number was kept already.
    pub doubled: u64,
    /// Settled numbers that are in no complete run: missing ones, and those of pieces that were thrown away.
    pub lost: u64,
    /// Complete runs that were longer than our MRRU plus 2.
    pub too_long: u64,
}

/// What became of a piece.
#[derive(Clone, Copy, Debug, PartialEq, Eq)]
pub enum PieceNow {
    /// It is new. It waits, or was given, lost or thrown away in this call.
    Kept,
    /// Its number was settled before.
    Old,
    /// Its number is kept already.
    Doubled,
    /// Its link is no member.
    Stranger,
    /// It has fewer than four octets.
    BadHeader,
}
