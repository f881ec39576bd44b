// What a dial does.
#[derive(Clone, Copy, Debug, PartialEq, Eq)]
pub enum Stage {
    // It has not been started.
    New,
    // An attempt, or the session that it led to, is under way.
    Dialling,
    // It holds off until this moment, in milliseconds.
    Holding(u64),
    // It waits for a packet.
    Waiting,
    // It has finished, with this exit status.
    Finished(u8),
}
