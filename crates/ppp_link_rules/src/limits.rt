//! The sizes of a link's rings, and its limits.

/// The octets that wait to be written on the line at most.
pub const OUT_RING: usize = 16_384;

/// What the frames that wait for the table may take together: a ring of 65,536 octets, of which 1,024 stay free for a Join
/// and a Leave.
pub const FRAME_ROOM: usize = 64_512;

/// What a frame takes there beside its information.
pub const FRAME_HEAD: usize = 4;

/// The octets of a writing at most.
pub const MOST_WRITTEN: usize = 1_024;

/// So many marks of a session end it.
pub const MOST_MARKS: usize = 900;

/// The greatest moment, in milliseconds.
pub const MOST_TIME: u64 = 1 << 56;
