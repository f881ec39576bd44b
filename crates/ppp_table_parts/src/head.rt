//! The sizes of the table's rings, and what is kept of a frame beside its information.

/// What a frame takes in the ring to a link beside its information.
pub const HEAD_SIZE: u8 = 4;

/// What the frames that wait for one link may take together.
pub const MOST_POSTED: usize = 65_536;

/// What a delivery takes beside its datagram.
pub const DELIVERY_HEAD: u8 = 3;

/// What the deliveries that wait may take together.
pub const MOST_DELIVERED: usize = 262_144;

/// The protocol of a frame for a link, and whether the link is to reject it or to send it.
#[derive(Clone, Copy, Debug, PartialEq, Eq)]
pub struct FrameHead {
    pub protocol: u16,
    pub rejected: bool,
}
