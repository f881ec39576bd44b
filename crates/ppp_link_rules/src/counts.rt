/// How many frames came on the lines of a link, and how often the octets between two flags were no frame, by why. A count
/// stands still at the end of a u64.
#[derive(Clone, Copy, Debug, PartialEq, Eq)]
pub struct FrameCounts {
    /// Frames with a right check sum.
    pub frames: u64,
    /// They end with an escape: the sender gave the frame up.
    pub aborted: u64,
    /// They are more than 1,508.
    pub too_long: u64,
    /// They are fewer than 4.
    pub short: u64,
    /// Their check sum is wrong.
    pub bad_fcs: u64,
    /// They have no protocol field.
    pub bad_header: u64,
}
