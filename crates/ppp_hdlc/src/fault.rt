use thiserror::Error;

/// Why the octets between two flags are no frame. Where several apply, the first one in this order
/// is named.
#[derive(Clone, Copy, Debug, PartialEq, Eq, Error)]
pub enum FrameFault {
    /// They end with an escape: the sender gave the frame up (RFC 1662, 4.2 and 4.3).
    #[error("aborted by the sender")]
    Aborted,
    /// They are more than 1,508 after unescaping.
    #[error("more than 1508 octets")]
    TooLong,
    /// They are 1 to 3 after unescaping (RFC 1662, 4.3).
    #[error("fewer than 4 octets")]
    Short,
    /// Their residue is another than f0b8 (RFC 1662, C.2).
    #[error("wrong check sum")]
    BadFcs,
    /// There is no protocol field, or `ff` stands in its place (RFC 1661, 2 and 6.6).
    #[error("no protocol field")]
    BadHeader,
}
