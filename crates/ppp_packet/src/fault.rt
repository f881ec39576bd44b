use thiserror::Error;

/// Why octets are no packet.
#[derive(Clone, Copy, Debug, PartialEq, Eq, Error)]
pub enum PacketFault {
    /// There are fewer than four octets.
    #[error("a packet of fewer than four octets")]
    Short,
    /// The length is below 4, above the octets that are there, or above 1,508.
    #[error("a packet's length is below 4, or above its octets or 1,508")]
    BadLength,
}

/// Why octets are no options.
#[derive(Clone, Copy, Debug, PartialEq, Eq, Error)]
pub enum OptionFault {
    /// An option's octets end early.
    #[error("an option's octets end early")]
    Cut,
    /// An option's length is below 2.
    #[error("an option's length is below 2")]
    BadLength,
}
