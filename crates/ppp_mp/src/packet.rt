use ppp_base::Octets;

/// The most octets of a packet: a protocol field of two octets, and an information of at most 2,048.
pub const MOST_PACKET: usize = 2050;

// A packet: the protocol field and the information.
pub(crate) type Packet = Octets<2050>;
