use ppp_base::Octets;

/// The most octets that a call sends: a string of 512 and the return.
pub const MOST_SENT: usize = 513;

/// Octets that are to be sent.
pub type SentOctets = Octets<513>;
