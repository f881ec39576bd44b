use ppp_base::Octets;

/// The most octets of a packet's data: a packet has at most 1,508 octets, of which four stand before its data.
pub const MOST_BODY: usize = 1504;

/// The most octets of an option's data: its length, which counts two octets more, is one octet.
pub const MOST_ITEM_BODY: usize = 253;

/// A packet's data.
pub type Body = Octets<1504>;

/// An option's data.
pub type ItemBody = Octets<253>;
