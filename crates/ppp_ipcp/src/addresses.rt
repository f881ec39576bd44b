/// The addresses of both ends, the first octet first.
#[derive(Clone, Copy, Debug, PartialEq, Eq)]
pub struct Addresses {
    /// Ours.
    pub local: [u8; 4],
    /// The peer's. 0.0.0.0: it named none, and none was wished.
    pub remote: [u8; 4],
}
