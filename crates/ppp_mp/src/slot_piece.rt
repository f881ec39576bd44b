ghost use Rattle.std.specs.Prelude.{◌≡◌, length};

use ppp_base::Frame;

/// What is seen of a piece that waits: B, E, and how many octets it has.
#[derive(Clone, Copy, Debug, PartialEq, Eq)]
pub struct SlotView {
    pub first: bool,
    pub last: bool,
    pub len: u16,
}

/// A piece that waits: B, E, how many octets it has, and these.
#[derive(Debug, Drop)]
pub struct SlotPiece {
    pub first: bool,
    pub last: bool,
    pub len: u16,
    pub octets: Frame,
    ghost counted: { len ≡ length octets },
}
