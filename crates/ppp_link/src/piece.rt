ghost use Rattle.std.specs.Prelude.{◌≡◌, ◌≤◌, length};

use ppp_base::{LinkId, Octets};
use std::marker::Model;

/// Octets that a link's line gave, and their place among all that it gave. `Reading::next` alone makes one.
#[derive(Drop)]
pub struct Piece {
    pub(crate) link: LinkId,
    pub(crate) session: u32,
    pub(crate) offset: u64,
    pub(crate) octets: Octets<1024>,
}

impl Model for Piece {
    ghost use Rattle.ppp_link.specs.ErrandValues.{PieceValue};

    ghost Value = { PieceValue };

    ghost view = { λ p. record { link = p.link; session = p.session; offset = p.offset; octets = p.octets } };
}

impl Piece {
    /// Whose line it is.
    pub fn link(&self) -> LinkId
        ensures { result ≡ self.now.link }
    {
        self.link
    }

    /// The session of the line.
    pub fn session(&self) -> u32
        ensures { result ≡ self.now.session }
    {
        self.session
    }

    /// How many octets the line had given before.
    pub fn offset(&self) -> u64
        ensures { result ≡ self.now.offset }
    {
        self.offset
    }

    /// The octets.
    pub fn octets(&self) -> &[u8]
        ensures octets { result.now ≡ self.now.octets }
        ensures within { length result.now ≤ 1024 }
    {
        self.octets.as_slice()
    }
}
