ghost use Rattle.std.specs.Prelude.{◌≡◌, ◌↔◌, IsTrue};

use crate::fault::FrameFault;
use ppp_base::Frame;

/// What an octet ends.
#[derive(Debug, Drop)]
pub enum Heard {
    /// Nothing: the octet is no flag, or no octets came since the last one.
    Nothing,
    /// A frame: its protocol, and its information, without padding being told apart from it.
    Frame(u16, Frame),
    /// Octets that are no frame.
    Dropped(FrameFault),
}

impl Heard {
    /// Whether nothing ended.
    pub fn is_nothing(&self) -> bool
        ensures { IsTrue result ↔ (self.now ≡ Heard.Nothing) }
    {
        matches!(self, Heard::Nothing)
    }
}

/// What a piece of a stream gave.
#[derive(Debug, Drop)]
pub struct Span {
    /// How many octets of the piece were taken.
    pub used: usize,
    /// The answer at the last of them.
    pub heard: Heard,
}
