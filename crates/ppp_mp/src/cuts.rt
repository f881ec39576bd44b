ghost use Rattle.std.specs.Prelude.{◌≡◌, ◌+◌, ◌<◌, ◌≤◌, ◌==◌, ◌%◌, [], ◌∷◌, ◌++◌, length, option_map, slice_get, IsSome, ◌↔◌, IfSome};
ghost use Rattle.ppp_base.specs.declared.octets.TheConstants.{MOST_FRAME};
ghost use Rattle.ppp_mp.specs.Header.{header_of, long_octets, long_space};
ghost use Rattle.ppp_mp.specs.Schedule.{SentPiece, sent_of, information_of, FitsFrame};

use crate::numbers::number_after;
use arrayvec::ArrayVec;
use ppp_base::{Frame, LinkId, MOST_FRAME};
use std::marker::Model;

/// A piece of a packet: the place of its first octet in the packet, how many octets it has, and the member that it
/// goes to.
#[derive(Clone, Copy, Debug, PartialEq, Eq)]
pub struct CutPiece {
    pub place: u16,
    pub len: u16,
    pub link: LinkId,
}

impl Default for CutPiece {
    ghost is_default = { λ piece. piece ≡ record { place = 0; len = 0; link = 1 } };

    fn default() -> CutPiece {
        CutPiece {
            place: 0,
            len: 0,
            link: LinkId::new(1).unwrap(),
        }
    }
}

/// The pieces of a packet in order, at most 17. Contracts see them as their list.
#[derive(Debug, Drop)]
pub struct Cuts {
    pieces: ArrayVec<CutPiece, 17>,
}

impl Model for Cuts {
    ghost use Rattle.std.specs.Prelude.{List, length, ◌≤◌};
    ghost use Rattle.ppp_mp.specs.declared.cuts.CutPiece.{CutPiece};

    ghost Value = { List CutPiece };

    ghost view = { λ cuts. cuts.pieces.items };

    ghost invariant = { λ cuts. length cuts.pieces.items ≤ 17 };
}

impl Cuts {
    // No piece.
    pub(crate) fn new() -> Cuts
        ensures { result ≡ [] }
    {
        Cuts {
            pieces: ArrayVec::new(),
        }
    }

    // One piece more.
    pub(crate) fn push(&mut self, piece: CutPiece)
        requires { length self.old < 17 }
        ensures { self.new ≡ self.old ++ piece ∷ [] }
    {
        self.pieces.push(piece);
    }

    /// How many pieces there are, at most 17.
    pub fn count(&self) -> u8
        ensures count { result ≡ length self.now }
        ensures within { result ≤ 17 }
    {
        self.pieces.len() as u8
    }

    /// The piece at this place. None exactly at the count or above.
    pub fn get(&self, at: u8) -> Option<CutPiece>
        ensures { result ≡ slice_get self.now at }
    {
        self.pieces.as_slice().get(usize::from(at)).copied()
    }

    /// The long header of the piece at this place (RFC 1990, section 3), where the first piece has this number: B at
    /// the first, E at the last. None exactly at the count or above.
    pub fn header(&self, at: u8, number: u32) -> Option<[u8; 4]>
        ensures some { IsSome result ↔ (at < length self.now) }
        ensures header { IfSome result (λ octets. octets ≡ header_of long_octets (at == 0) (at + 1 == length self.now) ((number + at) % long_space)) }
    {
        let count = self.count();
        if count <= at {
            return None;
        }
        Some(long_header(
            at == 0,
            at + 1 == count,
            number_after(number, u32::from(at)),
        ))
    }

    /// The information of the piece at this place, where the first piece has this number: its long header, and its octets
    /// of the packet. None exactly at the count or above, where the packet ends before the piece does, and where the
    /// piece and its header don't fit a frame; of a cut of this packet each piece fits.
    pub fn information(&self, at: u8, number: u32, packet: &[u8]) -> Option<Frame>
        ensures some { IsSome result ↔ FitsFrame long_octets MOST_FRAME packet.now (slice_get self.now at) }
        ensures information { IfSome result (λ frame. (piece : SentPiece) → slice_get (sent_of packet.now (length self.now) 0 self.now) at ≡ Some piece
            → frame ≡ information_of long_space long_octets (number + at) piece) }
    {
        let piece = self.get(at)?;
        let header = self.header(at, number)?;
        let begin = usize::from(piece.place);
        let octets = packet.get(begin..begin + usize::from(piece.len))?;
        if MOST_FRAME < 4 + octets.len() {
            return None;
        }
        let mut information = Frame::new();
        information.append(&header);
        information.append(octets);
        Some(information)
    }
}

impl From<ArrayVec<CutPiece, 17>> for Cuts {
    ghost from_gives = { λ pieces cuts. cuts ≡ pieces.items };

    fn from(pieces: ArrayVec<CutPiece, 17>) -> Cuts {
        Cuts { pieces }
    }
}

impl From<Cuts> for ArrayVec<CutPiece, 17> {
    ghost from_gives = { λ cuts pieces. pieces.items ≡ cuts };

    fn from(cuts: Cuts) -> ArrayVec<CutPiece, 17> {
        cuts.pieces
    }
}

// B, E and a number of three octets.
fn long_header(first: bool, last: bool, number: u32) -> [u8; 4]
    requires { number < long_space }
    ensures { result ≡ header_of long_octets first last number }
{
    let begins = if first { 128 } else { 0 };
    let ends = if last { 64 } else { 0 };
    [
        begins + ends,
        (number / 65536 % 256) as u8,
        (number / 256 % 256) as u8,
        (number % 256) as u8,
    ]
}
