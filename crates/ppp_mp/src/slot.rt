ghost use Rattle.std.specs.Prelude.{◌≡◌, ◌≤◌, Option, None, Some, length, is_some, option_map};
ghost use Rattle.ppp_base.specs.declared.octets.TheConstants.{MOST_FRAME};
ghost use Rattle.ppp_mp.specs.Ring.{kept_in, emptied, slot_piece, view_of};

use crate::slot_piece::{SlotPiece, SlotView};
use ppp_base::Frame;
use std::marker::Model;

// Room for a piece, which is filled and emptied where it stands: of a piece only its octets are copied. Contracts see the
// piece with its number, where one waits.
#[derive(Drop)]
pub(crate) struct Slot {
    kept: bool,
    number: u32,
    first: bool,
    last: bool,
    octets: Frame,
}

impl Model for Slot {
    ghost use Rattle.std.specs.Prelude.{Option};
    ghost use Rattle.ppp_mp.specs.Ring.{Slotted, slotted};

    ghost Value = { Option Slotted };

    ghost view = { λ s. slotted s.kept s.number s.first s.last s.octets };
}

impl Slot {
    // No piece waits.
    pub(crate) fn new() -> Slot
        ensures { result ≡ None }
    {
        Slot {
            kept: false,
            number: 0,
            first: false,
            last: false,
            octets: Frame::new(),
        }
    }

    // Whether the piece with this number waits here.
    fn keeps(&self, number: u32) -> bool
        ensures { result ≡ is_some (kept_in number self.now) }
    {
        self.kept && self.number == number
    }

    // What is seen of the piece with this number.
    pub(crate) fn seen(&self, number: u32) -> Option<SlotView>
        ensures { result ≡ option_map view_of (kept_in number self.now) }
    {
        if !self.keeps(number) {
            return None;
        }
        Some(SlotView {
            first: self.first,
            last: self.last,
            len: self.octets.len() as u16,
        })
    }

    // The octets of the piece with this number.
    pub(crate) fn octets(&self, number: u32) -> Option<&[u8]>
        ensures { option_map (λ x. x.now) result ≡ option_map (λ p. p.octets) (kept_in number self.now) }
    {
        if !self.keeps(number) {
            return None;
        }
        Some(self.octets.as_slice())
    }

    // The piece with this number, copied whole.
    pub(crate) fn piece(&self, number: u32) -> Option<SlotPiece>
        ensures { result ≡ kept_in number self.now }
    {
        if !self.keeps(number) {
            return None;
        }
        Some(SlotPiece {
            first: self.first,
            last: self.last,
            len: self.octets.len() as u16,
            octets: self.octets.copy(),
        })
    }

    // This piece waits here.
    pub(crate) fn fill(&mut self, number: u32, first: bool, last: bool, octets: &[u8])
        requires { length octets.now ≤ MOST_FRAME }
        ensures { self.new ≡ Some (record { number = number; piece = slot_piece first last octets.now }) }
    {
        self.kept = true;
        self.number = number;
        self.first = first;
        self.last = last;
        self.octets.clear();
        self.octets.append(octets);
    }

    // The piece with this number waits no longer.
    pub(crate) fn empty(&mut self, number: u32)
        ensures { self.new ≡ emptied number self.old }
    {
        if self.keeps(number) {
            self.kept = false;
        }
    }
}
