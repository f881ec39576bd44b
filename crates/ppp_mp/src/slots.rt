ghost use Rattle.std.specs.Prelude.{◌≡◌, ◌≢◌, ℕ, ◌+◌, ◌%◌, ◌<◌, ◌≤◌, ◌==◌, ◌++◌, ◌⊎◌, Bool, true, false, List, [], ◌∷◌, length, Option, None, Some, if◌then◌else◌, is_some, option_map, IfOk, slice_index_or};
ghost use Rattle.ppp_base.specs.declared.octets.TheConstants.{MOST_FRAME};
ghost use Rattle.ppp_mp.specs.Header.{long_space};
ghost use Rattle.ppp_mp.specs.Ring.{Slotted, SlotsNow, kept_at, view_of, looked, IsNearAll, kept_in, slot_piece, octets_there};

use crate::packet::Packet;
use crate::slot::Slot;
use crate::slot_piece::{SlotPiece, SlotView};
use ppp_base::NoMemory;
use std::alloc::Global;
use std::marker::Model;

/// How many slots there are: number n stands in slot n modulo 128.
const RING: u32 = 128;

/// The pieces that wait, by their numbers modulo 2^24, which lie less than 128 from one another. Contracts see which
/// numbers are kept, and how often a slot was looked at since `reset`; the count stands still at 2^32 - 1.
#[derive(Drop)]
pub struct Slots {
    slots: Vec<Slot>,
    looks: u32,
}

impl Model for Slots {
    ghost use Rattle.std.specs.Prelude.{◌≡◌, length};
    ghost use Rattle.ppp_mp.specs.Header.{long_space};
    ghost use Rattle.ppp_mp.specs.Ring.{SlotsNow, InRing};

    ghost Value = { SlotsNow };

    ghost view = { λ s. record { slots = s.slots.items; looks = s.looks } };

    ghost invariant = { λ s. (length s.slots.items ≡ 128) × InRing long_space 0 s.slots.items };
}

impl Slots {
    /// No number is kept. All memory that is ever needed is taken here.
    pub fn new(alloc: Global) -> Result<Slots, NoMemory>
        ensures none { IfOk result (λ s. (number : ℕ) → kept_at number s.slots ≡ None) }
        ensures looks { IfOk result (λ s. s.looks ≡ 0) }
    {
        let mut slots = Vec::with_capacity(alloc, RING as usize).map_err(|_| NoMemory)?;
        for _slot in 0..RING {
            slots.push_reserved(Slot::new());
        }
        Ok(Slots { slots, looks: 0 })
    }

    /// What is seen of the piece with this number. None exactly where it isn't kept.
    pub fn at(&mut self, number: u32) -> Option<SlotView>
        requires { number < long_space }
        ensures view { result ≡ option_map view_of (kept_at number self.old.slots) }
        ensures same { self.new.slots ≡ self.old.slots }
        ensures looks { self.new.looks ≡ looked self.old.looks }
        ensures rose { self.old.looks ≤ self.new.looks }
    {
        self.looks = self.looks.saturating_add(1);
        self.slots[(number % RING) as usize].seen(number)
    }

    /// A piece with this number begins to wait.
    pub fn put(&mut self, number: u32, piece: SlotPiece)
        requires number { number < long_space }
        requires new { kept_at number self.old.slots ≡ None }
        requires near { IsNearAll long_space number self.old.slots }
        ensures kept { (other : ℕ) → kept_at other self.new.slots ≡ (if other == number then Some piece else kept_at other self.old.slots) }
        ensures looks { self.new.looks ≡ looked self.old.looks }
        ensures rose { self.old.looks ≤ self.new.looks }
    {
        self.put_octets(number, piece.first, piece.last, piece.octets.as_slice());
    }

    // A piece with this number begins to wait: B, E and its octets, which alone are copied.
    pub(crate) fn put_octets(&mut self, number: u32, first: bool, last: bool, octets: &[u8])
        requires within { length octets.now ≤ MOST_FRAME }
        requires number { number < long_space }
        requires new { kept_at number self.old.slots ≡ None }
        requires near { IsNearAll long_space number self.old.slots }
        ensures kept { (other : ℕ) → kept_at other self.new.slots ≡ (if other == number then Some (slot_piece first last octets.now) else kept_at other self.old.slots) }
        ensures looks { self.new.looks ≡ looked self.old.looks }
        ensures rose { self.old.looks ≤ self.new.looks }
    {
        self.looks = self.looks.saturating_add(1);
        self.slots[(number % RING) as usize].fill(number, first, last, octets);
    }

    /// The piece with this number, which waits no longer. None exactly where it isn't kept.
    pub fn clear(&mut self, number: u32) -> Option<SlotPiece>
        requires { number < long_space }
        ensures piece { result ≡ kept_at number self.old.slots }
        ensures kept { (other : ℕ) → kept_at other self.new.slots ≡ (if other == number then None else kept_at other self.old.slots) }
        ensures looks { self.new.looks ≡ looked self.old.looks }
        ensures rose { self.old.looks ≤ self.new.looks }
    {
        let piece = self.slots[(number % RING) as usize].piece(number);
        self.forget(number);
        piece
    }

    // The piece with this number waits no longer.
    pub(crate) fn forget(&mut self, number: u32)
        requires { number < long_space }
        ensures kept { (other : ℕ) → kept_at other self.new.slots ≡ (if other == number then None else kept_at other self.old.slots) }
        ensures looks { self.new.looks ≡ looked self.old.looks }
        ensures rose { self.old.looks ≤ self.new.looks }
    {
        self.looks = self.looks.saturating_add(1);
        self.slots[(number % RING) as usize].empty(number);
    }

    // The octets of the piece with this number, which waits no longer, are appended where all so far fit, and these do.
    pub(crate) fn give(
        &mut self,
        number: u32,
        packet: &mut Packet,
        fits: bool,
        limit: usize,
    ) -> bool
        requires number { number < long_space }
        requires limit { limit ≤ 2050 }
        requires within { length packet.old ≤ limit }
        ensures within { length packet.new ≤ limit }
        ensures joined { result ≡ true → (fits ≡ true) × (packet.new ≡ packet.old ++ octets_there (kept_at number self.old.slots)) }
        ensures too_long { result ≡ false → (fits ≡ false) ⊎ (limit < length packet.old + length (octets_there (kept_at number self.old.slots))) }
        ensures kept { (other : ℕ) → kept_at other self.new.slots ≡ (if other == number then None else kept_at other self.old.slots) }
        ensures looks { self.new.looks ≡ looked self.old.looks }
        ensures rose { self.old.looks ≤ self.new.looks }
    {
        let octets = self.octets(number);
        let now = join(packet, fits, octets, limit);
        self.forget(number);
        now
    }

    // The octets of the piece with this number, none where it isn't kept.
    fn octets(&self, number: u32) -> &[u8]
        ensures { result.now ≡ octets_there (kept_at number self.now.slots) }
    {
        match self.slots[(number % RING) as usize].octets(number) {
            Some(octets) => octets,
            None => &[],
        }
    }

    /// How often a slot was looked at, by `at`, `put` and `clear`, since `reset`.
    pub fn looks(&self) -> u32
        ensures { result ≡ self.now.looks }
    {
        self.looks
    }

    /// The looks are counted from 0 on again.
    pub fn reset(&mut self)
        ensures { self.new ≡ record { slots = self.old.slots; looks = 0 } }
    {
        self.looks = 0;
    }
}

// Appends these octets where all so far fit, and these do.
fn join(packet: &mut Packet, fits: bool, octets: &[u8], limit: usize) -> bool
    requires limit { limit ≤ 2050 }
    requires within { length packet.old ≤ limit }
    ensures within { length packet.new ≤ limit }
    ensures joined { result ≡ true → (fits ≡ true) × (packet.new ≡ packet.old ++ octets.now) }
    ensures too_long { result ≡ false → (fits ≡ false) ⊎ (limit < length packet.old + length octets.now) }
{
    if !fits || limit - packet.len() < octets.len() {
        return false;
    }
    packet.append(octets);
    true
}
