ghost use Rattle.std.specs.Prelude.{◌≡◌, ℕ, ◌+◌, ◌-◌, ◌%◌, ◌<◌, ◌≤◌, ◌==◌, ◌⊎◌, ◌++◌, length, max, min, true, false, IfOk, is_some, option_map, None, Some, if◌then◌else◌, nat_lt, not};
ghost use Rattle.ppp_mp.specs.Header.{long_space};
ghost use Rattle.ppp_mp.specs.Places.{place, Found, AreMissing, BegunThere, joined_there, HasLooked, HasMissed, HasShifted};
ghost use Rattle.ppp_mp.specs.Ring.{view_of, slot_piece, octets_there};
ghost use Rattle.ppp_base.specs.declared.octets.TheConstants.{MOST_FRAME};

use crate::numbers::number_after;
use crate::packet::Packet;
use crate::slot_piece::SlotView;
use crate::slots::Slots;
use ppp_base::NoMemory;
use std::alloc::Global;
use std::marker::Model;

/// How many numbers pieces may wait for, from the least on that isn't settled.
const PLACES: u32 = 128;

// Which rule applies to the first places.
#[derive(Clone, Copy, Debug, PartialEq, Eq)]
pub(crate) enum RuleNow {
    // None.
    Rests,
    // So many numbers from the least on are missing, and are lost one after another.
    Misses(u32),
    // So many numbers are settled in no complete run.
    Loses(u32),
    // So many numbers are settled as a complete run.
    Completes(u32),
}

// The places of 128 numbers from the least on that isn't settled, each with its piece where one waits, in slots.
#[derive(Drop)]
pub(crate) struct Places {
    // The least number that isn't settled, modulo the number space.
    base: u32,
    slots: Slots,
    // No piece waits below this place.
    gap: u32,
    // No piece waits at this place or behind it.
    end: u32,
}

impl Model for Places {
    ghost use Rattle.ppp_mp.specs.Header.{long_space};
    ghost use Rattle.ppp_mp.specs.Places.{PlacesNow, pieces_from, IsWindow};

    ghost Value = { PlacesNow };

    ghost view = { λ p. record { base = p.base; pieces = pieces_from long_space p.base p.slots.slots; looks = p.slots.looks; end = p.end } };

    ghost invariant = { λ p. IsWindow long_space p.base p.gap p.end p.slots.slots };
}

impl Places {
    // No piece waits, and number 0 is expected. All room is taken here.
    pub(crate) fn new(alloc: Global) -> Result<Places, NoMemory>
        ensures base { IfOk result (λ p. p.base ≡ 0) }
        ensures looks { IfOk result (λ p. p.looks ≡ 0) }
        ensures pieces { IfOk result (λ p. (i : ℕ) → place p.pieces i ≡ None) }
    {
        let slots = Slots::new(alloc)?;
        Ok(Places {
            base: 0,
            slots,
            gap: 0,
            end: 0,
        })
    }

    // No piece waits, and number 0 is expected.
    pub(crate) fn restart(&mut self)
        ensures base { self.new.base ≡ 0 }
        ensures looks { self.new.looks ≡ 0 }
        ensures pieces { (i : ℕ) → place self.new.pieces i ≡ None }
    {
        let _base = self.base;
        self.lose(PLACES);
        self.base = 0;
        self.gap = 0;
        self.end = 0;
        self.slots.reset();
    }

    // The least number that isn't settled, modulo the number space.
    pub(crate) fn base(&self) -> u32
        ensures value { result ≡ self.now.base }
        ensures within { result < long_space }
        ensures end { self.now.end ≤ 128 }
    {
        self.base
    }

    // How often a slot was looked at since `reset`.
    pub(crate) fn looks(&self) -> u32
        ensures { result ≡ self.now.looks }
    {
        self.slots.looks()
    }

    // The looks are counted from 0 on again.
    pub(crate) fn reset(&mut self)
        ensures now { self.new ≡ record self.old { looks = 0 } }
        ensures end { self.old.end ≤ 128 }
    {
        self.slots.reset();
    }

    // Whether a piece waits at this place.
    pub(crate) fn waits(&mut self, i: u32) -> bool
        ensures waits { result ≡ is_some (place self.old.pieces i) }
        ensures seen { i < 128 → 1 ≤ self.new.looks }
        ensures same { self.new ≡ record self.old { looks = self.new.looks } }
        ensures looks { self.new.looks ≤ self.old.looks + 1 }
        ensures rose { self.old.looks ≤ self.new.looks }
    {
        let _base = self.base;
        i < PLACES && self.at(i).is_some()
    }

    // What is seen of the piece at this place.
    fn at(&mut self, i: u32) -> Option<SlotView>
        requires { i < 128 }
        ensures view { result ≡ option_map view_of (place self.old.pieces i) }
        ensures seen { 1 ≤ self.new.looks }
        ensures same { self.new ≡ record self.old { looks = self.new.looks } }
        ensures looks { self.new.looks ≤ self.old.looks + 1 }
        ensures rose { self.old.looks ≤ self.new.looks }
    {
        self.slots.at(number_after(self.base, i))
    }

    // The rule that applies, with every missing number below the bound to be lost.
    pub(crate) fn scan(&mut self, bound: u32) -> RuleNow
        ensures found { Found self.old.pieces bound result }
        ensures past { (i : ℕ) → 128 ≤ i → place self.old.pieces i ≡ None }
        ensures same { self.new ≡ record self.old { looks = self.new.looks } }
        ensures looks { HasLooked self.old self.new result }
        ensures rose { self.old.looks ≤ self.new.looks }
    {
        if 0 < self.gap {
            return self.missing(0, bound);
        }
        let end = self.end;
        for len in 0..end {
            match self.at(len) {
                None => return self.missing(len, bound),
                Some(piece) => {
                    if piece.first != (len == 0) {
                        return RuleNow::Loses(len.max(1));
                    }
                    if piece.last {
                        return RuleNow::Completes(len + 1);
                    }
                }
            }
        }
        self.missing(end, bound)
    }

    // The rule for a missing number behind so many pieces that begin a packet.
    fn missing(&mut self, len: u32, bound: u32) -> RuleNow
        requires within { len < 129 }
        requires begun { BegunThere self.old.pieces len }
        requires none { place self.old.pieces len ≡ None }
        ensures found { Found self.old.pieces bound result }
        ensures same { self.new ≡ record self.old { looks = self.new.looks } }
        ensures looks { HasMissed self.old self.new len result }
        ensures rose { self.old.looks ≤ self.new.looks }
    {
        if bound <= len {
            return RuleNow::Rests;
        }
        if len == 0 {
            return RuleNow::Misses(self.stretch(bound));
        }
        RuleNow::Loses(len + 1)
    }

    // How many numbers from the least on are missing, at most as many as are below the bound.
    fn stretch(&mut self, bound: u32) -> u32
        requires some { 0 < bound }
        requires none { place self.old.pieces 0 ≡ None }
        ensures missing { AreMissing self.old.pieces bound result }
        ensures same { self.new ≡ record self.old { looks = self.new.looks } }
        ensures looks { self.new.looks ≤ self.old.looks + min result self.old.end }
        ensures rose { self.old.looks ≤ self.new.looks }
    {
        let stop = self.end.min(bound);
        let start = self.gap.max(1).min(stop);
        for i in start..stop {
            if self.at(i).is_some() {
                self.skip(i);
                return i;
            }
        }
        self.skip(stop);
        bound
    }

    // It is remembered that no piece waits below this place.
    fn skip(&mut self, to: u32)
        requires within { to ≤ 128 }
        requires none { (j : ℕ) → j < to → place self.old.pieces j ≡ None }
        ensures { self.new ≡ self.old }
    {
        self.gap = to;
    }

    // So many numbers are settled in no complete run.
    pub(crate) fn lose(&mut self, count: u32)
        ensures { HasShifted long_space self.old self.new count }
    {
        let stop = self.end.min(count);
        for i in self.gap.min(stop)..stop {
            self.forget_at(i);
        }
        self.shift(count);
    }

    // So many numbers are settled as a complete run. Its octets are joined, unless they are too many.
    pub(crate) fn give(&mut self, count: u32, limit: usize, packet: &mut Packet) -> bool
        requires { limit ≤ 2050 }
        ensures fits { result ≡ not (nat_lt limit (length (joined_there self.old.pieces count))) }
        ensures packet { result ≡ true → packet.new ≡ joined_there self.old.pieces count }
        ensures shifted { HasShifted long_space self.old self.new count }
    {
        packet.clear();
        let mut fits = true;
        let stop = self.end.min(count);
        for i in 0..stop {
            fits = self.give_at(i, packet, fits, limit);
        }
        self.shift(count);
        fits
    }

    // The piece at this place waits no longer.
    fn forget_at(&mut self, i: u32)
        requires { i < 128 }
        ensures pieces { (j : ℕ) → place self.new.pieces j ≡ (if j == i then None else place self.old.pieces j) }
        ensures base { self.new.base ≡ self.old.base }
        ensures end { self.new.end ≡ self.old.end }
        ensures looks { self.new.looks ≤ self.old.looks + 1 }
        ensures rose { self.old.looks ≤ self.new.looks }
    {
        self.slots.forget(number_after(self.base, i));
    }

    // The octets of the piece at this place, which waits no longer, are appended where all so far fit, and these do.
    fn give_at(&mut self, i: u32, packet: &mut Packet, fits: bool, limit: usize) -> bool
        requires i { i < 128 }
        requires limit { limit ≤ 2050 }
        requires within { length packet.old ≤ limit }
        ensures within { length packet.new ≤ limit }
        ensures joined { result ≡ true → (fits ≡ true) × (packet.new ≡ packet.old ++ octets_there (place self.old.pieces i)) }
        ensures too_long { result ≡ false → (fits ≡ false) ⊎ (limit < length packet.old + length (octets_there (place self.old.pieces i))) }
        ensures pieces { (j : ℕ) → place self.new.pieces j ≡ (if j == i then None else place self.old.pieces j) }
        ensures base { self.new.base ≡ self.old.base }
        ensures end { self.new.end ≡ self.old.end }
        ensures looks { self.new.looks ≤ self.old.looks + 1 }
        ensures rose { self.old.looks ≤ self.new.looks }
    {
        self.slots
            .give(number_after(self.base, i), packet, fits, limit)
    }

    // A piece begins to wait: B, E and its octets.
    pub(crate) fn put(&mut self, i: u32, first: bool, last: bool, octets: &[u8])
        requires octets { length octets.now ≤ MOST_FRAME }
        requires within { i < 128 }
        requires none { place self.old.pieces i ≡ None }
        ensures pieces { (j : ℕ) → place self.new.pieces j ≡ (if j == i then Some (slot_piece first last octets.now) else place self.old.pieces j) }
        ensures base { self.new.base ≡ self.old.base }
        ensures end { self.new.end ≡ max self.old.end (i + 1) }
        ensures looks { self.new.looks ≤ self.old.looks + 1 }
        ensures rose { self.old.looks ≤ self.new.looks }
    {
        self.slots
            .put_octets(number_after(self.base, i), first, last, octets);
        self.gap = self.gap.min(i);
        self.end = self.end.max(i + 1);
    }

    // So many numbers are settled, of which none is kept.
    fn shift(&mut self, count: u32)
        requires { (j : ℕ) → j < count → place self.old.pieces j ≡ None }
        ensures base { self.new.base ≡ (self.old.base + count) % long_space }
        ensures pieces { (j : ℕ) → place self.new.pieces j ≡ place self.old.pieces (j + count) }
        ensures end { self.new.end ≡ self.old.end - count }
        ensures looks { self.new.looks ≡ self.old.looks }
    {
        self.base = number_after(self.base, count);
        self.end = self.end.saturating_sub(count);
        self.gap = gap_before(self.gap.saturating_sub(count), self.end);
    }
}

// Where no piece waits below the gap, nor at the end or behind it: none at all where the end is not above the gap.
fn gap_before(gap: u32, end: u32) -> u32
    ensures { result ≡ (if nat_lt gap end then gap else 128) }
{
    if gap < end { gap } else { PLACES }
}
