ghost use Rattle.std.specs.Prelude.{◌≡◌, ◌≢◌, ℕ, ◌+◌, ◌-◌, ◌*◌, ◌%◌, ◌^◌, ◌<◌, ◌≤◌, List, [], ◌∷◌, ◌++◌, length, min, map, option_map, None, Some, unwrap_or, false, max, slice_set, slice_index_or, ◌==◌, if◌then◌else◌, is_some, true};
ghost use Rattle.ppp_mp.specs.Delivered.{lowest, lesser, Gathering, AtRest, mark};
ghost use Rattle.ppp_base.specs.declared.octets.TheConstants.{MOST_FRAME};
ghost use Rattle.ppp_mp.specs.Header.{long_space};
ghost use Rattle.ppp_mp.specs.Ring.{slot_piece};
ghost use Rattle.ppp_mp.specs.Places.{place, tally, ends, Found, HasLooked};
ghost use Rattle.ppp_mp.specs.Moves.{IsMoved, HasSettled, HasSettledNow, HasCompleted, HasTaken, IsKept, MadeRoom, arrived};
ghost use Rattle.ppp_mp.specs.Facts.{KeepsFacts, members_in, with_looks_at};

use crate::counts::PieceNow;
use crate::facts::GatherFacts;
use crate::given::Given;
use crate::numbers::{HALF, ahead_of};
use crate::places::RuleNow;

impl GatherFacts {
    // A piece with this number, modulo the number space, comes from a member.
    pub(crate) fn take(
        &mut self,
        at: usize,
        field: u32,
        first: bool,
        last: bool,
        octets: &[u8],
        given: &mut Given,
    ) -> PieceNow
        requires link { at < 16 }
        requires octets { length octets.now ≤ MOST_FRAME }
        requires field { field < long_space }
        requires empty { given.old ≡ [] }
        requires rest { ends (place self.old.places.pieces 0) ≡ false }
        requires member { is_some (slice_index_or self.old.overs at None) ≡ true }
        ensures mrru { self.new.mrru ≡ self.old.mrru }
        ensures members { members_in self.new ≡ members_in self.old }
        ensures rest { ends (place self.new.places.pieces 0) ≡ false }
        ensures looks { self.new.places.looks ≤ self.old.places.looks + 1024 }
        ensures rose { self.old.places.looks ≤ self.new.places.looks }
        ensures seen { (result ≡ PieceNow.Kept) → 1 ≤ self.new.places.looks }
        ensures other { (result ≢ PieceNow.Stranger) × (result ≢ PieceNow.BadHeader) }
        ensures takes { (s : Gathering) → KeepsFacts long_space self.old s → AtRest self.old.mrru (mark s) s
            → HasTaken long_space self.old.mrru s (at + 1) (arrived field (slot_piece first last octets.now)) result self.new given.new }
    {
        let ahead = self.ahead(field);
        if HALF <= ahead {
            self.bring(at, 0);
            self.count_old();
            self.settle_now(given);
            return PieceNow::Old;
        }
        if self.waits(ahead) {
            self.bring(at, ahead);
            self.count_doubled();
            self.settle_now(given);
            return PieceNow::Doubled;
        }
        let place = self.make_room(field, ahead, given);
        self.keep(place, first, last, octets);
        self.bring(at, place);
        self.settle_now(given);
        PieceNow::Kept
    }

    // Before a piece so far ahead is kept, what lies more than 127 below it is settled. Its place then.
    fn make_room(&mut self, field: u32, ahead: u32, given: &mut Given) -> u32
        requires field { field < long_space }
        requires ahead { (self.old.places.base + ahead) % long_space ≡ field }
        requires half { ahead < 8388608 }
        requires empty { given.old ≡ [] }
        requires rest { ends (place self.old.places.pieces 0) ≡ false }
        requires end { self.old.places.end ≤ 128 }
        ensures place { result < 128 }
        ensures made { MadeRoom long_space self.old self.new given.new ahead result }
        ensures room { length given.new + tally ends self.new.places.pieces 128 ≤ 127 }
        ensures mrru { self.new.mrru ≡ self.old.mrru }
        ensures members { members_in self.new ≡ members_in self.old }
        ensures end { self.new.places.end ≤ 128 }
        ensures looks { self.new.places.looks + 2 * self.new.places.end ≤ self.old.places.looks + 3 * self.old.places.end + 1 }
        ensures rose { self.old.places.looks ≤ self.new.places.looks }
    {
        // The rules were applied with M as it is.
        if ahead < 128 {
            return ahead;
        }
        let bound = self.bound().max(ahead - 127);
        self.settle(bound, given);
        let left = self.ahead(field);
        let far = left.saturating_sub(127);
        self.lose(far);
        left - far
    }

    // Whether the link at this position is a member.
    pub(crate) fn is_member(&self, at: usize) -> bool
        requires { at < 16 }
        ensures { result ≡ is_some (slice_index_or self.now.overs at None) }
    {
        self.overs[at].is_some()
    }

    // The link at this position becomes a member.
    pub(crate) fn enter(&mut self, at: usize)
        requires { at < 16 }
        ensures { self.new ≡ record self.old { overs = slice_set self.old.overs at (Some 0) } }
    {
        self.overs[at] = Some(0);
    }

    // The link at this position is no member any more.
    pub(crate) fn drop_out(&mut self, at: usize)
        requires { at < 16 }
        ensures { self.new ≡ record self.old { overs = slice_set self.old.overs at None } }
    {
        self.overs[at] = None;
    }

    fn count_old(&mut self)
        ensures { self.new ≡ record self.old { counts = record self.old.counts { old = min (self.old.counts.old + 1) (2 ^ 64 - 1) } } }
    {
        self.counts.old = self.counts.old.saturating_add(1);
    }

    fn count_doubled(&mut self)
        ensures { self.new ≡ record self.old { counts = record self.old.counts { doubled = min (self.old.counts.doubled + 1) (2 ^ 64 - 1) } } }
    {
        self.counts.doubled = self.counts.doubled.saturating_add(1);
    }

    // A piece begins to wait where none does. None ever does there; the check spares a proof of it in each state.
    fn keep(&mut self, i: u32, first: bool, last: bool, octets: &[u8])
        requires i { i < 128 }
        requires octets { length octets.now ≤ MOST_FRAME }
        ensures kept { IsKept self.old.places.pieces self.new.places.pieces i (slot_piece first last octets.now) }
        ensures mrru { self.new.mrru ≡ self.old.mrru }
        ensures base { self.new.places.base ≡ self.old.places.base }
        ensures overs { self.new.overs ≡ self.old.overs }
        ensures counts { self.new.counts ≡ self.old.counts }
        ensures end { self.new.places.end ≤ max self.old.places.end (i + 1) }
        ensures seen { 1 ≤ self.new.places.looks }
        ensures looks { self.new.places.looks ≤ self.old.places.looks + 2 }
        ensures rose { self.old.places.looks ≤ self.new.places.looks }
    {
        if !self.waits(i) {
            self.places.put(i, first, last, octets);
        }
    }

    // How far ahead of the least number that isn't settled a number is.
    fn ahead(&self, field: u32) -> u32
        requires { field < long_space }
        ensures is { (self.now.places.base + result) % long_space ≡ field }
        ensures within { result < long_space }
        ensures end { self.now.places.end ≤ 128 }
    {
        ahead_of(self.places.base(), field)
    }

    // Whether a piece waits at this place.
    fn waits(&mut self, i: u32) -> bool
        ensures waits { result ≡ is_some (place self.old.places.pieces i) }
        ensures seen { i < 128 → 1 ≤ self.new.places.looks }
        ensures same { self.new ≡ with_looks_at self.new.places.looks self.old }
        ensures looks { self.new.places.looks ≤ self.old.places.looks + 1 }
        ensures rose { self.old.places.looks ≤ self.new.places.looks }
    {
        self.places.waits(i)
    }

    // The rule that applies, with every missing number below the bound to be lost.
    fn scan(&mut self, bound: u32) -> RuleNow
        ensures found { Found self.new.places.pieces bound result }
        ensures past { (i : ℕ) → 128 ≤ i → place self.new.places.pieces i ≡ None }
        ensures same { self.new ≡ with_looks_at self.new.places.looks self.old }
        ensures looks { HasLooked self.old.places self.new.places result }
        ensures rose { self.old.places.looks ≤ self.new.places.looks }
    {
        self.places.scan(bound)
    }

    // The looks are counted from 0 on again.
    pub(crate) fn reset(&mut self)
        ensures now { self.new ≡ with_looks_at 0 self.old }
        ensures end { self.old.places.end ≤ 128 }
    {
        self.places.reset();
    }

    // Applies the rules with M as it is.
    pub(crate) fn settle_now(&mut self, given: &mut Given)
        requires { length given.old + tally ends self.old.places.pieces 128 ≤ 128 }
        ensures mrru { self.new.mrru ≡ self.old.mrru }
        ensures members { members_in self.new ≡ members_in self.old }
        ensures rest { ends (place self.new.places.pieces 0) ≡ false }
        ensures looks { self.new.places.looks + 2 * self.new.places.end ≤ self.old.places.looks + 3 * self.old.places.end + 1 }
        ensures rose { self.old.places.looks ≤ self.new.places.looks }
        ensures settled { HasSettledNow long_space self.old self.new given.old given.new }
    {
        let bound = self.bound();
        self.settle(bound, given);
    }

    // The member has brought a piece so far beyond the least number.
    fn bring(&mut self, at: usize, ahead: u32)
        requires { at < 16 }
        ensures { self.new ≡ record self.old { overs = slice_set self.old.overs at (Some (max ahead (unwrap_or (slice_index_or self.old.overs at None) 0))) } }
    {
        let over = self.overs[at].unwrap_or(0);
        self.overs[at] = Some(ahead.max(over));
    }

    // How far beyond the least number missing numbers are lost.
    fn bound(&self) -> u32
        ensures { result ≡ unwrap_or (lowest self.now.overs) 0 }
    {
        lowest(&self.overs).unwrap_or(0)
    }

    // Applies the rules until none does. A missing stretch is lost at once.
    fn settle(&mut self, bound: u32, given: &mut Given)
        requires { length given.old + tally ends self.old.places.pieces 128 ≤ 128 }
        ensures past { (i : ℕ) → 128 ≤ i → place self.new.places.pieces i ≡ None }
        ensures mrru { self.new.mrru ≡ self.old.mrru }
        ensures members { members_in self.new ≡ members_in self.old }
        ensures room { length given.new + tally ends self.new.places.pieces 128 ≤ length given.old + tally ends self.old.places.pieces 128 }
        ensures rest { ends (place self.new.places.pieces 0) ≡ false }
        ensures looks { self.new.places.looks + 2 * self.new.places.end ≤ self.old.places.looks + 3 * self.old.places.end + 1 }
        ensures rose { self.old.places.looks ≤ self.new.places.looks }
        ensures settled { HasSettled long_space bound self.old self.new given.old given.new }
    {
        let mut left = bound;
        'rules: loop {
            match self.scan(left) {
                RuleNow::Rests => return,
                RuleNow::Misses(count) => {
                    self.lose(count);
                    left = left.saturating_sub(count);
                }
                RuleNow::Loses(count) => {
                    self.lose(count);
                    left = left.saturating_sub(count);
                }
                RuleNow::Completes(count) => {
                    self.complete(count, given);
                    left = left.saturating_sub(count);
                }
            }
        }
    }

    // So many numbers are lost.
    fn lose(&mut self, count: u32)
        ensures moved { IsMoved long_space self.old self.new count }
        ensures counts { self.new.counts ≡ record self.old.counts { lost = min (self.old.counts.lost + count) (2 ^ 64 - 1) } }
    {
        self.places.lose(count);
        lessen(&mut self.overs, count);
        self.counts.lost = self.counts.lost.saturating_add(u64::from(count));
    }

    // So many pieces are given as a packet, or counted as too long.
    fn complete(&mut self, count: u32, given: &mut Given)
        requires room { length given.old < 128 }
        ensures moved { IsMoved long_space self.old self.new count }
        ensures packet { HasCompleted self.old self.new count given.old given.new }
    {
        let limit = usize::from(self.mrru) + 2;
        if self.places.give(count, limit, &mut self.packet) {
            given.push(self.packet.as_slice());
        } else {
            self.counts.too_long = self.counts.too_long.saturating_add(1);
        }
        lessen(&mut self.overs, count);
    }
}

// Each number is less by so many.
fn lessen(overs: &mut [Option<u32>; 16], count: u32)
    ensures { overs.new ≡ map (option_map (λ n. n - count)) overs.old }
{
    if count == 0 {
        return;
    }
    for i in 0..16usize {
        overs[i] = less(overs[i], count);
    }
}

fn less(over: Option<u32>, count: u32) -> Option<u32>
    ensures { result ≡ option_map (λ n. n - count) over }
{
    over.map(|n| n.saturating_sub(count))
}

// The least of the numbers.
fn lowest(overs: &[Option<u32>]) -> Option<u32>
    ensures { result ≡ lowest overs.now }
{
    let mut least = None;
    let mut left = overs;
    while let [over, rest @ ..] = left {
        least = lesser(least, *over);
        left = rest;
        // None is less than 0.
        if let Some(0) = least {
            return least;
        }
    }
    least
}

fn lesser(least: Option<u32>, over: Option<u32>) -> Option<u32>
    ensures { result ≡ lesser least over }
{
    match least {
        None => over,
        Some(n) => match over {
            None => Some(n),
            Some(m) => Some(n.min(m)),
        },
    }
}
