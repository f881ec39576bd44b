ghost use Rattle.ppp_base.specs.declared.mrru.TheConstants.{LEAST_MRRU, MOST_MRRU};
ghost use Rattle.ppp_base.specs.declared.octets.TheConstants.{MOST_FRAME};
ghost use Rattle.std.specs.Prelude.{◌≡◌, ◌≢◌, ℕ, ◌+◌, ◌*◌, ◌<◌, ◌≤◌, ◌↔◌, ◌⊎◌, ◌-◌, List, [], length, true, false, replicate, slice_set, IfOk, IsSome, IfSome};
ghost use Rattle.ppp_mp.specs.Delivered.{Entry, Joins, Leaves, Gathering, nothing};
ghost use Rattle.ppp_mp.specs.Header.{fragment_of, long_octets, long_space};
ghost use Rattle.ppp_mp.specs.Moves.{arrived};
ghost use Rattle.std.specs.List.{AllByRecursion};
ghost use Rattle.ppp_mp.specs.Membership.{IsLink};
ghost use Rattle.ppp_mp.specs.Pieces.{AreInOrder};
ghost use Rattle.ppp_mp.specs.Reached.{Reached, HasReached, MadeOfPieces};
ghost use Rattle.ppp_mp.specs.Ring.{slot_piece};
ghost use Rattle.ppp_mp.specs.StandsFor.{StandsFor, Adds, AddsPiece, IsJoined, members_of, with_looks, counted};

use crate::counts::{GatherCounts, PieceNow};
use crate::facts::GatherFacts;
use crate::given::Given;
use crate::packet::Packet;
use crate::places::Places;
use ppp_base::{LinkId, NoMemory};
use std::alloc::Global;
use std::marker::Model;

/// Gathers the pieces that the members of a bundle bring, and gives whole packets in the order of their numbers.
///
/// Of what has reached the bundle it keeps the pieces that wait, for at most 128 numbers from the least on that isn't
/// settled, and how far each member has come.
#[derive(Drop)]
pub struct Gather {
    facts: GatherFacts,
}

impl Model for Gather {
    ghost use Rattle.std.specs.Prelude.{◌≡◌, false};
    ghost use Rattle.ppp_mp.specs.StandsFor.{GatherNow};
    ghost use Rattle.ppp_mp.specs.Facts.{now_of};
    ghost use Rattle.ppp_mp.specs.Places.{place, ends};

    ghost Value = { GatherNow };

    ghost view = { λ g. now_of g.facts };

    ghost invariant = { λ g. ends (place g.facts.places.pieces 0) ≡ false };
}

impl Gather {
    /// Nothing has come, no link is a member, and number 0 is expected. `mrru` is ours. All memory that is ever needed
    /// is taken here.
    pub fn new(alloc: Global, mrru: u16) -> Result<Gather, NoMemory>
        requires { (LEAST_MRRU ≤ mrru) × (mrru ≤ MOST_MRRU) }
        ensures stands { IfOk result (λ g. StandsFor long_space g [] (nothing long_space)) }
        ensures mrru { IfOk result (λ g. g.mrru ≡ mrru) }
        ensures members { IfOk result (λ g. members_of g ≡ replicate 16 false) }
        ensures looks { IfOk result (λ g. g.looks ≡ 0) }
    {
        match Places::new(alloc) {
            Ok(places) => Ok(Gather {
                facts: GatherFacts {
                    mrru,
                    places,
                    overs: [None; 16],
                    counts: no_counts(),
                    packet: Packet::new(),
                },
            }),
            Err(_) => Err(NoMemory),
        }
    }

    /// Forgets members, pieces and counts, takes this MRRU as ours, and expects number 0.
    pub fn restart(&mut self, mrru: u16)
        requires { (LEAST_MRRU ≤ mrru) × (mrru ≤ MOST_MRRU) }
        ensures stands { StandsFor long_space self.new [] (nothing long_space) }
        ensures mrru { self.new.mrru ≡ mrru }
        ensures members { members_of self.new ≡ replicate 16 false }
        ensures looks { self.new.looks ≡ 0 }
    {
        self.facts.mrru = mrru;
        self.facts.places.restart();
        self.facts.overs = [None; 16];
        self.facts.counts = no_counts();
    }

    /// A link joins. It counts as having brought the number before the least that isn't settled. A member stays as it
    /// is.
    pub fn join(&mut self, link: LinkId)
        ensures mrru { self.new.mrru ≡ self.old.mrru }
        ensures members { members_of self.new ≡ slice_set (members_of self.old) (link - 1) true }
        ensures looks { self.new.looks ≡ self.old.looks }
        ensures same { IsJoined self.old link → self.new ≡ self.old }
        ensures stands { (past : List Entry) (s : Gathering) → StandsFor long_space self.old past s → Adds long_space self.new past s (Joins link) [] }
    {
        let at = usize::from(link.number() - 1);
        if !self.facts.is_member(at) {
            self.facts.enter(at);
        }
    }

    /// A link leaves, which may let packets through that waited for it. Where it is no member, nothing changes.
    pub fn leave(&mut self, link: LinkId, given: &mut Given)
        ensures mrru { self.new.mrru ≡ self.old.mrru }
        ensures members { members_of self.new ≡ slice_set (members_of self.old) (link - 1) false }
        ensures same { ¬ (IsJoined self.old link) → (self.new ≡ with_looks 0 self.old) × (given.new ≡ []) }
        ensures looks { self.new.looks ≤ 1024 }
        ensures stands { (past : List Entry) (s : Gathering) → StandsFor long_space self.old past s → Adds long_space self.new past s (Leaves link) given.new }
        ensures whole { (past : List Entry) (s : Gathering) → StandsFor long_space self.new past s → AreInOrder s.kept 0 s.least s.given }
        ensures came { (past : List Entry) (reached : List Reached) (s : Gathering) → StandsFor long_space self.new past s → AllByRecursion IsLink past → HasReached long_space self.new.mrru past reached → AllByRecursion (MadeOfPieces reached) s.given }
    {
        given.clear();
        self.facts.reset();
        let at = usize::from(link.number() - 1);
        if self.facts.is_member(at) {
            self.facts.drop_out(at);
            self.facts.settle_now(given);
        }
    }

    /// A piece comes: its long header (RFC 1990, section 3) and its octets. The packets that it completes or lets
    /// through are given.
    pub fn piece(&mut self, from: LinkId, information: &[u8], given: &mut Given) -> PieceNow
        requires { length information.now ≤ MOST_FRAME }
        ensures mrru { self.new.mrru ≡ self.old.mrru }
        ensures members { members_of self.new ≡ members_of self.old }
        ensures stranger { (result ≡ PieceNow.Stranger) ↔ ¬ (IsJoined self.old from) }
        ensures bad_header { (result ≡ PieceNow.BadHeader) ↔ (IsJoined self.old from × (length information.now < long_octets)) }
        ensures seen { (result ≡ PieceNow.Kept) → 1 ≤ self.new.looks }
        ensures refused { (result ≡ PieceNow.Stranger) ⊎ (result ≡ PieceNow.BadHeader) → (self.new ≡ with_looks 0 self.old) × (given.new ≡ []) }
        ensures looks { self.new.looks ≤ 1024 }
        ensures stands { (past : List Entry) (s : Gathering) → StandsFor long_space self.old past s → long_octets ≤ length information.now
            → AddsPiece long_space self.new past s from (fragment_of long_space long_octets information.now) result given.new }
        ensures whole { (past : List Entry) (s : Gathering) → StandsFor long_space self.new past s → AreInOrder s.kept 0 s.least s.given }
        ensures came { (past : List Entry) (reached : List Reached) (s : Gathering) → StandsFor long_space self.new past s → AllByRecursion IsLink past → HasReached long_space self.new.mrru past reached → AllByRecursion (MadeOfPieces reached) s.given }
    {
        given.clear();
        self.facts.reset();
        let at = usize::from(from.number() - 1);
        if !self.facts.is_member(at) {
            return PieceNow::Stranger;
        }
        match fragment_of(information) {
            None => PieceNow::BadHeader,
            Some((field, first, last, octets)) => {
                self.facts.take(at, field, first, last, octets, given)
            }
        }
    }

    /// How often a slot was looked at in the last `piece` or `leave`: at most 1,024 times, however far a number jumps.
    pub fn looks(&self) -> u32
        ensures { result ≡ self.now.looks }
    {
        self.facts.places.looks()
    }

    /// What was thrown away since the gatherer was made or restarted.
    pub fn counts(&self) -> GatherCounts
        ensures value { result ≡ self.now.counts }
        ensures delivered { (past : List Entry) (s : Gathering) → StandsFor long_space self.now past s → result ≡ counted s }
    {
        self.facts.counts
    }
}

// Nothing was thrown away.
fn no_counts() -> GatherCounts
    ensures { result ≡ record { old = 0; doubled = 0; lost = 0; too_long = 0 } }
{
    GatherCounts {
        old: 0,
        doubled: 0,
        lost: 0,
        too_long: 0,
    }
}

// The number of a piece, B, E and what stands behind its header. None under four octets.
fn fragment_of(information: &[u8]) -> Option<(u32, bool, bool, &[u8])>
    requires { length information.now ≤ MOST_FRAME }
    ensures some { IsSome result ↔ (4 ≤ length information.now) }
    ensures field { IfSome result (λ found. found.0 < long_space) }
    ensures octets { IfSome result (λ found. length found.3.now ≤ MOST_FRAME) }
    ensures is { IfSome result (λ found. fragment_of long_space long_octets information.now ≡ arrived found.0 (slot_piece found.1 found.2 found.3.now)) }
{
    let [control, high, middle, low, octets @ ..] = information else {
        return None;
    };
    let field = u32::from(*high) * 65536 + u32::from(*middle) * 256 + u32::from(*low);
    Some((field, *control > 127, *control / 64 % 2 == 1, octets))
}
