ghost use Rattle.std.specs.Prelude.{◌≡◌, ◌≤◌};
ghost use Rattle.ppp_table_parts.specs.declared.head.TheConstants.{MOST_DELIVERED};
ghost use Rattle.ppp_table_parts.specs.Deliveries.{deliveries_size};
ghost use Rattle.ppp_table_parts.specs.Sides.{AreWithin};
ghost use Rattle.ppp_table.specs.Counts.{counts_of, stopped, sum_of};

use crate::core_state::TableCore;
use ppp_bundle::{Bundle, UnitCounts};
use ppp_outside::Spawner;

/// What a table counts. Counts stand still at their end.
#[derive(Clone, Copy, Debug, PartialEq, Eq)]
pub struct TableCounts {
    /// Frames for links and deliveries that found no room.
    pub no_room: u64,
    /// Datagrams in either direction while IPCP wasn't in Opened, and what was gathered of a bundle that was closed.
    pub not_open: u64,
    /// Frames of links that weren't members.
    pub stranger: u64,
    /// Datagrams above the peer's MRRU or MRU, and packets of pieces above ours.
    pub too_big: u64,
    /// Packets of pieces without a protocol field.
    pub bad_inner: u64,
    /// Packets that came for units.
    pub packets: u64,
    /// Deliveries that were taken.
    pub taken: u64,
}

// What all units count.
#[tactic(auto, using(crate::proofs::Sums::none_counted, crate::proofs::Sums::one_counted))]
fn unit_counts<S: Spawner>(units: &[Bundle<S>]) -> UnitCounts
    ensures not_open { result.not_open ≡ stopped (sum_of (λ u. u.counts.not_open) units.now) }
    ensures stranger { result.stranger ≡ stopped (sum_of (λ u. u.counts.stranger) units.now) }
    ensures too_big { result.too_big ≡ stopped (sum_of (λ u. u.counts.too_big) units.now) }
    ensures bad_inner { result.bad_inner ≡ stopped (sum_of (λ u. u.counts.bad_inner) units.now) }
{
    let mut not_open: u64 = 0;
    let mut stranger: u64 = 0;
    let mut too_big: u64 = 0;
    let mut bad_inner: u64 = 0;
    'counting: for unit in units {
        let counts = unit.counts();
        not_open = not_open.saturating_add(counts.not_open);
        stranger = stranger.saturating_add(counts.stranger);
        too_big = too_big.saturating_add(counts.too_big);
        bad_inner = bad_inner.saturating_add(counts.bad_inner);
    }
    UnitCounts {
        not_open,
        stranger,
        too_big,
        bad_inner,
    }
}

impl<S: Spawner> TableCore<S> {
    // What is counted.
    pub(crate) fn counts(&self) -> TableCounts
        ensures counts { result ≡ counts_of self.now }
        ensures posts { AreWithin self.now.sides }
        ensures deliveries { deliveries_size self.now.deliveries.waiting ≤ MOST_DELIVERED }
    {
        let units = unit_counts(self.units.as_slice());
        TableCounts {
            no_room: self
                .sides
                .dropped()
                .saturating_add(self.deliveries.dropped()),
            not_open: units.not_open,
            stranger: units.stranger.saturating_add(self.stranger),
            too_big: units.too_big,
            bad_inner: units.bad_inner,
            packets: self.packets,
            taken: self.taken,
        }
    }
}
