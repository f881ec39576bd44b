ghost use Rattle.std.specs.Prelude.{◌≡◌, ◌≤◌, [], ◌∷◌, ◌++◌, length, option_map, option_to_list, IfNone, IfOk};
ghost use Rattle.ppp_base.specs.declared.octets.TheConstants.{MOST_DATAGRAM};
ghost use Rattle.ppp_table_parts.specs.declared.deliveries.Delivery.{Delivery};
ghost use Rattle.ppp_table_parts.specs.declared.head.TheConstants.{MOST_DELIVERED};
ghost use Rattle.ppp_table_parts.specs.Deliveries.{deliveries_size, piece_of, with_delivery};

use crate::head::{DELIVERY_HEAD, MOST_DELIVERED};
use ppp_base::{Datagram, NoMemory, Unit};
use ppp_ring::PieceRing;
use std::alloc::Global;
use std::marker::Model;

/// A datagram of a unit's peer, for the system.
#[derive(Debug, Drop)]
pub struct Delivery {
    pub unit: Unit,
    pub datagram: Datagram,
}

/// The datagrams that wait to be given.
#[derive(Drop)]
pub struct Deliveries {
    ring: PieceRing<Unit, 2048>,
    dropped: u64,
}

impl Model for Deliveries {
    ghost use Rattle.std.specs.Prelude.{ℕ, ◌≡◌, ◌≤◌};
    ghost use Rattle.ppp_base.specs.RingAfter.{Ring};
    ghost use Rattle.ppp_ring.specs.Pieces.{Piece};
    ghost use Rattle.ppp_table_parts.specs.declared.head.TheConstants.{DELIVERY_HEAD, MOST_DELIVERED};
    ghost use Rattle.ppp_table_parts.specs.Deliveries.{deliveries_size};

    ghost Value = { Ring (Piece ℕ) };

    ghost view = { λ d. record { waiting = d.ring.waiting; dropped = d.dropped } };

    ghost invariant = { λ d. (d.ring.beside ≡ DELIVERY_HEAD) × (d.ring.most ≡ MOST_DELIVERED) × (deliveries_size d.ring.waiting ≤ MOST_DELIVERED) };
}

impl Deliveries {
    /// None waits. All room is taken here.
    pub fn new(alloc: Global) -> Result<Deliveries, NoMemory>
        ensures { IfOk result (λ d. d ≡ record { waiting = []; dropped = 0 }) }
    {
        let ring = PieceRing::new(alloc, DELIVERY_HEAD, MOST_DELIVERED)?;
        Ok(Deliveries { ring, dropped: 0 })
    }

    /// Appends a datagram, or counts that it doesn't fit.
    pub fn put(&mut self, unit: Unit, datagram: &[u8])
        requires { length datagram.now ≤ MOST_DATAGRAM }
        ensures { self.new ≡ with_delivery unit datagram.now self.old }
    {
        if !self.ring.put(unit, datagram) {
            self.dropped = self.dropped.saturating_add(1);
        }
    }

    /// How many datagrams found no room.
    pub fn dropped(&self) -> u64
        ensures dropped { result ≡ self.now.dropped }
        ensures within { deliveries_size self.now.waiting ≤ MOST_DELIVERED }
    {
        self.dropped
    }

    /// Takes the datagram that waits longest. None exactly where none waits.
    pub fn take(&mut self) -> Option<Delivery>
        ensures first { self.old.waiting ≡ option_to_list (option_map piece_of result) ++ self.new.waiting }
        ensures none { IfNone result (self.old.waiting ≡ []) }
        ensures dropped { self.new.dropped ≡ self.old.dropped }
    {
        let (unit, datagram) = self.ring.take()?;
        Some(Delivery { unit, datagram })
    }
}
