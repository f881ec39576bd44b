ghost use Rattle.std.specs.Prelude.{◌≡◌, ◌<◌, ◌≤◌, [], ◌∷◌, ◌++◌, length, IfOk, IfSome, option_map, slice_get};

use crate::packet::{MOST_PACKET, Packet};
use ppp_base::NoMemory;
use std::alloc::Global;
use std::marker::Model;

/// The packets that the last call gave, in order: at most 128, each of at most 2,050 octets, which are the protocol
/// field and the information. Contracts see it as their list.
#[derive(Drop)]
pub struct Given {
    // Room for 128 packets, of which the first so many were given.
    packets: Vec<Packet>,
    count: u8,
}

impl Model for Given {
    ghost use Rattle.std.specs.Prelude.{◌≡◌, List, ℕ, length, take, ◌≤◌};

    ghost Value = { List (List ℕ) };

    ghost view = { λ g. take g.count g.packets.items };

    ghost invariant = { λ g. (length g.packets.items ≡ 128) × (g.count ≤ 128) };
}

impl Given {
    /// No packet. All memory that is ever needed is taken here.
    pub fn new(alloc: Global) -> Result<Given, NoMemory>
        ensures { IfOk result (λ g. g ≡ []) }
    {
        let mut packets = Vec::with_capacity(alloc, 128).map_err(|_| NoMemory)?;
        for _packet in 0..128u8 {
            packets.push_reserved(Packet::new());
        }
        Ok(Given { packets, count: 0 })
    }

    /// How many packets there are, at most 128.
    pub fn count(&self) -> u8
        ensures count { result ≡ length self.now }
        ensures within { result ≤ 128 }
    {
        self.count
    }

    /// The packet at this place. None exactly at the count or above.
    pub fn get(&self, at: u8) -> Option<&[u8]>
        ensures packet { option_map (λ x. x.now) result ≡ slice_get self.now at }
        ensures within { IfSome result (λ x. length x.now ≤ MOST_PACKET) }
    {
        if self.count <= at {
            return None;
        }
        Some(self.packets[usize::from(at)].as_slice())
    }

    pub(crate) fn clear(&mut self)
        ensures { self.new ≡ [] }
    {
        self.count = 0;
    }

    // One packet more. Its octets alone are copied.
    pub(crate) fn push(&mut self, packet: &[u8])
        requires room { length self.old < 128 }
        requires within { length packet.now ≤ MOST_PACKET }
        ensures { self.new ≡ self.old ++ packet.now ∷ [] }
    {
        let room = &mut self.packets[usize::from(self.count)];
        room.clear();
        room.append(packet);
        self.count += 1;
    }
}
