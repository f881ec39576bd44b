ghost use Rattle.ppp_base.specs.declared.mrru.TheConstants.{MOST_MRRU};
ghost use Rattle.std.specs.Prelude.{◌≤◌};

use crate::counts::GatherCounts;
use crate::packet::Packet;
use crate::places::Places;

// What a gatherer keeps. All its numbers but the base of the places are counted from the least number that isn't settled.
#[derive(Drop)]
pub(crate) struct GatherFacts {
    pub(crate) mrru: u16,
    pub(crate) places: Places,
    // For each link how far beyond the least number it has brought pieces, where it is a member.
    pub(crate) overs: [Option<u32>; 16],
    pub(crate) counts: GatherCounts,
    // Room for the packet that is being joined.
    pub(crate) packet: Packet,
    ghost lawful: { mrru ≤ MOST_MRRU },
}
