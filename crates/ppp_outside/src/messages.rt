ghost use Rattle.std.specs.Prelude.{◌≡◌, None};
ghost use Rattle.ppp_outside.specs.Messages.{IsFilled, packet_of};

use crate::iface::UnitDatagram;
use ppp_base::{Datagram, Unit};

/// The packet that a message of a packet socket is: an octet with the unit's number, and the datagram. None for another
/// unit, for no datagram octet, and above 2,048 of them.
#[tactic(auto, using(crate::proofs::MessageLemmas::is_filled))]
pub fn packet_in(message: &[u8]) -> Option<UnitDatagram>
    ensures packet { result ≡ packet_of message.now }
    ensures filled { IsFilled result }
{
    match message {
        [] | [_] => None,
        [number, octets @ ..] => {
            let unit = Unit::new(*number)?;
            let datagram = Datagram::from_octets(octets)?;
            Some(UnitDatagram { unit, datagram })
        }
    }
}
