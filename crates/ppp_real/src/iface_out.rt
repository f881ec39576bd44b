ghost use Rattle.std.specs.Prelude.{◌≡◌, ◌∷◌, None};

use crate::iface_in::both_addresses;
use arrayvec::ArrayVec;
use ppp_base::{Datagram, Name, Unit};
use ppp_outside::{Gave, IfaceOut};
use std::io::Result;
use std::net::{Net, UdpSocket};

/// The writing half of the packet socket: each message is an octet with the unit's number, and a datagram.
#[derive(Drop)]
pub struct RealIfaceOut<R> {
    rt: R,
    messages: Messages,
    tries: u64,
    faults: u64,
}

impl<R> RealIfaceOut<R> {
    /// The writing half with these addresses, `own-host:port,peer-host:port`. It is opened at its first use. Without
    /// addresses nothing is sent.
    pub fn new(rt: R, addresses: Option<&Name>) -> RealIfaceOut<R>
        ensures { (result.tries ≡ 0) × (result.faults ≡ 0) }
    {
        RealIfaceOut {
            rt,
            messages: match addresses {
                Some(addresses) => Messages::Closed(addresses.copy()),
                None => Messages::Never,
            },
            tries: 0,
            faults: 0,
        }
    }
}

// Where messages go.
#[derive(Drop)]
enum Messages {
    // Nowhere.
    Never,
    // To the peer of these addresses, by a socket that is still to be opened.
    Closed(Name),
    // By this socket, which is connected with the peer.
    Open(UdpSocket),
}

// A socket that is connected with the peer. Any port of ours will do.
fn connected<R: Net>(rt: &R, addresses: &Name) -> Result<UdpSocket> {
    let (_, peer) = both_addresses(addresses)?;
    let socket = UdpSocket::bind(rt, "0.0.0.0:0")?;
    socket.connect(peer)?;
    Ok(socket)
}

// The message of a packet.
fn message_for(unit: Unit, datagram: &Datagram) -> ArrayVec<u8, 2049>
    ensures { result.items ≡ unit ∷ datagram.now }
{
    let mut message = ArrayVec::new();
    message.push(unit.number());
    let _ = message.try_extend_from_slice(datagram.as_slice());
    message
}

impl Messages {
    // Sends the packet, and answers whether the whole of it was taken.
    fn send<R: Net>(&mut self, rt: &R, unit: Unit, datagram: &Datagram) -> Result<bool> {
        if let Messages::Closed(addresses) = self {
            let socket = connected(rt, addresses)?;
            *self = Messages::Open(socket);
        }
        match self {
            Messages::Open(socket) => {
                let message = message_for(unit, datagram);
                Ok(socket.send(message.as_slice())? == message.len())
            }
            _ => Ok(true),
        }
    }
}

impl<R: Net + Drop> IfaceOut for RealIfaceOut<R> {
    ghost state = { λ output. record { written = None; tries = output.tries; faults = output.faults } };

    fn give(&mut self, unit: Unit, datagram: &Datagram) -> Gave {
        self.tries = self.tries.saturating_add(1);
        match self.messages.send(&self.rt, unit, datagram) {
            Ok(true) => Gave::Gave,
            _ => {
                self.faults = self.faults.saturating_add(1);
                Gave::Failed
            }
        }
    }
}
