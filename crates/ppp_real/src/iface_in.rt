ghost use Rattle.std.specs.Prelude.{◌≡◌, None, IfOk};
ghost use Rattle.ppp_outside.specs.Messages.{IsFilled};

use crate::socket::{is_quiet, wait_of};
use crate::texts::text_of;
use ppp_base::{Datagram, Name};
use ppp_outside::{IfaceGot, IfaceIn, UnitDatagram, packet_in};
use std::io::{Error, ErrorKind, Result};
use std::net::{Net, UdpSocket};
use std::{rt, thread};

/// The reading half of the packet socket: each message is an octet with the unit's number, and a datagram.
#[derive(Drop)]
pub struct RealIfaceIn<R> {
    rt: R,
    messages: Messages,
    packets: u64,
    faults: u64,
}

impl<R> RealIfaceIn<R> {
    /// The reading half with these addresses, `own-host:port,peer-host:port`. It is opened at its first use. Without
    /// addresses nothing comes.
    pub fn new(rt: R, addresses: Option<&Name>) -> RealIfaceIn<R>
        ensures { (result.packets ≡ 0) × (result.faults ≡ 0) }
    {
        RealIfaceIn {
            rt,
            messages: match addresses {
                Some(addresses) => Messages::Closed(addresses.copy()),
                None => Messages::Never,
            },
            packets: 0,
            faults: 0,
        }
    }
}

// Where messages come from.
#[derive(Drop)]
enum Messages {
    // From nowhere.
    Never,
    // From the socket with these addresses, which is still to be opened.
    Closed(Name),
    // From this socket.
    Open(UdpSocket),
}

impl Messages {
    // The next message's packet, if it is one and came within the wait.
    fn take<R: Net + rt::Clock>(&mut self, rt: &R, wait_ms: u32) -> Result<Option<UnitDatagram>>
        ensures { IfOk result (λ packet. IsFilled packet) }
    {
        if let Messages::Closed(addresses) = self {
            let (own, _) = both_addresses(addresses)?;
            let socket = UdpSocket::bind(rt, own)?;
            *self = Messages::Open(socket);
        }
        match self {
            Messages::Open(socket) => receive(socket, wait_ms),
            _ => {
                thread::sleep(rt, wait_of(wait_ms));
                Ok(None)
            }
        }
    }
}

/// The two addresses, ours and the peer's.
pub fn both_addresses(addresses: &Name) -> Result<(&str, &str)> {
    match text_of(addresses.as_slice())?.split_once(',') {
        Some(both) => Ok(both),
        None => Err(Error::from(ErrorKind::InvalidInput)),
    }
}

// The next message's packet. A message that is too long for a packet fills all of its room, and is none.
fn receive(socket: &UdpSocket, wait_ms: u32) -> Result<Option<UnitDatagram>>
    ensures { IfOk result (λ packet. IsFilled packet) }
{
    let mut message = [0u8; 2050];
    socket.set_read_timeout(Some(wait_of(wait_ms)))?;
    match socket.recv(&mut message) {
        Ok(count) => Ok(packet_in(&message[..count])),
        Err(error) if is_quiet(&error) => Ok(None),
        Err(error) => Err(error),
    }
}

impl<R: Net + rt::Clock + Drop> IfaceIn for RealIfaceIn<R> {
    ghost state = { λ input. record { left = None; packets = input.packets; faults = input.faults } };

    fn take(&mut self, buf: &mut Datagram, wait_ms: u32) -> IfaceGot {
        match self.messages.take(&self.rt, wait_ms) {
            Ok(Some(packet)) => {
                self.packets = self.packets.saturating_add(1);
                *buf = packet.datagram;
                IfaceGot::Packet(packet.unit)
            }
            Ok(None) => IfaceGot::Quiet,
            Err(_) => {
                self.faults = self.faults.saturating_add(1);
                IfaceGot::Failed
            }
        }
    }
}
