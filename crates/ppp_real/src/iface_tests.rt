use crate::{RealIfaceIn, RealIfaceOut};
use ppp_base::{Datagram, Name, Unit};
use ppp_outside::{Gave, IfaceGot, IfaceIn, IfaceOut};
use std::net::UdpSocket;
use std::test::Fail;

fn name(text: &str) -> Name {
    Name::from_octets(text.as_bytes()).unwrap_or(Name::new())
}

// The two halves of one end, each against a socket of the test's own.
#[test]
fn packets_pass(rt: HostRuntime) -> Result<(), Fail> {
    let peer = UdpSocket::bind(&rt, "127.0.0.1:0")?;
    let own = UdpSocket::bind(&rt, "127.0.0.1:0")?.local_addr()?;
    let peer_address = peer.local_addr()?;
    let addresses = format!(in rt.alloc(); "{own},{peer_address}")?;
    let addresses = name(addresses.as_str());
    let unit = Unit::new(7).unwrap_or(Unit::zero());

    let mut output = RealIfaceOut::new(rt, Some(&addresses));
    let datagram = Datagram::from_octets(b"a datagram").unwrap_or(Datagram::new());
    assert_eq!(rt; output.give(unit, &datagram), Gave::Gave);
    let mut heard = [0u8; 64];
    let count = peer.recv(&mut heard)?;
    assert_eq!(rt; &heard[..count], b"\x07a datagram".as_slice());

    let mut input = RealIfaceIn::new(rt, Some(&addresses));
    let mut buf = Datagram::new();
    assert_eq!(rt; input.take(&mut buf, 10), IfaceGot::Quiet);
    peer.send_to(b"\x07another", own)?;
    assert_eq!(rt; input.take(&mut buf, 5000), IfaceGot::Packet(unit));
    assert_eq!(rt; buf.as_slice(), b"another".as_slice());
    let long = [7u8; 2050];
    for message in [
        b"".as_slice(),
        b"\x07".as_slice(),
        b"\x10octets".as_slice(),
        long.as_slice(),
    ] {
        peer.send_to(message, own)?;
        assert_eq!(rt; input.take(&mut buf, 5000), IfaceGot::Quiet);
    }
    peer.send_to(&long[..2049], own)?;
    assert_eq!(rt; input.take(&mut buf, 5000), IfaceGot::Packet(unit));
    assert_eq!(rt; buf.len(), 2048);
    Ok(())
}

#[test]
fn no_addresses(rt: HostRuntime) -> Result<(), Fail> {
    let mut buf = Datagram::new();
    assert_eq!(rt;
        RealIfaceIn::new(rt, None).take(&mut buf, 1),
        IfaceGot::Quiet
    );
    assert_eq!(rt;
        RealIfaceOut::new(rt, None).give(Unit::zero(), &buf),
        Gave::Gave
    );
    let bad = name("127.0.0.1:1");
    assert_eq!(rt;
        RealIfaceIn::new(rt, Some(&bad)).take(&mut buf, 1),
        IfaceGot::Failed
    );
    assert_eq!(rt;
        RealIfaceOut::new(rt, Some(&bad)).give(Unit::zero(), &buf),
        Gave::Failed
    );
    Ok(())
}
