use super::*;
use ppp_base::{Frame, Name};
use std::test::Fail;

// What is read of the first octets, as many as `there`.
fn read_front(octets: &[u8], there: usize) -> Result<Packet, PacketFault> {
    Packet::read(&octets[..there.min(octets.len())])
}

#[test]
fn lengths_of_packets(rt: HostRuntime) -> Result<(), Fail> {
    let mut octets = [0u8; 1510];
    octets[0] = 9;
    octets[1] = 7;
    for there in 0..4 {
        let read = Packet::read(&octets[..there]);
        assert!(rt; read == Err(PacketFault::Short), "at {there}");
    }
    for (size, there, data) in [
        (3, 1510, None),
        (4, 4, Some(0)),
        (4, 5, Some(0)),
        (5, 4, None),
        (5, 5, Some(1)),
        (1508, 1507, None),
        (1508, 1508, Some(1504)),
        (1508, 1510, Some(1504)),
        (1509, 1510, None),
        (1510, 1510, None),
        (65535, 1510, None),
    ] {
        octets[2] = (size >> 8) as u8;
        octets[3] = (size & 255) as u8;
        match (read_front(&octets, there), data) {
            (Ok(packet), Some(length)) => {
                assert_eq!(rt; (packet.code, packet.id), (9, 7), "at {size}");
                assert_eq!(rt; packet.body.len(), length, "at {size}");
            }
            (read, want) => assert!(rt;
                read == Err(PacketFault::BadLength) && want.is_none(),
                "at {size}"
            ),
        }
    }
    Ok(())
}

#[test]
fn packets_are_read_back(rt: HostRuntime) -> Result<(), Fail> {
    let packet = Packet {
        code: 1,
        id: 2,
        body: Body::from_octets(&[2, 6, 0, 0, 0, 0]).expect(&rt, "it fits"),
    };
    let mut out = Frame::new();
    assert!(rt; packet.write(&mut out));
    assert_eq!(rt; out.as_slice(), [1, 2, 0, 10, 2, 6, 0, 0, 0, 0].as_slice());
    assert!(rt; packet.to_frame() == out);
    out.append(&[0xff; 3]);
    laws::packet_back(&packet, &out.as_slice()[10..]);
    assert!(rt; Packet::read(out.as_slice())? == packet.copy());
    out.append(&[0; 1486]);
    assert!(rt; !packet.write(&mut out));
    assert_eq!(rt; out.len(), 1499);
    out.clear();
    out.append(&[0; 1498]);
    assert!(rt; packet.write(&mut out));
    Ok(())
}

#[test]
fn options_of_octets(rt: HostRuntime) -> Result<(), Fail> {
    let list = Options::read(&[0x02, 0x06, 0, 0, 0, 0, 0x07, 0x02, 0x08, 0x02])?;
    assert_eq!(rt; list.count(), 3);
    for (at, kind, size) in [(0, 2, 4), (1, 7, 0), (2, 8, 0)] {
        let found = list.get(at).expect(&rt, "it is there");
        assert_eq!(rt; (found.kind, found.body.len()), (kind, size), "at {at}");
    }
    assert!(rt; list.get(3).is_none() && list.get(usize::MAX).is_none());
    let none = Options::read(&[])?;
    assert!(rt; none.is_empty() && none.count() == 0 && none.get(0).is_none());
    for (octets, fault) in [
        ([0x01].as_slice(), OptionFault::Cut),
        ([0x01, 0x01].as_slice(), OptionFault::BadLength),
        ([0x01, 0x05, 0x00].as_slice(), OptionFault::Cut),
        (
            [0x07, 0x02, 0x01, 0x00, 0x01].as_slice(),
            OptionFault::BadLength,
        ),
        (
            [0x07, 0x02, 0x01, 0x09, 0x01, 0x01].as_slice(),
            OptionFault::Cut,
        ),
    ] {
        assert!(rt; Options::read(octets).err() == Some(fault));
    }
    Ok(())
}

#[test]
fn a_full_list_of_options(rt: HostRuntime) -> Result<(), Fail> {
    let octets = [2u8; 1504];
    let list = Options::read(&octets)?;
    assert_eq!(rt; (list.count(), list.size()), (752, 1504));
    let last = list.get(751).expect(&rt, "it is there");
    assert!(rt; last.kind == 2 && last.body == ItemBody::new());
    assert!(rt; list.get(752).is_none());
    Ok(())
}

#[test]
fn options_one_by_one(rt: HostRuntime) -> Result<(), Fail> {
    let mut list = OptionList::new();
    list.push(5, &[1, 2, 3, 4]);
    list.push(7, &[]);
    let same = list.copy();
    assert_eq!(rt;
        same.to_body().as_slice(),
        [5, 6, 1, 2, 3, 4, 7, 2].as_slice()
    );
    let mut items = same.iter();
    let first = items.next().expect(&rt, "it is there");
    assert_eq!(rt; (first.kind, first.body), (5, [1, 2, 3, 4].as_slice()));
    assert_eq!(rt; items.next().expect(&rt, "it is there").kind, 7);
    assert!(rt; items.next().is_none());
    let out = AuthOut {
        packet: Some(Packet::default()),
        outcome: AuthOutcome::Passed(Name::new(), 1),
    };
    assert!(rt; out.packet.is_some());
    Ok(())
}
