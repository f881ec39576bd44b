use super::*;
use ppp_base::{Frame, Name};
use ppp_packet::{AuthOut, AuthOutcome, Packet};
use ppp_secrets::Secrets;
use std::test::*;

const THREE_LINES: &[u8] = b"* srv one *\nbob srv two 10.0.0.0/8\nbob srv three -\n";

fn name(octets: &[u8]) -> Result<Name, Fail> {
    Ok(Name::from_octets(octets).ok_or("a short name")?)
}

fn packet(octets: &[u8]) -> Result<Packet, Fail> {
    Ok(Packet::read(octets).ok().ok_or("a packet")?)
}

fn sent(out: &AuthOut) -> Frame {
    match &out.packet {
        Some(packet) => packet.to_frame(),
        None => Frame::new(),
    }
}

// The letter of an outcome, and its name.
fn told(outcome: &AuthOutcome) -> (u8, &[u8]) {
    match outcome {
        AuthOutcome::Waiting => (b'w', b""),
        AuthOutcome::Passed(name, _) => (b'p', name.as_slice()),
        AuthOutcome::Refused(name) => (b'r', name.as_slice()),
        AuthOutcome::Unanswered(_) => (b'u', b""),
    }
}

#[test]
fn requests_are_judged(rt: HostRuntime) -> Result<(), Fail> {
    let three = Secrets::read(rt.alloc(), THREE_LINES).ok().ok_or("lawful")?;
    let empty = Secrets::read(rt.alloc(), b"bob srv \"\" *".as_slice())
        .ok()
        .ok_or("lawful")?;
    let server = name(b"srv")?;
    let right = packet(b"\x01\x01\x00\x0c\x03bob\x03two")?;
    let wrong = packet(b"\x01\x01\x00\x0c\x03bob\x03twp")?;
    for (secrets, request, answer, outcome) in [
        (&three, &right, b"\x02\x01\x00\x05\x00".as_slice(), b'p'),
        (&three, &wrong, b"\x03\x01\x00\x05\x00".as_slice(), b'r'),
        (&empty, &right, b"\x02\x01\x00\x05\x00".as_slice(), b'p'),
        (&empty, &wrong, b"\x02\x01\x00\x05\x00".as_slice(), b'p'),
    ] {
        let mut judge = PapJudge::new();
        let out = judge.begin(0);
        assert!(rt; out.packet.is_none() && told(&out.outcome).0 == b'w');
        let out = judge.heard(request, 1, secrets, &server);
        assert_eq!(rt; sent(&out).as_slice(), answer);
        assert_eq!(rt; told(&out.outcome).0, outcome);
        assert_eq!(rt; told(judge.outcome()).1, b"bob".as_slice());
        let out = judge.tick(90_000);
        assert!(rt; out.packet.is_none() && told(&out.outcome).0 == outcome);
    }
    Ok(())
}

#[test]
fn malformed_requests(rt: HostRuntime) -> Result<(), Fail> {
    let secrets = Secrets::read(rt.alloc(), THREE_LINES).ok().ok_or("lawful")?;
    let server = name(b"srv")?;
    let mut judge = PapJudge::new();
    for octets in [
        b"\x02\x01\x00\x0c\x03bob\x03two".as_slice(),
        b"\x04\x01\x00\x0c\x03bob\x03two".as_slice(),
        b"\x01\x01\x00\x04".as_slice(),
        b"\x01\x01\x00\x05\x03".as_slice(),
        b"\x01\x01\x00\x05\x00".as_slice(),
        b"\x01\x01\x00\x08\x03bob".as_slice(),
        b"\x01\x01\x00\x0b\x03bob\x03tw".as_slice(),
        b"\x01\x01\x00\x0d\x03bob\x03twoo".as_slice(),
        b"\x01\x01\x00\x0c\xffbob\x03two".as_slice(),
    ] {
        let out = judge.heard(&packet(octets)?, 0, &secrets, &server);
        assert!(rt; out.packet.is_none() && told(&out.outcome).0 == b'w');
    }
    let out = judge.heard(&packet(b"\x01\x63\x00\x06\x00\x00")?, 0, &secrets, &server);
    assert_eq!(rt; sent(&out).as_slice(), b"\x03\x63\x00\x05\x00".as_slice());
    assert!(rt; told(&out.outcome) == (b'r', b"".as_slice()));
    Ok(())
}

#[test]
fn an_outcome_stays(rt: HostRuntime) -> Result<(), Fail> {
    let secrets = Secrets::read(rt.alloc(), THREE_LINES).ok().ok_or("lawful")?;
    let server = name(b"srv")?;
    let mut judge = PapJudge::new();
    let right = packet(b"\x01\x01\x00\x0c\x03bob\x03two")?;
    judge.heard(&right, 0, &secrets, &server);
    let out = judge.heard(
        &packet(b"\x01\x09\x00\x0a\x01a\x03two")?,
        1,
        &secrets,
        &server,
    );
    assert_eq!(rt; sent(&out).as_slice(), b"\x02\x09\x00\x05\x00".as_slice());
    assert!(rt; matches!(&out.outcome, AuthOutcome::Passed(_, 2)));
    let mut judge = PapJudge::new();
    judge.heard(
        &packet(b"\x01\x09\x00\x0a\x01a\x03two")?,
        0,
        &secrets,
        &server,
    );
    let out = judge.heard(&right, 1, &secrets, &server);
    assert_eq!(rt; sent(&out).as_slice(), b"\x03\x01\x00\x05\x00".as_slice());
    assert!(rt; told(&out.outcome) == (b'r', b"a".as_slice()));
    Ok(())
}

#[test]
fn ten_requests(rt: HostRuntime) -> Result<(), Fail> {
    let secrets = Secrets::read(rt.alloc(), b"".as_slice())
        .ok()
        .ok_or("lawful")?;
    let none = Name::new();
    let request = b"\x01\x01\x00\x0c\x03bob\x03two".as_slice();
    let mut peer = PapPeer::new(name(b"bob")?, name(b"two")?);
    assert!(rt; peer.tick(9000).packet.is_none());
    assert_eq!(rt; sent(&peer.begin(10)).as_slice(), request);
    assert!(rt; peer.begin(11).packet.is_none());
    for k in 1..10u64 {
        let due = 10 + 3000 * k;
        assert!(rt; peer.tick(due - 1).packet.is_none());
        let out = peer.tick(due);
        assert_eq!(rt; sent(&out).as_slice(), request);
        assert!(rt; told(&out.outcome).0 == b'w');
    }
    assert!(rt; told(&peer.tick(30_009).outcome).0 == b'w');
    let out = peer.tick(30_010);
    assert!(rt; out.packet.is_none() && matches!(&out.outcome, AuthOutcome::Unanswered(10)));
    assert!(rt; peer.tick(60_000).packet.is_none());
    let out = peer.heard(&packet(b"\x02\x01\x00\x05\x00")?, 60_000, &secrets, &none);
    assert!(rt; matches!(&out.outcome, AuthOutcome::Unanswered(10)));
    Ok(())
}

#[test]
fn answers_to_a_request(rt: HostRuntime) -> Result<(), Fail> {
    let secrets = Secrets::read(rt.alloc(), b"".as_slice())
        .ok()
        .ok_or("lawful")?;
    let none = Name::new();
    let ack = packet(b"\x02\x01\x00\x05\x00")?;
    let nak = packet(b"\x03\x01\x00\x08\x03bad")?;
    for (octets, outcome) in [
        (b"\x02\x01\x00\x05\x00".as_slice(), b'p'),
        (b"\x02\x01\x00\x07\x02ok".as_slice(), b'p'),
        (b"\x03\x01\x00\x05\x00".as_slice(), b'r'),
        (b"\x02\x02\x00\x05\x00".as_slice(), b'w'),
        (b"\x03\x00\x00\x05\x00".as_slice(), b'w'),
        (b"\x02\x01\x00\x04".as_slice(), b'w'),
        (b"\x02\x01\x00\x06\x02o".as_slice(), b'w'),
        (b"\x03\x01\x00\x06\x00x".as_slice(), b'w'),
        (b"\x01\x01\x00\x05\x00".as_slice(), b'w'),
    ] {
        let mut peer = PapPeer::new(name(b"bob")?, name(b"two")?);
        peer.begin(0);
        let out = peer.heard(&packet(octets)?, 1, &secrets, &none);
        assert!(rt; out.packet.is_none());
        assert_eq!(rt; told(&out.outcome).0, outcome);
        assert_eq!(rt; told(peer.outcome()).0, outcome);
        assert!(rt; peer.tick(3000).packet.is_none() == (outcome != b'w'));
    }
    let mut peer = PapPeer::new(name(b"bob")?, name(b"two")?);
    assert!(rt; told(&peer.heard(&nak, 0, &secrets, &none).outcome).0 == b'w');
    peer.begin(0);
    let out = peer.heard(&ack, 1, &secrets, &none);
    assert!(rt; matches!(&out.outcome, AuthOutcome::Passed(_, 0)));
    assert!(rt; told(&out.outcome).1 == b"bob".as_slice());
    let out = peer.heard(&nak, 99, &secrets, &none);
    assert!(rt; told(&out.outcome) == (b'r', b"bob".as_slice()));
    assert!(rt; told(&peer.heard(&ack, 100, &secrets, &none).outcome).0 == b'r');
    Ok(())
}
