use super::*;
use ppp_base::{Frame, Name};
use ppp_packet::{AuthOut, AuthOutcome, Body, Packet};
use ppp_secrets::Secrets;
use std::test::*;

const THREE_LINES: &[u8] = b"* srv one *\nbob srv two 10.0.0.0/8\nbob srv three -\n";

fn name(octets: &[u8]) -> Result<Name, Fail> {
    Ok(Name::from_octets(octets).ok_or("a short name")?)
}

fn packet(octets: &[u8]) -> Result<Packet, Fail> {
    Ok(Packet::read(octets).ok().ok_or("a packet")?)
}

fn sent(out: &AuthOut) -> Frame {
    match &out.packet {
        Some(packet) => packet.to_frame(),
        None => Frame::new(),
    }
}

// The letter of an outcome, and its name.
fn told(outcome: &AuthOutcome) -> (u8, &[u8]) {
    match outcome {
        AuthOutcome::Waiting => (b'w', b""),
        AuthOutcome::Passed(name, _) => (b'p', name.as_slice()),
        AuthOutcome::Refused(name) => (b'r', name.as_slice()),
        AuthOutcome::Unanswered(_) => (b'u', b""),
    }
}

const CHALLENGE: [u8; 16] = [0, 1, 2, 3, 4, 5, 6, 7, 8, 9, 10, 11, 12, 13, 14, 15];

// The MD5 of 01, "two" and the challenge, behind its size, and then a name.
const RIGHT: &[u8] =
    b"\x02\x01\x00\x18\x10\x74\x63\xa5\x6e\x01\x31\x97\x9b\x48\x4d\x78\x77\x78\xe7\x28\xa1bob";

#[test]
fn values(rt: HostRuntime) {
    for (id, secret, challenge, value) in [
        (
            0x61,
            b"b".as_slice(),
            b"c".as_slice(),
            b"\x90\x01\x50\x98\x3c\xd2\x4f\xb0\xd6\x96\x3f\x7d\x28\xe1\x7f\x72".as_slice(),
        ),
        (
            1,
            b"two".as_slice(),
            CHALLENGE.as_slice(),
            b"\x74\x63\xa5\x6e\x01\x31\x97\x9b\x48\x4d\x78\x77\x78\xe7\x28\xa1".as_slice(),
        ),
        (
            8,
            b"two".as_slice(),
            b"".as_slice(),
            b"\x36\x5c\xdc\xf1\xa0\xde\x4c\xaa\x13\xc4\xb5\x8f\x1a\x17\xa3\x65".as_slice(),
        ),
    ] {
        assert_eq!(rt; chap_value(id, secret, challenge).as_slice(), value);
    }
}

#[test]
fn responses_are_judged(rt: HostRuntime) -> Result<(), Fail> {
    let three = Secrets::read(rt.alloc(), THREE_LINES).ok().ok_or("lawful")?;
    let empty = Secrets::read(rt.alloc(), b"bob srv \"\" *".as_slice())
        .ok()
        .ok_or("lawful")?;
    let server = name(b"srv")?;
    for (secrets, response, answer, outcome) in [
        (&three, RIGHT, b"\x03\x01\x00\x04".as_slice(), b'p'),
        (
            &three,
            b"\x02\x01\x00\x18\x10\x74\x63\xa5\x6e\x01\x31\x97\x9b\x48\x4d\x78\x77\x78\xe7\x28\xa0bob".as_slice(),
            b"\x04\x01\x00\x04".as_slice(),
            b'r',
        ),
        (
            &three,
            b"\x02\x01\x00\x18\x0f\x74\x63\xa5\x6e\x01\x31\x97\x9b\x48\x4d\x78\x77\x78\xe7\x28bob\x00".as_slice(),
            b"\x04\x01\x00\x04".as_slice(),
            b'r',
        ),
        (
            &three,
            b"\x02\x01\x00\x19\x11\x74\x63\xa5\x6e\x01\x31\x97\x9b\x48\x4d\x78\x77\x78\xe7\x28\xa1\x00bob".as_slice(),
            b"\x04\x01\x00\x04".as_slice(),
            b'r',
        ),
        (
            &three,
            b"\x02\x01\x00\x08\x00bob".as_slice(),
            b"\x04\x01\x00\x04".as_slice(),
            b'r',
        ),
        (
            &empty,
            b"\x02\x01\x00\x18\x10\x56\x19\xd2\x78\x18\x8b\x4f\x5a\x4d\xe0\x05\x21\x37\x5f\xdf\xd0bob".as_slice(),
            b"\x03\x01\x00\x04".as_slice(),
            b'p',
        ),
        (&empty, RIGHT, b"\x04\x01\x00\x04".as_slice(), b'r'),
        (
            &three,
            b"\x02\x02\x00\x18\x10\x74\x63\xa5\x6e\x01\x31\x97\x9b\x48\x4d\x78\x77\x78\xe7\x28\xa1bob".as_slice(),
            b"".as_slice(),
            b'w',
        ),
        (
            &three,
            b"\x01\x01\x00\x18\x10\x74\x63\xa5\x6e\x01\x31\x97\x9b\x48\x4d\x78\x77\x78\xe7\x28\xa1bob".as_slice(),
            b"".as_slice(),
            b'w',
        ),
        (&three, b"\x02\x01\x00\x04".as_slice(), b"".as_slice(), b'w'),
        (
            &three,
            b"\x02\x01\x00\x08\x10bob".as_slice(),
            b"".as_slice(),
            b'w',
        ),
    ] {
        let mut judge = ChapJudge::new(name(b"srv")?, CHALLENGE);
        assert!(rt;
            judge
                .heard(&packet(response)?, 0, secrets, &server)
                .packet
                .is_none()
        );
        let out = judge.begin(0);
        assert_eq!(rt;
            sent(&out).as_slice(),
            b"\x01\x01\x00\x18\x10\x00\x01\x02\x03\x04\x05\x06\x07\x08\x09\x0a\x0b\x0c\x0d\x0e\x0fsrv".as_slice()
        );
        let out = judge.heard(&packet(response)?, 1, secrets, &server);
        assert_eq!(rt; sent(&out).as_slice(), answer);
        assert_eq!(rt; told(&out.outcome).0, outcome);
        assert_eq!(rt; told(judge.outcome()).0, outcome);
        assert!(rt; judge.tick(3000).packet.is_none() == (outcome != b'w'));
    }
    Ok(())
}

#[test]
fn names_of_255_octets(rt: HostRuntime) -> Result<(), Fail> {
    let secrets = Secrets::read(rt.alloc(), THREE_LINES).ok().ok_or("lawful")?;
    let server = name(b"srv")?;
    // A value of 120 octets, and a name of 255 or 256.
    let longest = [120; 376];
    let too_long = [120; 377];
    for (octets, is_answered) in [(longest.as_slice(), true), (too_long.as_slice(), false)] {
        let body = Body::from_octets(octets).ok_or("a body")?;
        let long = Packet {
            code: 2,
            id: 1,
            body,
        };
        let mut judge = ChapJudge::new(name(b"srv")?, CHALLENGE);
        judge.begin(0);
        assert!(rt; judge.heard(&long, 0, &secrets, &server).packet.is_some() == is_answered);
    }
    Ok(())
}

#[test]
fn an_outcome_stays(rt: HostRuntime) -> Result<(), Fail> {
    let secrets = Secrets::read(rt.alloc(), THREE_LINES).ok().ok_or("lawful")?;
    let server = name(b"srv")?;
    let wrong = packet(b"\x02\x01\x00\x06\x00a")?;
    let right = packet(RIGHT)?;
    let mut judge = ChapJudge::new(name(b"srv")?, CHALLENGE);
    judge.begin(0);
    judge.heard(&right, 0, &secrets, &server);
    let out = judge.heard(&wrong, 1, &secrets, &server);
    assert_eq!(rt; sent(&out).as_slice(), b"\x03\x01\x00\x04".as_slice());
    assert!(rt; matches!(&out.outcome, AuthOutcome::Passed(_, 2)));
    assert!(rt; told(&out.outcome).1 == b"bob".as_slice());
    let mut judge = ChapJudge::new(name(b"srv")?, CHALLENGE);
    judge.begin(0);
    judge.heard(&wrong, 0, &secrets, &server);
    let out = judge.heard(&right, 1, &secrets, &server);
    assert_eq!(rt; sent(&out).as_slice(), b"\x04\x01\x00\x04".as_slice());
    assert!(rt; told(&out.outcome) == (b'r', b"a".as_slice()));
    Ok(())
}

#[test]
fn ten_challenges(rt: HostRuntime) -> Result<(), Fail> {
    let secrets = Secrets::read(rt.alloc(), THREE_LINES).ok().ok_or("lawful")?;
    let server = name(b"srv")?;
    let mut judge = ChapJudge::new(name(b"srv")?, CHALLENGE);
    assert!(rt; judge.tick(9000).packet.is_none());
    let first = judge.begin(10);
    assert!(rt; judge.begin(11).packet.is_none());
    for k in 1..10u64 {
        let due = 10 + 3000 * k;
        assert!(rt; judge.tick(due - 1).packet.is_none());
        assert_eq!(rt; sent(&judge.tick(due)).as_slice(), sent(&first).as_slice());
    }
    assert!(rt; told(&judge.tick(30_009).outcome).0 == b'w');
    let out = judge.tick(30_010);
    assert!(rt; out.packet.is_none() && matches!(&out.outcome, AuthOutcome::Unanswered(10)));
    let out = judge.heard(&packet(RIGHT)?, 30_011, &secrets, &server);
    assert!(rt; out.packet.is_none() && matches!(&out.outcome, AuthOutcome::Unanswered(10)));
    Ok(())
}

#[test]
fn challenges_are_answered(rt: HostRuntime) -> Result<(), Fail> {
    let secrets = Secrets::read(rt.alloc(), THREE_LINES).ok().ok_or("lawful")?;
    for (password, server, challenge, response, outcome) in [
        (
            None,
            b"srv".as_slice(),
            b"\x01\x07\x00\x0a\x02\x09\x08eve".as_slice(),
            b"\x02\x07\x00\x18\x10\xed\xe2\x30\xfa\x15\x44\x00\xdf\x9c\x37\x9c\xed\x1f\x13\x5e\xc9bob".as_slice(),
            b'w',
        ),
        (
            None,
            b"".as_slice(),
            b"\x01\x07\x00\x0a\x02\x09\x08srv".as_slice(),
            b"\x02\x07\x00\x18\x10\xed\xe2\x30\xfa\x15\x44\x00\xdf\x9c\x37\x9c\xed\x1f\x13\x5e\xc9bob".as_slice(),
            b'w',
        ),
        (
            None,
            b"".as_slice(),
            b"\x01\x08\x00\x08\x00srv".as_slice(),
            b"\x02\x08\x00\x18\x10\x36\x5c\xdc\xf1\xa0\xde\x4c\xaa\x13\xc4\xb5\x8f\x1a\x17\xa3\x65bob".as_slice(),
            b'w',
        ),
        (
            None,
            b"".as_slice(),
            b"\x01\x07\x00\x0a\x02\x09\x08eve".as_slice(),
            b"".as_slice(),
            b'r',
        ),
        (
            None,
            b"eve".as_slice(),
            b"\x01\x07\x00\x0a\x02\x09\x08srv".as_slice(),
            b"".as_slice(),
            b'r',
        ),
        (
            Some(b"pw".as_slice()),
            b"eve".as_slice(),
            b"\x01\x09\x00\x06\x01\x05".as_slice(),
            b"\x02\x09\x00\x18\x10\x61\xce\x2c\x5b\x58\xb5\x67\xa8\x29\x5d\x14\x39\x92\x3f\x8e\x26bob".as_slice(),
            b'w',
        ),
        (
            Some(b"pw".as_slice()),
            b"".as_slice(),
            b"\x01\x09\x00\x04".as_slice(),
            b"".as_slice(),
            b'w',
        ),
        (
            Some(b"pw".as_slice()),
            b"".as_slice(),
            b"\x01\x09\x00\x06\x02\x05".as_slice(),
            b"".as_slice(),
            b'w',
        ),
        (
            Some(b"pw".as_slice()),
            b"".as_slice(),
            b"\x02\x09\x00\x06\x01\x05".as_slice(),
            b"".as_slice(),
            b'w',
        ),
    ] {
        let mut peer = ChapPeer::new(name(b"bob")?, option_name(password)?);
        let out = peer.begin(0);
        assert!(rt; out.packet.is_none() && told(&out.outcome).0 == b'w');
        let out = peer.heard(&packet(challenge)?, 1, &secrets, &name(server)?);
        assert_eq!(rt; sent(&out).as_slice(), response);
        assert_eq!(rt; told(&out.outcome).0, outcome);
        let out = peer.tick(90_000);
        assert!(rt; out.packet.is_none() && told(&out.outcome).0 == outcome);
    }
    Ok(())
}

fn option_name(octets: Option<&[u8]>) -> Result<Option<Name>, Fail> {
    match octets {
        Some(octets) => Ok(Some(name(octets)?)),
        None => Ok(None),
    }
}

#[test]
fn results_of_a_challenge(rt: HostRuntime) -> Result<(), Fail> {
    let secrets = Secrets::read(rt.alloc(), THREE_LINES).ok().ok_or("lawful")?;
    let server = name(b"srv")?;
    let first = packet(b"\x01\x07\x00\x06\x01\x09")?;
    let second = packet(b"\x01\x08\x00\x06\x01\x09")?;
    let success = packet(b"\x03\x07\x00\x06ok")?;
    let failure = packet(b"\x04\x08\x00\x04")?;
    let early = packet(b"\x04\x07\x00\x04")?;
    let mut peer = ChapPeer::new(name(b"bob")?, None);
    assert!(rt; told(&peer.heard(&success, 0, &secrets, &server).outcome).0 == b'w');
    assert!(rt; told(&peer.heard(&early, 0, &secrets, &server).outcome).0 == b'w');
    peer.heard(&first, 1, &secrets, &server);
    assert!(rt; told(&peer.heard(&failure, 2, &secrets, &server).outcome).0 == b'w');
    let out = peer.heard(&success, 2, &secrets, &server);
    assert!(rt; matches!(&out.outcome, AuthOutcome::Passed(_, 0)));
    assert!(rt; told(&out.outcome).1 == b"bob".as_slice());
    let out = peer.heard(&second, 3, &secrets, &server);
    assert!(rt; out.packet.is_some() && told(&out.outcome).0 == b'p');
    assert!(rt; told(&peer.heard(&early, 4, &secrets, &server).outcome).0 == b'p');
    assert!(rt; told(&peer.heard(&failure, 5, &secrets, &server).outcome).0 == b'r');
    let third = packet(b"\x01\x09\x00\x06\x01\x09")?;
    let out = peer.heard(&third, 6, &secrets, &server);
    assert!(rt; out.packet.is_some() && told(peer.outcome()).0 == b'r');
    Ok(())
}
