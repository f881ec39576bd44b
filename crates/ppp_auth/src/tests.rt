use super::*;
use ppp_base::{Allow, DEFAULT_MAP, Name, SendSettings, protocol};
use ppp_packet::{Agreed, Body, Method, Packet};
use ppp_secrets::{Secrets, SecretsPair};
use std::alloc::Global;
use std::test::Fail;

const CHALLENGE: [u8; 16] = [7; 16];

// By Python's hashlib: the MD5 of 01, `word` and sixteen octets 07.
const RIGHT: [u8; 16] = [
    0xc7, 0xc4, 0x05, 0x91, 0x57, 0x5c, 0x96, 0x3a, 0xe6, 0x58, 0xc1, 0x6d, 0x6d, 0x52, 0xb1, 0x88,
];

// The same of 09, `ours`, and 01 02 03.
const OURS: [u8; 16] = [
    0x9f, 0x4e, 0x53, 0x32, 0x7c, 0x6e, 0x88, 0x9d, 0x57, 0x97, 0x6a, 0x50, 0x3f, 0x73, 0xad, 0xd1,
];

// The same of 09, `pw`, and 01 02 03.
const BY_OPTION: [u8; 16] = [
    0x5c, 0xe2, 0xba, 0x99, 0xb0, 0x47, 0x07, 0xcb, 0xf4, 0xe2, 0x3c, 0xea, 0x29, 0xf5, 0x26, 0xb4,
];

fn name(text: &str) -> Name {
    match Name::from_octets(text.as_bytes()) {
        Some(name) => name,
        None => Name::new(),
    }
}

fn packet(code: u8, id: u8, body: &[u8]) -> Packet {
    match Body::from_octets(body) {
        Some(body) => Packet { code, id, body },
        None => Packet::default(),
    }
}

fn agreed(peer: Option<Method>, we: Option<Method>) -> Agreed {
    Agreed {
        we_prove: we,
        peer_proves: peer,
        peer_mru: 1500,
        mrru: None,
        disc: None,
        send: SendSettings::plain(),
        receive_map: DEFAULT_MAP,
    }
}

fn config(password: Option<Name>, remotename: Option<Name>) -> AuthConfig {
    AuthConfig {
        name: name("srv"),
        user: name("us"),
        password,
        remotename,
    }
}

fn phase(method: Option<Method>) -> AuthPhase {
    AuthPhase::new(&agreed(method, method), config(None, None), CHALLENGE)
}

fn secrets(alloc: Global) -> Result<SecretsPair, Fail> {
    Ok(SecretsPair {
        pap: Secrets::read(alloc, b"bob srv two *\nus * pw *\n")?,
        chap: Secrets::read(alloc, b"# a comment\nbob srv word *\nus peer ours *\n")?,
    })
}

// A challenge's or response's data.
fn valued(value: &[u8], name: &str) -> Body {
    let mut body = Body::new();
    if value.len() <= 16 && name.len() <= 16 {
        body.push(value.len() as u8);
        body.append(value);
        body.append(name.as_bytes());
    }
    body
}

fn is_passed(outcome: &AuthNow, line: Allow) -> bool {
    match outcome {
        AuthNow::Passed { peer, allow } => *peer == Some(name("bob")) && *allow == line,
        _ => false,
    }
}

// Whether one packet is sent, this one of this protocol.
fn is_one(packets: &PhasePackets, protocol: u16, packet: &Packet) -> bool {
    let sent = packets.as_slice();
    match sent.first() {
        Some(only) => sent.len() == 1 && only.protocol == protocol && only.packet == *packet,
        None => false,
    }
}

#[test]
fn both_by_chap_in_both_orders(rt: HostRuntime) -> Result<(), Fail> {
    let pair = secrets(rt.alloc())?;
    let challenge = Packet {
        code: 1,
        id: 9,
        body: valued(&[1, 2, 3], "peer"),
    };
    let response = Packet {
        code: 2,
        id: 1,
        body: valued(&RIGHT, "bob"),
    };
    let asks = Packet {
        code: 1,
        id: 1,
        body: valued(&CHALLENGE, "srv"),
    };
    let answer = Packet {
        code: 2,
        id: 9,
        body: valued(&OURS, "us"),
    };
    let success = packet(3, 9, &[]);
    let judged = packet(3, 1, &[]);
    for first in [true, false] {
        let mut phase = phase(Some(Method::Chap));
        let begun = phase.begin(0, &pair);
        assert!(rt; is_one(&begun.packets, protocol::CHAP, &asks));
        let answered = phase.heard(protocol::CHAP, &challenge, 1, &pair);
        assert!(rt; is_one(&answered.packets, protocol::CHAP, &answer));
        let order = if first {
            [&response, &success]
        } else {
            [&success, &response]
        };
        let one = phase.heard(protocol::CHAP, order[0], 2, &pair);
        assert!(rt; matches!(phase.outcome(), AuthNow::Going));
        let two = phase.heard(protocol::CHAP, order[1], 3, &pair);
        let told = if first { (one, two) } else { (two, one) };
        assert!(rt; told.0.peer_passed == Some(name("bob")) && told.1.peer_passed.is_none());
        assert!(rt; is_one(&told.0.packets, protocol::CHAP, &judged));
        assert!(rt; is_passed(&phase.outcome(), Allow::Chap(2)));
        let _failed = phase.heard(protocol::CHAP, &packet(4, 9, &[]), 4, &pair);
        assert!(rt; matches!(phase.outcome(), AuthNow::WeFailed));
    }
    Ok(())
}

#[test]
fn both_by_pap(rt: HostRuntime) -> Result<(), Fail> {
    let pair = secrets(rt.alloc())?;
    let mut phase = phase(Some(Method::Pap));
    let begun = phase.begin(0, &pair);
    let asks = packet(1, 1, b"\x02us\x02pw");
    assert!(rt; is_one(&begun.packets, protocol::PAP, &asks));
    let none = phase.heard(protocol::CHAP, &packet(1, 5, b"\x03bob\x03two"), 1, &pair);
    assert!(rt; none.packets.as_slice().is_empty());
    let passed = phase.heard(protocol::PAP, &packet(1, 5, b"\x03bob\x03two"), 1, &pair);
    assert!(rt; is_one(&passed.packets, protocol::PAP, &packet(2, 5, &[0])));
    assert!(rt; passed.peer_passed == Some(name("bob")));
    let _acked = phase.heard(protocol::PAP, &packet(2, 1, &[0]), 2, &pair);
    assert!(rt; is_passed(&phase.outcome(), Allow::Pap(1)));
    Ok(())
}

#[test]
fn sixty_seconds(rt: HostRuntime) -> Result<(), Fail> {
    let pair = secrets(rt.alloc())?;
    let mut waiting = phase(Some(Method::Pap));
    let _begun = waiting.begin(0, &pair);
    let again = waiting.tick(3000);
    assert_eq!(rt; again.packets.as_slice().len(), 1);
    let _tick = waiting.tick(59_999);
    assert!(rt; matches!(waiting.outcome(), AuthNow::Going));
    let _tick = waiting.tick(60_000);
    assert!(rt; matches!(waiting.outcome(), AuthNow::PeerFailed));
    Ok(())
}

#[test]
fn nothing_before_the_beginning(rt: HostRuntime) -> Result<(), Fail> {
    let pair = secrets(rt.alloc())?;
    let mut early = phase(Some(Method::Pap));
    let request = packet(1, 5, b"\x03bob\x03two");
    let heard = early.heard(protocol::PAP, &request, 0, &pair);
    assert!(rt; heard.packets.as_slice().is_empty() && heard.peer_passed.is_none());
    let ticked = early.tick(70_000);
    assert!(rt; ticked.packets.as_slice().is_empty());
    assert!(rt; matches!(early.outcome(), AuthNow::Going));
    let begun = early.begin(70_001, &pair);
    assert_eq!(rt; begun.packets.as_slice().len(), 1);
    let passed = early.heard(protocol::PAP, &request, 70_002, &pair);
    assert!(rt; passed.peer_passed == Some(name("bob")));
    Ok(())
}

#[test]
fn it_begins_once(rt: HostRuntime) -> Result<(), Fail> {
    let pair = secrets(rt.alloc())?;
    let mut twice = phase(Some(Method::Pap));
    let _begun = twice.begin(0, &pair);
    let again = twice.begin(30_000, &pair);
    assert!(rt; again.packets.as_slice().is_empty());
    let _tick = twice.tick(60_000);
    assert!(rt; matches!(twice.outcome(), AuthNow::PeerFailed));
    let late = twice.heard(
        protocol::PAP,
        &packet(1, 5, b"\x03bob\x03two"),
        60_001,
        &pair,
    );
    assert!(rt; late.packets.as_slice().is_empty() && late.peer_passed.is_none());
    assert!(rt; matches!(twice.outcome(), AuthNow::PeerFailed));
    Ok(())
}

#[test]
fn we_alone_are_late(rt: HostRuntime) -> Result<(), Fail> {
    let pair = secrets(rt.alloc())?;
    let mut ours = phase(Some(Method::Pap));
    let request = packet(1, 5, b"\x03bob\x03two");
    let _begun = ours.begin(0, &pair);
    let _passed = ours.heard(protocol::PAP, &request, 1, &pair);
    let _tick = ours.tick(60_000);
    assert!(rt; matches!(ours.outcome(), AuthNow::WeFailed));
    let again = ours.heard(protocol::PAP, &request, 60_001, &pair);
    assert!(rt; is_one(&again.packets, protocol::PAP, &packet(2, 5, &[0])));
    assert!(rt; again.peer_passed.is_none());
    Ok(())
}

#[test]
fn the_judges_packet_first(rt: HostRuntime) -> Result<(), Fail> {
    let pair = secrets(rt.alloc())?;
    let methods = agreed(Some(Method::Chap), Some(Method::Pap));
    let mut mixed = AuthPhase::new(&methods, config(Some(name("pw")), None), CHALLENGE);
    let begun = mixed.begin(0, &pair);
    let sent = begun.packets.as_slice();
    assert!(rt; sent.len() == 2);
    assert!(rt; sent[0].protocol == protocol::CHAP && sent[0].packet.code == 1);
    assert!(rt; sent[1].protocol == protocol::PAP);
    assert!(rt; sent[1].packet == packet(1, 1, b"\x02us\x02pw"));
    Ok(())
}

#[test]
fn the_options_secret_and_server(rt: HostRuntime) -> Result<(), Fail> {
    let pair = SecretsPair {
        pap: Secrets::read(rt.alloc(), b"us isp mine *\n")?,
        chap: Secrets::read(rt.alloc(), b"")?,
    };
    let by_name = agreed(None, Some(Method::Pap));
    let mut named = AuthPhase::new(&by_name, config(None, Some(name("isp"))), CHALLENGE);
    let begun = named.begin(0, &pair);
    assert!(rt;
        is_one(
            &begun.packets,
            protocol::PAP,
            &packet(1, 1, b"\x02us\x04mine")
        )
    );
    let by_option = agreed(None, Some(Method::Chap));
    let mut owned = AuthPhase::new(&by_option, config(Some(name("pw")), None), CHALLENGE);
    let _begun = owned.begin(0, &pair);
    let challenge = Packet {
        code: 1,
        id: 9,
        body: valued(&[1, 2, 3], "peer"),
    };
    let answered = owned.heard(protocol::CHAP, &challenge, 1, &pair);
    let answer = Packet {
        code: 2,
        id: 9,
        body: valued(&BY_OPTION, "us"),
    };
    assert!(rt; is_one(&answered.packets, protocol::CHAP, &answer));
    Ok(())
}

#[test]
fn nobody_and_no_secret(rt: HostRuntime) -> Result<(), Fail> {
    let none = SecretsPair {
        pap: Secrets::read(rt.alloc(), b"")?,
        chap: Secrets::read(rt.alloc(), b"")?,
    };
    let mut free = phase(None);
    assert!(rt; matches!(free.outcome(), AuthNow::Going));
    let _begun = free.begin(0, &none);
    assert!(rt;
        matches!(
            free.outcome(),
            AuthNow::Passed {
                peer: None,
                allow: Allow::Any
            }
        )
    );
    let mut poor = phase(Some(Method::Pap));
    let _begun = poor.begin(0, &none);
    assert!(rt; matches!(poor.outcome().copy(), AuthNow::WeFailed));
    laws::nothing_before_the_beginning();
    laws::the_sides_decide();
    laws::waiting_too_long_loses();
    laws::each_pair_of_methods_ends_in_each_way();
    laws::the_peer_passes_once();
    laws::outcomes_stay();
    laws::sixty_seconds_at_most();
    Ok(())
}
