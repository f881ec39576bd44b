ghost use Rattle.std.specs.Prelude.{◌≤◌};

use crate::{Addresses, IpWish, Ipcp, IpcpOut};
use ppp_base::{Allow, Frame};
use ppp_fsm::Limits;
use ppp_packet::Packet;
use ppp_secrets::{Secrets, SecretsPair};
use std::alloc::Global;
use std::test::Fail;

// IPCP in Req-Sent, with its first request.
fn asking(local: [u8; 4], remote: Option<[u8; 4]>, accept: bool, max_failure: u8) -> Ipcp
    requires { 1 ≤ max_failure }
{
    let mut ipcp = Ipcp::new(IpWish {
        local,
        remote,
        accept_local: accept,
        accept_remote: accept,
        restart_s: 3,
        limits: Limits {
            configure: 10,
            terminate: 3,
        },
        max_failure,
    });
    let _ = ipcp.open(0);
    let _ = ipcp.up(0);
    ipcp
}

// The first line of PAP's secrets allows 10.0.0.0/8, and that of CHAP's 11.0.0.0/8.
fn pair(alloc: Global) -> Result<SecretsPair, Fail> {
    let pap = Secrets::read(alloc, b"a b c 10.0.0.0/8".as_slice());
    let chap = Secrets::read(alloc, b"a b c 11.0.0.0/8".as_slice());
    Ok(SecretsPair {
        pap: pap.ok().ok_or("lawful")?,
        chap: chap.ok().ok_or("lawful")?,
    })
}

// Whether one packet is sent, which is these octets; or none, where there are none.
fn sends(out: &IpcpOut, octets: &[u8]) -> bool {
    let mut frame = Frame::new();
    match out.packets.as_slice() {
        [] => octets.is_empty(),
        [packet] => packet.write(&mut frame) && frame.as_slice() == octets,
        _ => false,
    }
}

// What is heard, which addresses the peer may have, and what is sent.
type Row<'a> = (&'a [u8], Allow, &'a [u8]);

fn is_row(ipcp: &mut Ipcp, secrets: &SecretsPair, row: Row<'_>) -> Result<bool, Fail> {
    let (octets, allow, sent) = row;
    let packet = Packet::read(octets).map_err(|_| "packet")?;
    Ok(sends(&ipcp.heard(&packet, 1, secrets, &allow, 128), sent))
}

fn are_rows(ipcp: &mut Ipcp, secrets: &SecretsPair, rows: &[Row<'_>]) -> Result<bool, Fail> {
    for row in rows {
        if !is_row(ipcp, secrets, *row)? {
            return Ok(false);
        }
    }
    Ok(true)
}

#[test]
fn names_the_wished_address(rt: HostRuntime) -> Result<(), Fail> {
    let secrets = pair(rt.alloc())?;
    let mut ipcp = asking([10, 0, 0, 1], Some([10, 0, 0, 2]), false, 10);
    let rows: [Row<'_>; 6] = [
        (
            &[1, 1, 0, 10, 3, 6, 10, 0, 0, 2],
            Allow::Any,
            &[2, 1, 0, 10, 3, 6, 10, 0, 0, 2],
        ),
        (
            &[1, 1, 0, 10, 3, 6, 0, 0, 0, 0],
            Allow::Any,
            &[3, 1, 0, 10, 3, 6, 10, 0, 0, 2],
        ),
        (&[1, 3, 0, 4], Allow::Any, &[2, 3, 0, 4]),
        (
            &[1, 4, 0, 10, 3, 6, 10, 0, 0, 2],
            Allow::Chap(1),
            &[3, 4, 0, 10, 3, 6, 10, 0, 0, 2],
        ),
        (
            &[1, 5, 0, 16, 2, 6, 0, 0x2d, 15, 1, 3, 6, 10, 0, 0, 9],
            Allow::Any,
            &[4, 5, 0, 10, 2, 6, 0, 0x2d, 15, 1],
        ),
        (
            &[1, 6, 0, 9, 3, 5, 10, 0, 0],
            Allow::Any,
            &[4, 6, 0, 9, 3, 5, 10, 0, 0],
        ),
    ];
    assert!(rt; are_rows(&mut ipcp, &secrets, &rows)?);
    Ok(())
}

#[test]
fn allows_by_lines(rt: HostRuntime) -> Result<(), Fail> {
    let secrets = pair(rt.alloc())?;
    let mut ipcp = asking([0, 0, 0, 0], None, false, 10);
    let rows: [Row<'_>; 5] = [
        (
            &[1, 1, 0, 10, 3, 6, 11, 0, 0, 1],
            Allow::Pap(1),
            &[4, 1, 0, 10, 3, 6, 11, 0, 0, 1],
        ),
        (
            &[1, 2, 0, 10, 3, 6, 10, 0, 0, 1],
            Allow::Pap(1),
            &[2, 2, 0, 10, 3, 6, 10, 0, 0, 1],
        ),
        (
            &[1, 3, 0, 10, 3, 6, 11, 0, 0, 1],
            Allow::Chap(1),
            &[2, 3, 0, 10, 3, 6, 11, 0, 0, 1],
        ),
        (
            &[1, 4, 0, 10, 3, 6, 11, 0, 0, 1],
            Allow::Any,
            &[2, 4, 0, 10, 3, 6, 11, 0, 0, 1],
        ),
        (
            &[1, 5, 0, 10, 3, 6, 0, 0, 0, 0],
            Allow::Any,
            &[4, 5, 0, 10, 3, 6, 0, 0, 0, 0],
        ),
    ];
    assert!(rt; are_rows(&mut ipcp, &secrets, &rows)?);
    Ok(())
}

#[test]
fn takes_other_addresses(rt: HostRuntime) -> Result<(), Fail> {
    let secrets = pair(rt.alloc())?;
    let mut ipcp = asking([10, 0, 0, 1], Some([10, 0, 0, 2]), true, 1);
    let rows: [Row<'_>; 5] = [
        (
            &[1, 1, 0, 10, 3, 6, 10, 0, 0, 3],
            Allow::Pap(1),
            &[2, 1, 0, 10, 3, 6, 10, 0, 0, 3],
        ),
        (
            &[1, 2, 0, 10, 3, 6, 11, 0, 0, 2],
            Allow::Pap(1),
            &[3, 2, 0, 10, 3, 6, 10, 0, 0, 2],
        ),
        (
            &[1, 3, 0, 10, 3, 6, 11, 0, 0, 2],
            Allow::Pap(1),
            &[4, 3, 0, 10, 3, 6, 11, 0, 0, 2],
        ),
        (
            &[3, 1, 0, 10, 3, 6, 10, 0, 0, 9],
            Allow::Any,
            &[1, 2, 0, 10, 3, 6, 10, 0, 0, 9],
        ),
        (&[4, 2, 0, 10, 3, 6, 10, 0, 0, 9], Allow::Any, &[1, 3, 0, 4]),
    ];
    assert!(rt; are_rows(&mut ipcp, &secrets, &rows)?);
    Ok(())
}

#[test]
fn keeps_our_address(rt: HostRuntime) -> Result<(), Fail> {
    let secrets = pair(rt.alloc())?;
    let mut ipcp = asking([10, 0, 0, 1], Some([10, 0, 0, 2]), false, 10);
    let rows: [Row<'_>; 4] = [
        (
            &[3, 1, 0, 10, 3, 6, 10, 0, 0, 9],
            Allow::Any,
            &[1, 2, 0, 10, 3, 6, 10, 0, 0, 1],
        ),
        (&[4, 2, 0, 10, 3, 6, 10, 0, 0, 1], Allow::Any, &[1, 3, 0, 4]),
        (&[1, 7, 0, 4], Allow::Any, &[2, 7, 0, 4]),
        (&[8, 9, 0, 4], Allow::Any, &[7, 4, 0, 8, 8, 9, 0, 4]),
    ];
    assert!(rt; are_rows(&mut ipcp, &secrets, &rows)?);
    assert!(rt; ipcp.agreed().is_none());
    assert_eq!(rt; ipcp.state(), 8);
    assert!(rt; is_row(&mut ipcp, &secrets, (&[2, 3, 0, 4], Allow::Any, &[]))?);
    let agreed = Addresses {
        local: [10, 0, 0, 1],
        remote: [10, 0, 0, 2],
    };
    assert!(rt; ipcp.agreed() == Some(agreed));
    assert!(rt;
        is_row(
            &mut ipcp,
            &secrets,
            (&[5, 4, 0, 4], Allow::Any, &[6, 4, 0, 4])
        )?
    );
    assert!(rt; ipcp.agreed().is_none());
    let _ = ipcp.down(2);
    Ok(())
}

#[test]
fn asks_again_after_three_seconds(rt: HostRuntime) {
    let mut ipcp = asking([10, 0, 0, 1], None, false, 10);
    assert!(rt; ipcp.deadline() == Some(3000));
    assert!(rt; sends(&ipcp.tick(2999), &[]));
    assert!(rt; sends(&ipcp.tick(3000), &[1, 1, 0, 10, 3, 6, 10, 0, 0, 1]));
}

#[test]
fn cuts_a_code_reject(rt: HostRuntime) -> Result<(), Fail> {
    let secrets = pair(rt.alloc())?;
    let mut ipcp = asking([10, 0, 0, 1], None, false, 10);
    let mut long = [0u8; 200];
    long[0] = 9;
    long[3] = 200;
    let packet = Packet::read(&long).map_err(|_| "packet")?;
    let out = ipcp.heard(&packet, 1, &secrets, &Allow::Any, 128);
    let packet = out.packets.as_slice().first().ok_or("a packet")?;
    assert_eq!(rt; packet.code, 7);
    assert!(rt; packet.body.as_slice() == &long[..124]);
    Ok(())
}
