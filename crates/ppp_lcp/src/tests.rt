ghost use Rattle.std.specs.Prelude.{◌≤◌, ◌^◌};

use crate::{Lcp, LcpOut, LcpWish, Verdict, verdict};
use ppp_base::Frame;
use ppp_fsm::Limits;
use ppp_packet::{Options, Packet};
use std::test::Fail;

// The state from which the generator's next word is 11223344 in hexadecimal.
const WORDS: u64 = 16761096584570294293;

// LCP in Starting, with the default options.
fn starting() -> Lcp {
    let wish = LcpWish {
        mru: 1500,
        map: 0,
        default_map: false,
        magic: true,
        pfc: true,
        acfc: true,
        multilink: false,
        mrru: 1500,
        disc: None,
        want_pap: false,
        want_chap: false,
        refuse_pap: false,
        refuse_chap: false,
        echo_interval_s: 30,
        echo_failure: 1,
        restart_s: 3,
        limits: Limits {
            configure: 10,
            terminate: 3,
        },
        max_failure: 10,
    };
    let mut lcp = Lcp::new(wish, WORDS);
    let _ = lcp.open(0);
    lcp
}

// Whether one packet is sent, which is these octets.
fn sends(out: &LcpOut, octets: &[u8]) -> bool {
    let packets = out.packets.as_slice();
    let mut frame = Frame::new();
    packets.len() == 1 && packets[0].write(&mut frame) && frame.as_slice() == octets
}

fn heard(lcp: &mut Lcp, octets: &[u8], now: u64) -> Result<LcpOut, Fail>
    requires { now ≤ 2 ^ 56 }
{
    let packet = Packet::read(octets).map_err(|_| "packet")?;
    Ok(lcp.heard(&packet, now))
}

const ASKED: [u8; 20] = [
    1, 1, 0, 0x14, 2, 6, 0, 0, 0, 0, 5, 6, 0x11, 0x22, 0x33, 0x44, 7, 2, 8, 2,
];

const ACKED: [u8; 20] = [
    2, 1, 0, 0x14, 2, 6, 0, 0, 0, 0, 5, 6, 0x11, 0x22, 0x33, 0x44, 7, 2, 8, 2,
];

#[test]
fn asks_and_answers(rt: HostRuntime) -> Result<(), Fail> {
    let mut lcp = starting();
    assert!(rt; sends(&lcp.up(0), &ASKED));
    let rows: [(&[u8], &[u8]); 6] = [
        (
            &[1, 5, 0, 0x0b, 1, 4, 0, 0x40, 0x0d, 3, 0],
            &[4, 5, 0, 7, 0x0d, 3, 0],
        ),
        (&[1, 6, 0, 8, 1, 4, 0, 0x40], &[3, 6, 0, 8, 1, 4, 0, 0x80]),
        (&[1, 9, 0, 8, 1, 4, 5, 0], &[2, 9, 0, 8, 1, 4, 5, 0]),
        (&[1, 10, 0, 6, 7, 2], &[2, 10, 0, 6, 7, 2]),
        (&[12, 3, 0, 4], &[7, 2, 0, 8, 12, 3, 0, 4]),
        (&[5, 4, 0, 4], &[6, 4, 0, 4]),
    ];
    for (octets, answer) in rows {
        let out = heard(&mut lcp, octets, 1)?;
        assert!(rt; sends(&out, answer));
    }
    Ok(())
}

#[test]
fn asks_again_after_three_seconds(rt: HostRuntime) -> Result<(), Fail> {
    let mut lcp = starting();
    let _ = lcp.up(0);
    assert!(rt; lcp.tick(2999).packets.as_slice().is_empty());
    assert!(rt; sends(&lcp.tick(3000), &ASKED));
    let _ = lcp.close(3001);
    let _ = lcp.down(3002);
    assert!(rt; lcp.agreed().is_none());
    Ok(())
}

#[test]
fn opens_and_looks_for_the_peer(rt: HostRuntime) -> Result<(), Fail> {
    let mut lcp = starting();
    let _ = lcp.up(0);
    let _ = heard(&mut lcp, &[1, 9, 0, 8, 1, 4, 5, 0], 1)?;
    assert!(rt; lcp.agreed().is_none());
    let _ = heard(&mut lcp, &ACKED, 2)?;
    let agreed = lcp.agreed().ok_or("not open")?;
    assert_eq!(rt; agreed.peer_mru, 1280);
    assert_eq!(rt; agreed.receive_map, 0);
    assert_eq!(rt; agreed.send.map, 0xffff_ffff);
    let rejected = lcp.reject(0x80fd, &[1, 1, 0, 4]);
    assert!(rt; sends(&rejected, &[8, 2, 0, 0x0a, 0x80, 0xfd, 1, 1, 0, 4]));
    let echo = lcp.tick(30002);
    assert!(rt; sends(&echo, &[9, 3, 0, 8, 0x11, 0x22, 0x33, 0x44]));
    assert_eq!(rt; lcp.tick(60002).unanswered, 1);
    let refused = heard(&mut lcp, &[8, 1, 0, 10, 0x80, 0x21, 1, 1, 0, 4], 60003)?;
    assert!(rt; refused.network_refused == Some(0x8021));
    Ok(())
}

#[test]
fn answers_by_the_table(rt: HostRuntime) -> Result<(), Fail> {
    let lcp = starting();
    let request = Options::read(&[5, 6, 0, 0, 0, 0]).map_err(|_| "options")?;
    match verdict(&request, &lcp.wish, 5, 9, 0) {
        Verdict::Nak(items) => {
            assert!(rt; items.as_slice() == [5, 6, 0, 0, 0, 9].as_slice());
            Ok(())
        }
        _ => Err("no Nak")?,
    }
}

#[test]
fn our_own_magic_number(rt: HostRuntime) -> Result<(), Fail> {
    let mut lcp = starting();
    let _ = lcp.up(0);
    let long = [1, 7, 0, 0x0b, 5, 7, 0x11, 0x22, 0x33, 0x44, 0];
    assert_eq!(rt; heard(&mut lcp, &long, 1)?.loops, 0);
    let own = [1, 8, 0, 0x0a, 5, 6, 0x11, 0x22, 0x33, 0x44];
    assert_eq!(rt; heard(&mut lcp, &own, 2)?.loops, 1);
    Ok(())
}
