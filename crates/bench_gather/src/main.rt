//! Gathers a history of multilink pieces from standard input, and prints the packets' number, octets and CRC-32 and the
//! counts, in the form of the yardstick that `bench/gather.sh` times it against. It is not shipped.
//!
//! A history is our MRRU in two octets, and then `1 M` where member M joins, `2 M` where it leaves, and `3 M L L` with L
//! octets of a piece's information that it brings; numbers are big-endian.
#![tactic(auto)]

ghost use Rattle.std.specs.Prelude.{◌≤◌, length, IfSome};

mod sum;

use ppp_base::{LEAST_MRRU, LinkId, MOST_FRAME, MOST_MRRU};
use ppp_mp::{Gather, Given};
use ppp_outside::{FromReader, Whole, read_whole};
use std::io;
use std::process::ExitCode;
use std::rt::Runtime;
use sum::Sum;

/// The most octets of a history.
const MOST: u32 = 1 << 30;

fn main(rt: HostRuntime) -> ExitCode {
    match run(&rt) {
        Ok(true) => ExitCode::SUCCESS,
        _ => ExitCode::FAILURE,
    }
}

// False where the input is no history.
fn run(rt: &(impl Runtime + AllocGlobal)) -> io::Result<bool> {
    let mut input = FromReader::new(rt.reader());
    let Ok(Whole::Octets(history)) = read_whole(rt.alloc(), &mut input, MOST) else {
        return Ok(false);
    };
    let [high, low, entries @ ..] = history.as_slice() else {
        return Ok(false);
    };
    let mrru = u16::from(*high) * 256 + u16::from(*low);
    if !(LEAST_MRRU..=MOST_MRRU).contains(&mrru) {
        return Ok(false);
    }
    let mut gather = Gather::new(rt.alloc(), mrru).map_err(|_| io::ErrorKind::OutOfMemory)?;
    let mut given = Given::new(rt.alloc()).map_err(|_| io::ErrorKind::OutOfMemory)?;
    let mut sum = Sum::new();
    if !gathered(entries, &mut gather, &mut given, &mut sum) {
        return Ok(false);
    }
    let counts = gather.counts();
    println!(rt;
        "packets {} octets {} old {} doubled {} lost {} too_long {} crc {:08x}",
        sum.packets(),
        sum.octets(),
        counts.old,
        counts.doubled,
        counts.lost,
        counts.too_long,
        sum.crc()
    )?;
    Ok(true)
}

// Takes each entry. False where there is one that is none.
fn gathered(entries: &[u8], gather: &mut Gather, given: &mut Given, sum: &mut Sum) -> bool {
    let mut left = entries;
    'reading: while let [what, member, rest @ ..] = left {
        let Some(link) = LinkId::new(*member) else {
            return false;
        };
        left = rest;
        match *what {
            1 => gather.join(link),
            2 => {
                gather.leave(link, given);
                sum.take_all(given);
            }
            3 => {
                let Some((information, others)) = information_of(rest) else {
                    return false;
                };
                left = others;
                gather.piece(link, information, given);
                sum.take_all(given);
            }
            _ => return false,
        }
    }
    left.is_empty()
}

// The information of a piece, and what follows it.
fn information_of(octets: &[u8]) -> Option<(&[u8], &[u8])>
    ensures within { IfSome result (λ found. length found.0.now ≤ 1508) }
    ensures less { IfSome result (λ found. length found.1.now ≤ length octets.now) }
{
    let [high, low, rest @ ..] = octets else {
        return None;
    };
    let length = usize::from(*high) * 256 + usize::from(*low);
    if MOST_FRAME < length {
        return None;
    }
    rest.split_at_checked(length)
}
