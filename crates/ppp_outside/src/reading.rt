ghost use Rattle.std.specs.Prelude.{◌≡◌, ◌+◌, ◌≤◌, IfOk, OnErr};
ghost use Rattle.ppp_outside.specs.Reading.{Reads};

use crate::source::{Got, Source};
use ppp_base::NoMemory;
use std::alloc::Global;

/// How many octets are asked for at once.
const PIECE: usize = 65_536;

/// What a source held.
#[derive(Drop)]
pub enum Whole {
    /// These octets.
    Octets(Vec<u8>),
    /// More than the limit: these at its beginning, one more than the limit.
    TooLong(Vec<u8>),
    /// The source failed.
    Failed,
}

/// Reads a source to its end, or one octet further than the limit.
pub fn read_whole<I: Source>(alloc: Global, input: &mut I, limit: u32) -> Result<Whole, NoMemory>
    ensures bounded { (I.state input.new).taken ≤ (I.state input.old).taken + limit + 1 }
    ensures ok { IfOk result (Reads limit (I.state input.old) (I.state input.new)) }
    ensures err { OnErr result ((I.state input.new).faults ≡ (I.state input.old).faults) }
{
    let most = limit as usize;
    let mut octets = Vec::new(alloc);
    let mut buf = [0u8; PIECE];
    'reading: while octets.len() <= most {
        let room = (most + 1 - octets.len()).min(PIECE);
        match input.read(&mut buf[..room]) {
            Got::Got(count) => octets.extend_from_slice(&buf[..count])?,
            Got::End => return Ok(Whole::Octets(octets)),
            Got::Failed => return Ok(Whole::Failed),
        }
    }
    Ok(Whole::TooLong(octets))
}
