ghost use Rattle.std.specs.Prelude.{◌≡◌, ◌++◌, ◌∷◌, [], ◌/◌, ◌%◌, IfOk, OnOk};
ghost use Rattle.ppp_base.specs.Hex.{lower_digit};
ghost use Rattle.std.specs.Fmt.{decimal};
ghost use Rattle.ppp_hdlc.specs.Encoding.{encoding};
ghost use Rattle.ppp_trace.specs.MadeTrace.{hex_text, plain};

use circular_buffer::HeapCircularBuffer;
use itoa::Buffer;
use ppp_base::{NoMemory, SendSettings, hex_digit};
use ppp_hdlc::frame_into;
use std::alloc::Global;

// Room for each frame of a made trace.
const FRAME_ROOM: usize = 256;

/// A number between words.
pub fn with_number(
    alloc: Global,
    before: &[u8],
    number: u64,
    behind: &[u8],
) -> Result<Vec<u8>, NoMemory>
    ensures { IfOk result (λ line. line.items ≡ before.now ++ (decimal number ++ behind.now)) }
{
    let mut buffer = Buffer::new();
    let mut line = Vec::from_slice(alloc, before)?;
    line.extend_from_slice(buffer.format(number).as_bytes())?;
    line.extend_from_slice(behind)?;
    Ok(line)
}

// Adds the two digits of an octet.
fn add_octet(line: &mut Vec<u8>, octet: u8) -> Result<(), NoMemory>
    ensures { OnOk result (line.new.items ≡ line.old.items ++ (lower_digit (octet / 16) ∷ lower_digit (octet % 16) ∷ [])) }
{
    let digits = [hex_digit(octet / 16), hex_digit(octet % 16)];
    line.extend_from_slice(digits.as_slice())?;
    Ok(())
}

/// Octets as hexadecimal digits behind words.
pub fn with_hex(words: Vec<u8>, octets: &[u8]) -> Result<Vec<u8>, NoMemory>
    ensures { IfOk result (λ line. line.items ≡ words.items ++ hex_text octets.now) }
{
    let mut line = words;
    for octet in octets {
        add_octet(&mut line, *octet)?;
    }
    Ok(line)
}

/// A frame as it is sent before anything is agreed on.
pub fn framed(alloc: Global, protocol: u16, information: &[u8]) -> Result<Vec<u8>, NoMemory>
    ensures { IfOk result (λ frame. frame.items ≡ encoding plain protocol information.now) }
{
    let mut ring = HeapCircularBuffer::with_capacity(alloc, FRAME_ROOM)?;
    if !frame_into(&SendSettings::plain(), protocol, information, &mut ring) {
        return Err(NoMemory);
    }
    Ok(ring.to_vec(alloc)?)
}
