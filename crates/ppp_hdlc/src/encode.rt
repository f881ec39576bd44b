ghost use Rattle.std.specs.Prelude.{◌≡◌, ◌+◌, ◌-◌, ◌*◌, ◌≤◌, ◌<◌, ◌↔◌, [], ◌∷◌, ◌++◌, length, take, IsTrue, SomeIff};
ghost use Rattle.std.specs.Bool.{OnTrue, OnFalse};
ghost use Rattle.circular_buffer.specs.Buffer.{buffer};
ghost use Rattle.ppp_hdlc.specs.Encoding.{encoding, enclosed, flagged, fcs_octets, escaped, escape, settings_for, address, protocol_field};

use crate::checksum::{FIRST, register_behind};
use crate::octets::{ESCAPE, ESCAPE_BIT, FLAG, must_escape};
use crate::room::Room;
use arrayvec::ArrayVec;
use circular_buffer::HeapCircularBuffer;
use ppp_base::protocol::LCP;
use ppp_base::{MOST_FRAME, SendSettings};

// How many octets are escaped at a time: twice as many and sixteen more fill a room.
const PIECE: usize = 746;

/// Appends a frame with this protocol and information, or nothing where it doesn't fit. Link control's
/// packets of the codes 1 to 7 are written in the plain way, whatever the settings say. A frame above
/// 1,508 octets is written all the same, and no receiver of this crate takes it.
pub fn frame_into(
    settings: &SendSettings,
    protocol: u16,
    information: &[u8],
    out: &mut HeapCircularBuffer<u8>,
) -> bool
    ensures fits { IsTrue result ↔ (length out.old.items + length (encoding settings.now protocol information.now) ≤ out.old.capacity) }
    ensures framed { OnTrue result (out.new ≡ buffer (out.old.items ++ encoding settings.now protocol information.now) out.old.capacity) }
    ensures refused { OnFalse result (out.new ≡ out.old) }
{
    enclose(
        settings_at(settings, protocol, information),
        protocol,
        information,
        out,
    )
}

// The settings that count for this frame.
fn settings_at(settings: &SendSettings, protocol: u16, information: &[u8]) -> SendSettings
    ensures { result ≡ settings_for settings.now protocol information.now }
{
    match information {
        [code, ..] if protocol == LCP && 0 < *code && *code < 8 => SendSettings::plain(),
        _ => *settings,
    }
}

// Appends a frame under just these settings, where it fits.
fn enclose(
    settings: SendSettings,
    protocol: u16,
    information: &[u8],
    out: &mut HeapCircularBuffer<u8>,
) -> bool
    ensures fits { IsTrue result ↔ (length out.old.items + length (enclosed settings protocol information.now) ≤ out.old.capacity) }
    ensures framed { OnTrue result (out.new ≡ buffer (out.old.items ++ enclosed settings protocol information.now) out.old.capacity) }
    ensures refused { OnFalse result (out.new ≡ out.old) }
{
    let front = front_of(settings, protocol);
    let back = back_of(front.as_slice(), information);
    let free = out.capacity() - out.len();
    if !has_room(free, settings.map, front.as_slice(), information, &back) {
        return false;
    }
    write(settings.map, front.as_slice(), information, &back, out);
    true
}

// The check sum of these octets, as it is sent: the low octet first.
fn back_of(front: &[u8], information: &[u8]) -> [u8; 2]
    ensures { result ≡ fcs_octets (front.now ++ information.now) }
{
    let fcs = !register_behind(register_behind(FIRST, front), information);
    [(fcs % 256) as u8, (fcs / 256) as u8]
}

// Writes these octets, escaped, between two flags.
fn write(map: u32, front: &[u8], information: &[u8], back: &[u8], out: &mut HeapCircularBuffer<u8>)
    requires { length out.old.items + length (flagged map ((front.now ++ information.now) ++ back.now)) ≤ out.old.capacity }
    ensures { out.new ≡ buffer (out.old.items ++ flagged map ((front.now ++ information.now) ++ back.now)) out.old.capacity }
{
    push(FLAG, out);
    push_few(map, front, out);
    push_escaped(map, information, out);
    push_few(map, back, out);
    push(FLAG, out);
}

// Address and control, where they are sent, and the protocol.
fn front_of(settings: SendSettings, protocol: u16) -> ArrayVec<u8, 4>
    ensures { result.items ≡ address settings protocol ++ protocol_field settings protocol }
{
    let mut front = ArrayVec::new();
    if !settings.acfc || protocol == LCP {
        front.push(0xff);
        front.push(0x03);
    }
    if settings.pfc && protocol < 0x100 {
        front.push(protocol as u8);
    } else {
        front.push((protocol / 256) as u8);
        front.push((protocol % 256) as u8);
    }
    front
}

// Whether two flags and these octets, escaped, fit in so much room.
fn has_room(free: usize, map: u32, front: &[u8], information: &[u8], back: &[u8]) -> bool
    ensures { IsTrue result ↔ (length (flagged map ((front.now ++ information.now) ++ back.now)) ≤ free) }
{
    let Some(room) = free.checked_sub(2) else {
        return false;
    };
    if fits_doubled(room, front.len() + back.len(), information.len()) {
        return true;
    }
    let Some(room) = room_after(room, map, front) else {
        return false;
    };
    let Some(room) = room_after(room, map, information) else {
        return false;
    };
    room_after(room, map, back).is_some()
}

// Whether so many octets fit even where each is escaped.
fn fits_doubled(room: usize, few: usize, many: usize) -> bool
    ensures { IsTrue result → 2 * (few + many) ≤ room }
{
    let most = room / 2;
    few <= most && many <= most - few
}

// The room that these octets, escaped, leave, where they fit.
fn room_after(room: usize, map: u32, octets: &[u8]) -> Option<usize>
    ensures { SomeIff result (length (escaped map octets.now) ≤ room) (room - length (escaped map octets.now)) }
{
    let mut left = room;
    for octet in octets {
        let needed = width_of(map, *octet);
        if left < needed {
            return None;
        }
        left -= needed;
    }
    Some(left)
}

// How many octets are written for this one.
fn width_of(map: u32, octet: u8) -> usize
    ensures { result ≡ length (escape map octet) }
{
    if must_escape(map, octet) { 2 } else { 1 }
}

// Appends these octets, escaped, in pieces that fit a room of sixteens.
fn push_escaped(map: u32, octets: &[u8], out: &mut HeapCircularBuffer<u8>)
    requires { length out.old.items + length (escaped map octets.now) ≤ out.old.capacity }
    ensures { out.new ≡ buffer (out.old.items ++ escaped map octets.now) out.old.capacity }
{
    let mut room = Room::new();
    let mut at = 0;
    while at < octets.len() {
        let end = octets.len().min(at + PIECE);
        escape(map, &octets[at..end], &mut room);
        append(room.as_slice(), out);
        at = end;
    }
}

// Leaves these octets, escaped, in a room.
fn escape(map: u32, octets: &[u8], room: &mut Room)
    requires { length octets.now ≤ 746 }
    ensures { room.new ≡ escaped map octets.now }
{
    let at = room.put_escaped(map, octets);
    escape_rest(map, octets, at, room);
}

// Writes the octets from a place on, one at a time.
fn escape_rest(map: u32, octets: &[u8], from: usize, room: &mut Room)
    requires few { length octets.now ≤ 746 }
    requires within { from ≤ length octets.now }
    requires written { room.old ≡ escaped map (take from octets.now) }
    ensures { room.new ≡ escaped map octets.now }
{
    let mut at = from;
    while at < octets.len() {
        escape_octet(map, octets[at], room);
        at += 1;
    }
}

// Writes one octet, escaped where it must be.
#[inline]
fn escape_octet(map: u32, octet: u8, room: &mut Room)
    requires { length room.old + 2 ≤ MOST_FRAME }
    ensures { room.new ≡ room.old ++ escape map octet }
{
    if must_escape(map, octet) {
        room.push(ESCAPE);
        room.push(octet ^ ESCAPE_BIT);
    } else {
        room.push(octet);
    }
}

// Appends these octets as they are.
fn append(octets: &[u8], out: &mut HeapCircularBuffer<u8>)
    requires { length out.old.items + length octets.now ≤ out.old.capacity }
    ensures { out.new ≡ buffer (out.old.items ++ octets.now) out.old.capacity }
{
    let _ = out.fill_from_slice(octets);
}

// Appends a few octets, escaped.
fn push_few(map: u32, octets: &[u8], out: &mut HeapCircularBuffer<u8>)
    requires { length out.old.items + length (escaped map octets.now) ≤ out.old.capacity }
    ensures { out.new ≡ buffer (out.old.items ++ escaped map octets.now) out.old.capacity }
{
    for octet in octets {
        push_octet(map, *octet, out);
    }
}

// Appends one octet, escaped where it must be.
fn push_octet(map: u32, octet: u8, out: &mut HeapCircularBuffer<u8>)
    requires { length out.old.items + length (escape map octet) ≤ out.old.capacity }
    ensures { out.new ≡ buffer (out.old.items ++ escape map octet) out.old.capacity }
{
    if must_escape(map, octet) {
        push(ESCAPE, out);
        push(octet ^ ESCAPE_BIT, out);
    } else {
        push(octet, out);
    }
}

// Appends one octet as it is.
fn push(octet: u8, out: &mut HeapCircularBuffer<u8>)
    requires { length out.old.items < out.old.capacity }
    ensures { out.new ≡ buffer (out.old.items ++ octet ∷ []) out.old.capacity }
{
    let _ = out.try_push_back(octet);
}
