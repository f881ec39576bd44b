ghost use Rattle.std.specs.Prelude.{◌≡◌, ◌≢◌, ℕ, ◌-◌, ◌<◌, ◌≤◌, ◌==◌, Bool, if◌then◌else◌, List, [], ◌∷◌, ◌++◌, length, map, filter, take, slice_index, option_map, IfOk, IfSome};
ghost use Rattle.ppp_hdlc.specs.Frames.{Received, Frames, answer, protocol_of, without_address, told, told_of, stamped};
ghost use Rattle.ppp_hdlc.specs.Octets.{is_flag};
ghost use Rattle.ppp_hdlc.specs.Deframing.{StandsFor, fresh, kept, fed, judged, heard_at};
ghost use Rattle.ppp_hdlc.specs.Spans.{IsSpan, Takes, fed_all};

use crate::checksum::residue_of;
use crate::fault::FrameFault;
use crate::heard::{Heard, Span};
use crate::octets::{ESCAPE, ESCAPE_BIT, FLAG, is_mapped};
use crate::room::{ROOM, Room};
use ppp_base::{DEFAULT_MAP, Frame, MOST_FRAME, NoMemory};
use std::alloc::Global;
use std::marker::Model;

/// The least number of octets in a frame: a protocol, an information and the check sum.
const LEAST_FRAME: usize = 4;

/// What octets with a right check sum behind them leave.
const GOOD_RESIDUE: u16 = 0xf0b8;

/// Finds the frames in a stream of octets. Its room is taken when it is made.
#[derive(Drop)]
pub struct Deframer {
    map: u32,
    octets: Box<Room>,
    is_over: bool,
    is_escaping: bool,
}

impl Model for Deframer {
    ghost use Rattle.ppp_hdlc.specs.Deframing.{Deframing};

    ghost Value = { Deframing };

    ghost view = { λ d. record { map = d.map; octets = d.octets.value; is_over = d.is_over; is_escaping = d.is_escaping } };
}

impl Deframer {
    /// At the beginning of a stream, with a receiving map of all ones.
    #[tactic(auto, unfolding(crate::specs::Frames::unescaped, crate::specs::Frames::ends_escaping))]
    pub fn new(alloc: Global) -> Result<Deframer, NoMemory>
        ensures fresh { IfOk result (λ d. d ≡ fresh) }
        ensures stands { IfOk result (λ d. StandsFor d []) }
    {
        let octets = Box::new(alloc, Room::new())?;
        Ok(Deframer {
            map: DEFAULT_MAP,
            octets,
            is_over: false,
            is_escaping: false,
        })
    }

    /// The receiving map for the octets that follow. What has come since the last flag stays.
    pub fn set_map(&mut self, map: u32)
        ensures map { self.new ≡ record self.old { map = map } }
        ensures stands { (stream : List Received) → StandsFor self.old stream → StandsFor self.new stream }
    {
        self.map = map;
    }

    /// Leaves it as `new` makes it, at the beginning of another stream, its map too.
    #[tactic(auto, unfolding(crate::specs::Frames::unescaped, crate::specs::Frames::ends_escaping))]
    pub fn restart(&mut self)
        ensures fresh { self.new ≡ fresh }
        ensures stands { StandsFor self.new [] }
    {
        self.map = DEFAULT_MAP;
        self.clear();
    }

    /// Takes the next octet of the stream. The answer is about the octets since the last flag, and
    /// comes at a flag alone. Octets before the first flag are judged like the others.
    pub fn feed(&mut self, octet: u8) -> Heard
        ensures map { self.new.map ≡ self.old.map }
        ensures stands { (stream : List Received) → StandsFor self.old stream → StandsFor self.new (stream ++ (octet, self.old.map) ∷ []) }
        ensures answer { (stream : List Received) → StandsFor self.old stream →
            Frames (stream ++ (octet, self.old.map) ∷ []) ≡ Frames stream ++ (if is_flag octet then result ∷ [] else []) }
        ensures quiet { octet ≢ 0x7e → result ≡ Heard.Nothing }
        ensures told { (stream : List Received) → StandsFor self.old stream →
            told (stream ++ (octet, self.old.map) ∷ []) ≡ told stream ++ told_of result }
        ensures fed { self.new ≡ fed octet self.old }
        ensures heard { result ≡ heard_at octet self.old }
    {
        let heard = self.answer_at(octet);
        self.take(octet);
        heard
    }

    /// Takes the octets of a piece up to and with the first one that `feed` would answer otherwise than by
    /// Nothing, or else all of them, and answers as `feed` would at the last one taken. An empty piece gives
    /// Nothing.
    pub fn feed_span(&mut self, octets: &[u8]) -> Span
        ensures map { self.new.map ≡ self.old.map }
        ensures stands { (stream : List Received) → StandsFor self.old stream →
            StandsFor self.new (stream ++ stamped self.old.map (take result.used octets.now)) }
        ensures answers { (stream : List Received) → StandsFor self.old stream → 0 < result.used →
            Frames (stream ++ stamped self.old.map (take result.used octets.now)) ≡ (Frames stream ++ map (λ _. Heard.Nothing) (filter is_flag (take (result.used - 1) octets.now))) ++ (if is_flag (slice_index octets.now (result.used - 1)) then result.heard ∷ [] else []) }
        ensures told { (stream : List Received) → StandsFor self.old stream →
            told (stream ++ stamped self.old.map (take result.used octets.now)) ≡ told stream ++ told_of result.heard }
        ensures span { IsSpan octets.now self.old result.used result.heard }
        ensures fed { self.new ≡ fed_all (take result.used octets.now) self.old }
    {
        let mut used = 0;
        while used < octets.len() {
            used = self.take_to_flag(octets, used);
            if used < octets.len() {
                let heard = self.feed(octets[used]);
                used += 1;
                if !heard.is_nothing() {
                    return Span { used, heard };
                }
            }
        }
        Span {
            used,
            heard: Heard::Nothing,
        }
    }

    // Takes the octets from a place on up to the next flag, and says where that is.
    fn take_to_flag(&mut self, octets: &[u8], from: usize) -> usize
        requires { from ≤ length octets.now }
        ensures { Takes octets.now from result self.old self.new }
    {
        let mut at = self.take_runs(octets, from);
        while at < octets.len() && octets[at] != FLAG {
            self.take(octets[at]);
            at = self.take_runs(octets, at + 1);
        }
        at
    }

    // Takes the octets from a place on, sixteen at a time, up to a flag at most, and says how far it came.
    #[inline]
    fn take_runs(&mut self, octets: &[u8], from: usize) -> usize
        requires { from ≤ length octets.now }
        ensures { Takes octets.now from result self.old self.new }
    {
        if self.is_escaping {
            return from;
        }
        self.octets.append_unescaped(self.map, octets, from)
    }

    // What an octet is answered: a flag ends the part.
    #[tactic(auto, unfolding(crate::specs::Deframing::heard_at))]
    fn answer_at(&self, octet: u8) -> Heard
        ensures { result ≡ heard_at octet self.now }
    {
        if octet == FLAG {
            judge(self.octets.as_slice(), self.is_over, self.is_escaping)
        } else {
            Heard::Nothing
        }
    }

    // Begins an empty part.
    fn clear(&mut self)
        ensures { self.new ≡ record fresh { map = self.old.map } }
    {
        self.octets.clear();
        self.is_over = false;
        self.is_escaping = false;
    }

    // Takes an octet. A flag begins an empty part.
    #[inline]
    #[tactic(auto, unfolding(crate::specs::Deframing::fed))]
    fn take(&mut self, octet: u8)
        ensures { self.new ≡ fed octet self.old }
    {
        if octet == FLAG {
            self.clear();
        } else if is_mapped(self.map, octet) {
            // The sender didn't send it.
        } else if self.is_escaping {
            self.is_escaping = false;
            self.keep(octet ^ ESCAPE_BIT);
        } else if octet == ESCAPE {
            self.is_escaping = true;
        } else {
            self.keep(octet);
        }
    }

    // Keeps an octet of the part, while there is room.
    #[inline]
    fn keep(&mut self, octet: u8)
        ensures { self.new ≡ kept octet self.old }
    {
        if self.octets.len() == ROOM {
            self.is_over = true;
        } else {
            self.octets.push(octet);
        }
    }
}

// What a flag behind a part ends.
fn judge(octets: &[u8], is_over: bool, is_escaping: bool) -> Heard
    requires { length octets.now ≤ MOST_FRAME }
    ensures { result ≡ judged octets.now is_over is_escaping }
{
    if is_escaping {
        return Heard::Dropped(FrameFault::Aborted);
    }
    if is_over {
        return Heard::Dropped(FrameFault::TooLong);
    }
    if octets.is_empty() {
        return Heard::Nothing;
    }
    if octets.len() < LEAST_FRAME {
        return Heard::Dropped(FrameFault::Short);
    }
    if residue_of(octets) != GOOD_RESIDUE {
        return Heard::Dropped(FrameFault::BadFcs);
    }
    match content(&octets[..octets.len() - 2]) {
        None => Heard::Dropped(FrameFault::BadHeader),
        Some((protocol, information)) => Heard::Frame(protocol, frame_of(information)),
    }
}

// The protocol and the information of octets without their check sum.
fn content(octets: &[u8]) -> Option<(u16, &[u8])>
    ensures found { option_map (λ found. (found.0, found.1.now)) result ≡ protocol_of (without_address octets.now) }
    ensures within { IfSome result (λ found. length found.1.now ≤ length octets.now) }
{
    let octets = match octets {
        [0xff, 0x03, others @ ..] => others,
        _ => octets,
    };
    match octets {
        [] => None,
        [0xff, ..] => None,
        [first, information @ ..] if first % 2 == 1 => Some((u16::from(*first), information)),
        [first, second, information @ ..] if second % 2 == 1 => {
            Some((u16::from(*first) * 256 + u16::from(*second), information))
        }
        _ => None,
    }
}

// The information as a frame's octets.
fn frame_of(information: &[u8]) -> Frame
    requires { length information.now ≤ MOST_FRAME }
    ensures { result ≡ information.now }
{
    let mut frame = Frame::new();
    frame.append(information);
    frame
}
