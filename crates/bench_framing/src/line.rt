use crate::payload::Payload;
use circular_buffer::HeapCircularBuffer;
use ppp_base::{SendSettings, protocol};
use ppp_hdlc::{Deframer, Heard, frame_into};
use std::alloc::Global;
use std::io;

/// How many octets a serial line takes or gives at a time.
const PIECE: usize = 1024;

/// How many pieces fill the ring in front of the line.
const PIECES: usize = 64;

/// A line and its two ends.
#[derive(Drop)]
pub(crate) struct Line {
    settings: SendSettings,
    ring: HeapCircularBuffer<u8>,
    piece: Vec<u8>,
    octets: Vec<u8>,
    deframer: Deframer,
}

impl Line {
    pub(crate) fn new(alloc: Global, map: u32) -> io::Result<Line> {
        let mut deframer = Deframer::new(alloc).map_err(|_| io::ErrorKind::OutOfMemory)?;
        deframer.set_map(map);
        Ok(Line {
            settings: SendSettings {
                map,
                pfc: false,
                acfc: false,
            },
            ring: HeapCircularBuffer::with_capacity(alloc, PIECES * PIECE)?,
            piece: Vec::from_elem(alloc, 0, PIECE)?,
            octets: Vec::new(alloc),
            deframer,
        })
    }

    pub(crate) fn octets(&self) -> usize {
        self.octets.len()
    }
}

// Writes each packet, and keeps what goes over the line. False where a frame doesn't fit.
pub(crate) fn framed(line: &mut Line, payload: &Payload) -> io::Result<bool> {
    let mut left = payload.bytes();
    for length in payload.lengths() {
        let Some((packet, others)) = left.split_at_checked(usize::from(*length)) else {
            return Ok(false);
        };
        left = others;
        if !frame_into(&line.settings, protocol::IP, packet, &mut line.ring) {
            return Ok(false);
        }
        for _ in 0..PIECES {
            if line.ring.is_empty() {
                break;
            }
            let count = line.ring.read_into(&mut line.piece);
            line.octets.extend_from_slice(&line.piece[..count])?;
        }
    }
    Ok(true)
}

// Writes each packet, and takes what goes over the line in pieces.
pub(crate) fn drained(line: &mut Line, payload: &Payload) {
    let mut left = payload.bytes();
    for length in payload.lengths() {
        let Some((packet, others)) = left.split_at_checked(usize::from(*length)) else {
            return;
        };
        left = others;
        let _ = frame_into(&line.settings, protocol::IP, packet, &mut line.ring);
        for _ in 0..PIECES {
            if line.ring.len() < PIECE {
                break;
            }
            let _ = line.ring.read_into(&mut line.piece);
        }
    }
    line.ring.clear();
}

// Whether what was kept gives the packets again.
pub(crate) fn is_payload(line: &mut Line, payload: &Payload) -> bool {
    let mut packets = payload.lengths();
    let mut left = payload.bytes();
    for piece in line.octets.chunks(PIECE) {
        let mut rest = piece;
        for _ in 0..PIECE {
            if rest.is_empty() {
                break;
            }
            let span = line.deframer.feed_span(rest);
            rest = &rest[span.used..];
            match span.heard {
                Heard::Nothing => {}
                Heard::Dropped(_) => return false,
                Heard::Frame(_, information) => {
                    let [length, others @ ..] = packets else {
                        return false;
                    };
                    packets = others;
                    let Some((packet, behind)) = left.split_at_checked(usize::from(*length)) else {
                        return false;
                    };
                    left = behind;
                    if information.as_slice() != packet {
                        return false;
                    }
                }
            }
        }
    }
    packets.is_empty()
}

// Takes the line apart, and says how many frames there were.
pub(crate) fn taken_apart(line: &mut Line) -> u64 {
    let mut frames: u64 = 0;
    for piece in line.octets.chunks(PIECE) {
        let mut rest = piece;
        for _ in 0..PIECE {
            if rest.is_empty() {
                break;
            }
            let span = line.deframer.feed_span(rest);
            rest = &rest[span.used..];
            if let Heard::Frame(_, _) = span.heard {
                frames = frames.wrapping_add(1);
            }
        }
    }
    frames
}
