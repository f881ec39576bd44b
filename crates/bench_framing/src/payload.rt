use std::alloc::Global;
use std::io;

/// How many octets the yardstick draws behind those of the packets.
const SPARE: u64 = 2048;

/// What packets there are.
#[derive(Clone, Copy, PartialEq, Eq)]
pub(crate) enum Kind {
    /// Of 300 to 1,500 random octets.
    Random,
    /// Of 64 random octets.
    Small,
    /// Of 300 to 1,500 octets that are 0.
    Zeros,
}

impl Kind {
    pub(crate) fn named(word: &[u8]) -> Kind {
        if word == b"small".as_slice() {
            Kind::Small
        } else if word == b"zeros".as_slice() {
            Kind::Zeros
        } else {
            Kind::Random
        }
    }
}

/// A linear generator, as the yardstick has it.
#[derive(Drop)]
struct Words {
    state: u64,
}

impl Words {
    fn next(&mut self) -> u32 {
        self.state = self
            .state
            .wrapping_mul(6_364_136_223_846_793_005)
            .wrapping_add(1_442_695_040_888_963_407);
        (self.state >> 32) as u32
    }
}

/// Octets, and the lengths of the packets that they are.
#[derive(Drop)]
pub(crate) struct Payload {
    octets: Vec<u8>,
    lengths: Vec<u16>,
    whole: usize,
}

impl Payload {
    // So many octets at most: the same as the yardstick's for the same seed, where they are random.
    pub(crate) fn new(alloc: Global, most: u64, seed: u64, kind: Kind) -> io::Result<Payload> {
        let mut words = Words { state: seed };
        let mut octets = Vec::new(alloc);
        for _ in 0..(most.saturating_add(SPARE)) / 4 {
            let word = words.next();
            let bytes = if kind == Kind::Zeros {
                [0; 4]
            } else {
                word.to_le_bytes()
            };
            octets.extend_from_slice(&bytes)?;
        }
        let mut lengths = Vec::new(alloc);
        let mut left = usize::try_from(most).unwrap_or(0);
        for _ in 0..octets.len() {
            if left < 1500 {
                break;
            }
            let drawn = 300 + (words.next() % 1201) as u16;
            let length = if kind == Kind::Small { 64 } else { drawn };
            lengths.push(length)?;
            left -= usize::from(length);
        }
        let whole = usize::try_from(most).unwrap_or(0).saturating_sub(left);
        Ok(Payload {
            octets,
            lengths,
            whole,
        })
    }

    pub(crate) fn packets(&self) -> usize {
        self.lengths.len()
    }

    pub(crate) fn octets(&self) -> usize {
        self.whole
    }

    pub(crate) fn lengths(&self) -> &[u16] {
        &self.lengths
    }

    pub(crate) fn bytes(&self) -> &[u8] {
        &self.octets
    }
}
