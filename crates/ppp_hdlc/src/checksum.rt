ghost use Rattle.std.specs.Prelude.{◌≡◌, ◌<◌, ◌∷◌, [], length, replicate};
ghost use Rattle.ppp_hdlc.specs.Residue.{Residue, fcs_of, word_of};
ghost use Rattle.ppp_hdlc.specs.Register.{register_after};

use crate::words::WORDS;

/// The register before the first octet.
pub(crate) const FIRST: u16 = 0xffff;

/// The frame check sequence of the octets, before it is sent: the low octet goes first
/// (RFC 1662, 3.1 and appendix C).
pub fn fcs(bytes: &[u8]) -> u16
    ensures { result ≡ fcs_of bytes.now }
{
    !residue_of(bytes)
}

// What the division of the octets' bits leaves.
pub(crate) fn residue_of(bytes: &[u8]) -> u16
    ensures { result ≡ Residue bytes.now }
{
    register_behind(FIRST, bytes)
}

// The register behind these octets, eight at a time.
pub(crate) fn register_behind(register: u16, bytes: &[u8]) -> u16
    ensures { result ≡ register_after register bytes.now }
{
    let mut now = register;
    let mut at = 0;
    while bytes.len() - at >= 8 {
        now = behind_eight(now, &bytes[at..at + 8]);
        at += 8;
    }
    behind_each(now, &bytes[at..])
}

// The register behind these octets, one at a time.
fn behind_each(register: u16, bytes: &[u8]) -> u16
    ensures { result ≡ register_after register bytes.now }
{
    let mut now = register;
    for byte in bytes {
        now = behind_octet(now, *byte);
    }
    now
}

// The register behind one octet (RFC 1662, C.2).
#[inline]
fn behind_octet(register: u16, octet: u8) -> u16
    ensures { result ≡ register_after register (octet ∷ []) }
{
    word(0, (register % 256) as u8 ^ octet) ^ (register / 256)
}

// The register behind eight octets: each has a word of its own, with the octets behind it as 0, and
// the register is added to the first two.
#[inline]
fn behind_eight(register: u16, octets: &[u8]) -> u16
    requires { length octets.now ≡ 8 }
    ensures { result ≡ register_after register octets.now }
{
    let first = (register % 256) as u8 ^ octets[0];
    let second = (register / 256) as u8 ^ octets[1];
    word(7, first)
        ^ word(6, second)
        ^ word(5, octets[2])
        ^ word(4, octets[3])
        ^ word(3, octets[4])
        ^ word(2, octets[5])
        ^ word(1, octets[6])
        ^ word(0, octets[7])
}

// The word of an octet with so many octets of 0 behind it.
#[inline]
fn word(zeros: usize, octet: u8) -> u16
    requires { zeros < 8 }
    ensures { result ≡ word_of (octet ∷ replicate zeros 0) }
{
    WORDS[zeros][usize::from(octet)]
}
