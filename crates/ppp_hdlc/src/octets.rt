ghost use Rattle.std.specs.Prelude.{◌≡◌};
ghost use Rattle.ppp_hdlc.specs.Octets.{is_mapped};
ghost use Rattle.ppp_hdlc.specs.Encoding.{is_escaped};

/// Begins and ends a frame (RFC 1662, 4.1).
pub(crate) const FLAG: u8 = 0x7e;

/// Changes the octet behind it (RFC 1662, 4.2).
pub(crate) const ESCAPE: u8 = 0x7d;

/// What an octet behind an escape is XORed with (RFC 1662, 4.2).
pub(crate) const ESCAPE_BIT: u8 = 0x20;

// Whether the octet is below 32 and its bit is set in the map.
#[inline]
pub(crate) fn is_mapped(map: u32, octet: u8) -> bool
    ensures { result ≡ is_mapped map octet }
{
    octet < 32 && (map >> octet) % 2 == 1
}

// Whether the octet is sent behind an escape.
#[inline]
pub(crate) fn must_escape(map: u32, octet: u8) -> bool
    ensures { result ≡ is_escaped map octet }
{
    octet == ESCAPE || octet == FLAG || is_mapped(map, octet)
}
