ghost use Rattle.std.specs.Prelude.{◌≡◌, IfOk, IsOk};
ghost use Rattle.std.specs.Str.{IsUtf8};

use std::io::{Error, ErrorKind, Result};

/// The octets as text. A program, a path and an address are texts here.
pub fn text_of(octets: &[u8]) -> Result<&str>
    ensures text { IfOk result (λ text. text.now ≡ octets.now) }
    ensures taken { IsUtf8 octets.now → IsOk result }
{
    match str::from_utf8(octets) {
        Ok(text) => Ok(text),
        Err(_) => Err(Error::from(ErrorKind::InvalidInput)),
    }
}
