//! What a link's options say of itself to scripts and units (pppd(8)). None of these calls takes memory.

ghost use Rattle.std.specs.Prelude.{◌≡◌};
ghost use Rattle.ppp_option_words.specs.Home.{device_of, home_unit};

use ppp_base::{LinkId, Name, Unit};
use ppp_outside::LineWords;

/// The device that scripts are told: the socket's text, or `pty`.
pub fn device_of(line: &LineWords) -> Name
    ensures { result ≡ device_of line.now }
{
    match line {
        LineWords::Socket(text) => text.copy(),
        LineWords::Pty(_) => {
            let mut device = Name::new();
            device.append(b"pty");
            device
        }
    }
}

/// The unit of the option `unit`, or else the one whose number is the link's less one.
pub fn home_unit(link: LinkId, unit: Option<Unit>) -> Unit
    ensures { result ≡ home_unit link unit }
{
    match unit {
        Some(unit) => unit,
        None => Unit::new(link.number() - 1).unwrap(),
    }
}
