ghost use Rattle.std.specs.Prelude.{◌≡◌, ◌<◌, ◌≤◌, ◌↔◌, length, IsSome, IfSome};

use crate::octets::Octets;
use std::marker::Model;

/// The most octets of a discriminator's address.
pub const MOST_ADDRESS: usize = 20;

/// An endpoint discriminator (RFC 1990, section 5.1.3). Its class is not 0: class 0 is no discriminator.
#[derive(Debug, PartialEq, Eq, Drop)]
pub struct Disc {
    class: u8,
    address: Octets<20>,
}

impl Model for Disc {
    ghost use Rattle.std.specs.Prelude.{length, ◌≤◌};
    ghost use Rattle.ppp_base.specs.Disc.{Discriminator};

    ghost Value = { Discriminator };

    ghost view = { λ disc. record { class = disc.class; address = disc.address } };

    ghost invariant = { λ disc. (1 ≤ disc.class) × (length disc.address ≤ 20) };

    ghost inverse = { λ parts. record { class = parts.class; address = parts.address } };
}

impl Disc {
    /// The discriminator of this class and address. None where the class is 0, or the address is longer than 20 octets.
    pub fn new(class: u8, address: &[u8]) -> Option<Disc>
        ensures valid { IsSome result ↔ ((1 ≤ class) × (length address.now ≤ MOST_ADDRESS)) }
        ensures value { IfSome result (λ disc. (disc.class ≡ class) × (disc.address ≡ address.now)) }
    {
        if class == 0 {
            return None;
        }
        let address = Octets::from_octets(address)?;
        Some(Disc { class, address })
    }

    /// Its class, which is not 0.
    pub fn class(&self) -> u8
        ensures value { result ≡ self.now.class }
        ensures range { 1 ≤ self.now.class }
    {
        self.class
    }

    /// Its address, up to 20 octets.
    pub fn address(&self) -> &[u8]
        ensures octets { result.now ≡ self.now.address }
        ensures within { length result.now ≤ MOST_ADDRESS }
    {
        self.address.as_slice()
    }

    /// The same discriminator again. It takes no memory.
    pub fn copy(&self) -> Disc
        ensures { result ≡ self.now }
    {
        Disc {
            class: self.class,
            address: self.address.copy(),
        }
    }
}
