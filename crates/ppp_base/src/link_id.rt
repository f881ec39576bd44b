ghost use Rattle.std.specs.Prelude.{◌≡◌, ℕ, ◌≤◌, ◌↔◌, IsSome, IfSome};

use std::marker::Model;

/// A link's number, 1 to 16. Contracts see it as the number.
#[derive(Clone, Copy, Debug, PartialEq, Eq)]
pub struct LinkId {
    number: u8,
}

impl Model for LinkId {
    ghost Value = { ℕ };

    ghost view = { λ link. link.number };

    ghost invariant = { λ link. (1 ≤ link.number) × (link.number ≤ 16) };

    ghost inverse = { λ n. record { number = n } };
}

impl LinkId {
    /// The link of this number. None is out of range.
    pub fn new(number: u8) -> Option<LinkId>
        ensures valid { IsSome result ↔ ((1 ≤ number) × (number ≤ 16)) }
        ensures value { IfSome result (λ link. link ≡ number) }
    {
        if 1 <= number && number <= 16 {
            Some(LinkId { number })
        } else {
            None
        }
    }

    /// Its number, 1 to 16.
    pub fn number(self) -> u8
        ensures value { result ≡ self }
        ensures range { (1 ≤ self) × (self ≤ 16) }
    {
        self.number
    }
}
