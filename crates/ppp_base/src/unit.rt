ghost use Rattle.std.specs.Prelude.{◌≡◌, ℕ, ◌<◌, ◌↔◌, IsSome, IfSome};

use std::marker::Model;

/// A network interface's number, 0 to 15. Contracts see it as the number.
#[derive(Clone, Copy, Debug, PartialEq, Eq)]
pub struct Unit {
    number: u8,
}

impl Model for Unit {
    ghost Value = { ℕ };

    ghost view = { λ unit. unit.number };

    ghost invariant = { λ unit. unit.number < 16 };

    ghost inverse = { λ n. record { number = n } };
}

impl Unit {
    /// The first unit.
    pub fn zero() -> Unit
        ensures { result ≡ 0 }
    {
        Unit { number: 0 }
    }

    /// The unit of this number. None is out of range.
    pub fn new(number: u8) -> Option<Unit>
        ensures valid { IsSome result ↔ (number < 16) }
        ensures value { IfSome result (λ unit. unit ≡ number) }
    {
        if number < 16 {
            Some(Unit { number })
        } else {
            None
        }
    }

    /// Its number, 0 to 15.
    pub fn number(self) -> u8
        ensures value { result ≡ self }
        ensures range { self < 16 }
    {
        self.number
    }
}
