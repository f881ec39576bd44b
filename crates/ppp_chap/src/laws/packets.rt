//! The packets of CHAP.

ghost use Rattle.std.specs.Prelude.{◌≡◌, ◌≤◌, ◌↔◌, ℕ, List, length, Some};
ghost use Rattle.ppp_chap.specs.Packets.{valued_body, valued_of};

/// The data of a challenge or a response are read as the value and the name of which they are made, and no others are.
pub fn values_are_read()
    ensures { (octets value name : List ℕ) → (valued_of octets ≡ Some (value, name)) ↔ ((octets ≡ valued_body value name) × (length name ≤ 255)) }
{}
