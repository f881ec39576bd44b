//! The packets of PAP.

ghost use Rattle.std.specs.Prelude.{◌≡◌, ◌↔◌, ℕ, List, ◌∷◌, length, Some, true};
ghost use Rattle.ppp_pap.specs.Packets.{is_message, request_body, request_of};

/// A request's octets are read as the name and the password of which they are made, and no others are.
pub fn requests_are_read()
    ensures { (octets name password : List ℕ) → (request_of octets ≡ Some (name, password)) ↔ (octets ≡ request_body name password) }
{}

/// An answer's octets are a message behind its length, and no others are.
pub fn messages_are_read()
    ensures { (octets : List ℕ) → (is_message octets ≡ true) ↔ ((message : List ℕ) × (octets ≡ length message ∷ message)) }
{}
