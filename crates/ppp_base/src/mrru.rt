ghost use Rattle.std.specs.Prelude.{◌≡◌, ◌≤◌, ◌↔◌, IsSome, IfSome};

use std::marker::Model;

/// The least octets of information that a peer takes.
pub const LEAST_MRU: u16 = 128;

/// The octets of information that each end takes where nothing else was agreed on (RFC 1661, section 6.1). More is never used here.
pub const DEFAULT_MRU: u16 = 1500;

/// The least octets of a datagram in pieces that each end takes (RFC 1990, section 5.1.1).
pub const LEAST_MRRU: u16 = 1500;

/// The most octets of a datagram in pieces that we take.
pub const MOST_MRRU: u16 = 2048;

/// The most octets of a datagram that may come in pieces, in both directions (RFC 1990, section 5.1.1).
#[derive(Clone, Copy, Debug, PartialEq, Eq)]
pub struct Mrru {
    ours: u16,
    theirs: u16,
}

impl Model for Mrru {
    ghost use Rattle.std.specs.Prelude.{◌≤◌};
    ghost use Rattle.ppp_base.specs.declared.mrru.TheConstants.{LEAST_MRRU, MOST_MRRU};
    ghost use Rattle.ppp_base.specs.Mrru.{MrruPair};

    ghost Value = { MrruPair };

    ghost view = { λ mrru. record { ours = mrru.ours; theirs = mrru.theirs } };

    ghost invariant = { λ mrru. (LEAST_MRRU ≤ mrru.ours) × (mrru.ours ≤ MOST_MRRU) × (LEAST_MRRU ≤ mrru.theirs) };

    ghost inverse = { λ pair. record { ours = pair.ours; theirs = pair.theirs } };
}

impl Mrru {
    /// What we take and what the peer takes. None where ours isn't 1500 to 2048, or the peer's is below 1500.
    pub fn new(ours: u16, theirs: u16) -> Option<Mrru>
        ensures valid { IsSome result ↔ ((LEAST_MRRU ≤ ours) × (ours ≤ MOST_MRRU) × (LEAST_MRRU ≤ theirs)) }
        ensures value { IfSome result (λ mrru. (mrru.ours ≡ ours) × (mrru.theirs ≡ theirs)) }
    {
        if (LEAST_MRRU..=MOST_MRRU).contains(&ours) && LEAST_MRRU <= theirs {
            Some(Mrru { ours, theirs })
        } else {
            None
        }
    }

    /// What we take, 1500 to 2048 octets.
    pub fn ours(self) -> u16
        ensures value { result ≡ self.ours }
        ensures range { (LEAST_MRRU ≤ self.ours) × (self.ours ≤ MOST_MRRU) }
    {
        self.ours
    }

    /// What the peer takes, at least 1500 octets.
    pub fn theirs(self) -> u16
        ensures value { result ≡ self.theirs }
        ensures range { LEAST_MRRU ≤ self.theirs }
    {
        self.theirs
    }
}
