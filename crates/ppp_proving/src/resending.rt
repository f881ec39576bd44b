ghost use Rattle.std.specs.Prelude.{◌≡◌, ℕ, ◌≤◌, ◌<◌, ◌^◌, nat_lt, ◌==◌, [], ◌∷◌, List, length};
ghost use Rattle.ppp_proving.specs.Resending.{Sendings, again_at, sendings_of};

use std::marker::Model;

/// How often a side's own packet is sent before it is given up.
pub const MOST_SENT: u8 = 10;

/// Milliseconds between one sending and the next.
pub const RESEND_MS: u64 = 3000;

/// What is due of a packet that is sent again.
#[derive(Clone, Copy, Debug, PartialEq, Eq)]
pub enum Again {
    /// Nothing yet.
    Nothing,
    /// It is sent again.
    Send,
    /// It was sent as often as it may be.
    GiveUp,
}

/// A packet that is sent again until it is answered. Contracts see how often it was sent and when last.
#[derive(Clone, Copy, Debug, PartialEq, Eq)]
pub struct Resending {
    count: u8,
    last: u64,
}

impl Model for Resending {
    ghost use Rattle.std.specs.Prelude.{◌≤◌, ◌^◌};
    ghost use Rattle.ppp_proving.specs.Resending.{Sendings};

    ghost Value = { Sendings };

    ghost view = { λ r. record { count = r.count; last = r.last } };

    ghost invariant = { λ r. (r.count ≤ 10) × (r.last ≤ 2 ^ 56) };

    ghost inverse = { λ s. record { count = s.count; last = s.last } };
}

impl Resending {
    /// Not sent yet.
    pub fn new() -> Resending
        ensures { result ≡ sendings_of [] }
    {
        Resending { count: 0, last: 0 }
    }

    /// Whether it was sent.
    pub fn is_begun(self) -> bool
        ensures value { result ≡ nat_lt 0 self.count }
        ensures of_sent { (sent : List ℕ) → self ≡ sendings_of sent → result ≡ nat_lt 0 (length sent) }
    {
        0 < self.count
    }

    /// It is sent now, where it was sent fewer than ten times.
    pub fn sends(&mut self, now: u64)
        requires moment { now ≤ 2 ^ 56 }
        requires few { self.old.count < 10 }
        ensures { (sent : List ℕ) → self.old ≡ sendings_of sent → self.new ≡ sendings_of (now ∷ sent) }
    {
        self.count += 1;
        self.last = now;
    }

    /// What is due now.
    pub fn again(self, now: u64) -> Again
        ensures value { (sent : List ℕ) → self ≡ sendings_of sent → result ≡ again_at now sent }
        ensures few { result ≡ Again.Send → self.count < 10 }
    {
        if self.count == 0 || now < self.last + RESEND_MS {
            Again::Nothing
        } else if self.count < MOST_SENT {
            Again::Send
        } else {
            Again::GiveUp
        }
    }
}
