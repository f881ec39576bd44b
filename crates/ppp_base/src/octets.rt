ghost use Rattle.std.specs.Prelude.{◌≡◌, ◌+◌, ◌<◌, ◌≤◌, ◌↔◌, ◌==◌, [], ◌∷◌, ◌++◌, length, IsSome, IfSome};

use arrayvec::ArrayVec;
use std::marker::Model;

/// The most octets of a name.
pub const MOST_NAME: usize = 255;

/// The most octets of a frame after unescaping: an information of 1,504 octets with its protocol and check sum.
pub const MOST_FRAME: usize = 1508;

/// The most octets of a datagram.
pub const MOST_DATAGRAM: usize = 2048;

/// A name.
pub type Name = Octets<255>;

/// A frame after unescaping.
pub type Frame = Octets<1508>;

/// A datagram.
pub type Datagram = Octets<2048>;

/// At most N octets of any value. Contracts see them as their list.
#[derive(Debug, Drop)]
pub struct Octets<const N: usize> {
    octets: ArrayVec<u8, N>,
}

impl<const N: usize> Model for Octets<N> {
    ghost use Rattle.std.specs.Prelude.{List, ℕ, length, ◌≤◌};

    ghost Value = { List ℕ };

    ghost view = { λ owner. owner.octets.items };

    ghost invariant = { λ owner. length owner.octets.items ≤ N };
}

impl<const N: usize> Octets<N> {
    /// No octets.
    pub fn new() -> Octets<N>
        ensures { result ≡ [] }
    {
        Octets {
            octets: ArrayVec::new(),
        }
    }

    /// These octets, where they fit.
    pub fn from_octets(octets: &[u8]) -> Option<Octets<N>>
        ensures fits { IsSome result ↔ (length octets.now ≤ N) }
        ensures value { IfSome result (λ o. o ≡ octets.now) }
    {
        let mut copied = ArrayVec::new();
        match copied.try_extend_from_slice(octets) {
            Ok(()) => Some(Octets { octets: copied }),
            Err(_) => None,
        }
    }

    /// How many octets there are.
    pub fn len(&self) -> usize
        ensures len { result ≡ length self.now }
        ensures within { result ≤ N }
    {
        self.octets.len()
    }

    /// Whether there are none.
    pub fn is_empty(&self) -> bool
        ensures { result ≡ (length self.now == 0) }
    {
        self.octets.is_empty()
    }

    /// The octets.
    pub fn as_slice(&self) -> &[u8]
        ensures octets { result.now ≡ self.now }
        ensures within { length result.now ≤ N }
    {
        self.octets.as_slice()
    }

    /// Appends an octet.
    pub fn push(&mut self, octet: u8)
        requires { length self.old < N }
        ensures { self.new ≡ self.old ++ octet ∷ [] }
    {
        self.octets.push(octet);
    }

    /// Appends these octets.
    pub fn append(&mut self, octets: &[u8])
        requires { length self.old + length octets.now ≤ N }
        ensures { self.new ≡ self.old ++ octets.now }
    {
        let _ = self.octets.try_extend_from_slice(octets);
    }

    /// Leaves no octets.
    pub fn clear(&mut self)
        ensures { self.new ≡ [] }
    {
        self.octets.clear();
    }

    /// The same octets again. It takes no memory.
    pub fn copy(&self) -> Octets<N>
        ensures { result ≡ self.now }
    {
        let mut octets = ArrayVec::new();
        let _ = octets.try_extend_from_slice(self.octets.as_slice());
        Octets { octets }
    }
}

impl<const N: usize> From<ArrayVec<u8, N>> for Octets<N> {
    ghost from_gives = { λ items octets. octets ≡ items.items };

    fn from(octets: ArrayVec<u8, N>) -> Octets<N> {
        Octets { octets }
    }
}

impl<const N: usize> From<Octets<N>> for ArrayVec<u8, N> {
    ghost from_gives = { λ octets items. items.items ≡ octets };

    fn from(octets: Octets<N>) -> ArrayVec<u8, N> {
        octets.octets
    }
}

impl<const N: usize> Default for Octets<N> {
    ghost is_default = { λ a. a ≡ [] };

    fn default() -> Octets<N> {
        Octets::new()
    }
}

impl<const N: usize> PartialEq for Octets<N> {
    ghost use Rattle.std.specs.Prelude.{nat_eq};
    ghost use Rattle.std.specs.Cmp.{partial_equiv_from_equiv};
    ghost use Rattle.std.specs.Cmp.Lexicographic.{pointwise, nat_list_eq_equiv};

    ghost eq = { λ a b. pointwise nat_eq a b };

    ghost laws = { partial_equiv_from_equiv nat_list_eq_equiv };

    fn eq(&self, other: &Octets<N>) -> bool {
        self.as_slice() == other.as_slice()
    }
}

impl<const N: usize> Eq for Octets<N> {
    ghost use Rattle.std.specs.Cmp.Lexicographic.{nat_list_eq_equiv};

    ghost laws = { nat_list_eq_equiv };
}
