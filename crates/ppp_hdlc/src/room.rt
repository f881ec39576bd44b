ghost use Rattle.std.specs.Prelude.{◌≡◌, ◌<◌, ◌≤◌, Bool, [], ◌∷◌, ◌++◌, length, take};
ghost use Rattle.ppp_hdlc.specs.Encoding.{escaped};
ghost use Rattle.ppp_hdlc.specs.Deframing.{whole_part};
ghost use Rattle.ppp_hdlc.specs.Spans.{Takes};

use crate::runs::{escape_runs, unescape_runs};
use ppp_base::MOST_FRAME;
use std::marker::Model;

/// The most octets of a room.
pub(crate) const ROOM: usize = MOST_FRAME;

/// Octets that are written sixteen at a time, of which those in front count: up to 1,508. Contracts see
/// those as their list.
#[derive(Drop)]
pub(crate) struct Room {
    octets: [u8; 1508],
    count: usize,
}

impl Model for Room {
    ghost use Rattle.ppp_base.specs.declared.octets.TheConstants.{MOST_FRAME};
    ghost use Rattle.std.specs.Prelude.{List, ℕ, length, take, ◌≤◌, ◌≡◌};

    ghost Value = { List ℕ };

    ghost view = { λ room. take room.count room.octets };

    ghost invariant = { λ room. (room.count ≤ MOST_FRAME) × (length room.octets ≡ MOST_FRAME) };
}

impl Room {
    // No octets.
    pub(crate) fn new() -> Room
        ensures { result ≡ [] }
    {
        Room {
            octets: [0; 1508],
            count: 0,
        }
    }

    // How many octets there are.
    #[inline]
    pub(crate) fn len(&self) -> usize
        ensures len { result ≡ length self.now }
        ensures within { result ≤ MOST_FRAME }
    {
        self.count
    }

    // The octets.
    #[inline]
    pub(crate) fn as_slice(&self) -> &[u8]
        ensures octets { result.now ≡ self.now }
        ensures within { length result.now ≤ MOST_FRAME }
    {
        &self.octets[..self.count]
    }

    // Leaves no octets.
    #[inline]
    pub(crate) fn clear(&mut self)
        ensures { self.new ≡ [] }
    {
        self.count = 0;
    }

    // Appends an octet.
    #[inline]
    pub(crate) fn push(&mut self, octet: u8)
        requires { length self.old < MOST_FRAME }
        ensures { self.new ≡ self.old ++ octet ∷ [] }
    {
        self.octets[self.count] = octet;
        self.count += 1;
    }

    // Appends octets of the line from a place on, unescaped under this map, while there are sixteen and room for
    // as many, and says how far it came: at most up to a flag.
    pub(crate) fn append_unescaped(&mut self, map: u32, octets: &[u8], from: usize) -> usize
        requires { from ≤ length octets.now }
        ensures { (is_over : Bool) → Takes octets.now from result (whole_part map self.old is_over) (whole_part map self.new is_over) }
    {
        let (at, count) = unescape_runs(map, octets, from, &mut self.octets, self.count);
        self.count = count;
        at
    }

    // Leaves octets in front, escaped under this map, while there are sixteen, and says how many they are.
    pub(crate) fn put_escaped(&mut self, map: u32, octets: &[u8]) -> usize
        requires { length octets.now ≤ 746 }
        ensures within { result ≤ length octets.now }
        ensures written { self.new ≡ escaped map (take result octets.now) }
    {
        let (at, count) = escape_runs(map, octets, &mut self.octets);
        self.count = count;
        at
    }
}
