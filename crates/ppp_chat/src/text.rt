ghost use Rattle.std.specs.Prelude.{◌≡◌, ◌≤◌, ◌==◌, length, IfOk};

use crate::octets::MOST_SENT;
use ppp_base::NoMemory;
use std::alloc::Global;
use std::marker::Model;

/// A string of a script, read once, or octets that are sent. It is as long as it is, and contracts see it as its list.
#[derive(Drop)]
pub(crate) struct Text {
    octets: Vec<u8>,
}

impl Model for Text {
    ghost use Rattle.std.specs.Prelude.{List, ℕ, length, ◌≤◌};

    ghost Value = { List ℕ };

    ghost view = { λ text. text.octets.items };

    ghost invariant = { λ text. length text.octets.items ≤ 513 };
}

impl Text {
    /// These octets.
    pub fn new(octets: Vec<u8>) -> Text
        requires { length octets.items ≤ MOST_SENT }
        ensures { result ≡ octets.items }
    {
        Text { octets }
    }

    /// Whether there are no octets.
    pub fn is_empty(&self) -> bool
        ensures { result ≡ (length self.now == 0) }
    {
        self.octets.is_empty()
    }

    /// The octets.
    pub fn as_slice(&self) -> &[u8]
        ensures octets { result.now ≡ self.now }
        ensures within { length result.now ≤ MOST_SENT }
    {
        self.octets.as_slice()
    }

    /// The same octets again.
    pub fn copy(&self, alloc: Global) -> Result<Text, NoMemory>
        ensures { IfOk result (λ text. text ≡ self.now) }
    {
        Ok(Text {
            octets: Vec::from_slice(alloc, self.octets.as_slice())?,
        })
    }
}
