ghost use Rattle.std.specs.Prelude.{◌≡◌, ◌≤◌, [], ◌∷◌, ◌++◌, length};
ghost use Rattle.ppp_chat.specs.Hearing.{window_after};
ghost use Rattle.ppp_chat.specs.Texts.{latest};

use arrayvec::ArrayVec;
use std::marker::Model;

/// The last octets since an expect began: as many as the longest string has. Contracts see them as their list.
#[derive(Drop)]
pub(crate) struct Window {
    octets: ArrayVec<u8, 513>,
}

impl Model for Window {
    ghost use Rattle.std.specs.Prelude.{List, ℕ, length, ◌≤◌};

    ghost Value = { List ℕ };

    ghost view = { λ window. window.octets.items };

    ghost invariant = { λ window. length window.octets.items ≤ 513 };
}

impl Window {
    /// No octets.
    pub fn new() -> Window
        ensures { result ≡ [] }
    {
        Window {
            octets: ArrayVec::new(),
        }
    }

    /// Leaves no octets.
    pub fn clear(&mut self)
        ensures { self.new ≡ [] }
    {
        self.octets.clear();
    }

    // Takes an octet. Where there is no room, the oldest one goes.
    fn push(&mut self, octet: u8)
        ensures { self.new ≡ latest (self.old ++ octet ∷ []) }
    {
        if self.octets.is_full() {
            self.octets.remove(0);
        }
        self.octets.push(octet);
    }

    /// Takes the octet of a call, if it has one.
    pub fn hear(&mut self, octet: Option<u8>)
        ensures { self.new ≡ window_after self.old octet }
    {
        if let Some(octet) = octet {
            self.push(octet);
        }
    }

    /// The octets.
    pub fn as_slice(&self) -> &[u8]
        ensures octets { result.now ≡ self.now }
        ensures within { length result.now ≤ 513 }
    {
        self.octets.as_slice()
    }
}
