ghost use Rattle.std.specs.Prelude.{◌≡◌, IfOk};

use ppp_base::NoMemory;
use std::alloc::Global;
use std::marker::Model;

/// A word or a file's name that a fault names: any octets, as many as there are. Contracts see it as its list.
#[derive(Debug, Drop)]
pub struct FaultWord {
    octets: Vec<u8>,
}

impl Model for FaultWord {
    ghost use Rattle.std.specs.Prelude.{List, ℕ};

    ghost Value = { List ℕ };

    ghost view = { λ word. word.octets.items };
}

impl FaultWord {
    /// The word of these octets. It takes no memory.
    pub fn new(octets: Vec<u8>) -> FaultWord
        ensures { result ≡ octets.items }
    {
        FaultWord { octets }
    }

    /// The word of a copy of these octets.
    pub fn copied(alloc: Global, octets: &[u8]) -> Result<FaultWord, NoMemory>
        ensures { IfOk result (λ word. word ≡ octets.now) }
    {
        Ok(FaultWord {
            octets: Vec::from_slice(alloc, octets)?,
        })
    }

    /// Its octets.
    pub fn as_slice(&self) -> &[u8]
        ensures { result.now ≡ self.now }
    {
        self.octets.as_slice()
    }

    /// Its octets, taken out of it. It takes no memory.
    pub fn into_octets(self) -> Vec<u8>
        ensures { result.items ≡ self }
    {
        self.octets
    }
}
