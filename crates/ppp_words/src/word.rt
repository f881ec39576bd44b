ghost use Rattle.std.specs.Prelude.{◌≡◌, [], ◌∷◌, ◌++◌, OnOk};

use ppp_base::NoMemory;
use std::alloc::Global;
use std::marker::Model;

/// A word of a text: the octets that it stands for, and the line on which it begins.
#[derive(Drop)]
pub struct Word {
    octets: Vec<u8>,
    line: usize,
}

impl Model for Word {
    ghost use Rattle.ppp_words.specs.PlacedWord.{PlacedWord};

    ghost Value = { PlacedWord };

    ghost view = { λ word. record { octets = word.octets.items; line = word.line } };
}

impl Word {
    // A word that begins on this line.
    pub(crate) fn new(alloc: Global, line: usize) -> Word
        ensures { result ≡ record { octets = []; line = line } }
    {
        Word {
            octets: Vec::new(alloc),
            line,
        }
    }

    // Adds an octet at the end.
    pub(crate) fn push(&mut self, octet: u8) -> Result<(), NoMemory>
        ensures { OnOk result (self.new ≡ record { octets = self.old.octets ++ octet ∷ []; line = self.old.line }) }
    {
        self.octets.push(octet)?;
        Ok(())
    }

    /// What the word stands for. It may be any octets, or none.
    pub fn octets(&self) -> &[u8]
        ensures { result.now ≡ self.now.octets }
    {
        self.octets.as_slice()
    }

    /// What the word stands for, taken out of it. Takes no memory.
    pub fn into_octets(self) -> Vec<u8>
        ensures { result.items ≡ self.octets }
    {
        self.octets
    }

    /// The line on which the word begins, its quote or backslash included, counted from 1.
    pub fn line(&self) -> usize
        ensures { result ≡ self.now.line }
    {
        self.line
    }
}
