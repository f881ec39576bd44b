ghost use Rattle.std.specs.Prelude.{◌≡◌, ℕ, List, Result};
ghost use Rattle.ppp_words.specs.declared.backslash.Backslash.{Backslash};
ghost use Rattle.ppp_words.specs.PlacedWord.{PlacedWord};
ghost use Rattle.ppp_words.specs.Words.{Reads, ReadsFront};
ghost use Rattle.ppp_words.specs.Front.{Front, whole};
ghost use Rattle.ppp_words.specs.Steps.{front_of, words_of};

/// Each text has words or an open quote, and only one list of words or one open quote.
pub fn one_reading()
    ensures some { (backslash : Backslash) (octets : List ℕ) → Reads backslash octets (words_of backslash octets) }
    ensures only { (backslash : Backslash) (octets : List ℕ) (read other : Result (List PlacedWord) ℕ)
        → Reads backslash octets read → Reads backslash octets other → read ≡ other }
{}

/// The same of the words in front of an open quote; where none is open, they are all words.
pub fn one_front()
    ensures some { (backslash : Backslash) (octets : List ℕ) → ReadsFront backslash octets (front_of backslash octets) }
    ensures only { (backslash : Backslash) (octets : List ℕ) (front other : Front)
        → ReadsFront backslash octets front → ReadsFront backslash octets other → front ≡ other }
    ensures whole { (backslash : Backslash) (octets : List ℕ) → words_of backslash octets ≡ whole (front_of backslash octets) }
{}
