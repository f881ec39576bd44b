//! What is true of the definitions, each proved of a function that does nothing.

ghost use Rattle.std.specs.Prelude.{◌≡◌, ◌↔◌, ℕ, List, Option, Some, Result, Ok};
ghost use Rattle.std.specs.Option.{option_map};
ghost use Rattle.ppp_secrets.specs.declared.address_word.AddressWord.{AddressWord as Word};
ghost use Rattle.ppp_secrets.specs.declared.fault.SecretsFault.{SecretsFault};
ghost use Rattle.ppp_secrets.specs.SecretLine.{SecretLine, IsRising};
ghost use Rattle.ppp_secrets.specs.AddressForms.{SpellsWord};
ghost use Rattle.ppp_secrets.specs.AddressWords.{address_word_of};
ghost use Rattle.ppp_secrets.specs.Reading.{Holds, secrets_of};
ghost use Rattle.ppp_secrets.specs.Lookup.{IsLineFor, Lookup, line_for};

/// Each text holds lines or a fault, and only these.
pub fn each_text_holds_one()
    ensures some { (text : List ℕ) → Holds text (secrets_of text) }
    ensures only { (text : List ℕ) (answer other : Result (List SecretLine) SecretsFault) →
        Holds text answer → Holds text other → answer ≡ other }
{}

/// The numbers of the lines that a text holds rise.
pub fn numbers_rise()
    ensures { (text : List ℕ) (lines : List SecretLine) → Holds text (Ok lines) → IsRising lines }
{}

/// Where numbers rise, two names have one line, or none where no line matches.
pub fn two_names_have_one_line()
    ensures some { (lines : List SecretLine) (client server : List ℕ) → IsRising lines →
        Lookup lines client server (option_map (λ line. line.number) (line_for lines client server)) }
    ensures only { (lines : List SecretLine) (client server : List ℕ) (number other : Option ℕ) → IsRising lines →
        Lookup lines client server number → Lookup lines client server other → number ≡ other }
    ensures line { (lines : List SecretLine) (client server : List ℕ) (line : SecretLine) → IsRising lines →
        (line_for lines client server ≡ Some line) ↔ IsLineFor lines client server line }
{}

/// Octets are an address word exactly where they are spelled as one, and it means what was spelled.
pub fn address_words_are_spelled()
    ensures { (octets : List ℕ) (word : Word) → (address_word_of octets ≡ Some word) ↔ SpellsWord octets word }
{}
