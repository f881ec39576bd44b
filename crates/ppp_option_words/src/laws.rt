ghost use Rattle.std.specs.Prelude.{◌≡◌, ℕ, List, Option, Some};
ghost use Rattle.ppp_option_words.specs.Table.{kind_of, spelled};

use crate::kind::Kind;

/// Each word of the table is found by its spelling, and no other word is.
pub fn table_by_spelling()
    ensures found { (kind : Kind) → kind_of (spelled kind) ≡ Some kind }
    ensures only { (word : List ℕ) (kind : Kind) → kind_of word ≡ Some kind → spelled kind ≡ word }
{}
