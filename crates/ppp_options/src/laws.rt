ghost use Rattle.std.specs.Prelude.{◌≡◌, ◌≢◌, ◌++◌, ◌∷◌, ℕ, Bool, false, List, Option, Some, None, slice_get};
ghost use Rattle.std.specs.List.{All, AllByRecursion, count_by};
ghost use Rattle.ppp_option_words.specs.Picks.{is_link};
ghost use Rattle.ppp_options.specs.Last.{last_of};
ghost use Rattle.ppp_options.specs.Scopes.{scopes_of};

use ppp_option_words::Item;

/// Later words win: of the words that say something of an option the last counts, wherever it stands.
pub fn later_words_win()
    ensures numbers { (says : Item → Option ℕ) (front back : List Item) (said : Item) (value : ℕ) → says said ≡ Some value
        → AllByRecursion (λ other. says other ≡ None) back → last_of says (front ++ said ∷ back) ≡ Some value }
    ensures texts { (says : Item → Option (List ℕ)) (front back : List Item) (said : Item) (value : List ℕ) → says said ≡ Some value
        → AllByRecursion (λ other. says other ≡ None) back → last_of says (front ++ said ∷ back) ≡ Some value }
    ensures switches { (says : Item → Option Bool) (front back : List Item) (said : Item) (value : Bool) → says said ≡ Some value
        → AllByRecursion (λ other. says other ≡ None) back → last_of says (front ++ said ∷ back) ≡ Some value }
{}

/// A word for one link changes no other link. Its words stand behind the `link` that follows `front`, up to the end or to
/// the next `link`; the other links are those of other places, counted from 0.
pub fn other_links_stay()
    ensures last { (front own other : List Item) (i : ℕ) → All (λ said. is_link said ≡ false) own → All (λ said. is_link said ≡ false) other
        → i ≢ count_by is_link front
        → slice_get (scopes_of (front ++ Item.Link ∷ own)) i ≡ slice_get (scopes_of (front ++ Item.Link ∷ other)) i }
    ensures within { (front own other back : List Item) (i : ℕ) → All (λ said. is_link said ≡ false) own → All (λ said. is_link said ≡ false) other
        → i ≢ count_by is_link front
        → slice_get (scopes_of (front ++ Item.Link ∷ (own ++ Item.Link ∷ back))) i ≡ slice_get (scopes_of (front ++ Item.Link ∷ (other ++ Item.Link ∷ back))) i }
{}
