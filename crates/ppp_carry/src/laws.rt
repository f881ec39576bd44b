//! What follows of the table's definitions: which unit a link asks for.

ghost use Rattle.std.specs.Prelude.{◌≡◌, ◌-◌, ℕ, Some, None, false, true};
ghost use Rattle.ppp_option_words.specs.LinkValues.{LinkValues};
ghost use Rattle.ppp_table.specs.Asking.{asked_by};

/// A link asks for the unit of its option `unit`; with `demand` alone it asks for the one of its number less one; else for none.
pub fn asks_as_its_options_say()
    ensures none { (link : ℕ) (c : LinkValues) → asked_by link (record c { unit = None; demand = false }) ≡ None }
    ensures home { (link : ℕ) (c : LinkValues) → asked_by link (record c { unit = None; demand = true }) ≡ Some (link - 1) }
    ensures unit { (link unit : ℕ) (c : LinkValues) → asked_by link (record c { unit = Some unit }) ≡ Some unit }
{}
