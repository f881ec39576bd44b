ghost use Rattle.std.specs.Prelude.{◌≡◌};
ghost use Rattle.std.specs.Option.{option_copied};
ghost use Rattle.ppp_control.specs.Changes.{last_body, names_kind};

use ppp_packet::OptionList;

/// The data of the last option of a type: of two of one type the later holds.
pub fn last_body(items: &OptionList, kind: u8) -> Option<&[u8]>
    ensures { option_copied result ≡ last_body kind items.now }
{
    let mut walk = items.iter();
    let mut found = None;
    'finding: while let Some(seen) = walk.next() {
        if seen.kind == kind {
            found = Some(seen.body);
        }
    }
    found
}

/// Whether an option of this type is among the items.
pub fn names_kind(items: &OptionList, kind: u8) -> bool
    ensures { result ≡ names_kind kind items.now }
{
    let mut walk = items.iter();
    let mut is_named = false;
    'seeking: while let Some(seen) = walk.next() {
        is_named = is_named || seen.kind == kind;
    }
    is_named
}
