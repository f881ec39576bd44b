ghost use Rattle.std.specs.Prelude.{◌≡◌, ◌↔◌, ℕ, true, IfSome, IsTrue, MatchOption};
ghost use Rattle.ppp_mark.specs.Table.{is_kind, name_of, stands_in};
ghost use Rattle.ppp_base.specs.declared.hook_target.HookTarget.TheVariants.{Link, Unit as OfUnit};
ghost use Rattle.ppp_report.specs.Report.{target_of};

use ppp_mark::name::name;
use ppp_mark::{LogName, kind};

// A kind at the place that is computed of its name's length and three of its octets.
const KINDS: [u8; 64] = [
    3, 0, 0, 10, 0, 0, 5, 0, 0, 0, 19, 0, 9, 0, 0, 39, 18, 0, 0, 0, 4, 35, 34, 0, 0, 16, 6, 0, 14,
    0, 7, 32, 0, 37, 0, 0, 0, 0, 0, 8, 0, 38, 36, 17, 15, 0, 0, 2, 11, 0, 0, 0, 13, 33, 0, 12, 40,
    0, 0, 0, 1, 0, 0, 0,
];

// The only kind that may have this name.
fn guess(name: &[u8]) -> u8
    ensures { (k : ℕ) → is_kind k ≡ true → name.now ≡ name_of k → result ≡ k }
{
    let length = name.len();
    if length < 2 || 11 < length {
        return 0;
    }
    let place = usize::from(name[0]) * 50
        + usize::from(name[1]) * 9
        + usize::from(name[length - 2]) * 25
        + length * 10;
    KINDS[place % 64]
}

// Whether marks of this kind stand in the log of a link, or of a unit.
fn stands(of: &LogName, kind: u8) -> bool
    ensures { result ≡ stands_in (target_of of.now) kind }
{
    match *of {
        LogName::Link(_) => stands_in_link(kind),
        LogName::Unit(_) => stands_in_unit(kind),
    }
}

fn stands_in_link(kind: u8) -> bool
    ensures { (link : ℕ) → result ≡ stands_in (Link link) kind }
{
    matches!(kind, kind::ATTEMPT..=kind::FINISHED)
}

fn stands_in_unit(kind: u8) -> bool
    ensures { (unit : ℕ) → result ≡ stands_in (OfUnit unit) kind }
{
    matches!(kind, kind::START | kind::ENDED | kind::MADE..=kind::UNMADE)
}

/// The kind of marks of such an object that has this name.
pub fn kind_of(word: &[u8], of: &LogName) -> Option<u8>
    ensures sound { IfSome result (λ k. (stands_in (target_of of.now) k ≡ true) × (word.now ≡ name_of k)) }
    ensures found { (k : ℕ) → stands_in (target_of of.now) k ≡ true → word.now ≡ name_of k → MatchOption result ⊥ (λ r. r ≡ k) }
{
    let kind = guess(word);
    if stands(of, kind) && name(kind) == word {
        Some(kind)
    } else {
        None
    }
}
