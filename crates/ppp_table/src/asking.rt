ghost use Rattle.std.specs.Prelude.{◌≡◌, ◌-◌, ◌≤◌, ◌<◌, option_map, slice_get, length};
ghost use Rattle.ppp_table.specs.Asking.{asked_by, is_woken, woken_one};
ghost use Rattle.ppp_table_parts.specs.Sides.{at_link, each_link};

use ppp_base::{LinkId, Unit};
use ppp_option_words::{LinkConfig, home_unit};
use ppp_table_parts::sides::Sides;

// A link asks for its home unit exactly where `unit` or `demand` is given.
pub(crate) fn asked_by(link: LinkId, config: &LinkConfig) -> Option<Unit>
    ensures { result ≡ asked_by link config.now }
{
    if config.unit.is_some() || config.demand {
        Some(home_unit(link, config.unit))
    } else {
        None
    }
}

// Whether a link with `demand` asks for this unit.
fn is_woken(unit: Unit, link: LinkId, links: &[LinkConfig]) -> bool
    ensures { result ≡ is_woken unit link (slice_get links.now (link - 1)) }
{
    match links.get((link.number() - 1) as usize) {
        Some(config) => config.demand && home_unit(link, config.unit) == unit,
        None => false,
    }
}

// A Wake waits for a link with `demand` that asks for this unit.
#[tactic(auto, using(ppp_table_parts::proofs::SideLemmas::none_at))]
fn wake_one(unit: Unit, link: LinkId, links: &[LinkConfig], sides: &mut Sides)
    ensures { sides.new ≡ at_link link (woken_one unit links.now link) sides.old }
{
    if is_woken(unit, link, links) {
        sides.put_wake(link);
    }
}

// A Wake waits for each link with `demand` that asks for this unit.
pub(crate) fn wake(unit: Unit, links: &[LinkConfig], sides: &mut Sides)
    ensures { sides.new ≡ each_link (woken_one unit links.now) 1 sides.old }
{
    let past = sides.count() + 1;
    for number in 1..past {
        wake_one(unit, LinkId::new(number).unwrap(), links, sides);
    }
}
