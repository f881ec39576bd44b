ghost use Rattle.std.specs.Prelude.{◌≡◌, ◌≤◌, length};
ghost use Rattle.ppp_unit_parts.specs.Member.{stay_of};
ghost use Rattle.ppp_table.specs.TableState.{stay_from};

use ppp_base::{LinkId, Unit};
use ppp_bundle::{Bundle, Member};
use ppp_outside::Spawner;

/// A stay of a link, and the unit in which it is a member.
#[derive(Clone, Copy)]
pub struct Stay {
    pub unit: Unit,
    /// Its number, from 1 on.
    pub stay: u32,
}

// The stay of a link, where it is among these members.
pub(crate) fn stay_of(link: LinkId, members: &[Member]) -> Option<u32>
    ensures { result ≡ stay_of link members.now }
{
    'looking: for member in members {
        if member.link == link {
            return Some(member.stay);
        }
    }
    None
}

// The stay of a link, where it is a member of one of the units.
pub(crate) fn stay_in<S: Spawner>(link: LinkId, units: &[Bundle<S>]) -> Option<Stay>
    requires { length units.now ≤ 16 }
    ensures { result ≡ stay_from 0 link units.now }
{
    let mut number: u8 = 0;
    'looking: for unit in units {
        if let Some(stay) = stay_of(link, unit.members()) {
            return Some(Stay {
                unit: Unit::new(number).unwrap(),
                stay,
            });
        }
        number += 1;
    }
    None
}
