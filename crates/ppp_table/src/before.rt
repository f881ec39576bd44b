ghost use Rattle.std.specs.Prelude.{◌≡◌, ◌≤◌, ◌++◌, length, option_to_list};
ghost use Rattle.ppp_table.specs.Told.{before, entering, leaving};

use arrayvec::ArrayVec;
use ppp_bundle::{Bundle, BundleEvent, Member};
use ppp_outside::Spawner;
use std::marker::Model;

// What is looked at of a unit before a step: its members with the link that comes in, that link, the link that
// goes out, and how often IP was opened.
#[derive(Drop)]
pub(crate) struct Before {
    pub(crate) members: ArrayVec<Member, 17>,
    pub(crate) comes: Option<Member>,
    pub(crate) goes: Option<Member>,
    pub(crate) openings: u32,
}

impl Model for Before {
    ghost use Rattle.std.specs.Prelude.{option_to_list};
    ghost use Rattle.ppp_table.specs.Told.{BeforeStep};

    ghost Value = { BeforeStep };

    ghost view = { λ b. record { members = b.members.items; comes = option_to_list b.comes; goes = option_to_list b.goes; openings = b.openings } };
}

// The link that comes in by an event.
fn entering<S: Spawner>(event: &BundleEvent<S>) -> Option<Member>
    ensures { option_to_list result ≡ entering event.now }
{
    match event {
        BundleEvent::In { link, stay, mru } => Some(Member {
            link: *link,
            stay: *stay,
            mru: *mru,
        }),
        _ => None,
    }
}

// The link that goes out by an event.
fn leaving<S: Spawner>(event: &BundleEvent<S>) -> Option<Member>
    ensures { option_to_list result ≡ leaving event.now }
{
    match event {
        BundleEvent::Out { link, stay } => Some(Member {
            link: *link,
            stay: *stay,
            mru: 0,
        }),
        _ => None,
    }
}

// These members, with the one that comes in behind them.
fn members_with(members: &[Member], comes: &Option<Member>) -> ArrayVec<Member, 17>
    requires { length members.now ≤ 16 }
    ensures { result.items ≡ members.now ++ option_to_list comes.now }
{
    let mut all = ArrayVec::new();
    let _ = all.try_extend_from_slice(members);
    match comes {
        Some(member) => all.push(*member),
        None => {}
    }
    all
}

impl Before {
    // Of this unit, before this event.
    pub(crate) fn new<S: Spawner>(unit: &Bundle<S>, event: &BundleEvent<S>) -> Before
        ensures { result ≡ before unit.now event.now }
    {
        let comes = entering(event);
        Before {
            members: members_with(unit.members(), &comes),
            comes,
            goes: leaving(event),
            openings: unit.openings(),
        }
    }
}
