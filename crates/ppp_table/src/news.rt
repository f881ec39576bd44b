ghost use Rattle.std.specs.Prelude.{◌≡◌, ◌||◌, nat_lt};
ghost use Rattle.ppp_table.specs.Told.{news_of};

use crate::before::Before;
use arrayvec::ArrayVec;
use ppp_base::Unit;
use ppp_bundle::{Bundle, BundleEnd, Member};
use ppp_outside::Spawner;
use std::marker::Model;

// What a step of a unit tells.
#[derive(Drop)]
pub(crate) struct StepNews {
    pub(crate) unit: Unit,
    pub(crate) opened: bool,
    pub(crate) live: bool,
    pub(crate) ended: Option<BundleEnd>,
    pub(crate) before: ArrayVec<Member, 17>,
    pub(crate) comes: Option<Member>,
    pub(crate) goes: Option<Member>,
    pub(crate) after: ArrayVec<Member, 16>,
}

impl Model for StepNews {
    ghost use Rattle.std.specs.Prelude.{option_to_list};
    ghost use Rattle.ppp_table.specs.Told.{News};

    ghost Value = { News };

    ghost view = { λ n. record { unit = n.unit; opened = n.opened; live = n.live; ended = n.ended; before = n.before.items; comes = option_to_list n.comes; goes = option_to_list n.goes; after = n.after.items } };
}

impl StepNews {
    // Of a step of this unit, before which this was so.
    pub(crate) fn new<S: Spawner>(number: Unit, before: Before, unit: &Bundle<S>) -> StepNews
        ensures { result ≡ news_of number before unit.now }
    {
        let opened = before.openings < unit.openings();
        let mut after = ArrayVec::new();
        let _ = after.try_extend_from_slice(unit.members());
        StepNews {
            unit: number,
            opened,
            live: opened || unit.opened(),
            ended: unit.ended_by(),
            before: before.members,
            comes: before.comes,
            goes: before.goes,
            after,
        }
    }
}
