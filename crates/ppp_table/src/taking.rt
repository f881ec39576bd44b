ghost use Rattle.std.specs.Prelude.{◌≡◌, ◌-◌, ◌<◌, [], ◌++◌, IfNone, length, option_map, option_to_list};
ghost use Rattle.ppp_table_parts.specs.Side.{after_first, first_post, posts_of};
ghost use Rattle.ppp_table_parts.specs.Sides.{at_link, side_of};
ghost use Rattle.ppp_table_parts.specs.Deliveries.{piece_of};
ghost use Rattle.ppp_table.specs.Begins.{taken_after};
ghost use Rattle.ppp_table.specs.Fits.{IsWhole};
ghost use Rattle.ppp_table.specs.Jobs.{TakesJob, TakesJobOf};

use crate::core_state::TableCore;
use ppp_base::{LinkId, Post, Unit};
use ppp_bundle::Bundle;
use ppp_hooks::HookJob;
use ppp_outside::Spawner;
use ppp_table_parts::deliveries::Delivery;

// The script that a unit started, if its job hasn't been taken.
fn job_of<S: Spawner>(unit: &mut Bundle<S>) -> Option<HookJob<S>>
    ensures takes { TakesJob result unit.old unit.new }
    ensures live { unit.new.live ≡ unit.old.live }
    ensures sent { unit.new.sent ≡ unit.old.sent }
    ensures given { unit.new.given ≡ unit.old.given }
{
    unit.take_job()
}

impl<S: Spawner> TableCore<S> {
    // The script that a unit started, if its job hasn't been taken.
    pub(crate) fn take_job(&mut self, unit: Unit) -> Option<HookJob<S>>
        requires whole { IsWhole self.old }
        ensures job { TakesJobOf unit result self.old self.new }
        ensures whole { IsWhole self.new }
    {
        job_of(&mut self.units[unit.number() as usize])
    }

    // Takes what waits first for a link.
    pub(crate) fn take_post(&mut self, link: LinkId) -> Option<Post>
        requires whole { IsWhole self.old }
        ensures first { result ≡ first_post (side_of link self.old.sides) }
        ensures new { self.new ≡ record self.old { sides = at_link link after_first self.old.sides } }
        ensures waits { posts_of (side_of link self.old.sides) ≡ option_to_list result ++ posts_of (side_of link self.new.sides) }
        ensures none { IfNone result (posts_of (side_of link self.old.sides) ≡ []) }
        ensures there { link - 1 < length self.old.sides }
        ensures whole { IsWhole self.new }
    {
        self.sides.take(link)
    }

    // Takes the datagram that waits longest, and counts it.
    pub(crate) fn take_delivery(&mut self) -> Option<Delivery>
        ensures first { self.old.deliveries.waiting ≡ option_to_list (option_map piece_of result) ++ self.new.deliveries.waiting }
        ensures none { IfNone result (self.old.deliveries.waiting ≡ []) }
        ensures rest { self.new ≡ record self.old { deliveries = record self.old.deliveries { waiting = self.new.deliveries.waiting }; taken = taken_after result self.old.taken } }
    {
        let delivery = self.deliveries.take();
        if delivery.is_some() {
            self.taken = self.taken.saturating_add(1);
        }
        delivery
    }
}
