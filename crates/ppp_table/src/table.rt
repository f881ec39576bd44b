ghost use Rattle.std.specs.Prelude.{◌≡◌, ◌+◌, ◌-◌, ◌≤◌, ◌<◌, ◌↔◌, ◌^◌, [], ◌++◌, IfNone, IfOk, IfSome, length, option_map, option_to_list, slice_get};
ghost use Rattle.ppp_base.specs.Stepped.{IfStale, IsTaken, OnTaken};
ghost use Rattle.ppp_bundle.specs.State.{members_of};
ghost use Rattle.ppp_mark.specs.Scripts.{LogLaw};
ghost use Rattle.ppp_table_parts.specs.declared.head.TheConstants.{MOST_DELIVERED};
ghost use Rattle.ppp_table_parts.specs.Deliveries.{deliveries_size, piece_of};
ghost use Rattle.ppp_table_parts.specs.Side.{after_first, first_post, posts_of};
ghost use Rattle.ppp_table_parts.specs.Sides.{AreWithin, at_link, side_of};
ghost use Rattle.ppp_table.specs.Begins.{AreYoung, IsNew, taken_after};
ghost use Rattle.ppp_table.specs.Counts.{CountsAt, CountsKept, counts_of};
ghost use Rattle.ppp_table.specs.Jobs.{TakesJobOf};
ghost use Rattle.ppp_table.specs.Fits.{AllFit, AreApart, IsItself, members_in};
ghost use Rattle.ppp_table.specs.PostPart.{PostPart};
ghost use Rattle.ppp_table.specs.TablePart.{IsFreshAt, TablePart};

use crate::beginning::{links_of, units_of};
use crate::core_state::TableCore;
use crate::counting::TableCounts;
use crate::event::TableEvent;
use ppp_base::{LinkId, NoMemory, Post, Stepped, Unit, UpPost};
use ppp_bundle::Member;
use ppp_hooks::HookJob;
use ppp_mark::Log;
use ppp_option_words::Config;
use ppp_outside::Spawner;
use ppp_secrets::SecretsPair;
use ppp_table_parts::deliveries::{Deliveries, Delivery};
use ppp_table_parts::sides::Sides;
use std::alloc::Global;
use std::marker::Model;

/// The sixteen units with what waits between them and the links. No link is in two bundles, and each member fits its bundle.
#[derive(Drop)]
pub struct Table<S: Spawner> {
    core: TableCore<S>,
}

impl<S: Spawner> Model for Table<S> {
    ghost use Rattle.ppp_table.specs.Fits.{IsWhole};
    ghost use Rattle.ppp_table.specs.TableState.{TableState};

    ghost Value = { TableState S };

    ghost view = { λ t. t.core };

    ghost invariant = { λ t. IsWhole t.core };
}

impl<S: Spawner> Table<S> {
    /// Sixteen units without bundles, one for each spawner. All memory that is ever needed is taken here.
    pub fn new(
        alloc: Global,
        config: &Config,
        secrets: SecretsPair,
        spawners: Vec<S>,
    ) -> Result<Table<S>, NoMemory>
        requires sixteen { length spawners.items ≡ 16 }
        requires young { AreYoung S.tries S.faults (2 ^ 63) spawners.items }
        ensures { IfOk result (IsNew config.now secrets spawners.items) }
    {
        let links = links_of(alloc, config)?;
        let units = units_of(alloc, spawners, config.loglimit)?;
        Ok(Table {
            core: TableCore {
                units,
                sides: Sides::new(alloc)?,
                deliveries: Deliveries::new(alloc)?,
                links,
                secrets,
                stranger: 0,
                packets: 0,
                taken: 0,
            },
        })
    }

    /// One event. A script's end that isn't that of its unit's running job is stale: it comes back, and nothing changes. It
    /// takes no memory.
    #[tactic(auto, using(crate::proofs::Kept::step_counts))]
    pub fn step(&mut self, event: TableEvent<S>) -> Stepped<TableEvent<S>>
        ensures taken { IsTaken result ↔ IsFreshAt event self.old }
        ensures part { OnTaken result (TablePart event self.old self.new) }
        ensures stale { IfStale result (λ back. (back ≡ event) × (self.new ≡ self.old)) }
        ensures counts { CountsAt event self.old self.new }
    {
        self.core.step(event)
    }

    /// One post of a link. It takes no memory.
    #[tactic(auto, using(crate::proofs::Kept::post_kept))]
    pub fn post(&mut self, from: LinkId, post: UpPost)
        ensures part { PostPart from post self.old self.new }
        ensures counts { CountsKept self.old self.new }
    {
        self.core.post(from, post);
    }

    /// Takes what waits for a link: the control post, then a Wake, then the frames in their order. None exactly where nothing
    /// waits.
    pub fn take_post(&mut self, link: LinkId) -> Option<Post>
        ensures first { result ≡ first_post (side_of link self.old.sides) }
        ensures new { self.new ≡ record self.old { sides = at_link link after_first self.old.sides } }
        ensures waits { posts_of (side_of link self.old.sides) ≡ option_to_list result ++ posts_of (side_of link self.new.sides) }
        ensures none { IfNone result (posts_of (side_of link self.old.sides) ≡ []) }
        ensures there { link - 1 < length self.old.sides }
        ensures counts { CountsKept self.old self.new }
    {
        self.core.take_post(link)
    }

    /// Takes the datagram that waits longest, and counts it. None exactly where none waits.
    pub fn take_delivery(&mut self) -> Option<Delivery>
        ensures first { self.old.deliveries.waiting ≡ option_to_list (option_map piece_of result) ++ self.new.deliveries.waiting }
        ensures none { IfNone result (self.old.deliveries.waiting ≡ []) }
        ensures rest { self.new ≡ record self.old { deliveries = record self.old.deliveries { waiting = self.new.deliveries.waiting }; taken = taken_after result self.old.taken } }
    {
        self.core.take_delivery()
    }

    /// Takes the script that a unit started, with its spawner. None exactly where none is due.
    #[tactic(auto, using(crate::proofs::Kept::job_kept))]
    pub fn take_job(&mut self, unit: Unit) -> Option<HookJob<S>>
        ensures job { TakesJobOf unit result self.old self.new }
        ensures counts { CountsKept self.old self.new }
    {
        self.core.take_job(unit)
    }

    /// What is counted.
    pub fn counts(&self) -> TableCounts
        ensures counts { result ≡ counts_of self.now }
        ensures posts { AreWithin self.now.sides }
        ensures deliveries { deliveries_size self.now.deliveries.waiting ≤ MOST_DELIVERED }
    {
        self.core.counts()
    }

    /// What happened on a unit.
    pub fn log(&self, unit: Unit) -> &Log
        ensures value { IfSome (slice_get self.now.units unit) (λ u. result.now ≡ u.scripts.log) }
        ensures law { LogLaw 0 result.now.past }
        ensures unit { IfSome (slice_get self.now.units unit) IsItself }
        ensures apart { AreApart self.now.units }
    {
        self.core.units[unit.number() as usize].log()
    }

    /// The members of a unit's bundle, in link order.
    pub fn members(&self, unit: Unit) -> &[Member]
        ensures value { result.now ≡ members_in (slice_get self.now.units unit) }
        ensures apart { AreApart self.now.units }
        ensures fits { AllFit self.now.sides self.now.units }
    {
        self.core.units[unit.number() as usize].members()
    }
}
