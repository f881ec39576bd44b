ghost use Rattle.std.specs.Prelude.{◌≡◌, ◌↔◌, IfSome, length, slice_get};
ghost use Rattle.ppp_base.specs.Stepped.{IfStale, IsTaken, OnTaken};
ghost use Rattle.ppp_bundle.specs.UnitPart.{IsFresh, MayCome};
ghost use Rattle.ppp_bundle.specs.declared.event.BundleEvent.TheVariants as unit_event;
ghost use Rattle.ppp_table.specs.Asking.{woken};
ghost use Rattle.ppp_table.specs.TablePart.{IsFreshAt, PacketPart, TablePart, TicksBelow, is_open_in};
ghost use Rattle.ppp_table.specs.Fits.{IsWhole};
ghost use Rattle.ppp_table.specs.TableState.{AreDrained};
ghost use Rattle.ppp_table.specs.UnitStep.{IsQuiet, UnitStep};

use crate::asking::wake;
use crate::core_state::TableCore;
use crate::event::TableEvent;
use ppp_base::{Datagram, Stepped, Unit};
use ppp_bundle::BundleEvent;
use ppp_hooks::HookDone;
use ppp_outside::Spawner;

impl<S: Spawner> TableCore<S> {
    // An event of a unit that is never stale, and may always come.
    pub(crate) fn unit_takes(&mut self, unit: Unit, event: BundleEvent<S>)
        requires sixteen { length self.old.units ≡ 16 }
        requires drained { AreDrained self.old.units }
        requires may { IfSome (slice_get self.old.units unit) (MayCome event) }
        requires fresh { IfSome (slice_get self.old.units unit) (IsFresh event) }
        ensures step { UnitStep unit event self.old self.new }
        ensures sixteen { length self.new.units ≡ 16 }
        ensures drained { AreDrained self.new.units }
    {
        let _ = self.unit_step(unit, event);
    }

    // One by which no bundle is made, and no link comes in or goes out.
    #[tactic(auto, using(crate::proofs::Wholes::whole_keeps))]
    pub(crate) fn unit_keeps(&mut self, unit: Unit, event: BundleEvent<S>)
        requires whole { IsWhole self.old }
        requires quiet { IsQuiet event }
        requires may { IfSome (slice_get self.old.units unit) (MayCome event) }
        requires fresh { IfSome (slice_get self.old.units unit) (IsFresh event) }
        ensures step { UnitStep unit event self.old self.new }
        ensures whole { IsWhole self.new }
    {
        self.unit_takes(unit, event);
    }

    // Whether IPCP of a unit is in Opened.
    fn is_open(&self, unit: Unit) -> bool
        requires sixteen { length self.now.units ≡ 16 }
        ensures { result ≡ is_open_in (slice_get self.now.units unit) }
    {
        self.units[unit.number() as usize].opened()
    }

    // The links are woken that are to dial on demand.
    fn wake_for(&mut self, unit: Unit)
        requires whole { IsWhole self.old }
        ensures new { self.new ≡ woken unit self.old }
        ensures whole { IsWhole self.new }
    {
        wake(unit, self.links.as_slice(), &mut self.sides);
    }

    // A packet comes for a unit.
    fn packet(&mut self, unit: Unit, datagram: Datagram)
        requires whole { IsWhole self.old }
        ensures part { PacketPart unit datagram self.old self.new }
        ensures whole { IsWhole self.new }
    {
        let is_open = self.is_open(unit);
        self.unit_keeps(unit, BundleEvent::Datagram(datagram));
        if !is_open {
            self.wake_for(unit);
        }
        self.packets = self.packets.saturating_add(1);
    }

    // Each unit is told the time.
    #[tactic(auto, using(crate::proofs::Ticks::no_ticks, crate::proofs::Ticks::tick_more))]
    fn tick(&mut self, now: u64)
        requires whole { IsWhole self.old }
        ensures part { TicksBelow 16 now self.old self.new }
        ensures whole { IsWhole self.new }
    {
        for number in 0..16u8 {
            self.unit_keeps(Unit::new(number).unwrap(), BundleEvent::Tick(now));
        }
    }

    // A script of a unit has ended.
    fn over(&mut self, unit: Unit, done: HookDone<S>) -> Stepped<BundleEvent<S>>
        requires whole { IsWhole self.old }
        ensures taken { IsTaken result ↔ IfSome (slice_get self.old.units unit) (IsFresh (unit_event.HookOver done)) }
        ensures step { OnTaken result (UnitStep unit (unit_event.HookOver done) self.old self.new) }
        ensures stale { IfStale result (λ back. (back ≡ unit_event.HookOver done) × (self.new ≡ self.old)) }
        ensures whole { IsWhole self.new }
    {
        self.unit_step(unit, BundleEvent::HookOver(done))
    }

    // One event.
    pub(crate) fn step(&mut self, event: TableEvent<S>) -> Stepped<TableEvent<S>>
        requires whole { IsWhole self.old }
        ensures taken { IsTaken result ↔ IsFreshAt event self.old }
        ensures part { OnTaken result (TablePart event self.old self.new) }
        ensures stale { IfStale result (λ back. (back ≡ event) × (self.new ≡ self.old)) }
        ensures whole { IsWhole self.new }
    {
        match event {
            TableEvent::Packet(unit, datagram) => self.packet(unit, datagram),
            TableEvent::Tick(now) => self.tick(now),
            TableEvent::HookOver(unit, done) => {
                return match self.over(unit, done) {
                    Stepped::Stale(BundleEvent::HookOver(done)) => {
                        Stepped::Stale(TableEvent::HookOver(unit, done))
                    }
                    _ => Stepped::Taken,
                };
            }
        }
        Stepped::Taken
    }
}
