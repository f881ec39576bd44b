ghost use Rattle.std.specs.Prelude.{◌≡◌, ◌<◌, ◌↔◌, [], IfSome, length, slice_get};
ghost use Rattle.ppp_base.specs.Stepped.{IfStale, IsTaken, OnTaken};
ghost use Rattle.ppp_bundle.specs.UnitPart.{IsFresh, MayCome};
ghost use Rattle.ppp_table.specs.TableState.{AreDrained};
ghost use Rattle.ppp_table.specs.UnitStep.{UnitGoes, UnitStep};

use crate::before::Before;
use crate::draining::{drain_given, drain_sent};
use crate::news::StepNews;
use crate::telling::tell_all;
use ppp_base::{Stepped, Unit};
use ppp_bundle::{Bundle, BundleEvent};
use ppp_option_words::LinkConfig;
use ppp_outside::Spawner;
use ppp_secrets::SecretsPair;
use ppp_table_parts::deliveries::Deliveries;
use ppp_table_parts::sides::Sides;
use std::marker::Model;

// What a table keeps.
#[derive(Drop)]
pub(crate) struct TableCore<S: Spawner> {
    pub(crate) units: Vec<Bundle<S>>,
    pub(crate) sides: Sides,
    pub(crate) deliveries: Deliveries,
    pub(crate) links: Vec<LinkConfig>,
    pub(crate) secrets: SecretsPair,
    pub(crate) stranger: u64,
    pub(crate) packets: u64,
    pub(crate) taken: u64,
}

impl<S: Spawner> Model for TableCore<S> {
    ghost use Rattle.ppp_table.specs.TableState.{TableState};

    ghost Value = { TableState S };

    ghost view = { λ t. record { units = t.units.items; sides = t.sides; deliveries = t.deliveries; links = t.links.items; secrets = t.secrets; stranger = t.stranger; packets = t.packets; taken = t.taken } };
}

// An event of this unit, which may come there. What the unit sends, gives and tells goes its way.
fn step_unit<S: Spawner>(
    number: Unit,
    unit: &mut Bundle<S>,
    event: BundleEvent<S>,
    secrets: &SecretsPair,
    sides: &mut Sides,
    deliveries: &mut Deliveries,
) -> Stepped<BundleEvent<S>>
    requires may { MayCome event unit.old }
    requires sent { unit.old.sent ≡ [] }
    requires given { unit.old.given ≡ [] }
    ensures taken { IsTaken result ↔ IsFresh event unit.old }
    ensures goes { OnTaken result (UnitGoes secrets.now number event unit.old unit.new sides.old sides.new deliveries.old deliveries.new) }
    ensures stale { IfStale result (λ back. (back ≡ event) × (unit.new ≡ unit.old) × (sides.new ≡ sides.old) × (deliveries.new ≡ deliveries.old)) }
{
    let before = Before::new(unit, &event);
    match unit.step(event, secrets) {
        Stepped::Stale(event) => return Stepped::Stale(event),
        Stepped::Taken => {}
    }
    drain_sent(unit, sides);
    drain_given(number, unit, deliveries);
    tell_all(&StepNews::new(number, before, unit), sides);
    Stepped::Taken
}

impl<S: Spawner> TableCore<S> {
    // An event of one of the units, which may come there.
    pub(crate) fn unit_step(&mut self, unit: Unit, event: BundleEvent<S>) -> Stepped<BundleEvent<S>>
        requires sixteen { length self.old.units ≡ 16 }
        requires drained { AreDrained self.old.units }
        requires may { IfSome (slice_get self.old.units unit) (MayCome event) }
        ensures taken { IsTaken result ↔ IfSome (slice_get self.old.units unit) (IsFresh event) }
        ensures step { OnTaken result (UnitStep unit event self.old self.new) }
        ensures stale { IfStale result (λ back. (back ≡ event) × (self.new ≡ self.old)) }
        ensures sixteen { length self.new.units ≡ 16 }
        ensures drained { AreDrained self.new.units }
    {
        step_unit(
            unit,
            &mut self.units[unit.number() as usize],
            event,
            &self.secrets,
            &mut self.sides,
            &mut self.deliveries,
        )
    }
}
