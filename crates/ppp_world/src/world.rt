ghost use Rattle.std.specs.Prelude.{◌≡◌, ◌<◌, ◌++◌, IfNone, IfOk, IfSome, OnSome, [], option_map, option_to_list, replicate, true};
ghost use Rattle.ppp_mark.specs.Table.{is_kind};
ghost use Rattle.ppp_table_parts.specs.Deliveries.{piece_of};
ghost use Rattle.ppp_world.specs.World.{new_spawner};

use crate::out::WorldOut;
use crate::place::LinkPlace;
use crate::units::{UnitPlace, unit_places};
use ppp_base::{LinkId, NoMemory, RandomWords, Unit};
use ppp_carry::carry;
use ppp_mark::{LogName, Mark};
use ppp_option_words::Config;
use ppp_outside::{DialNext, ReplaySpawner, ScriptEnd, SinkNext};
use ppp_secrets::SecretsPair;
use ppp_table::{Delivery, Table, TableEvent};
use ppp_trace::WorldStep;
use rand_core::Rng;
use std::alloc::Global;
use std::marker::Model;

/// The links and units of a configuration, over the outside in memory.
#[derive(Drop)]
pub struct World {
    links: Vec<LinkPlace>,
    units: Vec<UnitPlace>,
    table: Table<ReplaySpawner>,
    // The place of the object whose marks are told next: links first, then units.
    at: usize,
    // How many of the last step's new marks weren't taken yet.
    fresh: u32,
}

impl Model for World {
    ghost use Rattle.ppp_world.specs.World.{WorldState};

    ghost Value = { WorldState };

    ghost view = { λ w. record { fresh = w.fresh; given = w.table.deliveries.waiting } };
}

// The links of a configuration, each with the generator's state after as many turns as its number.
fn link_places(
    alloc: Global,
    config: &Config,
    secrets: &SecretsPair,
    seed: u64,
) -> Result<Vec<LinkPlace>, NoMemory> {
    let mut words = RandomWords::new(seed);
    let mut links = Vec::new(alloc);
    let mut number = 0u8;
    for own in config.links.as_slice() {
        let _ = words.next_u32();
        number = number.saturating_add(1);
        let Some(id) = LinkId::new(number) else {
            return Ok(links);
        };
        links.push(LinkPlace::new(alloc, id, own, secrets, words.state(), config.loglimit)?)?;
    }
    Ok(links)
}

// Sixteen spawners.
fn spawners(alloc: Global) -> Result<Vec<ReplaySpawner>, NoMemory>
    ensures { IfOk result (λ spawners. spawners.items ≡ replicate 16 new_spawner) }
{
    let mut spawners = Vec::new(alloc);
    for _unit in 0..16u8 {
        spawners.insert(0, ReplaySpawner::new())?;
    }
    Ok(spawners)
}

impl World {
    /// A world in which nothing has happened. All memory that it ever needs is taken here.
    pub fn new(
        alloc: Global,
        config: &Config,
        secrets: SecretsPair,
        seed: u64,
    ) -> Result<World, NoMemory> {
        let links = link_places(alloc, config, &secrets, seed)?;
        let table = Table::new(alloc, config, secrets, spawners(alloc)?)?;
        Ok(World {
            links,
            units: unit_places(alloc)?,
            table,
            at: 0,
            fresh: 0,
        })
    }

    /// One step of a trace. What is left of the marks and deliveries of the last one is dropped.
    pub fn step(&mut self, step: &WorldStep) -> WorldOut {
        self.drop_rest();
        let out = self.takes(step);
        self.count_fresh();
        out
    }

    // What a step does.
    fn takes(&mut self, step: &WorldStep) -> WorldOut {
        match step {
            WorldStep::TableTick { ms } => WorldOut::silent(self.table_takes(TableEvent::Tick(
                *ms,
            ))),
            WorldStep::UnitHook { unit, job, answer } => {
                WorldOut::silent(self.unit_hook(*unit, *job, *answer))
            }
            WorldStep::Packet { unit, datagram } => {
                WorldOut::silent(self.table_takes(TableEvent::Packet(*unit, datagram.copy())))
            }
            WorldStep::Carry { link } => WorldOut::silent(self.carries(*link)),
            _ => self.link_takes(step),
        }
    }

    /// The datagram that the last step gave first, of those that weren't taken yet.
    pub fn take_given(&mut self) -> Option<Delivery>
        ensures first { self.old.given ≡ option_to_list (option_map piece_of result) ++ self.new.given }
        ensures none { IfNone result (self.old.given ≡ []) }
        ensures marks { self.new.fresh ≡ self.old.fresh }
    {
        self.table.take_delivery()
    }

    /// The first of the last step's new marks that weren't taken yet: those of links, then those of units.
    pub fn take_mark(&mut self) -> Option<(LogName, Mark)>
        ensures fewer { OnSome result (self.new.fresh < self.old.fresh) }
        ensures kind { IfSome result (λ m. is_kind m.1.kind ≡ true) }
        ensures given { self.new.given ≡ self.old.given }
    {
        if self.fresh == 0 {
            return None;
        }
        self.fresh -= 1;
        self.find_mark()
    }

    // The first new mark of the objects whose marks aren't all told.
    fn find_mark(&mut self) -> Option<(LogName, Mark)>
        ensures same { self.new ≡ self.old }
        ensures kind { IfSome result (λ m. is_kind m.1.kind ≡ true) }
    {
        for _object in 0..32u8 {
            if let Some(mark) = self.next_mark() {
                return Some(mark);
            }
            self.at = self.at.saturating_add(1);
        }
        None
    }

    // The first mark that wasn't told of the object whose marks are told.
    fn next_mark(&mut self) -> Option<(LogName, Mark)>
        ensures same { self.new ≡ self.old }
        ensures kind { IfSome result (λ m. is_kind m.1.kind ≡ true) }
    {
        match self.at.checked_sub(self.links.len()) {
            None => self.next_of_link(),
            Some(at) => self.next_of_unit(at),
        }
    }

    // The first mark of the link that wasn't told.
    fn next_of_link(&mut self) -> Option<(LogName, Mark)>
        ensures same { self.new ≡ self.old }
        ensures kind { IfSome result (λ m. is_kind m.1.kind ≡ true) }
    {
        let number = u8::try_from(self.at).ok()?;
        let link = LinkId::new(number.saturating_add(1))?;
        let place = self.links.get_mut(self.at)?;
        let mark = place.next_mark()?;
        Some((LogName::Link(link), mark))
    }

    // The first mark of the unit at this place that wasn't told.
    fn next_of_unit(&mut self, at: usize) -> Option<(LogName, Mark)>
        ensures same { self.new ≡ self.old }
        ensures kind { IfSome result (λ m. is_kind m.1.kind ≡ true) }
    {
        let unit = Unit::new(u8::try_from(at).ok()?)?;
        let place = self.units.get_mut(at)?;
        let mark = place.next_mark(&self.table, unit)?;
        Some((LogName::Unit(unit), mark))
    }

    // Counts the new marks.
    fn count_fresh(&mut self) {
        let mut fresh = 0u32;
        for place in self.links.iter() {
            fresh = fresh.saturating_add(place.fresh());
        }
        for number in 0..16u8 {
            fresh = fresh.saturating_add(self.unit_fresh(number));
        }
        self.fresh = fresh;
    }

    // How many new marks a unit has.
    fn unit_fresh(&self, number: u8) -> u32 {
        match (Unit::new(number), self.units.get(number as usize)) {
            (Some(unit), Some(place)) => place.fresh(&self.table, unit),
            _ => 0,
        }
    }

    // What the last step made and nobody took is dropped.
    fn drop_rest(&mut self) {
        drop_given(&mut self.table);
        self.at = 0;
        for place in self.links.iter_mut() {
            place.all_told();
        }
        for number in 0..16u8 {
            self.unit_told(number);
        }
    }

    // The marks of a unit count as told.
    fn unit_told(&mut self, number: u8) {
        let Some(unit) = Unit::new(number) else {
            return;
        };
        if let Some(place) = self.units.get_mut(number as usize) {
            place.all_told(&self.table, unit);
        }
    }

    // Takes the scripts of units out that wait.
    fn take_unit_jobs(&mut self) {
        for number in 0..16u8 {
            self.take_unit_job(number);
        }
    }

    // Takes the script of a unit out, if one waits.
    fn take_unit_job(&mut self, number: u8) {
        let Some(unit) = Unit::new(number) else {
            return;
        };
        if let Some(place) = self.units.get_mut(number as usize) {
            place.take_errands(&mut self.table, unit);
        }
    }

    // An event of the table.
    fn table_takes(&mut self, event: TableEvent<ReplaySpawner>) -> bool {
        let taken = self.table.step(event).is_taken();
        self.take_unit_jobs();
        taken
    }

    // The end of a unit's script.
    fn unit_hook(&mut self, unit: Unit, number: u32, answer: ScriptEnd) -> bool {
        let Some(place) = self.units.get_mut(unit.number() as usize) else {
            return false;
        };
        let Some(done) = place.hook_ends(number, answer) else {
            return false;
        };
        self.table_takes(TableEvent::HookOver(unit, done))
    }

    // The posts between a link and the table.
    fn carries(&mut self, link: LinkId) -> bool {
        let Some(place) = self.links.get_mut(link.number() as usize - 1) else {
            return false;
        };
        carry(&mut place.link, &mut self.table);
        place.take_errands();
        self.take_unit_jobs();
        true
    }

    // A step of a link.
    fn link_takes(&mut self, step: &WorldStep) -> WorldOut {
        let Some(link) = link_of(step) else {
            return WorldOut::silent(false);
        };
        let Some(place) = self.links.get_mut(link.number() as usize - 1) else {
            return WorldOut::silent(false);
        };
        let out = place_takes(place, step);
        place.take_errands();
        out
    }
}

// The datagrams that nobody took are dropped.
fn drop_given(table: &mut Table<ReplaySpawner>) {
    'dropping: while let Some(_delivery) = table.take_delivery() {}
}

// The link that a step names, where it is one of a link.
fn link_of(step: &WorldStep) -> Option<LinkId> {
    match step {
        WorldStep::Begin { link }
        | WorldStep::DialOk { link }
        | WorldStep::DialFail { link }
        | WorldStep::Rx { link, .. }
        | WorldStep::RxAt { link, .. }
        | WorldStep::LineEnd { link }
        | WorldStep::LineFail { link }
        | WorldStep::LineLeft { link }
        | WorldStep::SentOk { link }
        | WorldStep::SentFail { link }
        | WorldStep::Tick { link, .. }
        | WorldStep::Word { link, .. }
        | WorldStep::Hook { link, .. }
        | WorldStep::Carry { link } => Some(*link),
        _ => None,
    }
}

// What a step of a link does.
fn place_takes(place: &mut LinkPlace, step: &WorldStep) -> WorldOut {
    let taken = match step {
        WorldStep::Begin { .. } => place.begins(),
        WorldStep::DialOk { .. } => place.dial_ends(DialNext::Line),
        WorldStep::DialFail { .. } => place.dial_ends(DialNext::Failed),
        WorldStep::Rx { octets, .. } => place.hears(octets),
        WorldStep::RxAt {
            session,
            offset,
            octets,
            ..
        } => place.hears_at(*session, *offset, octets),
        WorldStep::LineEnd { .. } => place.line_ends(),
        WorldStep::LineFail { .. } => place.line_fails(),
        WorldStep::LineLeft { .. } => place.line_left(),
        WorldStep::SentOk { .. } => return place.sends(SinkNext::Takes),
        WorldStep::SentFail { .. } => return place.sends(SinkNext::Fails),
        WorldStep::Tick { ms, .. } => place.ticks(*ms),
        WorldStep::Word { word, .. } => place.hears_signal(*word),
        WorldStep::Hook { job, answer, .. } => place.hook_ends(*job, *answer),
        _ => false,
    };
    WorldOut::silent(taken)
}
