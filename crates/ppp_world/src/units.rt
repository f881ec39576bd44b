ghost use Rattle.std.specs.Prelude.{◌≡◌, ◌≤◌, IfSome, true};
ghost use Rattle.ppp_mark.specs.Table.{is_kind};

use crate::out::mark_at;
use crate::place::take_numbered;
use ppp_base::{NoMemory, Unit};
use ppp_hooks::{HookDone, HookJob};
use ppp_mark::Mark;
use ppp_outside::{ReplaySpawner, ScriptEnd};
use ppp_table::Table;
use std::alloc::Global;

/// How many units there are.
pub const UNITS: usize = 16;

/// What the world keeps of a unit: its script that is out, and how many of its marks were told.
#[derive(Drop)]
pub struct UnitPlace {
    job: Option<HookJob<ReplaySpawner>>,
    told: u32,
}

impl UnitPlace {
    /// Nothing is out, and nothing was told.
    pub fn new() -> UnitPlace {
        UnitPlace { job: None, told: 0 }
    }

    /// Takes the script out that waits.
    pub fn take_errands(&mut self, table: &mut Table<ReplaySpawner>, unit: Unit) {
        if self.job.is_none() {
            self.job = table.take_job(unit);
        }
    }

    /// The script of this job, where it runs, ends so.
    pub fn hook_ends(&mut self, number: u32, answer: ScriptEnd) -> Option<HookDone<ReplaySpawner>> {
        let mut job = take_numbered(&mut self.job, number)?;
        job.next_is(&answer);
        Some(job.run())
    }

    /// Its marks so far count as told.
    pub fn all_told(&mut self, table: &Table<ReplaySpawner>, unit: Unit) {
        self.told = table.log(unit).count();
    }

    /// How many of its marks weren't told.
    pub fn fresh(&self, table: &Table<ReplaySpawner>, unit: Unit) -> u32 {
        table.log(unit).count().saturating_sub(self.told)
    }

    /// Its first mark that wasn't told.
    pub fn next_mark(&mut self, table: &Table<ReplaySpawner>, unit: Unit) -> Option<Mark>
        ensures { IfSome result (λ m. is_kind m.kind ≡ true) }
    {
        let mark = mark_at(table.log(unit), self.told)?;
        self.told = self.told.saturating_add(1);
        Some(mark)
    }
}

/// Sixteen of them.
pub fn unit_places(alloc: Global) -> Result<Vec<UnitPlace>, NoMemory> {
    let mut units = Vec::with_capacity(alloc, UNITS)?;
    for _unit in 0..UNITS {
        units.push(UnitPlace::new())?;
    }
    Ok(units)
}
