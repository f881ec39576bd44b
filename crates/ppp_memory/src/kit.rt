ghost use Rattle.std.specs.Prelude.{◌≡◌, IfErr, IfOk, Some, option_map};
ghost use Rattle.ppp_memory.specs.Clock.{state_of as clock_state_of};
ghost use Rattle.ppp_memory.specs.Control.{state_of as control_state_of};
ghost use Rattle.ppp_memory.specs.Dialer.{state_of as dialer_state_of};
ghost use Rattle.ppp_memory.specs.Iface.{out_state_of, state_of as in_state_of};
ghost use Rattle.ppp_memory.specs.Kit.{AreNew, KitInMemory, no_clock, no_control, no_dialer, no_files, no_iface_in, no_iface_out, no_spawner};
ghost use Rattle.ppp_outside.specs.Clock.{IsNewClock};
ghost use Rattle.ppp_outside.specs.Control.{IsNewControl};
ghost use Rattle.ppp_outside.specs.Dialer.{IsNewDialer};
ghost use Rattle.ppp_outside.specs.Iface.{IsNewIfaceIn, IsNewIfaceOut};
ghost use Rattle.ppp_outside.specs.Kit.{AsksHooks, AsksPackets, AsksPath};
ghost use Rattle.ppp_outside.specs.Spawner.{IsNewSpawner};
ghost use Rattle.ppp_outside.specs.declared.asked.Asked.TheVariants.{NotYet};

use crate::clock::MemoryClock;
use crate::control::MemoryControl;
use crate::dialer::MemoryDialer;
use crate::files::MemoryFiles;
use crate::gate::MemoryGate;
use crate::iface_in::MemoryIfaceIn;
use crate::iface_out::MemoryIfaceOut;
use ppp_base::{Name, NoMemory};
use ppp_outside::{Asked, HookPaths, Kit, MemorySink, MemorySpawner};
use std::alloc::Global;
use std::marker::Model;
use std::mem;

/// What a kit in memory gives.
#[derive(Drop)]
pub struct KitParts {
    pub files: MemoryFiles,
    pub clock: MemoryClock,
    /// The random word.
    pub seed: u64,
    pub dialer: MemoryDialer,
    pub spawner: MemorySpawner,
    pub iface_in: MemoryIfaceIn,
    pub iface_out: MemoryIfaceOut,
    pub control: MemoryControl,
}

/// A kit in memory. The first call for an object gives the one that the kit was made with, and later calls give one
/// with nothing in it.
#[derive(Drop)]
pub struct MemoryKit {
    alloc: Global,
    files: MemoryFiles,
    clock: MemoryClock,
    seed: u64,
    dialer: MemoryDialer,
    spawner: MemorySpawner,
    iface_in: MemoryIfaceIn,
    iface_out: MemoryIfaceOut,
    control: MemoryControl,
    seeded: u64,
    hooks_asked: Asked<HookPaths>,
    path_asked: Asked<Option<Name>>,
    packets_asked: Asked<Option<Name>>,
}

impl Model for MemoryKit {
    ghost use Rattle.ppp_memory.specs.Kit.{AreNew, KitInMemory};

    ghost Value = { KitInMemory };

    ghost view = { λ s. record { files = s.files; clock = s.clock; seed = s.seed; dialer = s.dialer; spawner = s.spawner; iface_in = s.iface_in; iface_out = s.iface_out; control = s.control; told = record { seeded = s.seeded; hooks_asked = s.hooks_asked; path_asked = s.path_asked; packets_asked = s.packets_asked } } };

    ghost invariant = { λ s. AreNew s.files s.clock s.dialer s.spawner s.iface_in s.iface_out s.control };
}

impl MemoryKit {
    /// A kit that gives these objects, of which none was used.
    pub fn new(alloc: Global, parts: KitParts) -> MemoryKit
        requires { AreNew parts.files parts.clock parts.dialer parts.spawner parts.iface_in parts.iface_out parts.control }
        ensures { result ≡ record { files = parts.files; clock = parts.clock; seed = parts.seed; dialer = parts.dialer; spawner = parts.spawner; iface_in = parts.iface_in; iface_out = parts.iface_out; control = parts.control; told = record { seeded = 0; hooks_asked = NotYet; path_asked = NotYet; packets_asked = NotYet } } }
    {
        MemoryKit {
            alloc,
            files: parts.files,
            clock: parts.clock,
            seed: parts.seed,
            dialer: parts.dialer,
            spawner: parts.spawner,
            iface_in: parts.iface_in,
            iface_out: parts.iface_out,
            control: parts.control,
            seeded: 0,
            hooks_asked: Asked::NotYet,
            path_asked: Asked::NotYet,
            packets_asked: Asked::NotYet,
        }
    }
}

impl Kit for MemoryKit {
    type Files = MemoryFiles;

    type Dialer = MemoryDialer;

    type Spawner = MemorySpawner;

    type IfaceIn = MemoryIfaceIn;

    type IfaceOut = MemoryIfaceOut;

    type Control = MemoryControl;

    type Clock = MemoryClock;

    type Gate = MemoryGate;

    type Text = MemorySink;

    ghost state = { λ s. s.told };

    fn files(&mut self) -> MemoryFiles
        ensures gives { result ≡ self.old.files }
        ensures new { result.faults ≡ 0 }
        ensures after { self.new ≡ record self.old { files = no_files } }
    {
        let none = MemoryFiles::new(Vec::new(self.alloc), Vec::new(self.alloc));
        mem::replace(&mut self.files, none)
    }

    fn clock(&mut self) -> MemoryClock
        ensures gives { result ≡ self.old.clock }
        ensures new { IsNewClock (clock_state_of result) }
        ensures after { self.new ≡ record self.old { clock = no_clock } }
    {
        let none = MemoryClock::new(0, Vec::new(self.alloc));
        mem::replace(&mut self.clock, none)
    }

    fn gate(&mut self) -> MemoryGate
        ensures after { self.new ≡ self.old }
    {
        MemoryGate
    }

    fn seed(&mut self) -> u64
        ensures gives { result ≡ self.old.seed }
        ensures after { self.new ≡ record self.old { told = record self.old.told { seeded = result } } }
    {
        self.seeded = self.seed;
        self.seed
    }

    fn dialer(&mut self, alloc: Global) -> Result<MemoryDialer, NoMemory>
        ensures gives { IfOk result (λ dialer. (dialer ≡ self.old.dialer) × (self.new ≡ record self.old { dialer = no_dialer })) }
        ensures new { IfOk result (λ dialer. IsNewDialer (dialer_state_of dialer)) }
        ensures err { IfErr result (λ _. self.new ≡ self.old) }
    {
        let none = MemoryDialer::new(alloc, Vec::new(alloc), Vec::new(alloc))?;
        Ok(mem::replace(&mut self.dialer, none))
    }

    fn spawner(&mut self, alloc: Global, hooks: &HookPaths) -> Result<MemorySpawner, NoMemory>
        ensures asks { AsksHooks self.old.told self.new.told hooks.now }
        ensures gives { IfOk result (λ spawner. (spawner ≡ self.old.spawner) × (self.new ≡ record self.old { spawner = no_spawner; told = self.new.told })) }
        ensures new { IfOk result (λ spawner. IsNewSpawner spawner.tries spawner.faults (Some spawner.runs)) }
        ensures err { IfErr result (λ _. self.new ≡ record self.old { told = self.new.told }) }
    {
        self.hooks_asked.ask_hooks(hooks);
        let none = MemorySpawner::new(alloc, 0, Vec::new(alloc))?;
        Ok(mem::replace(&mut self.spawner, none))
    }

    fn iface_in(&mut self, alloc: Global, packets: Option<&Name>) -> Result<MemoryIfaceIn, NoMemory>
        ensures asks { AsksPackets self.old.told self.new.told (option_map (λ name. name.now) packets.entry) }
        ensures gives { IfOk result (λ input. (input ≡ self.old.iface_in) × (self.new ≡ record self.old { iface_in = no_iface_in; told = self.new.told })) }
        ensures new { IfOk result (λ input. IsNewIfaceIn (in_state_of input)) }
        ensures err { IfErr result (λ _. self.new ≡ record self.old { told = self.new.told }) }
    {
        self.packets_asked.ask_name(packets);
        let none = MemoryIfaceIn::new(Vec::new(alloc), Vec::new(alloc));
        Ok(mem::replace(&mut self.iface_in, none))
    }

    fn iface_out(
        &mut self,
        alloc: Global,
        packets: Option<&Name>,
    ) -> Result<MemoryIfaceOut, NoMemory>
        ensures asks { AsksPackets self.old.told self.new.told (option_map (λ name. name.now) packets.entry) }
        ensures gives { IfOk result (λ output. (output ≡ self.old.iface_out) × (self.new ≡ record self.old { iface_out = no_iface_out; told = self.new.told })) }
        ensures new { IfOk result (λ output. IsNewIfaceOut (out_state_of output)) }
        ensures err { IfErr result (λ _. self.new ≡ record self.old { told = self.new.told }) }
    {
        self.packets_asked.ask_name(packets);
        let none = MemoryIfaceOut::new(alloc, 0, Vec::new(alloc))?;
        Ok(mem::replace(&mut self.iface_out, none))
    }

    fn control(&mut self, alloc: Global, path: Option<&Name>) -> Result<MemoryControl, NoMemory>
        ensures asks { AsksPath self.old.told self.new.told (option_map (λ name. name.now) path.entry) }
        ensures gives { IfOk result (λ control. (control ≡ self.old.control) × (self.new ≡ record self.old { control = no_control; told = self.new.told })) }
        ensures new { IfOk result (λ control. IsNewControl (control_state_of control)) }
        ensures err { IfErr result (λ _. self.new ≡ record self.old { told = self.new.told }) }
    {
        self.path_asked.ask_name(path);
        let none = MemoryControl::new(Vec::new(alloc), Vec::new(alloc));
        Ok(mem::replace(&mut self.control, none))
    }
}
