ghost use Rattle.std.specs.Prelude.{◌≡◌, IfOk, option_map, Option};
ghost use Rattle.ppp_outside.specs.Clock.{IsNewClock};
ghost use Rattle.ppp_outside.specs.Control.{IsNewControl};
ghost use Rattle.ppp_outside.specs.Dialer.{IsNewDialer};
ghost use Rattle.ppp_outside.specs.Iface.{IsNewIfaceIn, IsNewIfaceOut};
ghost use Rattle.ppp_outside.specs.Kit.{AsksHooks, AsksPackets, AsksPath, KitState};
ghost use Rattle.ppp_outside.specs.Spawner.{IsNewSpawner};

use crate::clock::Clock;
use crate::control::Control;
use crate::dialer::Dialer;
use crate::files::Files;
use crate::gate::Gate;
use crate::hook_paths::HookPaths;
use crate::iface::{IfaceIn, IfaceOut};
use crate::sink::Sink;
use crate::spawner::Spawner;
use ppp_base::{Name, NoMemory};
use std::alloc::Global;

/// What makes the objects of the outside for one run. What it opens is opened at its first use, so a file or a
/// socket that can't be opened is a fault there.
pub trait Kit: Drop {
    type Files: Files + Send;

    type Dialer: Dialer + Send;

    type Spawner: Spawner + Send;

    type IfaceIn: IfaceIn + Send;

    type IfaceOut: IfaceOut + Send;

    type Control: Control + Send;

    type Clock: Clock + Send;

    type Gate: Gate + Send + Sync;
    /// Where the report goes.
    type Text: Sink + Drop + Send;

    /// What it gave and was given.
    ghost state: { Self → KitState };

    /// The files that options and secrets are read from.
    fn files(&mut self) -> Self::Files
        ensures same { state self.new ≡ state self.old }
        ensures new { (Self.Files.state result).faults ≡ 0 };

    fn clock(&mut self) -> Self::Clock
        ensures same { state self.new ≡ state self.old }
        ensures new { IsNewClock (Self.Clock.state result) };

    fn gate(&mut self) -> Self::Gate
        ensures same { state self.new ≡ state self.old };

    /// A random word.
    fn seed(&mut self) -> u64
        ensures { state self.new ≡ record (state self.old) { seeded = result } };

    fn dialer(&mut self, alloc: Global) -> Result<Self::Dialer, NoMemory>
        ensures same { state self.new ≡ state self.old }
        ensures new { IfOk result (λ dialer. IsNewDialer (Self.Dialer.state dialer)) };

    /// A spawner of the scripts with these paths.
    fn spawner(&mut self, alloc: Global, hooks: &HookPaths) -> Result<Self::Spawner, NoMemory>
        ensures asks { AsksHooks (state self.old) (state self.new) hooks.now }
        ensures new { IfOk result (λ spawner. IsNewSpawner (Self.Spawner.tries spawner) (Self.Spawner.faults spawner) (Self.Spawner.runs spawner)) };

    /// The reading half of the packet socket with these addresses. Without addresses nothing comes.
    fn iface_in(&mut self, alloc: Global, packets: Option<&Name>) -> Result<Self::IfaceIn, NoMemory>
        ensures asks { AsksPackets (state self.old) (state self.new) (option_map (λ name. name.now) packets.entry) }
        ensures new { IfOk result (λ input. IsNewIfaceIn (Self.IfaceIn.state input)) };

    /// Its writing half. Without addresses nothing is sent.
    fn iface_out(
        &mut self,
        alloc: Global,
        packets: Option<&Name>,
    ) -> Result<Self::IfaceOut, NoMemory>
        ensures asks { AsksPackets (state self.old) (state self.new) (option_map (λ name. name.now) packets.entry) }
        ensures new { IfOk result (λ output. IsNewIfaceOut (Self.IfaceOut.state output)) };

    /// The control at this path. Without a path it is at its end.
    fn control(&mut self, alloc: Global, path: Option<&Name>) -> Result<Self::Control, NoMemory>
        ensures asks { AsksPath (state self.old) (state self.new) (option_map (λ name. name.now) path.entry) }
        ensures new { IfOk result (λ control. IsNewControl (Self.Control.state control)) };
}
