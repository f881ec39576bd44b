ghost use Rattle.std.specs.Prelude.{◌≡◌};
ghost use Rattle.ppp_outside.specs.declared.asked.Asked.TheVariants.{NotYet};

use crate::clock::RealClock;
use crate::control::RealControl;
use crate::dialer::RealDialer;
use crate::files::RealFiles;
use crate::gate::RealGate;
use crate::iface_in::RealIfaceIn;
use crate::iface_out::RealIfaceOut;
use crate::spawner::RealSpawner;
use crate::streams::StandardStream;
use ppp_base::{Name, NoMemory};
use ppp_outside::{Asked, HookPaths, Kit, ToWriter};
use std::alloc::Global;
use std::net::{Net, TcpStream};
use std::process::{Processes, SystemProcess};
use std::random::RandomSource;
use std::rt;
use std::sync::Wait;
use std::thread::Threads;

/// The kit of the real program: what it makes are the objects of this machine.
#[derive(Drop)]
pub struct RealKit<R> {
    rt: R,
    seeded: u64,
    hooks_asked: Asked<HookPaths>,
    path_asked: Asked<Option<Name>>,
    packets_asked: Asked<Option<Name>>,
}

impl<R> RealKit<R> {
    /// A kit that has made nothing.
    pub fn new(rt: R) -> RealKit<R>
        ensures seeded { result.seeded ≡ 0 }
        ensures asked { (result.hooks_asked ≡ NotYet) × (result.path_asked ≡ NotYet) × (result.packets_asked ≡ NotYet) }
    {
        RealKit {
            rt,
            seeded: 0,
            hooks_asked: Asked::NotYet,
            path_asked: Asked::NotYet,
            packets_asked: Asked::NotYet,
        }
    }
}

// A random word. Where the machine gives none, it is the time since 1970.
fn random_word<R: RandomSource + rt::Clock>(rt: &R) -> u64 {
    let mut octets = [0u8; 8];
    if rt.fill_bytes(&mut octets).is_ok() {
        return u64::from_le_bytes(octets);
    }
    match rt.since_1970() {
        Ok(time) => u64::try_from(time.as_nanos()).unwrap_or(u64::MAX),
        Err(_) => 0,
    }
}

impl<
    R: rt::Files
        + Net<Stream = TcpStream>
        + Processes<Started = SystemProcess>
        + Threads
        + Wait
        + rt::Clock
        + RandomSource
        + Copy
        + Drop
        + Send,
> Kit for RealKit<R> {
    type Files = RealFiles<R>;

    type Dialer = RealDialer<R>;

    type Spawner = RealSpawner<R>;

    type IfaceIn = RealIfaceIn<R>;

    type IfaceOut = RealIfaceOut<R>;

    type Control = RealControl<R>;

    type Clock = RealClock<R>;

    type Gate = RealGate;

    type Text = ToWriter<StandardStream>;

    ghost state = { λ s. record { seeded = s.seeded; hooks_asked = s.hooks_asked; path_asked = s.path_asked; packets_asked = s.packets_asked } };

    fn files(&mut self) -> RealFiles<R> {
        RealFiles::new(self.rt)
    }

    fn clock(&mut self) -> RealClock<R> {
        RealClock::new(self.rt)
    }

    fn gate(&mut self) -> RealGate {
        RealGate
    }

    fn seed(&mut self) -> u64 {
        self.seeded = random_word(&self.rt);
        self.seeded
    }

    fn dialer(&mut self, alloc: Global) -> Result<RealDialer<R>, NoMemory> {
        Ok(RealDialer::new(self.rt, alloc))
    }

    fn spawner(&mut self, alloc: Global, hooks: &HookPaths) -> Result<RealSpawner<R>, NoMemory> {
        self.hooks_asked.ask_hooks(hooks);
        Ok(RealSpawner::new(self.rt, alloc, hooks))
    }

    fn iface_in(
        &mut self,
        _alloc: Global,
        packets: Option<&Name>,
    ) -> Result<RealIfaceIn<R>, NoMemory> {
        self.packets_asked.ask_name(packets);
        Ok(RealIfaceIn::new(self.rt, packets))
    }

    fn iface_out(
        &mut self,
        _alloc: Global,
        packets: Option<&Name>,
    ) -> Result<RealIfaceOut<R>, NoMemory> {
        self.packets_asked.ask_name(packets);
        Ok(RealIfaceOut::new(self.rt, packets))
    }

    fn control(&mut self, _alloc: Global, path: Option<&Name>) -> Result<RealControl<R>, NoMemory> {
        self.path_asked.ask_name(path);
        Ok(RealControl::new(self.rt, path))
    }
}
