ghost use Rattle.std.specs.Prelude.{IfOk};
ghost use Rattle.ppp_memory.specs.Control.{state_of as control_state_of};
ghost use Rattle.ppp_memory.specs.Kit.{AreNew};
ghost use Rattle.ppp_outside.specs.Control.{IsNewControl};

use crate::{
    KitParts, MemoryClock, MemoryControl, MemoryDialer, MemoryFiles, MemoryIfaceIn, MemoryIfaceOut,
    MemoryKit,
};
use ppp_base::{Datagram, Name, NoMemory, Octets, Unit};
use ppp_outside::{
    Clock, Control, Dialer, Dialled, Files, Gave, HookPaths, IfaceGot, IfaceIn, IfaceOut, Kit,
    LineWords, MemorySpawner, WholeFile, Word,
};
use std::alloc::Global;
use std::test::Fail;

fn name(text: &str) -> Name {
    Name::from_octets(text.as_bytes()).unwrap_or(Name::new())
}

// A control that hears HUP.
fn control(alloc: Global) -> Result<MemoryControl, NoMemory>
    ensures { IfOk result (λ control. IsNewControl (control_state_of control)) }
{
    let mut words = Vec::with_capacity(alloc, 1)?;
    words.push(name("HUP"))?;
    Ok(MemoryControl::new(words, Vec::new(alloc)))
}

// The parts of a kit whose control hears HUP first, whose clock reads 5 and whose socket takes one packet.
fn parts(alloc: Global) -> Result<KitParts, NoMemory>
    ensures { IfOk result (λ parts. AreNew parts.files parts.clock parts.dialer parts.spawner parts.iface_in parts.iface_out parts.control) }
{
    Ok(KitParts {
        files: MemoryFiles::new(Vec::new(alloc), Vec::new(alloc)),
        clock: MemoryClock::new(5, Vec::new(alloc)),
        seed: 7,
        dialer: MemoryDialer::new(alloc, Vec::new(alloc), Vec::new(alloc))?,
        spawner: MemorySpawner::new(alloc, 1, Vec::new(alloc))?,
        iface_in: MemoryIfaceIn::new(Vec::new(alloc), Vec::new(alloc)),
        iface_out: MemoryIfaceOut::new(alloc, 1, Vec::new(alloc))?,
        control: control(alloc)?,
    })
}

fn kit(alloc: Global) -> Result<MemoryKit, NoMemory> {
    Ok(MemoryKit::new(alloc, parts(alloc)?))
}

// The first call for an object gives the one that the kit was made with, and the second one with nothing in it.
#[test]
fn gives_clocks_and_controls(rt: HostRuntime) -> Result<(), Fail> {
    let alloc = rt.alloc();
    let mut kit = kit(alloc)?;
    for (reading, word) in [(5, false), (0, true)] {
        assert_eq!(rt; kit.clock().now_ms(), reading);
        let mut control = kit.control(alloc, Some(&name("/run/control")))?;
        assert_eq!(rt; control.next(10) == Word::End, word);
    }
    assert_eq!(rt; kit.seed(), 7);
    let _ = kit.gate();
    Ok(())
}

#[test]
fn gives_packet_sockets(rt: HostRuntime) -> Result<(), Fail> {
    let alloc = rt.alloc();
    let mut kit = kit(alloc)?;
    for (addresses, want) in [(Some("a:1 b:2"), Gave::Gave), (None, Gave::Failed)] {
        let addresses = addresses.map(|text| name(text));
        let mut input = kit.iface_in(alloc, addresses.as_ref())?;
        let mut output = kit.iface_out(alloc, addresses.as_ref())?;
        let mut buf = Datagram::new();
        assert_eq!(rt; input.take(&mut buf, 10), IfaceGot::Quiet);
        assert_eq!(rt; output.give(Unit::zero(), &buf), want);
    }
    Ok(())
}

#[test]
fn gives_files_dialers_and_spawners(rt: HostRuntime) -> Result<(), Fail> {
    let alloc = rt.alloc();
    let mut kit = kit(alloc)?;
    let hooks = HookPaths {
        ip_up: name("/etc/ppp/ip-up"),
        ip_down: name("/etc/ppp/ip-down"),
        auth_up: name(""),
        auth_down: name(""),
    };
    let words = LineWords::Socket(Octets::new());
    for _ in 0..2u8 {
        let mut files = kit.files();
        assert!(rt; matches!(files.whole(alloc, "options"), WholeFile::NoFile));
        let mut dialer = kit.dialer(alloc)?;
        assert!(rt; matches!(dialer.dial(&words), Dialled::Failed));
        assert!(rt; kit.spawner(alloc, &hooks)?.ran().is_empty());
    }
    Ok(())
}
