use crate::{RealKit, StandardStream};
use ppp_base::{Datagram, LinkId, Name, Octets, Unit};
use ppp_outside::{
    Clock, Control, Dialer, Dialled, Files, Gate, GatePlace, Gave, HookArgs, HookPaths, HookScript,
    HookWords, IfaceGot, IfaceIn, IfaceOut, Kit, LineGot, LineIn, LineWords, ScriptEnd, Sink,
    Spawner, ToWriter, Took, WholeFile, Word,
};
use std::test::Fail;

// What needs no path and no address: nothing comes by the packet socket, and the control is at its end.
#[test]
fn kit_makes_quiet_objects(rt: HostRuntime) -> Result<(), Fail> {
    let mut kit = RealKit::new(rt);
    let mut buf = Datagram::new();
    let mut input = kit.iface_in(rt.alloc(), None)?;
    assert_eq!(rt; input.take(&mut buf, 10), IfaceGot::Quiet);
    let mut output = kit.iface_out(rt.alloc(), None)?;
    assert_eq!(rt; output.give(Unit::zero(), &buf), Gave::Gave);
    assert_eq!(rt; kit.control(rt.alloc(), None)?.next(10), Word::End);
    Ok(())
}

fn hook_words() -> HookWords {
    HookWords {
        script: HookScript::IpUp,
        args: HookArgs {
            unit: Unit::zero(),
            device: Name::new(),
            peer: Name::new(),
            local: [0; 4],
            remote: [0; 4],
            param: Name::new(),
        },
    }
}

// Files, a clock, a gate, a line and a spawner of this machine; and random words that differ.
#[test]
fn kit_makes_working_objects(rt: HostRuntime) -> Result<(), Fail> {
    let mut kit = RealKit::new(rt);
    assert!(rt;
        matches!(kit.files().whole(rt.alloc(), "/dev/null"), WholeFile::Bytes(octets) if octets.is_empty())
    );
    let mut clock = kit.clock();
    assert!(rt; clock.now_ms() <= clock.now_ms());
    let words = LineWords::Pty(Octets::from_octets(b"printf A").unwrap_or(Octets::new()));
    let mut dialer = kit.dialer(rt.alloc())?;
    let Dialled::Line(mut line, _) = dialer.dial(&words) else {
        panic!(rt; "no line")
    };
    assert_eq!(rt; line.read(&mut [0u8; 4], 5000), LineGot::Got(1));
    let empty = HookPaths {
        ip_up: Name::new(),
        ip_down: Name::new(),
        auth_up: Name::new(),
        auth_down: Name::new(),
    };
    let mut spawner = kit.spawner(rt.alloc(), &empty)?;
    assert_eq!(rt; spawner.run(&hook_words()), ScriptEnd::NotStarted);
    if let Some(link) = LinkId::new(1) {
        kit.gate().pass(GatePlace::Read(link));
    }
    assert!(rt; kit.seed() != kit.seed());
    Ok(())
}

#[test]
fn standard_streams_take(rt: HostRuntime) {
    let mut output = ToWriter::new(StandardStream::Output(rt.stdout()));
    let mut errors = ToWriter::new(StandardStream::Errors(rt.stderr()));
    assert_eq!(rt; output.write(b""), Took::Took(0));
    assert_eq!(rt; errors.write(b"A test.\n"), Took::Took(8));
}
