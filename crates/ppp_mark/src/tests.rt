ghost use Rattle.std.specs.Prelude.{◌≡◌};
ghost use Rattle.ppp_base.specs.declared.hook_target.HookTarget.TheVariants.{Unit as OfUnit};

use crate::{Log, Mark, ScriptLog};
use ppp_base::{HookTarget, LinkId, Name, Unit};
use ppp_outside::{HookArgs, ReplaySpawner};
use std::test::Fail;

fn args() -> HookArgs {
    HookArgs {
        unit: Unit::zero(),
        device: Name::new(),
        peer: Name::new(),
        local: [10, 0, 0, 1],
        remote: [10, 0, 0, 2],
        param: Name::new(),
    }
}

// The protocol opens, and its addresses are put. False where it may not.
fn open(scripts: &mut ScriptLog<ReplaySpawner>) -> bool
    requires { scripts.old.machine.target ≡ OfUnit 0 }
    ensures { scripts.new.machine.target ≡ OfUnit 0 }
{
    if scripts.room() < 4 || scripts.now_open().is_some() {
        return false;
    }
    scripts.opens_with_addresses(args(), 5);
    true
}

// The protocol closes, and the script that runs ends. False where none runs.
fn close(scripts: &mut ScriptLog<ReplaySpawner>) -> bool
    ensures { scripts.new.machine.target ≡ scripts.old.machine.target }
{
    if scripts.room() < 4 {
        return false;
    }
    scripts.closes(7);
    match scripts.take_job() {
        Some(job) => scripts.ended(job.run(), 8).is_ok(),
        None => false,
    }
}

#[test]
fn scripts_of_a_unit(rt: HostRuntime) -> Result<(), Fail> {
    let target = HookTarget::Unit(Unit::zero());
    let mut scripts = ScriptLog::new(rt.alloc(), target, ReplaySpawner::new(), 100)?;
    assert!(rt; open(&mut scripts) && !open(&mut scripts));
    assert!(rt; close(&mut scripts));
    assert_eq!(rt; scripts.room(), 93);
    assert_eq!(rt; (scripts.starts(), scripts.ends()), (2, 1));
    assert_eq!(rt; scripts.running(), Some(2));
    let kinds = scripts.log().marks().iter().map(|mark| mark.kind);
    assert!(rt; kinds.eq([35, 7, 36, 37, 38, 8, 7]));
    assert_eq!(rt; scripts.log().get(2), Some(Mark::local(5, [10, 0, 0, 1])));
    assert_eq!(rt; scripts.log().get(6), Some(Mark::started(8, false, 1)));
    assert_eq!(rt; scripts.log().get(7), None);
    Ok(())
}

#[test]
fn scripts_of_a_link(rt: HostRuntime) -> Result<(), Fail> {
    let target = HookTarget::Link(LinkId::new(1).expect(&rt, "a link"));
    let mut scripts = ScriptLog::new(rt.alloc(), target, ReplaySpawner::new(), 100)?;
    assert!(rt; scripts.room() == 100);
    scripts.put(Mark::attempt(3, 1));
    if scripts.room() >= 2 && scripts.now_open().is_none() {
        scripts.opens(args(), 5);
    }
    assert_eq!(rt; scripts.log().get(1), Some(Mark::auth_open(5, 1)));
    assert_eq!(rt;
        scripts.last().map(|start| (start.up, start.opening)),
        Some((true, 1))
    );
    Ok(())
}

#[test]
fn marks_have_their_numbers(rt: HostRuntime) -> Result<(), Fail> {
    let mut log = Log::new(rt.alloc(), 2)?;
    log.add(Mark::remote(9, [192, 168, 0, 2]));
    assert_eq!(rt; (log.room(), log.count()), (1, 1));
    let mark = Mark::remote(9, [192, 168, 0, 2]);
    assert_eq!(rt; log.get(0), Some(mark));
    assert_eq!(rt;
        (mark.kind, mark.x, mark.y, mark.z, mark.time),
        (37, 0, 0, 3_232_235_522, 9)
    );
    Ok(())
}
