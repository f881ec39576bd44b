ghost use Rattle.std.specs.Prelude.{◌≡◌, ◌≤◌};

use crate::facts::{HookFacts, HookStart};
use crate::job::HookJob;
use crate::machine::HookMachine;
use ppp_base::{HookTarget, LinkId, Name, Unit};
use ppp_outside::{
    HookArgs, HookScript, HookWords, MemorySpawner, ReplaySpawner, ScriptEnd, Spawner,
};
use std::alloc::Global;
use std::test::Fail;

// A spawner whose answer tells its words: the script as 10, 20, 30 or 40, and the last octet of the remote address.
#[derive(Drop)]
struct TellingSpawner {
    tries: u64,
}

impl Spawner for TellingSpawner {
    ghost use Rattle.std.specs.Prelude.{None};

    ghost faults = { λ s. 0 };

    ghost tries = { λ s. s.tries };

    ghost runs = { λ s. None };

    ghost answers = { λ s. None };

    fn run(&mut self, words: &HookWords) -> ScriptEnd {
        self.tries = self.tries.saturating_add(1);
        let script = match words.script {
            HookScript::IpUp => 10,
            HookScript::IpDown => 20,
            HookScript::AuthUp => 30,
            HookScript::AuthDown => 40,
        };
        ScriptEnd::Exit(script + words.args.remote[3] % 10)
    }
}

fn args(opening: u8) -> HookArgs {
    HookArgs {
        unit: Unit::zero(),
        device: Name::new(),
        peer: Name::new(),
        local: [10, 0, 0, 1],
        remote: [10, 0, 0, opening],
        param: Name::new(),
    }
}

#[derive(Clone, Copy, Debug)]
enum Step {
    Open(u8),
    Close,
    // The script that runs ends, with this exit status.
    End(u8),
}

// What a step starts: up or down, and for which opening.
type Started = Option<(bool, u32)>;

// Takes a step of a machine whose openings so far are up to `greatest`. False where the step may not come here, or
// where the script that ends has another answer.
fn take_step(
    machine: &mut HookMachine<TellingSpawner>,
    job: &mut Option<HookJob<TellingSpawner>>,
    step: Step,
    greatest: &mut u8,
) -> bool
    requires { machine.old.facts.greatest ≤ greatest.old }
    ensures { machine.new.facts.greatest ≤ greatest.new }
{
    if machine.starts() == u32::MAX {
        return false;
    }
    match step {
        Step::Open(n) => {
            if n <= *greatest || machine.now_open().is_some() {
                return false;
            }
            *greatest = n;
            machine.opened(u32::from(n), args(n));
        }
        Step::Close => {
            if machine.now_open().is_none() {
                return false;
            }
            machine.closed();
        }
        Step::End(status) => return end_script(machine, job, status),
    }
    true
}

fn end_script(
    machine: &mut HookMachine<TellingSpawner>,
    job: &mut Option<HookJob<TellingSpawner>>,
    status: u8,
) -> bool
    ensures { machine.new.facts.greatest ≡ machine.old.facts.greatest }
{
    let Some(errand) = job.take() else {
        return false;
    };
    if machine.starts() == u32::MAX {
        return false;
    }
    let done = errand.run();
    done.answer() == ScriptEnd::Exit(status) && machine.ended(done).is_ok()
}

// The place of the first step that starts something else than the table says, or none.
fn first_wrong(target: HookTarget, rows: &[(Step, Started)]) -> Option<usize> {
    let mut machine = HookMachine::new(target, TellingSpawner { tries: 0 });
    let mut job = None;
    let mut greatest = 0;
    'rows: for (at, (step, want)) in rows.iter().enumerate() {
        let before = machine.starts();
        if !take_step(&mut machine, &mut job, *step, &mut greatest) {
            return Some(at);
        }
        if job.is_none() {
            job = machine.take_job();
        }
        let last = machine.last().map(|start| (start.up, start.opening));
        let started = if machine.starts() == before {
            None
        } else {
            last
        };
        if started != *want {
            return Some(at);
        }
    }
    None
}

// In each table a step, and what it starts.
const PLAIN: [(Step, Started); 5] = [
    (Step::Open(1), Some((true, 1))),
    (Step::End(11), None),
    (Step::Close, Some((false, 1))),
    (Step::End(21), None),
    (Step::Open(2), Some((true, 2))),
];

const DOWN_WHILE_UP_RUNS: [(Step, Started); 4] = [
    (Step::Open(1), Some((true, 1))),
    (Step::Close, None),
    (Step::End(11), Some((false, 1))),
    (Step::End(21), None),
];

// A down has the words of its up, whatever is open when it starts.
const DOWN_AND_UP_AGAIN: [(Step, Started); 6] = [
    (Step::Open(1), Some((true, 1))),
    (Step::Close, None),
    (Step::Open(2), None),
    (Step::End(11), Some((false, 1))),
    (Step::End(21), Some((true, 2))),
    (Step::End(12), None),
];

const DOWN_UP_DOWN: [(Step, Started); 7] = [
    (Step::Open(1), Some((true, 1))),
    (Step::Close, None),
    (Step::Open(2), None),
    (Step::Close, None),
    (Step::End(11), Some((false, 1))),
    (Step::End(21), None),
    (Step::Open(5), Some((true, 5))),
];

const UP_WHILE_DOWN_RUNS: [(Step, Started); 6] = [
    (Step::Open(3), Some((true, 3))),
    (Step::End(33), None),
    (Step::Close, Some((false, 3))),
    (Step::Open(4), None),
    (Step::End(43), Some((true, 4))),
    (Step::End(34), None),
];

fn first_wrong_of_unit(rows: &[(Step, Started)]) -> Option<usize> {
    first_wrong(HookTarget::Unit(Unit::zero()), rows)
}

#[test]
fn starts_of_a_unit(rt: HostRuntime) {
    assert_eq!(rt; first_wrong_of_unit(&PLAIN), None);
    assert_eq!(rt; first_wrong_of_unit(&DOWN_WHILE_UP_RUNS), None);
    assert_eq!(rt; first_wrong_of_unit(&DOWN_AND_UP_AGAIN), None);
    assert_eq!(rt; first_wrong_of_unit(&DOWN_UP_DOWN), None);
}

#[test]
fn starts_of_a_link(rt: HostRuntime) {
    let link = LinkId::new(16).expect(&rt, "a link");
    assert_eq!(rt;
        first_wrong(HookTarget::Link(link), &UP_WHILE_DOWN_RUNS),
        None
    );
}

// The first call of the spawner fails. That is an end too, so the down follows.
#[test]
fn a_script_that_is_not_started(rt: HostRuntime) {
    let alloc = rt.alloc();
    let failing = vec![in alloc; 1u64].expect(&rt, "memory");
    let spawner = MemorySpawner::new(alloc, 2, failing).expect(&rt, "memory");
    let mut machine = HookMachine::new(HookTarget::Unit(Unit::zero()), spawner);
    machine.opened(1, args(1));
    assert_eq!(rt; machine.running(), Some(1));
    let done = machine.take_job().expect(&rt, "a job").run();
    assert!(rt; machine.take_job().is_none());
    assert_eq!(rt; done.answer(), ScriptEnd::NotStarted);
    assert!(rt; machine.ended(done).is_ok());
    assert_eq!(rt; machine.ends(), 1);
    assert_eq!(rt; machine.running(), None);
    assert_eq!(rt; machine.now_open(), Some(1));
    machine.closed();
    assert_eq!(rt;
        machine.last(),
        Some(HookStart {
            up: false,
            opening: 1
        })
    );
    let done = machine.take_job().expect(&rt, "a job").run();
    assert_eq!(rt; done.answer(), ScriptEnd::Exit(0));
}

// The job of one machine is no job of another one. It is given back, and can be taken back by its own.
#[test]
fn another_machines_job(rt: HostRuntime) {
    let mut machine = HookMachine::new(HookTarget::Unit(Unit::zero()), ReplaySpawner::new());
    let mut other = HookMachine::new(
        HookTarget::Unit(Unit::new(1).expect(&rt, "a unit")),
        ReplaySpawner::new(),
    );
    machine.opened(1, args(1));
    other.opened(1, args(1));
    let mut job = machine.take_job().expect(&rt, "a job");
    assert!(rt; other.take_job().is_some());
    assert_eq!(rt; job.number(), 1);
    job.next_is(&ScriptEnd::Killed);
    match other.ended(job.run()) {
        Ok(()) => assert!(rt; false),
        Err(done) => {
            assert_eq!(rt; other.ends(), 0);
            assert_eq!(rt; done.number(), 1);
            assert_eq!(rt; done.answer(), ScriptEnd::Killed);
            assert!(rt; machine.ended(done).is_ok());
        }
    }
}

#[test]
fn facts_without_a_spawner(rt: HostRuntime) -> Result<(), Fail> {
    let link = LinkId::new(1).expect(&rt, "in range");
    let target = HookTarget::Link(link);
    let mut facts = HookFacts::new();
    assert!(rt; facts.words(target).is_none() && facts.last_start().is_none());
    facts.opened(4, args(4));
    assert!(rt; facts.open_number() == Some(4) && facts.running() == Some(1));
    facts.closed();
    facts.ended(ScriptEnd::Exit(0));
    let down = HookStart {
        up: false,
        opening: 4,
    };
    assert!(rt; facts.last_start() == Some(down) && facts.open_number().is_none());
    assert_eq!(rt; (facts.greatest(), facts.starts(), facts.ends()), (4, 2, 1));
    let words = facts.words(target).expect(&rt, "a script runs");
    assert!(rt; words.script == HookScript::AuthDown);
    Ok(())
}
