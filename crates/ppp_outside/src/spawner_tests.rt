use crate::hook_words::{HookArgs, HookScript, HookWords, words_of};
use crate::memory_spawner::MemorySpawner;
use crate::replay_spawner::ReplaySpawner;
use crate::scripted::Scripted;
use crate::spawner::{ScriptEnd, Spawner};
use ppp_base::{Name, Unit};
use std::alloc::Global;

fn name(text: &str) -> Name {
    Name::from_octets(text.as_bytes()).unwrap_or(Name::new())
}

fn args(param: &str) -> HookArgs {
    HookArgs {
        unit: Unit::new(12).unwrap_or(Unit::zero()),
        device: name("bras:2000"),
        peer: name("alice"),
        local: [10, 0, 0, 1],
        remote: [192, 168, 255, 7],
        param: name(param),
    }
}

fn words(script: HookScript, param: &str) -> HookWords {
    HookWords {
        script,
        args: args(param),
    }
}

// The arguments as pppd(8) lists them under "Scripts".
#[test]
fn arguments_of_scripts(rt: HostRuntime) {
    let ip = [
        "ppp12",
        "bras:2000",
        "0",
        "10.0.0.1",
        "192.168.255.7",
        "site",
    ];
    let auth = ["ppp12", "alice", "-", "bras:2000", "0"];
    for script in [HookScript::IpUp, HookScript::IpDown] {
        let words = words(script, "site");
        for (at, want) in (0..8u8).zip(ip) {
            assert!(rt;
                words_of(&words, at).is_some_and(|text| text.as_slice() == want.as_bytes()),
                "ip {at}"
            );
        }
        assert!(rt; words_of(&words, 6).is_none());
        assert!(rt; words_of(&words, 255).is_none());
    }
    for script in [HookScript::AuthUp, HookScript::AuthDown] {
        let words = words(script, "site");
        for (at, want) in (0..8u8).zip(auth) {
            assert!(rt;
                words_of(&words, at).is_some_and(|text| text.as_slice() == want.as_bytes()),
                "auth {at}"
            );
        }
        assert!(rt; words_of(&words, 5).is_none());
    }
    let bare = words(HookScript::IpUp, "");
    assert!(rt; words_of(&bare, 5).is_some_and(|text| text.is_empty()));
}

// Room for two runs; the second call is to fail, and the fourth finds the record full.
#[test]
fn spawner_in_memory(rt: HostRuntime) {
    let alloc = rt.alloc();
    let failing = vec![in alloc; 2u64].expect(&rt, "memory");
    let mut spawner = MemorySpawner::new(alloc, 2, failing).expect(&rt, "memory");
    let up = words(HookScript::IpUp, "one");
    let down = words(HookScript::IpDown, "two");
    assert_eq!(rt; spawner.run(&up), ScriptEnd::Exit(0));
    assert_eq!(rt; spawner.run(&up), ScriptEnd::NotStarted);
    spawner.next_is(&ScriptEnd::Killed);
    assert_eq!(rt; spawner.run(&down), ScriptEnd::Killed);
    assert_eq!(rt; spawner.run(&down), ScriptEnd::NotStarted);
    let ran = spawner.ran();
    assert_eq!(rt; ran.len(), 2);
    assert!(rt; ran[0].words.script == HookScript::IpUp && ran[0].answer == ScriptEnd::Exit(0));
    assert!(rt; ran[1].words.script == HookScript::IpDown && ran[1].answer == ScriptEnd::Killed);
    assert!(rt; ran[1].words.args.param.as_slice() == b"two".as_slice());
}

#[test]
fn spawner_without_record(rt: HostRuntime) {
    let mut spawner = ReplaySpawner::new();
    let up = words(HookScript::AuthUp, "");
    assert_eq!(rt; spawner.run(&up), ScriptEnd::Exit(0));
    spawner.next_is(&ScriptEnd::NotStarted);
    assert_eq!(rt; spawner.run(&up), ScriptEnd::NotStarted);
    spawner.next_is(&ScriptEnd::Exit(7));
    assert_eq!(rt; spawner.run(&up), ScriptEnd::Exit(7));
}
