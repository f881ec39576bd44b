use crate::RealSpawner;
use ppp_base::{Name, Unit};
use ppp_outside::{HookArgs, HookPaths, HookScript, HookWords, ScriptEnd, Spawner};
use std::fs;
use std::fs::Permissions;
use std::os::unix::fs::PermissionsExt;
use std::test::Fail;

fn name(text: &str) -> Name {
    Name::from_octets(text.as_bytes()).unwrap_or(Name::new())
}

fn words(script: HookScript) -> HookWords {
    HookWords {
        script,
        args: HookArgs {
            unit: Unit::new(3).unwrap_or(Unit::zero()),
            device: name("/dev/ttyS0"),
            peer: name("alice"),
            local: [10, 0, 0, 1],
            remote: [10, 0, 0, 2],
            param: name("two words"),
        },
    }
}

const TEXT: &str = "#!/bin/sh
[ \"$#\" = 6 ] || kill -9 $$
[ \"$1,$2,$3,$4,$5,$6\" = \"ppp3,/dev/ttyS0,0,10.0.0.1,10.0.0.2,two words\" ] || exit 9
if read line; then exit 8; fi
exit 7
";

// One script ends by itself, by its arguments and its empty input; with fewer arguments it is killed; one isn't there.
#[test]
fn scripts_run(rt: HostRuntime) -> Result<(), Fail> {
    let path = format!(in rt.alloc(); "/tmp/ppp_real_script_{}", std::process::id(rt.process()))?;
    fs::write(&rt, path.as_str(), TEXT)?;
    fs::set_permissions(&rt, path.as_str(), Permissions::from_mode(0o755))?;
    let paths = HookPaths {
        ip_up: name(path.as_str()),
        ip_down: name("/tmp/ppp_real_no_script"),
        auth_up: name(path.as_str()),
        auth_down: name(""),
    };
    let mut spawner = RealSpawner::new(rt, rt.alloc(), &paths);
    let ends = [
        (HookScript::IpUp, ScriptEnd::Exit(7)),
        (HookScript::IpDown, ScriptEnd::NotStarted),
        (HookScript::AuthUp, ScriptEnd::Killed),
        (HookScript::AuthDown, ScriptEnd::NotStarted),
    ];
    for (script, end) in ends {
        assert_eq!(rt; spawner.run(&words(script)), end);
    }
    fs::remove_file(&rt, path.as_str())?;
    Ok(())
}
