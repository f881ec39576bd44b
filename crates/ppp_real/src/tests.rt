use crate::{RealClock, RealFiles};
use ppp_outside::{Clock, Files, WholeFile};
use std::fs;
use std::test::Fail;

#[test]
fn clock_goes_on(rt: HostRuntime) -> Result<(), Fail> {
    let mut clock = RealClock::new(rt);
    let first = clock.now_ms();
    clock.rest(20);
    let second = clock.now_ms();
    assert!(rt; second >= first.saturating_add(20));
    Ok(())
}

// A file, a name that isn't there, and a folder.
#[test]
fn files_are_read_whole(rt: HostRuntime) -> Result<(), Fail> {
    let name = format!(in rt.alloc(); "/tmp/ppp_real_file_{}", std::process::id(rt.process()))?;
    fs::write(&rt, name.as_str(), b"one\ntwo\n")?;
    let mut files = RealFiles::new(rt);
    match files.whole(rt.alloc(), name.as_str()) {
        WholeFile::Bytes(octets) => assert_eq!(rt; octets.as_slice(), b"one\ntwo\n".as_slice()),
        _ => panic!(rt; "the file was not read"),
    }
    fs::remove_file(&rt, name.as_str())?;
    match files.whole(rt.alloc(), name.as_str()) {
        WholeFile::NoFile => {}
        _ => panic!(rt; "a file that isn't there"),
    }
    match files.whole(rt.alloc(), "/tmp") {
        WholeFile::Failed => Ok(()),
        _ => panic!(rt; "a folder was read"),
    }
}
