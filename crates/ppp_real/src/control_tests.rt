use crate::{RealControl, RealGate};
use ppp_base::{LinkId, Name, SignalWord};
use ppp_outside::{Control, Gate, GatePlace, Word};
use std::fs;
use std::io::Write;
use std::os::unix::net::UnixStream;
use std::test::Fail;

// The words of two connections, the first of which ends without a newline. Beside words come quiet calls.
#[test]
fn control_hears_words(rt: HostRuntime) -> Result<(), Fail> {
    let path = format!(in rt.alloc(); "/tmp/ppp_real_control_{}", std::process::id(rt.process()))?;
    let name = Name::from_octets(path.as_bytes()).unwrap_or(Name::new());
    let mut control = RealControl::new(rt, Some(&name));
    assert_eq!(rt; control.next(10), Word::Quiet);
    for said in ["HUP\nTERMS\nINT\nUSR2", "USR1\nTERM\n"] {
        let mut talker = UnixStream::connect(&rt, path.as_str())?;
        talker.write_all(said.as_bytes())?;
    }
    let wanted = [
        SignalWord::Hup,
        SignalWord::Int,
        SignalWord::Usr2,
        SignalWord::Usr1,
        SignalWord::Term,
    ];
    let mut heard = 0usize;
    for _ in 0..20 {
        match control.next(50) {
            Word::Signal(signal) => {
                assert!(rt; wanted.get(heard) == Some(&signal));
                heard += 1;
            }
            word => assert_eq!(rt; word, Word::Quiet),
        }
    }
    assert_eq!(rt; heard, 5);
    // The path is taken.
    assert_eq!(rt; RealControl::new(rt, Some(&name)).next(10), Word::Failed);
    fs::remove_file(&rt, path.as_str())?;
    assert_eq!(rt; RealControl::new(rt, None).next(10), Word::End);
    Ok(())
}

#[test]
fn gate_holds_nobody_back(_rt: HostRuntime) {
    if let Some(link) = LinkId::new(1) {
        RealGate.pass(GatePlace::Read(link));
        RealGate.pass(GatePlace::Opened(link));
    }
}
