use crate::{RealDialer, RealLineIn, RealLineOut};
use ppp_base::Octets;
use ppp_outside::{Dialer, Dialled, LineGot, LineIn, LineWords, Sink, Took};
use std::rt;
use std::sync::Wait;
use std::test::Fail;

fn command(text: &str) -> LineWords {
    LineWords::Pty(Octets::from_octets(text.as_bytes()).unwrap_or(Octets::new()))
}

// Reads until no octet has come for five seconds, and answers how many came and what came then.
fn read_all<R: Wait + rt::Clock + Drop>(input: &mut RealLineIn<R>) -> (usize, LineGot) {
    let mut buf = [0u8; 5000];
    let mut count = 0usize;
    for _ in 0..u32::MAX {
        match input.read(&mut buf, 5000) {
            LineGot::Got(more) => count = count.saturating_add(more),
            other => return (count, other),
        }
    }
    (count, LineGot::Quiet)
}

// The command hears a line, says a word, and another one as its input is closed.
#[test]
fn child_line_talks(rt: HostRuntime) -> Result<(), Fail> {
    let mut dialer = RealDialer::new(rt, rt.alloc());
    let words = command("read line; printf %s \"$line\"; cat >/dev/null; printf BYE");
    let Dialled::Line(mut input, mut output) = dialer.dial(&words) else {
        panic!(rt; "no line")
    };
    let mut buf = [0u8; 16];
    assert_eq!(rt; input.read(&mut buf, 10), LineGot::Quiet);
    assert_eq!(rt; input.read(&mut buf, 0), LineGot::Quiet);
    assert_eq!(rt; output.write(b"RING\n"), Took::Took(5));
    assert_eq!(rt; input.read(&mut buf, 5000), LineGot::Got(4));
    assert_eq!(rt; &buf[..4], b"RING".as_slice());
    drop(output);
    assert_eq!(rt; input.read(&mut buf[..2], 5000), LineGot::Got(2));
    assert_eq!(rt; input.read(&mut buf[2..], 5000), LineGot::Got(1));
    assert_eq!(rt; &buf[..3], b"BYE".as_slice());
    for _ in 0..2u8 {
        assert_eq!(rt; input.read(&mut buf, 5000), LineGot::End);
    }
    Ok(())
}

// All of an output that is greater than what waits at most, one that nobody reads, a command that isn't there, and one
// that is no text.
#[test]
fn children_write_and_end(rt: HostRuntime) -> Result<(), Fail> {
    let mut dialer = RealDialer::new(rt, rt.alloc());
    for (text, count) in [
        ("head -c 300000 /dev/zero", 300_000),
        ("exec /no/such/command", 0),
    ] {
        let Dialled::Line(mut input, _output) = dialer.dial(&command(text)) else {
            panic!(rt; "no line")
        };
        assert_eq!(rt; read_all(&mut input), (count, LineGot::End));
    }
    let Dialled::Line(mut input, _output) = dialer.dial(&command("exec yes")) else {
        panic!(rt; "no line")
    };
    assert!(rt; matches!(input.read(&mut [0u8; 9], 5000), LineGot::Got(_)));
    drop(input);
    let words = LineWords::Pty(Octets::from_octets(&[255]).unwrap_or(Octets::new()));
    assert!(rt; matches!(dialer.dial(&words), Dialled::Failed));
    Ok(())
}
