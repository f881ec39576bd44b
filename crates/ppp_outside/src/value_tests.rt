use crate::{
    Asked, HookPaths, LineAnswer, LineWords, MemorySink, Scripted, Sink, SinkNext, Took,
    write_whole,
};
use ppp_base::{Name, Octets};
use std::test::Fail;

fn name(text: &str) -> Name {
    Name::from_octets(text.as_bytes()).unwrap_or(Name::new())
}

fn paths(auth_down: &str) -> HookPaths {
    HookPaths {
        ip_up: name("/etc/ppp/ip-up"),
        ip_down: name("/etc/ppp/ip-down"),
        auth_up: name("/etc/ppp/auth-up"),
        auth_down: name(auth_down),
    }
}

// What is told of an `Asked`: 0 for no call, 1 for one value of all, 2 for several.
fn kind<T>(asked: &Asked<T>) -> u8 {
    match asked {
        Asked::NotYet => 0,
        Asked::Always(_) => 1,
        Asked::Mixed => 2,
    }
}

#[test]
fn names_asked_for(rt: HostRuntime) {
    let rows: [(&[Option<&str>], u8); 7] = [
        (&[], 0),
        (&[None], 1),
        (&[None, None], 1),
        (&[Some("a"), Some("a")], 1),
        (&[Some("a"), Some("b")], 2),
        (&[Some("a"), None, Some("a")], 2),
        (&[None, Some("a")], 2),
    ];
    for (names, want) in rows {
        let mut asked = Asked::NotYet;
        for text in names {
            match text {
                Some(text) => asked.ask_name(Some(&name(text))),
                None => asked.ask_name(None),
            }
        }
        assert_eq!(rt; kind(&asked), want, "{names:?}");
    }
}

#[test]
fn paths_asked_for(rt: HostRuntime) {
    let rows: [(&[&str], u8); 4] = [
        (&[], 0),
        (&["a", "a"], 1),
        (&["a", "b"], 2),
        (&["a", "b", "a"], 2),
    ];
    for (list, want) in rows {
        let mut asked = Asked::NotYet;
        for text in list {
            asked.ask_hooks(&paths(text));
        }
        assert_eq!(rt; kind(&asked), want, "{list:?}");
    }
}

#[test]
fn copies_are_equal(rt: HostRuntime) {
    let words = [
        (LineWords::Socket(name("/run/line")), true),
        (LineWords::Socket(name("bras:2000")), false),
        (
            LineWords::Pty(Octets::from_octets(b"/bin/cat").unwrap_or(Octets::new())),
            false,
        ),
    ];
    for (words, is_path) in words {
        assert!(rt; words.copy() == words && words.is_unix_path() == is_path);
    }
    let octets = Octets::from_octets(b"ab").unwrap_or(Octets::new());
    let answers = [
        LineAnswer::Got(octets),
        LineAnswer::Quiet,
        LineAnswer::End,
        LineAnswer::Failed,
    ];
    for answer in answers {
        assert!(rt; answer.copy() == answer);
    }
    assert!(rt; paths("/auth-down").copy() == paths("/auth-down"));
}

// A sink takes everything or fails, as was set.
#[test]
fn sink_that_is_turned(rt: HostRuntime) -> Result<(), Fail> {
    let mut sink = MemorySink::new(rt.alloc(), 9, 2, Vec::new(rt.alloc()))?;
    for (next, want) in [
        (SinkNext::Takes, Took::Took(2)),
        (SinkNext::Fails, Took::Failed),
        (SinkNext::Takes, Took::Took(2)),
    ] {
        sink.next_is(&next);
        assert_eq!(rt; sink.write(b"abc"), want);
    }
    for (next, want) in [(SinkNext::Fails, false), (SinkNext::Takes, true)] {
        sink.next_is(&next);
        assert_eq!(rt; write_whole(&mut sink, b"xyz"), want);
    }
    assert_eq!(rt; sink.written(), b"ababxyz".as_slice());
    Ok(())
}
