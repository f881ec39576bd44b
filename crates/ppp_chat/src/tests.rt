ghost use Rattle.std.specs.Prelude.{◌≡◌};
ghost use Rattle.ppp_chat.specs.ChatState.{IsBegun};

use super::*;
use arrayvec::ArrayVec;
use std::alloc::{AllocError, Global};
use std::process::Abort;
use std::test::Fail;

/// An answer that is wanted.
#[derive(Clone, Copy, Debug)]
enum Wanted {
    Going,
    Sent(&'static [u8]),
    Done,
    TimedOut,
    Aborted(u8),
}

/// An octet that comes at a moment, or the moment alone, and the answer that is wanted.
type Call = (Option<u8>, u64, Wanted);

fn answer(wanted: Wanted) -> ChatNow {
    match wanted {
        Wanted::Going => ChatNow::Going,
        Wanted::Sent(octets) => ChatNow::Sent(SentOctets::from_octets(octets).unwrap_or_default()),
        Wanted::Done => ChatNow::Done,
        Wanted::TimedOut => ChatNow::TimedOut,
        Wanted::Aborted(number) => ChatNow::Aborted(number),
    }
}

fn vecs(alloc: Global, words: &[&[u8]]) -> Result<Vec<Vec<u8>>, AllocError> {
    let mut all = Vec::new(alloc);
    for word in words {
        all.push(word.to_vec(alloc)?)?;
    }
    Ok(all)
}

fn script(alloc: Global, words: &[&[u8]]) -> Result<Script, Fail> {
    Ok(Script::read(alloc, vecs(alloc, words)?.as_slice(), 45)?)
}

fn hear(rt: &impl Abort, chat: &mut Chat, calls: &[Call])
    requires { IsBegun chat.old }
    ensures { IsBegun chat.new }
{
    'calls: for (octet, now, wanted) in calls {
        let answered = match *octet {
            Some(octet) => chat.octet(octet, *now),
            None => chat.tick(*now),
        };
        assert_eq!(rt; answered, answer(*wanted));
    }
}

fn run(rt: &impl Abort, chat: &mut Chat, begun: Wanted, calls: &[Call]) {
    assert_eq!(rt; chat.begin(0), answer(begun));
    hear(rt, chat, calls);
}

#[test]
fn a_busy_line_aborts(rt: HostRuntime) -> Result<(), Fail> {
    let words: [&[u8]; 6] = [b"ABORT", b"BUSY", b"''", b"ATDT5", b"CONNECT", b"''"];
    let calls: [Call; 6] = [
        (Some(b'B'), 1, Wanted::Going),
        (Some(b'U'), 2, Wanted::Going),
        (Some(b'S'), 3, Wanted::Going),
        (Some(b'Y'), 4, Wanted::Aborted(1)),
        (Some(b'Y'), 5, Wanted::Aborted(1)),
        (None, 99_999, Wanted::Aborted(1)),
    ];
    let mut chat = Chat::new(script(rt.alloc(), &words)?);
    let dialled = Wanted::Sent(&[0x41, 0x54, 0x44, 0x54, 0x35, 0x0d]);
    run(&rt, &mut chat, dialled, &calls);
    run(&rt, &mut chat, dialled, &calls);
    Ok(())
}

#[test]
fn a_late_string_sends_its_part(rt: HostRuntime) -> Result<(), Fail> {
    let words: [&[u8]; 4] = [b"''", b"AT", b"OK-ATZ-OK", b"ATD"];
    let calls: [Call; 4] = [
        (None, 44_999, Wanted::Going),
        (None, 45_000, Wanted::Sent(b"ATZ\r")),
        (None, 89_999, Wanted::Going),
        (None, 90_000, Wanted::TimedOut),
    ];
    let mut chat = Chat::new(script(rt.alloc(), &words)?);
    run(&rt, &mut chat, Wanted::Sent(b"AT\r"), &calls);
    Ok(())
}

#[test]
fn a_delay_cuts_a_send(rt: HostRuntime) -> Result<(), Fail> {
    let words: [&[u8]; 4] = [b"''", b"a\\dp", b"OK", b"''"];
    let calls: [Call; 6] = [
        (Some(b'O'), 999, Wanted::Going),
        (None, 1000, Wanted::Sent(b"p\r")),
        (Some(b'K'), 1001, Wanted::Going),
        (Some(b'O'), 1002, Wanted::Going),
        (Some(b'K'), 1003, Wanted::Sent(b"\r")),
        (Some(b'K'), 1004, Wanted::Done),
    ];
    let mut chat = Chat::new(script(rt.alloc(), &words)?);
    run(&rt, &mut chat, Wanted::Sent(b"a"), &calls);
    Ok(())
}

#[test]
fn a_cleared_string_is_not_counted(rt: HostRuntime) -> Result<(), Fail> {
    let words: [&[u8]; 8] = [
        b"ABORT",
        b"A",
        b"ABORT",
        b"B",
        b"CLR_ABORT",
        b"A",
        b"X",
        b"''",
    ];
    let calls: [Call; 2] = [
        (Some(b'A'), 1, Wanted::Going),
        (Some(b'B'), 2, Wanted::Aborted(1)),
    ];
    let mut chat = Chat::new(script(rt.alloc(), &words)?);
    run(&rt, &mut chat, Wanted::Going, &calls);
    Ok(())
}

#[test]
fn other_rows(rt: HostRuntime) -> Result<(), Fail> {
    let rows: [(&[&[u8]], Wanted, &[Call]); 10] = [
        (
            &[b"''", b"A", b"''", b"B", b"OK", b"''"],
            Wanted::Sent(b"A\r"),
            &[
                (Some(b'O'), 100, Wanted::Sent(b"B\r")),
                (Some(b'K'), 101, Wanted::Going),
                (None, 45_099, Wanted::Going),
                (None, 45_100, Wanted::TimedOut),
            ],
        ),
        (
            &[
                b"TIMEOUT", b"1", b"ABORT", b"B", b"ABORT", b"AB", b"AB", b"''", b"X", b"''",
            ],
            Wanted::Going,
            &[
                (Some(b'A'), 1, Wanted::Going),
                (Some(b'B'), 2, Wanted::Sent(b"\r")),
                (Some(b'A'), 3, Wanted::Going),
                (Some(b'B'), 4, Wanted::Aborted(1)),
            ],
        ),
        (
            &[b"TIMEOUT", b"1", b"A", b"''"],
            Wanted::Going,
            &[(Some(b'A'), 1000, Wanted::TimedOut)],
        ),
        (
            &[b"''", b"\\d\\dA"],
            Wanted::Going,
            &[
                (None, 1500, Wanted::Going),
                (None, 2499, Wanted::Going),
                (None, 2500, Wanted::Sent(b"A\r")),
                (None, 2501, Wanted::Done),
            ],
        ),
        (
            &[b"''", b"A", b"''", b"\\pB"],
            Wanted::Sent(b"A\r"),
            &[(None, 99, Wanted::Going), (None, 100, Wanted::Sent(b"B\r"))],
        ),
        (
            &[b"OK-AT", b"ATD"],
            Wanted::Going,
            &[
                (None, 45_000, Wanted::Sent(b"AT\r")),
                (None, 45_001, Wanted::Sent(b"ATD\r")),
                (None, 45_002, Wanted::Done),
            ],
        ),
        (
            &[b"ABORT", b"''", b"A", b"''"],
            Wanted::Going,
            &[(Some(b'B'), 1, Wanted::Aborted(1))],
        ),
        (
            &[
                b"ABORT",
                b"A",
                b"CLR_ABORT",
                b"A",
                b"ABORT",
                b"A",
                b"X",
                b"''",
            ],
            Wanted::Going,
            &[(Some(b'A'), 1, Wanted::Aborted(1))],
        ),
        (
            &[b"''", b"AT", b"ABORT"],
            Wanted::Sent(b"AT\r"),
            &[(None, 1, Wanted::Done)],
        ),
        (
            &[b"TIMEOUT", b"0000000001", b"A", b"''"],
            Wanted::Going,
            &[(None, 999, Wanted::Going), (None, 1000, Wanted::TimedOut)],
        ),
    ];
    for (words, begun, calls) in rows {
        let mut chat = Chat::new(script(rt.alloc(), words)?);
        run(&rt, &mut chat, begun, calls);
    }
    Ok(())
}

#[test]
fn octets_that_are_sent_become_a_vector(rt: HostRuntime) -> Result<(), Fail> {
    let words: [&[u8]; 2] = [b"''", b"^C\\101\\c"];
    let mut chat = Chat::new(script(rt.alloc(), &words)?);
    let ChatNow::Sent(sent) = chat.begin(7) else {
        return Err(Fail::from("nothing is sent"));
    };
    let octets = ArrayVec::from(sent);
    assert_eq!(rt; octets.as_slice(), [0x03, 0x41].as_slice());
    Ok(())
}

#[test]
fn each_fault_has_its_word(rt: HostRuntime) -> Result<(), Fail> {
    let long: [u8; 513] = [b'a'; 513];
    let escape: [&[u8]; 2] = [b"''", b"\\z"];
    let number: [&[u8]; 2] = [b"TIMEOUT", b"65536"];
    let too_long: [&[u8]; 1] = [&long];
    let digits: [&[u8]; 2] = [b"TIMEOUT", b"00000000001"];
    let part: [&[u8]; 1] = [b"a-\\z-b"];
    let octal: [&[u8]; 2] = [b"''", b"\\400"];
    let rows: [(&[&[u8]], ScriptFault); 6] = [
        (&digits, ScriptFault::BadNumber(2)),
        (&part, ScriptFault::BadEscape(1)),
        (&octal, ScriptFault::BadEscape(2)),
        (&escape, ScriptFault::BadEscape(2)),
        (&number, ScriptFault::BadNumber(2)),
        (&too_long, ScriptFault::TooLong(1)),
    ];
    for (words, fault) in rows {
        match Script::read(rt.alloc(), vecs(rt.alloc(), words)?.as_slice(), 45) {
            Ok(_) => return Err(Fail::from("a script")),
            Err(found) => assert_eq!(rt; found, fault),
        }
    }
    Ok(())
}

#[test]
fn a_fifty_first_abort_string_is_refused(rt: HostRuntime) -> Result<(), Fail> {
    let mut words = Vec::new(rt.alloc());
    for _ in 0..51 {
        words.push(b"ABORT".to_vec(rt.alloc())?)?;
        words.push(b"A".to_vec(rt.alloc())?)?;
    }
    let whole = Script::read(rt.alloc(), words.as_slice(), 45);
    assert!(rt; matches!(whole, Err(ScriptFault::TooManyAborts(102))));
    let shorter = Script::read(rt.alloc(), &words.as_slice()[..1], 45);
    assert!(rt; shorter.is_ok());
    Ok(())
}
