ghost use Rattle.std.specs.Prelude.{IfOk};
ghost use Rattle.ppp_memory.specs.Line.{state_of};
ghost use Rattle.ppp_outside.specs.Line.{IsNewLine};

use crate::{
    LineParts, LineTurn, MemoryDialer, MemoryLine, NewLine, ReplayDialer, ReplayLine, ReplaySink,
};
use ppp_base::{NoMemory, Octets};
use ppp_outside::{
    DialNext, Dialer, Dialled, LineAnswer, LineGot, LineIn, LineWords, MemorySink, Scripted, Sink,
    SinkNext, Took,
};
use std::alloc::Global;
use std::test::Fail;

// A line that gives two octets at a time.
fn line(alloc: Global, octets: &[u8], failing: &[u64], room: usize) -> Result<MemoryLine, NoMemory>
    ensures { IfOk result (λ s. IsNewLine (state_of s)) }
{
    let parts = LineParts {
        octets: Vec::from_slice(alloc, octets)?,
        piece: 2,
        failing: Vec::from_slice(alloc, failing)?,
        quiet: Vec::from_slice(alloc, &[4u64])?,
        room,
    };
    MemoryLine::new(alloc, parts)
}

// The second call fails and the fourth is quiet; there is room for seven answers.
#[test]
fn line_in_memory(rt: HostRuntime) -> Result<(), Fail> {
    let rows: [(LineGot, &[u8; 3]); 8] = [
        (LineGot::Got(2), b"ab."),
        (LineGot::Failed, b"ab."),
        (LineGot::Got(2), b"cd."),
        (LineGot::Quiet, b"cd."),
        (LineGot::Got(1), b"ed."),
        (LineGot::End, b"ed."),
        (LineGot::End, b"ed."),
        (LineGot::Failed, b"ed."),
    ];
    let mut line = line(rt.alloc(), b"abcde", &[2], 7)?;
    let mut buf = *b"...";
    for (want, octets) in rows {
        assert_eq!(rt; line.read(&mut buf, 10), want);
        assert_eq!(rt; buf, *octets);
    }
    Ok(())
}

// What was set is answered at each call, until another is set.
#[test]
fn line_that_is_turned(rt: HostRuntime) -> Result<(), Fail> {
    let rows = [
        (LineTurn::Quiet, LineGot::Quiet),
        (LineTurn::Fails, LineGot::Failed),
        (LineTurn::Gives, LineGot::Got(2)),
        (LineTurn::Gives, LineGot::Quiet),
        (LineTurn::Gives, LineGot::End),
    ];
    let mut line = line(rt.alloc(), b"ab", &[], 9)?;
    let mut buf = [0; 3];
    for (turn, want) in rows {
        line.next_is(&turn);
        assert_eq!(rt; line.read(&mut buf, 10), want);
    }
    assert_eq!(rt; line.read(&mut [], 10), LineGot::End);
    Ok(())
}

fn words(text: &str) -> LineWords {
    LineWords::Socket(Octets::from_octets(text.as_bytes()).unwrap_or(Octets::new()))
}

fn new_line(alloc: Global, octets: &[u8]) -> Result<NewLine, NoMemory> {
    let output = MemorySink::new(alloc, 9, 9, Vec::new(alloc))?;
    Ok(NewLine::new(line(alloc, octets, &[], 9)?, output))
}

// The first octets of a line that is dialled, or none where the dial failed.
fn dial_and_read<D: Dialer>(dialer: &mut D, words: &LineWords) -> Option<LineGot> {
    let mut buf = [0; 3];
    match dialer.dial(words) {
        Dialled::Line(mut input, _) => Some(input.read(&mut buf, 10)),
        Dialled::Failed => None,
    }
}

// Two lines: the second call fails, the third is told to, and the fifth finds none.
#[test]
fn dialer_in_memory(rt: HostRuntime) -> Result<(), Fail> {
    let alloc = rt.alloc();
    let mut lines = Vec::with_capacity(alloc, 2)?;
    for octets in [b"ab".as_slice(), b"c"] {
        lines.push(new_line(alloc, octets)?)?;
    }
    let mut dialer = MemoryDialer::new(alloc, lines, Vec::from_slice(alloc, &[2u64])?)?;
    let rows = [
        (DialNext::Line, "one:1", Some(LineGot::Got(2))),
        (DialNext::Line, "one:1", None),
        (DialNext::Failed, "one:1", None),
        (DialNext::Line, "two:2", Some(LineGot::Got(1))),
        (DialNext::Line, "two:2", None),
    ];
    for (next, text, want) in rows {
        dialer.next_is(&next);
        assert_eq!(rt; dial_and_read(&mut dialer, &words(text)), want);
    }
    assert_eq!(rt; dialer.asked().len(), 2);
    for (asked, text) in dialer.asked().iter().zip(["one:1", "two:2"]) {
        assert!(rt; *asked == words(text));
    }
    Ok(())
}

#[test]
fn dialer_without_record(rt: HostRuntime) {
    let mut dialer = ReplayDialer::new();
    for (next, want) in [
        (DialNext::Line, Some(LineGot::Quiet)),
        (DialNext::Failed, None),
        (DialNext::Line, Some(LineGot::Quiet)),
    ] {
        dialer.next_is(&next);
        assert_eq!(rt; dial_and_read(&mut dialer, &words("a:1")), want);
    }
}

fn gives(octets: &[u8]) -> LineAnswer {
    LineAnswer::Got(Octets::from_octets(octets).unwrap_or(Octets::new()))
}

// An answer stays until another is set, and is cut to the buffer.
#[test]
fn line_without_record(rt: HostRuntime) {
    let rows = [
        (gives(b"abcd"), LineGot::Got(3), b"abc"),
        (LineAnswer::Quiet, LineGot::Quiet, b"abc"),
        (gives(b"z"), LineGot::Got(1), b"zbc"),
        (gives(b""), LineGot::Quiet, b"zbc"),
        (LineAnswer::Failed, LineGot::Failed, b"zbc"),
        (LineAnswer::End, LineGot::End, b"zbc"),
    ];
    let mut line = ReplayLine::new();
    let mut buf = [0; 3];
    for (answer, want, octets) in rows {
        line.next_is(&answer);
        assert_eq!(rt; line.read(&mut buf, 10), want);
        assert_eq!(rt; buf, *octets);
    }
    line.next_is(&gives(b"a"));
    assert_eq!(rt; line.read(&mut [], 10), LineGot::Quiet);
}

#[test]
fn sink_without_record(rt: HostRuntime) {
    let mut sink = ReplaySink::new();
    for (next, want) in [
        (SinkNext::Takes, Took::Took(2)),
        (SinkNext::Fails, Took::Failed),
        (SinkNext::Takes, Took::Took(2)),
    ] {
        sink.next_is(&next);
        assert_eq!(rt; sink.write(b"ab"), want);
    }
}
