ghost use Rattle.std.specs.Prelude.{IfOk, None};
ghost use Rattle.ppp_memory.specs.Line.{state_of};
ghost use Rattle.ppp_outside.specs.Line.{IsNewLine};
ghost use Rattle.ppp_outside.specs.MemorySink.{state_of as sink_state_of};
ghost use Rattle.ppp_outside.specs.Sink.{IsNewSink};

use crate::run::{ChatRun, chat_run};
use ppp_base::NoMemory;
use ppp_memory::{
    LineParts, MemoryClock, MemoryDialer, MemoryFiles, MemoryLine, NewLine, StoredFile,
};
use ppp_outside::MemorySink;
use std::alloc::Global;
use std::sync::Wait;
use std::test::Fail;

// What a line gives and does: its octets, which of its reads are quiet or fail, which writes fail, and how much it takes.
#[derive(Clone, Copy)]
struct Peer {
    octets: &'static [u8],
    quiet: &'static [u64],
    fails: &'static [u64],
    sends_fail: &'static [u64],
    takes: usize,
}

// A line that gives these octets, and takes whatever is sent.
fn says(octets: &'static [u8]) -> Peer {
    Peer {
        octets,
        quiet: &[],
        fails: &[],
        sends_fail: &[],
        takes: 600,
    }
}

// A line on which nothing comes.
const SILENT: Peer = Peer {
    octets: b"x",
    quiet: &[1, 2, 3, 4, 5, 6],
    fails: &[],
    sends_fail: &[],
    takes: 600,
};

// What a run came to: the status, what was sent, what was told, and how many lines were dialled.
type Came = (u8, Vec<u8>, Vec<u8>, usize);

// Words, the other end, the clock's readings behind the first, which is 0, and what is wanted: the status, and what is sent.
type Row = (
    &'static [&'static str],
    Peer,
    &'static [u64],
    u8,
    &'static [u8],
);

fn strings(alloc: Global, words: &[&str]) -> Result<Vec<String>, NoMemory> {
    let mut strings = Vec::new(alloc);
    for word in words {
        strings.push(String::from_str(alloc, word)?)?;
    }
    Ok(strings)
}

// The words, behind those that say which line is dialled.
fn with_line(alloc: Global, words: &[&'static str]) -> Result<Vec<&'static str>, NoMemory> {
    let mut all = Vec::from_slice(alloc, &["-L", "h:1"])?;
    for word in words {
        all.push(*word)?;
    }
    Ok(all)
}

fn input(alloc: Global, peer: Peer) -> Result<MemoryLine, NoMemory>
    ensures { IfOk result (λ s. IsNewLine (state_of s)) }
{
    let parts = LineParts {
        octets: Vec::from_slice(alloc, peer.octets)?,
        piece: 9,
        failing: Vec::from_slice(alloc, peer.fails)?,
        quiet: Vec::from_slice(alloc, peer.quiet)?,
        room: 40,
    };
    MemoryLine::new(alloc, parts)
}

fn output(alloc: Global, peer: Peer) -> Result<MemorySink, NoMemory>
    ensures { IfOk result (λ s. IsNewSink (sink_state_of s)) }
{
    MemorySink::new(
        alloc,
        peer.takes,
        3,
        Vec::from_slice(alloc, peer.sends_fail)?,
    )
}

fn files(alloc: Global) -> Result<MemoryFiles, NoMemory> {
    let mut list = Vec::new(alloc);
    for (name, octets) in [
        (
            "script",
            b"# who we are\nTIMEOUT 1\n'' \"ATDT5\\c\" # dials\nCONNECT ' user'\n".as_slice(),
        ),
        ("quote", b"'' \\z 'open\n"),
        ("bad", b"'' \\z"),
        ("empty", b""),
    ] {
        let name = String::from_str(alloc, name)?;
        list.push(StoredFile::new(name, Vec::from_slice(alloc, octets)?))?;
    }
    Ok(MemoryFiles::new(list, Vec::from_slice(alloc, &[2u64])?))
}

// What was sent over a line.
fn sent_over(alloc: Global, line: Option<(MemoryLine, MemorySink)>) -> Result<Vec<u8>, NoMemory> {
    let Some((_input, output)) = line else {
        return Ok(Vec::new(alloc));
    };
    Ok(Vec::from_slice(alloc, output.written())?)
}

// A run over a line in memory, or over none. The clock begins at 0.
fn ran<R: Wait>(
    rt: &R,
    alloc: Global,
    words: &[&str],
    peer: Option<Peer>,
    later: &[u64],
) -> Result<Came, NoMemory> {
    let mut lines = Vec::new(alloc);
    if let Some(peer) = peer {
        lines.push(NewLine::new(input(alloc, peer)?, output(alloc, peer)?))?;
    }
    let mut dialer = MemoryDialer::new(alloc, lines, Vec::new(alloc))?;
    let mut files = files(alloc)?;
    let mut clock = MemoryClock::new(0, Vec::from_slice(alloc, later)?);
    let mut errors = MemorySink::new(alloc, 40, 5, Vec::new(alloc))?;
    let words = strings(alloc, words)?;
    let ChatRun { status, line } = chat_run(
        rt,
        alloc,
        &words,
        &mut dialer,
        &mut files,
        &mut clock,
        &mut errors,
    );
    let sent = sent_over(alloc, line)?;
    let told = Vec::from_slice(alloc, errors.written())?;
    Ok((status, sent, told, dialer.asked().len()))
}

fn rows() -> [Row; 12] {
    [
        // An abort string in two pieces, and the second one.
        (
            &["ABORT", "BUSY", "", "ATDT5", "CONNECT", ""],
            says(b"BUSY"),
            &[1, 2, 3, 4],
            4,
            b"ATDT5\r",
        ),
        (
            &["ABORT", "BUSY", "ABORT", "ERR", "", "AT", "OK", ""],
            says(b"xERRx"),
            &[1, 2, 3, 4],
            5,
            b"AT\r",
        ),
        // Done, behind a send and behind an expect.
        (
            &["", "ATDT5", "CONNECT", "\\c"],
            says(b"CONNECT 9600"),
            &[1],
            0,
            b"ATDT5\r",
        ),
        (&["", "A", "", "B"], SILENT, &[1, 2, 3], 0, b"A\rB\r"),
        (&[], says(b""), &[], 0, b""),
        // Late: with -t, and at a reading above the latest moment.
        (
            &["-t", "1", "", "AT", "OK-ATZ-OK", "ATD"],
            SILENT,
            &[999, 1000, 1999, 2000],
            3,
            b"AT\rATZ\r",
        ),
        (&["OK"], SILENT, &[44_999, u64::MAX], 3, b""),
        // The line ends, or fails, at a read and at a write.
        (&["", "AT", "OK", ""], says(b"O"), &[1], 2, b"AT\r"),
        (
            &["", "AT", "OK", ""],
            Peer {
                fails: &[2],
                ..says(b"OK")
            },
            &[1],
            2,
            b"AT\r",
        ),
        (
            &["", "AT", "OK", "ATD"],
            Peer {
                sends_fail: &[3],
                ..says(b"OKOK")
            },
            &[1],
            2,
            b"AT\rATD",
        ),
        // A script from a file.
        (
            &["-f", "script"],
            says(b"CONNECT!"),
            &[1, 2, 3, 4, 5, 6, 999],
            0,
            b"ATDT5 user\r",
        ),
        (&["-f", "empty"], says(b"OK"), &[], 0, b""),
    ]
}

#[test]
fn a_line_is_dialled(rt: HostRuntime) -> Result<(), Fail> {
    for (words, peer, later, status, sent) in rows() {
        let all = with_line(rt.alloc(), words)?;
        let came = ran(&rt, rt.alloc(), &all, Some(peer), later)?;
        assert_eq!(rt; came.0, status, "{words:?}");
        assert_eq!(rt; came.1.as_slice(), sent, "{words:?}");
        assert!(rt; came.2.is_empty() && came.3 == 1, "{words:?}");
    }
    Ok(())
}

// Nothing is dialled: other words, a bad script, no file, and a dial that fails.
#[test]
fn no_line_is_there(rt: HostRuntime) -> Result<(), Fail> {
    let usage = b"chat: usage\n".as_slice();
    let bad = b"chat: bad script\n".as_slice();
    let rows: [(&[&str], u8, &[u8]); 9] = [
        (&["", "AT"], 1, usage),
        (&["-L", "h:1", "-t", "0", ""], 1, usage),
        (&["-L", "h:1", "-f", "script", "-f", "script"], 1, usage),
        (&["-L", "h:1", "-f", "script", ""], 1, usage),
        (&["-L", "h:1", "-f", "quote"], 1, usage),
        (&["-L", "h:1", "-f", "bad"], 1, bad),
        (&["-L", "h:1", "", "\\z"], 1, bad),
        (&["-L", "h:1", "-f", "none"], 2, b""),
        (&["-L", "h:1", "", "AT"], 2, b""),
    ];
    for (words, status, told) in rows {
        let came = ran(&rt, rt.alloc(), words, None, &[])?;
        assert_eq!(rt; came.0, status, "{words:?}");
        assert_eq!(rt; came.2.as_slice(), told, "{words:?}");
        assert!(rt; came.1.is_empty() && came.3 == 0, "{words:?}");
    }
    Ok(())
}
