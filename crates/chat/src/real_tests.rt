use crate::run::{ChatRun, chat_run};
use ppp_base::{NoMemory, Octets};
use ppp_outside::MemorySink;
use ppp_real::{RealClock, RealDialer, RealFiles};
use std::alloc::Global;
use std::io::{Read, Write};
use std::net::{TcpListener, TcpStream};
use std::test::Fail;
use std::time::Duration;
use std::{fs, io, process, thread};

// Words, and what the other end does: it waits for these octets, says those pieces, and hangs up or listens to the end. Then what is
// wanted: the status, and what the other end heard.
#[derive(Clone, Copy)]
struct Row {
    words: &'static [&'static str],
    waits_for: &'static [u8],
    says: &'static [&'static [u8]],
    hangs_up: bool,
    status: u8,
    sent: &'static [u8],
}

const ROWS: [Row; 4] = [
    Row {
        words: &["ABORT", "BUSY", "", "ATDT5", "CONNECT", ""],
        waits_for: b"ATDT5\r",
        says: &[b"BU", b"SY"],
        hangs_up: false,
        status: 4,
        sent: b"ATDT5\r",
    },
    Row {
        words: &["-t", "1", "", "AT", "OK-ATZ-OK", "ATD"],
        waits_for: b"",
        says: &[],
        hangs_up: false,
        status: 3,
        sent: b"AT\rATZ\r",
    },
    Row {
        words: &["-f", SCRIPT],
        waits_for: b"ATDT5",
        says: &[b"CONN", b"ECT"],
        hangs_up: false,
        status: 0,
        sent: b"ATDT5 user\r",
    },
    Row {
        words: &["", "AT", "OK", ""],
        waits_for: b"AT\r",
        says: &[b"O"],
        hangs_up: true,
        status: 2,
        sent: b"AT\r",
    },
];

// Stands for the name of a file with this text.
const SCRIPT: &str = "SCRIPT";

const TEXT: &str = "# who we are\nTIMEOUT 10\n'' \"ATDT5\\c\" # dials\nCONNECT ' user'\n";

// Hears octets until they are those that are waited for, or the line is at its end.
fn hear(line: &mut TcpStream, heard: &mut Octets<64>, waits_for: &[u8]) -> io::Result<bool> {
    for _ in 0..64u8 {
        if heard.as_slice() == waits_for {
            return Ok(true);
        }
        let mut octet = [0u8; 1];
        if line.read(&mut octet)? == 0 {
            return Ok(false);
        }
        if heard.len() < 64 {
            heard.push(octet[0]);
        }
    }
    Ok(false)
}

// The other end of a line, and what it heard.
fn other_end(listener: &TcpListener, row: Row) -> io::Result<Octets<64>> {
    let (mut line, _) = listener.accept()?;
    line.set_read_timeout(Some(Duration::from_secs(20)))?;
    let mut heard = Octets::new();
    hear(&mut line, &mut heard, row.waits_for)?;
    for piece in row.says {
        line.write_all(piece)?;
    }
    // A line that was let go with octets that nobody read ends by a reset.
    if !row.hangs_up {
        let _ = hear(&mut line, &mut heard, &[0]);
    }
    Ok(heard)
}

fn is_same(heard: &Octets<64>, sent: &[u8]) -> bool {
    heard.as_slice() == sent
}

// The words of a run: the line, and the row's words, where the script has this name.
fn words_for(
    alloc: Global,
    line: &str,
    words: &[&str],
    script: &str,
) -> Result<Vec<String>, NoMemory> {
    let mut all = Vec::new(alloc);
    all.push(String::from_str(alloc, "-L")?)?;
    all.push(String::from_str(alloc, line)?)?;
    for word in words {
        let word = if *word == SCRIPT { script } else { *word };
        all.push(String::from_str(alloc, word)?)?;
    }
    Ok(all)
}

// Each row over a socket of this machine.
#[test]
fn rows_run_over_sockets(rt: HostRuntime) -> Result<(), Fail> {
    let alloc = rt.alloc();
    let script = format!(in alloc; "/tmp/chat_script_{}", process::id(rt.process()))?;
    fs::write(&rt, script.as_str(), TEXT)?;
    for row in ROWS {
        let listener = TcpListener::bind(&rt, "127.0.0.1:0")?;
        let address = listener.local_addr()?.to_string(alloc)?;
        let peer = thread::spawn(&rt, move || other_end(&listener, row))?;
        let words = words_for(alloc, address.as_str(), row.words, script.as_str())?;
        let ChatRun { status, line } = chat_run(
            &rt,
            alloc,
            &words,
            &mut RealDialer::new(rt, alloc),
            &mut RealFiles::new(rt),
            &mut RealClock::new(rt),
            &mut MemorySink::new(alloc, 40, 5, Vec::new(alloc))?,
        );
        assert_eq!(rt; status, row.status, "{:?}", row.words);
        drop(line);
        let heard = peer.join(&rt)?;
        assert!(rt; is_same(&heard, row.sent));
    }
    fs::remove_file(&rt, script.as_str())?;
    Ok(())
}
