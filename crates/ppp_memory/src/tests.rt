use crate::{
    MemoryClock, MemoryControl, MemoryFiles, MemoryGate, MemoryIfaceIn, MemoryIfaceOut, Message,
    StoredFile,
};
use ppp_base::{Datagram, LinkId, Name, NoMemory, SignalWord, Unit};
use ppp_outside::{
    Clock, Control, Files, Gate, GatePlace, Gave, IfaceGot, IfaceIn, IfaceOut, WholeFile, Word,
};
use std::alloc::Global;
use std::test::Fail;

fn datagram(octets: &[u8]) -> Datagram {
    Datagram::from_octets(octets).unwrap_or(Datagram::new())
}

// The numbers of calls.
fn calls(alloc: Global, numbers: &[u64]) -> Result<Vec<u64>, NoMemory> {
    Ok(Vec::from_slice(alloc, numbers)?)
}

// The reading 7 is less than the one before it, and past the last reading that stays.
#[test]
fn clock_gives_its_readings(rt: HostRuntime) -> Result<(), Fail> {
    let mut clock = MemoryClock::new(5, calls(rt.alloc(), &[9, 7])?);
    for want in [5, 9, 7, 7, 7] {
        assert_eq!(rt; clock.now_ms(), want);
        clock.rest(1000);
    }
    Ok(())
}

#[test]
fn gate_holds_nobody_back(_rt: HostRuntime) {
    let gate = MemoryGate;
    if let Some(link) = LinkId::new(1) {
        gate.pass(GatePlace::Read(link));
        gate.pass(GatePlace::Opened(link));
    }
}

fn words(alloc: Global, texts: &[&str]) -> Result<Vec<Name>, NoMemory> {
    let mut words = Vec::with_capacity(alloc, texts.len())?;
    for text in texts {
        words.push(Name::from_octets(text.as_bytes()).unwrap_or(Name::new()))?;
    }
    Ok(words)
}

// The third call fails, and the fourth hears what the third would have heard.
#[test]
fn control_hears_words(rt: HostRuntime) -> Result<(), Fail> {
    let texts = ["HUP", "INT", "TERM", "USR1", "USR2", "QUIT"];
    let heard = [
        Word::Signal(SignalWord::Hup),
        Word::Signal(SignalWord::Int),
        Word::Failed,
        Word::Signal(SignalWord::Term),
        Word::Signal(SignalWord::Usr1),
        Word::Signal(SignalWord::Usr2),
        Word::Quiet,
        Word::End,
        Word::End,
    ];
    let alloc = rt.alloc();
    let mut control = MemoryControl::new(words(alloc, &texts)?, calls(alloc, &[3])?);
    for want in heard {
        assert_eq!(rt; control.next(10), want);
    }
    Ok(())
}

// An answer of files as a number: that of the octets, or 100 for no file, 101 for a fault, 102 for want of memory.
fn size(answer: WholeFile) -> usize {
    match answer {
        WholeFile::Bytes(octets) => octets.len(),
        WholeFile::NoFile => 100,
        WholeFile::Failed => 101,
        WholeFile::NoMemory => 102,
    }
}

fn stored(alloc: Global, name: &str, octets: &[u8]) -> Result<StoredFile, NoMemory> {
    let name = String::from_str(alloc, name)?;
    Ok(StoredFile::new(name, Vec::from_slice(alloc, octets)?))
}

// The first file of a name counts. The third call fails.
#[test]
fn files_by_name(rt: HostRuntime) -> Result<(), Fail> {
    let alloc = rt.alloc();
    let mut list = Vec::with_capacity(alloc, 3)?;
    for (name, octets) in [
        ("options", b"ab".as_slice()),
        ("empty", b""),
        ("options", b"abc"),
    ] {
        list.push(stored(alloc, name, octets)?)?;
    }
    let mut files = MemoryFiles::new(list, calls(alloc, &[3])?);
    let rows = [
        ("options", 2),
        ("none", 100),
        ("empty", 101),
        ("empty", 0),
        ("options", 2),
    ];
    for (name, want) in rows {
        assert_eq!(rt; size(files.whole(alloc, name)), want, "{name}");
    }
    Ok(())
}

fn messages(alloc: Global, list: &[&[u8]]) -> Result<Vec<Message>, NoMemory> {
    let mut messages = Vec::with_capacity(alloc, list.len())?;
    for octets in list {
        messages.push(Message::new(Vec::from_slice(alloc, octets)?))?;
    }
    Ok(messages)
}

// Messages of no unit, without an octet and empty are no packets. The second call fails, and loses none.
#[test]
fn iface_takes_packets(rt: HostRuntime) -> Result<(), Fail> {
    let alloc = rt.alloc();
    let list: [&[u8]; 5] = [b"\x0fabc", b"\x10abc", b"\x00", b"", b"\x00z"];
    let last = Unit::new(15).unwrap_or(Unit::zero());
    let rows: [(IfaceGot, &[u8]); 7] = [
        (IfaceGot::Packet(last), b"abc"),
        (IfaceGot::Failed, b"abc"),
        (IfaceGot::Quiet, b"abc"),
        (IfaceGot::Quiet, b"abc"),
        (IfaceGot::Quiet, b"abc"),
        (IfaceGot::Packet(Unit::zero()), b"z"),
        (IfaceGot::Quiet, b"z"),
    ];
    let mut input = MemoryIfaceIn::new(messages(alloc, &list)?, calls(alloc, &[2])?);
    let mut buf = Datagram::new();
    for (want, octets) in rows {
        assert_eq!(rt; input.take(&mut buf, 10), want);
        assert_eq!(rt; buf.as_slice(), octets);
    }
    Ok(())
}

// There is room for two packets. The second call fails.
#[test]
fn iface_gives_packets(rt: HostRuntime) -> Result<(), Fail> {
    let alloc = rt.alloc();
    let mut output = MemoryIfaceOut::new(alloc, 2, calls(alloc, &[2])?)?;
    for want in [Gave::Gave, Gave::Failed, Gave::Gave, Gave::Failed] {
        assert_eq!(rt; output.give(Unit::zero(), &datagram(b"ab")), want);
    }
    assert_eq!(rt; output.written().len(), 2);
    for packet in output.written() {
        assert!(rt; packet.unit == Unit::zero() && packet.datagram == datagram(b"ab"));
    }
    Ok(())
}
