use crate::{
    FromReader, Got, MemorySink, MemorySource, PAGE, Sink, Source, TextWriter, ToWriter, Took,
    Whole, read_whole, write_whole,
};
use ppp_base::NoMemory;
use std::alloc::Global;
use std::test::Fail;

// What is read of these octets, in pieces of two, where this call fails: how many octets, 100 for too many and 200 for
// a failure.
fn count_read(alloc: Global, octets: &[u8], limit: u32, fails: &[u64]) -> Result<usize, NoMemory> {
    let failing = Vec::from_slice(alloc, fails)?;
    let mut source = MemorySource::new(Vec::from_slice(alloc, octets)?, 2, failing);
    Ok(match read_whole(alloc, &mut source, limit)? {
        Whole::Octets(octets) => octets.len(),
        Whole::TooLong(_) => 100,
        Whole::Failed => 200,
    })
}

#[test]
fn reads_up_to_a_limit(rt: HostRuntime) -> Result<(), Fail> {
    let rows: [(&[u8], u32, &[u64], usize); 6] = [
        (b"", 0, &[], 0),
        (b"abc", 3, &[], 3),
        (b"abc", 2, &[], 100),
        (b"abc", 3, &[2], 200),
        (b"abc", 3, &[3], 200),
        (b"abc", 3, &[4], 3),
    ];
    for (octets, limit, fails, count) in rows {
        assert_eq!(rt;
            count_read(rt.alloc(), octets, limit, fails)?,
            count,
            "{octets:?} {limit} {fails:?}"
        );
    }
    Ok(())
}

#[test]
fn ends_where_nothing_is_left(rt: HostRuntime) -> Result<(), Fail> {
    let alloc = rt.alloc();
    let mut source = MemorySource::new(Vec::from_slice(alloc, b"ab")?, 0, Vec::new(alloc));
    let mut buf = [0; 4];
    assert_eq!(rt; source.read(&mut []), Got::Got(0));
    assert_eq!(rt; source.read(&mut buf), Got::Got(1));
    assert_eq!(rt; source.read(&mut buf), Got::Got(1));
    assert_eq!(rt; source.read(&mut buf), Got::End);
    Ok(())
}

#[test]
fn a_full_record_fails(rt: HostRuntime) -> Result<(), Fail> {
    let alloc = rt.alloc();
    let mut sink = MemorySink::new(alloc, 3, 2, Vec::new(alloc))?;
    assert_eq!(rt; sink.write(b"abcd"), Took::Took(2));
    assert_eq!(rt; sink.write(b"cd"), Took::Took(1));
    assert_eq!(rt; sink.write(b"d"), Took::Failed);
    assert_eq!(rt; sink.write(b""), Took::Took(0));
    assert_eq!(rt; sink.written(), b"abc".as_slice());
    Ok(())
}

// What a sink with so much room holds after two long lines and a number, and whether all of it was taken.
fn put_lines(alloc: Global, room: usize, fails: &[u64]) -> Result<(bool, usize), NoMemory> {
    let mut sink = MemorySink::new(alloc, room, 3000, Vec::from_slice(alloc, fails)?)?;
    let mut writer = TextWriter::new();
    writer.put(&mut sink, &[b'a'; PAGE - 1]);
    writer.put_number(&mut sink, 65);
    writer.put(&mut sink, &[b'b'; PAGE + 1]);
    let taken = writer.finish(&mut sink);
    Ok((taken, sink.written().len()))
}

#[test]
fn writes_page_by_page(rt: HostRuntime) -> Result<(), Fail> {
    let whole = 2 * PAGE + 2;
    let rows: [(usize, &[u64], (bool, usize)); 4] = [
        (whole, &[], (true, whole)),
        (whole - 1, &[], (false, whole - 1)),
        (whole, &[1], (false, 0)),
        (whole, &[2], (false, 3000)),
    ];
    for (room, fails, ends) in rows {
        assert_eq!(rt;
            put_lines(rt.alloc(), room, fails)?,
            ends,
            "{room} {fails:?}"
        );
    }
    Ok(())
}

#[test]
fn takes_readers_and_writers(rt: HostRuntime) -> Result<(), Fail> {
    let alloc = rt.alloc();
    let mut source = FromReader::new(b"octets".as_slice());
    let octets = match read_whole(alloc, &mut source, 100)? {
        Whole::Octets(octets) => octets,
        Whole::TooLong(_) | Whole::Failed => Vec::new(alloc),
    };
    let mut sink = ToWriter::new(Vec::new(alloc));
    assert!(rt; write_whole(&mut sink, octets.as_slice()));
    assert_eq!(rt; octets.as_slice(), b"octets".as_slice());
    Ok(())
}
