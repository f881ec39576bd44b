use crate::{DialJob, ReadEnd, ReadStep, Reading, SentEnd, Writing};
use ppp_base::{LinkId, Octets};
use ppp_memory::ReplayDialer;
use ppp_outside::{DialNext, LineAnswer, LineWords, SinkNext};
use std::test::Fail;

fn octets(text: &[u8]) -> Octets<1024> {
    Octets::from_octets(text).unwrap_or(Octets::new())
}

// A dial gives a line; what it gives is read in two pieces, and left; what goes out is written.
#[test]
fn errands_go_out_and_come_back(rt: HostRuntime) -> Result<(), Fail> {
    let Some(link) = LinkId::new(3) else {
        return Ok(());
    };
    let line = LineWords::Socket(Octets::new());
    let mut job = DialJob {
        link,
        session: 1,
        failed: 0,
        line,
        dialer: ReplayDialer::new(),
    };
    job.next_is(&DialNext::Line);
    let done = job.run();
    let Some((input, output)) = done.came else {
        assert!(rt; false);
        return Ok(());
    };
    let mut reading = Reading {
        link,
        session: 1,
        taken: 0,
        input,
    };
    reading.next_is(&LineAnswer::Got(octets(b"abc")));
    if let ReadStep::Piece(reading, piece) = reading.next(0) {
        assert_eq!(rt; piece.offset(), 0);
        assert_eq!(rt; piece.octets(), b"abc".as_slice());
        if let ReadStep::Piece(reading, piece) = reading.next(0) {
            assert_eq!(rt; piece.offset(), 3);
            assert_eq!(rt; reading.leave().end, ReadEnd::Left);
        }
    }
    let mut writing = Writing {
        link,
        session: 1,
        octets: octets(b"xyz"),
        output,
    };
    writing.next_is(&SinkNext::Fails);
    assert_eq!(rt; writing.run().end, SentEnd::Failed(0));
    Ok(())
}
