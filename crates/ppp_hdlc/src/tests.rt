use super::*;
use circular_buffer::HeapCircularBuffer;
use ppp_base::SendSettings;
use std::process::Abort;
use std::test::Fail;

const FRAME: [u8; 10] = [0x7e, 0xff, 0x03, 0x00, 0x21, 0x7d, 0x5e, 0xf2, 0xbf, 0x7e];

/// What the octet at a place of a stream is to be answered by.
#[derive(Clone, Copy)]
enum Wanted {
    Nothing,
    Frame(u16, u8),
    Dropped(FrameFault),
}

fn is_as_wanted(heard: &Heard, wanted: Wanted) -> bool {
    match (heard, wanted) {
        (Heard::Nothing, Wanted::Nothing) => true,
        (Heard::Frame(protocol, octets), Wanted::Frame(number, octet)) => {
            *protocol == number && octets.as_slice() == [octet].as_slice()
        }
        (Heard::Dropped(reason), Wanted::Dropped(named)) => *reason == named,
        _ => false,
    }
}

fn wanted_at(answers: &[(usize, Wanted)], place: usize) -> Wanted {
    for (at, wanted) in answers {
        if *at == place {
            return *wanted;
        }
    }
    Wanted::Nothing
}

fn feed_quietly(rt: &impl Abort, deframer: &mut Deframer, octets: &[u8]) {
    for octet in octets {
        assert!(rt; is_as_wanted(&deframer.feed(*octet), Wanted::Nothing));
    }
}

#[test]
fn check_sum_of_digits(rt: HostRuntime) {
    let sum = fcs(b"123456789");
    assert_eq!(rt; sum, 0x906e);
    assert_eq!(rt; sum.to_le_bytes().as_slice(), [0x6e, 0x90].as_slice());
}

#[test]
fn frames_are_written(rt: HostRuntime) -> Result<(), Fail> {
    let escaped: [u8; 12] = [
        0x7e, 0xff, 0x7d, 0x23, 0x7d, 0x20, 0x21, 0x7d, 0x5e, 0xf2, 0xbf, 0x7e,
    ];
    let rows: [(u32, &[u8]); 2] = [(0xffff_ffff, &escaped), (0, &FRAME)];
    let mut out = HeapCircularBuffer::with_capacity(rt.alloc(), 12)?;
    for (map, octets) in rows {
        let settings = SendSettings {
            map,
            pfc: false,
            acfc: false,
        };
        assert!(rt; frame_into(&settings, 0x21, &[0x7e], &mut out));
        assert_eq!(rt; out.to_vec(rt.alloc())?.as_slice(), octets);
        assert!(rt; !frame_into(&settings, 0x21, &[0x7e], &mut out));
        assert_eq!(rt; out.to_vec(rt.alloc())?.as_slice(), octets);
        out.clear();
    }
    Ok(())
}

#[test]
fn streams_are_heard(rt: HostRuntime) -> Result<(), Fail> {
    let broken: [u8; 8] = [0x7e, 0x7e, 0x7d, 0x7e, 0x41, 0x42, 0x43, 0x7e];
    let frame = [(9, Wanted::Frame(0x21, 0x7e))];
    let bad = [(9, Wanted::Dropped(FrameFault::BadFcs))];
    let both = [
        (3, Wanted::Dropped(FrameFault::Aborted)),
        (7, Wanted::Dropped(FrameFault::Short)),
    ];
    let rows: [(u32, &[u8], &[(usize, Wanted)]); 3] = [
        (0, &FRAME, &frame),
        (0xffff_ffff, &FRAME, &bad),
        (0, &broken, &both),
    ];
    for (map, octets, answers) in rows {
        let mut deframer = Deframer::new(rt.alloc())?;
        deframer.set_map(map);
        for (i, octet) in octets.iter().enumerate() {
            assert!(rt; is_as_wanted(&deframer.feed(*octet), wanted_at(answers, i)));
        }
    }
    Ok(())
}

#[test]
fn cut_anywhere(rt: HostRuntime) -> Result<(), Fail> {
    let mut deframer = Deframer::new(rt.alloc())?;
    for cut in 0..10usize {
        deframer.restart();
        deframer.set_map(0);
        feed_quietly(&rt, &mut deframer, &FRAME[..cut]);
        feed_quietly(&rt, &mut deframer, &FRAME[cut..9]);
        assert!(rt; is_as_wanted(&deframer.feed(0x7e), Wanted::Frame(0x21, 0x7e)));
    }
    Ok(())
}

// Feeds a piece of a stream by spans, and looks at the answer at each of its octets.
fn feed_piece(
    rt: &impl Abort,
    deframer: &mut Deframer,
    piece: &[u8],
    from: usize,
    answers: &[(usize, Wanted)],
) {
    let mut rest = piece;
    for _ in 0..piece.len() {
        if rest.is_empty() {
            break;
        }
        let span = deframer.feed_span(rest);
        let first = from.saturating_add(piece.len().saturating_sub(rest.len()));
        let last = first.saturating_add(span.used.saturating_sub(1));
        for place in first..last {
            assert!(rt; is_as_wanted(&Heard::Nothing, wanted_at(answers, place)));
        }
        assert!(rt; is_as_wanted(&span.heard, wanted_at(answers, last)));
        rest = &rest[span.used..];
    }
    assert!(rt; rest.is_empty());
}

#[test]
fn spans_cut_anywhere(rt: HostRuntime) -> Result<(), Fail> {
    let broken: [u8; 8] = [0x7e, 0x7e, 0x7d, 0x7e, 0x41, 0x42, 0x43, 0x7e];
    let both = [
        (3, Wanted::Dropped(FrameFault::Aborted)),
        (7, Wanted::Dropped(FrameFault::Short)),
    ];
    let frame = [(9, Wanted::Frame(0x21, 0x7e))];
    let rows: [(&[u8], &[(usize, Wanted)]); 2] = [(&broken, &both), (&FRAME, &frame)];
    let mut deframer = Deframer::new(rt.alloc())?;
    for (octets, answers) in rows {
        for cut in 0..octets.len() {
            deframer.restart();
            deframer.set_map(0);
            feed_piece(&rt, &mut deframer, &octets[..cut], 0, answers);
            feed_piece(&rt, &mut deframer, &octets[cut..], cut, answers);
        }
    }
    Ok(())
}

#[test]
fn a_frame_in_two_spans(rt: HostRuntime) -> Result<(), Fail> {
    let mut deframer = Deframer::new(rt.alloc())?;
    deframer.set_map(0);
    let empty = deframer.feed_span(&[]);
    assert_eq!(rt; empty.used, 0);
    assert!(rt; is_as_wanted(&empty.heard, Wanted::Nothing));
    let first = deframer.feed_span(&FRAME[..6]);
    assert_eq!(rt; first.used, 6);
    assert!(rt; is_as_wanted(&first.heard, Wanted::Nothing));
    let second = deframer.feed_span(&FRAME[6..]);
    assert_eq!(rt; second.used, 4);
    assert!(rt; is_as_wanted(&second.heard, Wanted::Frame(0x21, 0x7e)));
    Ok(())
}

// An information longer than two runs of sixteen, with octets to be escaped at each place of a run.
#[test]
fn long_frames_go_round(rt: HostRuntime) -> Result<(), Fail> {
    let mut information = [0x41u8; 1500];
    for i in 0..1500usize {
        if i % 17 == 0 {
            information[i] = 0x7d;
        } else if i % 29 == 0 {
            information[i] = 0x7e;
        } else if i % 31 == 0 {
            information[i] = 0x11;
        }
    }
    let mut out = HeapCircularBuffer::with_capacity(rt.alloc(), 4096)?;
    let mut deframer = Deframer::new(rt.alloc())?;
    for map in [0u32, 0xffff_ffff, 0x000a_0000] {
        let settings = SendSettings {
            map,
            pfc: false,
            acfc: false,
        };
        out.clear();
        assert!(rt; frame_into(&settings, 0x21, &information, &mut out));
        let line = out.to_vec(rt.alloc())?;
        deframer.set_map(map);
        let flag = deframer.feed_span(line.as_slice());
        assert_eq!(rt; flag.used, line.len());
        match flag.heard {
            Heard::Frame(protocol, octets) => {
                assert_eq!(rt; protocol, 0x21);
                assert_eq!(rt; octets.as_slice(), information.as_slice());
            }
            _ => assert!(rt; false),
        }
    }
    Ok(())
}
