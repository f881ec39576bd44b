ghost use Rattle.std.specs.Prelude.{◌≤◌};

use crate::hearing::hear_span;
use crate::out_ring::OutRing;
use crate::records::Records;
use crate::talk::{Hears, Talk};
use crate::up_ring::UpRing;
use ppp_base::{LinkId, Name, Octets, SignalWord, Unit, UpPost};
use ppp_chat::{ChatNow, Script};
use ppp_dial::{DialNow, DialPolicy};
use ppp_hdlc::{Deframer, FrameFault, Heard};
use ppp_link_rules::{Cause, FrameCounts};
use ppp_mark::Mark;
use ppp_outside::{HookArgs, LineWords, ReplaySpawner};
use std::test::Fail;

const NO_COUNTS: FrameCounts = FrameCounts {
    frames: 0,
    aborted: 0,
    too_long: 0,
    short: 0,
    bad_fcs: 0,
    bad_header: 0,
};

// What waits for the table comes out in its order.
#[test]
fn posts_wait_in_order(rt: HostRuntime) -> Result<(), Fail> {
    let mut up = UpRing::new(rt.alloc())?;
    up.put_frame(0x0021, b"abc");
    assert!(rt; !up.has_control());
    up.put_leave(7);
    assert!(rt; up.has_control());
    match up.take() {
        Some(
            UpPost::Frame {
                protocol,
                information,
            },
        ) => assert_eq!(rt;
            (protocol, information.as_slice()),
            (0x0021, b"abc".as_slice())
        ),
        _ => assert!(rt; false),
    }
    assert!(rt; matches!(up.take(), Some(UpPost::Leave { stay: 7 })));
    assert!(rt; up.take().is_none());
    Ok(())
}

// Two short frames: the first flag of all ends nothing.
#[test]
fn spans_end_at_answers(rt: HostRuntime) -> Result<(), Fail> {
    let mut deframer = Deframer::new(rt.alloc())?;
    let mut counts = NO_COUNTS;
    let span = hear_span(&mut deframer, &mut counts, b"\x7eab\x7ecd");
    assert_eq!(rt; span.used, 4);
    assert!(rt; matches!(span.heard, Heard::Dropped(FrameFault::Short)));
    let span = hear_span(&mut deframer, &mut counts, b"cd");
    assert_eq!(rt; span.used, 2);
    assert!(rt; matches!(span.heard, Heard::Nothing));
    assert_eq!(rt; (counts.short, counts.frames), (1, 0));
    Ok(())
}

// Chats that are aborted, with `persist`, `maxfail 2` and `holdoff 30`: HUP in the hold begins the second attempt.
#[test]
fn a_hold_ends_by_a_hang_up(rt: HostRuntime) -> Result<(), Fail> {
    let Some(link) = LinkId::new(1) else {
        return Ok(());
    };
    let policy = DialPolicy {
        persist: true,
        demand: false,
        holdoff_s: 30,
        maxfail: 2,
    };
    let line = LineWords::Socket(Octets::new());
    let mut records = Records::new(rt.alloc(), link, policy, ReplaySpawner::new(), 4096)?;
    assert_eq!(rt; records.start(0), DialNow::Begin);
    assert_eq!(rt; end_session(&mut records, &line, 1), DialNow::Hold(30_000));
    assert_eq!(rt; records.holds_until(), Some(30_001));
    if records.room() >= 2 && records.holds_until().is_some() {
        assert_eq!(rt; records.hup(5000), DialNow::Begin);
    }
    assert_eq!(rt; end_session(&mut records, &line, 5001), DialNow::Finish(8));
    assert_eq!(rt; (records.status(), records.session()), (Some(8), 2));
    assert_eq!(rt; records.log().count(), 9);
    assert_eq!(rt; records.log().get(3), Some(Mark::hold(1, 30_000)));
    assert_eq!(rt;
        records.log().get(4),
        Some(Mark::signal(5000, SignalWord::Hup))
    );
    assert_eq!(rt; records.log().get(5), Some(Mark::attempt(5000, 2)));
    Ok(())
}

// The session has a line, its chat is aborted, and it is over.
fn end_session(records: &mut Records<ReplaySpawner>, line: &LineWords, time: u64) -> DialNow
    requires { time ≤ 10000 }
{
    if records.room() < 4 || !records.is_lasting() {
        return DialNow::Nothing;
    }
    records.mark_cause(
        Cause {
            number: 3,
            detail: 1,
        },
        time,
    );
    if records.room() < 2 || !records.is_lasting() {
        return DialNow::Nothing;
    }
    records.over(line, time)
}

// TERM stops a link that waits.
#[test]
fn a_wait_ends_by_a_stop(rt: HostRuntime) -> Result<(), Fail> {
    let Some(link) = LinkId::new(1) else {
        return Ok(());
    };
    let policy = DialPolicy {
        persist: false,
        demand: true,
        holdoff_s: 30,
        maxfail: 10,
    };
    let mut records = Records::new(rt.alloc(), link, policy, ReplaySpawner::new(), 4096)?;
    assert_eq!(rt; records.start(0), DialNow::Wait);
    if records.room() >= 2 && records.status().is_none() {
        assert_eq!(rt; records.stop(SignalWord::Term, 9), DialNow::Finish(5));
    }
    assert_eq!(rt; (records.status(), records.is_stopped()), (Some(5), true));
    Ok(())
}

// Authentication opens and closes: the script of the opening runs, and behind its end the one of the closing is started.
#[test]
fn scripts_of_a_link(rt: HostRuntime) -> Result<(), Fail> {
    let Some(link) = LinkId::new(1) else {
        return Ok(());
    };
    let args = HookArgs {
        unit: Unit::zero(),
        device: Name::new(),
        peer: Name::new(),
        local: [0, 0, 0, 0],
        remote: [0, 0, 0, 0],
        param: Name::new(),
    };
    let policy = DialPolicy {
        persist: false,
        demand: true,
        holdoff_s: 30,
        maxfail: 10,
    };
    let mut records = Records::new(rt.alloc(), link, policy, ReplaySpawner::new(), 4096)?;
    records.open_scripts(args, 5);
    if records.room() >= 2 {
        records.close_scripts(6);
    }
    let Some(job) = records.take_job() else {
        assert!(rt; false);
        return Ok(());
    };
    assert!(rt; records.take_job().is_none());
    if records.room() >= 2 {
        assert!(rt; records.end_job(job.run(), 8).is_ok());
    }
    assert_eq!(rt; records.log().count(), 5);
    assert_eq!(rt; records.log().get(0), Some(Mark::auth_open(5, 1)));
    assert_eq!(rt; records.log().get(1), Some(Mark::started(5, true, 1)));
    assert_eq!(rt; records.log().get(2), Some(Mark::auth_closed(6, 1)));
    assert_eq!(rt; records.log().get(4), Some(Mark::started(8, false, 1)));
    Ok(())
}

// A chat waits for one string.
#[test]
fn a_chat_hears_octets(rt: HostRuntime) -> Result<(), Fail> {
    let mut words = Vec::new(rt.alloc());
    words.push(b"OK".to_vec(rt.alloc())?)?;
    let script = Script::read(rt.alloc(), words.as_slice(), 45)?;
    let mut talk = Talk::new(Some(script));
    assert_eq!(rt; talk.begin(0), Some(ChatNow::Going));
    if talk.who() == Hears::Chat {
        assert_eq!(rt; talk.octet(b'O', 1), ChatNow::Going);
        assert_eq!(rt; talk.tick(2), ChatNow::Going);
        assert_eq!(rt; talk.octet(b'K', 3), ChatNow::Done);
    }
    assert_eq!(rt; talk.who(), Hears::Chat);
    Ok(())
}
