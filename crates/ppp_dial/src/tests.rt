use super::*;
use std::process::Abort;

const FAILED: SessionEnd = SessionEnd {
    cause: 3,
    status: 8,
    live: false,
};

const REFUSED: SessionEnd = SessionEnd {
    cause: 4,
    status: 10,
    live: false,
};

const LEFT: SessionEnd = SessionEnd {
    cause: 15,
    status: 0,
    live: true,
};

const IDLE: SessionEnd = SessionEnd {
    cause: 12,
    status: 12,
    live: true,
};

const POLICY: DialPolicy = DialPolicy {
    persist: true,
    demand: false,
    holdoff_s: 30,
    maxfail: 2,
};

/// A call, its moment, the room, and the answer that is wanted.
type Row = (CallKind, u32, u32, DialNow);

fn ask(dial: &mut Dial, call: CallKind, now: u32, room: u32) -> Option<DialNow> {
    let now = u64::from(now);
    match call {
        CallKind::Start => Some(dial.start(now, room)),
        CallKind::Wake => Some(dial.wake(now, room)),
        CallKind::Hup => Some(dial.hup(now, room)),
        CallKind::Tick => Some(dial.tick(now, room)),
        CallKind::SessionOver(end) if dial.is_dialling() => Some(dial.session_over(end, now, room)),
        CallKind::SessionOver(_) => None,
        CallKind::Stop => Some(dial.stop()),
    }
}

fn run(rt: &impl Abort, policy: DialPolicy, rows: &[Row]) -> Dial {
    let mut dial = Dial::new(policy);
    for (call, now, room, wanted) in rows {
        let answer = ask(&mut dial, *call, *now, *room);
        assert!(rt; answer == Some(*wanted), "at {now}");
    }
    dial
}

#[test]
fn two_failures_finish(rt: HostRuntime) {
    let rows: [Row; 6] = [
        (CallKind::Start, 0, 5000, DialNow::Begin),
        (
            CallKind::SessionOver(FAILED),
            0,
            5000,
            DialNow::Hold(30_000),
        ),
        (CallKind::Tick, 29_999, 5000, DialNow::Nothing),
        (CallKind::Tick, 30_000, 5000, DialNow::Begin),
        (
            CallKind::SessionOver(FAILED),
            30_000,
            5000,
            DialNow::Finish(8),
        ),
        (CallKind::Start, 30_000, 5000, DialNow::Nothing),
    ];
    let dial = run(&rt, POLICY, &rows);
    assert!(rt; dial.finished() == Some(8));
    assert!(rt; dial.failures() == 2);
}

#[test]
fn a_hang_up_ends_a_hold(rt: HostRuntime) {
    let rows: [Row; 2] = [
        (CallKind::Start, 0, 5000, DialNow::Begin),
        (
            CallKind::SessionOver(FAILED),
            0,
            5000,
            DialNow::Hold(30_000),
        ),
    ];
    let mut dial = run(&rt, POLICY, &rows);
    assert!(rt; dial.holds_until() == Some(30_000));
    assert!(rt; dial.hup(5000, 5000) == DialNow::Begin);
    assert!(rt; dial.holds_until().is_none() && dial.is_dialling());
}

#[test]
fn no_hold_after_an_idle_end(rt: HostRuntime) {
    let rows: [Row; 2] = [
        (CallKind::Start, 0, 5000, DialNow::Begin),
        (CallKind::SessionOver(IDLE), 70_000, 5000, DialNow::Begin),
    ];
    run(&rt, POLICY, &rows);
}

#[test]
fn the_least_room(rt: HostRuntime) {
    run(&rt, POLICY, &[(CallKind::Start, 0, 1024, DialNow::Begin)]);
    run(
        &rt,
        POLICY,
        &[(CallKind::Start, 0, 1023, DialNow::Finish(34))],
    );
}

#[test]
fn waits_on_demand(rt: HostRuntime) {
    let policy = DialPolicy {
        demand: true,
        maxfail: 0,
        ..POLICY
    };
    let rows: [Row; 7] = [
        (CallKind::Start, 0, 1000, DialNow::Wait),
        (CallKind::Tick, 500, 5000, DialNow::Nothing),
        (CallKind::Wake, 1000, 5000, DialNow::Begin),
        (CallKind::SessionOver(IDLE), 8000, 1000, DialNow::Wait),
        (CallKind::Wake, 9000, 5000, DialNow::Begin),
        (
            CallKind::SessionOver(FAILED),
            30_000,
            5000,
            DialNow::Hold(30_000),
        ),
        (CallKind::Tick, 60_000, 1000, DialNow::Wait),
    ];
    let mut dial = run(&rt, policy, &rows);
    assert!(rt; dial.is_waiting());
    assert!(rt; dial.stop() == DialNow::Finish(5));
    assert!(rt; dial.finished() == Some(5) && !dial.is_waiting());
}

#[test]
fn a_live_session_clears_the_failures(rt: HostRuntime) {
    let policy = DialPolicy {
        holdoff_s: 0,
        ..POLICY
    };
    let rows: [Row; 5] = [
        (CallKind::Start, 0, 5000, DialNow::Begin),
        (CallKind::SessionOver(FAILED), 1, 5000, DialNow::Begin),
        (CallKind::SessionOver(LEFT), 2, 5000, DialNow::Begin),
        (CallKind::SessionOver(FAILED), 3, 5000, DialNow::Begin),
        (CallKind::SessionOver(REFUSED), 4, 5000, DialNow::Finish(10)),
    ];
    run(&rt, policy, &rows);
}

#[test]
fn a_stop_waits_for_its_session(rt: HostRuntime) {
    let rows: [Row; 3] = [
        (CallKind::Start, 0, 5000, DialNow::Begin),
        (CallKind::Stop, 1, 5000, DialNow::Nothing),
        (CallKind::SessionOver(FAILED), 2, 5000, DialNow::Finish(5)),
    ];
    let dial = run(&rt, POLICY, &rows);
    assert!(rt; dial.is_stopping() && !dial.is_dialling());
    run(&rt, POLICY, &[(CallKind::Stop, 0, 0, DialNow::Finish(5))]);
}
