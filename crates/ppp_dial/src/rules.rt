// The rules of dialling, each for one question.
ghost use Rattle.std.specs.Prelude.{◌≡◌, ℕ, ◌^◌, ◌≤◌, ◌||◌, if◌then◌else◌, min};
ghost use Rattle.ppp_dial.specs.DialLaw.{has_failed_often};
ghost use Rattle.ppp_dial.specs.DialState.{stage_of};
ghost use Rattle.ppp_dial.specs.LookingBack.{failures_with, is_nothing, is_stop};
ghost use Rattle.ppp_dial.specs.Answer.{attempt, next, after_session};

use crate::call::CallKind;
use crate::now::DialNow;
use crate::policy::DialPolicy;
use crate::session_end::SessionEnd;
use crate::stage::Stage;

// The cause of a session that ended because it was idle.
const IDLE: u8 = 12;

// The exit statuses of a link that was stopped, and of one whose log has too little room.
pub const STOPPED: u8 = 5;

const NO_ROOM: u8 = 34;

// The room of a log with which an attempt may begin, in marks.
const LEAST_ROOM: u32 = 1024;

// An attempt, where the log has room for it.
pub fn attempt(room: u32) -> DialNow
    ensures { result ≡ attempt room }
{
    if room < LEAST_ROOM {
        DialNow::Finish(NO_ROOM)
    } else {
        DialNow::Begin
    }
}

// Under `demand` a wait, else an attempt.
pub fn next(policy: DialPolicy, room: u32) -> DialNow
    ensures { result ≡ next policy room }
{
    if policy.demand {
        DialNow::Wait
    } else {
        attempt(room)
    }
}

// Whether `maxfail` is a limit that the failures have reached. A count that stands still is enough to tell.
pub fn has_failed_often(maxfail: u16, failures: u32) -> bool
    ensures { (count : ℕ) → failures ≡ min count 4294967295 → result ≡ has_failed_often maxfail count }
{
    maxfail != 0 && failures >= u32::from(maxfail)
}

// What follows a session, where `failures` counts it too.
pub fn after_session(
    policy: DialPolicy,
    stopped: bool,
    failures: u32,
    end: SessionEnd,
    room: u32,
) -> DialNow
    ensures { (count : ℕ) → failures ≡ min count 4294967295 → result ≡ after_session policy stopped count end room }
{
    if stopped {
        return DialNow::Finish(STOPPED);
    }
    if !policy.persist || has_failed_often(policy.maxfail, failures) {
        return DialNow::Finish(end.status);
    }
    if end.cause == IDLE || policy.holdoff_s == 0 {
        return next(policy, room);
    }
    DialNow::Hold(u32::from(policy.holdoff_s) * 1000)
}

// The failures in a row, this call counted.
pub fn failures_with(call: CallKind, failures: u32) -> u32
    ensures { result ≡ min (failures_with call failures) 4294967295 }
{
    match call {
        CallKind::SessionOver(end) if end.live => 0,
        CallKind::SessionOver(_) => failures.saturating_add(1),
        _ => failures,
    }
}

// Whether a stop was called, with this call or before.
pub fn is_stopped_with(call: CallKind, stopped: bool) -> bool
    ensures { result ≡ (is_stop call || stopped) }
{
    match call {
        CallKind::Stop => true,
        _ => stopped,
    }
}

// What the dial does after an answer.
pub fn stage_after(stage: Stage, answer: DialNow, now: u64) -> Stage
    requires { (milliseconds : ℕ) → answer ≡ DialNow.Hold milliseconds → now ≤ 2 ^ 56 }
    ensures { result ≡ if is_nothing answer then stage else stage_of (answer, now) }
{
    match answer {
        DialNow::Nothing => stage,
        DialNow::Begin => Stage::Dialling,
        DialNow::Hold(milliseconds) => Stage::Holding(now + u64::from(milliseconds)),
        DialNow::Wait => Stage::Waiting,
        DialNow::Finish(status) => Stage::Finished(status),
    }
}
