ghost use Rattle.std.specs.Prelude.{◌≡◌, ℕ, ◌↔◌, ◌^◌, ◌≤◌, [], ◌∷◌, true, List, min};
ghost use Rattle.ppp_dial.specs.DialState.{StandsFor, IsUnderWay, MayBeTold, dial_of};
ghost use Rattle.ppp_dial.specs.Happened.{Happened, asked, happened};
ghost use Rattle.ppp_dial.specs.LookingBack.{SoFar, so_far, nothing_yet, is_under_way, holds_until, is_waiting, finished_with};
ghost use Rattle.ppp_dial.specs.declared.call.CallKind.TheVariants.{Start, Wake, Hup, Tick, SessionOver, Stop};
ghost use Rattle.ppp_dial.specs.Answer.{answer_to};

use crate::call::CallKind;
use crate::now::DialNow;
use crate::policy::DialPolicy;
use crate::rules::{
    STOPPED, after_session, attempt, failures_with, is_stopped_with, next, stage_after,
};
use crate::session_end::SessionEnd;
use crate::stage::Stage;
use ppp_timer::has_come;

/// When a link dials: told of what happens to it, it answers what is to be done. Moments are milliseconds of one clock;
/// `room` is how many marks the link's log has room for.
#[derive(Clone, Copy, Debug, PartialEq, Eq)]
pub struct Dial {
    policy: DialPolicy,
    stage: Stage,
    failures: u32,
    stopped: bool,
}

impl Dial {
    /// A dial that is to be started.
    pub fn new(policy: DialPolicy) -> Dial
        ensures policy { result.policy ≡ policy }
        ensures stands { StandsFor nothing_yet result [] }
    {
        Dial {
            policy,
            stage: Stage::New,
            failures: 0,
            stopped: false,
        }
    }

    /// The link starts. The first start begins an attempt, or waits under `demand`.
    pub fn start(&mut self, now: u64, room: u32) -> DialNow
        ensures policy { self.new.policy ≡ self.old.policy }
        ensures stands { (before : SoFar) (calls : List Happened) → StandsFor before self.old calls
            → StandsFor before self.new (happened Start now room result ∷ calls) }
    {
        self.tell(CallKind::Start, now, room)
    }

    /// A packet waits for the link. It ends a wait.
    pub fn wake(&mut self, now: u64, room: u32) -> DialNow
        ensures policy { self.new.policy ≡ self.old.policy }
        ensures stands { (before : SoFar) (calls : List Happened) → StandsFor before self.old calls
            → StandsFor before self.new (happened Wake now room result ∷ calls) }
    {
        self.tell(CallKind::Wake, now, room)
    }

    /// The hang-up signal came while no session was to end by it. It ends a hold.
    pub fn hup(&mut self, now: u64, room: u32) -> DialNow
        ensures policy { self.new.policy ≡ self.old.policy }
        ensures stands { (before : SoFar) (calls : List Happened) → StandsFor before self.old calls
            → StandsFor before self.new (happened Hup now room result ∷ calls) }
    {
        self.tell(CallKind::Hup, now, room)
    }

    /// The time is looked at. A hold ends at its moment.
    pub fn tick(&mut self, now: u64, room: u32) -> DialNow
        ensures policy { self.new.policy ≡ self.old.policy }
        ensures stands { (before : SoFar) (calls : List Happened) → StandsFor before self.old calls
            → StandsFor before self.new (happened Tick now room result ∷ calls) }
    {
        self.tell(CallKind::Tick, now, room)
    }

    /// The session that the attempt under way led to is over.
    pub fn session_over(&mut self, end: SessionEnd, now: u64, room: u32) -> DialNow
        requires under_way { IsUnderWay self.old }
        requires in_range { now ≤ 2 ^ 56 }
        ensures policy { self.new.policy ≡ self.old.policy }
        ensures stands { (before : SoFar) (calls : List Happened) → StandsFor before self.old calls
            → StandsFor before self.new (happened (SessionOver end) now room result ∷ calls) }
    {
        self.tell(CallKind::SessionOver(end), now, room)
    }

    /// The link is to stop: at once, or with the session that is under way.
    pub fn stop(&mut self) -> DialNow
        ensures policy { self.new.policy ≡ self.old.policy }
        ensures stands { (before : SoFar) (calls : List Happened) (at room : ℕ) → StandsFor before self.old calls
            → StandsFor before self.new (happened Stop at room result ∷ calls) }
    {
        self.tell(CallKind::Stop, 0, 0)
    }

    /// Whether an attempt, or the session that it led to, is under way.
    pub fn is_dialling(&self) -> bool
        ensures now { (result ≡ true) ↔ IsUnderWay self.now }
        ensures past { (before : SoFar) (calls : List Happened) → StandsFor before self.now calls
            → result ≡ is_under_way (so_far before calls) }
    {
        match self.stage {
            Stage::Dialling => true,
            _ => false,
        }
    }

    /// The moment at which the present hold ends. None outside a hold.
    pub fn holds_until(&self) -> Option<u64>
        ensures past { (before : SoFar) (calls : List Happened) → StandsFor before self.now calls
            → result ≡ holds_until (so_far before calls) }
    {
        match self.stage {
            Stage::Holding(until) => Some(until),
            _ => None,
        }
    }

    /// Whether the link waits to be woken.
    pub fn is_waiting(&self) -> bool
        ensures past { (before : SoFar) (calls : List Happened) → StandsFor before self.now calls
            → result ≡ is_waiting (so_far before calls) }
    {
        match self.stage {
            Stage::Waiting => true,
            _ => false,
        }
    }

    /// The exit status with which the link has finished.
    pub fn finished(&self) -> Option<u8>
        ensures past { (before : SoFar) (calls : List Happened) → StandsFor before self.now calls
            → result ≡ finished_with (so_far before calls) }
    {
        match self.stage {
            Stage::Finished(status) => Some(status),
            _ => None,
        }
    }

    /// How many sessions were over that weren't live, since the last that was. It stands still at 2^32 - 1.
    pub fn failures(&self) -> u32
        ensures past { (before : SoFar) (calls : List Happened) → StandsFor before self.now calls
            → result ≡ min (so_far before calls).failures 4294967295 }
    {
        self.failures
    }

    /// Whether a stop was called.
    pub fn is_stopping(&self) -> bool
        ensures past { (before : SoFar) (calls : List Happened) → StandsFor before self.now calls
            → result ≡ (so_far before calls).stopped }
    {
        self.stopped
    }

    // The answer to a call, before it is noted.
    fn answer_to(&self, call: CallKind, now: u64, room: u32) -> DialNow
        requires { MayBeTold call self.now now }
        ensures answer { (s : SoFar) → self.now ≡ dial_of self.now.policy s → result ≡ answer_to self.now.policy s (asked call now room) }
        ensures in_range { (milliseconds : ℕ) → result ≡ DialNow.Hold milliseconds → now ≤ 2 ^ 56 }
    {
        match (call, self.stage) {
            (CallKind::Start, Stage::New) => next(self.policy, room),
            (CallKind::Wake, Stage::Waiting) => attempt(room),
            (CallKind::Hup, Stage::Holding(_)) => next(self.policy, room),
            (CallKind::Tick, Stage::Holding(until)) if has_come(Some(until), now) => {
                next(self.policy, room)
            }
            (CallKind::SessionOver(end), _) => {
                let failures = failures_with(call, self.failures);
                after_session(self.policy, self.stopped, failures, end, room)
            }
            (CallKind::Stop, Stage::New | Stage::Holding(_) | Stage::Waiting) => DialNow::Finish(
                STOPPED,
            ),
            _ => DialNow::Nothing,
        }
    }

    // A call is answered, and the answer noted.
    fn tell(&mut self, call: CallKind, now: u64, room: u32) -> DialNow
        requires { MayBeTold call self.old now }
        ensures policy { self.new.policy ≡ self.old.policy }
        ensures stands { (before : SoFar) (calls : List Happened) → StandsFor before self.old calls
            → StandsFor before self.new (happened call now room result ∷ calls) }
    {
        let answer = self.answer_to(call, now, room);
        let stage = stage_after(self.stage, answer, now);
        let failures = failures_with(call, self.failures);
        let stopped = is_stopped_with(call, self.stopped);
        self.stage = stage;
        self.failures = failures;
        self.stopped = stopped;
        answer
    }
}
