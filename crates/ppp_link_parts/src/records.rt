ghost use Rattle.std.specs.Prelude.{◌≡◌, ◌≢◌, ℕ, ◌+◌, ◌-◌, ◌^◌, ◌<◌, ◌≤◌, ◌↔◌, ◌==◌, ◌&&◌, ◌∷◌, not, nat_le, Bool, true, false, if◌then◌else◌, Option, None, Some, is_some, is_none, IsOk, OnOk, OnErr, IfErr, IfOk, IsSome, IfSome, IfNone, OnSome, length};
ghost use Rattle.ppp_base.specs.declared.hook_target.HookTarget.TheVariants.{Link};
ghost use Rattle.ppp_hooks.specs.HookFacts.{no_facts, settled, with_end, with_open};
ghost use Rattle.ppp_hooks.specs.HookPast.{ends_in, open_in, starts_in};
ghost use Rattle.ppp_mark.specs.Log.{no_marks, room_of};
ghost use Rattle.ppp_mark.specs.Marks.{asked_mark, attempt_mark, cause_mark, finished_mark, hold_mark, lcp_closed_mark, lcp_open_mark, left_mark, line_mark, live_mark, member_mark, over_mark, refused_mark, signal_mark, signal_number, wait_mark};
ghost use Rattle.ppp_mark.specs.ScriptLog.{IsRunningJob, closed_facts, log_closed, log_ended, log_opened, next_opening};
ghost use Rattle.ppp_mark.specs.Scripts.{said_in};
ghost use Rattle.ppp_dial.specs.declared.call.CallKind.TheVariants.{Start, Wake, Tick};
ghost use Rattle.ppp_outside.specs.declared.line_words.LineWords.{LineWords};
ghost use Rattle.ppp_link_rules.specs.Marks.{Holds, New, Waits, hold_by, is_new, is_session, status_by};
ghost use Rattle.ppp_link_parts.specs.Records.{DialStands, answer_marked, marked_with, says, stage_by, told};

use crate::control::{Control, Doing};
use ppp_base::{HookTarget, LinkId, NoMemory, Refusal, SignalWord, Unit};
use ppp_dial::{Dial, DialPolicy};
use ppp_link_rules::cause::Cause;
use ppp_mark::{Log, Mark, ScriptLog};
use ppp_outside::Spawner;
use std::alloc::Global;
use std::marker::Model;

/// A link's log with its scripts, its dial, and what the log's marks tell.
#[derive(Drop)]
pub struct Records<S: Spawner> {
    pub(crate) id: LinkId,
    pub(crate) scripts: ScriptLog<S>,
    pub(crate) dial: Dial,
    pub(crate) control: Control,
}

impl<S: Spawner> Model for Records<S> {
    ghost use Rattle.ppp_link_parts.specs.Records.{AreKept, RecordsNow};

    ghost Value = { RecordsNow S };

    ghost view = { λ r. record { id = r.id; scripts = r.scripts; dial = r.dial } };

    ghost invariant = { λ r. AreKept r.id r.scripts r.dial r.control };
}

impl<S: Spawner> Records<S> {
    /// Those of a link that hasn't begun, whose log has room for so many marks.
    #[tactic(auto, using(crate::proofs::StepLemmas::new_in_step))]
    pub fn new(
        alloc: Global,
        id: LinkId,
        policy: DialPolicy,
        spawner: S,
        limit: u32,
    ) -> Result<Records<S>, NoMemory>
        requires tries { S.tries spawner < 2 ^ 63 }
        requires faults { S.faults spawner < 2 ^ 63 }
        requires limit { limit ≤ 1048576 }
        ensures id { IfOk result (λ r. r.id ≡ id) }
        ensures scripts { IfOk result (λ r. r.scripts ≡ record { machine = record { target = Link id; facts = no_facts; spawner = Some spawner }; log = no_marks limit }) }
        ensures policy { IfOk result (λ r. r.dial.policy ≡ policy) }
        ensures dials { IfOk result (λ r. (line : LineWords) → DialStands line r) }
    {
        let scripts = ScriptLog::new(alloc, HookTarget::Link(id), spawner, limit)?;
        Ok(Records {
            id,
            scripts,
            dial: Dial::new(policy),
            control: Control {
                session: 0,
                doing: Doing::New,
                is_stopped: false,
                openings: 0,
                stays: 0,
                stay: None,
                unit: None,
                live: false,
                cause: None,
                was_live: false,
                from: 0,
            },
        })
    }

    /// The log.
    pub fn log(&self) -> &Log
        ensures { result.now ≡ self.now.scripts.log }
    {
        self.scripts.log()
    }

    /// How many marks may still be added.
    pub fn room(&self) -> u32
        ensures { result ≡ room_of self.now.scripts.log }
    {
        self.scripts.room()
    }

    /// The number of the present session, or of the last one.
    pub fn session(&self) -> u32
        ensures { result ≡ (told self.now).session }
    {
        self.control.session
    }

    /// Whether a session lasts.
    pub fn is_lasting(&self) -> bool
        ensures { result ≡ is_session (told self.now).doing }
    {
        match self.control.doing {
            Doing::Dials | Doing::HasLine => true,
            Doing::New | Doing::IsOver | Doing::Waits => false,
            Doing::Holds(_) | Doing::HasFinished(_) => false,
        }
    }

    /// Whether the link hasn't begun.
    pub fn is_new(&self) -> bool
        ensures { result ≡ is_new (told self.now).doing }
    {
        match self.control.doing {
            Doing::New => true,
            Doing::Dials | Doing::HasLine | Doing::IsOver | Doing::Waits => false,
            Doing::Holds(_) | Doing::HasFinished(_) => false,
        }
    }

    /// When the present hold ends.
    pub fn holds_until(&self) -> Option<u64>
        ensures { result ≡ hold_by (told self.now).doing }
    {
        match self.control.doing {
            Doing::Holds(until) => Some(until),
            Doing::New | Doing::Dials | Doing::HasLine | Doing::IsOver => None,
            Doing::Waits | Doing::HasFinished(_) => None,
        }
    }

    /// The status with which the link has finished.
    pub fn status(&self) -> Option<u8>
        ensures { result ≡ status_by (told self.now).doing }
    {
        match self.control.doing {
            Doing::HasFinished(status) => Some(status),
            Doing::New | Doing::Dials | Doing::HasLine | Doing::IsOver => None,
            Doing::Waits | Doing::Holds(_) => None,
        }
    }

    /// Why the session ends.
    pub fn cause(&self) -> Option<Cause>
        ensures { result ≡ (told self.now).cause }
    {
        self.control.cause
    }

    /// Whether a session lasts that nothing has ended.
    pub fn is_busy(&self) -> bool
        ensures { result ≡ (is_session (told self.now).doing && is_none (told self.now).cause) }
    {
        self.is_lasting() && self.control.cause.is_none()
    }

    /// The stay for which a bundle was asked.
    pub fn stay(&self) -> Option<u32>
        ensures { result ≡ (told self.now).stay }
    {
        self.control.stay
    }

    /// The unit of the stay.
    pub fn unit(&self) -> Option<Unit>
        ensures { result ≡ (told self.now).unit }
    {
        self.control.unit
    }

    /// Whether the stay's bundle is live.
    pub fn is_live(&self) -> bool
        ensures { result ≡ (told self.now).live }
    {
        self.control.live
    }

    /// How many marks the session has.
    pub fn since(&self) -> u32
        ensures { result ≡ (told self.now).since }
    {
        self.scripts.log().count() - self.control.from
    }

    /// Whether INT or TERM came.
    pub fn is_stopped(&self) -> bool
        ensures { result ≡ (told self.now).stopped }
    {
        self.control.is_stopped
    }

    /// Whether the session was live.
    pub fn was_live(&self) -> bool
        ensures { result ≡ (told self.now).was_live }
    {
        self.control.was_live
    }

    /// What the dial does is what the marks tell.
    pub fn dial_is_in_step(&self)
        ensures { self.now.dial.stage ≡ stage_by (told self.now).doing }
    {
        let _doing = self.control.doing;
    }

    /// The mark of a line.
    #[tactic(auto, using(crate::proofs::StepLemmas::line_in_step))]
    pub fn mark_line(&mut self, time: u64)
        requires room { 0 < room_of self.old.scripts.log }
        requires lasts { is_session (told self.old).doing ≡ true }
        ensures new { self.new ≡ marked_with (line_mark time (told self.old).session) self.old }
        ensures dials { (line : LineWords) → DialStands line self.old → DialStands line self.new }
    {
        self.scripts.put(Mark::line(time, self.control.session));
        self.control.doing = Doing::HasLine;
    }

    /// The mark of a cause of the session's end.
    pub fn mark_cause(&mut self, cause: Cause, time: u64)
        requires room { 0 < room_of self.old.scripts.log }
        requires table { (1 ≤ cause.number) × (cause.number ≤ 16) }
        ensures new { self.new ≡ marked_with (cause_mark time cause.number cause.detail (told self.old).session) self.old }
        ensures dials { (line : LineWords) → DialStands line self.old → DialStands line self.new }
    {
        self.scripts.put(Mark::cause(time, cause.number, cause.detail, self.control.session));
        self.control.cause = Some(cause);
    }

    /// The mark of LCP's coming to Opened.
    pub fn mark_lcp_open(&mut self, time: u64)
        requires room { 0 < room_of self.old.scripts.log }
        ensures new { self.new ≡ marked_with (lcp_open_mark time ((told self.old).openings + 1)) self.old }
        ensures dials { (line : LineWords) → DialStands line self.old → DialStands line self.new }
    {
        let _count = self.scripts.log().count();
        self.control.openings += 1;
        self.scripts
            .put(Mark::lcp_open(time, self.control.openings));
    }

    /// The mark of LCP's leaving Opened.
    pub fn mark_lcp_closed(&mut self, time: u64)
        requires room { 0 < room_of self.old.scripts.log }
        ensures new { self.new ≡ marked_with (lcp_closed_mark time (told self.old).openings) self.old }
        ensures dials { (line : LineWords) → DialStands line self.old → DialStands line self.new }
    {
        self.scripts
            .put(Mark::lcp_closed(time, self.control.openings));
    }

    /// The mark of the next stay, and its number.
    pub fn mark_asked(&mut self, time: u64) -> u32
        requires room { 0 < room_of self.old.scripts.log }
        ensures new { self.new ≡ marked_with (asked_mark time result) self.old }
        ensures stay { result ≡ (told self.old).stays + 1 }
        ensures dials { (line : LineWords) → DialStands line self.old → DialStands line self.new }
    {
        let _count = self.scripts.log().count();
        let stay = self.control.stays + 1;
        self.scripts.put(Mark::asked(time, stay));
        self.control.stays = stay;
        self.control.stay = Some(stay);
        self.control.unit = None;
        self.control.live = false;
        stay
    }

    /// The mark of a stay that is over.
    pub fn mark_left(&mut self, stay: u32, time: u64)
        requires room { 0 < room_of self.old.scripts.log }
        ensures new { self.new ≡ marked_with (left_mark time stay) self.old }
        ensures dials { (line : LineWords) → DialStands line self.old → DialStands line self.new }
    {
        self.scripts.put(Mark::left(time, stay));
        self.control.stay = None;
        self.control.unit = None;
        self.control.live = false;
    }

    /// The mark of a member.
    pub fn mark_member(&mut self, unit: Unit, stay: u32, time: u64)
        requires room { 0 < room_of self.old.scripts.log }
        ensures new { self.new ≡ marked_with (member_mark time unit stay) self.old }
        ensures dials { (line : LineWords) → DialStands line self.old → DialStands line self.new }
    {
        self.scripts.put(Mark::member(time, unit, stay));
        self.control.unit = Some(unit);
    }

    /// The mark of a bundle that is live.
    pub fn mark_live(&mut self, unit: Unit, stay: u32, time: u64)
        requires room { 0 < room_of self.old.scripts.log }
        ensures new { self.new ≡ marked_with (live_mark time unit stay) self.old }
        ensures dials { (line : LineWords) → DialStands line self.old → DialStands line self.new }
    {
        self.scripts.put(Mark::live(time, unit, stay));
        self.control.live = true;
        self.control.was_live = true;
    }

    /// The mark of a Join that was refused.
    pub fn mark_refused(&mut self, reason: Refusal, stay: u32, time: u64)
        requires room { 0 < room_of self.old.scripts.log }
        ensures new { self.new ≡ marked_with (refused_mark time reason stay) self.old }
        ensures dials { (line : LineWords) → DialStands line self.old → DialStands line self.new }
    {
        self.scripts.put(Mark::refused(time, reason, stay));
    }

    /// The mark of a hang-up signal in a session. The dial isn't told of it.
    pub fn mark_hup(&mut self, time: u64)
        requires room { 0 < room_of self.old.scripts.log }
        requires lasts { is_session (told self.old).doing ≡ true }
        ensures new { self.new ≡ marked_with (signal_mark time SignalWord.Hup) self.old }
        ensures dials { (line : LineWords) → DialStands line self.old → DialStands line self.new }
    {
        self.scripts.put(Mark::signal(time, SignalWord::Hup));
    }
}
