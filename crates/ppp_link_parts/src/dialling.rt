// What a link's dial is told, each call with the mark of its answer.
ghost use Rattle.std.specs.Prelude.{◌≡◌, ℕ, ◌^◌, ◌<◌, ◌≤◌, true, is_some, None};
ghost use Rattle.ppp_dial.specs.declared.call.CallKind.TheVariants.{Start, Wake, Hup, Tick, SessionOver, Stop};
ghost use Rattle.ppp_mark.specs.Log.{room_of};
ghost use Rattle.ppp_mark.specs.Marks.{over_mark, signal_mark, signal_number};
ghost use Rattle.ppp_mark.specs.ScriptLog.{Grows};
ghost use Rattle.ppp_outside.specs.declared.line_words.LineWords.{LineWords};
ghost use Rattle.ppp_link_rules.specs.Dialling.{end_by};
ghost use Rattle.ppp_link_rules.specs.Marks.{hold_by, is_session, status_by};
ghost use Rattle.ppp_link_parts.specs.Records.{DialStands, answer_marked, marked_with, says, told};

use crate::answering::{end_of, put_answer, put_over, put_signal};
use crate::records::Records;
use ppp_base::SignalWord;
use ppp_dial::DialNow;
use ppp_dial::laws::exactly_one_answer;
use ppp_outside::{LineWords, Spawner};

impl<S: Spawner> Records<S> {
    /// The link begins. A link that has begun already isn't begun again.
    pub fn start(&mut self, time: u64) -> DialNow
        requires room { 0 < room_of self.old.scripts.log }
        requires time { time ≤ 2 ^ 56 }
        ensures new { self.new ≡ record (answer_marked result time self.old) { dial = self.new.dial } }
        ensures policy { self.new.dial.policy ≡ self.old.dial.policy }
        ensures answer { (line : LineWords) → DialStands line self.old → result ≡ says line Start time self.old }
        ensures dials { (line : LineWords) → DialStands line self.old → DialStands line self.new }
        ensures grows { Grows 1 self.old.scripts.log self.new.scripts.log }
    {
        exactly_one_answer();
        let room = self.scripts.room();
        let answer = self.dial.start(time, room);
        put_answer(&mut self.scripts, &mut self.control, answer, time);
        answer
    }

    /// A packet waits for the link. It ends a wait.
    pub fn wake(&mut self, time: u64) -> DialNow
        requires room { 0 < room_of self.old.scripts.log }
        requires time { time ≤ 2 ^ 56 }
        ensures new { self.new ≡ record (answer_marked result time self.old) { dial = self.new.dial } }
        ensures policy { self.new.dial.policy ≡ self.old.dial.policy }
        ensures answer { (line : LineWords) → DialStands line self.old → result ≡ says line Wake time self.old }
        ensures dials { (line : LineWords) → DialStands line self.old → DialStands line self.new }
        ensures grows { Grows 1 self.old.scripts.log self.new.scripts.log }
    {
        exactly_one_answer();
        let room = self.scripts.room();
        let answer = self.dial.wake(time, room);
        put_answer(&mut self.scripts, &mut self.control, answer, time);
        answer
    }

    /// The time is looked at. It ends a hold whose time has come.
    pub fn tick(&mut self, time: u64) -> DialNow
        requires room { 0 < room_of self.old.scripts.log }
        requires time { time ≤ 2 ^ 56 }
        ensures new { self.new ≡ record (answer_marked result time self.old) { dial = self.new.dial } }
        ensures policy { self.new.dial.policy ≡ self.old.dial.policy }
        ensures answer { (line : LineWords) → DialStands line self.old → result ≡ says line Tick time self.old }
        ensures dials { (line : LineWords) → DialStands line self.old → DialStands line self.new }
        ensures grows { Grows 1 self.old.scripts.log self.new.scripts.log }
    {
        exactly_one_answer();
        let room = self.scripts.room();
        let answer = self.dial.tick(time, room);
        put_answer(&mut self.scripts, &mut self.control, answer, time);
        answer
    }

    /// The hang-up signal comes in a hold, which ends at once.
    pub fn hup(&mut self, time: u64) -> DialNow
        requires room { 2 ≤ room_of self.old.scripts.log }
        requires time { time ≤ 2 ^ 56 }
        requires holds { is_some (hold_by (told self.old).doing) ≡ true }
        ensures new { self.new ≡ record (answer_marked result time (marked_with (signal_mark time SignalWord.Hup) self.old)) { dial = self.new.dial } }
        ensures policy { self.new.dial.policy ≡ self.old.dial.policy }
        ensures answer { (line : LineWords) → DialStands line self.old → result ≡ says line Hup time (marked_with (signal_mark time SignalWord.Hup) self.old) }
        ensures dials { (line : LineWords) → DialStands line self.old → DialStands line self.new }
        ensures grows { Grows 2 self.old.scripts.log self.new.scripts.log }
    {
        exactly_one_answer();
        put_signal(&mut self.scripts, &mut self.control, SignalWord::Hup, time);
        let room = self.scripts.room();
        let answer = self.dial.hup(time, room);
        put_answer(&mut self.scripts, &mut self.control, answer, time);
        answer
    }

    /// INT or TERM comes, and the link hasn't finished. It stops at once, or with its session.
    pub fn stop(&mut self, word: SignalWord, time: u64) -> DialNow
        requires room { 2 ≤ room_of self.old.scripts.log }
        requires time { time ≤ 2 ^ 56 }
        requires word { 2 ≤ signal_number word }
        requires lives { status_by (told self.old).doing ≡ None }
        ensures new { self.new ≡ record (answer_marked result time (marked_with (signal_mark time word) self.old)) { dial = self.new.dial } }
        ensures policy { self.new.dial.policy ≡ self.old.dial.policy }
        ensures answer { (line : LineWords) → DialStands line self.old → result ≡ says line Stop time (marked_with (signal_mark time word) self.old) }
        ensures dials { (line : LineWords) → DialStands line self.old → DialStands line self.new }
        ensures grows { Grows 2 self.old.scripts.log self.new.scripts.log }
    {
        exactly_one_answer();
        put_signal(&mut self.scripts, &mut self.control, word, time);
        let answer = self.dial.stop();
        put_answer(&mut self.scripts, &mut self.control, answer, time);
        answer
    }

    /// The session is over.
    pub fn over(&mut self, line: &LineWords, time: u64) -> DialNow
        requires room { 2 ≤ room_of self.old.scripts.log }
        requires time { time ≤ 2 ^ 56 }
        requires lasts { is_session (told self.old).doing ≡ true }
        ensures new { self.new ≡ record (answer_marked result time (marked_with (over_mark time (told self.old).was_live (told self.old).session) self.old)) { dial = self.new.dial } }
        ensures policy { self.new.dial.policy ≡ self.old.dial.policy }
        ensures answer { DialStands line.now self.old
            → result ≡ says line.now (SessionOver (end_by line.now (told self.old).was_live (told self.old).cause)) time (marked_with (over_mark time (told self.old).was_live (told self.old).session) self.old) }
        ensures dials { DialStands line.now self.old → DialStands line.now self.new }
        ensures grows { Grows 2 self.old.scripts.log self.new.scripts.log }
    {
        exactly_one_answer();
        let end = end_of(&self.control, line);
        put_over(&mut self.scripts, &mut self.control, time);
        let room = self.scripts.room();
        let answer = self.dial.session_over(end, time, room);
        put_answer(&mut self.scripts, &mut self.control, answer, time);
        answer
    }
}
