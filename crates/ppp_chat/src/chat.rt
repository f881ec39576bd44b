ghost use Rattle.std.specs.Prelude.{◌≡◌, Bool, [], ◌∷◌, ◌++◌, List, Some, drop};
ghost use Rattle.ppp_chat.specs.ChatOf.{ChatOf};
ghost use Rattle.ppp_chat.specs.ChatState.{ChatState, IsBegun, StandsFor, Answers, after_late, rest_of, outcome_of, sent_by, answer, answer_for};
ghost use Rattle.ppp_chat.specs.Course.{course, is_last_part};
ghost use Rattle.ppp_chat.specs.Event.{Event, tick_at, octet_at};
ghost use Rattle.ppp_chat.specs.Hearing.{Goes, after_ending, rest_with};
ghost use Rattle.ppp_chat.specs.Room.{AreSetAt};
ghost use Rattle.ppp_chat.specs.Steps.{flat};
ghost use Rattle.ppp_chat.specs.Talk.{told, behind};

use crate::directives::Directives;
use crate::ending::{Ending, ending_with, has_passed};
use crate::event::Event;
use crate::now::{ChatEnd, ChatNow};
use crate::octets::SentOctets;
use crate::script::Script;
use crate::stage::Stage;
use crate::step::Step;
use crate::walk::walk;
use crate::window::Window;
use std::marker::Model;

/// A run of a script, call by call. It is told of the octets that come and of the time, and answers what is to be
/// sent and how the script has ended. Moments are milliseconds of one clock.
#[derive(Drop)]
pub struct Chat {
    script: Script,
    stage: Stage,
    place: usize,
    directives: Directives,
    window: Window,
}

impl Model for Chat {
    ghost use Rattle.std.specs.Prelude.{drop};
    ghost use Rattle.ppp_chat.specs.ChatState.{ChatState};
    ghost use Rattle.ppp_chat.specs.Room.{AreSetAt};
    ghost use Rattle.ppp_chat.specs.Steps.{flat};
    ghost use Rattle.ppp_chat.specs.Texts.{kept_settings};

    ghost Value = { ChatState };

    ghost view = { λ chat. record {
      script = chat.script;
      stage = chat.stage;
      left = drop chat.place (flat chat.script.items);
      settings = kept_settings (flat chat.script.items) chat.directives;
      window = chat.window;
    } };

    ghost invariant = { λ chat. AreSetAt (flat chat.script.items) chat.place (kept_settings (flat chat.script.items) chat.directives).aborts };
}

// Whether nothing follows, at this place, for an expect that is late.
fn is_last_part(steps: &[Step], place: usize) -> bool
    ensures { result ≡ is_last_part (drop place steps.now) }
{
    match steps.get(place) {
        None => true,
        Some(Step::Met) => true,
        Some(_) => false,
    }
}

// The answer of a script that has ended.
fn answer_for(how: ChatEnd) -> ChatNow
    ensures { result ≡ answer_for (Some how) }
{
    match how {
        ChatEnd::Done => ChatNow::Done,
        ChatEnd::TimedOut => ChatNow::TimedOut,
        ChatEnd::Aborted(number) => ChatNow::Aborted(number),
    }
}

// The answer of a call that sends these octets.
fn answer(sent: SentOctets, stage: Stage) -> ChatNow
    ensures sent { sent_by result ≡ sent }
    ensures is { result ≡ answer sent (outcome_of stage) }
{
    if !sent.is_empty() {
        return ChatNow::Sent(sent);
    }
    match stage {
        Stage::Over(how) => answer_for(how),
        _ => ChatNow::Going,
    }
}

impl Chat {
    /// A conversation that is to be begun.
    pub fn new(script: Script) -> Chat
        ensures script { result.script ≡ script }
        ensures stage { result.stage ≡ Stage.NotBegun }
    {
        let directives = Directives::new(script.timeout_s());
        Chat {
            script,
            stage: Stage::NotBegun,
            place: 0,
            directives,
            window: Window::new(),
        }
    }

    /// Begins the script from its first pair, whatever has been before.
    pub fn begin(&mut self, now: u64) -> ChatNow
        ensures begun { IsBegun self.new }
        ensures script { self.new.script ≡ self.old.script }
        ensures stands { StandsFor self.new (tick_at now ∷ []) }
        ensures answers { Answers self.new.script [] (tick_at now) result }
        ensures told { result ≡ told (tick_at now) (ChatOf self.new.script) }
        ensures behind { rest_of self.new ≡ behind (tick_at now) (ChatOf self.new.script) }
        ensures stage { result ≡ answer (sent_by result) (outcome_of self.new.stage) }
    {
        let directives = Directives::new(self.script.timeout_s());
        self.directives = directives;
        self.place = 0;
        self.go_on(0, false, now)
    }

    /// An octet comes.
    pub fn octet(&mut self, octet: u8, now: u64) -> ChatNow
        requires { IsBegun self.old }
        ensures begun { IsBegun self.new }
        ensures script { self.new.script ≡ self.old.script }
        ensures stands { (calls : List Event) → StandsFor self.old calls → StandsFor self.new (calls ++ octet_at octet now ∷ []) }
        ensures answers { (calls : List Event) → StandsFor self.old calls → Answers self.new.script calls (octet_at octet now) result }
        ensures told { result ≡ told (octet_at octet now) (rest_of self.old) }
        ensures behind { rest_of self.new ≡ behind (octet_at octet now) (rest_of self.old) }

        // Where the script has ended, the answer is the same again.
        ensures stage { result ≡ answer (sent_by result) (outcome_of self.new.stage) }
        ensures again { (how : ChatEnd) → self.old.stage ≡ Stage.Over how → (result ≡ answer_for (Some how)) × (self.new ≡ self.old) }
    {
        self.hear(Event {
            at: now,
            octet: Some(octet),
        })
    }

    /// The time is looked at.
    pub fn tick(&mut self, now: u64) -> ChatNow
        requires { IsBegun self.old }
        ensures begun { IsBegun self.new }
        ensures script { self.new.script ≡ self.old.script }
        ensures stands { (calls : List Event) → StandsFor self.old calls → StandsFor self.new (calls ++ tick_at now ∷ []) }
        ensures answers { (calls : List Event) → StandsFor self.old calls → Answers self.new.script calls (tick_at now) result }
        ensures told { result ≡ told (tick_at now) (rest_of self.old) }
        ensures behind { rest_of self.new ≡ behind (tick_at now) (rest_of self.old) }

        // Where the script has ended, the answer is the same again.
        ensures stage { result ≡ answer (sent_by result) (outcome_of self.new.stage) }
        ensures again { (how : ChatEnd) → self.old.stage ≡ Stage.Over how → (result ≡ answer_for (Some how)) × (self.new ≡ self.old) }
    {
        self.hear(Event {
            at: now,
            octet: None,
        })
    }

    // Hears of a call, after the script was begun.
    fn hear(&mut self, event: Event) -> ChatNow
        requires { IsBegun self.old }
        ensures script { self.new.script ≡ self.old.script }
        ensures goes { Goes (rest_with self.old event) self.new result }
        ensures again { (how : ChatEnd) → self.old.stage ≡ Stage.Over how → (result ≡ answer_for (Some how)) × (self.new ≡ self.old) }
    {
        match self.stage {
            Stage::NotBegun => unreachable!(),
            Stage::Expecting(began) => self.expect(began, event),
            Stage::Pausing(began) => self.pause(began, event),
            Stage::Waiting => self.go_on(self.place, false, event.at),
            Stage::Over(how) => answer_for(how),
        }
    }

    // Does what follows at once, from the step at a place on.
    fn go_on(&mut self, place: usize, met: bool, now: u64) -> ChatNow
        requires { AreSetAt (flat self.old.script.items) place self.old.settings.aborts }
        ensures script { self.new.script ≡ self.old.script }
        ensures goes { Goes (course (drop place (flat self.old.script.items)) met self.old.settings now Bool.false) self.new result }
    {
        let halt = walk(self.script.steps(), place, met, now, &mut self.directives);
        self.place = halt.place;
        self.stage = halt.stage;
        self.window.clear();
        answer(halt.sent, halt.stage)
    }

    // The script has ended.
    fn end(&mut self, how: ChatEnd) -> ChatNow
        ensures script { self.new.script ≡ self.old.script }
        ensures stage { self.new.stage ≡ Stage.Over how }
        ensures is { result ≡ answer_for (Some how) }
    {
        self.stage = Stage::Over(how);
        answer_for(how)
    }

    // An expect is late, and this is the place behind it.
    fn go_late(&mut self, place: usize, now: u64) -> ChatNow
        requires { AreSetAt (flat self.old.script.items) place self.old.settings.aborts }
        ensures script { self.new.script ≡ self.old.script }
        ensures goes { Goes (after_late (drop place (flat self.old.script.items)) self.old.settings now) self.new result }
    {
        if is_last_part(self.script.steps(), place) {
            self.end(ChatEnd::TimedOut)
        } else {
            self.go_on(place, false, now)
        }
    }

    // An expect has ended, and this is the place behind it.
    fn follow(&mut self, place: usize, ending: Ending, now: u64) -> ChatNow
        requires { AreSetAt (flat self.old.script.items) place self.old.settings.aborts }
        ensures script { self.new.script ≡ self.old.script }
        ensures goes { Goes (after_ending ending (drop place (flat self.old.script.items)) self.old.settings now) self.new result }
    {
        match ending {
            Ending::TimeHasCome => self.go_late(place, now),
            Ending::Found => self.go_on(place, true, now),
            Ending::AbortFound(number) => self.end(ChatEnd::Aborted(number)),
        }
    }

    // Hears of a call while an expect goes on.
    fn expect(&mut self, began: u64, event: Event) -> ChatNow
        requires { self.old.stage ≡ Stage.Expecting began }
        ensures script { self.new.script ≡ self.old.script }
        ensures goes { Goes (rest_with self.old event) self.new result }
    {
        self.window.hear(event.octet);
        let steps = self.script.steps();
        let Some(Step::Expect(text)) = steps.get(self.place) else {
            return ChatNow::Going;
        };
        let ending = ending_with(
            steps,
            &self.directives,
            text.as_slice(),
            began,
            self.window.as_slice(),
            event,
        );
        match ending {
            None => ChatNow::Going,
            Some(ending) => {
                let behind = self.place + 1;
                self.follow(behind, ending, event.at)
            }
        }
    }

    // Hears of a call while a delay goes on.
    fn pause(&mut self, began: u64, event: Event) -> ChatNow
        requires { self.old.stage ≡ Stage.Pausing began }
        ensures script { self.new.script ≡ self.old.script }
        ensures goes { Goes (rest_with self.old event) self.new result }
    {
        let Some(Step::Pause(milliseconds)) = self.script.steps().get(self.place) else {
            return ChatNow::Going;
        };
        if has_passed(began, u64::from(*milliseconds), event.at) {
            let behind = self.place + 1;
            self.go_on(behind, false, event.at)
        } else {
            ChatNow::Going
        }
    }
}
