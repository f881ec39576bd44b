//! What the dial answers, and what an attempt makes.

ghost use Rattle.std.specs.Prelude.{◌≡◌, ◌≤◌, ◌<◌, ◌^◌, false, is_some};
ghost use Rattle.ppp_dial.specs.LookingBack.{is_nothing};
ghost use Rattle.ppp_mark.specs.Log.{room_of};
ghost use Rattle.ppp_mark.specs.ScriptLog.{Grows};
ghost use Rattle.ppp_outside.specs.declared.line_words.LineWords.{LineWords};
ghost use Rattle.ppp_link_parts.specs.Records.{DialStands, answer_marked, says, told};
ghost use Rattle.ppp_link_rules.specs.Dialling.{dial_says};
ghost use Rattle.ppp_link_rules.specs.LinkPart.{begun};
ghost use Rattle.ppp_link_rules.specs.LinkState.{LinkState};
ghost use Rattle.ppp_link_rules.specs.Marks.{is_session};
ghost use Rattle.ppp_link_core.specs.Standing.{Does, Lives, Sits, StandsFor, opened};
ghost use Rattle.ppp_link_steps.specs.Calm.{Calm};
ghost use Rattle.ppp_link_steps.specs.Dialled.{dial_asked, dial_followed, dial_marked, kind_of, session_made};

use ppp_dial::DialNow;
use ppp_link_core::link_core::LinkCore;
use ppp_link_parts::records::Records;
use ppp_link_rules::errand::Errand;
use ppp_outside::Spawner;

/// What the dial is asked where no session is over and no signal comes.
#[derive(Clone, Copy, Debug, PartialEq, Eq)]
pub enum DialAsk {
    /// The link begins.
    Start,
    /// A packet waits for the link.
    Wake,
    /// The time is looked at.
    Tick,
}

// One asking, with the mark of its answer.
fn tell<S: Spawner>(records: &mut Records<S>, ask: DialAsk, time: u64) -> DialNow
    requires room { 0 < room_of records.old.scripts.log }
    requires time { time ≤ 2 ^ 56 }
    ensures new { records.new ≡ record (answer_marked result time records.old) { dial = records.new.dial } }
    ensures policy { records.new.dial.policy ≡ records.old.dial.policy }
    ensures answer { (line : LineWords) → DialStands line records.old → result ≡ says line (kind_of ask) time records.old }
    ensures dials { (line : LineWords) → DialStands line records.old → DialStands line records.new }
    ensures grows { Grows 1 records.old.scripts.log records.new.scripts.log }
{
    match ask {
        DialAsk::Start => records.start(time),
        DialAsk::Wake => records.wake(time),
        DialAsk::Tick => records.tick(time),
    }
}

// What the dial answers, with its mark.
#[tactic(auto, using(crate::proofs::DialFacts::marked_does, crate::proofs::DialFacts::marked_lives, crate::proofs::DialFacts::says_is, crate::proofs::DialFacts::free_by))]
fn mark_answer<S: Spawner>(core: &mut LinkCore<S>, ask: DialAsk) -> DialNow
    requires lives { Lives core.old }
    requires room { 1 ≤ room_of core.old.records.scripts.log }
    ensures does { Does (dial_marked result) core.old core.new }
    ensures says { (s : LinkState) → StandsFor core.old s → result ≡ dial_says (kind_of ask) s }
    ensures free { is_nothing result ≡ false → is_session (told core.old.records).doing ≡ false }
    ensures rest { core.new ≡ record core.old { records = core.new.records } }
    ensures grows { Grows 1 core.old.records.scripts.log core.new.records.scripts.log }
    ensures lives { Lives core.new }
{
    let time = core.time;
    core.records.dial_is_in_step();
    tell(&mut core.records, ask, time)
}

// The fields of a session that has just begun.
#[tactic(auto, using(crate::proofs::DialFacts::made_does, crate::proofs::DialFacts::made_lives, crate::proofs::DialFacts::made_sits))]
fn make_session<S: Spawner>(core: &mut LinkCore<S>)
    requires lives { Lives core.old }
    requires none { is_some core.old.auth ≡ false }
    ensures does { Does session_made core.old core.new }
    ensures sits { Sits (opened core.new.lcp) core.new }
    ensures records { core.new.records ≡ core.old.records }
    ensures lives { Lives core.new }
{
    core.dial = Errand::Waiting;
    core.reading = Errand::Absent;
    core.writing = Errand::Absent;
    core.line_ended = false;
    core.taken = 0;
    core.talk.end();
    core.deframer.restart();
    core.lcp = None;
    core.auth = None;
    core.out.clear();
}

// What follows the mark of the dial's answer.
#[tactic(auto, using(crate::proofs::DialFacts::follows_begin, crate::proofs::DialFacts::follows_nothing, crate::proofs::DialFacts::follows_hold, crate::proofs::DialFacts::follows_wait, crate::proofs::DialFacts::follows_finish))]
pub(crate) fn follow_dial<S: Spawner>(core: &mut LinkCore<S>, answer: DialNow)
    requires lives { Lives core.old }
    requires none { is_nothing answer ≡ false → is_some core.old.auth ≡ false }
    requires sits { Sits (opened core.old.lcp) core.old }
    ensures does { Does (dial_followed answer) core.old core.new }
    ensures sits { Sits (opened core.new.lcp) core.new }
    ensures records { core.new.records ≡ core.old.records }
    ensures lives { Lives core.new }
{
    match answer {
        DialNow::Nothing => {}
        DialNow::Begin => make_session(core),
        DialNow::Hold(_) => {}
        DialNow::Wait => {}
        DialNow::Finish(_) => {}
    }
}

// The dial is asked, and does what it answers.
#[tactic(auto, using(crate::proofs::DialFacts::asked_does, crate::proofs::DialFacts::asked_calm, crate::proofs::DialFacts::no_phase, crate::proofs::DialFacts::sits_behind))]
pub(crate) fn ask_dial<S: Spawner>(core: &mut LinkCore<S>, ask: DialAsk)
    requires lives { Lives core.old }
    requires room { 1 ≤ room_of core.old.records.scripts.log }
    requires sits { Sits (opened core.old.lcp) core.old }
    requires calm { Calm core.old }
    ensures does { Does (dial_asked (kind_of ask)) core.old core.new }
    ensures sits { Sits (opened core.new.lcp) core.new }
    ensures calm { Calm core.new }
    ensures grows { Grows 1 core.old.records.scripts.log core.new.records.scripts.log }
    ensures lives { Lives core.new }
{
    let answer = mark_answer(core, ask);
    follow_dial(core, answer);
}

/// The link begins, if it hasn't yet.
pub fn begin<S: Spawner>(core: &mut LinkCore<S>)
    requires lives { Lives core.old }
    requires room { 1 ≤ room_of core.old.records.scripts.log }
    requires sits { Sits (opened core.old.lcp) core.old }
    requires calm { Calm core.old }
    ensures does { Does begun core.old core.new }
    ensures sits { Sits (opened core.new.lcp) core.new }
    ensures calm { Calm core.new }
    ensures grows { Grows 1 core.old.records.scripts.log core.new.records.scripts.log }
    ensures lives { Lives core.new }
{
    ask_dial(core, DialAsk::Start);
}
