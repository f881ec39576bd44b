//! The chat script talks (chat(8)).

ghost use Rattle.std.specs.Prelude.{◌≡◌, ◌≤◌};
ghost use Rattle.ppp_chat.specs.Event.{octet_at, tick_at};
ghost use Rattle.ppp_mark.specs.Log.{room_of};
ghost use Rattle.ppp_mark.specs.ScriptLog.{Grows};
ghost use Rattle.ppp_link_parts.specs.declared.talk.Hears.TheVariants as hears;
ghost use Rattle.ppp_link_rules.specs.Hearing.{chat_ticked, chat_told, octet_taken, talk_begun};
ghost use Rattle.ppp_link_rules.specs.LinkState.{LinkState};
ghost use Rattle.ppp_link_rules.specs.Sending.{octets_sent};
ghost use Rattle.ppp_link_core.specs.Standing.{Does, Lives, Sits, StandsFor, opened};
ghost use Rattle.ppp_link_hearing.specs.Chatted.{beginning_told, chat_begun, first_answer, next_answer, octet_told, tick_told};

use ppp_chat::ChatNow;
use ppp_link_core::link_core::LinkCore;
use ppp_link_parts::talk::Hears;
use ppp_link_rules::cause::Cause;
use ppp_outside::Spawner;

// What a chat says goes out as it is.
#[tactic(auto, using(crate::proofs::ChatFacts::sent_does, crate::proofs::ChatFacts::sent_lives))]
fn send_octets<S: Spawner>(core: &mut LinkCore<S>, octets: &[u8])
    requires lives { Lives core.old }
    ensures does { Does (octets_sent octets.now) core.old core.new }
    ensures rest { core.new ≡ record core.old { out = core.new.out } }
    ensures lives { Lives core.new }
{
    core.out.put(octets);
}

// What the answer of a chat leads to.
#[tactic(auto, using(crate::proofs::ChatFacts::told_going, crate::proofs::ChatFacts::told_sent, crate::proofs::ChatFacts::told_done, crate::proofs::ChatFacts::told_late, crate::proofs::ChatFacts::told_aborted, crate::proofs::ChatFacts::sits_sent))]
fn follow_chat<S: Spawner>(core: &mut LinkCore<S>, answer: ChatNow)
    requires lives { Lives core.old }
    requires room { 26 ≤ room_of core.old.records.scripts.log }
    requires sits { Sits (opened core.old.lcp) core.old }
    ensures does { Does (chat_told answer) core.old core.new }
    ensures sits { Sits (opened core.new.lcp) core.new }
    ensures grows { Grows 26 core.old.records.scripts.log core.new.records.scripts.log }
    ensures lives { Lives core.new }
{
    match answer {
        ChatNow::Going => {}
        ChatNow::Sent(octets) => send_octets(core, octets.as_slice()),
        ChatNow::Done => core.open_link(),
        ChatNow::TimedOut => core.end_by(Cause {
            number: 2,
            detail: 0,
        }),
        ChatNow::Aborted(number) => core.end_by(Cause {
            number: 3,
            detail: u16::from(number),
        }),
    }
}

// The chat begins, if there is one.
#[tactic(auto, using(crate::proofs::ChatFacts::begun_does, crate::proofs::ChatFacts::begun_lives, crate::proofs::ChatFacts::begun_answer))]
fn ask_begin<S: Spawner>(core: &mut LinkCore<S>) -> Option<ChatNow>
    requires lives { Lives core.old }
    ensures does { Does chat_begun core.old core.new }
    ensures answer { (s : LinkState) → StandsFor core.old s → result ≡ first_answer s }
    ensures rest { core.new ≡ record core.old { talk = core.new.talk } }
    ensures lives { Lives core.new }
{
    core.talk.begin(core.time)
}

// What the answer of a chat that begins leads to; without one the link opens at once.
#[tactic(auto, using(crate::proofs::ChatFacts::beginning_some, crate::proofs::ChatFacts::beginning_none))]
fn follow_begin<S: Spawner>(core: &mut LinkCore<S>, answer: Option<ChatNow>)
    requires lives { Lives core.old }
    requires room { 26 ≤ room_of core.old.records.scripts.log }
    requires sits { Sits (opened core.old.lcp) core.old }
    ensures does { Does (beginning_told answer) core.old core.new }
    ensures sits { Sits (opened core.new.lcp) core.new }
    ensures grows { Grows 26 core.old.records.scripts.log core.new.records.scripts.log }
    ensures lives { Lives core.new }
{
    match answer {
        Some(answer) => follow_chat(core, answer),
        None => core.open_link(),
    }
}

/// A session talks first by its script, if it has one.
#[tactic(auto, using(crate::proofs::ChatFacts::talk_does, crate::proofs::ChatFacts::sits_talk))]
pub fn begin_talk<S: Spawner>(core: &mut LinkCore<S>)
    requires lives { Lives core.old }
    requires room { 26 ≤ room_of core.old.records.scripts.log }
    requires sits { Sits (opened core.old.lcp) core.old }
    ensures does { Does talk_begun core.old core.new }
    ensures sits { Sits (opened core.new.lcp) core.new }
    ensures grows { Grows 26 core.old.records.scripts.log core.new.records.scripts.log }
    ensures lives { Lives core.new }
{
    let answer = ask_begin(core);
    follow_begin(core, answer);
}

// The chat hears an octet.
#[tactic(auto, using(crate::proofs::ChatFacts::octet_does, crate::proofs::ChatFacts::octet_lives, crate::proofs::ChatFacts::octet_answer))]
fn ask_octet<S: Spawner>(core: &mut LinkCore<S>, octet: u8) -> ChatNow
    requires lives { Lives core.old }
    requires chats { core.old.talk.who ≡ hears.Chat }
    ensures does { Does (octet_told octet) core.old core.new }
    ensures answer { (s : LinkState) → StandsFor core.old s → result ≡ next_answer (octet_at octet s.time) s }
    ensures rest { core.new ≡ record core.old { talk = core.new.talk } }
    ensures lives { Lives core.new }
{
    core.talk.octet(octet, core.time)
}

// It looks at the time.
#[tactic(auto, using(crate::proofs::ChatFacts::tick_does, crate::proofs::ChatFacts::tick_lives, crate::proofs::ChatFacts::tick_answer))]
fn ask_tick<S: Spawner>(core: &mut LinkCore<S>) -> ChatNow
    requires lives { Lives core.old }
    requires chats { core.old.talk.who ≡ hears.Chat }
    ensures does { Does tick_told core.old core.new }
    ensures answer { (s : LinkState) → StandsFor core.old s → result ≡ next_answer (tick_at s.time) s }
    ensures rest { core.new ≡ record core.old { talk = core.new.talk } }
    ensures lives { Lives core.new }
{
    core.talk.tick(core.time)
}

/// An octet comes while a chat hears.
#[tactic(auto, using(crate::proofs::ChatFacts::heard_does, crate::proofs::ChatFacts::sits_talk))]
pub(crate) fn chat_octet<S: Spawner>(core: &mut LinkCore<S>, octet: u8)
    requires lives { Lives core.old }
    requires chats { core.old.talk.who ≡ hears.Chat }
    requires room { 26 ≤ room_of core.old.records.scripts.log }
    requires sits { Sits (opened core.old.lcp) core.old }
    ensures does { Does (octet_taken octet) core.old core.new }
    ensures sits { Sits (opened core.new.lcp) core.new }
    ensures grows { Grows 26 core.old.records.scripts.log core.new.records.scripts.log }
    ensures lives { Lives core.new }
{
    let answer = ask_octet(core, octet);
    follow_chat(core, answer);
}

// A chat that hears looks at the time.
#[tactic(auto, using(crate::proofs::ChatFacts::ticked_does, crate::proofs::ChatFacts::sits_talk))]
fn tick_talk<S: Spawner>(core: &mut LinkCore<S>)
    requires lives { Lives core.old }
    requires chats { core.old.talk.who ≡ hears.Chat }
    requires room { 26 ≤ room_of core.old.records.scripts.log }
    requires sits { Sits (opened core.old.lcp) core.old }
    ensures does { Does chat_ticked core.old core.new }
    ensures sits { Sits (opened core.new.lcp) core.new }
    ensures grows { Grows 26 core.old.records.scripts.log core.new.records.scripts.log }
    ensures lives { Lives core.new }
{
    let answer = ask_tick(core);
    follow_chat(core, answer);
}

/// The chat looks at the time, if it hears.
#[tactic(auto, using(crate::proofs::ChatFacts::nobody_ticked, crate::proofs::ChatFacts::frames_ticked))]
pub fn tick_chat<S: Spawner>(core: &mut LinkCore<S>)
    requires lives { Lives core.old }
    requires room { 26 ≤ room_of core.old.records.scripts.log }
    requires sits { Sits (opened core.old.lcp) core.old }
    ensures does { Does chat_ticked core.old core.new }
    ensures sits { Sits (opened core.new.lcp) core.new }
    ensures grows { Grows 26 core.old.records.scripts.log core.new.records.scripts.log }
    ensures lives { Lives core.new }
{
    match core.talk.who() {
        Hears::Nobody => {}
        Hears::Chat => tick_talk(core),
        Hears::Frames => {}
    }
}
