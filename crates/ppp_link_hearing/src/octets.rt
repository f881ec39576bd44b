//! Octets of the line come.

ghost use Rattle.std.specs.Prelude.{◌≡◌, ◌≤◌, ◌<◌, length, take};
ghost use Rattle.ppp_mark.specs.Log.{room_of};
ghost use Rattle.ppp_mark.specs.ScriptLog.{Grows};
ghost use Rattle.ppp_link_parts.specs.declared.talk.Hears.TheVariants as hears;
ghost use Rattle.ppp_link_rules.specs.Hearing.{heard_taken, octets_taken};
ghost use Rattle.ppp_link_rules.specs.LinkState.{LinkState};
ghost use Rattle.ppp_link_core.specs.Standing.{Does, Lives, Sits, StandsFor, opened};
ghost use Rattle.ppp_link_hearing.specs.Heard.{with_deframed};

use crate::chat::chat_octet;
use crate::frames::take_heard;
use ppp_hdlc::Span;
use ppp_link_core::link_core::LinkCore;
use ppp_link_parts::hearing::hear_span;
use ppp_link_parts::talk::Hears;
use ppp_outside::Spawner;

// The deframer takes octets up to what they end first, which is counted.
#[tactic(auto, using(crate::proofs::OctetFacts::deframed_does, crate::proofs::OctetFacts::deframed_lives, crate::proofs::OctetFacts::deframed_is))]
fn deframe<S: Spawner>(core: &mut LinkCore<S>, octets: &[u8]) -> Span
    requires lives { Lives core.old }
    requires frames { core.old.talk.who ≡ hears.Frames }
    ensures within { result.used ≤ length octets.now }
    ensures some { 0 < length octets.now → 0 < result.used }
    ensures does { Does (with_deframed core.new.deframer core.new.counts) core.old core.new }
    ensures taken { (s : LinkState) → StandsFor core.old s
        → octets_taken (take result.used octets.now) s ≡ heard_taken result.heard (with_deframed core.new.deframer core.new.counts s) }
    ensures rest { core.new ≡ record core.old { deframer = core.new.deframer; counts = core.new.counts } }
    ensures lives { Lives core.new }
{
    hear_span(&mut core.deframer, &mut core.counts, octets)
}

// Octets come while frames are heard.
#[tactic(auto, using(crate::proofs::OctetFacts::span_does, crate::proofs::OctetFacts::sits_deframed))]
fn frame_span<S: Spawner>(core: &mut LinkCore<S>, octets: &[u8]) -> usize
    requires lives { Lives core.old }
    requires frames { core.old.talk.who ≡ hears.Frames }
    requires room { 19 ≤ room_of core.old.records.scripts.log }
    requires sits { Sits (opened core.old.lcp) core.old }
    ensures within { result ≤ length octets.now }
    ensures some { 0 < length octets.now → 0 < result }
    ensures does { Does (octets_taken (take result octets.now)) core.old core.new }
    ensures sits { Sits (opened core.new.lcp) core.new }
    ensures grows { Grows 19 core.old.records.scripts.log core.new.records.scripts.log }
    ensures lives { Lives core.new }
{
    let span = deframe(core, octets);
    take_heard(core, &span.heard);
    span.used
}

// Octets come while a chat hears: it hears the first.
#[tactic(auto, using(crate::proofs::OctetFacts::first_does, crate::proofs::OctetFacts::none_does))]
fn chat_span<S: Spawner>(core: &mut LinkCore<S>, octets: &[u8]) -> usize
    requires lives { Lives core.old }
    requires chats { core.old.talk.who ≡ hears.Chat }
    requires room { 26 ≤ room_of core.old.records.scripts.log }
    requires sits { Sits (opened core.old.lcp) core.old }
    ensures within { result ≤ length octets.now }
    ensures some { 0 < length octets.now → 0 < result }
    ensures does { Does (octets_taken (take result octets.now)) core.old core.new }
    ensures sits { Sits (opened core.new.lcp) core.new }
    ensures grows { Grows 26 core.old.records.scripts.log core.new.records.scripts.log }
    ensures lives { Lives core.new }
{
    match octets {
        [] => 0,
        [octet, ..] => {
            chat_octet(core, *octet);
            1
        }
    }
}

/// Octets of the line come: a front of them is acted on, up to and with the first that ends something, and of octets that a
/// chat hears the first. How many were acted on is the answer, at least one where there are any.
#[tactic(auto, using(crate::proofs::OctetFacts::nobody_does))]
pub fn take_span<S: Spawner>(core: &mut LinkCore<S>, octets: &[u8]) -> usize
    requires lives { Lives core.old }
    requires room { 26 ≤ room_of core.old.records.scripts.log }
    requires sits { Sits (opened core.old.lcp) core.old }
    ensures within { result ≤ length octets.now }
    ensures some { 0 < length octets.now → 0 < result }
    ensures does { Does (octets_taken (take result octets.now)) core.old core.new }
    ensures sits { Sits (opened core.new.lcp) core.new }
    ensures grows { Grows 26 core.old.records.scripts.log core.new.records.scripts.log }
    ensures lives { Lives core.new }
{
    match core.talk.who() {
        Hears::Nobody => octets.len(),
        Hears::Chat => chat_span(core, octets),
        Hears::Frames => frame_span(core, octets),
    }
}
