// LCP is asked, where there is an LCP part.
ghost use Rattle.std.specs.Prelude.{◌≡◌, ◌==◌, ◌≤◌, ◌^◌, false, is_some};
ghost use Rattle.ppp_control.specs.Rules.{hears, rejects};
ghost use Rattle.ppp_lcp.specs.Session.{Calls};
ghost use Rattle.ppp_link_rules.specs.LinkState.{LinkState};
ghost use Rattle.ppp_link_core.specs.Standing.{Does, Lives, StandsFor, opened};
ghost use Rattle.ppp_link_core.specs.Told.{call_of, lcp_asked, lcp_asked_now, lcp_told};

use crate::link_core::LinkCore;
use ppp_lcp::{Lcp, LcpOut};
use ppp_outside::Spawner;
use ppp_packet::Packet;

/// What LCP is asked by the link itself.
#[derive(Clone, Copy, Debug, PartialEq, Eq)]
pub enum LcpAsk {
    Open,
    Close,
    Up,
    Down,
    Tick,
}

// One asking.
#[tactic(auto, using(crate::proofs::AskFacts::close_shuts))]
fn ask(lcp: &mut Lcp, ask: LcpAsk, now: u64) -> LcpOut
    requires { now ≤ 2 ^ 56 }
    ensures calls { Calls (call_of ask) now lcp.old lcp.new result }
    ensures shut { ask ≡ LcpAsk.Close → (lcp.new.core.fsm.state == 9) ≡ false }
{
    let _state = lcp.state();
    match ask {
        LcpAsk::Open => lcp.open(now),
        LcpAsk::Close => lcp.close(now),
        LcpAsk::Up => lcp.up(now),
        LcpAsk::Down => lcp.down(now),
        LcpAsk::Tick => lcp.tick(now),
    }
}

impl<S: Spawner> LinkCore<S> {
    // LCP is asked by the link itself.
    #[tactic(auto, using(crate::proofs::AskFacts::moment_of, crate::proofs::AskFacts::asked_does, crate::proofs::AskFacts::asked_told, crate::proofs::AskFacts::none_asked, crate::proofs::AskFacts::none_told, crate::proofs::AskFacts::lives_asked))]
    pub(crate) fn ask(&mut self, call: LcpAsk) -> Option<LcpOut>
        requires lives { Lives self.old }
        ensures does { Does (lcp_asked_now (call_of call)) self.old self.new }
        ensures answer { (s : LinkState) → StandsFor self.old s → result ≡ lcp_told (call_of call) s.time s }
        ensures rest { self.new ≡ record self.old { lcp = self.new.lcp } }
        ensures there { is_some result ≡ is_some self.old.lcp }
        ensures none { is_some result ≡ false → self.new ≡ self.old }
        ensures shut { call ≡ LcpAsk.Close → opened self.new.lcp ≡ false }
        ensures lives { Lives self.new }
    {
        let time = self.time;
        match &mut self.lcp {
            Some(lcp) => Some(ask(lcp, call, time)),
            None => None,
        }
    }

    // LCP hears a packet.
    #[tactic(auto, using(crate::proofs::AskFacts::moment_of, crate::proofs::AskFacts::asked_does, crate::proofs::AskFacts::asked_told, crate::proofs::AskFacts::none_asked, crate::proofs::AskFacts::none_told, crate::proofs::AskFacts::lives_asked))]
    pub(crate) fn ask_heard(&mut self, packet: &Packet) -> Option<LcpOut>
        requires lives { Lives self.old }
        ensures does { Does (lcp_asked_now (hears packet.now tt)) self.old self.new }
        ensures answer { (s : LinkState) → StandsFor self.old s → result ≡ lcp_told (hears packet.now tt) s.time s }
        ensures rest { self.new ≡ record self.old { lcp = self.new.lcp } }
        ensures there { is_some result ≡ is_some self.old.lcp }
        ensures none { is_some result ≡ false → self.new ≡ self.old }
        ensures lives { Lives self.new }
    {
        let time = self.time;
        match &mut self.lcp {
            Some(lcp) => Some(lcp.heard(packet, time)),
            None => None,
        }
    }

    // LCP is to reject a protocol of the peer's.
    #[tactic(auto, using(crate::proofs::AskFacts::asked_at, crate::proofs::AskFacts::told_then, crate::proofs::AskFacts::none_at, crate::proofs::AskFacts::none_told_at, crate::proofs::AskFacts::lives_asked_at))]
    pub(crate) fn ask_reject(&mut self, protocol: u16, information: &[u8]) -> Option<LcpOut>
        requires lives { Lives self.old }
        ensures does { Does (lcp_asked (rejects protocol information.now) 0) self.old self.new }
        ensures answer { (s : LinkState) → StandsFor self.old s → result ≡ lcp_told (rejects protocol information.now) 0 s }
        ensures rest { self.new ≡ record self.old { lcp = self.new.lcp } }
        ensures there { is_some result ≡ is_some self.old.lcp }
        ensures none { is_some result ≡ false → self.new ≡ self.old }
        ensures lives { Lives self.new }
    {
        match &mut self.lcp {
            Some(lcp) => Some(lcp.reject(protocol, information)),
            None => None,
        }
    }
}
