// What is so of a link now.
ghost use Rattle.std.specs.Prelude.{◌≡◌, ◌==◌, ◌≤◌, ◌&&◌, None, true, false};
ghost use Rattle.ppp_lcp.specs.Last.{IsInRange};
ghost use Rattle.ppp_link_rules.specs.LinkState.{LinkState, agreed, has_passed, is_busy, is_open, lcp_state, outcome_of};
ghost use Rattle.ppp_link_rules.specs.Sending.{map_by, settings_by};
ghost use Rattle.ppp_link_core.specs.Standing.{Lives, StandsFor, opened};

use crate::link_core::LinkCore;
use ppp_auth::AuthNow;
use ppp_base::{DEFAULT_MAP, SendSettings};
use ppp_outside::Spawner;
use ppp_packet::Agreed;

/// The number of the state Opened.
pub(crate) const OPENED: u8 = 9;

// Whether both sides are done.
fn is_passed(now: &AuthNow) -> bool
    ensures { result ≡ has_passed now.now }
{
    match now {
        AuthNow::Passed { .. } => true,
        AuthNow::Going | AuthNow::PeerFailed | AuthNow::WeFailed => false,
    }
}

impl<S: Spawner> LinkCore<S> {
    /// The state of LCP, 0 where there is no LCP part.
    #[tactic(auto, using(crate::proofs::ReaderFacts::state_none, crate::proofs::ReaderFacts::state_some))]
    pub fn state(&self) -> u8
        ensures stands { (s : LinkState) → StandsFor self.now s → lcp_state s ≡ result }
        ensures opened { (result == 9) ≡ opened self.now.lcp }
        ensures few { result ≤ 9 }
    {
        match &self.lcp {
            Some(lcp) => lcp.state(),
            None => 0,
        }
    }

    /// Whether LCP is in Opened.
    #[tactic(auto, using(crate::proofs::ReaderFacts::opened_by))]
    pub fn is_open(&self) -> bool
        ensures stands { (s : LinkState) → StandsFor self.now s → is_open s ≡ result }
        ensures opened { result ≡ opened self.now.lcp }
    {
        self.state() == OPENED
    }

    /// What both ends agreed on, in Opened alone.
    #[tactic(auto, using(crate::proofs::ReaderFacts::agreed_none, crate::proofs::ReaderFacts::agreed_some, crate::proofs::ReaderFacts::range_some))]
    pub fn agreed(&self) -> Option<Agreed>
        requires lives { Lives self.now }
        ensures stands { (s : LinkState) → StandsFor self.now s → agreed s ≡ result }
        ensures range { IsInRange result }
    {
        match &self.lcp {
            Some(lcp) => lcp.agreed(),
            None => None,
        }
    }

    /// How frames are written now.
    #[tactic(auto, using(crate::proofs::ReaderFacts::settings_some, crate::proofs::ReaderFacts::settings_none))]
    pub(crate) fn settings(&self) -> SendSettings
        requires lives { Lives self.now }
        ensures stands { (s : LinkState) → StandsFor self.now s → settings_by (agreed s) ≡ result }
    {
        match self.agreed() {
            Some(agreed) => agreed.send,
            None => SendSettings {
                map: DEFAULT_MAP,
                pfc: false,
                acfc: false,
            },
        }
    }

    /// Which octets the deframer drops now.
    #[tactic(auto, using(crate::proofs::ReaderFacts::map_some, crate::proofs::ReaderFacts::map_none))]
    pub(crate) fn map(&self) -> u32
        requires lives { Lives self.now }
        ensures stands { (s : LinkState) → StandsFor self.now s → map_by (agreed s) ≡ result }
    {
        match self.agreed() {
            Some(agreed) => agreed.receive_map,
            None => DEFAULT_MAP,
        }
    }

    /// How the phase of authentication stands.
    #[tactic(auto, using(crate::proofs::ReaderFacts::outcome_none, crate::proofs::ReaderFacts::outcome_some))]
    pub(crate) fn outcome(&self) -> AuthNow
        ensures stands { (s : LinkState) → StandsFor self.now s → outcome_of s.auth ≡ result }
    {
        match &self.auth {
            Some(phase) => phase.outcome(),
            None => AuthNow::Going,
        }
    }

    /// Whether who must has proved itself.
    #[tactic(auto, using(crate::proofs::ReaderFacts::passed_is))]
    pub fn has_passed(&self) -> bool
        ensures stands { (s : LinkState) → StandsFor self.now s → has_passed (outcome_of s.auth) ≡ result }
    {
        is_passed(&self.outcome())
    }

    /// Whether a session lasts that nothing has ended.
    #[tactic(auto, using(crate::proofs::ReaderFacts::busy_is))]
    pub fn is_busy(&self) -> bool
        ensures stands { (s : LinkState) → StandsFor self.now s → is_busy s ≡ result }
    {
        self.records.is_busy()
    }
}
