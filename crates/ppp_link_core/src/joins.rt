// The stay: a Join is posted as soon as one may be.
ghost use Rattle.std.specs.Prelude.{◌≡◌, ◌≤◌, true, false, Some};
ghost use Rattle.ppp_lcp.specs.Last.{IsInRange};
ghost use Rattle.ppp_mark.specs.Log.{room_of};
ghost use Rattle.ppp_mark.specs.ScriptLog.{Grows};
ghost use Rattle.ppp_link_parts.specs.UpRing.{values_of};
ghost use Rattle.ppp_link_rules.specs.Authentication.{asked_by, asked_if, join_tried};
ghost use Rattle.ppp_link_rules.specs.LinkState.{LinkState, control, has_passed, is_open, outcome_of};
ghost use Rattle.ppp_link_rules.specs.Phase.{may_ask, phase_by};
ghost use Rattle.ppp_link_rules.specs.Rings.{has_control};
ghost use Rattle.ppp_link_core.specs.Standing.{Does, Lives, StandsFor};
ghost use Rattle.ppp_link_core.specs.Told.{asked_with};

use crate::link_core::LinkCore;
use ppp_auth::AuthNow;
use ppp_base::{Allow, Join, Name};
use ppp_outside::Spawner;
use ppp_packet::Agreed;

// Whether a Join may be posted, by what is so.
fn may_ask(open_now: bool, passed: bool, stay: Option<u32>, waits: bool) -> bool
    ensures { result ≡ may_ask (phase_by open_now passed) stay waits }
{
    open_now && passed && stay.is_none() && !waits
}

impl<S: Spawner> LinkCore<S> {
    // Whether a Join may be posted.
    #[tactic(auto, using(crate::proofs::JoinFacts::may_is, crate::proofs::JoinFacts::free_by))]
    fn may_ask(&self) -> bool
        ensures stands { (s : LinkState) → StandsFor self.now s → may_ask (phase_by (is_open s) (has_passed (outcome_of s.auth))) (control s).stay (has_control s.up.waiting) ≡ result }
        ensures free { result ≡ true → has_control (values_of self.now.up.waiting) ≡ false }
    {
        let open_now = self.is_open();
        let passed = self.has_passed();
        let stay = self.records.stay();
        let waits = self.up.has_control();
        may_ask(open_now, passed, stay, waits)
    }

    // A Join is posted, with the next stay.
    #[tactic(auto, using(crate::proofs::JoinFacts::asked_does, crate::proofs::JoinFacts::asked_lives))]
    fn post_join(&mut self, peer: Option<Name>, allow: Allow, terms: Agreed)
        requires lives { Lives self.old }
        requires room { 1 ≤ room_of self.old.records.scripts.log }
        requires free { has_control (values_of self.old.up.waiting) ≡ false }
        requires range { IsInRange (Some terms) }
        ensures does { Does (asked_with terms peer allow) self.old self.new }
        ensures rest { self.new ≡ record self.old { records = self.new.records; up = self.new.up } }
        ensures grows { Grows 1 self.old.records.scripts.log self.new.records.scripts.log }
        ensures lives { Lives self.new }
    {
        let stay = self.records.mark_asked(self.time);
        self.up.put_join(Join {
            stay,
            peer,
            disc: terms.disc,
            mrru: terms.mrru,
            mru: terms.peer_mru,
            allow,
        });
    }

    // A Join by how the phase stands and what was agreed on.
    #[tactic(auto, using(crate::proofs::JoinFacts::by_passed, crate::proofs::JoinFacts::by_none, crate::proofs::JoinFacts::by_going, crate::proofs::JoinFacts::by_peer, crate::proofs::JoinFacts::by_ours, crate::proofs::JoinFacts::range_by))]
    fn join_by(&mut self, now: AuthNow, terms: Option<Agreed>)
        requires lives { Lives self.old }
        requires room { 1 ≤ room_of self.old.records.scripts.log }
        requires free { has_control (values_of self.old.up.waiting) ≡ false }
        requires range { IsInRange terms }
        ensures does { Does (asked_by now terms) self.old self.new }
        ensures rest { self.new ≡ record self.old { records = self.new.records; up = self.new.up } }
        ensures grows { Grows 1 self.old.records.scripts.log self.new.records.scripts.log }
        ensures lives { Lives self.new }
    {
        match now {
            AuthNow::Passed { peer, allow } => match terms {
                Some(terms) => self.post_join(peer, allow, terms),
                None => {}
            },
            AuthNow::Going => {}
            AuthNow::PeerFailed => {}
            AuthNow::WeFailed => {}
        }
    }

    // A Join is posted, if one may be.
    #[tactic(auto, using(crate::proofs::JoinFacts::if_then, crate::proofs::JoinFacts::if_else))]
    fn join_if(&mut self, may: bool)
        requires lives { Lives self.old }
        requires room { 1 ≤ room_of self.old.records.scripts.log }
        requires free { may ≡ true → has_control (values_of self.old.up.waiting) ≡ false }
        ensures does { Does (asked_if may) self.old self.new }
        ensures rest { self.new ≡ record self.old { records = self.new.records; up = self.new.up } }
        ensures grows { Grows 1 self.old.records.scripts.log self.new.records.scripts.log }
        ensures lives { Lives self.new }
    {
        if may {
            let now = self.outcome();
            let terms = self.agreed();
            self.join_by(now, terms);
        }
    }

    /// A Join is posted as soon as one may be.
    #[tactic(auto, using(crate::proofs::JoinFacts::tried_does))]
    pub fn try_join(&mut self)
        requires lives { Lives self.old }
        requires room { 1 ≤ room_of self.old.records.scripts.log }
        ensures does { Does join_tried self.old self.new }
        ensures rest { self.new ≡ record self.old { records = self.new.records; up = self.new.up } }
        ensures grows { Grows 1 self.old.records.scripts.log self.new.records.scripts.log }
        ensures lives { Lives self.new }
    {
        let may = self.may_ask();
        self.join_if(may);
    }
}
