// What stands behind each frame, and at the end of each step.
ghost use Rattle.std.specs.Prelude.{◌≡◌, ◌≤◌};
ghost use Rattle.ppp_mark.specs.Log.{room_of};
ghost use Rattle.ppp_mark.specs.ScriptLog.{Grows};
ghost use Rattle.ppp_link_rules.specs.Hearing.{checked, ended_if_many, has_many, link_opened, looked_after};
ghost use Rattle.ppp_link_rules.specs.LinkState.{LinkState};
ghost use Rattle.ppp_link_core.specs.Standing.{Does, Lives, Sits, StandsFor, opened};
ghost use Rattle.ppp_link_core.specs.Told.{frames_heard};

use crate::asks::LcpAsk;
use crate::link_core::LinkCore;
use ppp_link_rules::cause::Cause;
use ppp_link_rules::limits::MOST_MARKS;
use ppp_outside::Spawner;

impl<S: Spawner> LinkCore<S> {
    // Whether the session has so many marks that it is to end.
    #[tactic(auto, using(crate::proofs::LookFacts::many_is))]
    fn has_many(&self) -> bool
        ensures stands { (s : LinkState) → StandsFor self.now s → has_many s ≡ result }
    {
        self.records.is_lasting() && self.records.since() as usize >= MOST_MARKS
    }

    // The session ends, if it has so many marks.
    #[tactic(auto, using(crate::proofs::LookFacts::many_then, crate::proofs::LookFacts::many_else))]
    fn end_if_many(&mut self, many: bool)
        requires lives { Lives self.old }
        requires room { 5 ≤ room_of self.old.records.scripts.log }
        requires sits { Sits (opened self.old.lcp) self.old }
        ensures does { Does (ended_if_many many) self.old self.new }
        ensures sits { Sits (opened self.new.lcp) self.new }
        ensures grows { Grows 5 self.old.records.scripts.log self.new.records.scripts.log }
        ensures lives { Lives self.new }
    {
        if many {
            self.end_by(Cause {
                number: 16,
                detail: 0,
            });
        }
    }

    // Nine hundred marks of a session end it.
    #[tactic(auto, using(crate::proofs::LookFacts::checked_does))]
    fn check(&mut self)
        requires lives { Lives self.old }
        requires room { 5 ≤ room_of self.old.records.scripts.log }
        requires sits { Sits (opened self.old.lcp) self.old }
        ensures does { Does checked self.old self.new }
        ensures sits { Sits (opened self.new.lcp) self.new }
        ensures grows { Grows 5 self.old.records.scripts.log self.new.records.scripts.log }
        ensures lives { Lives self.new }
    {
        let many = self.has_many();
        self.end_if_many(many);
    }

    /// A Join is posted, if one may be, and nine hundred marks of a session end it.
    #[tactic(auto, using(crate::proofs::LookFacts::looked_does, crate::proofs::LookFacts::sits_joined))]
    pub fn look_after(&mut self)
        requires lives { Lives self.old }
        requires room { 6 ≤ room_of self.old.records.scripts.log }
        requires sits { Sits (opened self.old.lcp) self.old }
        ensures does { Does looked_after self.old self.new }
        ensures sits { Sits (opened self.new.lcp) self.new }
        ensures grows { Grows 6 self.old.records.scripts.log self.new.records.scripts.log }
        ensures lives { Lives self.new }
    {
        self.try_join();
        self.check();
    }

    // From the next octet on frames are heard.
    #[tactic(auto, using(crate::proofs::LookFacts::framed_does, crate::proofs::LookFacts::framed_lives))]
    fn hear_frames(&mut self)
        requires lives { Lives self.old }
        ensures does { Does frames_heard self.old self.new }
        ensures rest { self.new ≡ record self.old { talk = self.new.talk } }
        ensures lives { Lives self.new }
    {
        self.talk.hear_frames();
    }

    /// The script is done, or there is none: LCP gets Open and Up.
    #[tactic(auto, using(crate::proofs::LookFacts::linked_does, crate::proofs::LookFacts::sits_framed))]
    pub fn open_link(&mut self)
        requires lives { Lives self.old }
        requires room { 26 ≤ room_of self.old.records.scripts.log }
        requires sits { Sits (opened self.old.lcp) self.old }
        ensures does { Does link_opened self.old self.new }
        ensures sits { Sits (opened self.new.lcp) self.new }
        ensures grows { Grows 26 self.old.records.scripts.log self.new.records.scripts.log }
        ensures lives { Lives self.new }
    {
        self.hear_frames();
        self.call(LcpAsk::Open);
        self.call(LcpAsk::Up);
    }
}
