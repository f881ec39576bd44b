// What each event does to a unit.
ghost use Rattle.std.specs.Prelude.{◌≡◌, ◌+◌, ◌≤◌, ◌<◌, ◌^◌, [], ◌∷◌, ◌==◌, not, true, false, Some, None, IfSome, IsSome, ℕ, is_some, length, take, IsOk, OnOk, OnErr, IfErr, ◌↔◌};
ghost use Rattle.ppp_hooks.specs.HookCounts.{DoneCounts, MachineCounts};
ghost use Rattle.ppp_mark.specs.Log.{room_of};
ghost use Rattle.ppp_mark.specs.ScriptLog.{IsRunningJob};
ghost use Rattle.ppp_bundle.specs.Closing.{connect_end, crowded_end, idle_end, looked};
ghost use Rattle.ppp_unit_parts.specs.Member.{member, stay_of, with_member, without};
ghost use Rattle.ppp_bundle.specs.ScriptParts.{marked};
ghost use Rattle.ppp_bundle.specs.Sound.{Adds, Agrees, Goes, HasRoom, IsGoing, IsSound};
ghost use Rattle.ppp_bundle.specs.State.{is_open, members_of};
ghost use Rattle.ppp_bundle.specs.UnitPart.{MayEnter, entered, left_of, made, script_over, ticked_unit};
ghost use Rattle.ppp_unit_parts.specs.declared.outbox.TheConstants.{MOST_SENT};
ghost use Rattle.ppp_mark.specs.Marks.{in_mark};
ghost use Rattle.ppp_secrets.specs.declared.secrets.SecretsPair.{SecretsPair};

use crate::scripts::{end_script, put, unmake};
use crate::unit_state::UnitCore;
use ppp_base::{Allow, CloseCause, LinkId, Mrru};
use ppp_hooks::HookDone;
use ppp_mark::Mark;
use ppp_mp::Given;
use ppp_outside::Spawner;
use ppp_secrets::SecretsPair;
use ppp_unit_parts::{Ending, IpCall, Live, Member, UnitWish};

// The marks of a bundle that are too many.
const MOST_MARKS_OF_A_BUNDLE: u32 = 900;

impl<S: Spawner> UnitCore<S> {
    // No datagram passed for too long.
    fn idle_end(&self) -> Option<Ending>
        ensures { result ≡ idle_end self.now.time self.now.live }
    {
        match &self.live {
            Some(live) => {
                live.over_limit(
                    CloseCause::Idle,
                    live.wish.idle_s,
                    self.time,
                    live.passed_at,
                )
            }
            None => None,
        }
    }

    // IPCP is in Opened for too long.
    fn connect_end(&self) -> Option<Ending>
        ensures { result ≡ connect_end self.now.time self.now.live }
    {
        match &self.live {
            Some(live) => live.over_limit(
                CloseCause::ConnectTime,
                live.wish.maxconnect_s,
                self.time,
                live.opened_at,
            ),
            None => None,
        }
    }

    // The marks since the bundle was made are counted.
    #[tactic(auto, using(crate::proofs::SoundFacts::look_is, crate::proofs::SoundFacts::look_sound))]
    pub(crate) fn look(&mut self)
        requires going { IsGoing self.old }
        ensures new { self.new ≡ looked self.old }
        ensures goes { Goes 20 self.old self.new }
        ensures sound { IsSound self.new }
        ensures sent { self.new.sent ≡ self.old.sent }
        ensures given { self.new.given ≡ self.old.given }
    {
        let crowded = self.crowded_end();
        self.close_if(crowded);
    }

    // A bundle lives of which there are too many marks.
    fn crowded_end(&self) -> Option<Ending>
        requires agrees { Agrees self.now }
        ensures lives { IfSome self.now.live (λ l. result ≡ crowded_end self.now.scripts.log.past) }
        ensures none { self.now.live ≡ None → result ≡ None }
    {
        let Some(live) = &self.live else {
            return None;
        };
        if self.scripts.log().count() - live.made_at < MOST_MARKS_OF_A_BUNDLE {
            return None;
        }
        Some(Ending {
            cause: CloseCause::TooManyChanges,
            elapsed_ms: 0,
        })
    }

    // A moment.
    pub(crate) fn tick(&mut self, now: u64, secrets: &SecretsPair)
        requires room { HasRoom 100 self.old }
        requires sent { length self.old.sent + 51 ≤ MOST_SENT }
        requires agrees { Agrees self.old }
        ensures new { self.new ≡ ticked_unit secrets.now now self.old }
        ensures agrees { Agrees self.new }
        ensures goes { Goes 64 self.old self.new }
    {
        self.time = self.time.max(now.min(1 << 56));
        self.call(&IpCall::Ticks, secrets);
        let idle = self.idle_end();
        self.close_if(idle);
        let long = self.connect_end();
        self.close_if(long);
    }

    // A bundle is made.
    pub(crate) fn make(
        &mut self,
        number: u32,
        maker: LinkId,
        wish: UnitWish,
        mrru: Option<Mrru>,
        allow: Allow,
    )
        requires agrees { Agrees self.old }
        requires none { self.old.live ≡ None }
        requires room { 1024 ≤ room_of self.old.scripts.log }
        ensures new { self.new ≡ made number maker wish mrru allow self.old }
        ensures machine { self.new.scripts.machine ≡ self.old.scripts.machine }
        ensures going { IsGoing self.new }
    {
        let made_at = self.scripts.log().count();
        put(&mut self.scripts, Mark::made(self.time, maker, number));
        self.bundles = number;
        self.live = Some(Live::new(number, made_at, wish, mrru, allow));
    }

    // A link is a member from now on. True where it is the first.
    #[tactic(auto, using(crate::proofs::MemberSteps::agrees_with))]
    fn add_member(&mut self, link: LinkId, stay: u32, mru: u16) -> bool
        requires room { HasRoom 100 self.old }
        requires may { MayEnter self.old.live link mru }
        requires agrees { Agrees self.old }
        ensures new { IfSome self.old.live (λ l. self.new ≡ record self.old { scripts = marked (in_mark self.old.time link stay) self.old.scripts; live = Some (record l { members = with_member (member link stay mru) l.members }) }) }
        ensures first { result ≡ (length (members_of self.old.live) == 0) }
        ensures agrees { Agrees self.new }
        ensures goes { Goes 1 self.old self.new }
        ensures sent { self.new.sent ≡ self.old.sent }
        ensures given { self.new.given ≡ self.old.given }
    {
        let Some(mut live) = self.live.take() else {
            return true;
        };
        let is_first = live.members.is_empty();
        let _number = link.number();
        put(&mut self.scripts, Mark::in_(self.time, link, stay));
        live.members.insert(Member { link, stay, mru });
        self.live = Some(live);
        is_first
    }

    // A link comes in. As the first does, IPCP gets Open and Up.
    pub(crate) fn enter(&mut self, link: LinkId, stay: u32, mru: u16, secrets: &SecretsPair)
        requires room { HasRoom 100 self.old }
        requires sent { length self.old.sent + 102 ≤ MOST_SENT }
        requires may { MayEnter self.old.live link mru }
        requires agrees { Agrees self.old }
        ensures new { self.new ≡ entered secrets.now link stay mru self.old }
        ensures agrees { Agrees self.new }
        ensures goes { Goes 49 self.old self.new }
    {
        let is_first = self.add_member(link, stay, mru);
        if is_first {
            self.call(&IpCall::Opens, secrets);
            self.call(&IpCall::ComesUp, secrets);
        }
    }

    // A link is no member from now on. True where others stay; else the bundle is unmade.
    #[tactic(auto, using(crate::proofs::MemberSteps::agrees_without, crate::proofs::MemberSteps::leaves_last, crate::proofs::MemberSteps::leaves_others))]
    fn drop_member(&mut self, link: LinkId, stay: u32) -> bool
        requires room { HasRoom 24 self.old }
        requires agrees { Agrees self.old }
        requires there { stay_of link (members_of self.old.live) ≡ Some stay }
        ensures new { (secrets : SecretsPair) → self.new ≡ left_of self.old.live secrets link stay [] self.old }
        ensures others { result ≡ not (length (without link (members_of self.old.live)) == 0) }
        ensures agrees { Agrees self.new }
        ensures goes { Goes 19 self.old self.new }
        ensures lives { result ≡ true → Goes 1 self.old self.new }
        ensures sent { self.new.sent ≡ self.old.sent }
        ensures given { self.new.given ≡ self.old.given }
    {
        let unit = self.unit;
        let time = self.time;
        let Some(mut live) = self.live.take() else {
            return false;
        };
        let left = live.members.without(link);
        if left.is_empty() {
            unmake(&mut self.scripts, unit, &live, time);
            return false;
        }
        put(&mut self.scripts, Mark::out(time, link, stay));
        live.members = left;
        self.live = Some(live);
        true
    }

    // A member goes out. Where others stay, what the gatherer gave then is used.
    #[tactic(auto, using(crate::proofs::MemberSteps::left_more, crate::proofs::MemberSteps::left_last, crate::proofs::ReadyFacts::ready, crate::proofs::SoundFacts::going, crate::proofs::ReadyFacts::goes_both, crate::proofs::ReadyFacts::goes_most))]
    pub(crate) fn leave(
        &mut self,
        link: LinkId,
        stay: u32,
        secrets: &SecretsPair,
        packets: &Given,
        count: u8,
    )
        requires sound { IsSound self.old }
        requires there { stay_of link (members_of self.old.live) ≡ Some stay }
        requires sent { self.old.sent ≡ [] }
        requires given { self.old.given ≡ [] }
        requires some { count ≤ length packets.now }
        requires few { count ≤ 128 }
        ensures new { self.new ≡ left_of self.old.live secrets.now link stay (take count packets.now) self.old }
        ensures going { IsGoing self.new }
        ensures goes { Goes 5652 self.old self.new }
    {
        if self.drop_member(link, stay) {
            self.use_all(packets, count, secrets);
        }
    }

    // A script has ended.
    pub(crate) fn over(&mut self, done: HookDone<S>) -> Result<(), HookDone<S>>
        requires room { 2 ≤ room_of self.old.scripts.log }
        requires agrees { Agrees self.old }
        ensures ok { IsOk result ↔ IsRunningJob done self.old.scripts }
        ensures new { OnOk result (self.new ≡ script_over done self.old) }
        ensures agrees { Agrees self.new }
        ensures ran { OnOk result (self.old.scripts.machine.facts.ends + 1 ≡ self.old.scripts.machine.facts.starts) }
        ensures moves { OnOk result (Adds 2 self.old.scripts self.new.scripts) }
        ensures shut { OnOk result (is_some self.old.scripts.machine.facts.now_open ≡ is_open self.old.live) }
        ensures counts { (t f : ℕ) → DoneCounts S.tries S.faults t f done → OnOk result (MachineCounts S.tries S.faults t f self.new.scripts.machine) }
        ensures unchanged { OnErr result (self.new ≡ self.old) }
        ensures given_back { IfErr result (λ back. back ≡ done) }
    {
        end_script(&mut self.scripts, done, self.time)
    }
}
