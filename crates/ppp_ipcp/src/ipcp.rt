ghost use Rattle.std.specs.Prelude.{◌≡◌, ◌==◌, ◌*◌, ◌^◌, ◌≤◌, [], ◌∷◌, true, false, List, Some, None, if◌then◌else◌};

use crate::addresses::Addresses;
use crate::judge::verdict;
use crate::last::agreed_by;
use crate::ours::IpOurs;
use crate::wish::IpWish;
use ppp_base::Allow;
use ppp_control::{Codes, HeardAs, Negotiation, StepOut as IpcpOut};
use ppp_fsm::FsmEvent;
use ppp_packet::{OptionList, Packet};
use ppp_secrets::SecretsPair;

/// IPCP of a bundle. Times are milliseconds.
#[derive(Drop)]
pub struct Ipcp {
    pub(crate) wish: IpWish,
    pub(crate) ours: IpOurs,
    pub(crate) core: Negotiation,
}

impl Ipcp {
    ghost use Rattle.std.specs.Prelude.{is_some};
    ghost use Rattle.ppp_fsm.specs.Fsm.{acts_of, after};
    ghost use Rattle.ppp_fsm.specs.Opening.{layer_acts, layer_change};
    ghost use Rattle.ppp_control.specs.Class.{heard_as, Class};
    ghost use Rattle.ppp_control.specs.Past.{moved_by};
    ghost use Rattle.ppp_control.specs.Rules.{by_itself, opens, comes_up, goes_down, ticks, hears, acts_on};
    ghost use Rattle.ppp_control.specs.Start.{started, is_due};
    ghost use Rattle.ppp_control.specs.Verdict.{event_on};
    ghost use Rattle.ppp_ipcp.specs.declared.wish.IpWish.{IpWish};
    ghost use Rattle.ppp_ipcp.specs.Around.{around};
    ghost use Rattle.ppp_ipcp.specs.Object.{verdict_on, agreed_in};
    ghost use Rattle.ppp_ipcp.specs.Session.{IpcpCall, StandsFor, Calls, agreed_after, deadline_after};
    ghost use Rattle.ppp_ipcp.specs.Steps.{event_left, event_told, with_packet, answering, ip_step, ip_told, heard_left, heard_told, ticked, ticked_told};

    /// In Initial.
    pub fn new(wish: IpWish) -> Ipcp
        requires restart { 1 ≤ wish.restart_s }
        requires max_failure { 1 ≤ wish.max_failure }
        ensures stands { StandsFor wish result [] }
        ensures core { result.core ≡ started wish.limits (wish.restart_s * 1000) false }
    {
        let ours = IpOurs::new(&wish);
        let restart_ms = wish.restart_s as u32 * 1000;
        let core = Negotiation::new(wish.limits, restart_ms, Codes::Network);
        Ipcp { wish, ours, core }
    }

    /// The network is wanted.
    pub fn open(&mut self, now: u64) -> IpcpOut
        requires { now ≤ 2 ^ 56 }
        ensures calls { Calls (by_itself opens) now self.old self.new result }
        ensures event { result.event ≡ Some FsmEvent.Open }
        ensures acts { result.acts ≡ acts_of self.old.core.fsm FsmEvent.Open }
        ensures automaton { self.new.core.fsm ≡ after self.old.core.fsm FsmEvent.Open }
        ensures opens { layer_acts result.acts ≡ layer_change (self.old.core.fsm.state == 9) (self.new.core.fsm.state == 9) }
    {
        self.event(FsmEvent::Open, now)
    }

    /// The bundle has a member.
    pub fn up(&mut self, now: u64) -> IpcpOut
        requires { now ≤ 2 ^ 56 }
        ensures calls { Calls (by_itself comes_up) now self.old self.new result }
        ensures event { result.event ≡ Some FsmEvent.Up }
        ensures acts { result.acts ≡ acts_of self.old.core.fsm FsmEvent.Up }
        ensures automaton { self.new.core.fsm ≡ after self.old.core.fsm FsmEvent.Up }
        ensures opens { layer_acts result.acts ≡ layer_change (self.old.core.fsm.state == 9) (self.new.core.fsm.state == 9) }
    {
        self.event(FsmEvent::Up, now)
    }

    /// The bundle has none.
    pub fn down(&mut self, now: u64) -> IpcpOut
        requires { now ≤ 2 ^ 56 }
        ensures calls { Calls (by_itself goes_down) now self.old self.new result }
        ensures event { result.event ≡ Some FsmEvent.Down }
        ensures acts { result.acts ≡ acts_of self.old.core.fsm FsmEvent.Down }
        ensures automaton { self.new.core.fsm ≡ after self.old.core.fsm FsmEvent.Down }
        ensures opens { layer_acts result.acts ≡ layer_change (self.old.core.fsm.state == 9) (self.new.core.fsm.state == 9) }
    {
        self.event(FsmEvent::Down, now)
    }

    /// The restart timer.
    pub fn tick(&mut self, now: u64) -> IpcpOut
        requires { now ≤ 2 ^ 56 }
        ensures calls { Calls ticks now self.old self.new result }
        ensures event { result.event ≡ (if is_due self.old.core now then Some FsmEvent.Timeout else None) }
        ensures acts { result.acts ≡ acts_on self.old.core.fsm result.event }
        ensures automaton { self.new.core.fsm ≡ moved_by result.event self.old.core.fsm }
        ensures opens { layer_acts result.acts ≡ layer_change (self.old.core.fsm.state == 9) (self.new.core.fsm.state == 9) }
    {
        self.look(now)
    }

    /// A packet of the peer's, which may have the addresses that `allow` says of `secrets`. A malformed one, or one that
    /// answers another request than our last, is discarded. A Code-Reject has at most `mru` octets.
    pub fn heard(
        &mut self,
        packet: &Packet,
        now: u64,
        secrets: &SecretsPair,
        allow: &Allow,
        mru: u16,
    ) -> IpcpOut
        requires time { now ≤ 2 ^ 56 }
        requires mru { 128 ≤ mru }
        ensures calls { Calls (hears packet.now (around allow.now secrets.now mru)) now self.old self.new result }
        ensures event { result.event ≡ Class self.old.core.is_lcp self.old.core.request (λ items. verdict_on self.old allow.now secrets.now items) packet.now }
        ensures acts { result.acts ≡ acts_on self.old.core.fsm result.event }
        ensures automaton { self.new.core.fsm ≡ moved_by result.event self.old.core.fsm }
        ensures opens { layer_acts result.acts ≡ layer_change (self.old.core.fsm.state == 9) (self.new.core.fsm.state == 9) }
    {
        self.take(packet, now, secrets, *allow, mru)
    }

    /// The addresses of both ends: some exactly in Opened.
    pub fn agreed(&self) -> Option<Addresses>
        ensures agreed { (wish : IpWish) (past : List IpcpCall) → StandsFor wish self.now past → result ≡ agreed_after wish past }
        ensures opened { is_some result ≡ (self.now.core.fsm.state == 9) }
    {
        self.agreed_now()
    }

    /// The number of the state, from Initial 0 to Opened 9.
    pub fn state(&self) -> u8
        ensures number { result ≡ self.now.core.fsm.state }
        ensures few { result ≤ 9 }
    {
        self.core.state()
    }

    /// When the restart timer is due, in milliseconds, while it runs.
    pub fn deadline(&self) -> Option<u64>
        ensures value { result ≡ self.now.core.restart_at }
        ensures stands { (wish : IpWish) (past : List IpcpCall) → StandsFor wish self.now past → result ≡ deadline_after wish past }
    {
        self.core.deadline()
    }

    // What is told as agreed, in Opened alone.
    fn agreed_now(&self) -> Option<Addresses>
        ensures { result ≡ agreed_in self.now }
    {
        if !self.core.is_open() {
            return None;
        }
        let ours = self.core.last_options();
        Some(agreed_by(&self.wish, self.ours.local, &ours, self.core.acknowledged()))
    }

    // The timer.
    fn look(&mut self, now: u64) -> IpcpOut
        requires { now ≤ 2 ^ 56 }
        ensures new { self.new ≡ ticked self.old now }
        ensures told { result ≡ ticked_told self.old now }
    {
        let asked = self.ours.asks();
        self.core.tick(&asked, now)
    }

    // A packet, by its class.
    fn take(
        &mut self,
        packet: &Packet,
        now: u64,
        secrets: &SecretsPair,
        allow: Allow,
        mru: u16,
    ) -> IpcpOut
        requires { now ≤ 2 ^ 56 }
        ensures new { self.new ≡ heard_left self.old (around allow secrets.now mru) packet.now now (heard_as self.old.core.is_lcp self.old.core.request packet.now) }
        ensures told { result ≡ heard_told self.old (around allow secrets.now mru) packet.now now (heard_as self.old.core.is_lcp self.old.core.request packet.now) }
    {
        match self.core.class(packet) {
            HeardAs::Request(items) => self.answer(packet, &items, now, secrets, allow),
            HeardAs::Ack => self.heard_event(FsmEvent::Rca, packet, now, mru),
            HeardAs::Nak(items) => {
                self.ours.take_nak(&self.wish, &items);
                self.heard_event(FsmEvent::Rcn, packet, now, mru)
            }
            HeardAs::Reject(items) => {
                self.ours.take_reject(&items);
                self.heard_event(FsmEvent::Rcn, packet, now, mru)
            }
            HeardAs::Event(event) => self.heard_event(event, packet, now, mru),
            HeardAs::Discarded => IpcpOut::none(),
        }
    }

    // One event that comes with no packet.
    fn event(&mut self, event: FsmEvent, now: u64) -> IpcpOut
        requires { now ≤ 2 ^ 56 }
        ensures new { self.new ≡ event_left event now self.old }
        ensures told { result ≡ event_told event now self.old }
    {
        let asked = self.ours.asks();
        self.core.event(event, &asked, now)
    }

    // An event that comes with a packet other than a request. No packet has an Echo-Reply.
    fn heard_event(&mut self, event: FsmEvent, packet: &Packet, now: u64, mru: u16) -> IpcpOut
        requires { now ≤ 2 ^ 56 }
        ensures new { self.new ≡ ip_step event (with_packet self.old event packet.now mru now) self.old }
        ensures told { result ≡ ip_told event (with_packet self.old event packet.now mru now) self.old }
    {
        let asked = self.ours.asks();
        let limit = usize::from(mru);
        self.core.heard(event, packet, limit, &None, &asked, now)
    }

    // A Configure-Request, and the answer to it.
    fn answer(
        &mut self,
        packet: &Packet,
        theirs: &OptionList,
        now: u64,
        secrets: &SecretsPair,
        allow: Allow,
    ) -> IpcpOut
        requires { now ≤ 2 ^ 56 }
        ensures new { self.new ≡ ip_step (event_on (verdict_on self.old allow secrets.now theirs.now)) (answering self.old allow secrets.now packet.now theirs.now now) self.old }
        ensures told { result ≡ ip_told (event_on (verdict_on self.old allow secrets.now theirs.now)) (answering self.old allow secrets.now packet.now theirs.now now) self.old }
    {
        let asked = self.ours.asks();
        let verdict = verdict(theirs, &self.wish, allow, secrets, self.core.naks());
        self.core.answer(packet.id, theirs, &verdict, &asked, now)
    }
}
