ghost use Rattle.std.specs.Prelude.{◌≡◌, ◌==◌, ◌*◌, ◌+◌, ◌^◌, ◌≤◌, length, [], ◌∷◌, true, false, ℕ, List, Some, None, if◌then◌else◌};
ghost use Rattle.ppp_base.specs.declared.mrru.TheConstants.{DEFAULT_MRU, LEAST_MRU, LEAST_MRRU, MOST_MRRU};
ghost use Rattle.ppp_lcp.specs.Negotiating.{sends_verdict};
ghost use Rattle.ppp_lcp.specs.Session.{is_four, is_proved_by, is_agreed};
ghost use Rattle.std.specs.Option.{option_copied};

use crate::judge::{number2, number4, verdict_where};
use crate::last::{agreed_by, number2_or};
use crate::magic::{cut_information, names_magic};
use crate::ours::Ours;
use crate::out::LcpOut;
use crate::wish::LcpWish;
use ppp_base::{DEFAULT_MRU, code, protocol};
use ppp_control::{Codes, HeardAs, Negotiation, Verdict, last_body, names_kind};
use ppp_fsm::{Act, Acts, FsmEvent};
use ppp_packet::{Agreed, Body, Method, OptionList, Packet};
use ppp_timer::has_come;

// Whether the protocol is that of the method.
fn is_proved_by(protocol: u16, method: Option<Method>) -> bool
    ensures { result ≡ is_proved_by protocol method }
{
    match method {
        Some(Method::Pap) => protocol == protocol::PAP,
        Some(Method::Chap) => protocol == protocol::CHAP,
        None => false,
    }
}

// Whether an option's data, if there is one, are this number of four octets.
fn is_four(number: u32, body: Option<&[u8]>) -> bool
    ensures { result ≡ is_four number (option_copied body.entry) }
{
    match body {
        Some(body) => body.len() == 4 && number4(body) == number,
        None => false,
    }
}

/// Whether the protocol is that of an agreed method (RFC 1661, section 3.5).
pub fn is_agreed(protocol: u16, agreed: &Option<Agreed>) -> bool
    ensures { result ≡ is_agreed protocol agreed.now }
{
    match agreed {
        Some(agreed) => {
            is_proved_by(protocol, agreed.we_prove) || is_proved_by(protocol, agreed.peer_proves)
        }
        None => false,
    }
}

// Whether the answer to a request is sent that isn't an Ack.
fn sends_verdict(acts: &Acts) -> bool
    ensures { result ≡ sends_verdict acts.now }
{
    acts.as_slice().iter().any(|act| matches!(act, Act::Scn))
}

/// LCP on a link. Times are milliseconds.
#[derive(Drop)]
pub struct Lcp {
    pub(crate) wish: LcpWish,
    pub(crate) ours: Ours,
    pub(crate) core: Negotiation,
    /// Requests in a row with our own magic number.
    pub(crate) loops: u8,
    /// When the next echo is due.
    pub(crate) echo_at: Option<u64>,
    /// Echoes since the last answer to one.
    pub(crate) unanswered: u8,
}

impl Lcp {
    ghost use Rattle.std.specs.Prelude.{is_some};
    ghost use Rattle.ppp_control.specs.Verdict.{event_on};
    ghost use Rattle.ppp_lcp.specs.Session.{deadline_after, StandsFor, LcpCall, Calls, agreed_after, is_magic, is_loop, is_needed, next_echo, mru_in, reply_to};
    ghost use Rattle.ppp_lcp.specs.declared.wish.LcpWish.{LcpWish};
    ghost use Rattle.ppp_lcp.specs.Last.{IsInRange};
    ghost use Rattle.ppp_control.specs.Rules.{by_itself, opens, closes, comes_up, goes_down, ticks, hears, rejects, acts_on};
    ghost use Rattle.ppp_control.specs.Class.{heard_as, Class, last_options};
    ghost use Rattle.ppp_control.specs.Past.{moved_by};
    ghost use Rattle.ppp_control.specs.Start.{started, is_due};
    ghost use Rattle.ppp_fsm.specs.Fsm.{acts_of, after};
    ghost use Rattle.ppp_fsm.specs.Opening.{layer_acts, layer_change};
    ghost use Rattle.ppp_timer.specs.Due.{has_come};
    ghost use Rattle.ppp_lcp.specs.Object.{magic_now, verdict_on, limit_of, agreed_in};
    ghost use Rattle.ppp_lcp.specs.Negotiating.{event_left, event_told, event_out, ticked, ticked_told, lcp_step, with_packet, answering, after_request, heard_lcp, heard_told, settled, with_reply, with_loops, echoed, echo_told, refused_by, rejecting, rejecting_told, is_failed};

    /// In Initial. `words` is the state of the generator of magic numbers.
    pub fn new(wish: LcpWish, words: u64) -> Lcp
        requires mru { (LEAST_MRU ≤ wish.mru) × (wish.mru ≤ DEFAULT_MRU) }
        requires mrru { (LEAST_MRRU ≤ wish.mrru) × (wish.mrru ≤ MOST_MRRU) }
        requires restart { 1 ≤ wish.restart_s }
        requires max_failure { 1 ≤ wish.max_failure }
        ensures stands { StandsFor wish words result [] }
        ensures core { result.core ≡ started wish.limits (wish.restart_s * 1000) true }
    {
        let ours = Ours::new(&wish, words);
        let restart_ms = wish.restart_s as u32 * 1000;
        let core = Negotiation::new(wish.limits, restart_ms, Codes::Lcp);
        Lcp {
            wish,
            ours,
            core,
            loops: 0,
            echo_at: None,
            unanswered: 0,
        }
    }

    /// The link is wanted.
    pub fn open(&mut self, now: u64) -> LcpOut
        requires { now ≤ 2 ^ 56 }
        ensures calls { Calls (by_itself opens) now self.old self.new result }
        ensures event { result.event ≡ Some FsmEvent.Open }
        ensures acts { result.acts ≡ acts_of self.old.core.fsm FsmEvent.Open }
        ensures automaton { self.new.core.fsm ≡ after self.old.core.fsm FsmEvent.Open }
        ensures opens { layer_acts result.acts ≡ layer_change (self.old.core.fsm.state == 9) (self.new.core.fsm.state == 9) }
    {
        self.event(FsmEvent::Open, now)
    }

    /// The link is no longer wanted.
    pub fn close(&mut self, now: u64) -> LcpOut
        requires { now ≤ 2 ^ 56 }
        ensures calls { Calls (by_itself closes) now self.old self.new result }
        ensures event { result.event ≡ Some FsmEvent.Close }
        ensures acts { result.acts ≡ acts_of self.old.core.fsm FsmEvent.Close }
        ensures automaton { self.new.core.fsm ≡ after self.old.core.fsm FsmEvent.Close }
        ensures opens { layer_acts result.acts ≡ layer_change (self.old.core.fsm.state == 9) (self.new.core.fsm.state == 9) }
    {
        self.event(FsmEvent::Close, now)
    }

    /// The line is up.
    pub fn up(&mut self, now: u64) -> LcpOut
        requires { now ≤ 2 ^ 56 }
        ensures calls { Calls (by_itself comes_up) now self.old self.new result }
        ensures event { result.event ≡ Some FsmEvent.Up }
        ensures acts { result.acts ≡ acts_of self.old.core.fsm FsmEvent.Up }
        ensures automaton { self.new.core.fsm ≡ after self.old.core.fsm FsmEvent.Up }
        ensures opens { layer_acts result.acts ≡ layer_change (self.old.core.fsm.state == 9) (self.new.core.fsm.state == 9) }
    {
        self.event(FsmEvent::Up, now)
    }

    /// The line is down.
    pub fn down(&mut self, now: u64) -> LcpOut
        requires { now ≤ 2 ^ 56 }
        ensures calls { Calls (by_itself goes_down) now self.old self.new result }
        ensures event { result.event ≡ Some FsmEvent.Down }
        ensures acts { result.acts ≡ acts_of self.old.core.fsm FsmEvent.Down }
        ensures automaton { self.new.core.fsm ≡ after self.old.core.fsm FsmEvent.Down }
        ensures opens { layer_acts result.acts ≡ layer_change (self.old.core.fsm.state == 9) (self.new.core.fsm.state == 9) }
    {
        self.event(FsmEvent::Down, now)
    }

    /// The timers, of which at most one runs: the restart timer in the states 4 to 8, the echo timer in Opened.
    pub fn tick(&mut self, now: u64) -> LcpOut
        requires { now ≤ 2 ^ 56 }
        ensures calls { Calls ticks now self.old self.new result }
        ensures event { result.event ≡ (if is_due self.old.core now then Some FsmEvent.Timeout else None) }
        ensures acts { result.acts ≡ acts_on self.old.core.fsm result.event }
        ensures automaton { self.new.core.fsm ≡ moved_by result.event self.old.core.fsm }
        ensures opens { layer_acts result.acts ≡ layer_change (self.old.core.fsm.state == 9) (self.new.core.fsm.state == 9) }
    {
        self.look(now)
    }

    /// A packet of the peer's. A malformed one, or one that answers another request than our last, is discarded.
    pub fn heard(&mut self, packet: &Packet, now: u64) -> LcpOut
        requires { now ≤ 2 ^ 56 }
        ensures calls { Calls (hears packet.now tt) now self.old self.new result }
        ensures event { result.event ≡ Class self.old.core.is_lcp self.old.core.request (λ items. verdict_on self.old items) packet.now }
        ensures acts { result.acts ≡ acts_on self.old.core.fsm result.event }
        ensures automaton { self.new.core.fsm ≡ moved_by result.event self.old.core.fsm }
        ensures opens { layer_acts result.acts ≡ layer_change (self.old.core.fsm.state == 9) (self.new.core.fsm.state == 9) }
    {
        self.take(packet, now)
    }

    /// Rejects a protocol of the peer's that isn't known, in Opened alone (RFC 1661, section 5.7).
    pub fn reject(&mut self, protocol: u16, information: &[u8]) -> LcpOut
        ensures calls { Calls (rejects protocol information.now) 0 self.old self.new result }
        ensures event { result.event ≡ None }
        ensures acts { result.acts ≡ [] }
        ensures automaton { self.new.core.fsm ≡ self.old.core.fsm }
    {
        self.send_reject(protocol, information)
    }

    /// What has been agreed on: some exactly in Opened.
    pub fn agreed(&self) -> Option<Agreed>
        ensures agreed { (wish : LcpWish) (words : ℕ) (past : List LcpCall) → StandsFor wish words self.now past → result ≡ agreed_after wish past }
        ensures opened { is_some result ≡ (self.now.core.fsm.state == 9) }
        ensures range { (wish : LcpWish) (words : ℕ) (past : List LcpCall) → StandsFor wish words self.now past → IsInRange result }
    {
        self.agreed_now()
    }

    /// The number of the state, from Initial 0 to Opened 9.
    pub fn state(&self) -> u8
        ensures number { result ≡ self.now.core.fsm.state }
        ensures few { result ≤ 9 }
    {
        self.core.state()
    }

    /// When the timer that runs is due, in milliseconds: the restart timer, or in Opened the echo timer.
    pub fn deadline(&self) -> Option<u64>
        ensures value { result ≡ (if self.now.core.fsm.state == 9 then self.now.echo_at else self.now.core.restart_at) }
        ensures stands { (wish : LcpWish) (words : ℕ) (past : List LcpCall) → StandsFor wish words self.now past → result ≡ deadline_after wish past }
    {
        self.deadline_now()
    }

    // The moment of the one timer that runs.
    fn deadline_now(&self) -> Option<u64>
        ensures { result ≡ (if self.now.core.fsm.state == 9 then self.now.echo_at else self.now.core.restart_at) }
    {
        if self.core.is_open() {
            self.echo_at
        } else {
            self.core.deadline()
        }
    }

    // What is told as agreed, in Opened alone.
    fn agreed_now(&self) -> Option<Agreed>
        ensures { result ≡ agreed_in self.now }
    {
        if !self.core.is_open() {
            return None;
        }
        let ours = self.core.last_options();
        Some(agreed_by(&ours, self.core.acknowledged()))
    }

    // Our magic number, 0 where none is in force.
    fn magic(&self) -> u32
        ensures { result ≡ magic_now self.now }
    {
        if self.core.request().is_some() {
            self.ours.magic
        } else {
            0
        }
    }

    // The timers.
    fn look(&mut self, now: u64) -> LcpOut
        requires { now ≤ 2 ^ 56 }
        ensures new { self.new ≡ ticked self.old now }
        ensures told { result ≡ ticked_told self.old now }
    {
        let asked = self.ours.asks(&self.wish);
        let was_open = self.core.is_open();
        let step = self.core.tick(&asked, now);
        if step.event.is_none() {
            return self.echo(now);
        }
        self.settle(was_open, now);
        LcpOut::of(step, self.loops)
    }

    // A packet, by its class.
    fn take(&mut self, packet: &Packet, now: u64) -> LcpOut
        requires { now ≤ 2 ^ 56 }
        ensures new { self.new ≡ heard_lcp self.old packet.now now (heard_as self.old.core.is_lcp self.old.core.request packet.now) }
        ensures told { result ≡ heard_told self.old packet.now now (heard_as self.old.core.is_lcp self.old.core.request packet.now) }
    {
        match self.core.class(packet) {
            HeardAs::Request(items) => {
                self.count_loop(&items);
                self.answer(packet, &items, now)
            }
            HeardAs::Ack => self.heard_event(FsmEvent::Rca, packet, &None, now),
            HeardAs::Nak(items) => {
                self.ours.take_nak(&self.wish, &items);
                self.heard_event(FsmEvent::Rcn, packet, &None, now)
            }
            HeardAs::Reject(items) => {
                self.ours.take_reject(&items);
                let mut out = self.heard_event(FsmEvent::Rcn, packet, &None, now);
                out.auth_refused = names_kind(&items, 3);
                out
            }
            HeardAs::Event(event) => {
                let refused = self.refused(packet);
                let reply = self.reply(packet);
                self.take_reply(packet);
                let mut out = self.heard_event(event, packet, &reply, now);
                out.network_refused = refused;
                out
            }
            HeardAs::Discarded => LcpOut::none(self.loops),
        }
    }

    // A Protocol-Reject, in Opened alone.
    fn send_reject(&mut self, protocol: u16, information: &[u8]) -> LcpOut
        ensures new { self.new ≡ rejecting self.old }
        ensures told { result ≡ rejecting_told self.old protocol information.now }
    {
        let mut out = LcpOut::none(self.loops);
        if self.core.is_open() {
            let limit = usize::from(self.peer_mru());
            let id = self.core.take_id();
            out.packets.push(Packet {
                code: code::PROTOCOL_REJECT,
                id,
                body: cut_information(protocol, information, limit),
            });
        }
        out
    }

    // One event that comes with no packet.
    fn event(&mut self, event: FsmEvent, now: u64) -> LcpOut
        requires { now ≤ 2 ^ 56 }
        ensures new { self.new ≡ event_left event now self.old }
        ensures told { result ≡ event_told event now self.old }
    {
        let asked = self.ours.asks(&self.wish);
        let was_open = self.core.is_open();
        let step = self.core.event(event, &asked, now);
        self.settle(was_open, now);
        LcpOut::of(step, self.loops)
    }

    // An event that comes with a packet other than a request, with the data of the Echo-Reply to it, where it has one.
    fn heard_event(
        &mut self,
        event: FsmEvent,
        packet: &Packet,
        reply: &Option<Body>,
        now: u64,
    ) -> LcpOut
        requires { now ≤ 2 ^ 56 }
        ensures new { self.new ≡ lcp_step event (with_packet self.old event packet.now reply.now now) self.old }
        ensures told { result ≡ event_out event (with_packet self.old event packet.now reply.now now) self.old }
    {
        let asked = self.ours.asks(&self.wish);
        let limit = self.limit();
        let was_open = self.core.is_open();
        let step = self.core.heard(event, packet, limit, reply, &asked, now);
        self.settle(was_open, now);
        LcpOut::of(step, self.loops)
    }

    // The answer to a request of the peer's.
    fn verdict(&self, theirs: &OptionList) -> Verdict
        ensures { result ≡ verdict_on self.now theirs.now }
    {
        verdict_where(
            theirs,
            &self.wish,
            self.wish.multilink && !self.ours.left_out.mrru,
            self.magic(),
            self.ours.word(),
            self.core.naks(),
        )
    }

    // A Configure-Request, and the answer to it.
    fn answer(&mut self, packet: &Packet, theirs: &OptionList, now: u64) -> LcpOut
        requires { now ≤ 2 ^ 56 }
        ensures new { self.new ≡ after_request self.old packet.now theirs.now now }
        ensures told { result ≡ event_out (event_on (verdict_on self.old theirs.now)) (answering self.old packet.now theirs.now now) self.old }
    {
        let asked = self.ours.asks(&self.wish);
        let verdict = self.verdict(theirs);
        let was_open = self.core.is_open();
        let step = self.core.answer(packet.id, theirs, &verdict, &asked, now);
        self.settle(was_open, now);
        if names_magic(&verdict) && sends_verdict(&step.acts) {
            self.ours.skip();
        }
        LcpOut::of(step, self.loops)
    }

    // The echo timer begins as Opened is entered, and ends as it is left.
    fn settle(&mut self, was_open: bool, now: u64)
        requires { now ≤ 2 ^ 56 }
        ensures { self.new ≡ settled was_open now self.old }
    {
        let is_open = self.core.is_open();
        if !is_open {
            self.echo_at = None;
        } else if !was_open {
            self.unanswered = 0;
            self.echo_at = self.next_echo(now);
        }
    }

    fn next_echo(&self, now: u64) -> Option<u64>
        requires { now ≤ 2 ^ 56 }
        ensures { result ≡ next_echo self.now.wish now }
    {
        if self.wish.echo_interval_s == 0 {
            None
        } else {
            Some(now + self.wish.echo_interval_s as u64 * 1000)
        }
    }

    // The data of the Echo-Reply to an Echo-Request.
    fn reply(&self, packet: &Packet) -> Option<Body>
        ensures { result ≡ reply_to (magic_now self.now) packet.now }
    {
        let body = packet.body.as_slice();
        if packet.code != code::ECHO_REQUEST || body.len() < 4 {
            return None;
        }
        let mut reply = Body::new();
        reply.append(&self.magic().to_be_bytes());
        reply.append(&body[4..]);
        Some(reply)
    }

    // An Echo-Reply that isn't our own echo.
    fn take_reply(&mut self, packet: &Packet)
        ensures { self.new ≡ with_reply self.old packet.now }
    {
        let body = packet.body.as_slice();
        let in_opened = self.core.is_open();
        if in_opened && packet.code == code::ECHO_REPLY && body.len() >= 4 && !self.is_ours(body) {
            self.unanswered = 0;
        }
    }

    fn is_ours(&self, body: &[u8]) -> bool
        requires { 4 ≤ length body.now }
        ensures { result ≡ is_magic (magic_now self.now) body.now }
    {
        let magic = self.magic();
        magic != 0 && number4(body) == magic
    }

    // Requests in a row that have our magic number.
    fn count_loop(&mut self, items: &OptionList)
        ensures { self.new ≡ with_loops self.old items.now }
    {
        if self.is_loop(items) {
            self.loops = self.loops.saturating_add(1);
        } else {
            self.loops = 0;
        }
    }

    fn is_loop(&self, items: &OptionList) -> bool
        ensures { result ≡ is_loop (magic_now self.now) items.now }
    {
        let magic = self.magic();
        magic != 0 && is_four(magic, last_body(items, 5))
    }

    // The echo timer.
    fn echo(&mut self, now: u64) -> LcpOut
        requires { now ≤ 2 ^ 56 }
        ensures new { self.new ≡ echoed self.old now }
        ensures told { result ≡ echo_told self.old now }
    {
        let mut out = LcpOut::none(self.loops);
        if !self.is_echo_due(now) {
            return out;
        }
        if self.is_failed() {
            out.unanswered = self.wish.echo_failure;
            return out;
        }
        let id = self.core.take_id();
        self.unanswered = self.unanswered.saturating_add(1);
        self.echo_at = self.next_echo(now);
        let mut body = Body::new();
        body.append(&self.magic().to_be_bytes());
        out.packets.push(Packet {
            code: code::ECHO_REQUEST,
            id,
            body,
        });
        out
    }

    fn is_failed(&self) -> bool
        ensures { result ≡ is_failed self.now }
    {
        self.wish.echo_failure != 0 && self.unanswered == self.wish.echo_failure
    }

    fn is_echo_due(&self, now: u64) -> bool
        ensures { result ≡ has_come now self.now.echo_at }
    {
        has_come(self.echo_at, now)
    }

    // The most octets of information that the peer takes.
    fn peer_mru(&self) -> u16
        ensures value { result ≡ mru_in self.now.core.acknowledged }
        ensures range { result ≤ DEFAULT_MRU }
    {
        number2_or(last_body(self.core.acknowledged(), 1), DEFAULT_MRU).min(DEFAULT_MRU)
    }

    // The most octets of a packet to the peer.
    fn limit(&self) -> usize
        ensures value { result ≡ limit_of self.now }
        ensures range { result ≤ DEFAULT_MRU }
    {
        if self.core.is_open() {
            usize::from(self.peer_mru())
        } else {
            usize::from(DEFAULT_MRU)
        }
    }

    // The protocol that a Protocol-Reject names, where the link is of no use without it.
    fn refused(&self, packet: &Packet) -> Option<u16>
        ensures { result ≡ refused_by self.now packet.now }
    {
        let body = packet.body.as_slice();
        if packet.code != code::PROTOCOL_REJECT || body.len() < 2 {
            return None;
        }
        let protocol = number2(body);
        if self.is_needed(protocol) {
            Some(protocol)
        } else {
            None
        }
    }

    // Whether the link is of no use without the protocol.
    fn is_needed(&self, protocol: u16) -> bool
        ensures { result ≡ is_needed protocol (agreed_in self.now) }
    {
        protocol == protocol::IPCP
            || protocol == protocol::MULTILINK
            || is_agreed(protocol, &self.agreed_now())
    }
}
