ghost use Rattle.std.specs.Prelude.{◌≡◌, ◌==◌, ◌<◌, ◌≤◌, ◌+◌, ◌^◌, Some, None, [], option_map, if◌then◌else◌};
ghost use Rattle.ppp_base.specs.declared.code.TheConstants.{ECHO_REPLY};
ghost use Rattle.ppp_control.specs.Step.{timed, left_by, sent_by, stepped, step_sends, requested, terminated, answered, next_of};
ghost use Rattle.ppp_control.specs.OwnPackets.{packet, request_packet, terminate_packet, verdict_packet};
ghost use Rattle.ppp_control.specs.Given.{given, alone, by_packet, by_request};
ghost use Rattle.ppp_control.specs.Verdict.{event_on};
ghost use Rattle.ppp_control.specs.Class.{heard_as, last_options};
ghost use Rattle.ppp_control.specs.Past.{is_timeout};
ghost use Rattle.ppp_fsm.specs.Fsm.{acts_of};
ghost use Rattle.ppp_fsm.specs.declared.event.FsmEvent.TheVariants.{Timeout};

use crate::classes::{HeardAs, class};
use crate::cutting::cut;
use crate::judging::Verdict;
use crate::packets::Packets;
use crate::parts::{Codes, Parts, Request};
use arrayvec::ArrayVec;
use ppp_base::code;
use ppp_fsm::{Act, Acts, Fsm, FsmEvent, Limits};
use ppp_packet::{Body, OptionList, Packet};
use ppp_timer::has_come;

/// A layer's automaton with its packets and its timer.
#[derive(Drop)]
pub struct Negotiation {
    /// Milliseconds before a request is sent again.
    pub(crate) restart_ms: u32,
    /// The codes 8 to 11 are known.
    pub(crate) is_lcp: bool,
    pub(crate) fsm: Fsm,
    /// The identifier that the next packet of our own takes.
    pub(crate) next_id: u8,
    /// Our last Configure-Request.
    pub(crate) request: Option<Request>,
    /// The identifier of our last Terminate-Request.
    pub(crate) terminate: Option<u8>,
    /// The Naks since the last Ack that we sent.
    pub(crate) naks: u8,
    /// What the peer asked for and we acknowledged last.
    pub(crate) acknowledged: OptionList,
    /// When the restart timer is due.
    pub(crate) restart_at: Option<u64>,
}

/// What a call does.
#[derive(Drop)]
pub struct StepOut {
    /// The event that it was, if it was one.
    pub event: Option<FsmEvent>,
    pub acts: Acts,
    pub packets: Packets,
}

impl StepOut {
    /// No event happens.
    pub fn none() -> StepOut
        ensures { result ≡ record { event = None; acts = []; packets = [] } }
    {
        StepOut {
            event: None,
            acts: Acts::from(ArrayVec::new()),
            packets: Packets::new(),
        }
    }
}

fn reply_of(parts: &Parts<'_>) -> Option<Packet>
    ensures { result ≡ option_map (λ body. packet ECHO_REPLY (given parts.entry.now).id body) (given parts.entry.now).reply }
{
    match parts.reply {
        Some(body) => Some(Packet {
            code: code::ECHO_REPLY,
            id: parts.id,
            body: body.copy(),
        }),
        None => None,
    }
}

// Whether the restart timer ran out.
fn is_timeout(event: FsmEvent) -> bool
    ensures { result ≡ is_timeout (Some event) }
{
    match event {
        FsmEvent::Timeout => true,
        _ => false,
    }
}

// The event that a request is, by its answer.
fn event_on(verdict: &Verdict) -> FsmEvent
    ensures { result ≡ event_on verdict.now }
{
    match verdict {
        Verdict::Ack => FsmEvent::RcrGood,
        _ => FsmEvent::RcrBad,
    }
}

impl Negotiation {
    ghost use Rattle.ppp_control.specs.Start.{started, are_of_lcp, is_due};

    /// In Initial, with nothing sent yet. The first identifier is 1.
    pub fn new(limits: Limits, restart_ms: u32, codes: Codes) -> Negotiation
        ensures { result ≡ started limits restart_ms (are_of_lcp codes) }
    {
        Negotiation {
            restart_ms,
            is_lcp: codes.are_of_lcp(),
            fsm: Fsm::new(limits),
            next_id: 1,
            request: None,
            terminate: None,
            naks: 0,
            acknowledged: OptionList::new(),
            restart_at: None,
        }
    }

    /// Our last request.
    pub fn request(&self) -> &Option<Request>
        ensures { result.now ≡ self.now.request }
    {
        &self.request
    }

    /// The options of our last request; none where no request was sent.
    pub fn last_options(&self) -> OptionList
        ensures { result ≡ last_options self.now.request }
    {
        match &self.request {
            Some(request) => request.options.copy(),
            None => OptionList::new(),
        }
    }

    /// The Naks since the last Ack that we sent.
    pub fn naks(&self) -> u8
        ensures { result ≡ self.now.naks }
    {
        self.naks
    }

    /// The number of the state.
    pub fn state(&self) -> u8
        ensures number { result ≡ self.now.fsm.state }
        ensures few { result ≤ 9 }
    {
        self.fsm.state()
    }

    /// Whether the state is Opened.
    pub fn is_open(&self) -> bool
        ensures { result ≡ (self.now.fsm.state == 9) }
    {
        self.fsm.state() == 9
    }

    /// What the peer asked for and we acknowledged last.
    pub fn acknowledged(&self) -> &OptionList
        ensures { result.now ≡ self.now.acknowledged }
    {
        &self.acknowledged
    }

    /// When the restart timer is due, in milliseconds, while it runs.
    pub fn deadline(&self) -> Option<u64>
        ensures { result ≡ self.now.restart_at }
    {
        self.restart_at
    }

    /// Whether the restart timer is due.
    pub fn is_due(&self, now: u64) -> bool
        ensures { result ≡ is_due self.now now }
    {
        has_come(self.restart_at, now)
    }

    /// What a packet is.
    pub fn class(&self, packet: &Packet) -> HeardAs
        ensures { result ≡ heard_as self.now.is_lcp self.now.request packet.now }
    {
        class(self.is_lcp, &self.request, packet)
    }

    /// An event that comes with no packet, at a moment. A request that isn't sent again asks for `asked`.
    pub fn event(&mut self, event: FsmEvent, asked: &OptionList, now: u64) -> StepOut
        requires { now ≤ 2 ^ 56 }
        ensures new { self.new ≡ stepped (alone self.old.restart_ms event asked.now now) event self.old }
        ensures event { result.event ≡ Some event }
        ensures acts { result.acts ≡ acts_of self.old.fsm event }
        ensures packets { result.packets ≡ step_sends (alone self.old.restart_ms event asked.now now) event self.old }
    {
        let restart_ms = self.restart_ms;
        let nothing = OptionList::new();
        let none = Body::new();
        let ack = Verdict::Ack;
        let parts = Parts {
            now,
            restart_ms: restart_ms as u64,
            repeats: is_timeout(event),
            asked,
            id: 0,
            theirs: &nothing,
            verdict: &ack,
            rejected: &none,
            reply: &None,
        };
        self.step(event, &parts)
    }

    /// A tick: a timeout, where the restart timer is due.
    pub fn tick(&mut self, asked: &OptionList, now: u64) -> StepOut
        requires { now ≤ 2 ^ 56 }
        ensures new { self.new ≡ (if is_due self.old now then stepped (alone self.old.restart_ms Timeout asked.now now) Timeout self.old else self.old) }
        ensures event { result.event ≡ (if is_due self.old now then Some Timeout else None) }
        ensures acts { result.acts ≡ (if is_due self.old now then acts_of self.old.fsm Timeout else []) }
        ensures packets { result.packets ≡ (if is_due self.old now then step_sends (alone self.old.restart_ms Timeout asked.now now) Timeout self.old else []) }
    {
        if self.is_due(now) {
            self.event(FsmEvent::Timeout, asked, now)
        } else {
            StepOut::none()
        }
    }

    /// An event that comes with a packet other than a request. A Code-Reject of it has at most `limit` octets, and 1,508; `reply` are
    /// the data of the Echo-Reply to it, where it has one.
    pub fn heard(
        &mut self,
        event: FsmEvent,
        packet: &Packet,
        limit: usize,
        reply: &Option<Body>,
        asked: &OptionList,
        now: u64,
    ) -> StepOut
        requires { now ≤ 2 ^ 56 }
        ensures new { self.new ≡ stepped (by_packet self.old.restart_ms event asked.now now packet.now limit reply.now) event self.old }
        ensures event { result.event ≡ Some event }
        ensures acts { result.acts ≡ acts_of self.old.fsm event }
        ensures packets { result.packets ≡ step_sends (by_packet self.old.restart_ms event asked.now now packet.now limit reply.now) event self.old }
    {
        let restart_ms = self.restart_ms;
        let nothing = OptionList::new();
        let ack = Verdict::Ack;
        let rejected = cut(packet, limit);
        let parts = Parts {
            now,
            restart_ms: restart_ms as u64,
            repeats: is_timeout(event),
            asked,
            id: packet.id,
            theirs: &nothing,
            verdict: &ack,
            rejected: &rejected,
            reply,
        };
        self.step(event, &parts)
    }

    /// A request of the peer's, with its options and the answer to it.
    pub fn answer(
        &mut self,
        id: u8,
        items: &OptionList,
        verdict: &Verdict,
        asked: &OptionList,
        now: u64,
    ) -> StepOut
        requires { now ≤ 2 ^ 56 }
        ensures new { self.new ≡ stepped (by_request self.old.restart_ms asked.now now id items.now verdict.now) (event_on verdict.now) self.old }
        ensures event { result.event ≡ Some (event_on verdict.now) }
        ensures acts { result.acts ≡ acts_of self.old.fsm (event_on verdict.now) }
        ensures packets { result.packets ≡ step_sends (by_request self.old.restart_ms asked.now now id items.now verdict.now) (event_on verdict.now) self.old }
    {
        let restart_ms = self.restart_ms;
        let event = event_on(verdict);
        let none = Body::new();
        let parts = Parts {
            now,
            restart_ms: restart_ms as u64,
            repeats: is_timeout(event),
            asked,
            id,
            theirs: items,
            verdict,
            rejected: &none,
            reply: &None,
        };
        self.step(event, &parts)
    }

    // One event.
    fn step(&mut self, event: FsmEvent, parts: &Parts<'_>) -> StepOut
        requires { parts.now.now + parts.now.restart_ms < 2 ^ 64 }
        ensures new { self.new ≡ stepped (given parts.entry.now) event self.old }
        ensures event { result.event ≡ Some event }
        ensures acts { result.acts ≡ acts_of self.old.fsm event }
        ensures packets { result.packets ≡ step_sends (given parts.entry.now) event self.old }
    {
        let acts = self.fsm.apply(event);
        let mut packets = Packets::new();
        let list = acts.as_slice();
        'acting: for act in list {
            let sent = self.act(*act, parts);
            packets.push_some(sent);
        }
        self.stop_timer();
        StepOut {
            event: Some(event),
            acts,
            packets,
        }
    }

    // The timer runs in the states 4 to 8 alone.
    fn stop_timer(&mut self)
        ensures { self.new ≡ timed self.old }
    {
        let state = self.fsm.state();
        if state < 4 || state > 8 {
            self.restart_at = None;
        }
    }

    // What one act sends and changes.
    fn act(&mut self, act: Act, parts: &Parts<'_>) -> Option<Packet>
        requires { parts.now.now + parts.now.restart_ms < 2 ^ 64 }
        ensures new { self.new ≡ left_by (given parts.entry.now) self.old act }
        ensures sent { result ≡ sent_by (given parts.entry.now) self.old act }
    {
        match act {
            Act::Scr => Some(self.send_request(parts)),
            Act::Str => Some(self.send_terminate(parts)),
            Act::Sca => Some(self.send_ack(parts)),
            Act::Scn => self.send_verdict(parts),
            Act::Sta => Some(Packet {
                code: code::TERMINATE_ACK,
                id: parts.id,
                body: Body::new(),
            }),
            Act::Scj => {
                let id = self.take_id();
                Some(Packet {
                    code: code::CODE_REJECT,
                    id,
                    body: parts.rejected.copy(),
                })
            }
            Act::Ser => reply_of(parts),
            Act::Zrc => {
                self.restart_at = Some(parts.now + parts.restart_ms);
                None
            }
            _ => None,
        }
    }

    // A request: the last one again, or a new one.
    fn send_request(&mut self, parts: &Parts<'_>) -> Packet
        requires { parts.now.now + parts.now.restart_ms < 2 ^ 64 }
        ensures new { self.new ≡ requested (given parts.entry.now) self.old }
        ensures sent { Some result ≡ option_map request_packet self.new.request }
    {
        self.restart_at = Some(parts.now + parts.restart_ms);
        if parts.repeats {
            if let Some(request) = &self.request {
                return Packet {
                    code: code::CONFIGURE_REQUEST,
                    id: request.id,
                    body: request.options.to_body(),
                };
            }
        }
        let id = self.take_id();
        self.request = Some(Request {
            id,
            options: parts.asked.copy(),
        });
        Packet {
            code: code::CONFIGURE_REQUEST,
            id,
            body: parts.asked.to_body(),
        }
    }

    fn send_terminate(&mut self, parts: &Parts<'_>) -> Packet
        requires { parts.now.now + parts.now.restart_ms < 2 ^ 64 }
        ensures new { self.new ≡ terminated (given parts.entry.now) self.old }
        ensures sent { Some result ≡ option_map terminate_packet self.new.terminate }
    {
        self.restart_at = Some(parts.now + parts.restart_ms);
        if parts.repeats {
            if let Some(id) = self.terminate {
                return Packet {
                    code: code::TERMINATE_REQUEST,
                    id,
                    body: Body::new(),
                };
            }
        }
        let id = self.take_id();
        self.terminate = Some(id);
        Packet {
            code: code::TERMINATE_REQUEST,
            id,
            body: Body::new(),
        }
    }

    fn send_ack(&mut self, parts: &Parts<'_>) -> Packet
        ensures new { self.new ≡ left_by (given parts.entry.now) self.old Act.Sca }
        ensures sent { Some result ≡ sent_by (given parts.entry.now) self.old Act.Sca }
    {
        self.naks = 0;
        self.acknowledged = parts.theirs.copy();
        Packet {
            code: code::CONFIGURE_ACK,
            id: parts.id,
            body: parts.theirs.to_body(),
        }
    }

    fn send_verdict(&mut self, parts: &Parts<'_>) -> Option<Packet>
        ensures new { self.new ≡ answered (given parts.entry.now).verdict self.old }
        ensures sent { result ≡ verdict_packet (given parts.entry.now).id (given parts.entry.now).verdict }
    {
        match parts.verdict {
            Verdict::Ack => None,
            Verdict::Nak(items) => {
                self.naks = self.naks.saturating_add(1);
                Some(Packet {
                    code: code::CONFIGURE_NAK,
                    id: parts.id,
                    body: items.to_body(),
                })
            }
            Verdict::Reject(items) => Some(Packet {
                code: code::CONFIGURE_REJECT,
                id: parts.id,
                body: items.to_body(),
            }),
        }
    }

    /// The next identifier.
    pub fn take_id(&mut self) -> u8
        ensures id { result ≡ self.old.next_id }
        ensures new { self.new ≡ record self.old { next_id = next_of self.old.next_id } }
    {
        let id = self.next_id;
        self.next_id = id.wrapping_add(1);
        id
    }
}
