// What the gatherer of a multilink bundle is asked at an event (RFC 1990, section 4.1).
ghost use Rattle.std.specs.Prelude.{◌≡◌, ◌≤◌, [], ℕ, List, length, take, if◌then◌else◌};
ghost use Rattle.ppp_bundle.specs.Gathers.{Gathers, TakesPiece, link_leaves, nothing_asked, piece_comes};
ghost use Rattle.ppp_bundle.specs.UnitPart.{IsLinkNumber, MayCome, asked_of, asked_to_join, asked_to_leave, asked_to_take, begins_with};

use crate::event::BundleEvent;
use crate::unit_state::UnitCore;
use ppp_base::{Frame, LinkId, Mrru, protocol};
use ppp_mp::{Gather, Given};
use ppp_outside::Spawner;

// A piece comes. So many packets are given.
#[tactic(auto, using(crate::proofs::AskFacts::takes_piece))]
fn take_piece(gather: &mut Gather, link: LinkId, information: &Frame, packets: &mut Given) -> u8
    ensures takes { TakesPiece link information.now gather.old (record { gather = gather.new; packets = take result packets.new }) }
    ensures some { result ≤ length packets.new }
    ensures few { result ≤ 128 }
{
    let octets = information.as_slice();
    let _answer = gather.piece(link, octets, packets);
    packets.count()
}

impl<S: Spawner> UnitCore<S> {
    // The gatherer begins with a multilink bundle.
    fn ask_to_begin(&mut self, mrru: Option<Mrru>)
        ensures gathers { Gathers (begins_with mrru) self.old.gather (record { gather = self.new.gather; packets = [] }) }
        ensures rest { self.new ≡ record self.old { gather = self.new.gather } }
    {
        if let Some(mrru) = mrru {
            self.gather.restart(mrru.ours());
        }
    }

    // A link joins.
    fn ask_to_join(&mut self, link: LinkId)
        ensures gathers { Gathers (asked_to_join self.old.live link) self.old.gather (record { gather = self.new.gather; packets = [] }) }
        ensures rest { self.new ≡ record self.old { gather = self.new.gather } }
    {
        if let Some(live) = &self.live {
            if live.mrru.is_some() {
                self.gather.join(link);
            }
        }
    }

    // Whether a link leaves a multilink bundle in which others stay.
    fn leaves_others(&self, link: LinkId) -> bool
        ensures { asked_to_leave self.now.live link ≡ (if result then link_leaves link else nothing_asked) }
    {
        match &self.live {
            Some(live) => live.mrru.is_some() && !live.members.without(link).is_empty(),
            None => false,
        }
    }

    // A link leaves. So many packets are given.
    #[tactic(auto, using(crate::proofs::AskFacts::asks_nothing, crate::proofs::AskFacts::asks_leave))]
    fn ask_to_leave(&mut self, link: LinkId, packets: &mut Given) -> u8
        ensures gathers { Gathers (asked_to_leave self.old.live link) self.old.gather (record { gather = self.new.gather; packets = take result packets.new }) }
        ensures rest { self.new ≡ record self.old { gather = self.new.gather } }
        ensures some { result ≤ length packets.new }
        ensures few { result ≤ 128 }
    {
        if !self.leaves_others(link) {
            return 0;
        }
        self.gather.leave(link, packets);
        packets.count()
    }

    // Whether a frame is a piece of a member of a multilink bundle.
    fn is_piece(&self, link: LinkId, protocol: u16) -> bool
        ensures { (information : List ℕ) → asked_to_take self.now.live link protocol information ≡ (if result then piece_comes link information else nothing_asked) }
    {
        match &self.live {
            Some(live) => {
                live.mrru.is_some() && live.members.has(link) && protocol == protocol::MULTILINK
            }
            None => false,
        }
    }

    // A piece comes. So many packets are given.
    #[tactic(auto, using(crate::proofs::AskFacts::asks_nothing, crate::proofs::AskFacts::asks_as))]
    fn ask_to_take(
        &mut self,
        link: LinkId,
        protocol: u16,
        information: &Frame,
        packets: &mut Given,
    ) -> u8
        ensures gathers { Gathers (asked_to_take self.old.live link protocol information.now) self.old.gather (record { gather = self.new.gather; packets = take result packets.new }) }
        ensures rest { self.new ≡ record self.old { gather = self.new.gather } }
        ensures some { result ≤ length packets.new }
        ensures few { result ≤ 128 }
    {
        if !self.is_piece(link, protocol) {
            return 0;
        }
        take_piece(&mut self.gather, link, information, packets)
    }

    // What an event asks. So many packets are given.
    pub(crate) fn ask(&mut self, event: &BundleEvent<S>, packets: &mut Given) -> u8
        requires { MayCome event.now self.old }
        ensures link { IsLinkNumber event.now }
        ensures gathers { Gathers (asked_of self.old.live event.now) self.old.gather (record { gather = self.new.gather; packets = take result packets.new }) }
        ensures rest { self.new ≡ record self.old { gather = self.new.gather } }
        ensures some { result ≤ length packets.new }
        ensures few { result ≤ 128 }
    {
        match event {
            BundleEvent::Make { mrru, .. } => {
                self.ask_to_begin(*mrru);
                0
            }
            BundleEvent::In { link, .. } => {
                let _number = link.number();
                self.ask_to_join(*link);
                0
            }
            BundleEvent::Out { link, .. } => self.ask_to_leave(*link, packets),
            BundleEvent::Frame {
                link,
                protocol,
                information,
            } => self.ask_to_take(*link, *protocol, information, packets),
            BundleEvent::Datagram(_) => 0,
            BundleEvent::Tick(_) => 0,
            BundleEvent::HookOver(_) => 0,
        }
    }
}
