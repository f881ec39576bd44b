// What comes to a bundle: frames of links, packets that were gathered of pieces, and datagrams for the peer.
ghost use Rattle.std.specs.Prelude.{◌≡◌, ◌+◌, ◌*◌, ◌≤◌, ◌<◌, ◌==◌, [], ◌∷◌, true, false, Option, Some, None, IfSome, ℕ, List, length, option_map, option_to_list, take, if◌then◌else◌};
ghost use Rattle.ppp_base.specs.Mrru.{MrruPair};
ghost use Rattle.ppp_bundle.specs.Frames.{brought, carried, gave, heard, inner, inner_of, rejected, used, used_all, used_inner};
ghost use Rattle.ppp_unit_parts.specs.Live.{most_of_ours};
ghost use Rattle.ppp_bundle.specs.Closing.{looked};
ghost use Rattle.ppp_unit_parts.specs.Member.{has_link};
ghost use Rattle.ppp_bundle.specs.Sends.{rejection};
ghost use Rattle.ppp_bundle.specs.Sound.{Agrees, Goes, HasRoom, IsGoing, IsReady, IsSound};
ghost use Rattle.ppp_bundle.specs.State.{members_of};
ghost use Rattle.ppp_bundle.specs.UnitPart.{framed};
ghost use Rattle.ppp_unit_parts.specs.declared.outbox.TheConstants.{MOST_GIVEN, MOST_SENT};
ghost use Rattle.ppp_packet.specs.PacketOf.{packet_in};

use crate::unit_state::UnitCore;
use ppp_base::{Datagram, Frame, LinkId, MOST_FRAME, protocol};
use ppp_mp::Given;
use ppp_outside::Spawner;
use ppp_packet::Packet;
use ppp_secrets::SecretsPair;
use ppp_unit_parts::{IpCall, MemberList, Sending};

// The protocol of a packet that was gathered, which is one odd octet or an even one and then an odd one, and its information.
fn inner_of(packet: &[u8]) -> Option<(u16, &[u8])>
    ensures inner { option_map (λ i. inner i.0 i.1.now) result ≡ inner_of packet.now }
    ensures within { IfSome result (λ i. length i.1.now ≤ length packet.now) }
{
    let [first, rest @ ..] = packet else {
        return None;
    };
    if first % 2 == 1 {
        return Some((u16::from(*first), rest));
    }
    let [second, rest @ ..] = rest else {
        return None;
    };
    if second % 2 == 1 {
        Some((u16::from(*first) * 256 + u16::from(*second), rest))
    } else {
        None
    }
}

// The first octets, at most so many.
#[tactic(auto, using(crate::proofs::ReadyFacts::take_of_few))]
fn first_octets(octets: &[u8], most: usize) -> Frame
    requires { most ≤ 1508 }
    ensures { result ≡ take most octets.now }
{
    let mut frame = Frame::new();
    if octets.len() <= most {
        frame.append(octets);
    } else {
        frame.append(&octets[..most]);
    }
    frame
}

// What the least member is to reject.
fn rejection(members: &MemberList, protocol: u16, information: &[u8]) -> Option<Sending>
    ensures { option_to_list result ≡ rejection members.now protocol information.now }
{
    match members.as_slice() {
        [] => None,
        [first, ..] => Some(Sending {
            link: first.link,
            protocol,
            information: first_octets(information, MOST_FRAME),
            rejected: true,
        }),
    }
}

impl<S: Spawner> UnitCore<S> {
    // A frame of a link: what came, or the packets that the gatherer gave by it.
    #[tactic(auto, using(crate::proofs::SoundFacts::going, crate::proofs::ReadyFacts::sound_ready, crate::proofs::ReadyFacts::goes_most))]
    pub(crate) fn frame(
        &mut self,
        link: LinkId,
        protocol: u16,
        information: &Frame,
        secrets: &SecretsPair,
        packets: &Given,
        count: u8,
    )
        requires sound { IsSound self.old }
        requires sent { self.old.sent ≡ [] }
        requires given { self.old.given ≡ [] }
        requires some { count ≤ length packets.now }
        requires few { count ≤ 128 }
        ensures new { self.new ≡ framed secrets.now link protocol information.now (take count packets.now) self.old }
        ensures going { IsGoing self.new }
        ensures goes { Goes 5632 self.old self.new }
    {
        if !self.has_member(link) {
            self.counts.stranger = self.counts.stranger.saturating_add(1);
        } else if protocol == protocol::MULTILINK {
            self.use_all(packets, count, secrets);
        } else {
            self.bring(protocol, information.as_slice(), secrets);
        }
    }

    // Whether a link is a member.
    fn has_member(&self, link: LinkId) -> bool
        ensures { result ≡ has_link link (members_of self.now.live) }
    {
        match &self.live {
            Some(live) => live.members.has(link),
            None => false,
        }
    }

    // What a member brings.
    fn bring(&mut self, protocol: u16, information: &[u8], secrets: &SecretsPair)
        requires room { HasRoom 100 self.old }
        requires sent { length self.old.sent + 51 ≤ MOST_SENT }
        requires given { length self.old.given < MOST_GIVEN }
        requires within { length information.now ≤ 2048 }
        requires agrees { Agrees self.old }
        ensures new { self.new ≡ brought secrets.now protocol information.now self.old }
        ensures agrees { Agrees self.new }
        ensures goes { Goes 24 self.old self.new }
        ensures sent { length self.new.sent ≤ length self.old.sent + 51 }
        ensures given { length self.new.given ≤ length self.old.given + 1 }
    {
        if protocol == protocol::IPCP {
            self.hear(information, secrets);
        } else if protocol == protocol::IP {
            self.give(information);
        }
    }

    // IPCP hears a packet.
    fn hear(&mut self, information: &[u8], secrets: &SecretsPair)
        requires room { HasRoom 100 self.old }
        requires sent { length self.old.sent + 51 ≤ MOST_SENT }
        requires agrees { Agrees self.old }
        ensures new { self.new ≡ heard secrets.now (packet_in information.now) self.old }
        ensures agrees { Agrees self.new }
        ensures goes { Goes 24 self.old self.new }
        ensures sent { length self.new.sent ≤ length self.old.sent + 51 }
        ensures given { self.new.given ≡ self.old.given }
    {
        if let Ok(packet) = Packet::read(information) {
            self.call(&IpCall::Hears(packet), secrets);
        }
    }

    // A datagram of the peer's.
    fn give(&mut self, information: &[u8])
        requires given { length self.old.given < MOST_GIVEN }
        requires within { length information.now ≤ 2048 }
        requires agrees { Agrees self.old }
        ensures new { self.new ≡ gave information.now self.old }
        ensures agrees { Agrees self.new }
        ensures goes { Goes 0 self.old self.new }
        ensures sent { self.new.sent ≡ self.old.sent }
        ensures given { length self.new.given ≤ length self.old.given + 1 }
    {
        if self.is_open() {
            let mut datagram = Datagram::new();
            datagram.append(information);
            self.given.push(datagram);
            self.pass();
        } else {
            self.counts.not_open = self.counts.not_open.saturating_add(1);
        }
    }

    // A datagram for the peer.
    #[tactic(auto, using(crate::proofs::CallFacts::whole_fits))]
    pub(crate) fn carry(&mut self, datagram: &Datagram)
        requires sent { length self.old.sent + 51 ≤ MOST_SENT }
        requires agrees { Agrees self.old }
        ensures new { self.new ≡ carried datagram.now self.old }
        ensures agrees { Agrees self.new }
        ensures goes { Goes 0 self.old self.new }
    {
        if !self.is_open() {
            self.counts.not_open = self.counts.not_open.saturating_add(1);
        } else if datagram.len() <= usize::from(self.most_to_peer()) {
            self.send_datagram(datagram);
            self.pass();
        } else {
            self.counts.too_big = self.counts.too_big.saturating_add(1);
        }
    }

    // The most octets of a packet that was gathered, where a bundle lives.
    fn most_of_ours(&self) -> Option<u16>
        ensures most { result ≡ option_map (λ l. most_of_ours l.mrru) self.now.live }
        ensures within { IfSome result (λ most. most ≤ 2048) }
    {
        match &self.live {
            Some(live) => Some(live.most_of_ours()),
            None => None,
        }
    }

    // The least member is to reject a protocol.
    fn reject(&mut self, protocol: u16, information: &[u8])
        requires sent { length self.old.sent < MOST_SENT }
        requires agrees { Agrees self.old }
        ensures new { self.new ≡ rejected protocol information.now self.old }
        ensures agrees { Agrees self.new }
        ensures goes { Goes 0 self.old self.new }
        ensures sent { length self.new.sent ≤ length self.old.sent + 1 }
        ensures given { self.new.given ≡ self.old.given }
    {
        if let Some(live) = &self.live {
            if let Some(sending) = rejection(&live.members, protocol, information) {
                self.sent.push(sending);
            }
        }
    }

    // A packet that was gathered, with its protocol.
    fn use_inner(&mut self, most: u16, protocol: u16, information: &[u8], secrets: &SecretsPair)
        requires room { HasRoom 100 self.old }
        requires sent { length self.old.sent + 51 ≤ MOST_SENT }
        requires given { length self.old.given < MOST_GIVEN }
        requires most { most ≤ 2048 }
        requires agrees { Agrees self.old }
        ensures new { (mrru : Option MrruPair) → most_of_ours mrru ≡ most → self.new ≡ used_inner secrets.now mrru (Some (inner protocol information.now)) self.old }
        ensures agrees { Agrees self.new }
        ensures goes { Goes 24 self.old self.new }
        ensures sent { length self.new.sent ≤ length self.old.sent + 51 }
        ensures given { length self.new.given ≤ length self.old.given + 1 }
    {
        if information.len() > usize::from(most) {
            self.counts.too_big = self.counts.too_big.saturating_add(1);
        } else if protocol == protocol::IPCP || protocol == protocol::IP {
            self.bring(protocol, information, secrets);
        } else if protocol != protocol::LCP {
            self.reject(protocol, information);
        }
    }

    // A packet that was gathered.
    #[tactic(auto, using(crate::proofs::ReadyFacts::used_none, crate::proofs::ReadyFacts::used_bad, crate::proofs::ReadyFacts::used_some))]
    fn use_one(&mut self, packet: &[u8], secrets: &SecretsPair)
        requires room { HasRoom 100 self.old }
        requires sent { length self.old.sent + 51 ≤ MOST_SENT }
        requires given { length self.old.given < MOST_GIVEN }
        requires agrees { Agrees self.old }
        ensures new { self.new ≡ used secrets.now packet.now self.old }
        ensures agrees { Agrees self.new }
        ensures goes { Goes 24 self.old self.new }
        ensures sent { length self.new.sent ≤ length self.old.sent + 51 }
        ensures given { length self.new.given ≤ length self.old.given + 1 }
    {
        let Some(most) = self.most_of_ours() else {
            self.counts.not_open = self.counts.not_open.saturating_add(1);
            return;
        };
        match inner_of(packet) {
            None => self.counts.bad_inner = self.counts.bad_inner.saturating_add(1),
            Some((protocol, information)) => self.use_inner(most, protocol, information, secrets),
        }
    }

    // A packet that was gathered, after which the marks are counted.
    #[tactic(auto, using(crate::proofs::ReadyFacts::ready_going, crate::proofs::ReadyFacts::sound_ready, crate::proofs::ReadyFacts::goes_both))]
    fn use_next(&mut self, packet: &[u8], secrets: &SecretsPair)
        requires ready { IsReady self.old }
        requires sent { length self.old.sent + 51 ≤ MOST_SENT }
        requires given { length self.old.given < MOST_GIVEN }
        ensures new { self.new ≡ looked (used secrets.now packet.now self.old) }
        ensures ready { IsReady self.new }
        ensures goes { Goes 44 self.old self.new }
        ensures sent { length self.new.sent ≤ length self.old.sent + 51 }
        ensures given { length self.new.given ≤ length self.old.given + 1 }
    {
        self.use_one(packet, secrets);
        self.look();
    }

    // The packets that the gatherer gave, the first so many.
    #[tactic(auto, using(crate::proofs::ReadyFacts::use_first, crate::proofs::ReadyFacts::use_step, crate::proofs::ReadyFacts::use_end, crate::proofs::ReadyFacts::at_there))]
    pub(crate) fn use_all(&mut self, packets: &Given, count: u8, secrets: &SecretsPair)
        requires ready { IsReady self.old }
        requires sent { self.old.sent ≡ [] }
        requires given { self.old.given ≡ [] }
        requires some { count ≤ length packets.now }
        requires few { count ≤ 128 }
        ensures new { self.new ≡ used_all secrets.now (take count packets.now) self.old }
        ensures going { IsGoing self.new }
        ensures goes { Goes 5632 self.old self.new }
    {
        'using: for at in 0..count {
            if let Some(packet) = packets.get(at) {
                self.use_next(packet, secrets);
            }
        }
    }
}
