// What a bundle sends (RFC 1990, sections 3 and 4): a plain bundle whole packets on its one member, a multilink bundle pieces.
ghost use Rattle.std.specs.Prelude.{◌≡◌, ◌+◌, ◌<◌, ◌≤◌, ◌++◌, ◌∷◌, [], None, Some, ℕ, length, slice_get};
ghost use Rattle.ppp_base.specs.declared.octets.TheConstants.{MOST_FRAME};
ghost use Rattle.ppp_base.specs.declared.protocol.TheConstants.{MULTILINK};
ghost use Rattle.ppp_unit_parts.specs.Fits.{Fits};
ghost use Rattle.ppp_unit_parts.specs.Member.{views_of};
ghost use Rattle.ppp_unit_parts.specs.Pieces.{after_pieces, all_sent, left_by_all, left_by_sending, packet_of, pieces_of, sending, sent_as, whole_on, with_headers};
ghost use Rattle.ppp_unit_parts.specs.declared.outbox.TheConstants.{MOST_SENT};
ghost use Rattle.ppp_mp.specs.Cut.{Cut};
ghost use Rattle.ppp_mp.specs.Header.{long_octets, long_space};
ghost use Rattle.ppp_mp.specs.Schedule.{FitsFrame, SentPiece, information_of, sending_after, sent_of};

use crate::live::Live;
use crate::member::MemberList;
use crate::outbox::{Sending, SentList};
use ppp_base::{Frame, Octets, protocol};
use ppp_control::Packets;
use ppp_mp::{Cuts, Members, Sending as PieceSending};

// The packet that is cut: its protocol field, which is one octet below 100 hexadecimal and else two, and the information.
fn packet_of(protocol: u16, information: &[u8]) -> Octets<2050>
    requires { length information.now ≤ 2048 }
    ensures { result ≡ packet_of protocol information.now }
{
    let mut packet = Octets::new();
    if protocol < 0x100 {
        packet.push(protocol as u8);
    } else {
        packet.push((protocol / 256) as u8);
        packet.push((protocol % 256) as u8);
    }
    packet.append(information);
    packet
}

// A packet on the one member.
fn put_whole(members: &MemberList, protocol: u16, information: &[u8], sent: &mut SentList)
    requires room { length sent.old < MOST_SENT }
    requires within { length information.now ≤ 1508 }
    ensures sent { sent.new ≡ sent.old ++ whole_on members.now protocol information.now }
    ensures few { length sent.new ≤ length sent.old + 1 }
{
    match members.as_slice() {
        [] => {}
        [first, ..] => {
            let mut frame = Frame::new();
            frame.append(information);
            sent.push(Sending {
                link: first.link,
                protocol,
                information: frame,
                rejected: false,
            });
        }
    }
}

// The cut of a packet.
#[tactic(auto, using(crate::proofs::SendFacts::all_fit))]
fn cut_packet(pieces: &mut PieceSending, packet: &[u8], members: &Members) -> Cuts
    requires some { 0 < length packet.now }
    requires within { length packet.now ≤ 2050 }
    requires members { 0 < length members.now }
    ensures cut { Cut long_octets (length packet.now) members.now pieces.old.turn result }
    ensures after { pieces.new ≡ sending_after long_space pieces.old (length members.now) (length result) }
    ensures fits { (at : ℕ) → at < length result → FitsFrame long_octets MOST_FRAME packet.now (slice_get result at) }
{
    let _members = members.as_slice();
    pieces.cut(packet.len() as u16, members)
}

// The piece of a packet at this place, where the first piece has this number.
#[tactic(auto, using(crate::proofs::SendFacts::link_is, crate::proofs::SendFacts::piece_there))]
fn put_piece(cuts: &Cuts, at: u8, number: u32, packet: &[u8], sent: &mut SentList)
    requires room { length sent.old < MOST_SENT }
    requires fits { FitsFrame long_octets MOST_FRAME packet.now (slice_get cuts.now at) }
    ensures sent { (piece : SentPiece) → slice_get (sent_of packet.now (length cuts.now) 0 cuts.now) at ≡ Some piece
        → sent.new ≡ sent.old ++ sending piece.link MULTILINK (information_of long_space long_octets (number + at) piece) ∷ [] }
    ensures few { length sent.new ≤ length sent.old + 1 }
{
    if let Some(piece) = cuts.get(at) {
        if let Some(information) = cuts.information(at, number, packet) {
            sent.push(Sending {
                link: piece.link,
                protocol: protocol::MULTILINK,
                information,
                rejected: false,
            });
        }
    }
}

// The pieces of a packet, of which the first has this number.
#[tactic(auto, using(crate::proofs::SendFacts::put_step, crate::proofs::SendFacts::put_all))]
fn put_pieces(cuts: &Cuts, number: u32, packet: &[u8], sent: &mut SentList)
    requires room { length sent.old + 17 ≤ MOST_SENT }
    requires fits { (at : ℕ) → at < length cuts.now → FitsFrame long_octets MOST_FRAME packet.now (slice_get cuts.now at) }
    ensures sent { sent.new ≡ sent.old ++ with_headers number (sent_of packet.now (length cuts.now) 0 cuts.now) }
    ensures few { length sent.new ≤ length sent.old + 17 }
{
    let count = cuts.count();
    'putting: for at in 0..count {
        put_piece(cuts, at, number, packet, sent);
    }
}

impl Live {
    // A packet in pieces over the members.
    #[tactic(auto, using(crate::proofs::SendFacts::pieces_are, crate::proofs::SendFacts::after_are, crate::proofs::SendFacts::nothing_sent, crate::proofs::SendFacts::nothing_after))]
    fn send_pieces(&mut self, protocol: u16, information: &[u8], sent: &mut SentList)
        requires room { length sent.old + 17 ≤ MOST_SENT }
        requires fits { Fits self.old }
        requires within { length information.now ≤ 2048 }
        ensures sent { sent.new ≡ sent.old ++ pieces_of self.old.pieces (views_of self.old.members) (packet_of protocol information.now) }
        ensures live { self.new ≡ record self.old { pieces = after_pieces self.old.pieces (views_of self.old.members) (packet_of protocol information.now) } }
        ensures few { length sent.new ≤ length sent.old + 17 }
    {
        let members = self.members.views();
        if members.is_empty() {
            return;
        }
        let packet = packet_of(protocol, information);
        let octets = packet.as_slice();
        let number = self.pieces.number();
        let cuts = cut_packet(&mut self.pieces, octets, &members);
        put_pieces(&cuts, number, octets, sent);
    }

    /// A packet to the peer.
    pub fn send(&mut self, protocol: u16, information: &[u8], sent: &mut SentList)
        requires room { length sent.old + 17 ≤ MOST_SENT }
        requires fits { Fits self.old }
        requires within { length information.now ≤ 2048 }
        requires whole { self.old.mrru ≡ None → length information.now ≤ 1508 }
        ensures sent { sent.new ≡ sent.old ++ sent_as self.old self.old.mrru protocol information.now }
        ensures live { self.new ≡ left_by_sending self.old self.old.mrru protocol information.now }
        ensures same { self.new ≡ record self.old { pieces = self.new.pieces } }
        ensures few { length sent.new ≤ length sent.old + 17 }
    {
        match self.mrru {
            None => put_whole(&self.members, protocol, information, sent),
            Some(_) => self.send_pieces(protocol, information, sent),
        }
    }

    /// IPCP's packets to the peer.
    pub fn send_all(&mut self, packets: &Packets, sent: &mut SentList)
        requires room { length sent.old + 51 ≤ MOST_SENT }
        requires fits { Fits self.old }
        ensures sent { sent.new ≡ all_sent self.old packets.now sent.old }
        ensures live { self.new ≡ left_by_all self.old packets.now }
        ensures same { self.new ≡ record self.old { pieces = self.new.pieces } }
        ensures few { length sent.new ≤ length sent.old + 51 }
    {
        let list = packets.as_slice();
        'sending: for packet in list {
            let frame = packet.to_frame();
            self.send(protocol::IPCP, frame.as_slice(), sent);
        }
    }
}
