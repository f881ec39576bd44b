ghost use Rattle.std.specs.Prelude.{◌≡◌, ◌≤◌, length};
ghost use Rattle.ppp_control.specs.Judging.{judgement_of, IsShort};
ghost use Rattle.ppp_lcp.specs.Verdict.{verdict_to, verdict_where};
ghost use Rattle.ppp_lcp.specs.Table.{octets_judged, is_chap, is_pap, number2, number4, mru_judged, mrru_judged, authentication_judged, magic_judged, acked_if};

use crate::wish::LcpWish;
use ppp_base::{LEAST_MRRU, LEAST_MRU};
use ppp_control::{Judge, Judged, Verdict, verdict_by};
use ppp_packet::OptionList;

// Whether CHAP with MD5 is asked for.
pub(crate) fn is_chap(body: &[u8]) -> bool
    ensures { result ≡ is_chap body.now }
{
    body.len() == 3 && body[0] == 0xc2 && body[1] == 0x23 && body[2] == 0x05
}

// Whether PAP is asked for.
pub(crate) fn is_pap(body: &[u8]) -> bool
    ensures { result ≡ is_pap body.now }
{
    body.len() == 2 && body[0] == 0xc0 && body[1] == 0x23
}

fn acked_if(test: bool) -> Judged<'static>
    ensures judged { judgement_of result ≡ acked_if test }
    ensures short { IsShort result }
{
    if test {
        Judged::Acked
    } else {
        Judged::Rejected
    }
}

// The number that two octets are.
pub(crate) fn number2(body: &[u8]) -> u16
    requires { 2 ≤ length body.now }
    ensures { result ≡ number2 body.now }
{
    body[0] as u16 * 256 + body[1] as u16
}

// The number that four octets are.
pub(crate) fn number4(body: &[u8]) -> u32
    requires { 4 ≤ length body.now }
    ensures { result ≡ number4 body.now }
{
    u32::from_be_bytes([body[0], body[1], body[2], body[3]])
}

fn mru(body: &[u8]) -> Judged<'static>
    ensures judged { judgement_of result ≡ mru_judged body.now }
    ensures short { IsShort result }
{
    if body.len() != 2 {
        return Judged::Rejected;
    }
    if number2(body) >= LEAST_MRU {
        Judged::Acked
    } else {
        Judged::Named(&[0, 128])
    }
}

fn mrru(multilink: bool, body: &[u8]) -> Judged<'static>
    ensures judged { judgement_of result ≡ mrru_judged multilink body.now }
    ensures short { IsShort result }
{
    if body.len() != 2 || !multilink {
        return Judged::Rejected;
    }
    if number2(body) >= LEAST_MRRU {
        Judged::Acked
    } else {
        Judged::Named(&[0x05, 0xdc])
    }
}

fn authentication(wish: &LcpWish, body: &[u8]) -> Judged<'static>
    ensures judged { judgement_of result ≡ authentication_judged wish.now body.now }
    ensures short { IsShort result }
{
    if body.len() < 2 || (wish.refuse_pap && wish.refuse_chap) {
        return Judged::Rejected;
    }
    if (is_chap(body) && !wish.refuse_chap) || (is_pap(body) && !wish.refuse_pap) {
        return Judged::Acked;
    }
    if wish.refuse_chap {
        Judged::Named(&[0xc0, 0x23])
    } else {
        Judged::Named(&[0xc2, 0x23, 0x05])
    }
}

/// Who judges a request.
#[derive(Drop)]
struct LcpJudge<'a> {
    wish: &'a LcpWish,
    multilink: bool,
    ours: u32,
    word: [u8; 4],
}

impl LcpJudge<'_> {
    fn magic(&self, body: &[u8]) -> Judged<'_>
        ensures judged { judgement_of result ≡ magic_judged self.now.wish.now self.now.ours self.now.word body.now }
        ensures short { IsShort result }
    {
        if body.len() != 4 || !self.wish.magic {
            return Judged::Rejected;
        }
        let number = number4(body);
        if number == 0 || number == self.ours {
            Judged::Named(&self.word)
        } else {
            Judged::Acked
        }
    }
}

impl Judge for LcpJudge<'_> {
    ghost judgement = { λ j i. octets_judged j.wish.now j.multilink j.ours j.word i };

    fn judged(&self, kind: u8, body: &[u8]) -> Judged<'_> {
        match kind {
            1 => mru(body),
            2 => acked_if(body.len() == 4),
            3 => authentication(self.wish, body),
            5 => self.magic(body),
            7 => acked_if(body.len() == 0 && self.wish.pfc),
            8 => acked_if(body.len() == 0 && self.wish.acfc),
            17 => mrru(self.multilink, body),
            19 => acked_if(1 <= body.len() && body.len() <= 21 && self.multilink),
            _ => Judged::Rejected,
        }
    }
}

// The answer where multilink may have been rejected.
pub(crate) fn verdict_where(
    request: &OptionList,
    wish: &LcpWish,
    multilink: bool,
    ours: u32,
    word: u32,
    naks: u8,
) -> Verdict
    ensures { result ≡ verdict_where request.now wish.now multilink ours word naks }
{
    let judge = LcpJudge {
        wish,
        multilink,
        ours,
        word: word.to_be_bytes(),
    };
    verdict_by(request, &judge, naks, wish.max_failure)
}

/// The answer to a peer's request, option by option (RFC 1661, section 6). `ours` is our magic number, 0 where we
/// have none; `word` is the number that a Nak of a magic number carries; `naks` counts the Naks since the last Ack
/// that we sent.
pub fn verdict(request: &OptionList, wish: &LcpWish, ours: u32, word: u32, naks: u8) -> Verdict
    ensures { result ≡ verdict_to request.now wish.now ours word naks }
{
    verdict_where(request, wish, wish.multilink, ours, word, naks)
}
