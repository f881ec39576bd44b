ghost use Rattle.std.specs.Prelude.{◌≡◌};
ghost use Rattle.ppp_packet.specs.OptionList.{read_options};
ghost use Rattle.ppp_control.specs.Class.{is_selection, asks_of, heard_as, ack_heard, nak_heard, reject_heard, code_reject_heard, event_if};

use crate::parts::Request;
use ppp_fsm::FsmEvent;
use ppp_packet::{OptionList, Options, Packet};

/// What a packet is.
#[derive(Drop)]
pub enum HeardAs {
    /// A Configure-Request.
    Request(OptionList),
    /// An Ack of our last request.
    Ack,
    /// A Nak of it.
    Nak(OptionList),
    /// A Reject of some of its options.
    Reject(OptionList),
    /// Another event.
    Event(FsmEvent),
    /// None: the packet is discarded.
    Discarded,
}

fn is_selection(few: &OptionList, many: &OptionList) -> bool
    ensures { result ≡ is_selection few.now many.now }
{
    let mut wanted = few.iter();
    let mut next = wanted.next();
    let mut walk = many.iter();
    'looking: while let Some(have) = walk.next() {
        match next {
            None => return true,
            Some(want) => {
                if want.kind == have.kind && want.body == have.body {
                    next = wanted.next();
                }
            }
        }
    }
    next.is_none()
}

fn event_if(test: bool, event: FsmEvent) -> HeardAs
    ensures { result ≡ event_if test event }
{
    if test {
        HeardAs::Event(event)
    } else {
        HeardAs::Discarded
    }
}

fn code_reject(rejected: &[u8]) -> HeardAs
    ensures { result ≡ code_reject_heard rejected.now }
{
    if rejected.is_empty() {
        return HeardAs::Discarded;
    }
    if 1 <= rejected[0] && rejected[0] <= 7 {
        HeardAs::Event(FsmEvent::RxjBad)
    } else {
        HeardAs::Event(FsmEvent::RxjGood)
    }
}

fn ack(request: &Option<Request>, packet: &Packet) -> HeardAs
    ensures { result ≡ ack_heard request.now packet.now }
{
    match request {
        Some(last) => {
            if last.id == packet.id && packet.body.as_slice() == last.options.as_slice() {
                HeardAs::Ack
            } else {
                HeardAs::Discarded
            }
        }
        None => HeardAs::Discarded,
    }
}

fn nak(request: &Option<Request>, packet: &Packet) -> HeardAs
    ensures { result ≡ nak_heard request.now packet.now }
{
    match request {
        Some(last) => {
            if last.id != packet.id {
                return HeardAs::Discarded;
            }
            match Options::read(packet.body.as_slice()) {
                Ok(items) => HeardAs::Nak(items),
                Err(_) => HeardAs::Discarded,
            }
        }
        None => HeardAs::Discarded,
    }
}

fn reject(request: &Option<Request>, packet: &Packet) -> HeardAs
    ensures { result ≡ reject_heard request.now packet.now }
{
    match request {
        Some(last) => {
            if packet.id != last.id {
                return HeardAs::Discarded;
            }
            match Options::read(packet.body.as_slice()) {
                Ok(items) => {
                    if is_selection(&items, &last.options) {
                        HeardAs::Reject(items)
                    } else {
                        HeardAs::Discarded
                    }
                }
                Err(_) => HeardAs::Discarded,
            }
        }
        None => HeardAs::Discarded,
    }
}

fn request_of(packet: &Packet) -> HeardAs
    ensures { result ≡ asks_of (read_options packet.now.body) }
{
    match Options::read(packet.body.as_slice()) {
        Ok(items) => HeardAs::Request(items),
        Err(_) => HeardAs::Discarded,
    }
}

/// What a packet is, where this was our last request.
pub fn class(is_lcp: bool, request: &Option<Request>, packet: &Packet) -> HeardAs
    ensures { result ≡ heard_as is_lcp request.now packet.now }
{
    match packet.code {
        1 => request_of(packet),
        2 => ack(request, packet),
        3 => nak(request, packet),
        4 => reject(request, packet),
        5 => HeardAs::Event(FsmEvent::Rtr),
        6 => HeardAs::Event(FsmEvent::Rta),
        7 => code_reject(packet.body.as_slice()),
        8 if is_lcp => event_if(packet.body.as_slice().len() >= 2, FsmEvent::RxjGood),
        9..=11 if is_lcp => event_if(packet.body.as_slice().len() >= 4, FsmEvent::Rxr),
        _ => HeardAs::Event(FsmEvent::Ruc),
    }
}
