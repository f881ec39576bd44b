ghost use Rattle.std.specs.Prelude.{◌≡◌, ◌≤◌, length, IfSome, option_map};
ghost use Rattle.std.specs.Option.{option_copied};
ghost use Rattle.ppp_pap.specs.Packets.{request_packet, request_of, is_message, is_answer, answer_packet};

use ppp_base::Name;
use ppp_packet::{Body, Packet};

// The codes of PAP.
pub(crate) const AUTHENTICATE_REQUEST: u8 = 1;

pub(crate) const AUTHENTICATE_ACK: u8 = 2;

pub(crate) const AUTHENTICATE_NAK: u8 = 3;

// The identifier of our request.
pub(crate) const OUR_ID: u8 = 1;

// A request's name and password.
#[derive(Drop)]
pub(crate) struct Request<'a> {
    pub(crate) name: Name,
    pub(crate) password: &'a [u8],
}

// Our request.
pub(crate) fn our_request(name: &Name, password: &Name) -> Packet
    ensures { result ≡ request_packet name.now password.now }
{
    let mut body = Body::new();
    body.push(name.len() as u8);
    body.append(name.as_slice());
    body.push(password.len() as u8);
    body.append(password.as_slice());
    Packet {
        code: AUTHENTICATE_REQUEST,
        id: OUR_ID,
        body,
    }
}

// What a request says, where the octets are one.
pub(crate) fn read_request(octets: &[u8]) -> Option<Request<'_>>
    ensures { option_map (λ request. (request.name, request.password.now)) result ≡ request_of octets.now }
{
    let [size, rest @ ..] = octets else {
        return None;
    };
    let size = usize::from(*size);
    if rest.len() <= size {
        return None;
    }
    let (name, behind) = rest.split_at(size);
    let [size, password @ ..] = behind else {
        return None;
    };
    if password.len() != usize::from(*size) {
        return None;
    }
    let name = Name::from_octets(name)?;
    Some(Request { name, password })
}

// Whether the octets are a message behind its length.
fn is_message(octets: &[u8]) -> bool
    ensures { result ≡ is_message octets.now }
{
    match octets {
        [] => false,
        [size, message @ ..] => message.len() == usize::from(*size),
    }
}

// Whether the packet answers our request with this code.
pub(crate) fn is_answer(code: u8, packet: &Packet) -> bool
    ensures { result ≡ is_answer code packet.now }
{
    packet.code == code && packet.id == OUR_ID && is_message(packet.body.as_slice())
}

// An answer to a request with this identifier, with an empty message.
pub(crate) fn answer(code: u8, id: u8) -> Packet
    ensures { result ≡ answer_packet code id }
{
    let mut body = Body::new();
    body.push(0);
    Packet { code, id, body }
}
