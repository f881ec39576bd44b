ghost use Rattle.std.specs.Prelude.{◌≡◌, ◌≤◌, length, option_map};
ghost use Rattle.ppp_chap.specs.Packets.{challenge_packet, response_packet, result_packet, valued_body, valued_of};
ghost use Rattle.ppp_chap.specs.Passes.{value_of};

use md5::{Digest, Md5};
use ppp_base::Name;
use ppp_packet::{Body, Packet};

// The codes of CHAP.
pub(crate) const CHALLENGE: u8 = 1;

pub(crate) const RESPONSE: u8 = 2;

pub(crate) const SUCCESS: u8 = 3;

pub(crate) const FAILURE: u8 = 4;

// The identifier of our challenge.
pub(crate) const OUR_ID: u8 = 1;

/// The value that answers a challenge with this identifier: the MD5 of identifier, secret and challenge (RFC 1994, section 4.1).
pub fn chap_value(id: u8, secret: &[u8], challenge: &[u8]) -> [u8; 16]
    ensures { result ≡ value_of id secret.now challenge.now }
{
    let mut hasher = Md5::new();
    hasher.update(&[id]);
    hasher.update(secret);
    hasher.update(challenge);
    hasher.finalize()
}

// The value and the name of a challenge or a response.
#[derive(Drop)]
pub(crate) struct Valued<'a> {
    pub(crate) value: &'a [u8],
    pub(crate) name: Name,
}

// What a challenge's or response's octets say, where they are one's.
pub(crate) fn read_valued(octets: &[u8]) -> Option<Valued<'_>>
    ensures { option_map (λ valued. (valued.value.now, valued.name)) result ≡ valued_of octets.now }
{
    let [size, rest @ ..] = octets else {
        return None;
    };
    let size = usize::from(*size);
    if rest.len() < size {
        return None;
    }
    let (value, name) = rest.split_at(size);
    let name = Name::from_octets(name)?;
    Some(Valued { value, name })
}

// The data of a challenge or a response.
fn valued_body(value: &[u8; 16], name: &Name) -> Body
    ensures { result ≡ valued_body value.now name.now }
{
    let mut body = Body::new();
    body.push(16);
    body.append(value);
    body.append(name.as_slice());
    body
}

// Our challenge.
pub(crate) fn challenge(octets: &[u8; 16], name: &Name) -> Packet
    ensures { result ≡ challenge_packet octets.now name.now }
{
    Packet {
        code: CHALLENGE,
        id: OUR_ID,
        body: valued_body(octets, name),
    }
}

// The response to a challenge with this identifier.
pub(crate) fn response(id: u8, value: &[u8; 16], name: &Name) -> Packet
    ensures { result ≡ response_packet id value.now name.now }
{
    Packet {
        code: RESPONSE,
        id,
        body: valued_body(value, name),
    }
}

// A success or a failure, without a message.
pub(crate) fn told(code: u8, id: u8) -> Packet
    ensures { result ≡ result_packet code id }
{
    Packet {
        code,
        id,
        body: Body::new(),
    }
}
