ghost use Rattle.std.specs.Prelude.{◌≡◌, Some};
ghost use Rattle.ppp_packet.specs.OptionsOf.{item};
ghost use Rattle.ppp_control.specs.Judging.{judgement_of, IsShort};
ghost use Rattle.ppp_ipcp.specs.Address.{address_in, address_of, same_address, no_address, is_wished, may_have, wished_or_none, judged_as, judged_where};
ghost use Rattle.ppp_ipcp.specs.Verdict.{verdict_to};

use crate::wish::IpWish;
use ppp_base::Allow;
use ppp_control::{Judge, Judged, Verdict, verdict_by};
use ppp_packet::OptionList;
use ppp_secrets::SecretsPair;

/// The type of the option IP-Address (RFC 1332, section 3.3).
pub const IP_ADDRESS: u8 = 3;

/// 0.0.0.0, which stands for no address.
pub const NO_ADDRESS: [u8; 4] = [0, 0, 0, 0];

/// The address that an option's data are.
pub fn address_in(body: &[u8]) -> Option<[u8; 4]>
    ensures { result ≡ address_in body.now }
{
    match body {
        [a, b, c, d] => Some([*a, *b, *c, *d]),
        _ => None,
    }
}

/// The address of an option, if it is an IP-Address.
pub fn address_of(kind: u8, body: &[u8]) -> Option<[u8; 4]>
    ensures { result ≡ address_of (item kind body.now) }
{
    if kind == IP_ADDRESS {
        address_in(body)
    } else {
        None
    }
}

/// Whether two addresses are the same.
pub fn same_address(a: [u8; 4], b: [u8; 4]) -> bool
    ensures { result ≡ same_address a b }
{
    a == b
}

/// Whether an address is 0.0.0.0.
pub fn is_none(address: [u8; 4]) -> bool
    ensures { result ≡ same_address address no_address }
{
    same_address(address, NO_ADDRESS)
}

/// Who judges a request.
#[derive(Drop)]
struct IpJudge<'a> {
    wish: &'a IpWish,
    allow: Allow,
    secrets: &'a SecretsPair,
}

impl IpJudge<'_> {
    fn is_wished(&self, address: [u8; 4]) -> bool
        ensures { result ≡ is_wished self.now.wish.now.remote self.now.wish.now.accept_remote address }
    {
        match self.wish.remote {
            Some(wished) => same_address(address, wished) || self.wish.accept_remote,
            None => true,
        }
    }

    fn may_have(&self, address: [u8; 4]) -> bool
        ensures { result ≡ may_have self.now.wish.now self.now.allow self.now.secrets.now address }
    {
        !is_none(address) && self.secrets.allows(self.allow, address) && self.is_wished(address)
    }

    fn wished_or_none(&self) -> Judged<'_>
        ensures judged { judgement_of result ≡ wished_or_none self.now.wish.now.remote }
        ensures short { IsShort result }
    {
        match &self.wish.remote {
            Some(wished) => Judged::Named(wished),
            None => Judged::Rejected,
        }
    }

    fn address(&self, address: [u8; 4]) -> Judged<'_>
        ensures judged { judgement_of result ≡ judged_as self.now.wish.now self.now.allow self.now.secrets.now (Some address) }
        ensures short { IsShort result }
    {
        if self.may_have(address) {
            Judged::Acked
        } else {
            self.wished_or_none()
        }
    }
}

impl Judge for IpJudge<'_> {
    ghost judgement = { λ j i. judged_where j.wish.now j.allow j.secrets.now i };

    fn judged(&self, kind: u8, body: &[u8]) -> Judged<'_> {
        match address_of(kind, body) {
            Some(address) => self.address(address),
            None => Judged::Rejected,
        }
    }
}

/// The answer to a peer's request (RFC 1332, section 3.3). `naks` counts the Naks since the last Ack that we sent.
pub fn verdict(
    request: &OptionList,
    wish: &IpWish,
    allow: Allow,
    secrets: &SecretsPair,
    naks: u8,
) -> Verdict
    ensures { result ≡ verdict_to request.now wish.now allow secrets.now naks }
{
    let judge = IpJudge {
        wish,
        allow,
        secrets,
    };
    verdict_by(request, &judge, naks, wish.max_failure)
}
