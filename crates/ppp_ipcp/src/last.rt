ghost use Rattle.std.specs.Prelude.{◌≡◌};
ghost use Rattle.std.specs.Option.{option_copied};
ghost use Rattle.ppp_ipcp.specs.Agreed.{address_or, wished_remote, agreed_by};

use crate::addresses::Addresses;
use crate::judge::{IP_ADDRESS, NO_ADDRESS, address_in};
use crate::wish::IpWish;
use ppp_control::last_body;
use ppp_packet::OptionList;

// The address that an option's data are, or another.
fn address_or(body: Option<&[u8]>, other: [u8; 4]) -> [u8; 4]
    ensures { result ≡ address_or (option_copied body.entry) other }
{
    match body {
        Some(body) => match address_in(body) {
            Some(address) => address,
            None => other,
        },
        None => other,
    }
}

// The peer's address where its request names none.
fn wished_remote(wish: &IpWish) -> [u8; 4]
    ensures { result ≡ wished_remote wish.now }
{
    match wish.remote {
        Some(address) => address,
        None => NO_ADDRESS,
    }
}

/// What the options of two requests mean, ours and the peer's. `local` is our address, where our request names none.
pub fn agreed_by(wish: &IpWish, local: [u8; 4], ours: &OptionList, theirs: &OptionList) -> Addresses
    ensures { result ≡ agreed_by wish.now local ours.now theirs.now }
{
    Addresses {
        local: address_or(last_body(ours, IP_ADDRESS), local),
        remote: address_or(last_body(theirs, IP_ADDRESS), wished_remote(wish)),
    }
}
