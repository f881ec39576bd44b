ghost use Rattle.std.specs.Prelude.{◌≡◌, []};
ghost use Rattle.ppp_ipcp.specs.Ours.{takes_address};
ghost use Rattle.ppp_ipcp.specs.Taking.{ours_of, asks, last_address, after_nak, after_reject};

use crate::judge::{IP_ADDRESS, address_of, is_none};
use crate::wish::IpWish;
use ppp_control::names_kind;
use ppp_packet::OptionList;

/// What we ask for at present.
#[derive(Clone, Copy)]
pub struct IpOurs {
    /// Our address.
    pub local: [u8; 4],
    /// It was rejected: it is asked for no longer.
    pub left_out: bool,
}

// Whether the peer may name our address.
fn takes_address(wish: &IpWish) -> bool
    ensures { result ≡ takes_address wish.now }
{
    is_none(wish.local) || wish.accept_local
}

// The last address among the items, or another.
fn last_address(items: &OptionList, other: [u8; 4]) -> [u8; 4]
    ensures { result ≡ last_address other items.now }
{
    let mut found = other;
    let mut walk = items.iter();
    'finding: while let Some(seen) = walk.next() {
        if let Some(address) = address_of(seen.kind, seen.body) {
            found = address;
        }
    }
    found
}

impl IpOurs {
    /// What the wish asks for.
    pub fn new(wish: &IpWish) -> IpOurs
        ensures { result ≡ ours_of wish.now [] }
    {
        IpOurs {
            local: wish.local,
            left_out: false,
        }
    }

    /// The options of a new request.
    pub fn asks(&self) -> OptionList
        ensures { result ≡ asks self.now }
    {
        let mut list = OptionList::new();
        if !self.left_out {
            list.push(IP_ADDRESS, &self.local);
        }
        list
    }

    /// A Nak of our last request.
    pub fn take_nak(&mut self, wish: &IpWish, items: &OptionList)
        ensures { self.new ≡ after_nak wish.now self.old items.now }
    {
        if takes_address(wish) {
            self.local = last_address(items, self.local);
        }
    }

    /// A Reject of some options of our last request.
    pub fn take_reject(&mut self, items: &OptionList)
        ensures { self.new ≡ after_reject self.old items.now }
    {
        self.left_out = names_kind(items, IP_ADDRESS) || self.left_out;
    }
}
