ghost use Rattle.std.specs.Prelude.{◌≡◌, ◌==◌};
ghost use Rattle.ppp_secrets.specs.AddressWords.{network_of, subnet_of, cover_of, address_word_of};

use ppp_base::{LeadingZeros, first_part, read_address, read_number};

/// Which addresses an address word speaks of.
#[derive(Clone, Copy, Debug, PartialEq, Eq)]
pub enum Cover {
    /// `*`: each address.
    Every,
    /// `a.b.c.d/n`: the addresses that have this one's first n bits, of 32 for `a.b.c.d`. The address is a number whose
    /// highest octet is a.
    Subnet(u32, u8),
    /// `-`: no address.
    Nothing,
}

/// A word behind the secret of a line.
#[derive(Clone, Copy, Debug, PartialEq, Eq)]
pub struct AddressWord {
    /// Whether the addresses that it covers are allowed: not where the word begins with `!`, nor where it is `-`.
    pub allows: bool,
    /// Which addresses it covers.
    pub cover: Cover,
}

// The address that the octets are, as a number whose highest octet is the first.
fn network(octets: &[u8]) -> Option<u32>
    ensures { result ≡ network_of octets.now }
{
    Some(u32::from_be_bytes(read_address(octets)?))
}

// The subnet that the octets are.
#[tactic(auto, using(crate::proofs::PartLemmas::a_third_part), unfolding(crate::specs::AddressWords::subnet_of))]
fn subnet(octets: &[u8]) -> Option<Cover>
    ensures { result ≡ subnet_of octets.now }
{
    let (address, rest) = first_part(octets, b'/');
    let Some(rest) = rest else {
        return Some(Cover::Subnet(network(address)?, 32));
    };
    let (bits, rest) = first_part(rest, b'/');
    if rest.is_some() {
        return None;
    }
    let network = network(address)?;
    let bits = read_number(bits, LeadingZeros::Lawful, 0, 32)?;
    Some(Cover::Subnet(network, bits as u8))
}

// `*`, or the subnet that the octets are.
fn star_or_subnet(octets: &[u8]) -> Option<Cover>
    ensures { result ≡ cover_of octets.now }
{
    if octets == b"*".as_slice() {
        return Some(Cover::Every);
    }
    subnet(octets)
}

// The address word that the octets are, if they are one.
#[tactic(auto, unfolding(crate::specs::AddressWords::address_word_of))]
pub fn read_word(octets: &[u8]) -> Option<AddressWord>
    ensures { result ≡ address_word_of octets.now }
{
    if octets == b"-".as_slice() {
        return Some(AddressWord {
            allows: false,
            cover: Cover::Nothing,
        });
    }
    match octets {
        [] => None,
        [b'!', rest @ ..] => {
            let cover = star_or_subnet(rest)?;
            Some(AddressWord {
                allows: false,
                cover,
            })
        }
        [_, ..] => {
            let cover = star_or_subnet(octets)?;
            Some(AddressWord {
                allows: true,
                cover,
            })
        }
    }
}
