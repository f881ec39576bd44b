ghost use Rattle.std.specs.Prelude.{◌≡◌};
ghost use Rattle.std.specs.List.{find};
ghost use Rattle.ppp_secrets.specs.Allows.{covers, begins_with_none, decided, allowed};

use crate::address_word::{AddressWord, Cover};

// Whether an address word speaks of an address.
fn covers(address: u32, cover: Cover) -> bool
    ensures { result ≡ covers address cover }
{
    match cover {
        Cover::Every => true,
        Cover::Subnet(network, bits) => {
            let others = 32u8.saturating_sub(bits);
            u64::from(address) >> others == u64::from(network) >> others
        }
        Cover::Nothing => false,
    }
}

// Whether the first word is `-`.
fn begins_with_none(words: &[AddressWord]) -> bool
    ensures { result ≡ begins_with_none words.now }
{
    match words {
        [] => false,
        [first, ..] => matches!(first.cover, Cover::Nothing),
    }
}

// The first word that covers an address.
fn first_covering(words: &[AddressWord], address: u32) -> Option<AddressWord>
    ensures { result ≡ find (λ word. covers address word.cover) words.now }
{
    words
        .iter()
        .copied()
        .find(|word| covers(address, word.cover))
}

// What the first word that covers an address says of it.
fn decided(words: &[AddressWord], address: u32) -> bool
    ensures { result ≡ decided (find (λ word. covers address word.cover) words.now) }
{
    match first_covering(words, address) {
        Some(word) => word.allows,
        None => false,
    }
}

// Whether the words of a line allow an address.
pub fn allowed(words: &[AddressWord], address: u32) -> bool
    ensures { result ≡ allowed words.now address }
{
    !begins_with_none(words) && decided(words, address)
}
