ghost use Rattle.std.specs.Prelude.{◌≡◌, ◌==◌, List, ℕ, Option, option_map, length};
ghost use Rattle.std.specs.List.{list_all};
ghost use Rattle.ppp_base.specs.Numbers.{is_digit};
ghost use Rattle.ppp_option_words.specs.Answers.{Gives};
ghost use Rattle.ppp_option_words.specs.Values.{addresses_of, asyncmap_item, both_sides, endpoint_item, is_speed, number_item, other_item, pairs_of, pty_item, side_of, text_item};
ghost use Rattle.ppp_option_words.specs.PairsRead.{PairsGive};

use crate::fault::OptionsFault;
use crate::fault_word::FaultWord;
use crate::item::{Item, Numbered};
use crate::number::{Number, least, most};
use crate::text::Text;
use ppp_base::{
    Disc, LeadingZeros, Name, NoMemory, Octets, first_part, read_address, read_hex_number,
    read_number,
};
use std::alloc::Global;

// The greatest number of 10 digits.
const MOST_DIGITS: u64 = 9_999_999_999;

// The class of `endpoint`: a number of the operator's own (RFC 1990, section 5.1.3).
const LOCAL_CLASS: u8 = 1;

/// The number behind a word.
pub fn number_item(alloc: Global, word: Number, value: &[u8]) -> Result<Item, OptionsFault>
    ensures { Gives (λ item. item) result (number_item word value.now) }
{
    let Some(number) = read_number(value, LeadingZeros::Lawful, 0, MOST_DIGITS) else {
        return Err(OptionsFault::BadNumber(FaultWord::copied(alloc, value)?));
    };
    if number < u64::from(least(word)) || u64::from(most(word)) < number {
        return Err(OptionsFault::OutOfRange(FaultWord::copied(alloc, value)?));
    }
    Ok(Item::Number(Numbered::new(word, number as u32)))
}

/// The text behind a word.
pub fn text_item(alloc: Global, word: Text, value: &[u8]) -> Result<Item, OptionsFault>
    ensures { Gives (λ item. item) result (text_item word value.now) }
{
    match Name::from_octets(value) {
        Some(text) => Ok(Item::Text(word, text)),
        None => Err(OptionsFault::OutOfRange(FaultWord::copied(alloc, value)?)),
    }
}

/// The command of `pty`.
pub fn pty_item(alloc: Global, value: &[u8]) -> Result<Item, OptionsFault>
    ensures { Gives (λ item. item) result (pty_item value.now) }
{
    match Octets::<512>::from_octets(value) {
        Some(command) => Ok(Item::Pty(command)),
        None => Err(OptionsFault::OutOfRange(FaultWord::copied(alloc, value)?)),
    }
}

/// The map of `asyncmap`.
pub fn asyncmap_item(alloc: Global, value: &[u8]) -> Result<Item, OptionsFault>
    ensures { Gives (λ item. item) result (asyncmap_item value.now) }
{
    match read_hex_number(value) {
        Some(map) => Ok(Item::Asyncmap(map)),
        None => Err(OptionsFault::BadNumber(FaultWord::copied(alloc, value)?)),
    }
}

// The octets that pairs of hexadecimal digits are.
#[tactic(auto, using(crate::proofs::PairLemmas::pairs_go_on, crate::proofs::PairLemmas::two_digits))]
fn pairs(alloc: Global, digits: &[u8]) -> Result<Option<Vec<u8>>, NoMemory>
    ensures { PairsGive result (pairs_of digits.now) }
{
    let mut octets = Vec::new(alloc);
    let mut left = digits;
    'reading: while let [high, low, others @ ..] = left {
        let Some(octet) = read_hex_number(&[*high, *low]) else {
            return Ok(None);
        };
        octets.push(octet as u8)?;
        left = others;
    }
    match left {
        [] => Ok(Some(octets)),
        [_, ..] => Ok(None),
    }
}

/// The discriminator of `endpoint`.
pub fn endpoint_item(alloc: Global, value: &[u8]) -> Result<Item, OptionsFault>
    ensures { Gives (λ item. item) result (endpoint_item value.now) }
{
    let Some(octets) = pairs(alloc, value)? else {
        return Err(OptionsFault::BadNumber(FaultWord::copied(alloc, value)?));
    };
    if octets.is_empty() {
        return Err(OptionsFault::OutOfRange(FaultWord::copied(alloc, value)?));
    }
    match Disc::new(LOCAL_CLASS, octets.as_slice()) {
        Some(disc) => Ok(Item::Endpoint(disc)),
        None => Err(OptionsFault::OutOfRange(FaultWord::copied(alloc, value)?)),
    }
}

// An address of `A:B`, or nothing. None: it is neither.
fn side(word: &[u8]) -> Option<Option<[u8; 4]>>
    ensures { result ≡ side_of word.now }
{
    if word.is_empty() {
        return Some(None);
    }
    Some(Some(read_address(word)?))
}

// Both addresses of `A:B`. None: there are none.
fn both_sides(ours: Option<[u8; 4]>, theirs: Option<[u8; 4]>) -> Option<Item>
    ensures { result ≡ both_sides (Some ours) (Some theirs) }
{
    match (ours, theirs) {
        (None, None) => None,
        (None, Some(_)) => Some(Item::Addresses([0, 0, 0, 0], theirs)),
        (Some(ours), _) => Some(Item::Addresses(ours, theirs)),
    }
}

// `A:B`, if the word is it.
#[tactic(auto, using(crate::proofs::SidesLemmas::a_third_part), unfolding(crate::specs::Values::addresses_of))]
fn addresses(word: &[u8]) -> Option<Item>
    ensures { result ≡ addresses_of word.now }
{
    let (ours, rest) = first_part(word, b':');
    let (theirs, rest) = first_part(rest?, b':');
    if rest.is_some() {
        return None;
    }
    both_sides(side(ours)?, side(theirs)?)
}

// Whether each octet is a digit.
fn are_digits(word: &[u8]) -> bool
    ensures { result ≡ list_all is_digit word.now }
{
    word.iter().all(|octet| b'0' <= *octet && *octet <= b'9')
}

// Whether a word is a speed: digits alone.
fn is_speed(word: &[u8]) -> bool
    ensures { result ≡ is_speed word.now }
{
    if word.is_empty() {
        return false;
    }
    are_digits(word)
}

/// A word that isn't in the table.
pub fn other_item(alloc: Global, word: &[u8]) -> Result<Item, OptionsFault>
    ensures { Gives (λ item. item) result (other_item word.now) }
{
    if is_speed(word) {
        return Ok(Item::Ignored);
    }
    match addresses(word) {
        Some(addresses) => Ok(addresses),
        None => Err(OptionsFault::Unknown(FaultWord::copied(alloc, word)?)),
    }
}
