ghost use Rattle.std.specs.Prelude.{◌≡◌, ◌≤◌, IfSome};
ghost use Rattle.ppp_base.specs.Numbers.{address_of, number_of, number_within, may_be_number};

use crate::parts::first_part;

/// Whether zeros may stand before a number.
#[derive(Clone, Copy, Debug, PartialEq, Eq)]
pub enum LeadingZeros {
    /// They may, up to 10 digits in all: an operator's words.
    Lawful,
    /// They may not: what a program wrote.
    Refused,
}

/// The number from `least` to `most` that the word is: digits alone, and no sign.
pub fn read_number(word: &[u8], zeros: LeadingZeros, least: u64, most: u64) -> Option<u64>
    ensures value { result ≡ number_of zeros least most word.now }
    ensures within { IfSome result (λ number. (least ≤ number) × (number ≤ most)) }
{
    if !may_be_number(word, zeros) {
        return None;
    }
    number_within(word, least, most)
}

/// The octets of the address `a.b.c.d` that the word is, the most significant first. Each part has at most 10 digits.
#[tactic(auto, using(crate::proofs::PartLemmas::a_fifth_part), unfolding(crate::specs::Numbers::address_of))]
pub fn read_address(word: &[u8]) -> Option<[u8; 4]>
    ensures { result ≡ address_of word.now }
{
    let (a, rest) = first_part(word, b'.');
    let (b, rest) = first_part(rest?, b'.');
    let (c, rest) = first_part(rest?, b'.');
    let (d, rest) = first_part(rest?, b'.');
    if rest.is_some() {
        return None;
    }
    Some([octet(a)?, octet(b)?, octet(c)?, octet(d)?])
}

// The number from 0 to 255 that the word is.
fn octet(word: &[u8]) -> Option<u8>
    ensures { result ≡ number_of LeadingZeros.Lawful 0 255 word.now }
{
    let number = read_number(word, LeadingZeros::Lawful, 0, 255)?;
    Some(number as u8)
}

// Whether the word's digits are as many as a number's, and none of them leads where none may.
fn may_be_number(word: &[u8], zeros: LeadingZeros) -> bool
    ensures { result ≡ may_be_number zeros word.now }
{
    match (zeros, word) {
        (_, []) => false,
        (LeadingZeros::Lawful, [_, others @ ..]) => others.len() <= 9,
        (LeadingZeros::Refused, [_]) => true,
        (LeadingZeros::Refused, [first, _, ..]) => *first != b'0',
    }
}

// The number that the digits spell.
#[tactic(auto, using(crate::proofs::NumberLemmas::digit_goes_on, crate::proofs::NumberLemmas::number_ends, crate::proofs::NumberLemmas::number_is_small))]
fn number_within(digits: &[u8], least: u64, most: u64) -> Option<u64>
    ensures value { result ≡ number_within least most digits.now }
    ensures within { IfSome result (λ number. (least ≤ number) × (number ≤ most)) }
{
    let limit = u128::from(most);
    let mut value = 0u128;
    for digit in digits {
        let digit = *digit;
        if digit < b'0' || b'9' < digit {
            return None;
        }
        value = value * 10 + u128::from(digit - b'0');
        if limit < value {
            return None;
        }
    }
    if value < u128::from(least) {
        return None;
    }
    Some(value as u64)
}
