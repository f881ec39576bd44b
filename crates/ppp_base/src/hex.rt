ghost use Rattle.std.specs.Prelude.{◌≡◌, ◌+◌, ◌*◌, ◌<◌, ◌≤◌, ◌↔◌, length, IsTrue, MatchOption};
ghost use Rattle.std.specs.Bool.{OnTrue, OnFalse};
ghost use Rattle.std.specs.Char.{digit_value};
ghost use Rattle.ppp_base.specs.Hex.{IsHexText, IsHexOf, hex_number_of, lower_digit};

use crate::octets::{Datagram, MOST_DATAGRAM};

/// Reads hexadecimal digits of either case, two for each octet. After false `out` is unchanged.
pub fn read_hex(text: &[u8], out: &mut Datagram) -> bool
    ensures readable { IsTrue result ↔ (IsHexText text.now × (length text.now ≤ 2 * MOST_DATAGRAM)) }
    ensures octets { OnTrue result (IsHexOf text.now out.new) }
    ensures unchanged { OnFalse result (out.new ≡ out.old) }
{
    if !text.len().is_multiple_of(2) || 2 * MOST_DATAGRAM < text.len() {
        return false;
    }
    let mut octets = Datagram::new();
    'reading: for i in 0..text.len() / 2 {
        match octet_of(text[2 * i], text[2 * i + 1]) {
            Some(octet) => octets.push(octet),
            None => return false,
        }
    }
    *out = octets;
    true
}

/// The number that 1 to 8 hexadecimal digits of either case are.
pub fn read_hex_number(word: &[u8]) -> Option<u32>
    ensures { result ≡ hex_number_of word.now }
{
    if word.is_empty() || 8 < word.len() {
        return None;
    }
    let mut value = 0u64;
    for digit in word {
        let digit = char::from(*digit).to_digit(16)?;
        value = value * 16 + u64::from(digit);
    }
    Some(value as u32)
}

// The octet of two digits.
fn octet_of(high: u8, low: u8) -> Option<u8>
    ensures { MatchOption result (digit_value high < 16 → digit_value low < 16 → ⊥) (λ octet. (digit_value high < 16) × (digit_value low < 16) × (octet ≡ 16 * digit_value high + digit_value low)) }
{
    match (char::from(high).to_digit(16), char::from(low).to_digit(16)) {
        (Some(high), Some(low)) => Some((16 * high + low) as u8),
        _ => None,
    }
}

/// The lower-case digit of a value below 16.
pub fn hex_digit(value: u8) -> u8
    requires { value < 16 }
    ensures { result ≡ lower_digit value }
{
    if value < 10 {
        b'0' + value
    } else {
        b'a' + (value - 10)
    }
}
