ghost use Rattle.std.specs.Prelude.{◌≡◌, ◌+◌, ◌<◌, ◌≤◌, ℕ, List, ◌∷◌, ◌++◌, IfSome, MatchOption, length, slice_index, take, true, false};
ghost use Rattle.std.specs.Fmt.{decimal};
ghost use Rattle.ppp_base.specs.Numbers.{is_digit, may_be_number, value_behind};
ghost use Rattle.ppp_base.specs.declared.numbers.LeadingZeros.TheVariants.{Refused};
ghost use Rattle.ppp_report.specs.Text.{After, HasNoDigit};

use ppp_base::{LeadingZeros, read_number};

// The value of so many digits fits in any case.
const SURE_DIGITS: usize = 19;

// How many digits the text begins with.
fn digits(text: &[u8]) -> usize
    ensures within { result ≤ length text.now }
    ensures digits { (k : ℕ) → k < result → is_digit (slice_index text.now k) ≡ true }
    ensures end { result < length text.now → is_digit (slice_index text.now result) ≡ false }
{
    for (i, octet) in text.iter().enumerate() {
        if *octet < b'0' || b'9' < *octet {
            return i;
        }
    }
    text.len()
}

// Whether digits have no leading zeros, and are some.
fn may_be_number(digits: &[u8]) -> bool
    ensures { result ≡ may_be_number Refused digits.now }
{
    match digits {
        [] => false,
        [_] => true,
        [first, ..] => *first != b'0',
    }
}

// How many digits the text begins with, and the value that they spell. None where it may not fit on the way.
fn front(text: &[u8]) -> Option<(usize, u64)>
    ensures within { IfSome result (λ r. r.0 ≤ length text.now) }
    ensures digits { IfSome result (λ r. (k : ℕ) → k < r.0 → is_digit (slice_index text.now k) ≡ true) }
    ensures end { IfSome result (λ r. r.0 < length text.now → is_digit (slice_index text.now r.0) ≡ false) }
    ensures value { IfSome result (λ r. r.1 ≡ value_behind 0 (take r.0 text.now)) }
{
    let most = text.len().min(SURE_DIGITS);
    let mut value = 0u64;
    for (i, octet) in text[..most].iter().enumerate() {
        if *octet < b'0' || b'9' < *octet {
            return Some((i, value));
        }
        value = value * 10 + u64::from(*octet - b'0');
    }
    if most < text.len() {
        return None;
    }
    Some((most, value))
}

// As `number`, in any case.
fn any_number(text: &[u8], most: u64) -> Option<(u64, &[u8])>
    ensures sound { IfSome result (λ r. (r.0 ≤ most) × (text.now ≡ decimal r.0 ++ r.1.now)) }
    ensures found { (n : ℕ) (rest : List ℕ) → n ≤ most → HasNoDigit rest → text.now ≡ decimal n ++ rest
        → MatchOption result ⊥ (λ r. (r.0 ≡ n) × (r.1.now ≡ rest)) }
{
    let end = digits(text);
    let Some(value) = read_number(&text[..end], LeadingZeros::Refused, 0, most) else {
        return None;
    };
    Some((value, &text[end..]))
}

/// The number that the text begins with, and what follows it. It has no leading zeros, and no digit follows it.
pub fn number(text: &[u8], most: u64) -> Option<(u64, &[u8])>
    ensures sound { IfSome result (λ r. (r.0 ≤ most) × (text.now ≡ decimal r.0 ++ r.1.now)) }
    ensures found { (n : ℕ) (rest : List ℕ) → n ≤ most → HasNoDigit rest → text.now ≡ decimal n ++ rest
        → MatchOption result ⊥ (λ r. (r.0 ≡ n) × (r.1.now ≡ rest)) }
{
    let Some((end, value)) = front(text) else {
        return any_number(text, most);
    };
    if most < value || !may_be_number(&text[..end]) {
        return None;
    }
    Some((value, &text[end..]))
}

// What a digit spells, and what follows.
fn one_digit(digit: u8, rest: &[u8]) -> Option<(u64, &[u8])>
    ensures digit { IfSome result (λ r. (r.0 < 10) × (digit ≡ 48 + r.0) × (r.1.now ≡ rest.now)) }
    ensures none { (n : ℕ) → n < 10 → digit ≡ 48 + n → MatchOption result ⊥ (λ r. (r.0 ≡ n) × (r.1.now ≡ rest.now)) }
{
    if digit < b'0' || b'9' < digit {
        return None;
    }
    Some((u64::from(digit - b'0'), rest))
}

/// The number that the text begins with, where a space follows, and what follows that. Most numbers are one digit.
pub fn number_then(text: &[u8], most: u64) -> Option<(u64, &[u8])>
    requires { 9 ≤ most }
    ensures sound { IfSome result (λ r. (r.0 ≤ most) × (text.now ≡ decimal r.0 ++ 32 ∷ r.1.now)) }
    ensures found { (n : ℕ) (rest : List ℕ) → n ≤ most → text.now ≡ decimal n ++ 32 ∷ rest → MatchOption result ⊥ (λ r. (r.0 ≡ n) × (r.1.now ≡ rest)) }
{
    if let [digit, space, rest @ ..] = text {
        if *space == b' ' {
            return one_digit(*digit, rest);
        }
    }
    let (value, left) = number(text, most)?;
    let rest = left.strip_prefix(b" ")?;
    Some((value, rest))
}

/// The number that the text begins with, where its line ends behind it, and what follows the line.
pub fn last_number(text: &[u8], most: u64) -> Option<(u64, &[u8])>
    ensures sound { IfSome result (λ r. (r.0 ≤ most) × ((after : List ℕ) × (text.now ≡ decimal r.0 ++ after) × After after r.1.now)) }
    ensures found { (n : ℕ) (after rest : List ℕ) → n ≤ most → After after rest → text.now ≡ decimal n ++ after
        → MatchOption result ⊥ (λ r. (r.0 ≡ n) × (r.1.now ≡ rest)) }
{
    let (value, left) = number(text, most)?;
    let Some(rest) = line_end(left) else {
        return None;
    };
    Some((value, rest))
}

// What follows where a line ends here: behind a newline, or at the text's end.
fn line_end(text: &[u8]) -> Option<&[u8]>
    ensures sound { IfSome result (λ rest. After text.now rest.now) }
    ensures found { (rest : List ℕ) → After text.now rest → MatchOption result ⊥ (λ r. r.now ≡ rest) }
{
    match text {
        [] => Some(text),
        [b'\n', rest @ ..] => Some(rest),
        _ => None,
    }
}
