ghost use Rattle.std.specs.Prelude.{◌≡◌, ◌+◌, ◌-◌, ◌≤◌, ◌∷◌, Bool, nat_le, if◌then◌else◌, length, IfSome, Some, None};
ghost use Rattle.ppp_chat.specs.Pieces.{behind_backslash, behind_caret, first_piece, is_control, is_octal, octet_of, octal_digits, octal_spelled};

/// What an octet or an escape of a word stands for (chat(8), "Escape sequences").
#[derive(Clone, Copy)]
pub(crate) enum Piece {
    /// An octet.
    Octet(u8),
    /// A delay of so many milliseconds in a send.
    Delay(u16),
    /// No return, at the end of a send.
    NoReturn,
    /// Nothing.
    Nothing,
}

/// A piece, and how many octets behind the first spell it.
#[derive(Clone, Copy)]
pub(crate) struct Spelled {
    pub piece: Piece,
    pub more: usize,
}

impl Piece {
    /// The octet, if it is one.
    pub fn octet(self) -> Option<u8>
        ensures { result ≡ octet_of self }
    {
        match self {
            Piece::Octet(octet) => Some(octet),
            Piece::Delay(_) | Piece::NoReturn | Piece::Nothing => None,
        }
    }
}

// Whether the octet is a digit of base 8.
fn is_octal(octet: u8) -> bool
    ensures { result ≡ is_octal octet }
{
    b'0' <= octet && octet <= b'7'
}

// Whether the octet may stand behind a `^`.
fn is_control(octet: u8) -> bool
    ensures { result ≡ is_control octet }
{
    (b'@' <= octet && octet <= b'_') || (b'a' <= octet && octet <= b'z')
}

// The value of a digit of base 8.
fn digit(octet: u8) -> u16
    requires { is_octal octet ≡ Bool.true }
    ensures value { result ≡ octet - 48 }
    ensures within { result ≤ 7 }
{
    u16::from(octet - b'0')
}

// The octet of a number that so many digits spell.
fn octet_spelled(number: u16, more: usize) -> Option<Spelled>
    ensures value { result ≡ (if nat_le number 0xff then Some (record { piece = Piece.Octet number; more = more }) else None) }
    ensures more { IfSome result (λ spelled. spelled.more ≡ more) }
{
    if number > 0xff {
        return None;
    }
    Some(Spelled {
        piece: Piece::Octet(number as u8),
        more,
    })
}

// What a digit of base 8, and those behind it up to three, stand for.
fn octal(first: u8, others: &[u8]) -> Option<Spelled>
    requires { is_octal first ≡ Bool.true }
    ensures value { result ≡ octal_spelled (octal_digits (first ∷ others.now)) }
    ensures within { IfSome result (λ spelled. spelled.more ≤ length others.now + 1) }
{
    let number = digit(first);
    let [second, others @ ..] = others else {
        return octet_spelled(number, 1);
    };
    if !is_octal(*second) {
        return octet_spelled(number, 1);
    }
    let number = number * 8 + digit(*second);
    let [third, ..] = others else {
        return octet_spelled(number, 2);
    };
    if !is_octal(*third) {
        return octet_spelled(number, 2);
    }
    octet_spelled(number * 8 + digit(*third), 3)
}

// A piece that one octet behind the first spells.
fn two(piece: Piece) -> Option<Spelled>
    ensures { result ≡ Some (record { piece = piece; more = 1 }) }
{
    Some(Spelled { piece, more: 1 })
}

// What stands behind a backslash.
fn behind_backslash(octets: &[u8]) -> Option<Spelled>
    ensures value { result ≡ behind_backslash octets.now }
    ensures within { IfSome result (λ spelled. spelled.more ≤ length octets.now) }
{
    let [octet, others @ ..] = octets else {
        return None;
    };
    if is_octal(*octet) {
        return octal(*octet, others);
    }
    match *octet {
        b'b' => two(Piece::Octet(0x08)),
        b'n' => two(Piece::Octet(0x0a)),
        b'r' => two(Piece::Octet(0x0d)),
        b's' => two(Piece::Octet(0x20)),
        b't' => two(Piece::Octet(0x09)),
        b'\\' => two(Piece::Octet(0x5c)),
        b'N' => two(Piece::Octet(0x00)),
        b'd' => two(Piece::Delay(1000)),
        b'p' => two(Piece::Delay(100)),
        b'c' => two(Piece::NoReturn),
        b'q' => two(Piece::Nothing),
        _ => None,
    }
}

// What stands behind a `^`.
fn behind_caret(octets: &[u8]) -> Option<Spelled>
    ensures value { result ≡ behind_caret octets.now }
    ensures within { IfSome result (λ spelled. spelled.more ≤ length octets.now) }
{
    match octets {
        [octet, ..] if is_control(*octet) => two(Piece::Octet(*octet & 0x1f)),
        _ => None,
    }
}

// The piece that an octet begins, before these others.
pub(crate) fn first_piece(octet: u8, others: &[u8]) -> Option<Spelled>
    ensures value { result ≡ first_piece octet others.now }
    ensures within { IfSome result (λ spelled. spelled.more ≤ length others.now) }
{
    match octet {
        b'\\' => behind_backslash(others),
        b'^' => behind_caret(others),
        _ => Some(Spelled {
            piece: Piece::Octet(octet),
            more: 0,
        }),
    }
}
