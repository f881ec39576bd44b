ghost use Rattle.std.specs.Prelude.{◌≡◌, ◌≢◌, ℕ, ◌<◌, ◌≤◌, ◌∷◌, length, get_or};
ghost use Rattle.ppp_mark.specs.Lines.{lines_of};

/// Where this octet stands first, or the end of the text.
pub fn place(text: &[u8], octet: u8) -> usize
    ensures within { result ≤ length text.now }
    ensures none { (k : ℕ) → k < result → get_or text.now k 0 ≢ octet }
    ensures found { result < length text.now → get_or text.now result 0 ≡ octet }
{
    for (i, other) in text.iter().enumerate() {
        if *other == octet {
            return i;
        }
    }
    text.len()
}

/// The first line, and what follows it.
pub fn first_line(text: &[u8]) -> (&[u8], &[u8])
    requires { 0 < length text.now }
    ensures lines { lines_of text.now ≡ result.0.now ∷ lines_of result.1.now }
    ensures shorter { length result.1.now < length text.now }
{
    let end = place(text, b'\n');
    if end == text.len() {
        return (text, &[]);
    }
    (&text[..end], &text[end + 1..])
}
