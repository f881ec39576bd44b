/// Where the next octet stands.
#[derive(Clone, Copy)]
pub enum Place {
    /// Outside quotes and comments.
    Outside,
    /// Behind a backslash outside quotes.
    Escape,
    /// In a comment.
    Comment,
    /// Behind this quote, which began on this line.
    Quote(u8, usize),
    /// Behind a backslash and behind this quote, which began on this line.
    QuoteEscape(u8, usize),
}
