use crate::word::Word;

/// What a text has up to its end, or up to a quote that is open there.
#[derive(Drop)]
pub struct WordsFront {
    /// The words in their order: all of them, or those in front of the word with the open quote.
    pub words: Vec<Word>,
    /// The line on which the open quote begins, counted from 1, where a quote is open at the text's end.
    pub open_quote: Option<usize>,
}
