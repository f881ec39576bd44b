ghost use Rattle.std.specs.Prelude.{◌≡◌, ◌++◌, List, ℕ, IfOk, length, map};
ghost use Rattle.ppp_chat_words.specs.Split.{Gives, octets_in, split_front, split_words};
ghost use Rattle.ppp_words.specs.PlacedWord.{PlacedWord};

use ppp_base::NoMemory;
use ppp_words::{Backslash, Word, WordsFault, words, words_in_front};
use std::alloc::Global;

// The octets of the words, taken out of them.
fn octets_of(alloc: Global, words: Vec<Word>) -> Result<Vec<Vec<u8>>, NoMemory>
    ensures { IfOk result (λ octets. octets_in octets.items ≡ map (λ (word : PlacedWord). word.octets) words.items) }
{
    let mut octets = Vec::new(alloc);
    for word in words {
        octets.push(word.into_octets())?;
    }
    Ok(octets)
}

/// The words of a text, each as the octets that it stands for, without their lines. Memory is taken for the words and for
/// their octets.
pub fn split(alloc: Global, text: &[u8], backslash: Backslash) -> Result<Vec<Vec<u8>>, WordsFault>
    ensures { Gives result (split_words backslash text.now) }
{
    let words = words(alloc, text, backslash)?;
    Ok(octets_of(alloc, words)?)
}

/// The same words, or those in front of the word with a quote that is open at the text's end, and the line on which that
/// quote begins.
pub fn split_front(
    alloc: Global,
    text: &[u8],
    backslash: Backslash,
) -> Result<(Vec<Vec<u8>>, Option<usize>), NoMemory>
    ensures { IfOk result (λ front. split_front backslash text.now ≡ record { words = octets_in front.0.items; open_quote = front.1 }) }
{
    let front = words_in_front(alloc, text, backslash)?;
    let words = octets_of(alloc, front.words)?;
    Ok((words, front.open_quote))
}
