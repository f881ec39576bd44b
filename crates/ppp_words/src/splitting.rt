ghost use Rattle.std.specs.Prelude.{◌≡◌, ℕ, List, Result, Ok, Err, IfOk};
ghost use Rattle.ppp_words.specs.PlacedWord.{PlacedWord};
ghost use Rattle.ppp_words.specs.Words.{Reads, ReadsFront, HasWords, HasOpenQuote};
ghost use Rattle.ppp_words.specs.Front.{whole};
ghost use Rattle.ppp_words.specs.Steps.{front_of, words_of};
ghost use Rattle.ppp_words.specs.Answers.{Gives, GivesSome, front_in};

use crate::backslash::Backslash;
use crate::fault::WordsFault;
use crate::front::WordsFront;
use crate::reader::Reader;
use crate::word::Word;
use ppp_base::NoMemory;
use std::alloc::Global;

// The words, one octet after another.
#[tactic(auto, unfolding(crate::specs::Steps::front_of))]
fn read(alloc: Global, text: &[u8], backslash: Backslash) -> Result<WordsFront, NoMemory>
    ensures { IfOk result (λ front. front_in front ≡ front_of backslash text.now) }
{
    let mut reader = Reader::new(alloc, backslash);
    for octet in text {
        reader.take(*octet)?;
    }
    reader.finish()
}

// The words, or the fault where a quote is open.
fn unless_open(front: WordsFront) -> Result<Vec<Word>, WordsFault>
    ensures { Gives result (whole (front_in front)) }
{
    match front.open_quote {
        None => Ok(front.words),
        Some(line) => Err(WordsFault::OpenQuote(line)),
    }
}

// The words, read whole.
#[tactic(auto, using(crate::proofs::ReadLemmas::whole_front))]
fn read_whole(alloc: Global, text: &[u8], backslash: Backslash) -> Result<Vec<Word>, WordsFault>
    ensures { Gives result (words_of backslash text.now) }
{
    let front = read(alloc, text, backslash)?;
    unless_open(front)
}

/// The words of a text up to its end, or those in front of the word with a quote that is open there, and that quote's line.
///
/// The words are those that `words` gives of the text in front of that word.
#[tactic(auto, using(crate::proofs::ReadLemmas::front_read))]
pub fn words_in_front(
    alloc: Global,
    text: &[u8],
    backslash: Backslash,
) -> Result<WordsFront, NoMemory>
    // They are those of the text.
    ensures read { IfOk result (λ front. ReadsFront backslash text.now (front_in front)) }
    // The same, with the reading of the text as a value.
    ensures exact { IfOk result (λ front. front_in front ≡ front_of backslash text.now) }
{
    read(alloc, text, backslash)
}

/// The words of a text in their order, each with its line.
///
/// The text may be a whole file or one of its lines; lines are counted from 1 at the text's beginning. It may hold any
/// octets. Memory is taken for the words and for their octets.
pub fn words(alloc: Global, text: &[u8], backslash: Backslash) -> Result<Vec<Word>, WordsFault>
    // The words are those of the text, and an open quote is one of the text.
    ensures read { GivesSome result (λ read. Reads backslash text.now read) }
    // A text with words has these alone, and no fault but want of memory.
    ensures words { (words : List PlacedWord) → HasWords backslash text.now words → Gives result (Ok words) }
    // A text with an open quote gives no words.
    ensures open_quote { (line : ℕ) → HasOpenQuote backslash text.now line → Gives result (Err line) }
    // The same, with the reading of the text as a value.
    ensures exact { Gives result (words_of backslash text.now) }
{
    read_whole(alloc, text, backslash)
}
