ghost use Rattle.std.specs.Prelude.{◌≡◌, ◌<◌, OnOk, IfOk, ◌∷◌, []};
ghost use Rattle.ppp_words.specs.Octets.{is_white, is_quote};
ghost use Rattle.ppp_words.specs.Steps.{begun, pushed, behind, outside, in_quote, placed, step, at_end, start};
ghost use Rattle.ppp_words.specs.Reading.{state_of};
ghost use Rattle.ppp_words.specs.Answers.{front_in};

use crate::backslash::Backslash;
use crate::front::WordsFront;
use crate::place::Place;
use crate::word::Word;
use ppp_base::NoMemory;
use std::alloc::Global;

/// What has been read of a text.
#[derive(Drop)]
pub struct Reader {
    alloc: Global,
    backslash: Backslash,
    pub place: Place,
    pub line: usize,
    pub word: Option<Word>,
    pub words: Vec<Word>,
}

// Whether the octet is white space: space, tab, newline, vertical tab, form feed or return.
fn is_white(octet: u8) -> bool
    ensures { result ≡ is_white octet }
{
    octet == b' ' || (9 <= octet && octet <= 13)
}

// Whether the octet is one of the two quotes.
fn is_quote(octet: u8) -> bool
    ensures { result ≡ is_quote octet }
{
    octet == b'\'' || octet == b'"'
}

// The word that has begun, or one that begins on this line.
fn begin(alloc: Global, word: Option<Word>, line: usize) -> Word
    ensures { result ≡ begun word line }
{
    match word {
        Some(word) => word,
        None => Word::new(alloc, line),
    }
}

// The word that has begun, or one that begins on this line, with one more octet.
fn push(alloc: Global, word: Option<Word>, line: usize, octet: u8) -> Result<Option<Word>, NoMemory>
    ensures { IfOk result (λ longer. longer ≡ pushed word line (octet ∷ [])) }
{
    let mut word = begin(alloc, word, line);
    word.push(octet)?;
    Ok(Some(word))
}

// The word behind a backslash: it begins on this line if the backslash stays.
fn behind(
    alloc: Global,
    backslash: Backslash,
    word: Option<Word>,
    line: usize,
) -> Result<Option<Word>, NoMemory>
    ensures { IfOk result (λ longer. longer ≡ behind backslash word line) }
{
    match backslash {
        Backslash::Dropped => Ok(word),
        Backslash::Kept => push(alloc, word, line, b'\\'),
    }
}

impl Reader {
    /// A reader before the first octet.
    pub fn new(alloc: Global, backslash: Backslash) -> Reader
        ensures state { state_of result ≡ start }
        ensures backslash { result.backslash ≡ backslash }
    {
        Reader {
            alloc,
            backslash,
            place: Place::Outside,
            line: 1,
            word: None,
            words: Vec::new(alloc),
        }
    }

    // Takes an octet outside quotes and comments.
    fn take_outside(&mut self, octet: u8) -> Result<(), NoMemory>
        ensures state { OnOk result (state_of self.new ≡ outside self.old.backslash (state_of self.old) octet) }
        ensures backslash { OnOk result (self.new.backslash ≡ self.old.backslash) }
    {
        let word = self.word.take();
        if is_white(octet) {
            if let Some(word) = word {
                self.words.push(word)?;
            }
        } else if is_quote(octet) {
            self.word = Some(begin(self.alloc, word, self.line));
            self.place = Place::Quote(octet, self.line);
        } else if octet == b'\\' {
            self.word = behind(self.alloc, self.backslash, word, self.line)?;
            self.place = Place::Escape;
        } else if octet == b'#' && word.is_none() {
            self.place = Place::Comment;
        } else {
            self.word = push(self.alloc, word, self.line, octet)?;
        }
        Ok(())
    }

    // Takes an octet behind a quote, which began on this line.
    fn take_in_quote(&mut self, quote: u8, begun: usize, octet: u8) -> Result<(), NoMemory>
        ensures state { OnOk result (state_of self.new ≡ in_quote self.old.backslash quote begun (state_of self.old) octet) }
        ensures backslash { OnOk result (self.new.backslash ≡ self.old.backslash) }
    {
        if octet == quote {
            self.place = Place::Outside;
            return Ok(());
        }
        let word = self.word.take();
        if octet == b'\\' {
            self.word = behind(self.alloc, self.backslash, word, self.line)?;
            self.place = Place::QuoteEscape(quote, begun);
        } else {
            self.word = push(self.alloc, word, self.line, octet)?;
        }
        Ok(())
    }

    // Takes an octet behind a backslash.
    fn take_escaped(&mut self, octet: u8, place: Place) -> Result<(), NoMemory>
        ensures state { OnOk result (state_of self.new
            ≡ record (state_of self.old) { place = place; word = pushed self.old.word self.old.line (octet ∷ []) }) }
        ensures backslash { OnOk result (self.new.backslash ≡ self.old.backslash) }
    {
        let word = self.word.take();
        self.word = push(self.alloc, word, self.line, octet)?;
        self.place = place;
        Ok(())
    }

    // Takes an octet in its place.
    fn take_placed(&mut self, octet: u8) -> Result<(), NoMemory>
        ensures state { OnOk result (state_of self.new ≡ placed self.old.backslash self.old.place (state_of self.old) octet) }
        ensures backslash { OnOk result (self.new.backslash ≡ self.old.backslash) }
    {
        match self.place {
            Place::Outside => self.take_outside(octet),
            Place::Escape => self.take_escaped(octet, Place::Outside),
            Place::Comment => {
                if octet == b'\n' {
                    self.place = Place::Outside;
                }
                Ok(())
            }
            Place::Quote(quote, begun) => self.take_in_quote(quote, begun, octet),
            Place::QuoteEscape(quote, begun) => self.take_escaped(
                octet,
                Place::Quote(quote, begun),
            ),
        }
    }

    /// Takes the next octet.
    pub fn take(&mut self, octet: u8) -> Result<(), NoMemory>
        requires { self.old.line < usize.MAX }
        ensures state { OnOk result (state_of self.new ≡ step self.old.backslash (state_of self.old) octet) }
        ensures backslash { OnOk result (self.new.backslash ≡ self.old.backslash) }
    {
        self.take_placed(octet)?;
        if octet == b'\n' {
            self.line += 1;
        }
        Ok(())
    }

    /// The words, at the text's end.
    pub fn finish(self) -> Result<WordsFront, NoMemory>
        ensures { IfOk result (λ front. front_in front ≡ at_end self.place (state_of self)) }
    {
        let mut words = self.words;
        if let Place::Quote(_, line) | Place::QuoteEscape(_, line) = self.place {
            return Ok(WordsFront {
                words,
                open_quote: Some(line),
            });
        }
        if let Some(word) = self.word {
            words.push(word)?;
        }
        Ok(WordsFront {
            words,
            open_quote: None,
        })
    }
}
