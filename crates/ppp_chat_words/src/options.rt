ghost use Rattle.std.specs.Prelude.{◌≡◌, ◌+◌, ◌<◌, ◌≤◌, [], ◌∷◌, ℕ, List, None, Some, true, false, IfSome, length};
ghost use Rattle.std.specs.Bool.{OnTrue, OnFalse};
ghost use Rattle.std.specs.Option.{option_map};
ghost use Rattle.ppp_base.specs.Numbers.{number_of};
ghost use Rattle.ppp_chat_words.specs.Front.{begins_with_hyphen, may_stand, front};
ghost use Rattle.ppp_chat_words.specs.Split.{octets_in};
ghost use Rattle.ppp_chat_words.specs.Told.{told, told_by, setting_of, unsaid};
ghost use Rattle.ppp_chat_words.specs.Walk.{result_from};

use crate::keyword::{Keyword, keyword_of};
use ppp_base::{LeadingZeros, MOST_NAME, read_number};

/// After so many seconds an expect is late where no word says others.
pub const DEFAULT_TIMEOUT: u16 = 45;

/// What the words behind chat's name say, up to its script. Places are those of words, counted from 0.
#[derive(Clone, Copy, Debug, PartialEq, Eq)]
pub struct ChatWords {
    /// After so many seconds an expect is late: the last `-t`, 1 to 65535, or 45.
    pub timeout_s: u16,
    /// The place of the value of `-f`, where there is one.
    pub file: Option<usize>,
    /// The place of the value of `-L`, where there is one. It has at most 255 octets.
    pub line: Option<usize>,
    /// The place of the script's first word; the number of words where there is none.
    pub script: usize,
    /// The place of the first word that is wrong, where there is one. What is wrong with an option's value is told at the option.
    pub wrong: Option<usize>,
}

// The words that have been looked at.
#[derive(Drop)]
struct Walk {
    dials: bool,
    told: ChatWords,
    waits: Option<(Keyword, usize)>,
}

fn begins_with_hyphen(word: &[u8]) -> bool
    ensures { result ≡ begins_with_hyphen word.now }
{
    word.first() == Some(&b'-')
}

impl Walk {
    // Whether this option may stand here.
    fn may_stand(&self, keyword: Keyword) -> bool
        ensures { result ≡ may_stand (setting_of self.now.dials self.now.told) keyword }
    {
        match keyword {
            Keyword::Quiet | Keyword::Timeout => true,
            Keyword::File => self.told.file.is_none(),
            Keyword::Line => self.dials && self.told.line.is_none(),
        }
    }

    // Ends at this place, at a word that is wrong.
    fn end_wrong(&mut self, place: usize) -> bool
        ensures ends { result ≡ false }
        ensures told { self.new.told ≡ record self.old.told { script = place; wrong = Some place } }
    {
        self.told.script = place;
        self.told.wrong = Some(place);
        false
    }

    // Takes a word where no value is looked for. False: it ends the front.
    fn take_word(&mut self, word: &[u8], place: usize) -> bool
        requires fresh { (self.old.waits ≡ None) × (self.old.told.wrong ≡ None) }
        ensures goes { OnTrue result ((left : List (List ℕ)) → result_from self.old place (word.now ∷ left) ≡ result_from self.new (place + 1) left) }
        ensures ends { OnFalse result ((left : List (List ℕ)) → result_from self.old place (word.now ∷ left) ≡ self.new.told) }
        ensures right { OnTrue result (self.new.told.wrong ≡ None) }
    {
        if !begins_with_hyphen(word) {
            if self.told.file.is_some() {
                return self.end_wrong(place);
            }
            self.told.script = place;
            return false;
        }
        let Some(keyword) = keyword_of(word) else {
            return self.end_wrong(place);
        };
        if !self.may_stand(keyword) {
            return self.end_wrong(place);
        }
        match keyword {
            Keyword::Quiet => {}
            _ => self.waits = Some((keyword, place)),
        }
        true
    }

    // Takes the value of an option, which stands at a place. False: it is wrong.
    fn take_value(&mut self, keyword: Keyword, at: usize, word: &[u8], place: usize) -> bool
        requires waits { self.old.waits ≡ Some (record { 0 = keyword; 1 = at }) }
        requires right { self.old.told.wrong ≡ None }
        ensures goes { OnTrue result ((left : List (List ℕ)) → result_from self.old place (word.now ∷ left) ≡ result_from self.new (place + 1) left) }
        ensures ends { OnFalse result ((left : List (List ℕ)) → result_from self.old place (word.now ∷ left) ≡ self.new.told) }
        ensures right { OnTrue result (self.new.told.wrong ≡ None) }
    {
        self.waits = None;
        match keyword {
            Keyword::Quiet => {}
            Keyword::Timeout => match read_number(word, LeadingZeros::Lawful, 1, 65535) {
                Some(seconds) => self.told.timeout_s = seconds as u16,
                None => return self.end_wrong(at),
            },
            Keyword::File => self.told.file = Some(place),
            Keyword::Line => {
                if MOST_NAME < word.len() {
                    return self.end_wrong(at);
                }
                self.told.line = Some(place);
            }
        }
        true
    }

    // Takes the next word, which stands at this place. False: it ends the front.
    fn take(&mut self, word: &[u8], place: usize) -> bool
        requires { self.old.told.wrong ≡ None }
        ensures goes { OnTrue result ((left : List (List ℕ)) → result_from self.old place (word.now ∷ left) ≡ result_from self.new (place + 1) left) }
        ensures ends { OnFalse result ((left : List (List ℕ)) → result_from self.old place (word.now ∷ left) ≡ self.new.told) }
        ensures right { OnTrue result (self.new.told.wrong ≡ None) }
    {
        match self.waits {
            None => self.take_word(word, place),
            Some((keyword, at)) => self.take_value(keyword, at, word, place),
        }
    }

    // What is told where no word is left. So many there were.
    fn finish(mut self, count: usize) -> ChatWords
        requires { self.told.wrong ≡ None }
        ensures { result ≡ result_from self count [] }
    {
        match self.waits {
            None => self.told.script = count,
            Some((_, at)) => {
                let _ = self.end_wrong(at);
            }
        }
        self.told
    }
}

/// What the words behind chat's name say, up to its script. `dials` is whether `-L` may stand among them.
///
/// `-v`, `-V`, `-s` and `-S` are without effect, `-t` sets the timeout, `-f` names the script's file and `-L` what is
/// dialled. The script begins at the first word that is no value of these and doesn't begin with `-`; beside `-f` that
/// word is wrong.
pub fn chat_words(words: &[Vec<u8>], dials: bool) -> ChatWords
    ensures { result ≡ told dials (octets_in words.now) }
{
    let mut walk = Walk {
        dials,
        told: ChatWords {
            timeout_s: DEFAULT_TIMEOUT,
            file: None,
            line: None,
            script: 0,
            wrong: None,
        },
        waits: None,
    };
    for (place, word) in words.iter().enumerate() {
        if !walk.take(word.as_slice(), place) {
            return walk.told;
        }
    }
    walk.finish(words.len())
}
