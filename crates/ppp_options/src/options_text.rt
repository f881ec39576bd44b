ghost use Rattle.std.specs.Prelude.{◌≡◌, ℕ, Some, []};
ghost use Rattle.ppp_chat_words.specs.Split.{octets_in, split_front};
ghost use Rattle.ppp_option_words.specs.Answers.{Gives};
ghost use Rattle.ppp_options.specs.FileRead.{quote_of};
ghost use Rattle.ppp_options.specs.OptionsText.{OptionsOf, front_taken};
ghost use Rattle.ppp_options.specs.Steps.{read_from};
ghost use Rattle.ppp_words.specs.declared.backslash.Backslash.TheVariants.{Dropped};

use crate::file_words::{OpenQuote, no_open_quote};
use crate::given::Given;
use crate::placing::{MOST_DEPTH, place_words};
use crate::read::end;
use ppp_chat_words::split_front;
use ppp_option_words::{Config, FaultWord, OptionsFault};
use ppp_outside::{Files, WholeFile};
use ppp_words::Backslash;
use std::alloc::Global;

// No files at all.
#[derive(Drop)]
struct NoFiles {}

impl Files for NoFiles {
    ghost use Rattle.std.specs.Prelude.{Some, []};

    ghost state = { λ s. record { files = Some []; faults = 0 } };

    fn whole(&mut self, _alloc: Global, _name: &str) -> WholeFile {
        WholeFile::NoFile
    }
}

// Takes words in order, over no files.
#[tactic(auto, using(crate::proofs::TextLemmas::over_none))]
fn place_alone(alloc: Global, given: &mut Given, words: &[Vec<u8>]) -> Result<(), OptionsFault>
    ensures { Gives (λ _. given.new) result (read_from [] 8 given.old (octets_in words.now)) }
{
    let mut none = NoFiles {};
    place_words(alloc, &mut none, given, words, MOST_DEPTH)
}

// The quote that is open in a text without a name.
fn quote_of(alloc: Global, line: Option<usize>) -> Option<OpenQuote>
    ensures { result ≡ quote_of [] line }
{
    match line {
        Some(line) => Some(OpenQuote {
            name: FaultWord::new(Vec::new(alloc)),
            line,
        }),
        None => None,
    }
}

// Takes the words of a text, over no files.
fn take_text(alloc: Global, given: &mut Given, text: &[u8]) -> Result<(), OptionsFault>
    ensures { Gives (λ _. given.new) result (front_taken given.old (split_front Dropped text.now)) }
{
    let (words, line) = split_front(alloc, text, Backslash::Dropped)?;
    place_alone(alloc, given, words.as_slice())?;
    no_open_quote(quote_of(alloc, line))
}

/// What the text of an options file is where there are no files, also not the text itself: a configuration, or the first
/// fault. Secrets files are not looked at.
pub fn read_options_text(alloc: Global, text: &[u8]) -> Result<Config, OptionsFault>
    ensures { Gives (λ config. config) result (OptionsOf text.now) }
{
    let mut given = Given::new(alloc);
    take_text(alloc, &mut given, text)?;
    end(alloc, &given)
}
