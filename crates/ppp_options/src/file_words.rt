ghost use Rattle.std.specs.Prelude.{List, ℕ};
ghost use Rattle.ppp_chat_words.specs.Split.{octets_in};
ghost use Rattle.ppp_option_words.specs.Answers.{Gives, ReadsWith};
ghost use Rattle.ppp_options.specs.GivenValue.{GivenValue};
ghost use Rattle.ppp_options.specs.FileRead.{FollowsRead, file_read, file_words, text_of, unless_open};

use ppp_chat_words::{FileWords, read_words};
use ppp_option_words::{FaultWord, OptionsFault};
use ppp_outside::Files;
use ppp_words::Backslash;
use std::alloc::Global;

/// A quote that is open at the end of the file of this name.
#[derive(Drop)]
pub(crate) struct OpenQuote {
    pub name: FaultWord,
    /// The line on which it begins, counted from 1.
    pub line: usize,
}

/// The words of a file: all of them, or those in front of the word with an open quote.
#[derive(Drop)]
pub(crate) struct FileText {
    pub words: Vec<Vec<u8>>,
    pub open_quote: Option<OpenQuote>,
}

// What was read of a file of this name, or the fault. It takes no memory.
fn text_or_fault(name: FaultWord, read: FileWords) -> Result<FileText, OptionsFault>
    ensures { FollowsRead name read result }
{
    match read {
        FileWords::Words(words) => Ok(FileText {
            words,
            open_quote: None,
        }),
        FileWords::OpenQuote(words, line) => Ok(FileText {
            words,
            open_quote: Some(OpenQuote { name, line }),
        }),
        FileWords::NoFile => Err(OptionsFault::NoFile(name)),
        FileWords::Failed => Err(OptionsFault::FileFault(name)),
        FileWords::NoMemory => Err(OptionsFault::NoMemory),
    }
}

// The file of this name.
pub(crate) fn file_text<F: Files>(
    alloc: Global,
    files: &mut F,
    name: &[u8],
    backslash: Backslash,
) -> Result<FileText, OptionsFault>
    ensures { ReadsWith (F.state files.old) (F.state files.new) text_of result (λ all. file_read backslash all name.now) }
{
    let word = FaultWord::copied(alloc, name)?;
    let read = read_words(alloc, files, name, backslash);
    text_or_fault(word, read)
}

// The fault of an open quote, if there is one. It takes no memory.
pub(crate) fn no_open_quote(open_quote: Option<OpenQuote>) -> Result<(), OptionsFault>
    ensures words { (words : List (List ℕ)) → Gives (λ _. words) result (unless_open open_quote words) }
    ensures given { (given : GivenValue) → Gives (λ _. given) result (unless_open open_quote given) }
{
    match open_quote {
        None => Ok(()),
        Some(quote) => Err(OptionsFault::BadQuote(quote.name, quote.line)),
    }
}

// The words of the file of this name, in which no quote is open.
pub(crate) fn file_words<F: Files>(
    alloc: Global,
    files: &mut F,
    name: &[u8],
    backslash: Backslash,
) -> Result<Vec<Vec<u8>>, OptionsFault>
    ensures { ReadsWith (F.state files.old) (F.state files.new) (λ words. octets_in words.items) result (λ all. file_words backslash all name.now) }
{
    let text = file_text(alloc, files, name, backslash)?;
    no_open_quote(text.open_quote)?;
    Ok(text.words)
}
