ghost use Rattle.std.specs.Prelude.{◌≡◌, ◌≤◌, ◌++◌, IfOk, OnOk};
ghost use Rattle.ppp_chat_words.specs.Split.{octets_in};
ghost use Rattle.ppp_option_words.specs.Answers.{Gives, ReadsWith};
ghost use Rattle.ppp_options.specs.FileRead.{text_of};
ghost use Rattle.ppp_options.specs.InPlace.{path_of};
ghost use Rattle.ppp_options.specs.Meaning.{value_item};
ghost use Rattle.ppp_options.specs.Steps.{awaiting, pushed_read, read_from, reader_at, word_taken};
ghost use Rattle.ppp_option_words.specs.Table.{kind_of};

use crate::connect::read_connect;
use crate::file_words::{FileText, file_text, no_open_quote};
use crate::given::{Awaits, Given};
use ppp_base::{MOST_NAME, NoMemory};
use ppp_option_words::{
    FaultWord, Included, Item, Kind, OptionsFault, Valued, asyncmap_item, endpoint_item, kind_of,
    number_item, other_item, pty_item, text_item,
};
use ppp_outside::Files;
use ppp_words::Backslash;
use std::alloc::Global;

/// Files may be nested so deep.
pub const MOST_DEPTH: u8 = 8;

// Takes a word where nothing is awaited.
fn take_word(alloc: Global, given: &mut Given, word: &[u8]) -> Result<(), OptionsFault>
    ensures { Gives (λ _. given.new) result (word_taken given.old word.now (kind_of word.now)) }
{
    match kind_of(word) {
        Some(Kind::Included(included)) => {
            given.await_now(Awaits::FileName(included));
            Ok(())
        }
        Some(Kind::Valued(valued)) => {
            given.await_now(Awaits::Value(valued));
            Ok(())
        }
        Some(Kind::Link) => given.push(Item::Link),
        Some(Kind::Flag(flag)) => given.push(Item::Flag(flag)),
        Some(Kind::Ignored(_)) => given.push(Item::Ignored),
        None => {
            let item = other_item(alloc, word)?;
            given.push(item)
        }
    }
}

// What a value says behind its word.
fn value_item<F: Files>(
    alloc: Global,
    files: &mut F,
    valued: Valued,
    value: &[u8],
) -> Result<Item, OptionsFault>
    ensures { ReadsWith (F.state files.old) (F.state files.new) (λ item. item) result (λ all. value_item all valued value.now) }
{
    match valued {
        Valued::Connect => {
            let script = read_connect(alloc, files, value)?;
            Ok(Item::Script(script))
        }
        Valued::Number(word) => number_item(alloc, word, value),
        Valued::Text(word) => text_item(alloc, word, value),
        Valued::Pty => pty_item(alloc, value),
        Valued::Asyncmap => asyncmap_item(alloc, value),
        Valued::Endpoint => endpoint_item(alloc, value),
    }
}

// Takes the value of a word.
fn take_value<F: Files>(
    alloc: Global,
    files: &mut F,
    given: &mut Given,
    valued: Valued,
    value: &[u8],
) -> Result<(), OptionsFault>
    ensures { ReadsWith (F.state files.old) (F.state files.new) (λ _. given.new) result (λ all. pushed_read (awaiting given.old Awaits.Nothing) (value_item all valued value.now)) }
{
    given.await_now(Awaits::Nothing);
    let item = value_item(alloc, files, valued, value)?;
    given.push(item)
}

// Where the file of a name lies.
fn path(alloc: Global, included: Included, name: &[u8]) -> Result<Vec<u8>, NoMemory>
    ensures { IfOk result (λ path. path.items ≡ path_of included name.now) }
{
    match included {
        Included::File => Ok(Vec::from_slice(alloc, name)?),
        Included::Call => {
            let mut path = Vec::from_slice(alloc, b"/etc/ppp/peers/".as_slice())?;
            path.extend_from_slice(name)?;
            Ok(path)
        }
    }
}

// The file that is named, where files may be nested so deep.
fn included_text<F: Files>(
    alloc: Global,
    files: &mut F,
    included: Included,
    name: &[u8],
    deeper: u8,
) -> Result<FileText, OptionsFault>
    ensures reads { ReadsWith (F.state files.old) (F.state files.new) text_of result (λ all. reader_at deeper all included name.now) }
    ensures deeper { OnOk result (1 ≤ deeper) }
{
    if MOST_NAME < name.len() {
        return Err(OptionsFault::OutOfRange(FaultWord::copied(alloc, name)?));
    }
    let path = path(alloc, included, name)?;
    if deeper == 0 {
        return Err(OptionsFault::Depth(FaultWord::new(path)));
    }
    file_text(alloc, files, path.as_slice(), Backslash::Dropped)
}

// Takes words in order, where files may be nested so deep.
pub(crate) fn place_words<F: Files>(
    alloc: Global,
    files: &mut F,
    given: &mut Given,
    words: &[Vec<u8>],
    deeper: u8,
) -> Result<(), OptionsFault>
    ensures { ReadsWith (F.state files.old) (F.state files.new) (λ _. given.new) result (λ all. read_from all deeper given.old (octets_in words.now)) }
{
    let mut left = words;
    'placing: while let [word, others @ ..] = left {
        match given.awaits() {
            Awaits::Nothing => take_word(alloc, given, word.as_slice())?,
            Awaits::Value(valued) => take_value(alloc, files, given, valued, word.as_slice())?,
            Awaits::FileName(included) => {
                given.await_now(Awaits::Nothing);
                let inner = included_text(alloc, files, included, word.as_slice(), deeper)?;
                place_words(alloc, files, given, inner.words.as_slice(), deeper - 1)?;
                no_open_quote(inner.open_quote)?;
            }
        }
        left = others;
    }
    Ok(())
}
