ghost use Rattle.ppp_chat_words.specs.FileWords.{FollowsFile, HasWords, ReadsWords};

use crate::splitting::split_front;
use ppp_base::NoMemory;
use ppp_outside::{Files, WholeFile};
use ppp_words::Backslash;
use std::alloc::Global;
use std::str;

/// What reading a file of words answers.
#[derive(Drop)]
pub enum FileWords {
    /// Its words, each as the octets that it stands for.
    Words(Vec<Vec<u8>>),
    /// A quote is open at the file's end: the words in front of its word, and the line on which it begins, counted from 1.
    OpenQuote(Vec<Vec<u8>>, usize),
    /// There is no file of this name.
    NoFile,
    /// The outside failed.
    Failed,
    /// Want of memory.
    NoMemory,
}

// The words of a file's octets.
fn words_in(alloc: Global, octets: &[u8], backslash: Backslash) -> FileWords
    ensures { HasWords backslash octets.now result }
{
    let (words, open_quote) = match split_front(alloc, octets, backslash) {
        Ok(front) => front,
        Err(NoMemory) => return FileWords::NoMemory,
    };
    match open_quote {
        None => FileWords::Words(words),
        Some(line) => FileWords::OpenQuote(words, line),
    }
}

// The words of what was read.
fn words_read(alloc: Global, file: WholeFile, backslash: Backslash) -> FileWords
    ensures { FollowsFile backslash file result }
{
    match file {
        WholeFile::Bytes(octets) => words_in(alloc, octets.as_slice(), backslash),
        WholeFile::NoFile => FileWords::NoFile,
        WholeFile::Failed => FileWords::Failed,
        WholeFile::NoMemory => FileWords::NoMemory,
    }
}

/// Reads the file of this name, and splits it into words. A name that is no UTF-8 is that of no file.
pub fn read_words<F: Files>(
    alloc: Global,
    files: &mut F,
    name: &[u8],
    backslash: Backslash,
) -> FileWords
    ensures { ReadsWords (F.state files.old) (F.state files.new) name.now backslash result }
{
    let Ok(name) = str::from_utf8(name) else {
        return FileWords::NoFile;
    };
    let file = files.whole(alloc, name);
    words_read(alloc, file, backslash)
}
