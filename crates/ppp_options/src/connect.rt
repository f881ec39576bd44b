ghost use Rattle.std.specs.Prelude.{◌≡◌, ◌-◌, drop, false};
ghost use Rattle.ppp_chat_words.specs.Split.{octets_in};
ghost use Rattle.ppp_chat_words.specs.Told.{told};
ghost use Rattle.ppp_option_words.specs.Answers.{Gives, ReadsWith};
ghost use Rattle.ppp_options.specs.Connect.{chat_read, connect_read, is_chat, program_read, script_in, unless_wrong, word_at};

use crate::file_words::file_words;
use ppp_chat::{Script, ScriptFault};
use ppp_chat_words::{ChatWords, chat_words, split};
use ppp_option_words::{FaultWord, OptionsFault};
use ppp_outside::Files;
use ppp_words::{Backslash, WordsFault};
use std::alloc::Global;

// Whether a word is `chat`, or ends with `/chat`.
fn is_chat(word: &[u8]) -> bool
    ensures { result ≡ is_chat word.now }
{
    word == b"chat".as_slice() || &word[word.len().saturating_sub(5)..] == b"/chat".as_slice()
}

// The word at a place.
fn word_at(words: &[Vec<u8>], place: usize) -> &[u8]
    ensures { result.now ≡ word_at (octets_in words.now) place }
{
    match words.get(place) {
        Some(word) => word.as_slice(),
        None => &[],
    }
}

// The fault of a word that is wrong.
fn bad_script(alloc: Global, word: &[u8]) -> Result<Script, OptionsFault>
    ensures { Gives (λ script. script) result (Err (OptionsFault.BadScript word.now)) }
{
    Err(OptionsFault::BadScript(FaultWord::copied(alloc, word)?))
}

// The fault of a script's word, which is counted from 1.
fn bad_word(alloc: Global, words: &[Vec<u8>], number: usize) -> Result<Script, OptionsFault>
    ensures { Gives (λ script. script) result (Err (OptionsFault.BadScript (word_at (octets_in words.now) (number - 1)))) }
{
    bad_script(alloc, word_at(words, number.saturating_sub(1)))
}

// The script that these words are.
fn script_in(alloc: Global, words: &[Vec<u8>], timeout_s: u16) -> Result<Script, OptionsFault>
    ensures { Gives (λ script. script) result (script_in (octets_in words.now) timeout_s) }
{
    match Script::read(alloc, words, u32::from(timeout_s)) {
        Ok(script) => Ok(script),
        Err(ScriptFault::BadEscape(number)) => bad_word(alloc, words, number),
        Err(ScriptFault::BadNumber(number)) => bad_word(alloc, words, number),
        Err(ScriptFault::TooManyAborts(number)) => bad_word(alloc, words, number),
        Err(ScriptFault::TooLong(number)) => bad_word(alloc, words, number),
        Err(ScriptFault::NoMemory) => Err(OptionsFault::NoMemory),
    }
}

// The script, unless a word before it is wrong.
fn script_unless_wrong(
    alloc: Global,
    words: &[Vec<u8>],
    said: &ChatWords,
    script: &[Vec<u8>],
) -> Result<Script, OptionsFault>
    ensures { Gives (λ script. script) result (unless_wrong (octets_in words.now) said.now.wrong (script_in (octets_in script.now) said.now.timeout_s)) }
{
    match said.wrong {
        Some(place) => bad_script(alloc, word_at(words, place)),
        None => script_in(alloc, script, said.timeout_s),
    }
}

// The words from a place on.
fn words_from(words: &[Vec<u8>], place: usize) -> &[Vec<u8>]
    ensures { octets_in result.now ≡ drop place (octets_in words.now) }
{
    if place < words.len() {
        &words[place..]
    } else {
        &[]
    }
}

// The script that the words behind `chat`, which say so much, have.
fn read_said<F: Files>(
    alloc: Global,
    files: &mut F,
    words: &[Vec<u8>],
    said: &ChatWords,
) -> Result<Script, OptionsFault>
    ensures { ReadsWith (F.state files.old) (F.state files.new) (λ script. script) result (λ all. chat_read all (octets_in words.now) said.now) }
{
    match said.file {
        None => script_unless_wrong(alloc, words, said, words_from(words, said.script)),
        Some(at) => {
            let script = file_words(alloc, files, word_at(words, at), Backslash::Kept)?;
            script_unless_wrong(alloc, words, said, script.as_slice())
        }
    }
}

// The script that the words behind `chat` have.
fn read_chat<F: Files>(
    alloc: Global,
    files: &mut F,
    words: &[Vec<u8>],
) -> Result<Script, OptionsFault>
    ensures { ReadsWith (F.state files.old) (F.state files.new) (λ script. script) result (λ all. chat_read all (octets_in words.now) (told false (octets_in words.now))) }
{
    let said = chat_words(words, false);
    read_said(alloc, files, words, &said)
}

// The script of words of which the first is the program.
fn read_program<F: Files>(
    alloc: Global,
    files: &mut F,
    value: &[u8],
    words: &[Vec<u8>],
) -> Result<Script, OptionsFault>
    ensures { ReadsWith (F.state files.old) (F.state files.new) (λ script. script) result (λ all. program_read all value.now (Ok (octets_in words.now))) }
{
    match words {
        [] => bad_script(alloc, value),
        [program, words @ ..] => {
            if is_chat(program.as_slice()) {
                read_chat(alloc, files, words)
            } else {
                bad_script(alloc, program.as_slice())
            }
        }
    }
}

// The script of a `connect` value.
pub(crate) fn read_connect<F: Files>(
    alloc: Global,
    files: &mut F,
    value: &[u8],
) -> Result<Script, OptionsFault>
    ensures { ReadsWith (F.state files.old) (F.state files.new) (λ script. script) result (λ all. connect_read all value.now) }
{
    match split(alloc, value, Backslash::Dropped) {
        Ok(words) => read_program(alloc, files, value, words.as_slice()),
        Err(WordsFault::OpenQuote(_)) => bad_script(alloc, value),
        Err(WordsFault::NoMemory) => Err(OptionsFault::NoMemory),
    }
}
