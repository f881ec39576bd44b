ghost use Rattle.std.specs.Prelude.{◌≡◌, ◌≤◌, false, IfOk, length, map, drop};
ghost use Rattle.std.specs.String.{string_bytes};
ghost use Rattle.ppp_chat.specs.Words.{script_of};
ghost use Rattle.ppp_chat_words.specs.Split.{octets_in};
ghost use Rattle.chat.specs.Asked.{GivesPlan, Plans, PlansOfFile, files_failed, script_plan, word_at};

use crate::ending::Refusal;
use crate::plan::Plan;
use ppp_base::{NoMemory, Octets};
use ppp_chat::{Script, ScriptFault};
use ppp_chat_words::{FileWords, chat_words, read_words};
use ppp_outside::{Files, LineWords};
use ppp_words::Backslash;
use std::alloc::Global;

// The words as octets.
fn octets_of(alloc: Global, words: &[String]) -> Result<Vec<Vec<u8>>, NoMemory>
    ensures { IfOk result (λ octets. octets_in octets.items ≡ map string_bytes words.now) }
{
    let mut octets = Vec::new(alloc);
    for word in words {
        octets.push(Vec::from_slice(alloc, word.as_bytes())?)?;
    }
    Ok(octets)
}

// The word at a place.
fn word_at(words: &[Vec<u8>], place: usize) -> &[u8]
    ensures { result.now ≡ word_at (octets_in words.now) place }
{
    match words.get(place) {
        Some(word) => word.as_slice(),
        None => &[],
    }
}

// The words from a place on.
fn words_from(words: &[Vec<u8>], place: usize) -> &[Vec<u8>]
    ensures { octets_in result.now ≡ drop place (octets_in words.now) }
{
    if place < words.len() {
        &words[place..]
    } else {
        &[]
    }
}

// The words' script, and the line with this text.
fn script_plan(
    alloc: Global,
    line: &[u8],
    timeout_s: u16,
    words: &[Vec<u8>],
) -> Result<Plan, Refusal>
    requires { length line.now ≤ 255 }
    ensures gives { GivesPlan result (script_plan line.now timeout_s (script_of (octets_in words.now))) }
    ensures sound { files_failed result ≡ false }
{
    let Some(line) = Octets::from_octets(line) else {
        return Err(Refusal::OtherWords);
    };
    match Script::read(alloc, words, u32::from(timeout_s)) {
        Ok(script) => Ok(Plan {
            line: LineWords::Socket(line),
            script,
        }),
        Err(ScriptFault::NoMemory) => Err(Refusal::NoMemory),
        Err(_) => Err(Refusal::BadScript),
    }
}

// The script of the file of this name, and the line with this text.
fn file_plan<F: Files>(
    alloc: Global,
    files: &mut F,
    line: &[u8],
    timeout_s: u16,
    name: &[u8],
) -> Result<Plan, Refusal>
    requires { length line.now ≤ 255 }
    ensures { PlansOfFile (F.state files.old) (F.state files.new) line.now timeout_s name.now result }
{
    match read_words(alloc, files, name, Backslash::Kept) {
        FileWords::Words(words) => script_plan(alloc, line, timeout_s, words.as_slice()),
        FileWords::OpenQuote(_, _) => Err(Refusal::OtherWords),
        FileWords::NoFile => Err(Refusal::NoFile),
        FileWords::Failed => Err(Refusal::FilesFailed),
        FileWords::NoMemory => Err(Refusal::NoMemory),
    }
}

// What the words ask for.
fn plan_of<F: Files>(alloc: Global, files: &mut F, words: &[Vec<u8>]) -> Result<Plan, Refusal>
    ensures { Plans (F.state files.old) (F.state files.new) (octets_in words.now) result }
{
    let said = chat_words(words, true);
    if said.wrong.is_some() {
        return Err(Refusal::OtherWords);
    }
    let Some(line) = said.line else {
        return Err(Refusal::OtherWords);
    };
    let line = word_at(words, line);
    match said.file {
        None => script_plan(alloc, line, said.timeout_s, words_from(words, said.script)),
        Some(name) => file_plan(alloc, files, line, said.timeout_s, word_at(words, name)),
    }
}

/// Reads what the words of the command line ask for.
pub(crate) fn read_plan<F: Files>(
    alloc: Global,
    files: &mut F,
    words: &[String],
) -> Result<Plan, Refusal>
    ensures { Plans (F.state files.old) (F.state files.new) (map string_bytes words.now) result }
{
    match octets_of(alloc, words) {
        Ok(words) => plan_of(alloc, files, words.as_slice()),
        Err(NoMemory) => Err(Refusal::NoMemory),
    }
}
