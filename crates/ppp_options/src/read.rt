ghost use Rattle.std.specs.Prelude.{◌≡◌, ◌≤◌, IfOk, length, map};
ghost use Rattle.std.specs.List.{slice_split};
ghost use Rattle.std.specs.String.{string_bytes};
ghost use Rattle.ppp_chat_words.specs.Split.{octets_in};
ghost use Rattle.ppp_option_words.specs.Answers.{Gives, ReadsWith};
ghost use Rattle.ppp_options.specs.ConfigOf.{ReadOf, ended, hooks_of, items_read, path_or};
ghost use Rattle.ppp_option_words.specs.Picks.{is_link};

use crate::given::{Awaits, Given};
use crate::links::read_links;
use crate::placing::{MOST_DEPTH, place_words};
use crate::scope::Scope;
use ppp_base::{Name, NoMemory};
use ppp_option_words::{
    Config, FaultWord, Item, Links, Number, OptionsFault, Text, copied_name, included_spelling,
    valued_spelling,
};
use ppp_outside::{Files, HookPaths};
use std::alloc::Global;

// A path as it is where no word says one.
fn plain(path: &[u8]) -> Name
    requires { length path.now ≤ 255 }
    ensures { result ≡ path.now }
{
    let mut name = Name::new();
    name.append(path);
    name
}

// The path of the last word, or this one.
#[tactic(auto, using(crate::proofs::ReadLemmas::append_none))]
fn path_or(items: &[Item], word: Text, path: &[u8]) -> Name
    requires { length path.now ≤ 255 }
    ensures { result ≡ path_or word path.now items.now }
{
    let run = Scope {
        shared: items,
        own: &[],
    };
    match run.text(word) {
        Some(said) => said.copy(),
        None => plain(path),
    }
}

// The paths of the site scripts.
fn hooks_of(items: &[Item]) -> HookPaths
    ensures { result ≡ hooks_of items.now }
{
    HookPaths {
        ip_up: path_or(items, Text::HookIpUp, b"/etc/ppp/ip-up"),
        ip_down: path_or(items, Text::HookIpDown, b"/etc/ppp/ip-down"),
        auth_up: path_or(items, Text::HookAuthUp, b"/etc/ppp/auth-up"),
        auth_down: path_or(items, Text::HookAuthDown, b"/etc/ppp/auth-down"),
    }
}

// What all words say.
#[tactic(auto, using(crate::proofs::ReadLemmas::append_none))]
fn config_of(alloc: Global, items: &[Item]) -> Result<Config, OptionsFault>
    requires { length (slice_split is_link items.now) ≤ 17 }
    ensures { Gives (λ config. config) result (items_read items.now) }
{
    let links = read_links(alloc, items)?;
    let run = Scope {
        shared: items,
        own: &[],
    };
    Ok(Config {
        links: Links::new(links),
        control: copied_name(run.text(Text::Control)),
        packets: copied_name(run.text(Text::Packets)),
        pap_file: copied_name(run.text(Text::PapSecrets)),
        chap_file: copied_name(run.text(Text::ChapSecrets)),
        hooks: hooks_of(items),
        loglimit: run.number(Number::Loglimit),
    })
}

// What the words say at their end.
pub(crate) fn end(alloc: Global, given: &Given) -> Result<Config, OptionsFault>
    ensures { Gives (λ config. config) result (ended given.now.awaits given.now.items) }
{
    match given.awaits() {
        Awaits::Nothing => config_of(alloc, given.items()),
        Awaits::Value(valued) => Err(OptionsFault::Missing(FaultWord::copied(
            alloc,
            valued_spelling(valued),
        )?)),
        Awaits::FileName(included) => Err(OptionsFault::Missing(FaultWord::copied(
            alloc,
            included_spelling(included),
        )?)),
    }
}

// The octets of words.
fn octets_of(alloc: Global, words: &[String]) -> Result<Vec<Vec<u8>>, NoMemory>
    ensures { IfOk result (λ octets. octets_in octets.items ≡ map string_bytes words.now) }
{
    let mut octets = Vec::new(alloc);
    for word in words {
        octets.push(Vec::from_slice(alloc, word.as_bytes())?)?;
    }
    Ok(octets)
}

/// What option words are, with the words of files in the place of `file` and `call`: a configuration, or the first fault.
///
/// `call` reads the file of `/etc/ppp/peers/` and its value. Files may be nested 8 deep. The words are taken as they are;
/// those of a file are split by its rules. Secrets files are not looked at.
pub fn read_options<F: Files>(
    alloc: Global,
    words: &[String],
    files: &mut F,
) -> Result<Config, OptionsFault>
    ensures { ReadsWith (F.state files.old) (F.state files.new) (λ config. config) result (ReadOf (map string_bytes words.now)) }
{
    let words = octets_of(alloc, words)?;
    let mut given = Given::new(alloc);
    place_words(alloc, files, &mut given, words.as_slice(), MOST_DEPTH)?;
    end(alloc, &given)
}
