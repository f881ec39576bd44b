ghost use Rattle.std.specs.Prelude.{◌≡◌, ◌==◌, false, true, Ok, IfOk, IfNone, IfSome};
ghost use Rattle.std.specs.Option.{option_map};
ghost use Rattle.std.specs.List.{list_any};
ghost use Rattle.ppp_words.specs.Steps.{words_of};
ghost use Rattle.ppp_words.specs.declared.backslash.Backslash.TheVariants.{Dropped};
ghost use Rattle.ppp_secrets.specs.Lookup.{is_star, is_for, is_match, stars};
ghost use Rattle.ppp_secrets.specs.LineFaults.{is_too_long, begins_with_at};
ghost use Rattle.ppp_secrets.specs.Steps.{addresses_of, line_answer};
ghost use Rattle.ppp_secrets.specs.Answers.{Gives};

use crate::address_word::{AddressWord, read_word};
use crate::fault::SecretsFault;
use ppp_base::{MOST_NAME, Name, NoMemory};
use ppp_words::{Backslash, Word, WordsFault, words};
use std::alloc::Global;
use std::marker::Model;

// A line of a secrets file.
#[derive(Drop)]
pub struct Line {
    number: u32,
    client: Name,
    server: Name,
    secret: Name,
    addresses: Vec<AddressWord>,
}

impl Model for Line {
    ghost use Rattle.ppp_secrets.specs.SecretLine.{SecretLine};

    ghost Value = { SecretLine };

    ghost view = { λ a. record {
      number = a.number;
      client = a.client;
      server = a.server;
      secret = a.secret;
      addresses = a.addresses.items;
    } };
}

// Whether a word is `*`.
fn is_star(word: &Name) -> bool
    ensures { result ≡ is_star word.now }
{
    word.as_slice() == b"*".as_slice()
}

// Whether a word is for a name: it is `*` or that name.
fn is_for(word: &Name, name: &Name) -> bool
    ensures { result ≡ is_for word.now name.now }
{
    is_star(word) || word.as_slice() == name.as_slice()
}

impl Line {
    // The line's number in its file.
    pub fn number(&self) -> u32
        ensures { result ≡ self.now.number }
    {
        self.number
    }

    // The line's secret.
    pub fn secret(&self) -> &Name
        ensures { result.now ≡ self.now.secret }
    {
        &self.secret
    }

    // The line's address words.
    pub fn addresses(&self) -> &[AddressWord]
        ensures { result.now ≡ self.now.addresses }
    {
        self.addresses.as_slice()
    }

    // How many of the two names are `*`.
    pub fn stars(&self) -> u8
        ensures { result ≡ stars self.now }
    {
        u8::from(is_star(&self.client)) + u8::from(is_star(&self.server))
    }

    // Whether the line is for these two names.
    pub fn is_match(&self, client: &Name, server: &Name) -> bool
        ensures { result ≡ is_match client.now server.now self.now }
    {
        is_for(&self.client, client) && is_for(&self.server, server)
    }

    // The same line again.
    pub fn copy(&self, alloc: Global) -> Result<Line, NoMemory>
        ensures { IfOk result (λ line. line ≡ self.now) }
    {
        Ok(Line {
            number: self.number,
            client: self.client.copy(),
            server: self.server.copy(),
            secret: self.secret.copy(),
            addresses: Vec::from_slice(alloc, self.addresses.as_slice())?,
        })
    }
}

// The word as a name, if it isn't too long for one.
fn name_of(word: &Word) -> Option<Name>
    ensures long { IfNone result (is_too_long word.now ≡ true) }
    ensures short { IfSome result (λ name. is_too_long word.now ≡ false) }
    ensures value { IfSome result (λ name. name ≡ word.now.octets) }
{
    Name::from_octets(word.octets())
}

// Whether a word is too long for a name.
fn any_too_long(words: &[Word]) -> bool
    ensures { result ≡ list_any is_too_long words.now }
{
    words.iter().any(|word| MOST_NAME < word.octets().len())
}

// Whether a secret begins with `@` and so names a file.
fn begins_with_at(secret: &[u8]) -> bool
    ensures { result ≡ begins_with_at secret.now }
{
    secret.first() == Some(&b'@')
}

// The address words, if each is one.
fn addresses(alloc: Global, words: &[Word]) -> Result<Option<Vec<AddressWord>>, NoMemory>
    ensures { IfOk result (λ read. option_map (λ addresses. addresses.items) read ≡ addresses_of words.now) }
{
    let mut addresses = Vec::new(alloc);
    for word in words {
        let Some(address) = read_word(word.octets()) else {
            return Ok(None);
        };
        addresses.push(address)?;
    }
    Ok(Some(addresses))
}

// The line that these words are, or none where there are no words.
#[tactic(auto, unfolding(crate::specs::Steps::line_answer))]
fn line_of(alloc: Global, number: u32, words: &[Word]) -> Result<Option<Line>, SecretsFault>
    ensures { Gives (λ line. line) result (line_answer number (Ok words.now)) }
{
    let [client, server, secret, others @ ..] = words else {
        if words.is_empty() {
            return Ok(None);
        }
        return Err(SecretsFault::FewWords(number));
    };
    let Some(client) = name_of(client) else {
        return Err(SecretsFault::TooLong(number));
    };
    let Some(server) = name_of(server) else {
        return Err(SecretsFault::TooLong(number));
    };
    let Some(secret) = name_of(secret) else {
        return Err(SecretsFault::TooLong(number));
    };
    if any_too_long(others) {
        return Err(SecretsFault::TooLong(number));
    }
    if begins_with_at(secret.as_slice()) {
        return Err(SecretsFault::FileSecret(number));
    }
    let Some(addresses) = addresses(alloc, others)? else {
        return Err(SecretsFault::BadAddress(number));
    };
    Ok(Some(Line {
        number,
        client,
        server,
        secret,
        addresses,
    }))
}

// The line that the octets are, or none where they have no words.
#[tactic(auto, unfolding(crate::specs::Steps::line_answer))]
pub fn read_line(alloc: Global, number: u32, octets: &[u8]) -> Result<Option<Line>, SecretsFault>
    ensures { Gives (λ line. line) result (line_answer number (words_of Dropped octets.now)) }
{
    match words(alloc, octets, Backslash::Dropped) {
        Ok(words) => line_of(alloc, number, words.as_slice()),
        Err(WordsFault::OpenQuote(_)) => Err(SecretsFault::BadQuote(number)),
        Err(WordsFault::NoMemory) => Err(SecretsFault::NoMemory),
    }
}
