ghost use Rattle.std.specs.Prelude.{◌≡◌, IfSome};
ghost use Rattle.std.specs.Option.{option_copied};
ghost use Rattle.ppp_option_words.specs.Picks.{asyncmap_in, endpoint_in, is_link, is_one_of, is_pty, is_socket, line_in, local_in, number_in, remote_in, script_in, switch_in, text_in};
ghost use Rattle.ppp_option_words.specs.Table.{IsWithin};

use crate::flag::Flag;
use crate::ignored::Ignored;
use crate::number::Number;
use crate::text::Text;
use ppp_base::{Disc, Name, Octets};
use ppp_chat::Script;
use ppp_outside::LineWords;
use std::marker::Model;

/// A number behind its word, within the word's range.
#[derive(Drop)]
pub struct Numbered {
    word: Number,
    number: u32,
}

impl Model for Numbered {
    ghost use Rattle.ppp_option_words.specs.Numbered.{NumberSaid};
    ghost use Rattle.ppp_option_words.specs.Table.{IsWithin};

    ghost Value = { NumberSaid };

    ghost view = { λ said. record { word = said.word; number = said.number } };

    ghost invariant = { λ said. IsWithin said.word said.number };
}

impl Numbered {
    /// The number behind the word.
    pub fn new(word: Number, number: u32) -> Numbered
        requires { IsWithin word number }
        ensures { result ≡ record { word = word; number = number } }
    {
        Numbered { word, number }
    }

    // The number, where it stands behind this word.
    fn of(&self, word: Number) -> Option<u32>
        ensures value { result ≡ number_in word (Item.Number self.now) }
        ensures range { IfSome result (IsWithin word) }
    {
        if self.word == word {
            Some(self.number)
        } else {
            None
        }
    }
}

/// What a word, with its value, says.
#[derive(Drop)]
pub enum Item {
    /// One more link begins.
    Link,
    /// It is accepted without effect.
    Ignored,
    Flag(Flag),
    Number(Numbered),
    Text(Text, Name),
    Pty(Octets<512>),
    Script(Script),
    Asyncmap(u32),
    Endpoint(Disc),
    /// Our address and the peer's.
    Addresses([u8; 4], Option<[u8; 4]>),
}

// Whether a word is one of these.
fn is_one_of(flags: &[Flag], said: Flag) -> bool
    ensures { result ≡ is_one_of flags.now said }
{
    flags.iter().any(|flag| *flag == said)
}

impl Item {
    /// Whether one more link begins.
    pub fn is_link(&self) -> bool
        ensures { result ≡ is_link self.now }
    {
        matches!(self, Item::Link)
    }

    /// The number, where it stands behind this word.
    pub fn number(&self, word: Number) -> Option<u32>
        ensures value { result ≡ number_in word self.now }
        ensures range { IfSome result (IsWithin word) }
    {
        match self {
            Item::Number(said) => said.of(word),
            _ => None,
        }
    }

    /// The text, where it stands behind this word.
    pub fn text(&self, word: Text) -> Option<&Name>
        ensures { option_copied result ≡ text_in word self.now }
    {
        match self {
            Item::Text(said, text) if *said == word => Some(text),
            _ => None,
        }
    }

    /// Whether the word switches on or off, where it is one of these.
    pub fn switch(&self, on: &[Flag], off: &[Flag]) -> Option<bool>
        ensures { result ≡ switch_in on.now off.now self.now }
    {
        let Item::Flag(said) = self else {
            return None;
        };
        if is_one_of(on, *said) {
            Some(true)
        } else if is_one_of(off, *said) {
            Some(false)
        } else {
            None
        }
    }

    /// The script of `connect`.
    pub fn script(&self) -> Option<&Script>
        ensures { option_copied result ≡ script_in self.now }
    {
        match self {
            Item::Script(script) => Some(script),
            _ => None,
        }
    }

    /// The line of `socket` or `pty`.
    pub fn line(&self) -> Option<LineWords>
        ensures { result ≡ line_in self.now }
    {
        match self {
            Item::Text(said, text) if *said == Text::Socket => Some(LineWords::Socket(text.copy())),
            Item::Pty(command) => Some(LineWords::Pty(command.copy())),
            _ => None,
        }
    }

    /// Whether it is `socket`.
    pub fn is_socket(&self) -> bool
        ensures { result ≡ is_socket self.now }
    {
        match self {
            Item::Text(said, _) => *said == Text::Socket,
            _ => false,
        }
    }

    /// Whether it is `pty`.
    pub fn is_pty(&self) -> bool
        ensures { result ≡ is_pty self.now }
    {
        matches!(self, Item::Pty(_))
    }

    /// The octets of `asyncmap`.
    pub fn asyncmap(&self) -> u32
        ensures { result ≡ asyncmap_in self.now }
    {
        match self {
            Item::Asyncmap(map) => *map,
            _ => 0,
        }
    }

    /// The discriminator of `endpoint`.
    pub fn endpoint(&self) -> Option<&Disc>
        ensures { option_copied result ≡ endpoint_in self.now }
    {
        match self {
            Item::Endpoint(disc) => Some(disc),
            _ => None,
        }
    }

    /// Our address of `A:B`.
    pub fn local(&self) -> Option<[u8; 4]>
        ensures { result ≡ local_in self.now }
    {
        match self {
            Item::Addresses(local, _) => Some(*local),
            _ => None,
        }
    }

    /// The peer's address of `A:B`.
    pub fn remote(&self) -> Option<Option<[u8; 4]>>
        ensures { result ≡ remote_in self.now }
    {
        match self {
            Item::Addresses(_, remote) => Some(*remote),
            _ => None,
        }
    }
}
