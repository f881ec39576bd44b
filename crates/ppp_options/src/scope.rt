ghost use Rattle.std.specs.Prelude.{◌≡◌, ◌++◌, [], ◌∷◌, None, IfSome, codes, unwrap_or};
ghost use Rattle.std.specs.Option.{option_copied};
ghost use Rattle.ppp_options.specs.Last.{last_of};
ghost use Rattle.ppp_options.specs.LinkOf.{asyncmap_of, line_of, name_of, number_of, on, switched};
ghost use Rattle.ppp_option_words.specs.Picks.{endpoint_in, local_in, number_in, remote_in, script_in, text_in};
ghost use Rattle.ppp_option_words.specs.Table.{IsWithin, default_of};

use crate::last::{
    joined_asyncmap, last_endpoint, last_line, last_local, last_number, last_remote, last_script,
    last_switch, last_text,
};
use ppp_base::{Disc, Name, Octets, Unit};
use ppp_chat::Script;
use ppp_option_words::{Flag, Item, Number, Text, default};
use ppp_outside::LineWords;

/// The words that count for a link: those before the first `link`, and then its own.
#[derive(Clone, Copy)]
pub(crate) struct Scope<'a> {
    pub shared: &'a [Item],
    pub own: &'a [Item],
}

#[tactic(auto, using(crate::proofs::LastLemmas::last_of_append, crate::proofs::LastLemmas::option_or_none, crate::proofs::LastLemmas::asyncmap_append))]
impl<'a> Scope<'a> {
    // The number of the last word.
    pub fn said_number(&self, word: Number) -> Option<u32>
        ensures value { result ≡ last_of (number_in word) (self.now.shared.now ++ self.now.own.now) }
        ensures range { IfSome result (IsWithin word) }
    {
        last_number(self.own, word, last_number(self.shared, word, None))
    }

    // The number of the last word, or the default.
    pub fn number(&self, word: Number) -> u32
        ensures value { result ≡ number_of word (self.now.shared.now ++ self.now.own.now) }
        ensures range { IsWithin word result }
    {
        match self.said_number(word) {
            Some(number) => number,
            None => default_or_zero(word),
        }
    }

    // Whether the last of these words switches on.
    pub fn switched(&self, on: &[Flag], off: &[Flag]) -> bool
        ensures { result ≡ switched on.now off.now (self.now.shared.now ++ self.now.own.now) }
    {
        last_switch(self.own, on, off, last_switch(self.shared, on, off, None)).unwrap_or(false)
    }

    // Whether the word stands there.
    pub fn has(&self, flag: Flag) -> bool
        ensures { result ≡ on flag (self.now.shared.now ++ self.now.own.now) }
    {
        self.switched(&[flag], &[])
    }

    // The text of the last word.
    pub fn text(&self, word: Text) -> Option<&'a Name>
        ensures { option_copied result ≡ last_of (text_in word) (self.now.shared.now ++ self.now.own.now) }
    {
        last_text(self.own, word, last_text(self.shared, word, None))
    }

    // The script of `connect`.
    pub fn script(&self) -> Option<&'a Script>
        ensures { option_copied result ≡ last_of script_in (self.now.shared.now ++ self.now.own.now) }
    {
        last_script(self.own, last_script(self.shared, None))
    }

    // The line of `socket` or `pty`.
    pub fn line(&self) -> LineWords
        ensures { result ≡ line_of (self.now.shared.now ++ self.now.own.now) }
    {
        match last_line(self.own, last_line(self.shared, None)) {
            Some(line) => line,
            None => LineWords::Socket(Octets::new()),
        }
    }

    // The octets of all `asyncmap` words.
    pub fn asyncmap(&self) -> u32
        ensures { result ≡ asyncmap_of (self.now.shared.now ++ self.now.own.now) }
    {
        joined_asyncmap(self.own, joined_asyncmap(self.shared, 0))
    }

    // The discriminator of `endpoint`.
    pub fn endpoint(&self) -> Option<&'a Disc>
        ensures { option_copied result ≡ last_of endpoint_in (self.now.shared.now ++ self.now.own.now) }
    {
        last_endpoint(self.own, last_endpoint(self.shared, None))
    }

    // Our address.
    pub fn local(&self) -> [u8; 4]
        ensures { result ≡ unwrap_or (last_of local_in (self.now.shared.now ++ self.now.own.now)) (0 ∷ 0 ∷ 0 ∷ 0 ∷ []) }
    {
        match last_local(self.own, last_local(self.shared, None)) {
            Some(local) => local,
            None => [0, 0, 0, 0],
        }
    }

    // The peer's address.
    pub fn remote(&self) -> Option<[u8; 4]>
        ensures { result ≡ unwrap_or (last_of remote_in (self.now.shared.now ++ self.now.own.now)) None }
    {
        match last_remote(self.own, last_remote(self.shared, None)) {
            Some(remote) => remote,
            None => None,
        }
    }

    // The unit of the last word.
    pub fn unit(&self) -> Option<Unit>
        ensures { result ≡ last_of (number_in Number.Unit) (self.now.shared.now ++ self.now.own.now) }
    {
        match self.said_number(Number::Unit) {
            Some(number) => Unit::new(number as u8),
            None => None,
        }
    }

    // Our name.
    pub fn name(&self) -> Name
        ensures { result ≡ name_of (self.now.shared.now ++ self.now.own.now) }
    {
        match self.text(Text::Name) {
            Some(name) => name.copy(),
            None => localhost(),
        }
    }

    // The name by which we prove who we are.
    pub fn user(&self) -> Name
        ensures { result ≡ unwrap_or (last_of (text_in Text.User) (self.now.shared.now ++ self.now.own.now)) (name_of (self.now.shared.now ++ self.now.own.now)) }
    {
        match self.text(Text::User) {
            Some(user) => user.copy(),
            None => self.name(),
        }
    }

    // The text of the last word, or an empty one.
    pub fn text_or_empty(&self, word: Text) -> Name
        ensures { result ≡ unwrap_or (last_of (text_in word) (self.now.shared.now ++ self.now.own.now)) [] }
    {
        match self.text(word) {
            Some(text) => text.copy(),
            None => Name::new(),
        }
    }
}

// The name where no word says one.
fn localhost() -> Name
    ensures { result ≡ codes "localhost" }
{
    let mut name = Name::new();
    name.append(b"localhost");
    name
}

// The number where no word says one, or 0.
fn default_or_zero(word: Number) -> u32
    ensures value { result ≡ unwrap_or (default_of word) 0 }
    ensures range { IsWithin word result }
{
    match default(word) {
        Some(number) => number,
        None => 0,
    }
}
