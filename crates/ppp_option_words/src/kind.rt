ghost use Rattle.std.specs.Prelude.{◌≡◌, Option};
ghost use Rattle.ppp_option_words.specs.Table.{included_spelled, kind_of, spelled, valued_spelled};

use crate::flag::{Flag, flag_spelling};
use crate::ignored::{Ignored, ignored_spelling};
use crate::number::{Number, number_spelling};
use crate::text::{Text, text_spelling};

/// A word whose value names a file of words, which stand in its place.
#[derive(Clone, Copy)]
pub enum Included {
    /// `file`
    File,
    /// `call`: the file lies in `/etc/ppp/peers/`.
    Call,
}

/// A word with a value behind it.
#[derive(Clone, Copy)]
pub enum Valued {
    Number(Number),
    Text(Text),
    /// `pty`: a text of at most 512 octets.
    Pty,
    /// `connect`: the words of a chat.
    Connect,
    /// `asyncmap`: 1 to 8 hexadecimal digits.
    Asyncmap,
    /// `endpoint`: 1 to 20 octets as hexadecimal digits.
    Endpoint,
}

/// What a word of the table is (pppd(8), "Options").
#[derive(Clone, Copy)]
pub enum Kind {
    /// `link`: the words behind it are those of one more link.
    Link,
    Included(Included),
    Valued(Valued),
    Flag(Flag),
    Ignored(Ignored),
}

/// All words of the table.
pub const KINDS: [Kind; 71] = [
    Kind::Link,
    Kind::Included(Included::File),
    Kind::Included(Included::Call),
    Kind::Valued(Valued::Pty),
    Kind::Valued(Valued::Connect),
    Kind::Valued(Valued::Asyncmap),
    Kind::Valued(Valued::Endpoint),
    Kind::Valued(Valued::Number(Number::Mru)),
    Kind::Valued(Valued::Number(Number::Mrru)),
    Kind::Valued(Valued::Number(Number::Unit)),
    Kind::Valued(Valued::Number(Number::LcpEchoInterval)),
    Kind::Valued(Valued::Number(Number::LcpEchoFailure)),
    Kind::Valued(Valued::Number(Number::LcpRestart)),
    Kind::Valued(Valued::Number(Number::IpcpRestart)),
    Kind::Valued(Valued::Number(Number::LcpMaxConfigure)),
    Kind::Valued(Valued::Number(Number::IpcpMaxConfigure)),
    Kind::Valued(Valued::Number(Number::LcpMaxTerminate)),
    Kind::Valued(Valued::Number(Number::IpcpMaxTerminate)),
    Kind::Valued(Valued::Number(Number::LcpMaxFailure)),
    Kind::Valued(Valued::Number(Number::IpcpMaxFailure)),
    Kind::Valued(Valued::Number(Number::Holdoff)),
    Kind::Valued(Valued::Number(Number::Maxfail)),
    Kind::Valued(Valued::Number(Number::Idle)),
    Kind::Valued(Valued::Number(Number::Maxconnect)),
    Kind::Valued(Valued::Number(Number::Loglimit)),
    Kind::Valued(Valued::Text(Text::Socket)),
    Kind::Valued(Valued::Text(Text::Name)),
    Kind::Valued(Valued::Text(Text::User)),
    Kind::Valued(Valued::Text(Text::Remotename)),
    Kind::Valued(Valued::Text(Text::Password)),
    Kind::Valued(Valued::Text(Text::Ipparam)),
    Kind::Valued(Valued::Text(Text::PapSecrets)),
    Kind::Valued(Valued::Text(Text::ChapSecrets)),
    Kind::Valued(Valued::Text(Text::HookIpUp)),
    Kind::Valued(Valued::Text(Text::HookIpDown)),
    Kind::Valued(Valued::Text(Text::HookAuthUp)),
    Kind::Valued(Valued::Text(Text::HookAuthDown)),
    Kind::Valued(Valued::Text(Text::Control)),
    Kind::Valued(Valued::Text(Text::Packets)),
    Kind::Flag(Flag::DefaultAsyncmap),
    Kind::Flag(Flag::Nomagic),
    Kind::Flag(Flag::Nopcomp),
    Kind::Flag(Flag::Noaccomp),
    Kind::Flag(Flag::Multilink),
    Kind::Flag(Flag::Mp),
    Kind::Flag(Flag::Nomultilink),
    Kind::Flag(Flag::Auth),
    Kind::Flag(Flag::Noauth),
    Kind::Flag(Flag::RequirePap),
    Kind::Flag(Flag::RequireChap),
    Kind::Flag(Flag::RefusePap),
    Kind::Flag(Flag::RefuseChap),
    Kind::Flag(Flag::IpcpAcceptLocal),
    Kind::Flag(Flag::IpcpAcceptRemote),
    Kind::Flag(Flag::Persist),
    Kind::Flag(Flag::Nopersist),
    Kind::Flag(Flag::Demand),
    Kind::Ignored(Ignored::Crtscts),
    Kind::Ignored(Ignored::Nocrtscts),
    Kind::Ignored(Ignored::Lock),
    Kind::Ignored(Ignored::Modem),
    Kind::Ignored(Ignored::Local),
    Kind::Ignored(Ignored::Noccp),
    Kind::Ignored(Ignored::Novj),
    Kind::Ignored(Ignored::Nobsdcomp),
    Kind::Ignored(Ignored::Nodeflate),
    Kind::Ignored(Ignored::Nodetach),
    Kind::Ignored(Ignored::Noipdefault),
    Kind::Ignored(Ignored::Defaultroute),
    Kind::Ignored(Ignored::Usepeerdns),
    Kind::Ignored(Ignored::Debug),
];

/// How a word that includes a file is spelled.
pub fn included_spelling(included: Included) -> &'static [u8]
    ensures { result.now ≡ included_spelled included }
{
    match included {
        Included::File => b"file",
        Included::Call => b"call",
    }
}

/// How a word with a value is spelled.
pub fn valued_spelling(valued: Valued) -> &'static [u8]
    ensures { result.now ≡ valued_spelled valued }
{
    match valued {
        Valued::Number(number) => number_spelling(number),
        Valued::Text(text) => text_spelling(text),
        Valued::Pty => b"pty",
        Valued::Connect => b"connect",
        Valued::Asyncmap => b"asyncmap",
        Valued::Endpoint => b"endpoint",
    }
}

// How a word is spelled.
fn spelling(kind: Kind) -> &'static [u8]
    ensures { result.now ≡ spelled kind }
{
    match kind {
        Kind::Link => b"link",
        Kind::Included(included) => included_spelling(included),
        Kind::Valued(valued) => valued_spelling(valued),
        Kind::Flag(flag) => flag_spelling(flag),
        Kind::Ignored(ignored) => ignored_spelling(ignored),
    }
}

/// What a word is, if it is one of the table's.
pub fn kind_of(word: &[u8]) -> Option<Kind>
    ensures { result ≡ kind_of word.now }
{
    KINDS.iter().copied().find(|kind| spelling(*kind) == word)
}
