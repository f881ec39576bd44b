ghost use Rattle.std.specs.Prelude.{◌≡◌, ◌&&◌, ◌==◌, List, ℕ, Ok, IfOk, IfSome};
ghost use Rattle.std.specs.List.{find};
ghost use Rattle.std.specs.Option.{option_map, option_copied};
ghost use Rattle.std.specs.Int.{w32, from_be_bytes};
ghost use Rattle.ppp_secrets.specs.SecretLine.{SecretLine, line_numbered};
ghost use Rattle.ppp_secrets.specs.Reading.{Holds, secrets_of};
ghost use Rattle.ppp_secrets.specs.Answers.{Gives, GivesSome};
ghost use Rattle.ppp_secrets.specs.Lookup.{Lookup, line_for};
ghost use Rattle.ppp_secrets.specs.Steps.{first_match, searched};
ghost use Rattle.ppp_secrets.specs.Allows.{Allows, pair_allows};

use crate::allowing::allowed;
use crate::fault::SecretsFault;
use crate::line::Line;
use crate::reading::read_lines;
use ppp_base::{Allow, Name, NoMemory};
use std::alloc::Global;
use std::marker::Model;

/// What a secrets file holds: its lines that have words. Their numbers rise. Contracts see it as their list.
#[derive(Drop)]
pub struct Secrets {
    lines: Vec<Line>,
}

impl Model for Secrets {
    ghost use Rattle.std.specs.Prelude.{List};
    ghost use Rattle.ppp_secrets.specs.SecretLine.{SecretLine, IsRising};

    ghost Value = { List SecretLine };

    ghost view = { λ a. a.lines.items };

    ghost invariant = { λ a. IsRising a.lines.items };
}

/// The secrets for both ways to prove oneself.
#[derive(Drop)]
pub struct SecretsPair {
    /// Those of PAP (RFC 1334).
    pub pap: Secrets,
    /// Those of CHAP (RFC 1994).
    pub chap: Secrets,
}

// The first line for these two names that has so many `*`.
fn first_match<'a>(lines: &'a [Line], client: &Name, server: &Name, count: u8) -> Option<&'a Line>
    ensures { option_copied result ≡ first_match client.now server.now count lines.now }
{
    lines.iter().find(|line| line.is_match(client, server) && line.stars() == count)
}

// The first line for these two names with the fewest `*`.
#[tactic(auto, unfolding(crate::specs::Steps::searched))]
fn search<'a>(lines: &'a [Line], client: &Name, server: &Name) -> Option<&'a Line>
    ensures { option_copied result ≡ searched client.now server.now lines.now }
{
    if let Some(line) = first_match(lines, client, server, 0) {
        return Some(line);
    }
    if let Some(line) = first_match(lines, client, server, 1) {
        return Some(line);
    }
    first_match(lines, client, server, 2)
}

// The number of a line, if there is one.
fn number_of(line: Option<&Line>) -> Option<u32>
    ensures { result ≡ option_map (λ line. line.number) (option_copied line.entry) }
{
    match line {
        Some(line) => Some(line.number()),
        None => None,
    }
}

// The line with this number.
fn line_numbered(lines: &[Line], number: u32) -> Option<&Line>
    ensures { option_copied result ≡ line_numbered number lines.now }
{
    lines.iter().find(|line| line.number() == number)
}

// What a text holds.
fn held(alloc: Global, text: &[u8]) -> Result<Secrets, SecretsFault>
    ensures { Gives (λ secrets. secrets) result (secrets_of text.now) }
{
    let lines = read_lines(alloc, text)?;
    Ok(Secrets { lines })
}

impl Secrets {
    /// The secrets of a file's text. Lines are counted from 1 as lines of the file. Of several faults the one of the
    /// first line is answered, and on one line the one that `SecretsFault` names first. A text of more than `u32::MAX`
    /// lines is `NoMemory`.
    pub fn read(alloc: Global, text: &[u8]) -> Result<Secrets, SecretsFault>
        // What is answered is what the text holds.
        ensures holds { GivesSome (λ secrets. secrets) result (Holds text.now) }
        // A text that holds lines has these alone, and no fault but want of memory.
        ensures lines { (lines : List SecretLine) → Holds text.now (Ok lines) → Gives (λ secrets. secrets) result (Ok lines) }
        // The same, with what the text holds as a value.
        ensures exact { Gives (λ secrets. secrets) result (secrets_of text.now) }
    {
        held(alloc, text)
    }

    /// The number of the line for these two names: of those with the fewest `*` the first.
    pub fn lookup(&self, client: &Name, server: &Name) -> Option<u32>
        ensures lookup { Lookup self.now client.now server.now result }
        // The same, with the line as a value.
        ensures number { result ≡ option_map (λ line. line.number) (line_for self.now client.now server.now) }
        // `secret` and `allows` speak of this line.
        ensures line { IfSome result (λ number. line_numbered number self.now ≡ line_for self.now client.now server.now) }
    {
        number_of(search(self.lines.as_slice(), client, server))
    }

    /// The secret of a line, if this line was kept.
    pub fn secret(&self, line: u32) -> Option<&Name>
        ensures { option_copied result ≡ option_map (λ line. line.secret) (line_numbered line self.now) }
    {
        match line_numbered(self.lines.as_slice(), line) {
            Some(line) => Some(line.secret()),
            None => None,
        }
    }

    /// Whether a line allows its client this address, of which the first octet stands first.
    pub fn allows(&self, line: u32, address: [u8; 4]) -> bool
        ensures { result ≡ Allows self.now line (from_be_bytes w32 address) }
    {
        match line_numbered(self.lines.as_slice(), line) {
            Some(line) => allowed(line.addresses(), u32::from_be_bytes(address)),
            None => false,
        }
    }

    /// The same secrets again.
    pub fn copy(&self, alloc: Global) -> Result<Secrets, NoMemory>
        ensures { IfOk result (λ secrets. secrets ≡ self.now) }
    {
        Ok(Secrets {
            lines: copied(alloc, self.lines.as_slice())?,
        })
    }
}

// The same lines again.
fn copied(alloc: Global, lines: &[Line]) -> Result<Vec<Line>, NoMemory>
    ensures { IfOk result (λ copies. copies.items ≡ lines.now) }
{
    let mut copies = Vec::new(alloc);
    for line in lines {
        copies.push(line.copy(alloc)?)?;
    }
    Ok(copies)
}

impl SecretsPair {
    /// Whether a peer may have this address, of which the first octet stands first.
    pub fn allows(&self, allow: Allow, address: [u8; 4]) -> bool
        ensures { result ≡ pair_allows self.now.pap self.now.chap allow (from_be_bytes w32 address) }
    {
        match allow {
            Allow::Any => true,
            Allow::Pap(line) => self.pap.allows(line, address),
            Allow::Chap(line) => self.chap.allows(line, address),
        }
    }

    /// The same secrets again.
    pub fn copy(&self, alloc: Global) -> Result<SecretsPair, NoMemory>
        ensures { IfOk result (λ pair. pair ≡ self.now) }
    {
        Ok(SecretsPair {
            pap: self.pap.copy(alloc)?,
            chap: self.chap.copy(alloc)?,
        })
    }
}
