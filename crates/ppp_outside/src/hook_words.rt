ghost use Rattle.std.specs.Prelude.{◌≡◌, ℕ, ◌+◌, ◌≤◌, List, ◌++◌, length, slice_get, decimal};
ghost use Rattle.ppp_outside.specs.HookWords.{texts_of, dotted, interface_of};

use itoa::Buffer;
use ppp_base::{Name, Unit};

/// The site scripts: ip-up and ip-down run as the network comes and goes, auth-up and auth-down as a peer has
/// proved itself and as its link goes.
#[derive(Clone, Copy, Debug, PartialEq, Eq)]
pub enum HookScript {
    IpUp,
    IpDown,
    AuthUp,
    AuthDown,
}

/// What the arguments of a script are made of.
#[derive(Debug, Drop)]
pub struct HookArgs {
    pub unit: Unit,
    pub device: Name,
    pub peer: Name,
    /// Our IP address and the peer's, the most significant octet first.
    pub local: [u8; 4],
    pub remote: [u8; 4],
    /// The option `ipparam`, empty where there is none.
    pub param: Name,
}

impl HookArgs {
    /// The same arguments again. It takes no memory.
    pub fn copy(&self) -> HookArgs
        ensures { result ≡ self.now }
    {
        HookArgs {
            unit: self.unit,
            device: self.device.copy(),
            peer: self.peer.copy(),
            local: self.local,
            remote: self.remote,
            param: self.param.copy(),
        }
    }
}

/// A script and what its arguments are made of.
#[derive(Debug, Drop)]
pub struct HookWords {
    pub script: HookScript,
    pub args: HookArgs,
}

impl HookWords {
    /// The same words again. It takes no memory.
    pub fn copy(&self) -> HookWords
        ensures { result ≡ self.now }
    {
        HookWords {
            script: self.script,
            args: self.args.copy(),
        }
    }
}

// Appends a number in decimal: at most three digits.
#[tactic(auto, using(crate::proofs::Digits::three_digits))]
fn push_decimal(text: &mut Name, number: u8)
    requires { length text.old + 3 ≤ 255 }
    ensures value { text.new ≡ text.old ++ decimal number }
    ensures few { length text.new ≤ length text.old + 3 }
{
    let mut digits = Buffer::new();
    text.append(digits.format(number).as_bytes());
}

fn short(text: &[u8]) -> Name
    requires { length text.now ≤ 255 }
    ensures { result ≡ text.now }
{
    let mut name = Name::new();
    name.append(text);
    name
}

fn interface(unit: Unit) -> Name
    ensures { result ≡ interface_of unit }
{
    let mut name = short(b"ppp");
    push_decimal(&mut name, unit.number());
    name
}

fn address(octets: &[u8; 4]) -> Name
    ensures { result ≡ dotted octets.now }
{
    let mut name = Name::new();
    push_decimal(&mut name, octets[0]);
    name.append(b".");
    push_decimal(&mut name, octets[1]);
    name.append(b".");
    push_decimal(&mut name, octets[2]);
    name.append(b".");
    push_decimal(&mut name, octets[3]);
    name
}

/// The script's argument number `at`, from 0 on, as pppd(8) lists them under "Scripts". None is past the last one.
/// It takes no memory.
pub fn words_of(words: &HookWords, at: u8) -> Option<Name>
    ensures { result ≡ slice_get (texts_of words.now) at }
{
    let args = &words.args;
    match words.script {
        HookScript::IpUp | HookScript::IpDown => match at {
            0 => Some(interface(args.unit)),
            1 => Some(args.device.copy()),
            2 => Some(short(b"0")),
            3 => Some(address(&args.local)),
            4 => Some(address(&args.remote)),
            5 => Some(args.param.copy()),
            _ => None,
        },
        HookScript::AuthUp | HookScript::AuthDown => match at {
            0 => Some(interface(args.unit)),
            1 => Some(args.peer.copy()),
            2 => Some(short(b"-")),
            3 => Some(args.device.copy()),
            4 => Some(short(b"0")),
            _ => None,
        },
    }
}
