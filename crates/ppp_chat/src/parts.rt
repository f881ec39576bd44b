ghost use Rattle.std.specs.Prelude.{◌≡◌, ◌+◌, ◌<◌, ◌≤◌, ◌∷◌, ◌++◌, [], List, Bool, not, MatchOption, OnOk, IfSome, IfErr, length};
ghost use Rattle.std.specs.List.{position, slice_split};
ghost use Rattle.ppp_chat.specs.Pieces.{text_of};
ghost use Rattle.ppp_chat.specs.Reading.{Spells};
ghost use Rattle.ppp_chat.specs.Steps.{flat_expect, steps_left};
ghost use Rattle.ppp_chat.specs.Words.{all_pieces, expected_of, fits, is_hyphen, with_hyphens};

use crate::fault::ScriptFault;
use crate::pieces::Pieces;
use crate::send::push_send;
use crate::step::Step;
use crate::steps::Steps;
use crate::text::Text;
use std::alloc::Global;
use std::marker::Model;

/// The pieces of each part of a word. Contracts see them as their list.
#[derive(Drop)]
pub(crate) struct Parts {
    parts: Vec<Pieces>,
}

impl Model for Parts {
    ghost use Rattle.std.specs.Prelude.{List};
    ghost use Rattle.ppp_chat.specs.declared.piece.Piece.{Piece};

    ghost Value = { List (List Piece) };

    ghost view = { λ parts. parts.parts.items };
}

// The place of the first hyphen.
fn first_hyphen(word: &[u8]) -> Option<usize>
    ensures { result ≡ position is_hyphen word.now }
{
    word.iter().position(|octet| *octet == b'-')
}

// The part up to the first hyphen, and what stands behind it, if there is one.
fn first_part(word: &[u8]) -> (&[u8], Option<&[u8]>)
    ensures parts { MatchOption result.1 (slice_split is_hyphen word.now ≡ result.0.now ∷ [])
        (λ behind. slice_split is_hyphen word.now ≡ result.0.now ∷ slice_split is_hyphen behind.now) }
    ensures within { IfSome result.1 (λ behind. length behind.now < length word.now) }
{
    match first_hyphen(word) {
        None => (word, None),
        Some(place) => (&word[..place], Some(&word[place + 1..])),
    }
}

// Adds the steps of a part.
fn push_part(
    alloc: Global,
    steps: &mut Steps,
    is_sent: bool,
    part: &Pieces,
) -> Result<(), ScriptFault>
    requires { length (text_of part.now) ≤ 512 }
    ensures pushed { (left : List Pieces) → OnOk result (steps.old ++ steps_left is_sent (part.now ∷ left) ≡ steps.new ++ steps_left (not is_sent) left) }
    ensures memory { IfErr result (λ fault. fault ≡ ScriptFault.NoMemory) }
{
    if is_sent {
        push_send(alloc, steps, part)
    } else {
        steps.push(Step::Expect(part.text(alloc)?))
    }
}

// Adds the end of a word that is expected. Where its last part is sent, an empty part follows.
fn push_end(alloc: Global, steps: &mut Steps, is_sent: bool) -> Result<(), ScriptFault>
    ensures pushed { OnOk result (steps.new ≡ steps.old ++ steps_left is_sent []) }
    ensures memory { IfErr result (λ fault. fault ≡ ScriptFault.NoMemory) }
{
    if !is_sent {
        steps.push(Step::Expect(Text::new(Vec::new(alloc))))?;
    }
    steps.push(Step::Met)
}

impl Parts {
    /// Reads the parts of a word, which has this number.
    pub fn read(alloc: Global, number: usize, word: &[u8]) -> Result<Parts, ScriptFault>
        ensures { Spells number result (all_pieces (slice_split is_hyphen word.now)) }
    {
        let mut parts = Vec::new(alloc);
        let mut left = word;
        'parts: loop {
            let (part, behind) = first_part(left);
            parts.push(Pieces::read(alloc, number, part)?)?;
            let Some(behind) = behind else {
                return Ok(Parts { parts });
            };
            left = behind;
        }
    }

    /// Whether the word is not too long.
    pub fn fit(&self) -> bool
        ensures { result ≡ fits self.now }
    {
        let mut room = 513usize;
        let mut left = self.parts.as_slice();
        'fitting: while let [part, others @ ..] = left {
            let length = part.text_len();
            if room <= length {
                return false;
            }
            room -= length + 1;
            left = others;
        }
        true
    }

    /// Adds the steps of a word that is expected.
    pub fn push(&self, alloc: Global, steps: &mut Steps) -> Result<(), ScriptFault>
        requires { with_hyphens self.now ≤ 513 }
        ensures pushed { OnOk result (steps.new ≡ steps.old ++ flat_expect (expected_of self.now)) }
        ensures memory { IfErr result (λ fault. fault ≡ ScriptFault.NoMemory) }
    {
        let mut is_sent = false;
        let mut left = self.parts.as_slice();
        'parts: while let [part, others @ ..] = left {
            push_part(alloc, steps, is_sent, part)?;
            is_sent = !is_sent;
            left = others;
        }
        push_end(alloc, steps, is_sent)
    }
}
