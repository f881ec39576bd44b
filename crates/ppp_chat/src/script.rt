ghost use Rattle.std.specs.Prelude.{◌≡◌, ℕ, map, length, IfOk, IfErr};
ghost use Rattle.std.specs.Global.{Vec};
ghost use Rattle.ppp_chat.specs.Reading.{Gives, NamesWord};
ghost use Rattle.ppp_chat.specs.Room.{AreFew};
ghost use Rattle.ppp_chat.specs.Steps.{flat};
ghost use Rattle.ppp_chat.specs.Texts.{AreShort};
ghost use Rattle.ppp_chat.specs.Words.{script_of};

use crate::fault::ScriptFault;
use crate::step::Step;
use crate::steps::Steps;
use crate::word::{read_last, read_two};
use ppp_base::NoMemory;
use std::alloc::Global;
use std::marker::Model;

/// A script that was read: expect, send, abort, time out (chat(8), "Chat script"). Contracts see its items.
#[derive(Drop)]
pub struct Script {
    steps: Steps,
    timeout_s: u32,
}

impl Model for Script {
    ghost use Rattle.std.specs.Prelude.{◌≡◌};
    ghost use Rattle.ppp_chat.specs.Script.{ChatScript};
    ghost use Rattle.ppp_chat.specs.Steps.{flat, items_of};

    ghost Value = { ChatScript };

    ghost view = { λ script. record { items = items_of script.steps; timeout_s = script.timeout_s } };

    ghost invariant = { λ script. flat (items_of script.steps) ≡ script.steps };
}

impl Script {
    /// Reads the words of a script. An expect is late after so many seconds, where no word says others.
    ///
    /// The words are those behind `chat` and its options, without the quotes of a file or of a shell.
    pub fn read(alloc: Global, words: &[Vec<u8>], timeout_s: u32) -> Result<Script, ScriptFault>
        ensures gives { Gives result (script_of (map (λ (word : Vec ℕ). word.items) words.now)) timeout_s }
        ensures word { IfErr result (λ fault. NamesWord fault (length words.now)) }
    {
        let mut steps = Steps::new(alloc);
        let mut number = 1usize;
        let mut left = words;
        'reading: while let [first, second, others @ ..] = left {
            read_two(
                alloc,
                &mut steps,
                number,
                first.as_slice(),
                second.as_slice(),
            )?;
            number += 2;
            left = others;
        }
        if let Some(last) = left.first() {
            read_last(alloc, &mut steps, number, last.as_slice())?;
        }
        Ok(Script { steps, timeout_s })
    }

    /// The same script again.
    pub fn copy(&self, alloc: Global) -> Result<Script, NoMemory>
        ensures { IfOk result (λ script. script ≡ self.now) }
    {
        Ok(Script {
            steps: self.steps.copy(alloc)?,
            timeout_s: self.timeout_s,
        })
    }

    // The steps.
    pub(crate) fn steps(&self) -> &[Step]
        ensures steps { result.now ≡ flat self.now.items }
        ensures short { AreShort (flat self.now.items) }
        ensures few { AreFew (flat self.now.items) }
    {
        self.steps.as_slice()
    }

    // After so many seconds an expect is late, where no step says others.
    pub(crate) fn timeout_s(&self) -> u32
        ensures { result ≡ self.now.timeout_s }
    {
        self.timeout_s
    }
}
