ghost use Rattle.std.specs.Prelude.{◌≡◌, ◌≤◌, [], length};
ghost use Rattle.std.specs.List.{slice_split};
ghost use Rattle.ppp_option_words.specs.Answers.{Gives};
ghost use Rattle.ppp_option_words.specs.Picks.{is_link};
ghost use Rattle.ppp_options.specs.Steps.{pushed};

use ppp_option_words::{Included, Item, OptionsFault, Valued};
use std::alloc::Global;
use std::marker::Model;

/// What the last word still awaits.
#[derive(Clone, Copy)]
pub enum Awaits {
    Nothing,
    /// The value of this word.
    Value(Valued),
    /// The name of a file.
    FileName(Included),
}

/// What the words so far have said.
#[derive(Drop)]
pub(crate) struct Given {
    items: Vec<Item>,
    awaits: Awaits,
    links: u8,
}

impl Model for Given {
    ghost use Rattle.std.specs.Prelude.{◌≡◌, ◌+◌, ◌≤◌, length};
    ghost use Rattle.std.specs.List.{slice_split};
    ghost use Rattle.ppp_options.specs.GivenValue.{GivenValue};
    ghost use Rattle.ppp_option_words.specs.Picks.{is_link};

    ghost Value = { GivenValue };

    ghost view = { λ given. record { items = given.items.items; awaits = given.awaits; links = given.links } };

    ghost invariant = { λ given. (given.links ≤ 16) × (length (slice_split is_link given.items.items) ≡ given.links + 1) };
}

impl Given {
    // Before the first word.
    pub fn new(alloc: Global) -> Given
        ensures { result ≡ record { items = []; awaits = Awaits.Nothing; links = 0 } }
    {
        Given {
            items: Vec::new(alloc),
            awaits: Awaits::Nothing,
            links: 0,
        }
    }

    // What the last word still awaits.
    pub fn awaits(&self) -> Awaits
        ensures { result ≡ self.now.awaits }
    {
        self.awaits
    }

    // From now on this is awaited.
    pub fn await_now(&mut self, awaits: Awaits)
        ensures { self.new ≡ record self.old { awaits = awaits } }
    {
        self.awaits = awaits;
    }

    // Adds what a word says. The seventeenth `link` is one too many.
    #[tactic(auto, using(crate::proofs::SectionLemmas::sections_one_more))]
    pub fn push(&mut self, item: Item) -> Result<(), OptionsFault>
        ensures { Gives (λ _. self.new) result (pushed self.old item) }
    {
        let link = item.is_link();
        if link && 16 <= self.links {
            return Err(OptionsFault::TooMany(17));
        }
        self.items.push(item)?;
        if link {
            self.links += 1;
        }
        Ok(())
    }

    // What the words have said: at most 16 links.
    pub fn items(&self) -> &[Item]
        ensures items { result.now ≡ self.now.items }
        ensures few { length (slice_split is_link self.now.items) ≤ 17 }
    {
        self.items.as_slice()
    }
}
