ghost use Rattle.std.specs.Prelude.{◌≡◌, [], ◌∷◌};
ghost use Rattle.ppp_fsm.specs.Acts.{has};

use arrayvec::ArrayVec;
use std::marker::Model;

/// What an automaton does at an event.
#[derive(Clone, Copy, Debug, Default, PartialEq, Eq)]
pub enum Act {
    /// This layer is up.
    #[default]
    Tlu,
    /// This layer goes down.
    Tld,
    /// This layer starts.
    Tls,
    /// This layer has finished.
    Tlf,
    /// The restart counter is set.
    Irc,
    /// The restart counter is zeroed.
    Zrc,
    /// Send a Configure-Request.
    Scr,
    /// Send a Configure-Ack.
    Sca,
    /// Send a Configure-Nak or -Reject.
    Scn,
    /// Send a Terminate-Request.
    Str,
    /// Send a Terminate-Ack.
    Sta,
    /// Send a Code-Reject.
    Scj,
    /// Send an Echo-Reply.
    Ser,
}

/// The acts of one event, in order: at most four. Contracts see them as their list.
#[derive(Drop)]
pub struct Acts {
    list: ArrayVec<Act, 4>,
}

impl Model for Acts {
    ghost use Rattle.std.specs.Prelude.{List};
    ghost use Rattle.ppp_fsm.specs.declared.acts.Act.{Act};

    ghost Value = { List Act };

    ghost view = { λ a. a.list.items };
}

impl Acts {
    pub(crate) fn none() -> Acts
        ensures { result ≡ [] }
    {
        Acts {
            list: ArrayVec::new(),
        }
    }

    pub(crate) fn one(first: Act) -> Acts
        ensures { result ≡ first ∷ [] }
    {
        let mut list = ArrayVec::new();
        list.push(first);
        Acts { list }
    }

    pub(crate) fn two(first: Act, second: Act) -> Acts
        ensures { result ≡ first ∷ second ∷ [] }
    {
        let mut list = ArrayVec::new();
        list.push(first);
        list.push(second);
        Acts { list }
    }

    pub(crate) fn three(first: Act, second: Act, third: Act) -> Acts
        ensures { result ≡ first ∷ second ∷ third ∷ [] }
    {
        let mut list = ArrayVec::new();
        list.push(first);
        list.push(second);
        list.push(third);
        Acts { list }
    }

    /// Whether this act is among them.
    pub fn has(&self, act: Act) -> bool
        ensures { result ≡ has act self.now }
    {
        let mut left = self.list.as_slice();
        'looking: while let [first, others @ ..] = left {
            if *first as u8 == act as u8 {
                return true;
            }
            left = others;
        }
        false
    }

    /// The acts, in order.
    pub fn as_slice(&self) -> &[Act]
        ensures { result.now ≡ self.now }
    {
        self.list.as_slice()
    }
}

impl From<ArrayVec<Act, 4>> for Acts {
    ghost from_gives = { λ list acts. acts ≡ list.items };

    fn from(list: ArrayVec<Act, 4>) -> Acts {
        Acts { list }
    }
}

impl From<Acts> for ArrayVec<Act, 4> {
    ghost from_gives = { λ acts list. list.items ≡ acts };

    fn from(acts: Acts) -> ArrayVec<Act, 4> {
        acts.list
    }
}
