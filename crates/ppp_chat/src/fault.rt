ghost use Rattle.std.specs.Prelude.{◌≡◌};
ghost use Rattle.ppp_chat.specs.declared.fault.ScriptFault.TheVariants.{NoMemory as Memory};

use std::alloc::{AllocError, AllocFailed};
use thiserror::Error;

/// Why words are no script. Words are counted from 1.
#[derive(Clone, Copy, Debug, PartialEq, Eq, Error)]
pub enum ScriptFault {
    /// This word has an escape that there is none of.
    #[error("word {0}: bad escape")]
    BadEscape(usize),
    /// This word behind `TIMEOUT` is no number from 1 to 65535.
    #[error("word {0}: no number from 1 to 65535")]
    BadNumber(usize),
    /// With this word, behind `ABORT`, more than 50 abort strings are set at once.
    #[error("word {0}: more than 50 abort strings at once")]
    TooManyAborts(usize),
    /// This word has more than 512 octets after its escapes.
    #[error("word {0}: more than 512 octets")]
    TooLong(usize),
    /// Memory ran out.
    #[error("out of memory")]
    NoMemory,
}

impl From<AllocError> for ScriptFault {
    ghost from_gives = { λ _ fault. fault ≡ Memory };

    fn from(_error: AllocError) -> ScriptFault {
        ScriptFault::NoMemory
    }
}

impl<T: Drop> From<AllocFailed<T>> for ScriptFault {
    ghost from_gives = { λ _ fault. fault ≡ Memory };

    fn from(_error: AllocFailed<T>) -> ScriptFault {
        ScriptFault::NoMemory
    }
}
