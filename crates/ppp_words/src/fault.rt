ghost use Rattle.std.specs.Prelude.{◌≡◌};
ghost use Rattle.ppp_words.specs.declared.fault.WordsFault.TheVariants.{NoMemory as Memory};

use ppp_base::NoMemory;
use std::alloc::AllocFailed;
use thiserror::Error;

/// Why the words of a text weren't read.
#[derive(Clone, Copy, Debug, PartialEq, Eq, Error)]
pub enum WordsFault {
    /// The quote that begins on this line, counted from 1, is open at the text's end.
    #[error("line {0}: the quote that begins here is open at the end")]
    OpenQuote(usize),
    /// Memory ran out.
    #[error("out of memory")]
    NoMemory,
}

impl From<NoMemory> for WordsFault {
    ghost from_gives = { λ _ fault. fault ≡ Memory };

    fn from(_error: NoMemory) -> WordsFault {
        WordsFault::NoMemory
    }
}

impl<T: Drop> From<AllocFailed<T>> for WordsFault {
    ghost from_gives = { λ _ fault. fault ≡ Memory };

    fn from(_error: AllocFailed<T>) -> WordsFault {
        WordsFault::NoMemory
    }
}
