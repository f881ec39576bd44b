ghost use Rattle.std.specs.Prelude.{◌≡◌};
ghost use Rattle.ppp_option_words.specs.declared.fault.OptionsFault.TheVariants.{NoMemory as Memory};

use crate::fault_word::FaultWord;
use ppp_base::NoMemory;
use std::alloc::{AllocError, AllocFailed};

/// Why option words are no configuration. The first fault in word order is told, where the words of a file stand in the
/// place of `file` or `call`. After all words come `Missing` and `Clash` of a link, by link.
#[derive(Debug, Drop)]
pub enum OptionsFault {
    /// This is no option word.
    Unknown(FaultWord),
    /// The words end before the value of this one; or a link has no word `socket` and no word `pty`.
    Missing(FaultWord),
    /// This value is no number, or has too many digits; or it isn't an even count of hexadecimal digits.
    BadNumber(FaultWord),
    /// This value is out of range, or too long a text.
    OutOfRange(FaultWord),
    /// Both words stand for one link.
    Clash(FaultWord, FaultWord),
    /// The file of this name would be nested more than 8 deep.
    Depth(FaultWord),
    /// In the file of this name the quote that begins on this line, counted from 1, is open at the end.
    BadQuote(FaultWord, usize),
    /// The word `link` stands for the link of this number, which is one too many.
    TooMany(u8),
    /// The file of this name could not be read.
    FileFault(FaultWord),
    /// There is no file of this name.
    NoFile(FaultWord),
    /// This word of a `connect` value is wrong.
    BadScript(FaultWord),
    /// Memory ran out.
    NoMemory,
}

impl From<NoMemory> for OptionsFault {
    ghost from_gives = { λ _ fault. fault ≡ Memory };

    fn from(_error: NoMemory) -> OptionsFault {
        OptionsFault::NoMemory
    }
}

impl From<AllocError> for OptionsFault {
    ghost from_gives = { λ _ fault. fault ≡ Memory };

    fn from(_error: AllocError) -> OptionsFault {
        OptionsFault::NoMemory
    }
}

impl<T: Drop> From<AllocFailed<T>> for OptionsFault {
    ghost from_gives = { λ _ fault. fault ≡ Memory };

    fn from(_error: AllocFailed<T>) -> OptionsFault {
        OptionsFault::NoMemory
    }
}
