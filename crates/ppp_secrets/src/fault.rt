ghost use Rattle.std.specs.Prelude.{◌≡◌};
ghost use Rattle.ppp_secrets.specs.declared.fault.SecretsFault.TheVariants.{NoMemory as Memory};

use ppp_base::NoMemory;
use std::alloc::{AllocError, AllocFailed};
use thiserror::Error;

/// Why a secrets file wasn't read. Each but the last names its line, counted from 1.
#[derive(Clone, Copy, Debug, PartialEq, Eq, Error)]
pub enum SecretsFault {
    /// A quote is open at the line's end.
    #[error("line {0}: a quote is open at the end")]
    BadQuote(u32),
    /// The line has one word or two.
    #[error("line {0}: fewer than three words")]
    FewWords(u32),
    /// A word of the line has more than 255 octets.
    #[error("line {0}: a word of more than 255 octets")]
    TooLong(u32),
    /// The line's secret begins with `@`, and so names a file, which isn't supported.
    #[error("line {0}: the secret names a file")]
    FileSecret(u32),
    /// A word behind the secret isn't an address word.
    #[error("line {0}: a word that is no address")]
    BadAddress(u32),
    /// Memory ran out.
    #[error("out of memory")]
    NoMemory,
}

impl From<NoMemory> for SecretsFault {
    ghost from_gives = { λ _ fault. fault ≡ Memory };

    fn from(_error: NoMemory) -> SecretsFault {
        SecretsFault::NoMemory
    }
}

impl From<AllocError> for SecretsFault {
    ghost from_gives = { λ _ fault. fault ≡ Memory };

    fn from(_error: AllocError) -> SecretsFault {
        SecretsFault::NoMemory
    }
}

impl<T: Drop> From<AllocFailed<T>> for SecretsFault {
    ghost from_gives = { λ _ fault. fault ≡ Memory };

    fn from(_error: AllocFailed<T>) -> SecretsFault {
        SecretsFault::NoMemory
    }
}
