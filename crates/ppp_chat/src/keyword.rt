ghost use Rattle.std.specs.Prelude.{◌≡◌};
ghost use Rattle.ppp_chat.specs.Words.{keyword_of, name_of};

/// The name of a directive.
#[derive(Clone, Copy)]
pub(crate) enum Keyword {
    /// `ABORT`
    Abort,
    /// `CLR_ABORT`
    ClearAbort,
    /// `TIMEOUT`
    Timeout,
}

const KEYWORDS: [Keyword; 3] = [Keyword::Abort, Keyword::ClearAbort, Keyword::Timeout];

// The word that is a directive's name.
fn name(keyword: Keyword) -> &'static [u8]
    ensures { result.now ≡ name_of keyword }
{
    match keyword {
        Keyword::Abort => b"ABORT",
        Keyword::ClearAbort => b"CLR_ABORT",
        Keyword::Timeout => b"TIMEOUT",
    }
}

// The directive that a word names, if it does.
pub(crate) fn keyword_of(word: &[u8]) -> Option<Keyword>
    ensures { result ≡ keyword_of word.now }
{
    KEYWORDS
        .iter()
        .copied()
        .find(|keyword| name(*keyword) == word)
}
