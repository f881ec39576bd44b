ghost use Rattle.std.specs.Prelude.{◌≡◌};
ghost use Rattle.ppp_chat_words.specs.Front.{keyword_of};

/// An option of chat (chat(8), "Options").
#[derive(Clone, Copy)]
pub enum Keyword {
    /// `-v`, `-V`, `-s` or `-S`: without effect.
    Quiet,
    /// `-t`: a number of seconds stands behind it.
    Timeout,
    /// `-f`: a file's name stands behind it.
    File,
    /// `-L`: what is dialled stands behind it.
    Line,
}

// The option that a word is, if it is one.
pub(crate) fn keyword_of(word: &[u8]) -> Option<Keyword>
    ensures { result ≡ keyword_of word.now }
{
    if word == b"-t".as_slice() {
        Some(Keyword::Timeout)
    } else if word == b"-f".as_slice() {
        Some(Keyword::File)
    } else if word == b"-L".as_slice() {
        Some(Keyword::Line)
    } else if word == b"-v".as_slice()
        || word == b"-V".as_slice()
        || word == b"-s".as_slice()
        || word == b"-S".as_slice()
    {
        Some(Keyword::Quiet)
    } else {
        None
    }
}
