ghost use Rattle.std.specs.Prelude.{◌≡◌, ◌↔◌, IsTrue};
ghost use Rattle.ppp_outside.specs.LineWords.{IsUnixPath};

use ppp_base::Octets;

/// Which line is dialled.
#[derive(Debug, PartialEq, Eq, Drop)]
pub enum LineWords {
    /// A socket: the path of a Unix socket where the text begins with `/`, and else `host:port`.
    Socket(Octets<255>),
    /// The standard input and output of this command, which `sh -c` runs.
    Pty(Octets<512>),
}

impl LineWords {
    /// Whether it is a Unix socket's path.
    pub fn is_unix_path(&self) -> bool
        ensures { IsTrue result ↔ IsUnixPath self.now }
    {
        match self {
            LineWords::Socket(text) => text.as_slice().first() == Some(&b'/'),
            LineWords::Pty(_) => false,
        }
    }

    /// The same words again. It takes no memory.
    pub fn copy(&self) -> LineWords
        ensures { result ≡ self.now }
    {
        match self {
            LineWords::Socket(text) => LineWords::Socket(text.copy()),
            LineWords::Pty(command) => LineWords::Pty(command.copy()),
        }
    }
}
