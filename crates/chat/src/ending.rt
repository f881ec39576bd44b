ghost use Rattle.std.specs.Prelude.{◌≡◌};
ghost use Rattle.chat.specs.Run.{EndIsNumbered, IsNumbered, TalkIsNumbered, over_status, refused_status, status_of, talk_status};

use ppp_chat::ChatEnd;

/// Why nothing is dialled.
#[derive(Clone, Copy, Debug, PartialEq, Eq)]
pub enum Refusal {
    /// The words ask for nothing that is known, or a quote is open in the script's file.
    OtherWords,
    /// The script's words are no script.
    BadScript,
    /// There is no file of this name.
    NoFile,
    /// The files failed.
    FilesFailed,
    /// Memory ran out.
    NoMemory,
}

/// How a conversation ended.
#[derive(Clone, Copy, Debug, PartialEq, Eq)]
pub enum TalkEnd {
    /// The script has ended so.
    Over(ChatEnd),
    /// The line was at its end before.
    LineEnded,
    /// A read of the line failed.
    LineFailed,
    /// A write to the line failed.
    SendFailed,
}

/// How a run ended.
#[derive(Clone, Copy, Debug, PartialEq, Eq)]
pub enum Ending {
    /// Nothing was dialled.
    Refused(Refusal),
    /// The dial failed.
    NoLine,
    /// A line was dialled, and the script was run over it.
    Talked(TalkEnd),
}

// The status of a script's end.
fn over_status(how: ChatEnd) -> u8
    requires { IsNumbered how }
    ensures { result ≡ over_status how }
{
    match how {
        ChatEnd::Done => 0,
        ChatEnd::TimedOut => 3,
        ChatEnd::Aborted(number) => 3 + number,
    }
}

impl TalkEnd {
    // The status of a conversation's end.
    fn status(self) -> u8
        requires { TalkIsNumbered self }
        ensures { result ≡ talk_status self }
    {
        match self {
            TalkEnd::Over(how) => over_status(how),
            TalkEnd::LineEnded | TalkEnd::LineFailed | TalkEnd::SendFailed => 2,
        }
    }
}

impl Refusal {
    /// The status where nothing is dialled.
    pub fn status(self) -> u8
        ensures { result ≡ refused_status self }
    {
        match self {
            Refusal::OtherWords | Refusal::BadScript => 1,
            Refusal::NoFile | Refusal::FilesFailed => 2,
            Refusal::NoMemory => 64,
        }
    }
}

impl Ending {
    /// The status of the program.
    pub fn status(self) -> u8
        requires { EndIsNumbered self }
        ensures { result ≡ status_of self }
    {
        match self {
            Ending::Refused(refusal) => refusal.status(),
            Ending::NoLine => 2,
            Ending::Talked(end) => end.status(),
        }
    }
}
