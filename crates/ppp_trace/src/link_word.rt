ghost use Rattle.std.specs.Prelude.{◌≡◌};
ghost use Rattle.ppp_trace.specs.FullSteps.{done, link_text};

use crate::world_step::WorldStep;
use ppp_base::LinkId;

/// A step of a link that has no number and no octets.
#[derive(Clone, Copy, Debug, PartialEq, Eq)]
pub enum LinkWord {
    Begin,
    DialOk,
    DialFail,
    LineEnd,
    LineFail,
    LineLeft,
    SentOk,
    SentFail,
}

/// All of them.
pub const LINK_WORDS: [LinkWord; 8] = [
    LinkWord::Begin,
    LinkWord::DialOk,
    LinkWord::DialFail,
    LinkWord::LineEnd,
    LinkWord::LineFail,
    LinkWord::LineLeft,
    LinkWord::SentOk,
    LinkWord::SentFail,
];

impl LinkWord {
    /// The words behind the link's number.
    #[tactic(auto, unfolding(crate::specs::FullSteps::link_text))]
    pub fn text(self) -> &'static [u8]
        ensures { result.now ≡ link_text self }
    {
        match self {
            LinkWord::Begin => b"begin",
            LinkWord::DialOk => b"dial ok",
            LinkWord::DialFail => b"dial fail",
            LinkWord::LineEnd => b"line end",
            LinkWord::LineFail => b"line fail",
            LinkWord::LineLeft => b"line left",
            LinkWord::SentOk => b"sent ok",
            LinkWord::SentFail => b"sent fail",
        }
    }

    /// The step of a link.
    pub fn of(self, link: LinkId) -> WorldStep
        ensures { result ≡ done link self }
    {
        match self {
            LinkWord::Begin => WorldStep::Begin { link },
            LinkWord::DialOk => WorldStep::DialOk { link },
            LinkWord::DialFail => WorldStep::DialFail { link },
            LinkWord::LineEnd => WorldStep::LineEnd { link },
            LinkWord::LineFail => WorldStep::LineFail { link },
            LinkWord::LineLeft => WorldStep::LineLeft { link },
            LinkWord::SentOk => WorldStep::SentOk { link },
            LinkWord::SentFail => WorldStep::SentFail { link },
        }
    }
}
