ghost use Rattle.std.specs.Prelude.{◌≡◌, ◌+◌, ◌^◌, ◌<◌, ℕ, true, false, List, [], ◌∷◌, ◌++◌, length, map};
ghost use Rattle.ppp_hooks.specs.HookMark.{HookMark};
ghost use Rattle.ppp_hooks.specs.HookPast.{IsSettled};
ghost use Rattle.ppp_hooks.specs.HookPlace.{is_among, openings_in};
ghost use Rattle.ppp_mark.specs.declared.kind.TheConstants.{START};
ghost use Rattle.ppp_mark.specs.declared.mark.Mark.{Mark};
ghost use Rattle.ppp_mark.specs.Lines.{lines_of};
ghost use Rattle.ppp_mark.specs.Scripts.{is_closed_kind};
ghost use Rattle.ppp_report.specs.Reads.{ReadsMarks, opens_in};
ghost use Rattle.ppp_report.specs.Report.{AreFit, mark_word};
ghost use Rattle.ppp_report.specs.Tells.{Ends, Tells};

use crate::mark_line::first_mark;
use crate::scripts::Scripts;
use ppp_mark::{LogName, Mark, kind};

/// The marks that a text begins with.
#[derive(Drop)]
pub struct Marks<'a> {
    /// What follows them.
    pub rest: &'a [u8],
    /// How many there are.
    pub count: u64,
    /// How they end.
    pub end: MarksEnd,
}

/// How the marks of a log end.
#[derive(Clone, Copy, PartialEq, Eq)]
pub enum MarksEnd {
    /// The law of site scripts fails at the last one.
    Broken,
    /// They keep it, but their scripts don't agree with the protocol.
    Unsettled,
    /// They keep it and agree.
    Settled,
}

// Whether the mark opens the protocol under this number.
fn opens(mark: Mark, opening: u32) -> bool
    ensures { result ≡ opens_in opening (mark ∷ []) }
{
    (mark.kind == kind::AUTH_OPEN || mark.kind == kind::IP_OPEN) && mark.z == opening
}

// Whether one of so many marks that the text begins with opens the protocol under this number.
fn is_opened_in(text: &[u8], of: &LogName, count: u64, opening: u32) -> bool
    ensures { (marks : List Mark) (others : List (List ℕ)) → AreFit of.now marks → lines_of text.now ≡ map mark_word marks ++ others → count ≡ length marks
        → result ≡ opens_in opening marks }
{
    let mut rest = text;
    let mut left = count;
    'seeking: while left > 0 {
        let Some((mark, others)) = first_mark(rest, of) else {
            return false;
        };
        if opens(mark, opening) {
            return true;
        }
        rest = others;
        left -= 1;
    }
    false
}

// Whether a start's opening is one of those since the protocol last closed, since when so many marks stand.
fn is_among(scripts: &Scripts, mark: Mark, since: &[u8], recent: u64, of: &LogName) -> bool
    ensures { (past : List HookMark) (marks : List Mark) (others : List (List ℕ)) → Tells scripts.now past → AreFit of.now marks
        → lines_of since.now ≡ map mark_word marks ++ others → recent ≡ length marks → ((n : ℕ) → is_among n (openings_in past) ≡ opens_in n marks)
        → mark.kind ≡ START → result ≡ is_among mark.z (openings_in past) }
{
    if mark.kind != kind::START {
        false
    } else if scripts.several {
        is_opened_in(since, of, recent, mark.z)
    } else {
        scripts.now_open == Some(mark.z)
    }
}

// Where the marks since the last closing begin, and how many they are, with this mark more.
fn since_closing<'a>(mark: Mark, since: &'a [u8], recent: u64, others: &'a [u8]) -> (&'a [u8], u64)
    requires { recent < 2 ^ 63 }
    ensures closed { is_closed_kind mark.kind ≡ true → (result.0.now ≡ others.now) × (result.1 ≡ 0) }
    ensures other { is_closed_kind mark.kind ≡ false → (result.0.now ≡ since.now) × (result.1 ≡ recent + 1) }
{
    if mark.kind == kind::AUTH_CLOSED || mark.kind == kind::IP_CLOSED {
        (others, 0)
    } else {
        (since, recent + 1)
    }
}

// How marks end that keep the law.
fn end_of(scripts: &Scripts) -> MarksEnd
    ensures { (past : List HookMark) → Tells scripts.now past → Ends result past }
{
    if scripts.settled() {
        MarksEnd::Settled
    } else {
        MarksEnd::Unsettled
    }
}

/// Reads the marks of one object's log, up to a line that is none, or at which the law of site scripts fails. Marks
/// since the last closing are read once more at a start where several openings are open, which the law lets happen
/// twice between two closings: the time is that of one pass.
pub fn read_marks<'a>(text: &'a [u8], of: &LogName) -> Marks<'a>
    ensures { ReadsMarks of.now text.now result.rest.now result.count result.end }
{
    let mut scripts = Scripts::none();
    let mut rest = text;
    let mut count = 0;
    let mut since = text;
    let mut recent = 0;
    'reading: while let Some((mark, others)) = first_mark(rest, of) {
        let among = is_among(&scripts, mark, since, recent, of);
        let Some(next) = scripts.with(mark, among) else {
            return Marks {
                rest: others,
                count: count + 1,
                end: MarksEnd::Broken,
            };
        };
        let (begin, number) = since_closing(mark, since, recent, others);
        since = begin;
        recent = number;
        scripts = next;
        count += 1;
        rest = others;
    }
    Marks {
        rest,
        count,
        end: end_of(&scripts),
    }
}
