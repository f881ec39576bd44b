ghost use Rattle.std.specs.Prelude.{◌≡◌, ◌≤◌};
ghost use Rattle.ppp_mark.specs.Marks.{address_number, mark, signal_number, asked_mark, attempt_mark, auth_closed_mark, auth_open_mark, cause_mark, close_mark, ended_mark, finished_mark, hold_mark, in_mark, ip_closed_mark, ip_open_mark, lcp_closed_mark, lcp_open_mark, left_mark, line_mark, live_mark, local_mark, made_mark, member_mark, out_mark, over_mark, refused_mark, remote_mark, signal_mark, started_mark, unmade_mark, wait_mark};
ghost use Rattle.ppp_mark.specs.Table.{IsInTable};

use crate::kind;
use ppp_base::{CloseCause, LinkId, Refusal, SignalWord, Unit};
use ppp_outside::ScriptEnd;

/// What happened, as a kind and four numbers: 16 octets. The functions below make a mark of each kind, at a time in
/// milliseconds.
#[derive(Clone, Copy, Debug, PartialEq, Eq)]
pub struct Mark {
    /// What it tells: one of `kind`.
    pub kind: u8,
    /// Whose, or which of a few.
    pub x: u8,
    /// What belongs to a cause, or an exit status.
    pub y: u16,
    /// The number of a session, an opening, a stay, a job or a bundle, an address, or milliseconds.
    pub z: u32,
    /// When, in milliseconds.
    pub time: u64,
}

// The number of a signal.
fn signal_number(word: SignalWord) -> u8
    ensures { result ≡ signal_number word }
{
    match word {
        SignalWord::Hup => 1,
        SignalWord::Int => 2,
        SignalWord::Term => 3,
        SignalWord::Usr1 => 4,
        SignalWord::Usr2 => 5,
    }
}

// An address as a number: its first octet counts most.
fn address_number(address: [u8; 4]) -> u32
    ensures value { result ≡ address_number address }
{
    let [a, b, c, d] = address;
    ((u32::from(a) * 256 + u32::from(b)) * 256 + u32::from(c)) * 256 + u32::from(d)
}

// A mark of this kind.
fn made(time: u64, kind: u8, x: u8, y: u16, z: u32) -> Mark
    ensures { result ≡ mark time kind x y z }
{
    Mark {
        kind,
        x,
        y,
        z,
        time,
    }
}

impl Mark {
    /// A dial begins, and with it a session.
    pub fn attempt(time: u64, session: u32) -> Mark
        ensures value { result ≡ attempt_mark time session }
        ensures in_table { IsInTable result }
    {
        made(time, kind::ATTEMPT, 0, 0, session)
    }

    /// The session has its line.
    pub fn line(time: u64, session: u32) -> Mark
        ensures value { result ≡ line_mark time session }
        ensures in_table { IsInTable result }
    {
        made(time, kind::LINE, 0, 0, session)
    }

    /// LCP has opened. Its openings are counted over the link's life.
    pub fn lcp_open(time: u64, opening: u32) -> Mark
        ensures value { result ≡ lcp_open_mark time opening }
        ensures in_table { IsInTable result }
    {
        made(time, kind::LCP_OPEN, 0, 0, opening)
    }

    /// LCP has closed.
    pub fn lcp_closed(time: u64, opening: u32) -> Mark
        ensures value { result ≡ lcp_closed_mark time opening }
        ensures in_table { IsInTable result }
    {
        made(time, kind::LCP_CLOSED, 0, 0, opening)
    }

    /// The peer has proved itself.
    pub fn auth_open(time: u64, opening: u32) -> Mark
        ensures value { result ≡ auth_open_mark time opening }
        ensures in_table { IsInTable result }
    {
        made(time, kind::AUTH_OPEN, 0, 0, opening)
    }

    /// What the peer had proved is over.
    pub fn auth_closed(time: u64, opening: u32) -> Mark
        ensures value { result ≡ auth_closed_mark time opening }
        ensures in_table { IsInTable result }
    {
        made(time, kind::AUTH_CLOSED, 0, 0, opening)
    }

    /// A script was started, up or down, for an opening.
    pub fn started(time: u64, up: bool, opening: u32) -> Mark
        ensures value { result ≡ started_mark time up opening }
        ensures in_table { IsInTable result }
    {
        made(time, kind::START, if up { 1 } else { 2 }, 0, opening)
    }

    /// The link asks for a bundle.
    pub fn asked(time: u64, stay: u32) -> Mark
        ensures value { result ≡ asked_mark time stay }
        ensures in_table { IsInTable result }
    {
        made(time, kind::ASKED, 0, 0, stay)
    }

    /// The link asks no more, or is no member any more.
    pub fn left(time: u64, stay: u32) -> Mark
        ensures value { result ≡ left_mark time stay }
        ensures in_table { IsInTable result }
    {
        made(time, kind::LEFT, 0, 0, stay)
    }

    /// The link is a member of the unit's bundle.
    pub fn member(time: u64, unit: Unit, stay: u32) -> Mark
        ensures value { result ≡ member_mark time unit stay }
        ensures in_table { IsInTable result }
    {
        made(time, kind::MEMBER, unit.number(), 0, stay)
    }

    /// The unit's bundle has carried a datagram.
    pub fn live(time: u64, unit: Unit, stay: u32) -> Mark
        ensures value { result ≡ live_mark time unit stay }
        ensures in_table { IsInTable result }
    {
        made(time, kind::LIVE, unit.number(), 0, stay)
    }

    /// The link may not join.
    pub fn refused(time: u64, reason: Refusal, stay: u32) -> Mark
        ensures value { result ≡ refused_mark time reason stay }
        ensures in_table { IsInTable result }
    {
        made(time, kind::REFUSED, reason.number(), 0, stay)
    }

    /// A signal came.
    pub fn signal(time: u64, word: SignalWord) -> Mark
        ensures value { result ≡ signal_mark time word }
        ensures in_table { IsInTable result }
    {
        made(time, kind::SIGNAL, signal_number(word), 0, 0)
    }

    /// The session is over.
    pub fn over(time: u64, live: bool, session: u32) -> Mark
        ensures value { result ≡ over_mark time live session }
        ensures in_table { IsInTable result }
    {
        made(time, kind::OVER, if live { 1 } else { 0 }, 0, session)
    }

    /// The link waits for so many milliseconds before the next attempt.
    pub fn hold(time: u64, milliseconds: u32) -> Mark
        ensures value { result ≡ hold_mark time milliseconds }
        ensures in_table { IsInTable result }
    {
        made(time, kind::HOLD, 0, 0, milliseconds)
    }

    /// The link waits to be woken.
    pub fn wait(time: u64) -> Mark
        ensures value { result ≡ wait_mark time }
        ensures in_table { IsInTable result }
    {
        made(time, kind::WAIT, 0, 0, 0)
    }

    /// The link has finished with this status.
    pub fn finished(time: u64, status: u8) -> Mark
        ensures value { result ≡ finished_mark time status }
        ensures in_table { IsInTable result }
    {
        made(time, kind::FINISHED, status, 0, 0)
    }

    /// A bundle is made by a link. The bundles of a unit are counted.
    pub fn made(time: u64, maker: LinkId, bundle: u32) -> Mark
        ensures value { result ≡ made_mark time maker bundle }
        ensures in_table { IsInTable result }
    {
        made(time, kind::MADE, maker.number(), 0, bundle)
    }

    /// A link comes in.
    pub fn in_(time: u64, link: LinkId, stay: u32) -> Mark
        ensures value { result ≡ in_mark time link stay }
        ensures in_table { IsInTable result }
    {
        made(time, kind::IN, link.number(), 0, stay)
    }

    /// A link goes out.
    pub fn out(time: u64, link: LinkId, stay: u32) -> Mark
        ensures value { result ≡ out_mark time link stay }
        ensures in_table { IsInTable result }
    {
        made(time, kind::OUT, link.number(), 0, stay)
    }

    /// IP has opened.
    pub fn ip_open(time: u64, opening: u32) -> Mark
        ensures value { result ≡ ip_open_mark time opening }
        ensures in_table { IsInTable result }
    {
        made(time, kind::IP_OPEN, 0, 0, opening)
    }

    /// Our address in this opening.
    pub fn local(time: u64, address: [u8; 4]) -> Mark
        ensures value { result ≡ local_mark time address }
        ensures in_table { IsInTable result }
    {
        made(time, kind::LOCAL, 0, 0, address_number(address))
    }

    /// The peer's address in this opening.
    pub fn remote(time: u64, address: [u8; 4]) -> Mark
        ensures value { result ≡ remote_mark time address }
        ensures in_table { IsInTable result }
    {
        made(time, kind::REMOTE, 0, 0, address_number(address))
    }

    /// IP has closed.
    pub fn ip_closed(time: u64, opening: u32) -> Mark
        ensures value { result ≡ ip_closed_mark time opening }
        ensures in_table { IsInTable result }
    {
        made(time, kind::IP_CLOSED, 0, 0, opening)
    }

    /// Why the bundle closes, and for the causes 12 and 13 the time that passed, in milliseconds.
    pub fn close(time: u64, cause: CloseCause, elapsed: u32) -> Mark
        ensures value { result ≡ close_mark time cause elapsed }
        ensures in_table { IsInTable result }
    {
        match cause {
            CloseCause::Idle | CloseCause::ConnectTime => {
                made(time, kind::CLOSE, cause.number(), 0, elapsed)
            }
            CloseCause::IpcpFailed | CloseCause::TooManyChanges => {
                made(time, kind::CLOSE, cause.number(), 0, 0)
            }
            CloseCause::EndedByPeer => made(time, kind::CLOSE, cause.number(), 1, 0),
        }
    }

    /// The bundle is unmade.
    pub fn unmade(time: u64, bundle: u32) -> Mark
        ensures value { result ≡ unmade_mark time bundle }
        ensures in_table { IsInTable result }
    {
        made(time, kind::UNMADE, 0, 0, bundle)
    }

    /// A script has ended, under the number of its job.
    pub fn ended(time: u64, answer: ScriptEnd, job: u32) -> Mark
        ensures value { result ≡ ended_mark time answer job }
        ensures in_table { IsInTable result }
    {
        match answer {
            ScriptEnd::Exit(status) => made(time, kind::ENDED, 0, u16::from(status), job),
            ScriptEnd::Killed => made(time, kind::ENDED, 1, 0, job),
            ScriptEnd::NotStarted => made(time, kind::ENDED, 2, 0, job),
        }
    }

    /// Why a session ends, by the number of its cause, and what belongs to the cause.
    pub fn cause(time: u64, cause: u8, detail: u16, session: u32) -> Mark
        requires { (1 ≤ cause) × (cause ≤ 16) }
        ensures value { result ≡ cause_mark time cause detail session }
        ensures in_table { IsInTable result }
    {
        made(time, kind::CAUSE, cause, detail, session)
    }
}
