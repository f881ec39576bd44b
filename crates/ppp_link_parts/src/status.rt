// The exit status of a link that finishes with a session, by why that ended.
ghost use Rattle.std.specs.Prelude.{◌≡◌};
ghost use Rattle.ppp_link_rules.specs.CauseStatus.{dial_status, status_in, table};
ghost use Rattle.ppp_link_rules.specs.Dialling.{end_by};

use ppp_dial::SessionEnd;
use ppp_link_rules::Cause;
use ppp_outside::LineWords;

// Of a line that can't be dialled.
fn dial_status(line: &LineWords) -> u8
    ensures { result ≡ dial_status line.now }
{
    match line {
        LineWords::Socket(_) => 7,
        LineWords::Pty(_) => 9,
    }
}

// Of a cause.
fn cause_status(line: &LineWords, live: bool, cause: Cause) -> u8
    ensures { result ≡ status_in (table line.now live cause.detail) cause.number }
{
    match cause.number {
        1 => dial_status(line),
        2 | 3 => 8,
        4 | 14 => 10,
        5 => 17,
        6 => 11,
        7 => 19,
        8 if cause.detail == 3 => 34,
        8 => 10,
        9 => 15,
        10 => 16,
        11 => 5,
        12 => 12,
        13 => 13,
        15 if live => 0,
        15 => 10,
        16 => 36,
        _ => 0,
    }
}

/// How a session ended.
pub fn session_end(line: &LineWords, live: bool, cause: Option<Cause>) -> SessionEnd
    ensures { result ≡ end_by line.now live cause }
{
    match cause {
        None => SessionEnd {
            cause: 0,
            status: 0,
            live,
        },
        Some(cause) => SessionEnd {
            cause: cause.number,
            status: cause_status(line, live, cause),
            live,
        },
    }
}
