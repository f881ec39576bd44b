ghost use Rattle.std.specs.Prelude.{◌≡◌, ◌+◌, nat_le};
ghost use Rattle.ppp_chat.specs.ChatState.{awaited};
ghost use Rattle.ppp_chat.specs.Ending.{ending};
ghost use Rattle.ppp_chat.specs.Texts.{kept_settings};

use crate::directives::Directives;
use crate::event::Event;
use crate::step::Step;

/// How an expect ends.
#[derive(Clone, Copy)]
pub(crate) enum Ending {
    /// It is late.
    TimeHasCome,
    /// Its string came.
    Found,
    /// This abort string came, counted from 1.
    AbortFound(u8),
}

// Whether so many milliseconds have passed since a moment.
pub(crate) fn has_passed(since: u64, milliseconds: u64, now: u64) -> bool
    ensures { result ≡ nat_le (since + milliseconds) now }
{
    match now.checked_sub(since) {
        Some(passed) => milliseconds <= passed,
        None => false,
    }
}

// How an expect, which began at a moment, ends with an event, if it does. The octets are the last since it began,
// the event's too.
pub(crate) fn ending_with(
    steps: &[Step],
    directives: &Directives,
    text: &[u8],
    began: u64,
    octets: &[u8],
    event: Event,
) -> Option<Ending>
    ensures { result ≡ ending (awaited text.now (kept_settings steps.now directives.now) began) octets.now event }
{
    if has_passed(began, directives.timeout_ms, event.at) {
        return Some(Ending::TimeHasCome);
    }
    if event.octet.is_none() {
        return None;
    }
    if octets.ends_with(text) {
        return Some(Ending::Found);
    }
    match directives.abort_found(steps, octets) {
        None => None,
        Some(number) => Some(Ending::AbortFound(number)),
    }
}
