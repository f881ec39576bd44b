// Why an answer of LCP ends the session.
ghost use Rattle.std.specs.Prelude.{◌≡◌, IfSome};
ghost use Rattle.std.specs.List.{list_any};
ghost use Rattle.ppp_link_rules.specs.LcpCalls.{cause_by_event, cause_of, cause_told, is_tlf};
ghost use Rattle.ppp_link_core.specs.Standing.{IsCause};

use crate::readers::OPENED;
use ppp_fsm::{Act, Acts, FsmEvent};
use ppp_lcp::LcpOut;
use ppp_link_rules::cause::Cause;

// Whether the layer gives up.
fn gives_up(acts: &Acts) -> bool
    ensures { result ≡ list_any is_tlf acts.now }
{
    acts.as_slice().iter().any(|act| matches!(act, Act::Tlf))
}

// LCP gave up, was refused what it can't do without, or was ended by the peer.
fn cause_by_event(event: Option<FsmEvent>, state: u8, acts: &Acts) -> Option<Cause>
    ensures cause { result ≡ cause_by_event event state acts.now }
    ensures table { IfSome result IsCause }
{
    match event {
        Some(FsmEvent::RxjBad) if state >= 2 => Some(Cause {
            number: 4,
            detail: 2,
        }),
        Some(FsmEvent::Rtr) if state == OPENED => Some(Cause {
            number: 15,
            detail: 0,
        }),
        Some(FsmEvent::Timeout) if state >= 6 && gives_up(acts) => Some(Cause {
            number: 4,
            detail: 1,
        }),
        _ => None,
    }
}

// What LCP's answer tells besides.
fn cause_told(out: &LcpOut) -> Option<Cause>
    ensures cause { result ≡ cause_told out.now }
    ensures table { IfSome result IsCause }
{
    if out.network_refused.is_some() {
        Some(Cause {
            number: 4,
            detail: 2,
        })
    } else if out.loops >= 10 {
        Some(Cause {
            number: 5,
            detail: 10,
        })
    } else if out.auth_refused {
        Some(Cause {
            number: 6,
            detail: 0,
        })
    } else if out.unanswered >= 1 {
        Some(Cause {
            number: 9,
            detail: u16::from(out.unanswered),
        })
    } else {
        None
    }
}

// Why LCP's answer ends the session, by the state before it.
pub(crate) fn cause_of(state: u8, out: &LcpOut) -> Option<Cause>
    ensures cause { result ≡ cause_of state out.now }
    ensures table { IfSome result IsCause }
{
    match cause_by_event(out.event, state, &out.acts) {
        Some(cause) => Some(cause),
        None => cause_told(out),
    }
}
