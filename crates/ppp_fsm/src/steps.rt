#![tactic(auto, unfolding(crate::specs::Fsm::acts_of, crate::specs::Fsm::after))]

ghost use Rattle.std.specs.Prelude.{◌≡◌, ◌-◌};
ghost use Rattle.ppp_fsm.specs.Steps.{Makes};

use crate::acts::{Act, Acts};
use crate::event::FsmEvent;
use crate::fsm::Limits;
use crate::state::State;

/// What one event does: the acts, the next state and the counter after it.
///
/// Each function below is one column of the table of RFC 1661, section 4.1. Its last arm is the events that can't
/// occur in the state, which do nothing.
#[derive(Drop)]
pub(crate) struct Move {
    pub(crate) acts: Acts,
    pub(crate) next: State,
    pub(crate) counter: u8,
}

impl Move {
    fn new(acts: Acts, next: State, counter: u8) -> Move
        ensures { result ≡ record { acts = acts; next = next; counter = counter } }
    {
        Move {
            acts,
            next,
            counter,
        }
    }
}

// The counter after a request that isn't the first.
fn lowered(counter: u8) -> u8
    ensures { result ≡ counter - 1 }
{
    counter.saturating_sub(1)
}

// What an event does in Initial.
pub(crate) fn initial(limits: Limits, counter: u8, event: FsmEvent) -> Move
    ensures { Makes limits 0 counter event result }
{
    match event {
        FsmEvent::Up => Move::new(Acts::none(), State::Closed, counter),
        FsmEvent::Open => Move::new(Acts::one(Act::Tls), State::Starting, counter),
        FsmEvent::Close => Move::new(Acts::none(), State::Initial, counter),
        _ => Move::new(Acts::none(), State::Initial, counter),
    }
}

// What an event does in Starting.
pub(crate) fn starting(limits: Limits, counter: u8, event: FsmEvent) -> Move
    ensures { Makes limits 1 counter event result }
{
    match event {
        FsmEvent::Up => Move::new(
            Acts::two(Act::Irc, Act::Scr),
            State::ReqSent,
            limits.configure_sent(),
        ),
        FsmEvent::Open => Move::new(Acts::none(), State::Starting, counter),
        FsmEvent::Close => Move::new(Acts::one(Act::Tlf), State::Initial, counter),
        _ => Move::new(Acts::none(), State::Starting, counter),
    }
}

// What an event does in Closed.
pub(crate) fn closed(limits: Limits, counter: u8, event: FsmEvent) -> Move
    ensures { Makes limits 2 counter event result }
{
    match event {
        FsmEvent::Down => Move::new(Acts::none(), State::Initial, counter),
        FsmEvent::Open => Move::new(
            Acts::two(Act::Irc, Act::Scr),
            State::ReqSent,
            limits.configure_sent(),
        ),
        FsmEvent::Close | FsmEvent::Rta | FsmEvent::RxjGood | FsmEvent::Rxr => Move::new(
            Acts::none(),
            State::Closed,
            counter,
        ),
        FsmEvent::RcrGood | FsmEvent::RcrBad | FsmEvent::Rca | FsmEvent::Rcn | FsmEvent::Rtr =>
            Move::new(Acts::one(Act::Sta), State::Closed, counter),
        FsmEvent::Ruc => Move::new(Acts::one(Act::Scj), State::Closed, counter),
        FsmEvent::RxjBad => Move::new(Acts::one(Act::Tlf), State::Closed, counter),
        _ => Move::new(Acts::none(), State::Closed, counter),
    }
}

// What an event does in Stopped.
pub(crate) fn stopped(limits: Limits, counter: u8, event: FsmEvent) -> Move
    ensures { Makes limits 3 counter event result }
{
    match event {
        FsmEvent::Down => Move::new(Acts::one(Act::Tls), State::Starting, counter),
        FsmEvent::Open | FsmEvent::Rta | FsmEvent::RxjGood | FsmEvent::Rxr => Move::new(
            Acts::none(),
            State::Stopped,
            counter,
        ),
        FsmEvent::Close => Move::new(Acts::none(), State::Closed, counter),
        FsmEvent::RcrGood => Move::new(
            Acts::three(Act::Irc, Act::Scr, Act::Sca),
            State::AckSent,
            limits.configure_sent(),
        ),
        FsmEvent::RcrBad => Move::new(
            Acts::three(Act::Irc, Act::Scr, Act::Scn),
            State::ReqSent,
            limits.configure_sent(),
        ),
        FsmEvent::Rca | FsmEvent::Rcn | FsmEvent::Rtr => Move::new(
            Acts::one(Act::Sta),
            State::Stopped,
            counter,
        ),
        FsmEvent::Ruc => Move::new(Acts::one(Act::Scj), State::Stopped, counter),
        FsmEvent::RxjBad => Move::new(Acts::one(Act::Tlf), State::Stopped, counter),
        _ => Move::new(Acts::none(), State::Stopped, counter),
    }
}

// What an event does in Closing.
pub(crate) fn closing(limits: Limits, counter: u8, event: FsmEvent) -> Move
    ensures { Makes limits 4 counter event result }
{
    match event {
        FsmEvent::Down => Move::new(Acts::none(), State::Initial, counter),
        FsmEvent::Open => Move::new(Acts::none(), State::Stopping, counter),
        FsmEvent::Close
        | FsmEvent::RcrGood
        | FsmEvent::RcrBad
        | FsmEvent::Rca
        | FsmEvent::Rcn
        | FsmEvent::RxjGood
        | FsmEvent::Rxr => Move::new(Acts::none(), State::Closing, counter),
        FsmEvent::Rtr => Move::new(Acts::one(Act::Sta), State::Closing, counter),
        FsmEvent::Rta | FsmEvent::RxjBad => Move::new(Acts::one(Act::Tlf), State::Closed, counter),
        FsmEvent::Ruc => Move::new(Acts::one(Act::Scj), State::Closing, counter),
        FsmEvent::Timeout if counter > 0 => Move::new(
            Acts::one(Act::Str),
            State::Closing,
            lowered(counter),
        ),
        FsmEvent::Timeout => Move::new(Acts::one(Act::Tlf), State::Closed, counter),
        _ => Move::new(Acts::none(), State::Closing, counter),
    }
}

// What an event does in Stopping.
pub(crate) fn stopping(limits: Limits, counter: u8, event: FsmEvent) -> Move
    ensures { Makes limits 5 counter event result }
{
    match event {
        FsmEvent::Down => Move::new(Acts::none(), State::Starting, counter),
        FsmEvent::Open
        | FsmEvent::RcrGood
        | FsmEvent::RcrBad
        | FsmEvent::Rca
        | FsmEvent::Rcn
        | FsmEvent::RxjGood
        | FsmEvent::Rxr => Move::new(Acts::none(), State::Stopping, counter),
        FsmEvent::Close => Move::new(Acts::none(), State::Closing, counter),
        FsmEvent::Rtr => Move::new(Acts::one(Act::Sta), State::Stopping, counter),
        FsmEvent::Rta | FsmEvent::RxjBad => Move::new(Acts::one(Act::Tlf), State::Stopped, counter),
        FsmEvent::Ruc => Move::new(Acts::one(Act::Scj), State::Stopping, counter),
        FsmEvent::Timeout if counter > 0 => Move::new(
            Acts::one(Act::Str),
            State::Stopping,
            lowered(counter),
        ),
        FsmEvent::Timeout => Move::new(Acts::one(Act::Tlf), State::Stopped, counter),
        _ => Move::new(Acts::none(), State::Stopping, counter),
    }
}

// What an event does in ReqSent.
pub(crate) fn req_sent(limits: Limits, counter: u8, event: FsmEvent) -> Move
    ensures { Makes limits 6 counter event result }
{
    match event {
        FsmEvent::Down => Move::new(Acts::none(), State::Starting, counter),
        FsmEvent::Open | FsmEvent::Rta | FsmEvent::RxjGood | FsmEvent::Rxr => Move::new(
            Acts::none(),
            State::ReqSent,
            counter,
        ),
        FsmEvent::Close => Move::new(
            Acts::two(Act::Irc, Act::Str),
            State::Closing,
            limits.terminate_sent(),
        ),
        FsmEvent::RcrGood => Move::new(Acts::one(Act::Sca), State::AckSent, counter),
        FsmEvent::RcrBad => Move::new(Acts::one(Act::Scn), State::ReqSent, counter),
        FsmEvent::Rca => Move::new(Acts::one(Act::Irc), State::AckRcvd, limits.configure),
        FsmEvent::Rcn => Move::new(
            Acts::two(Act::Irc, Act::Scr),
            State::ReqSent,
            limits.configure_sent(),
        ),
        FsmEvent::Rtr => Move::new(Acts::one(Act::Sta), State::ReqSent, counter),
        FsmEvent::Ruc => Move::new(Acts::one(Act::Scj), State::ReqSent, counter),
        FsmEvent::RxjBad => Move::new(Acts::one(Act::Tlf), State::Stopped, counter),
        FsmEvent::Timeout if counter > 0 => Move::new(
            Acts::one(Act::Scr),
            State::ReqSent,
            lowered(counter),
        ),
        FsmEvent::Timeout => Move::new(Acts::one(Act::Tlf), State::Stopped, counter),
        _ => Move::new(Acts::none(), State::ReqSent, counter),
    }
}

// What an event does in AckRcvd.
pub(crate) fn ack_rcvd(limits: Limits, counter: u8, event: FsmEvent) -> Move
    ensures { Makes limits 7 counter event result }
{
    match event {
        FsmEvent::Down => Move::new(Acts::none(), State::Starting, counter),
        FsmEvent::Open | FsmEvent::Rxr => Move::new(Acts::none(), State::AckRcvd, counter),
        FsmEvent::Close => Move::new(
            Acts::two(Act::Irc, Act::Str),
            State::Closing,
            limits.terminate_sent(),
        ),
        FsmEvent::RcrGood => Move::new(Acts::two(Act::Sca, Act::Tlu), State::Opened, counter),
        FsmEvent::RcrBad => Move::new(Acts::one(Act::Scn), State::AckRcvd, counter),
        FsmEvent::Rca | FsmEvent::Rcn => Move::new(
            Acts::one(Act::Scr),
            State::ReqSent,
            lowered(counter),
        ),
        FsmEvent::Rtr => Move::new(Acts::one(Act::Sta), State::ReqSent, counter),
        FsmEvent::Rta | FsmEvent::RxjGood => Move::new(Acts::none(), State::ReqSent, counter),
        FsmEvent::Ruc => Move::new(Acts::one(Act::Scj), State::AckRcvd, counter),
        FsmEvent::RxjBad => Move::new(Acts::one(Act::Tlf), State::Stopped, counter),
        FsmEvent::Timeout if counter > 0 => Move::new(
            Acts::one(Act::Scr),
            State::ReqSent,
            lowered(counter),
        ),
        FsmEvent::Timeout => Move::new(Acts::one(Act::Tlf), State::Stopped, counter),
        _ => Move::new(Acts::none(), State::AckRcvd, counter),
    }
}

// What an event does in AckSent.
pub(crate) fn ack_sent(limits: Limits, counter: u8, event: FsmEvent) -> Move
    ensures { Makes limits 8 counter event result }
{
    match event {
        FsmEvent::Down => Move::new(Acts::none(), State::Starting, counter),
        FsmEvent::Open | FsmEvent::Rta | FsmEvent::RxjGood | FsmEvent::Rxr => Move::new(
            Acts::none(),
            State::AckSent,
            counter,
        ),
        FsmEvent::Close => Move::new(
            Acts::two(Act::Irc, Act::Str),
            State::Closing,
            limits.terminate_sent(),
        ),
        FsmEvent::RcrGood => Move::new(Acts::one(Act::Sca), State::AckSent, counter),
        FsmEvent::RcrBad => Move::new(Acts::one(Act::Scn), State::ReqSent, counter),
        FsmEvent::Rca => Move::new(
            Acts::two(Act::Irc, Act::Tlu),
            State::Opened,
            limits.configure,
        ),
        FsmEvent::Rcn => Move::new(
            Acts::two(Act::Irc, Act::Scr),
            State::AckSent,
            limits.configure_sent(),
        ),
        FsmEvent::Rtr => Move::new(Acts::one(Act::Sta), State::ReqSent, counter),
        FsmEvent::Ruc => Move::new(Acts::one(Act::Scj), State::AckSent, counter),
        FsmEvent::RxjBad => Move::new(Acts::one(Act::Tlf), State::Stopped, counter),
        FsmEvent::Timeout if counter > 0 => Move::new(
            Acts::one(Act::Scr),
            State::AckSent,
            lowered(counter),
        ),
        FsmEvent::Timeout => Move::new(Acts::one(Act::Tlf), State::Stopped, counter),
        _ => Move::new(Acts::none(), State::AckSent, counter),
    }
}

// What an event does in Opened.
pub(crate) fn opened(limits: Limits, counter: u8, event: FsmEvent) -> Move
    ensures { Makes limits 9 counter event result }
{
    match event {
        FsmEvent::Down => Move::new(Acts::one(Act::Tld), State::Starting, counter),
        FsmEvent::Open | FsmEvent::RxjGood => Move::new(Acts::none(), State::Opened, counter),
        FsmEvent::Close => Move::new(
            Acts::three(Act::Tld, Act::Irc, Act::Str),
            State::Closing,
            limits.terminate_sent(),
        ),
        FsmEvent::RcrGood => Move::new(
            Acts::three(Act::Tld, Act::Scr, Act::Sca),
            State::AckSent,
            lowered(counter),
        ),
        FsmEvent::RcrBad => Move::new(
            Acts::three(Act::Tld, Act::Scr, Act::Scn),
            State::ReqSent,
            lowered(counter),
        ),
        FsmEvent::Rca | FsmEvent::Rcn | FsmEvent::Rta => Move::new(
            Acts::two(Act::Tld, Act::Scr),
            State::ReqSent,
            lowered(counter),
        ),
        FsmEvent::Rtr => Move::new(
            Acts::three(Act::Tld, Act::Zrc, Act::Sta),
            State::Stopping,
            0,
        ),
        FsmEvent::Ruc => Move::new(Acts::one(Act::Scj), State::Opened, counter),
        FsmEvent::RxjBad => Move::new(
            Acts::three(Act::Tld, Act::Irc, Act::Str),
            State::Stopping,
            limits.terminate_sent(),
        ),
        FsmEvent::Rxr => Move::new(Acts::one(Act::Ser), State::Opened, counter),
        _ => Move::new(Acts::none(), State::Opened, counter),
    }
}
