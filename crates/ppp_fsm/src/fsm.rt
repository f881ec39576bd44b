ghost use Rattle.std.specs.Prelude.{◌≡◌, ◌-◌, ◌<◌, ◌≤◌};

use crate::acts::Acts;
use crate::event::FsmEvent;
use crate::state::State;
use crate::steps;
use std::marker::Model;

/// How often a request is sent before it is given up: the first values of the restart counter (RFC 1661, section
/// 4.6). Both are at least 1, which the type keeps.
#[derive(Clone, Copy)]
pub struct Limits {
    /// Max-Configure, for Configure-Requests.
    pub configure: u8,
    /// Max-Terminate, for Terminate-Requests.
    pub terminate: u8,
    ghost configures: { 0 < configure },
    ghost terminates: { 0 < terminate },
}

impl Limits {
    // The counter after a first Configure-Request.
    pub(crate) fn configure_sent(self) -> u8
        ensures { result ≡ self.configure - 1 }
    {
        self.configure - 1
    }

    // The counter after a first Terminate-Request.
    pub(crate) fn terminate_sent(self) -> u8
        ensures { result ≡ self.terminate - 1 }
    {
        self.terminate - 1
    }
}

/// The option negotiation automaton of one layer (RFC 1661, section 4).
#[derive(Drop)]
pub struct Fsm {
    limits: Limits,
    state: State,
    counter: u8,
}

impl Model for Fsm {
    ghost use Rattle.ppp_fsm.specs.Fsm.{Automaton};

    ghost Value = { Automaton };

    ghost use Rattle.ppp_fsm.specs.State.{number_of};
    ghost use Rattle.ppp_fsm.specs.Steps.{automaton};

    ghost view = { λ a. automaton a.limits (number_of a.state) a.counter };
}

impl Fsm {
    ghost use Rattle.ppp_fsm.specs.Fsm.{acts_of, after};

    /// An automaton in Initial, whose counter is 0.
    pub fn new(limits: Limits) -> Fsm
        ensures { result ≡ record { configure = limits.configure; terminate = limits.terminate; state = 0; counter = 0 } }
    {
        Fsm {
            limits,
            state: State::Initial,
            counter: 0,
        }
    }

    /// Does what the table says of the event in this state, and answers its acts.
    pub fn apply(&mut self, event: FsmEvent) -> Acts
        ensures acts { result ≡ acts_of self.old event }
        ensures after { self.new ≡ after self.old event }
    {
        let limits = self.limits;
        let counter = self.counter;
        let made = match self.state {
            State::Initial => steps::initial(limits, counter, event),
            State::Starting => steps::starting(limits, counter, event),
            State::Closed => steps::closed(limits, counter, event),
            State::Stopped => steps::stopped(limits, counter, event),
            State::Closing => steps::closing(limits, counter, event),
            State::Stopping => steps::stopping(limits, counter, event),
            State::ReqSent => steps::req_sent(limits, counter, event),
            State::AckRcvd => steps::ack_rcvd(limits, counter, event),
            State::AckSent => steps::ack_sent(limits, counter, event),
            State::Opened => steps::opened(limits, counter, event),
        };
        self.state = made.next;
        self.counter = made.counter;
        made.acts
    }

    /// The number of the state, from Initial 0 to Opened 9.
    pub fn state(&self) -> u8
        ensures number { result ≡ self.now.state }
        ensures few { result ≤ 9 }
    {
        self.state.number()
    }

    /// The restart counter.
    pub fn counter(&self) -> u8
        ensures { result ≡ self.now.counter }
    {
        self.counter
    }
}
