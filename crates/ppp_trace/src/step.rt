use ppp_fsm::FsmEvent;
use ppp_outside::ScriptEnd;

/// A step of a bare trace.
#[derive(Clone, Copy, Debug, PartialEq, Eq)]
pub enum BareStep {
    /// Something happens to the automaton.
    Event(FsmEvent),
    /// The site script of this job ended so.
    End { job: u32, answer: ScriptEnd },
}
