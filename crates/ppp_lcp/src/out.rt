ghost use Rattle.std.specs.Prelude.{◌≡◌, []};
ghost use Rattle.ppp_lcp.specs.Out.{no_event};

use arrayvec::ArrayVec;
use ppp_control::{Packets, StepOut};
use ppp_fsm::{Acts, FsmEvent};

/// What a call of LCP does and tells.
#[derive(Drop)]
pub struct LcpOut {
    /// The event that the call was, if it was one.
    pub event: Option<FsmEvent>,
    /// The acts of the automaton, in order.
    pub acts: Acts,
    /// What is sent, in order: at most three packets.
    pub packets: Packets,
    /// The peer's requests in a row so far with our own magic number, up to 255.
    pub loops: u8,
    /// As many echoes as may go unanswered have, at the call that finds it. 0 otherwise.
    pub unanswered: u8,
    /// The peer has just rejected that it must prove who it is.
    pub auth_refused: bool,
    /// The protocol that the peer has just rejected, where the link can't do without it.
    pub network_refused: Option<u16>,
}

impl LcpOut {
    pub(crate) fn of(step: StepOut, loops: u8) -> LcpOut
        ensures { result ≡ record (no_event step.packets loops) { event = step.event; acts = step.acts } }
    {
        LcpOut {
            event: step.event,
            acts: step.acts,
            packets: step.packets,
            loops,
            unanswered: 0,
            auth_refused: false,
            network_refused: None,
        }
    }

    // No event happens.
    pub(crate) fn none(loops: u8) -> LcpOut
        ensures { result ≡ no_event [] loops }
    {
        LcpOut {
            event: None,
            acts: Acts::from(ArrayVec::new()),
            packets: Packets::new(),
            loops,
            unanswered: 0,
            auth_refused: false,
            network_refused: None,
        }
    }
}
