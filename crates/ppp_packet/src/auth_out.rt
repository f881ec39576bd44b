use crate::packet::Packet;
use ppp_base::Name;

/// What a call of an authentication protocol comes to.
#[derive(Debug, Drop)]
pub struct AuthOut {
    /// The packet to send, if there is one.
    pub packet: Option<Packet>,
    /// How the authentication stands.
    pub outcome: AuthOutcome,
}

/// How an authentication stands.
#[derive(Debug, Drop)]
pub enum AuthOutcome {
    /// It goes on.
    Waiting,
    /// The one of this name passed, by this line of the secrets.
    Passed(Name, u32),
    /// The one of this name was refused.
    Refused(Name),
    /// No answer came, to a packet that was sent so often.
    Unanswered(u8),
}
