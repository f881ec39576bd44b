ghost use Rattle.std.specs.Prelude.{◌≡◌, ◌≤◌, ◌<◌, ◌^◌};
ghost use Rattle.ppp_trace.specs.MadeTrace.{life_of, step_of};

/// What a link of a made trace does next.
#[derive(Clone, Copy, Debug, PartialEq, Eq)]
pub enum LifeStep {
    /// It begins.
    Begin,
    /// Its dial gives a line.
    DialOk,
    /// What it writes is written.
    Sent,
    /// Its peer asks for LCP without options.
    AsksLcp,
    /// Its peer acknowledges our LCP request.
    AcksLcp,
    /// It is carried.
    Carry,
    /// Its peer asks for IPCP with its address.
    AsksIp,
    /// Its peer acknowledges our IPCP request.
    AcksIp,
    /// The first script of the life ends.
    FirstEnds,
    /// A datagram for the peer comes.
    Packet,
    /// A datagram of the peer comes.
    Datagram,
    /// Its peer terminates LCP.
    Terminates,
    /// The second script of the life ends.
    SecondEnds,
    /// Its line ends.
    LineEnd,
}

/// The steps of a life. All lives but the first begin with the second step.
pub const LIFE: [LifeStep; 20] = [
    LifeStep::Begin,
    LifeStep::DialOk,
    LifeStep::Sent,
    LifeStep::AsksLcp,
    LifeStep::AcksLcp,
    LifeStep::Carry,
    LifeStep::Sent,
    LifeStep::AsksIp,
    LifeStep::AcksIp,
    LifeStep::Carry,
    LifeStep::FirstEnds,
    LifeStep::Packet,
    LifeStep::Carry,
    LifeStep::Sent,
    LifeStep::Datagram,
    LifeStep::Carry,
    LifeStep::Terminates,
    LifeStep::Carry,
    LifeStep::SecondEnds,
    LifeStep::LineEnd,
];

/// What a link does that has done so many steps.
#[tactic(auto, unfolding(crate::specs::MadeTrace::step_of))]
pub fn step_of(done: u32) -> LifeStep
    ensures { result ≡ step_of done }
{
    if done == 0 {
        LIFE[0]
    } else {
        LIFE[(1 + (done - 1) % 19) as usize]
    }
}

/// In which of its lives it is then, from 1 on.
#[tactic(auto, unfolding(crate::specs::MadeTrace::life_of))]
pub fn life_of(done: u32) -> u32
    ensures value { result ≡ life_of done }
    ensures range { (1 ≤ result) × (result < 2 ^ 31) }
{
    if done == 0 { 1 } else { 1 + (done - 1) / 19 }
}
