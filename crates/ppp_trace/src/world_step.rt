use ppp_base::{Datagram, LinkId, Octets, SignalWord, Unit};
use ppp_outside::ScriptEnd;

/// Octets that come from a line in one piece.
pub type LineOctets = Octets<1024>;

/// A step of a full trace: what happens to a link, a unit or the table.
#[derive(Debug, Drop)]
pub enum WorldStep {
    /// The link begins.
    Begin {
        link: LinkId,
    },
    /// The dial of the link that is out gives a line.
    DialOk {
        link: LinkId,
    },
    /// The dial of the link that is out fails.
    DialFail {
        link: LinkId,
    },
    /// The line of the link gives these octets, at the present session and offset.
    Rx {
        link: LinkId,
        octets: LineOctets,
    },
    /// The line of the link gave these octets at this session, behind so many others.
    RxAt {
        link: LinkId,
        session: u32,
        offset: u64,
        octets: LineOctets,
    },
    /// The line of the link has ended.
    LineEnd {
        link: LinkId,
    },
    /// The line of the link has failed.
    LineFail {
        link: LinkId,
    },
    /// The line of the link is left.
    LineLeft {
        link: LinkId,
    },
    /// What the link writes is written.
    SentOk {
        link: LinkId,
    },
    /// What the link writes can't be written.
    SentFail {
        link: LinkId,
    },
    /// So many milliseconds have passed for the link.
    Tick {
        link: LinkId,
        ms: u64,
    },
    /// So many milliseconds have passed for the table.
    TableTick {
        ms: u64,
    },
    /// The link is given a signal.
    Word {
        link: LinkId,
        word: SignalWord,
    },
    /// The script of a job of the link ended so.
    Hook {
        link: LinkId,
        job: u32,
        answer: ScriptEnd,
    },
    /// The script of a job of the unit ended so.
    UnitHook {
        unit: Unit,
        job: u32,
        answer: ScriptEnd,
    },
    /// A datagram for the peer of the unit.
    Packet {
        unit: Unit,
        datagram: Datagram,
    },
    /// What waits between the link and the table is carried.
    Carry {
        link: LinkId,
    },
}
