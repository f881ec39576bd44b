use ppp_base::{Allow, Datagram, Frame, LinkId, Mrru};
use ppp_hooks::HookDone;
use ppp_outside::Spawner;
use ppp_unit_parts::UnitWish;

/// What happens to a unit.
#[derive(Drop)]
pub enum BundleEvent<S: Spawner> {
    /// A bundle is made, of which nothing is sent before a link comes in.
    Make {
        /// The bundles of the unit are numbered from 1 on.
        number: u32,
        /// The link whose options these are.
        maker: LinkId,
        wish: UnitWish,
        /// Some exactly for a multilink bundle.
        mrru: Option<Mrru>,
        /// Which addresses the peer may have.
        allow: Allow,
    },
    /// A link comes in.
    In {
        link: LinkId,
        stay: u32,
        /// The most octets of information that its peer takes.
        mru: u16,
    },
    /// A member goes out.
    Out {
        link: LinkId,
        stay: u32,
    },
    /// A frame of a link.
    Frame {
        link: LinkId,
        protocol: u16,
        information: Frame,
    },
    /// A datagram for the peer.
    Datagram(Datagram),
    /// A moment, in milliseconds.
    Tick(u64),
    /// A script has ended.
    HookOver(HookDone<S>),
}
