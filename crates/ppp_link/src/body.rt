use ppp_link_core::link_core::LinkCore;
use ppp_outside::Spawner;

/// What a link holds: its machine, and the objects of the errands that aren't out.
#[derive(Drop)]
pub struct LinkBody<D: Drop, I: Drop, O: Drop, S: Spawner> {
    pub(crate) core: LinkCore<S>,
    /// The dialer, but for the time that it is out with a dial.
    pub(crate) dialer: Option<D>,
    /// The reading half of the line, where the reading waits to be taken.
    pub(crate) input: Option<I>,
    /// The writing half, where the writing does.
    pub(crate) output: Option<O>,
    /// How many octets the line had given when its reading was in last.
    pub(crate) given: u64,
}
