use ppp_base::{Datagram, Unit};
use ppp_hooks::HookDone;
use ppp_outside::Spawner;

/// What happens to a table.
#[derive(Drop)]
pub enum TableEvent<S: Spawner> {
    /// A datagram for the peer of a unit.
    Packet(Unit, Datagram),
    /// A moment, in milliseconds.
    Tick(u64),
    /// A script of a unit has ended.
    HookOver(Unit, HookDone<S>),
}
