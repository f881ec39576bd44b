use crate::link_id::LinkId;
use crate::unit::Unit;

/// Whose scripts they are: a link's auth-up and auth-down, or a unit's ip-up and ip-down.
#[derive(Clone, Copy, Debug, PartialEq, Eq)]
pub enum HookTarget {
    /// The scripts of a link.
    Link(LinkId),
    /// The scripts of a unit.
    Unit(Unit),
}
