use crate::dial_job::DialDone;
use crate::piece::Piece;
use crate::reading::ReadOver;
use crate::writing::Sent;
use ppp_base::{Post, SignalWord};
use ppp_hooks::HookDone;
use ppp_outside::{Dialer, Spawner};

/// What happens to a link.
#[derive(Drop)]
pub enum LinkEvent<D: Dialer, S: Spawner> {
    /// It begins. A second time nothing happens.
    Begin,
    /// Its dial has come back.
    Dialled(DialDone<D>),
    /// Its line gave octets.
    Bytes(Piece),
    /// Its reading has come back.
    LineOver(ReadOver<D::In>),
    /// A writing has come back.
    Flushed(Sent<D::Out>),
    /// A moment, in milliseconds.
    Tick(u64),
    /// A signal.
    Signal(SignalWord),
    /// A post of the table.
    FromTable(Post),
    /// A script has ended.
    HookOver(HookDone<S>),
}
