ghost use Rattle.std.specs.Prelude.{◌≡◌, None};

use crate::child;
use crate::line_in::{Incoming, RealLineIn};
use crate::line_out::{Outgoing, RealLineOut};
use crate::socket::Socket;
use crate::texts::text_of;
use ppp_outside::{Dialer, Dialled, LineWords};
use std::alloc::Global;
use std::io::Result;
use std::net::{Net, TcpStream};
use std::os::unix::net::UnixStream;
use std::process::{Processes, SystemProcess};
use std::rt;
use std::sync::Wait;
use std::thread::Threads;

/// What dials lines over sockets, and over the input and output of commands.
#[derive(Drop)]
pub struct RealDialer<R> {
    rt: R,
    alloc: Global,
    tries: u64,
    faults: u64,
}

impl<R> RealDialer<R> {
    /// A dialer that has dialled nothing.
    pub fn new(rt: R, alloc: Global) -> RealDialer<R>
        ensures { (result.tries ≡ 0) × (result.faults ≡ 0) }
    {
        RealDialer {
            rt,
            alloc,
            tries: 0,
            faults: 0,
        }
    }
}

// Connects the socket with this text, which is a Unix socket's path or `host:port`.
fn connect<R: Net<Stream = TcpStream>>(rt: &R, text: &str, is_path: bool) -> Result<Socket> {
    if is_path {
        Ok(Socket::Unix(UnixStream::connect(rt, text)?))
    } else {
        Ok(Socket::Tcp(TcpStream::connect(rt, text)?))
    }
}

// Both halves of the line.
fn open<R: Net<Stream = TcpStream> + Processes<Started = SystemProcess> + Threads + Copy>(
    rt: R,
    alloc: Global,
    line: &LineWords,
) -> Result<(Incoming<R>, Outgoing)> {
    match line {
        LineWords::Socket(text) => {
            let socket = connect(&rt, text_of(text.as_slice())?, line.is_unix_path())?;
            let other = socket.try_clone()?;
            Ok((Incoming::Socket(socket), Outgoing::Socket(other)))
        }
        LineWords::Pty(command) => {
            let (reader, input) = child::start(rt, alloc, text_of(command.as_slice())?)?;
            Ok((Incoming::Child(reader), Outgoing::Child(input)))
        }
    }
}

impl<
    R: Net<Stream = TcpStream>
        + Processes<Started = SystemProcess>
        + Threads
        + Wait
        + rt::Clock
        + Copy
        + Drop
        + Send,
> Dialer for RealDialer<R> {
    type In = RealLineIn<R>;

    type Out = RealLineOut;

    ghost state = { λ d. record { tries = d.tries; faults = d.faults; asked = None } };

    ghost coming = { λ d. None };

    fn dial(&mut self, line: &LineWords) -> Dialled<RealLineIn<R>, RealLineOut> {
        self.tries = self.tries.saturating_add(1);
        match open(self.rt, self.alloc, line) {
            Ok((input, output)) => {
                Dialled::Line(RealLineIn::new(input), RealLineOut::new(output))
            }
            Err(_) => {
                self.faults = self.faults.saturating_add(1);
                Dialled::Failed
            }
        }
    }
}
