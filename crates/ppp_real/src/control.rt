ghost use Rattle.std.specs.Prelude.{◌≡◌, None};
ghost use Rattle.ppp_real.specs.Control.{HearsOctet};

use crate::socket::{is_quiet, wait_of};
use crate::texts::text_of;
use ppp_base::{Name, SignalWord};
use ppp_outside::{Control, Word, signal_named};
use std::io::{Read, Result};
use std::net::Net;
use std::os::fd::AsFd;
use std::os::unix::net::{UnixListener, UnixStream};
use std::rt;
use std::time::Duration;

/// The control socket: a Unix socket that is listened at, and whose connections have a word on each line.
#[derive(Drop)]
pub struct RealControl<R> {
    rt: R,
    words: Words,
    signals: u64,
    ends: u64,
    faults: u64,
}

impl<R> RealControl<R> {
    /// The control at this path. It is opened at its first use. Without a path it is at its end.
    pub fn new(rt: R, path: Option<&Name>) -> RealControl<R>
        ensures { (result.signals ≡ 0) × (result.ends ≡ 0) × (result.faults ≡ 0) }
    {
        RealControl {
            rt,
            words: match path {
                Some(path) => Words::Closed(path.copy()),
                None => Words::Never,
            },
            signals: 0,
            ends: 0,
            faults: 0,
        }
    }
}

// Where words come from.
#[derive(Drop)]
enum Words {
    // From nowhere.
    Never,
    // From the socket at this path, which is still to be opened.
    Closed(Name),
    // From these connections.
    Open(Talks),
}

// The socket, the connection that is listened to, and what it has said of a line.
#[derive(Drop)]
struct Talks {
    listener: UnixListener,
    talker: Option<UnixStream>,
    line: Line,
}

// The octets of the line that isn't at its end yet: 255 at most, which is more than a word has.
#[derive(Drop)]
struct Line {
    octets: Name,
}

// What a call heard.
#[derive(Drop)]
enum Heard {
    Signal(SignalWord),
    Nothing,
    End,
}

impl Line {
    // Hears one octet more. With a newline the line is at its end, and is a signal's word or another one.
    fn hear(&mut self, octet: u8) -> Option<Heard>
        ensures { HearsOctet octet self.old.octets self.new.octets result }
    {
        if octet == b'\n' {
            let signal = signal_named(self.octets.as_slice());
            self.octets.clear();
            return Some(match signal {
                Some(signal) => Heard::Signal(signal),
                None => Heard::Nothing,
            });
        }
        if self.octets.len() < 255 {
            self.octets.push(octet);
        }
        None
    }
}

impl Talks {
    // Lets each connection be waited for so long at most.
    fn set_wait(&self, wait: Duration) -> Result<()> {
        let same = UnixStream::from(self.listener.as_fd().try_clone_to_owned()?);
        same.set_read_timeout(Some(wait))
    }

    // Waits for a connection.
    fn accept(&mut self, wait: Duration) -> Result<()> {
        self.set_wait(wait)?;
        match self.listener.accept() {
            Ok((talker, _)) => {
                self.talker = Some(talker);
                Ok(())
            }
            Err(error) if is_quiet(&error) => Ok(()),
            Err(error) => Err(error),
        }
    }

    // The next octet of the connection. At its end comes a newline.
    fn octet(&mut self, wait: Duration) -> Result<Option<u8>> {
        let Some(talker) = &mut self.talker else {
            self.accept(wait)?;
            return Ok(None);
        };
        talker.set_read_timeout(Some(wait))?;
        let mut buf = [0u8; 1];
        match talker.read(&mut buf) {
            Ok(0) => {
                self.talker = None;
                Ok(Some(b'\n'))
            }
            Ok(_) => Ok(Some(buf[0])),
            Err(error) if is_quiet(&error) => Ok(None),
            Err(error) => {
                self.talker = None;
                Err(error)
            }
        }
    }

    // The next word, if it came within the wait. Of a line it reads what is there at once, 256 octets at most.
    fn next(&mut self, wait: Duration) -> Result<Heard> {
        let mut left = wait;
        for _ in 0..256 {
            let Some(octet) = self.octet(left)? else {
                return Ok(Heard::Nothing);
            };
            if let Some(heard) = self.line.hear(octet) {
                return Ok(heard);
            }
            left = wait_of(0);
        }
        Ok(Heard::Nothing)
    }
}

// The socket at this path.
fn open<R: rt::Files + Net>(rt: &R, path: &Name) -> Result<Talks> {
    Ok(Talks {
        listener: UnixListener::bind(rt, text_of(path.as_slice())?)?,
        talker: None,
        line: Line {
            octets: Name::new(),
        },
    })
}

impl Words {
    // The next word, if it came within the wait.
    fn next<R: rt::Files + Net>(&mut self, rt: &R, wait_ms: u32) -> Result<Heard> {
        if let Words::Closed(path) = self {
            let talks = open(rt, path)?;
            *self = Words::Open(talks);
        }
        match self {
            Words::Open(talks) => talks.next(wait_of(wait_ms)),
            _ => Ok(Heard::End),
        }
    }
}

impl<R: rt::Files + Net + Drop> Control for RealControl<R> {
    ghost state = { λ c. record { left = None; signals = c.signals; ends = c.ends; faults = c.faults } };

    fn next(&mut self, wait_ms: u32) -> Word {
        match self.words.next(&self.rt, wait_ms) {
            Ok(Heard::Signal(signal)) => {
                self.signals = self.signals.saturating_add(1);
                Word::Signal(signal)
            }
            Ok(Heard::Nothing) => Word::Quiet,
            Ok(Heard::End) => {
                self.ends = self.ends.saturating_add(1);
                Word::End
            }
            Err(_) => {
                self.faults = self.faults.saturating_add(1);
                Word::Failed
            }
        }
    }
}
