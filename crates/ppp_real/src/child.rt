ghost use Rattle.std.specs.Prelude.{◌≡◌, ◌≤◌, length, IfOk};
ghost use Rattle.std.specs.Process.{command_args, command_program};
ghost use Rattle.ppp_outside.specs.Line.{FitsBuffer};
ghost use Rattle.ppp_real.specs.Child.{shell, shell_words};

use crate::child_output::{ChildOutput, Flow};
use crate::socket::is_quiet;
use ppp_outside::LineGot;
use std::alloc::Global;
use std::io::{Error, ErrorKind, Read, Result, Write};
use std::net::Net;
use std::os::unix::net::UnixStream;
use std::process::{Child, ChildStdin, ChildStdout, Command, Processes, Stdio, SystemProcess};
use std::sync::{Arc, Condvar, Mutex, MutexGuard, Wait};
use std::thread::Threads;
use std::time::Duration;
use std::{rt, thread};

/// What reads a child's output. As it is dropped, the output is copied no longer.
#[derive(Drop)]
pub struct ChildReader<R> {
    rt: R,
    shared: Arc<Shared, Global>,
    room: UnixStream,
}

impl<R: Wait + rt::Clock> ChildReader<R> {
    /// Reads what is there. Where nothing is, it waits so many milliseconds at most.
    pub fn read(&mut self, buf: &mut [u8], wait_ms: u32) -> LineGot
        ensures { FitsBuffer result buf.new }
    {
        if buf.is_empty() {
            return LineGot::Quiet;
        }
        let (answer, is_wanted) = self.shared.read(&self.rt, buf, wait_ms);
        if is_wanted {
            let _ = self.room.write(&[0]);
        }
        answer
    }
}

// What the thread that copies a child's output shares with what reads it.
#[derive(Drop)]
struct Shared {
    output: Mutex<ChildOutput>,
    changed: Condvar,
}

impl Shared {
    fn new(alloc: Global) -> Result<Shared> {
        Ok(Shared {
            output: Mutex::new(ChildOutput::new(alloc)?),
            changed: Condvar::new(),
        })
    }

    // Reads what is there, and tells whether room is wanted. Where nothing is, it waits so many milliseconds at most.
    fn read<R: Wait + rt::Clock>(&self, rt: &R, buf: &mut [u8], wait_ms: u32) -> (LineGot, bool)
        ensures { FitsBuffer result.0 buf.new }
    {
        let wait = Duration::from_millis(u64::from(wait_ms));
        let output = self.output.lock(rt);
        let (mut output, _) = self
            .changed
            .wait_timeout_while(rt, output, wait, |output| output.blocks_reads());
        (output.take(buf), output.take_wish())
    }

    // Takes the lock. The thread that copies has no handle by which it could wait, so it looks again and again: the
    // lock is taken for no longer than octets are copied.
    fn lock(&self) -> Option<MutexGuard<'_, ChildOutput>> {
        for _ in 0..u64::MAX {
            if let Some(output) = self.output.try_lock() {
                return Some(output);
            }
            thread::yield_now();
        }
        None
    }

    // Adds octets from the piece's front, as many as there is room for, and answers how many.
    fn put(&self, piece: &[u8]) -> usize
        ensures { result ≤ length piece.now }
    {
        let count = match self.lock() {
            Some(mut output) => output.put(piece),
            None => 0,
        };
        self.changed.notify_all();
        count
    }

    // Adds the whole piece, as room comes. It tells whether somebody may read it.
    fn put_all(&self, room: &mut UnixStream, piece: &[u8]) -> bool {
        let mut left = piece;
        for _ in 0..u64::MAX {
            left = &left[self.put(left)..];
            if left.is_empty() {
                return true;
            }
            if !has_come(room) {
                return false;
            }
        }
        false
    }

    // Copies a child's output to its end, or as long as somebody may read it.
    fn copy(&self, room: &mut UnixStream, mut from: ChildStdout) -> Flow {
        let mut buf = [0u8; 4096];
        for _ in 0..u64::MAX {
            match from.read(&mut buf) {
                Ok(0) => return Flow::Ended,
                Ok(count) => {
                    if !self.put_all(room, &buf[..count]) {
                        return Flow::Ended;
                    }
                }
                Err(error) if is_quiet(&error) => {}
                Err(_) => return Flow::Failed,
            }
        }
        Flow::Failed
    }

    // Nothing more comes.
    fn end(&self, flow: Flow) {
        if let Some(mut output) = self.lock() {
            output.end(flow);
        }
        self.changed.notify_all();
    }
}

// Waits until room has come. It tells whether somebody may read on.
fn has_come(room: &mut UnixStream) -> bool {
    match room.read(&mut [0]) {
        Ok(count) => count > 0,
        Err(error) => is_quiet(&error),
    }
}

// Copies a child's output, closes it, and waits for the child's end.
fn attend(
    mut child: Child<SystemProcess>,
    from: ChildStdout,
    mut room: UnixStream,
    shared: &Shared,
) {
    let flow = shared.copy(&mut room, from);
    shared.end(flow);
    let _ = child.wait();
}

// The command of a line.
fn command_for(alloc: Global, command: &str) -> Result<Command>
    ensures program { IfOk result (λ made. command_program made ≡ shell) }
    ensures arguments { IfOk result (λ made. command_args made ≡ shell_words command.now) }
{
    let mut shell = Command::new(alloc, "/bin/sh")?;
    shell.arg("-c")?.arg(command)?;
    Ok(shell)
}

/// Runs a command, and gives what reads its output and what writes its input. A thread copies the output, and waits for
/// the command's end.
pub fn start<R: Net + Processes<Started = SystemProcess> + Threads + Copy>(
    rt: R,
    alloc: Global,
    command: &str,
) -> Result<(ChildReader<R>, ChildStdin)> {
    let shared = Arc::new(alloc, Shared::new(alloc)?)?;
    let theirs = Arc::try_clone(&shared)?;
    let (room, wanted) = UnixStream::pair(&rt)?;
    let mut child = command_for(alloc, command)?
        .stdin(Stdio::piped())
        .stdout(Stdio::piped())
        .spawn(&rt)?;
    let (Some(input), Some(output)) = (child.stdin.take(), child.stdout.take()) else {
        return Err(Error::from(ErrorKind::Other));
    };
    thread::spawn(&rt, move || attend(child, output, wanted, &theirs))?;
    Ok((ChildReader { rt, shared, room }, input))
}
