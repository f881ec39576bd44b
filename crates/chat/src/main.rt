//! Dials a line and runs a chat script over it, as chat(8) has it: expect, send, abort, time out.
#![tactic(auto)]

mod asking;
mod ending;
mod laws;
mod plan;
#[cfg(test)]
mod real_tests;
mod run;
mod talking;
#[cfg(test)]
mod tests;

use crate::ending::Refusal;
use crate::run::{chat_run, refuse};
use ppp_outside::{Sink, ToWriter};
use ppp_real::{RealClock, RealDialer, RealFiles};
use std::process::ExitCode;
use std::rt::Env;
use std::{env, io};

fn main(rt: HostRuntime) -> ExitCode {
    let mut errors = ToWriter::new(rt.stderr());
    let words = match words_of(&rt) {
        Ok(words) => words,
        Err(error) => return ExitCode::from(refuse(&mut errors, refusal_of(&error))),
    };
    let mut dialer = RealDialer::new(rt, rt.alloc());
    let mut files = RealFiles::new(rt);
    let mut clock = RealClock::new(rt);
    let run = chat_run(
        &rt,
        rt.alloc(),
        &words,
        &mut dialer,
        &mut files,
        &mut clock,
        &mut errors,
    );
    ExitCode::from(run.status)
}

// The words of the command line, behind the program's name.
fn words_of(rt: &(impl Env + AllocGlobal)) -> io::Result<Vec<String>> {
    let mut words = Vec::new(rt.alloc());
    for word in env::args(rt)?.skip(1) {
        words.push(word)?;
    }
    Ok(words)
}

// Why nothing is dialled where the words of the command line can't be had: one of them isn't UTF-8, and no such word is
// known, or memory ran out.
fn refusal_of(error: &io::Error) -> Refusal {
    if error.kind() == io::ErrorKind::InvalidData {
        Refusal::OtherWords
    } else {
        Refusal::NoMemory
    }
}
