//! Replays a written trace of events through the option negotiation automaton of RFC 1661 and the site scripts of its
//! unit: it reads the trace from standard input to its end and writes one line for each step on standard output.
#![tactic(auto)]

mod act_names;
mod full;
mod made;
mod player;
mod run;
#[cfg(test)]
mod tests;
mod text;

use ppp_outside::{FromReader, ToWriter};
use std::process::ExitCode;
use std::rt::Env;
use std::{env, io};

fn main(rt: HostRuntime) -> ExitCode {
    let words = match words_of(&rt) {
        Ok(words) => words,
        Err(error) => return ExitCode::from(status_of(&error)),
    };
    let mut input = FromReader::new(rt.reader());
    let mut output = ToWriter::new(io::writer(&rt));
    ExitCode::from(run::replay_run(rt.alloc(), &words, &mut input, &mut output))
}

// The words of the command line, behind the program's name.
fn words_of(rt: &(impl Env + AllocGlobal)) -> io::Result<Vec<String>> {
    let mut words = Vec::new(rt.alloc());
    for word in env::args(rt)?.skip(1) {
        words.push(word)?;
    }
    Ok(words)
}

// The status where the words of the command line can't be had: one of them isn't UTF-8, and no such word is known, or
// memory ran out.
fn status_of(error: &io::Error) -> u8 {
    if error.kind() == io::ErrorKind::InvalidData {
        2
    } else {
        32
    }
}
