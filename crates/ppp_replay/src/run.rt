ghost use Rattle.std.specs.Prelude.{◌≡◌, ◌↔◌, ◌⊎◌, ◌<◌, ◌≤◌, ◌+◌, ◌^◌, List, ℕ, Some, IfSome, IsTrue, map};
ghost use Rattle.std.specs.Bool.{OnFalse, OnTrue};
ghost use Rattle.std.specs.String.{string_bytes};
ghost use Rattle.ppp_outside.specs.Writing.{Breaks, Writes};
ghost use Rattle.ppp_trace.specs.declared.TheConstants.{MOST_OCTETS};
ghost use Rattle.ppp_trace.specs.declared.whole_trace.TheConstants.{MOST_MADE_STEPS};
ghost use Rattle.ppp_replay.specs.Run.{Answers, BareEnds, BeginsFull, Ends, FullEnds, InputEnds, IsMade, IsStatusOf, MakeEnds, WritesFault, bad_line, made_task, task_of};
ghost use Rattle.ppp_replay.specs.declared.run.Task.TheVariants.{Check, Replay};

use crate::full::put_full;
use crate::made::{links_of, put_summary, run_made};
use crate::player::Player;
use crate::text::put_text;
use ppp_base::{LeadingZeros, read_number};
use ppp_outside::{Sink, Source, TextWriter, Whole, read_whole, write_whole};
use ppp_report::check_report;
use ppp_trace::{
    BadTrace, FaultKind, MOST_MADE_STEPS, MOST_OCTETS, Trace, TraceFault, fault_text, read_bare,
    read_trace,
};
use ppp_world::World;
use std::alloc::Global;

/// What the words of the command line ask for.
#[derive(Clone, Copy, Debug, PartialEq, Eq)]
pub enum Task {
    /// No words: a trace is replayed.
    Replay,
    /// `-c`: a report is checked.
    Check,
    /// `-g SEED LINKS STEPS`: a trace is made and run.
    Make(u64, u8, u32),
}

/// How the program ended.
#[derive(Clone, Copy, Debug, PartialEq, Eq)]
pub enum Ending {
    /// The trace was replayed, or the report is lawful.
    Done,
    /// The words ask for nothing that is known.
    OtherWords,
    /// The input is no trace, or no lawful report.
    Refused,
    /// Memory ran out.
    NoMemory,
    /// The source failed.
    SourceFailed,
    /// The sink failed.
    SinkFailed,
}

// What the words ask for.
fn task_of(words: &[String]) -> Option<Task>
    ensures task { result ≡ task_of (map string_bytes words.now) }
    ensures made { IfSome result IsMade }
{
    match words {
        [] => Some(Task::Replay),
        [word] => {
            if word.as_bytes() == b"-c".as_slice() {
                Some(Task::Check)
            } else {
                None
            }
        }
        [word, seed, links, steps] => {
            if word.as_bytes() == b"-g".as_slice() {
                made_task(seed.as_bytes(), links.as_bytes(), steps.as_bytes())
            } else {
                None
            }
        }
        _ => None,
    }
}

// What is to be made.
fn made_task(seed: &[u8], links: &[u8], steps: &[u8]) -> Option<Task>
    ensures task { result ≡ made_task seed.now links.now steps.now }
    ensures made { IfSome result IsMade }
{
    let seed = read_number(seed, LeadingZeros::Refused, 0, u64::MAX)?;
    let links = read_number(links, LeadingZeros::Refused, 1, 16)?;
    let steps = read_number(steps, LeadingZeros::Refused, 1, u64::from(MOST_MADE_STEPS))?;
    Some(Task::Make(seed, links as u8, steps as u32))
}

// Whether the first line begins with `full`.
fn begins_full(octets: &[u8]) -> bool
    ensures { IsTrue result ↔ BeginsFull octets.now }
{
    octets.starts_with(b"full")
}

// Writes the line of a fault, as far as the sink takes it.
fn refuse<O: Sink>(output: &mut O, bad: BadTrace) -> Ending
    ensures ending { result ≡ Ending.Refused }
    ensures line { WritesFault (O.state output.old) (O.state output.new) bad }
{
    let _ = write_whole(output, fault_text(bad).as_slice());
    Ending::Refused
}

// Writes the text of a bare trace.
fn replay_bare<O: Sink>(alloc: Global, octets: &[u8], output: &mut O) -> Ending
    ensures { BareEnds result octets.now (O.state output.old) (O.state output.new) }
{
    let steps = match read_bare(alloc, octets) {
        Ok(steps) => steps,
        Err(TraceFault::Bad(bad)) => return refuse(output, bad),
        Err(TraceFault::NoMemory(_)) => return Ending::NoMemory,
    };
    let Ok(player) = Player::new(alloc) else {
        return Ending::NoMemory;
    };
    if put_text(output, player, &steps) {
        Ending::Done
    } else {
        Ending::SinkFailed
    }
}

// Writes the text of a full trace.
fn replay_full<O: Sink>(alloc: Global, octets: &[u8], output: &mut O) -> Ending
    ensures { FullEnds result octets.now (O.state output.old) (O.state output.new) }
{
    let Trace {
        seed,
        config,
        secrets,
        steps,
    } = match read_trace(alloc, octets) {
        Ok(trace) => trace,
        Err(TraceFault::Bad(fault)) => return refuse(output, fault),
        Err(TraceFault::NoMemory(_)) => return Ending::NoMemory,
    };
    let links = links_of(&config);
    let Ok(world) = World::new(alloc, &config, secrets, seed) else {
        return Ending::NoMemory;
    };
    if put_full(output, world, steps.as_slice(), links) {
        Ending::Done
    } else {
        Ending::SinkFailed
    }
}

// Writes the text of a trace, bare or full.
fn replay_octets<O: Sink>(alloc: Global, octets: &[u8], output: &mut O) -> Ending
    ensures { InputEnds result octets.now (O.state output.old) (O.state output.new) }
{
    if begins_full(octets) {
        replay_full(alloc, octets, output)
    } else {
        replay_bare(alloc, octets, output)
    }
}

// Reads a trace, and writes its text.
fn replay<I: Source, O: Sink>(alloc: Global, input: &mut I, output: &mut O) -> Ending
    ensures bounded { (I.state input.new).taken ≤ (I.state input.old).taken + MOST_OCTETS + 1 }
    ensures ends { Ends (Some Replay) result (I.state input.old) (I.state input.new) (O.state output.old) (O.state output.new) }
{
    match read_whole(alloc, input, MOST_OCTETS) {
        Ok(Whole::Octets(octets)) => replay_octets(alloc, &octets, output),
        Ok(Whole::TooLong(_octets)) => refuse(
            output,
            BadTrace {
                line: 0,
                kind: FaultKind::Size,
            },
        ),
        Ok(Whole::Failed) => Ending::SourceFailed,
        Err(_) => Ending::NoMemory,
    }
}

// Makes a trace, runs it, and writes what it came to.
fn make<O: Sink>(alloc: Global, seed: u64, links: u8, steps: u32, output: &mut O) -> Ending
    requires links { (1 ≤ links) × (links ≤ 16) }
    requires steps { steps ≤ MOST_MADE_STEPS }
    ensures { MakeEnds result (O.state output.old) (O.state output.new) }
{
    let Ok(summary) = run_made(alloc, seed, links, steps) else {
        return Ending::NoMemory;
    };
    if put_summary(output, summary) {
        Ending::Done
    } else {
        Ending::SinkFailed
    }
}

// Writes the line that names a bad line of a report, as far as the sink takes it.
fn name_bad<O: Sink>(output: &mut O, line: u64) -> Ending
    ensures ending { result ≡ Ending.Refused }
    ensures line { Writes (O.state output.old) (O.state output.new) (bad_line line) ⊎ Breaks (O.state output.old) (O.state output.new) (bad_line line) }
{
    let _ = put_bad(output, line);
    Ending::Refused
}

// Writes the line that names a bad line of a report, and answers whether the whole of it was taken.
fn put_bad<O: Sink>(output: &mut O, line: u64) -> bool
    ensures whole { OnTrue result (Writes (O.state output.old) (O.state output.new) (bad_line line)) }
    ensures part { OnFalse result (Breaks (O.state output.old) (O.state output.new) (bad_line line)) }
{
    let mut writer = TextWriter::new();
    writer.put(output, b"line ");
    writer.put_number(output, line);
    writer.put(output, b"\n");
    writer.finish(output)
}

// Reads a report, and writes whether it is lawful.
fn check<I: Source, O: Sink>(alloc: Global, input: &mut I, output: &mut O) -> Ending
    ensures bounded { (I.state input.new).taken ≤ (I.state input.old).taken + MOST_OCTETS + 1 }
    ensures ends { Ends (Some Check) result (I.state input.old) (I.state input.new) (O.state output.old) (O.state output.new) }
{
    let octets = match read_whole(alloc, input, MOST_OCTETS) {
        Ok(Whole::Octets(octets)) => octets,
        Ok(Whole::TooLong(_octets)) => return name_bad(output, 0),
        Ok(Whole::Failed) => return Ending::SourceFailed,
        Err(_) => return Ending::NoMemory,
    };
    if let Err(bad) = check_report(&octets) {
        return name_bad(output, bad.line);
    }
    if write_whole(output, b"lawful\n") {
        Ending::Done
    } else {
        Ending::SinkFailed
    }
}

// Does what the words ask for.
fn run<I: Source, O: Sink>(alloc: Global, words: &[String], input: &mut I, output: &mut O) -> Ending
    ensures bounded { (I.state input.new).taken ≤ (I.state input.old).taken + MOST_OCTETS + 1 }
    ensures ends { Ends (task_of (map string_bytes words.now)) result (I.state input.old) (I.state input.new) (O.state output.old) (O.state output.new) }
{
    match task_of(words) {
        Some(Task::Replay) => replay(alloc, input, output),
        Some(Task::Check) => check(alloc, input, output),
        Some(Task::Make(seed, links, steps)) => make(alloc, seed, links, steps, output),
        None => Ending::OtherWords,
    }
}

/// Reads a trace to its end, and writes the lines of each step; with the word `-c` it reads a report, and writes
/// `lawful`, or `line N` with the number of its first bad line; with `-g SEED LINKS STEPS` it makes a trace, runs it, and
/// writes what it came to. Answers the status of the program:
///
/// | Status | Meaning |
/// |---|---|
/// | 0 | the trace was replayed; the report is lawful |
/// | 2 | there are other words |
/// | 3 | the input is no trace, or no lawful report; one line names its first fault |
/// | 32 | memory ran out |
/// | 33 | the source failed |
/// | 35 | the sink failed |
pub fn replay_run<I: Source, O: Sink>(
    alloc: Global,
    words: &[String],
    input: &mut I,
    output: &mut O,
) -> u8
    requires taken { (I.state input.old).taken < 2 ^ 63 }
    requires source_faults { (I.state input.old).faults < 2 ^ 63 }
    requires sink_faults { (O.state output.old).faults < 2 ^ 63 }

    // What each status says is one relation, by endings.
    ensures answers { Answers (map string_bytes words.now) result (I.state input.old) (I.state input.new) (O.state output.old) (O.state output.new) }

    // At most one octet more than an input may have is read.
    ensures bounded { (I.state input.new).taken ≤ (I.state input.old).taken + MOST_OCTETS + 1 }

    // Where the source tells what it holds, the status is one that all of it has.
    ensures complete { (octets : List ℕ) → (I.state input.old).left ≡ Some octets → IsStatusOf (task_of (map string_bytes words.now)) octets result }
{
    match run(alloc, words, input, output) {
        Ending::Done => 0,
        Ending::OtherWords => 2,
        Ending::Refused => 3,
        Ending::NoMemory => 32,
        Ending::SourceFailed => 33,
        Ending::SinkFailed => 35,
    }
}
