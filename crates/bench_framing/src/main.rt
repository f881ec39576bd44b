//! Frames a payload and takes it apart again, and says how fast: `bench_framing MEGABYTES SEED RUNS KIND`, where KIND is
//! `random` (packets of 300 to 1,500 random octets), `small` (of 64) or `zeros`. With no words it works on one megabyte
//! and tells no times. It is built for `bench/framing.sh` and not shipped.
#![tactic(auto)]

mod line;
mod payload;

use line::{Line, drained, framed, is_payload, taken_apart};
use payload::{Kind, Payload};
use ppp_base::{LeadingZeros, read_number};
use std::process::ExitCode;
use std::rt::{Env, Runtime};
use std::time::{CpuClock, Duration};
use std::{env, io};

fn main(rt: HostRuntime) -> ExitCode {
    match run(&rt) {
        Ok(true) => ExitCode::SUCCESS,
        _ => ExitCode::FAILURE,
    }
}

/// What is worked on, and how often.
#[derive(Clone, Copy)]
struct Task {
    megabytes: u64,
    seed: u64,
    runs: u64,
    kind: Kind,
}

// Frames and takes apart under both maps. False where what came out isn't what went in.
fn run(rt: &(impl Runtime + CpuClock + AllocGlobal)) -> io::Result<bool> {
    let task = task_of(rt)?;
    let payload = Payload::new(
        rt.alloc(),
        task.megabytes.saturating_mul(1 << 20),
        task.seed,
        task.kind,
    )?;
    let (packets, octets) = (payload.packets(), payload.octets());
    println!(rt; "payload {octets} octets in {packets} packets")?;
    for map in [0, 0xffff_ffff] {
        if !both_ways(rt, map, &payload, task.runs)? {
            return Ok(false);
        }
    }
    Ok(true)
}

// The words of the command line, or a small task without times.
fn task_of(rt: &(impl Env + AllocGlobal)) -> io::Result<Task> {
    let mut task = Task {
        megabytes: 1,
        seed: 1,
        runs: 0,
        kind: Kind::Random,
    };
    for (i, word) in env::args(rt)?.skip(1).enumerate() {
        let number = read_number(word.as_bytes(), LeadingZeros::Refused, 1, 1000).unwrap_or(1);
        match i {
            0 => task.megabytes = number,
            1 => task.seed = number,
            2 => task.runs = number,
            _ => task.kind = Kind::named(word.as_bytes()),
        }
    }
    Ok(task)
}

// One map: first with a look at what comes out, and then by the clock.
fn both_ways(
    rt: &(impl Runtime + CpuClock + AllocGlobal),
    map: u32,
    payload: &Payload,
    runs: u64,
) -> io::Result<bool> {
    let mut line = Line::new(rt.alloc(), map)?;
    if !framed(&mut line, payload)? || !is_payload(&mut line, payload) {
        return Ok(false);
    }
    let octets = line.octets();
    println!(rt; "line {octets} octets")?;
    let mut framing = None;
    let mut deframing = None;
    for _ in 0..runs {
        let start = rt.process_cpu_time()?;
        drained(&mut line, payload);
        let middle = rt.process_cpu_time()?;
        taken_apart(&mut line);
        let end = rt.process_cpu_time()?;
        framing = best(framing, nanos_between(start, middle));
        deframing = best(deframing, nanos_between(middle, end));
    }
    let shown = if map == 0 { "00000000" } else { "ffffffff" };
    if let (Some(framing), Some(deframing)) = (framing, deframing) {
        let (frame, deframe) = (
            rate(payload.octets(), framing),
            rate(payload.octets(), deframing),
        );
        println!(rt; "frame map {shown} {frame} kB/s")?;
        println!(rt; "deframe map {shown} {deframe} kB/s")?;
    }
    Ok(true)
}

fn nanos_between(start: Duration, end: Duration) -> u64 {
    match end.checked_sub(start) {
        Some(spent) => u64::try_from(spent.as_nanos()).unwrap_or(u64::MAX),
        None => u64::MAX,
    }
}

fn best(before: Option<u64>, now: u64) -> Option<u64> {
    match before {
        Some(least) if least < now => Some(least),
        _ => Some(now),
    }
}

// Kilobytes a second.
fn rate(octets: usize, nanos: u64) -> u64 {
    (octets as u64).saturating_mul(1_000_000) / nanos.max(1)
}
