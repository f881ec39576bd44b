ghost use Rattle.std.specs.Prelude.{◌≡◌, ◌≢◌, ℕ, List, ◌∷◌, codes, MatchOption, MatchResult};
ghost use Rattle.std.specs.List.{find};
ghost use Rattle.std.specs.Str.{bytes_eq};
ghost use Rattle.ppp_outside.specs.declared.spawner.ScriptEnd.{ScriptEnd};
ghost use Rattle.ppp_trace.specs.BareTrace.{IsBareTrace};
ghost use Rattle.ppp_mark.specs.Lines.{lines_of};
ghost use Rattle.ppp_trace.specs.Reads.{Tells};
ghost use Rattle.ppp_trace.specs.declared.TheConstants.{EVENTS};
ghost use Rattle.ppp_trace.specs.declared.fault.TraceFault.TheVariants.{Bad};
ghost use Rattle.ppp_trace.specs.declared.step.BareStep.TheVariants.{End};
ghost use Rattle.ppp_trace.specs.Steps.{IsAnswer, IsNoStep, Spells, word_of_answer};
ghost use Rattle.ppp_trace.specs.Words.{word_of};

use crate::fault::{BadTrace, FaultKind, TraceFault};
use crate::step::BareStep;
use crate::words::{number, word};
use crate::{EVENTS, MOST_STEPS};
use ppp_base::NoMemory;
use ppp_fsm::FsmEvent;
use ppp_mark::lines::{first_line, place};
use ppp_outside::ScriptEnd;
use std::alloc::Global;

// The event that a line names.
fn event(line: &[u8]) -> Option<FsmEvent>
    ensures { result ≡ find (λ e. bytes_eq (word_of e) line.now) EVENTS }
{
    EVENTS.iter().copied().find(|e| word(*e) == line)
}

/// How a script ended, as a step has it.
pub fn answer(text: &[u8]) -> Option<ScriptEnd>
    ensures { MatchOption result ((a : ScriptEnd) → IsAnswer a → text.now ≢ word_of_answer a) (λ a. text.now ≡ word_of_answer a) }
{
    if text == b"killed".as_slice() {
        return Some(ScriptEnd::Killed);
    }
    if text == b"none".as_slice() {
        return Some(ScriptEnd::NotStarted);
    }
    let digits = text.strip_prefix(b"exit ")?;
    let status = number(digits)?;
    if status > 255 {
        return None;
    }
    Some(ScriptEnd::Exit(status as u8))
}

// The step of a line that tells a script's end.
fn end_step(line: &[u8]) -> Option<BareStep>
    ensures { MatchOption result ((job : ℕ) (a : ScriptEnd) → ¬ Spells line.now (End job a)) (λ step. Spells line.now step) }
{
    let words = line.strip_prefix(b"end ")?;
    let space = place(words, b' ');
    if space == words.len() {
        return None;
    }
    let Some(job) = number(&words[..space]) else {
        return None;
    };
    let Some(answer) = answer(&words[space + 1..]) else {
        return None;
    };
    Some(BareStep::End { job, answer })
}

// The step that a line is.
fn step(line: &[u8]) -> Option<BareStep>
    ensures { MatchOption result (IsNoStep line.now) (λ step. Spells line.now step) }
{
    match event(line) {
        Some(event) => Some(BareStep::Event(event)),
        None => end_step(line),
    }
}

// The steps that the lines behind the header are, where each is one and they aren't too many.
fn steps(alloc: Global, text: &[u8]) -> Result<Vec<BareStep>, TraceFault>
    ensures { (octets : List ℕ) → lines_of octets ≡ codes "bare" ∷ lines_of text.now
        → MatchResult result (λ steps. IsBareTrace octets steps.items) (λ fault. Tells octets fault) }
{
    let mut steps = Vec::new(alloc);
    let mut rest = text;
    let mut number = 2;
    'lines: while !rest.is_empty() {
        let (line, others) = first_line(rest);
        let Some(step) = step(line) else {
            return Err(bad(number, FaultKind::Step));
        };
        if steps.len() >= MOST_STEPS {
            return Err(bad(number, FaultKind::Steps));
        }
        if steps.push(step).is_err() {
            return Err(TraceFault::NoMemory(NoMemory));
        }
        number += 1;
        rest = others;
    }
    Ok(steps)
}

/// A fault of this line.
pub fn bad(line: u32, kind: FaultKind) -> TraceFault
    ensures { result ≡ Bad (record { line = line; kind = kind }) }
{
    TraceFault::Bad(BadTrace { line, kind })
}

/// Reads a bare trace: its steps, or its first fault. The time is that of one pass over the octets. It never answers
/// `Size`: a caller that takes no more than `MOST_OCTETS` tells that fault itself.
pub fn read_bare(alloc: Global, octets: &[u8]) -> Result<Vec<BareStep>, TraceFault>
    ensures { MatchResult result (λ steps. IsBareTrace octets.now steps.items) (λ fault. Tells octets.now fault) }
{
    if octets.is_empty() {
        return Err(bad(1, FaultKind::Empty));
    }
    let (header, rest) = first_line(octets);
    if header != b"bare".as_slice() {
        return Err(bad(1, FaultKind::Header));
    }
    steps(alloc, rest)
}
