ghost use Rattle.std.specs.Prelude.{◌≡◌, ◌≢◌, ℕ, ◌+◌, ◌^◌, ◌<◌, ◌≤◌, None, List, length, MatchOption, MatchResult};
ghost use Rattle.ppp_mark.specs.Lines.{lines_of};
ghost use Rattle.ppp_trace.specs.FullFault.{HasFullFault, InChap, InOptions, InPap, full_line};
ghost use Rattle.ppp_trace.specs.Parts.{ReadsChap, ReadsOptions, ReadsPap, Tells, TellsLong};
ghost use Rattle.ppp_trace.specs.IsTrace.{IsFullTrace, trace_of};
ghost use Rattle.ppp_trace.specs.declared.TheConstants.{MOST_OCTETS};

use crate::MOST_OCTETS;
use crate::bare::bad;
use crate::fault::{FaultKind, TraceFault};
use crate::fields::number_in;
use crate::parts::{check_steps, options_at, secrets_at};
use crate::sections::{Section, bad_at, start_section};
use ppp_base::NoMemory;
use ppp_mark::lines::first_line;
use ppp_option_words::Config;
use ppp_secrets::{Secrets, SecretsPair};
use std::alloc::Global;

/// A full trace: what happened to the links and units of a router, step by step.
#[derive(Drop)]
pub struct Trace {
    /// With which the world's generator of random words begins.
    pub seed: u64,
    pub config: Config,
    pub secrets: SecretsPair,
    /// The lines of the steps: `read_step` reads each.
    pub steps: Vec<u8>,
}

// The section `chap`, and the steps behind it.
#[derive(Drop)]
struct ChapPart {
    chap: Secrets,
    steps: Vec<u8>,
}

// The section `pap`, and what is behind it.
#[derive(Drop)]
struct PapPart {
    pap: Secrets,
    behind: ChapPart,
}

// The section `options`, and what is behind it.
#[derive(Drop)]
struct OptionsPart {
    config: Config,
    behind: PapPart,
}

// No line of a section is too long.
fn short_lines(section: &Section<'_>, line: u64) -> Result<(), TraceFault>
    ensures { MatchResult result (λ _. section.now.long ≡ None) (λ fault. TellsLong line section.now.long fault) }
{
    match section.long {
        Some(place) => Err(bad_at(
            line.saturating_add(1).saturating_add(place),
            FaultKind::Long,
        )),
        None => Ok(()),
    }
}

// The line behind a section.
fn line_behind(line: u64, section: &Section<'_>) -> u64
    ensures { line + 1 + section.now.count ≤ 18446744073709551615 → result ≡ line + 1 + section.now.count }
{
    line.saturating_add(1).saturating_add(section.count)
}

// The section `chap` and the steps.
fn chap_part(alloc: Global, text: &[u8], links: u8, line: u64) -> Result<ChapPart, TraceFault>
    requires { links ≤ 16 }
    ensures { line + length (lines_of text.now) ≤ MOST_OCTETS → MatchResult result (ReadsChap links (lines_of text.now)) (Tells (InChap links line (lines_of text.now))) }
{
    let section = match start_section(alloc, text, b"chap", line) {
        Ok(section) => section,
        Err(fault) => return Err(fault),
    };
    let chap = match secrets_at(alloc, section.text.as_slice(), line.saturating_add(1)) {
        Ok(chap) => chap,
        Err(fault) => return Err(fault),
    };
    if let Err(fault) = short_lines(&section, line) {
        return Err(fault);
    }
    if let Err(fault) = check_steps(section.rest, links, line_behind(line, &section)) {
        return Err(fault);
    }
    match Vec::from_slice(alloc, section.rest) {
        Ok(steps) => Ok(ChapPart { chap, steps }),
        Err(_) => Err(TraceFault::NoMemory(NoMemory)),
    }
}

// The section `pap`, and what is behind it.
fn pap_part(alloc: Global, text: &[u8], links: u8, line: u64) -> Result<PapPart, TraceFault>
    requires { links ≤ 16 }
    ensures { line + length (lines_of text.now) ≤ MOST_OCTETS → MatchResult result (ReadsPap links (lines_of text.now)) (Tells (InPap links line (lines_of text.now))) }
{
    let section = match start_section(alloc, text, b"pap", line) {
        Ok(section) => section,
        Err(fault) => return Err(fault),
    };
    let pap = match secrets_at(alloc, section.text.as_slice(), line.saturating_add(1)) {
        Ok(pap) => pap,
        Err(fault) => return Err(fault),
    };
    if let Err(fault) = short_lines(&section, line) {
        return Err(fault);
    }
    match chap_part(alloc, section.rest, links, line_behind(line, &section)) {
        Ok(behind) => Ok(PapPart { pap, behind }),
        Err(fault) => Err(fault),
    }
}

// How many links there are.
fn links_of(config: &Config) -> u8
    ensures links { result ≡ length config.now.links }
    ensures few { result ≤ 16 }
{
    config.links.as_slice().len() as u8
}

// The section `options`, and what is behind it.
fn options_part(alloc: Global, text: &[u8], line: u64) -> Result<OptionsPart, TraceFault>
    ensures { line + length (lines_of text.now) ≤ MOST_OCTETS → MatchResult result (ReadsOptions (lines_of text.now)) (Tells (InOptions line (lines_of text.now))) }
{
    let section = match start_section(alloc, text, b"options", line) {
        Ok(section) => section,
        Err(fault) => return Err(fault),
    };
    let config = match options_at(alloc, section.text.as_slice(), line.saturating_add(1)) {
        Ok(config) => config,
        Err(fault) => return Err(fault),
    };
    if let Err(fault) = short_lines(&section, line) {
        return Err(fault);
    }
    match pap_part(
        alloc,
        section.rest,
        links_of(&config),
        line_behind(line, &section),
    ) {
        Ok(behind) => Ok(OptionsPart { config, behind }),
        Err(fault) => Err(fault),
    }
}

// The seed that the first line has.
fn seed_of(line: &[u8]) -> Option<u64>
    ensures { MatchOption result ((seed : ℕ) → seed < 2 ^ 64 → line.now ≢ full_line seed) (λ seed. (seed < 2 ^ 64) × (line.now ≡ full_line seed)) }
{
    let digits = line.strip_prefix(b"full ")?;
    number_in(digits, u64::MAX)
}

/// Reads a full trace, or tells its first fault. A trace of more than `MOST_OCTETS` is too long, whatever it has.
pub fn read_trace(alloc: Global, octets: &[u8]) -> Result<Trace, TraceFault>
    ensures { MatchResult result (IsFullTrace octets.now) (Tells (HasFullFault octets.now)) }
{
    if (MOST_OCTETS as usize) < octets.len() {
        return Err(bad(0, FaultKind::Size));
    }
    if octets.is_empty() {
        return Err(bad(1, FaultKind::Empty));
    }
    let (first, rest) = first_line(octets);
    let Some(seed) = seed_of(first) else {
        return Err(bad(1, FaultKind::Header));
    };
    match options_part(alloc, rest, 1) {
        Ok(part) => Ok(trace_of(seed, part)),
        Err(fault) => Err(fault),
    }
}

// The trace of this seed and these parts.
fn trace_of(seed: u64, part: OptionsPart) -> Trace
    ensures { result ≡ trace_of seed part }
{
    Trace {
        seed,
        config: part.config,
        secrets: SecretsPair {
            pap: part.behind.pap,
            chap: part.behind.behind.chap,
        },
        steps: part.behind.behind.steps,
    }
}
