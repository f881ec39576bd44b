ghost use Rattle.std.specs.Prelude.{◌≡◌, ℕ, ◌+◌, ◌^◌, ◌<◌, ◌≤◌, ◌==◌, min, nat_lt, Some, List, length, option_map, if◌then◌else◌, IfOk, IfSome, MatchOption, MatchResult};
ghost use Rattle.ppp_mark.specs.Lines.{lines_of};
ghost use Rattle.ppp_trace.specs.FullTrace.{IsCount, NoSection, SaysCount};
ghost use Rattle.ppp_base.specs.Numbers.{may_be_number};
ghost use Rattle.ppp_base.specs.declared.numbers.LeadingZeros.TheVariants.{Refused};
ghost use Rattle.ppp_trace.specs.Sections.{ReadsSection, StartsWith, TakesLines, TellsStart, with_long};
ghost use Rattle.ppp_trace.specs.declared.fault.TraceFault.TheVariants.{Bad};
ghost use Rattle.ppp_trace.specs.declared.TheConstants.{MOST_LINE, MOST_OCTETS};

use crate::MOST_LINE;
use crate::bare::bad;
use crate::fault::{FaultKind, TraceFault};
use ppp_base::NoMemory;
use ppp_mark::lines::first_line;
use std::alloc::Global;

/// Lines of a section, and what follows them.
#[derive(Drop)]
pub struct TakenLines<'a> {
    /// The lines, each with its newline.
    pub text: Vec<u8>,
    /// How many there are.
    pub count: u64,
    /// The first of them that is too long.
    pub long: Option<u64>,
    /// What follows.
    pub rest: &'a [u8],
}

/// Takes so many lines at most.
pub fn take_lines(alloc: Global, text: &[u8], most: u64) -> Result<TakenLines<'_>, NoMemory>
    ensures { IfOk result (TakesLines text.now most) }
{
    let mut copied = Vec::new(alloc);
    let mut count = 0;
    let mut long = None;
    let mut rest = text;
    'lines: while count < most && !rest.is_empty() {
        let (line, others) = first_line(rest);
        copied.extend_from_slice(line)?;
        copied.push(b'\n')?;
        long = first_long(long, line, count);
        count += 1;
        rest = others;
    }
    Ok(TakenLines {
        text: copied,
        count,
        long,
        rest,
    })
}

// The first place of a line that is too long, with this line at this place.
fn first_long(long: Option<u64>, line: &[u8], place: u64) -> Option<u64>
    ensures { result ≡ with_long long line.now place }
{
    if long.is_none() && MOST_LINE < line.len() {
        Some(place)
    } else {
        long
    }
}

/// A section of a full trace, or what there is of it.
#[derive(Drop)]
pub struct Section<'a> {
    /// Its own lines, each with its newline.
    pub text: Vec<u8>,
    /// How many there are.
    pub count: u64,
    /// Whether they are as many as it says.
    pub whole: bool,
    /// The first line that is too long: 0 is the section's line, 1 the first of its own.
    pub long: Option<u64>,
    /// What follows.
    pub rest: &'a [u8],
}

// How many lines a section has that begins with this line, as far as a number goes.
fn count_in(line: &[u8], name: &[u8]) -> Option<u64>
    ensures { MatchOption result ((n : ℕ) → SaysCount name.now line.now n → ⊥) (λ count. (n : ℕ) × SaysCount name.now line.now n × (count ≡ min n 18446744073709551615)) }
{
    let Some(behind) = line.strip_prefix(name) else {
        return None;
    };
    let Some(digits) = behind.strip_prefix(b" ") else {
        return None;
    };
    count_of(digits)
}

// The number that these digits spell without leading zeros, as far as a number goes.
fn count_of(digits: &[u8]) -> Option<u64>
    ensures { MatchOption result ((n : ℕ) → IsCount digits.now n → ⊥) (λ count. (n : ℕ) × IsCount digits.now n × (count ≡ min n 18446744073709551615)) }
{
    if !has_form(digits) {
        return None;
    }
    let mut count = 0u64;
    for digit in digits {
        if *digit < b'0' || b'9' < *digit {
            return None;
        }
        count = count
            .saturating_mul(10)
            .saturating_add(u64::from(*digit - b'0'));
    }
    Some(count)
}

// Whether digits are some, and a zero leads only alone.
fn has_form(digits: &[u8]) -> bool
    ensures { result ≡ may_be_number Refused digits.now }
{
    match digits {
        [] => false,
        [_] => true,
        [first, ..] => *first != b'0',
    }
}

/// The section of this name with which a text begins. None: no line of such a section is first.
pub fn read_section<'a>(
    alloc: Global,
    text: &'a [u8],
    name: &[u8],
) -> Result<Option<Section<'a>>, NoMemory>
    ensures { IfOk result (λ read. MatchOption read (NoSection name.now (lines_of text.now)) (λ s. ReadsSection name.now (lines_of text.now) s)) }
{
    if text.is_empty() {
        return Ok(None);
    }
    let (line, behind) = first_line(text);
    let Some(count) = count_in(line, name) else {
        return Ok(None);
    };
    let taken = take_lines(alloc, behind, count)?;
    Ok(Some(with_line(line, count, taken)))
}

// A section by its line, how many lines that says, and the lines that were taken.
fn with_line<'a>(line: &[u8], count: u64, taken: TakenLines<'a>) -> Section<'a>
    requires { IfSome taken.long (λ place. place < 18446744073709551615) }
    ensures text { result.text.items ≡ taken.entry.text.items }
    ensures rest { result.rest.now ≡ taken.entry.rest.now }
    ensures count { result.count ≡ taken.entry.count }
    ensures whole { result.whole ≡ (taken.entry.count == count) }
    ensures long { result.long ≡ (if nat_lt MOST_LINE (length line.now) then Some 0 else option_map (λ place. place + 1) taken.entry.long) }
{
    let long = if MOST_LINE < line.len() {
        Some(0)
    } else {
        next_place(taken.long)
    };
    Section {
        text: taken.text,
        count: taken.count,
        whole: taken.count == count,
        long,
        rest: taken.rest,
    }
}

// One place further.
fn next_place(long: Option<u64>) -> Option<u64>
    requires { IfSome long (λ place. place < 18446744073709551615) }
    ensures { result ≡ option_map (λ place. place + 1) long }
{
    match long {
        Some(place) => Some(place + 1),
        None => None,
    }
}

/// A fault of this line. A line above `u32::MAX` stands for that.
pub fn bad_at(line: u64, kind: FaultKind) -> TraceFault
    ensures { line < 2 ^ 32 → result ≡ Bad (record { line = line; kind = kind }) }
{
    bad(u32::try_from(line).unwrap_or(u32::MAX), kind)
}

/// The section of this name with which a text begins, behind so many lines.
pub fn start_section<'a>(
    alloc: Global,
    text: &'a [u8],
    name: &[u8],
    line: u64,
) -> Result<Section<'a>, TraceFault>
    ensures { line + length (lines_of text.now) ≤ MOST_OCTETS → MatchResult result (StartsWith name.now (lines_of text.now)) (TellsStart name.now line (lines_of text.now)) }
{
    match read_section(alloc, text, name) {
        Ok(Some(section)) => started(section, line),
        Ok(None) => Err(bad_at(line.saturating_add(1), FaultKind::Header)),
        Err(want) => Err(TraceFault::NoMemory(want)),
    }
}

// The section, where it is whole and its own line isn't too long.
fn started(section: Section<'_>, line: u64) -> Result<Section<'_>, TraceFault>
    ensures { (name : List ℕ) (lines : List (List ℕ)) → line + length lines ≤ MOST_OCTETS → ReadsSection name lines section.entry → MatchResult result (StartsWith name lines) (TellsStart name line lines) }
{
    let first = line.saturating_add(1);
    match section.long {
        Some(0) => Err(bad_at(first, FaultKind::Long)),
        _ if section.whole => Ok(section),
        Some(place) => Err(bad_at(first.saturating_add(place), FaultKind::Long)),
        None => Err(bad_at(
            first.saturating_add(section.count).saturating_add(1),
            FaultKind::Header,
        )),
    }
}
