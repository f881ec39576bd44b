ghost use Rattle.std.specs.Prelude.{◌≡◌, ◌≢◌, ◌+◌, ◌^◌, ◌<◌, ◌≤◌, ℕ, List, ◌∷◌, ◌++◌, IfOk, IfSome, MatchOption, MatchResult, length};
ghost use Rattle.std.specs.Fmt.{decimal};
ghost use Rattle.ppp_mark.specs.declared.mark.Mark.{Mark};
ghost use Rattle.ppp_mark.specs.declared.report.LogName.{LogName};
ghost use Rattle.ppp_mark.specs.declared.report.LogName.TheVariants.{Link, Unit as OfUnit};
ghost use Rattle.ppp_mark.specs.Lines.{lines_of};
ghost use Rattle.ppp_report.specs.BadLine.{BadLine, HasFault, IsFirstBad, IsLawfulReport};
ghost use Rattle.ppp_report.specs.Places.{At, In, IsSettledAs, Line};
ghost use Rattle.ppp_report.specs.Reads.{BeginsOther};
ghost use Rattle.ppp_report.specs.Report.{MayCome, end_word, heading};

use crate::number::number;
use crate::section::{MarksEnd, read_marks};
use ppp_base::{LinkId, Unit};
use ppp_mark::LogName;
use ppp_mark::lines::first_line;
use thiserror::Error;

/// A line of a report that is none, of which the first is 1.
#[derive(Clone, Copy, Debug, PartialEq, Eq, Error)]
#[error("line {line}")]
pub struct BadReport {
    pub line: u64,
}

// The number behind this word, which together are the line.
fn numbered(line: &[u8], word: &[u8], most: u64) -> Option<u8>
    requires { most ≤ 255 }
    ensures sound { IfSome result (λ n. (n ≤ most) × (line.now ≡ word.now ++ decimal n)) }
    ensures found { (n : ℕ) → n ≤ most → line.now ≡ word.now ++ decimal n → MatchOption result ⊥ (λ r. r ≡ n) }
{
    let Some(digits) = line.strip_prefix(word) else {
        return None;
    };
    let Some((number, rest)) = number(digits, most) else {
        return None;
    };
    if !rest.is_empty() {
        return None;
    }
    Some(number as u8)
}

// Whose section a line begins, where so many links stand before it, and no unit from `least` on.
fn name_of(line: &[u8], links: u8, least: u8) -> Option<LogName>
    requires { links ≤ 16 }
    ensures sound { IfSome result (λ name. MayCome links least name × (line.now ≡ heading name)) }
    ensures found { (name : LogName) → MayCome links least name → line.now ≡ heading name → MatchOption result ⊥ (λ r. r ≡ name) }
{
    match numbered(line, b"unit ", 15) {
        Some(unit) => unit_name(unit, least),
        None => link_name(line, links, least),
    }
}

// This unit, where none from it on stands before.
fn unit_name(unit: u8, least: u8) -> Option<LogName>
    requires { unit ≤ 15 }
    ensures { MatchOption result (unit < least) (λ name. (least ≤ unit) × (name ≡ OfUnit unit)) }
{
    if unit < least {
        return None;
    }
    let Some(unit) = Unit::new(unit) else {
        return None;
    };
    Some(LogName::Unit(unit))
}

// The link whose section a line begins, where no unit stands before, and all links below it do.
fn link_name(line: &[u8], links: u8, least: u8) -> Option<LogName>
    requires { links ≤ 16 }
    ensures sound { IfSome result (λ name. ((link : ℕ) × (name ≡ Link link)) × MayCome links least name × (line.now ≡ heading name)) }
    ensures found { (link : ℕ) → MayCome links least (Link link) → line.now ≡ heading (Link link) → MatchOption result ⊥ (λ r. r ≡ Link link) }
{
    let Some(link) = numbered(line, b"link ", 16) else {
        return None;
    };
    if least != 0 || link != links + 1 {
        return None;
    }
    let Some(link) = LinkId::new(link) else {
        return None;
    };
    Some(LogName::Link(link))
}

// What is left of a report behind whole sections, and what was counted before.
#[derive(Drop)]
struct Place<'a> {
    rest: &'a [u8],
    // How many lines were read.
    line: u64,
    // How many links stand.
    links: u8,
    // The least unit that may still stand.
    least: u8,
}

// Behind the marks of a link's log: its status.
fn after_link(rest: &[u8], line: u64, settled: bool) -> Result<&[u8], BadReport>
    requires { line ≤ 2 ^ 63 }
    ensures place { (lines : List Line) (links least link : ℕ) (past : List Mark) → In lines links least (Link link) past (lines_of rest.now) line
        → BeginsOther (Link link) rest.now → IsSettledAs settled past
        → MatchResult result (λ others. At lines link least (lines_of others.now) (line + 1)) (λ bad. IsFirstBad lines bad.line) }
    ensures shorter { IfOk result (λ others. length others.now < length rest.now) }
{
    if rest.is_empty() {
        return Err(BadReport { line: line + 1 });
    }
    let (last, others) = first_line(rest);
    let Some(_status) = numbered(last, b"status ", 255) else {
        return Err(BadReport { line: line + 1 });
    };
    if !settled {
        return Err(BadReport { line: line + 1 });
    }
    Ok(others)
}

// Behind the marks of a unit's log.
fn after_unit(rest: &[u8], line: u64, count: u64, settled: bool) -> Result<&[u8], BadReport>
    requires { line ≤ 2 ^ 63 }
    ensures place { (lines : List Line) (links least unit : ℕ) (past : List Mark) → In lines links least (OfUnit unit) past (lines_of rest.now) line
        → count ≡ length past → BeginsOther (OfUnit unit) rest.now → IsSettledAs settled past
        → MatchResult result (λ others. At lines links (unit + 1) (lines_of others.now) line) (λ bad. IsFirstBad lines bad.line) }
    ensures same { IfOk result (λ others. others.now ≡ rest.now) }
{
    if count == 0 {
        return Err(BadReport { line: line + 1 });
    }
    if !settled {
        return Err(BadReport { line });
    }
    Ok(rest)
}

// Behind the marks of a log, of which the last stands on this line.
fn after_marks<'a>(
    name: &LogName,
    rest: &'a [u8],
    line: u64,
    count: u64,
    settled: bool,
    links: u8,
    least: u8,
) -> Result<Place<'a>, BadReport>
    requires small { line ≤ 2 ^ 63 }
    requires links { links ≤ 16 }
    requires least { least ≤ 16 }
    ensures place { (lines : List Line) (past : List Mark) → In lines links least name.now past (lines_of rest.now) line → count ≡ length past
        → BeginsOther name.now rest.now → IsSettledAs settled past
        → MatchResult result (λ p. At lines p.links p.least (lines_of p.rest.now) p.line) (λ bad. IsFirstBad lines bad.line) }
    ensures within { IfOk result (λ p. p.line + length p.rest.now ≤ line + length rest.now) }
    ensures shorter { IfOk result (λ p. length p.rest.now ≤ length rest.now) }
    ensures numbers { IfOk result (λ p. (p.links ≤ 16) × (p.least ≤ 16)) }
{
    match name {
        LogName::Link(link) => match after_link(rest, line, settled) {
            Ok(others) => Ok(Place {
                rest: others,
                line: line + 1,
                links: link.number(),
                least,
            }),
            Err(bad) => Err(bad),
        },
        LogName::Unit(unit) => match after_unit(rest, line, count, settled) {
            Ok(others) => Ok(Place {
                rest: others,
                line,
                links,
                least: unit.number() + 1,
            }),
            Err(bad) => Err(bad),
        },
    }
}

// Behind the line `end`.
fn after_end(behind: &[u8], line: u64) -> Result<(), BadReport>
    requires { line ≤ 2 ^ 63 }
    ensures { (lines : List Line) (links least : ℕ) → At lines links least (end_word ∷ lines_of behind.now) line
        → MatchResult result (λ _. (n : ℕ) → HasFault lines n → ⊥) (λ bad. IsFirstBad lines bad.line) }
{
    if behind.is_empty() {
        Ok(())
    } else {
        Err(BadReport { line: line + 2 })
    }
}

// The section that begins with this line, whose marks are behind it.
fn section<'a>(
    first: &[u8],
    behind: &'a [u8],
    line: u64,
    links: u8,
    least: u8,
) -> Result<Place<'a>, BadReport>
    requires small { line + length behind.now < 2 ^ 63 }
    requires links { links ≤ 16 }
    requires least { least ≤ 16 }
    ensures place { (lines : List Line) → first.now ≢ end_word → At lines links least (first.now ∷ lines_of behind.now) line
        → MatchResult result (λ p. At lines p.links p.least (lines_of p.rest.now) p.line) (λ bad. IsFirstBad lines bad.line) }
    ensures within { IfOk result (λ p. p.line + length p.rest.now ≤ line + 1 + length behind.now) }
    ensures shorter { IfOk result (λ p. length p.rest.now ≤ length behind.now) }
    ensures numbers { IfOk result (λ p. (p.links ≤ 16) × (p.least ≤ 16)) }
{
    let Some(name) = name_of(first, links, least) else {
        return Err(BadReport { line: line + 1 });
    };
    let marks = read_marks(behind, &name);
    let last = line + 1 + marks.count;
    match marks.end {
        MarksEnd::Broken => Err(BadReport { line: last }),
        MarksEnd::Unsettled => {
            after_marks(&name, marks.rest, last, marks.count, false, links, least)
        }
        MarksEnd::Settled => after_marks(&name, marks.rest, last, marks.count, true, links, least),
    }
}

/// Whether these octets are a lawful report. An `Err` names the first line that isn't one of a report, or at which the
/// law of site scripts fails; an object that ends unsettled is named by its own last line, a missing `end` by the number
/// behind the last line. It takes no memory.
pub fn check_report(report: &[u8]) -> Result<(), BadReport>
    ensures { MatchResult result (λ _. IsLawfulReport report.now) (λ bad. BadLine report.now bad.line) }
{
    let mut at = Place {
        rest: report,
        line: 0,
        links: 0,
        least: 0,
    };
    'sections: while !at.rest.is_empty() {
        let (first, behind) = first_line(at.rest);
        if first == b"end".as_slice() {
            return after_end(behind, at.line);
        }
        match section(first, behind, at.line, at.links, at.least) {
            Ok(next) => at = next,
            Err(bad) => return Err(bad),
        }
    }
    Err(BadReport { line: at.line + 1 })
}
