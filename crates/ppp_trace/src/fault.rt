ghost use Rattle.std.specs.Prelude.{◌≡◌};
ghost use Rattle.ppp_trace.specs.FaultLine.{fault_line, word_of_kind};

use arrayvec::ArrayVec;
use itoa::Buffer;
use ppp_base::NoMemory;
use thiserror::Error;

/// What is wrong with a trace. Of two faults of one line the earlier one here is told.
#[derive(Clone, Copy, Debug, PartialEq, Eq, Error)]
pub enum FaultKind {
    /// There is more than a trace may have. The line is 0.
    #[error("size")]
    Size,
    /// There are no octets at all. The line is 1.
    #[error("empty")]
    Empty,
    /// The first line isn't the header.
    #[error("header")]
    Header,
    /// A line isn't a step.
    #[error("step")]
    Step,
    /// A line is too long.
    #[error("long")]
    Long,
    /// A step is past the limit.
    #[error("steps")]
    Steps,
    /// The options can't be read.
    #[error("options")]
    Options,
    /// Secrets can't be read.
    #[error("secrets")]
    Secrets,
}

/// A fault of a trace, and its line, of which the first is 1.
#[derive(Clone, Copy, Debug, PartialEq, Eq, Error)]
#[error("line {line}: {kind}")]
pub struct BadTrace {
    pub line: u32,
    pub kind: FaultKind,
}

/// Why no trace was read.
#[derive(Clone, Copy, Debug, PartialEq, Eq, Error)]
pub enum TraceFault {
    #[error("bad trace: {0}")]
    Bad(BadTrace),
    #[error("{0}")]
    NoMemory(NoMemory),
}

// The word of a kind.
fn kind_word(kind: FaultKind) -> &'static [u8]
    ensures { result.now ≡ word_of_kind kind }
{
    match kind {
        FaultKind::Size => b"size",
        FaultKind::Empty => b"empty",
        FaultKind::Header => b"header",
        FaultKind::Step => b"step",
        FaultKind::Long => b"long",
        FaultKind::Steps => b"steps",
        FaultKind::Options => b"options",
        FaultKind::Secrets => b"secrets",
    }
}

/// The line that tells a fault, with its newline. It takes no memory.
pub fn fault_text(bad: BadTrace) -> ArrayVec<u8, 64>
    ensures { result.items ≡ fault_line bad }
{
    let mut buffer = Buffer::new();
    let mut text = ArrayVec::new();
    let _ = text.try_extend_from_slice(b"bad trace: line ");
    let _ = text.try_extend_from_slice(buffer.format(bad.line).as_bytes());
    let _ = text.try_extend_from_slice(b": ");
    let _ = text.try_extend_from_slice(kind_word(bad.kind));
    let _ = text.try_extend_from_slice(b"\n");
    text
}
