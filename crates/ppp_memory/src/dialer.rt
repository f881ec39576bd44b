ghost use Rattle.std.specs.Prelude.{◌≡◌, [], IfOk, None, Some, false, if◌then◌else◌, refl, true};
ghost use Rattle.std.proofs.Common.{ap};
ghost use Rattle.ppp_memory.specs.Dialer.{DialerInMemory, GivesFirst, after_dial, is_refused, state_of};
ghost use Rattle.ppp_memory.specs.Line.{state_of as line_state_of};
ghost use Rattle.ppp_outside.specs.Dialer.{Dials, GivesNewLine, failed};
ghost use Rattle.ppp_outside.specs.MemorySink.{state_of as sink_state_of};
ghost use Rattle.ppp_outside.specs.declared.dialer.DialNext.TheVariants.{Line};

use crate::line::MemoryLine;
use crate::new_line::NewLine;
use ppp_base::NoMemory;
use ppp_outside::{DialNext, Dialer, Dialled, LineWords, MemorySink, Scripted, ScriptedDialer};
use std::alloc::Global;
use std::collections::VecDeque;
use std::marker::Model;

/// A dialer in memory, which gives the lines of a list and records what it was asked. Some calls fail.
#[derive(Drop)]
pub struct MemoryDialer {
    lines: VecDeque<NewLine>,
    asked: Vec<LineWords>,
    failing: Vec<u64>,
    next: DialNext,
    tries: u64,
    faults: u64,
}

impl Model for MemoryDialer {
    ghost use Rattle.std.specs.Prelude.{◌+◌, ◌≤◌, vec_capacity, vec_len};
    ghost use Rattle.std.specs.VecDeque.{deque_len};
    ghost use Rattle.ppp_memory.specs.Dialer.{DialerInMemory};

    ghost Value = { DialerInMemory };

    ghost view = { λ s. record { lines = s.lines.items; asked = s.asked.items; failing = s.failing.items; next = s.next; tries = s.tries; faults = s.faults } };

    ghost invariant = { λ s. vec_len s.asked + deque_len s.lines ≤ vec_capacity s.asked };
}

impl MemoryDialer {
    /// A dialer that gives these lines in order. A call with no line left fails, and so do the calls with the numbers
    /// in `failing`, where the first call is number 1.
    pub fn new(
        alloc: Global,
        lines: Vec<NewLine>,
        failing: Vec<u64>,
    ) -> Result<MemoryDialer, NoMemory>
        ensures { IfOk result (λ s. s ≡ record { lines = lines.items; asked = []; failing = failing.items; next = Line; tries = 0; faults = 0 }) }
    {
        let asked = Vec::with_capacity(alloc, lines.len())?;
        Ok(MemoryDialer {
            lines: VecDeque::from(lines),
            asked,
            failing,
            next: DialNext::Line,
            tries: 0,
            faults: 0,
        })
    }

    /// The words of the calls that gave a line, the oldest first.
    pub fn asked(&self) -> &[LineWords]
        ensures { result.now ≡ self.now.asked }
    {
        self.asked.as_slice()
    }

    // Whether the next call fails.
    fn refuses(&self) -> bool
        ensures { result ≡ is_refused self.now }
    {
        let call = self.tries.saturating_add(1);
        self.failing.contains(&call) || self.next == DialNext::Failed || self.lines.is_empty()
    }
}

impl Dialer for MemoryDialer {
    type In = MemoryLine;

    type Out = MemorySink;

    ghost state = { state_of };

    ghost coming = { λ s. if is_refused s then None else Some s.next };

    fn dial(&mut self, line: &LineWords) -> Dialled<MemoryLine, MemorySink>
        ensures dials { Dials (state_of self.old) (state_of self.new) line.now (failed result) }
        ensures new_line { GivesNewLine line_state_of sink_state_of result }
        ensures gives { GivesFirst self.old result self.new.lines }
        ensures after { self.new ≡ after_dial self.old line.now (failed result) self.new.lines }
    {
        let refused = self.refuses();
        self.tries = self.tries.saturating_add(1);
        if refused {
            self.faults = self.faults.saturating_add(1);
            return Dialled::Failed;
        }
        match self.lines.pop_front() {
            None => unreachable!(),
            Some(first) => {
                let kept = self.asked.push(line.copy());
                prove!(kept.is_ok());
                let (input, output) = first.halves();
                Dialled::Line(input, output)
            }
        }
    }
}

impl Scripted for MemoryDialer {
    type Next = DialNext;

    ghost SameButNext = { λ a b. b ≡ record a { next = b.next } };

    ghost next = { λ s. s.next };

    fn next_is(&mut self, answer: &DialNext) {
        self.next = *answer;
    }
}

impl ScriptedDialer for MemoryDialer {
    ghost use Rattle.std.specs.Prelude.{IfSome};

    ghost keeps = { λ a b same. ap state_of same };

    ghost answers_it = { λ s. elim (is_refused s) as (λ refused. IfSome (if refused then None else Some s.next) (λ answer. answer ≡ s.next)) [ true ↦ tt | false ↦ refl ] };
}
