ghost use Rattle.std.specs.Prelude.{◌≡◌, ◌+◌, ◌≤◌, ◌++◌, ◌∷◌, [], IfOk, None, Some, drop, false, length, max, refl, take};
ghost use Rattle.std.proofs.Common.{ap};
ghost use Rattle.ppp_memory.specs.Kept.{answers_at};
ghost use Rattle.ppp_memory.specs.Line.{CanAnswer, after_read, answer_of, buffer_with, count_in, kept_after, next_of, passed, state_of};
ghost use Rattle.ppp_memory.specs.declared.line.LineTurn.TheVariants.{Gives};
ghost use Rattle.ppp_outside.specs.Line.{ReadsLine};

use crate::kept_answer::KeptAnswer;
use ppp_base::NoMemory;
use ppp_outside::{LineGot, LineIn, Scripted, ScriptedLine};
use std::alloc::Global;
use std::marker::Model;

/// What a line in memory does at its next calls.
#[derive(Clone, Copy, Debug, PartialEq, Eq)]
pub enum LineTurn {
    /// It gives of its octets, and is at its end where none is left.
    Gives,
    /// Nothing comes.
    Quiet,
    /// It fails.
    Fails,
}

/// The reading half of a line in memory: octets, given in pieces, and a record of its answers. Some calls fail, and
/// some are quiet.
#[derive(Drop)]
pub struct MemoryLine {
    octets: Vec<u8>,
    at: usize,
    piece: usize,
    failing: Vec<u64>,
    quiet: Vec<u64>,
    next: LineTurn,
    answers: Vec<KeptAnswer>,
    room: usize,
    overrun: bool,
    calls: u64,
    taken: u64,
    faults: u64,
    quiets: u64,
    ends: u64,
}

impl Model for MemoryLine {
    ghost use Rattle.std.specs.Prelude.{◌<◌, ◌≤◌, drop, vec_capacity, vec_len};
    ghost use Rattle.ppp_memory.specs.Kept.{answers_at};
    ghost use Rattle.ppp_memory.specs.Line.{LineInMemory};

    ghost Value = { LineInMemory };

    ghost view = { λ s. record { left = drop s.at s.octets.items; piece = s.piece; failing = s.failing.items; quiet = s.quiet.items; next = s.next; answers = answers_at s.octets.items s.answers.items; room = s.room; overrun = s.overrun; calls = s.calls; taken = s.taken; faults = s.faults; quiets = s.quiets; ends = s.ends } };

    ghost invariant = { λ s. (s.at ≤ vec_len s.octets) × (0 < s.piece) × (vec_len s.answers ≤ s.room) × (s.room ≤ vec_capacity s.answers) };
}

/// What a line in memory is made of.
#[derive(Drop)]
pub struct LineParts {
    /// What it gives.
    pub octets: Vec<u8>,
    /// How many octets a call gives at most: one where this is 0.
    pub piece: usize,
    /// The numbers of the calls that fail, where the first call is number 1.
    pub failing: Vec<u64>,
    /// The numbers of the calls that are quiet.
    pub quiet: Vec<u64>,
    /// For how many answers the record has room. A call at a full record fails.
    pub room: usize,
}

impl MemoryLine {
    /// A line of these parts, with the room of its record reserved.
    pub fn new(alloc: Global, parts: LineParts) -> Result<MemoryLine, NoMemory>
        ensures { IfOk result (λ s. s ≡ record { left = parts.octets.items; piece = max parts.piece 1; failing = parts.failing.items; quiet = parts.quiet.items; next = Gives; answers = []; room = parts.room; overrun = false; calls = 0; taken = 0; faults = 0; quiets = 0; ends = 0 }) }
    {
        let answers = Vec::with_capacity(alloc, parts.room)?;
        Ok(MemoryLine {
            octets: parts.octets,
            at: 0,
            piece: parts.piece.max(1),
            failing: parts.failing,
            quiet: parts.quiet,
            next: LineTurn::Gives,
            answers,
            room: parts.room,
            overrun: false,
            calls: 0,
            taken: 0,
            faults: 0,
            quiets: 0,
            ends: 0,
        })
    }

    // What a call answers that neither fails nor is to be quiet.
    fn next_answer(&self, room: usize) -> LineGot
        ensures { result ≡ next_of self.now room }
    {
        let left = self.octets.len() - self.at;
        if left == 0 {
            return LineGot::End;
        }
        match left.min(room).min(self.piece) {
            0 => LineGot::Quiet,
            count => LineGot::Got(count),
        }
    }

    // What the next call answers into a buffer with so much room.
    #[tactic(auto, using(crate::proofs::KeptLemmas::as_many))]
    fn answer(&self, room: usize) -> LineGot
        ensures answer { result ≡ answer_of self.now room }
        ensures can { CanAnswer self.now result room }
    {
        let call = self.calls.saturating_add(1);
        if self.failing.contains(&call)
            || self.next == LineTurn::Fails
            || self.answers.len() >= self.room
        {
            LineGot::Failed
        } else if self.quiet.contains(&call) || self.next == LineTurn::Quiet {
            LineGot::Quiet
        } else {
            self.next_answer(room)
        }
    }

    // Keeps an answer, where there is room.
    #[tactic(auto, using(crate::proofs::KeptLemmas::one_more, crate::proofs::KeptLemmas::as_many))]
    fn keep(&mut self, answer: LineGot)
        ensures { self.new ≡ kept_after self.old answer }
    {
        if self.answers.len() < self.room {
            let kept = self.answers.push(KeptAnswer {
                at: self.at,
                answer,
            });
            prove!(kept.is_ok());
        } else {
            self.overrun = true;
        }
    }

    // Goes on behind the octets of an answer, and counts it.
    fn pass(&mut self, answer: LineGot)
        requires { count_in answer ≤ length self.old.left }
        ensures { self.new ≡ passed self.old answer }
    {
        self.calls = self.calls.saturating_add(1);
        match answer {
            LineGot::Got(count) => {
                self.at += count;
                self.taken = self.taken.saturating_add(count as u64);
            }
            LineGot::Quiet => self.quiets = self.quiets.saturating_add(1),
            LineGot::End => self.ends = self.ends.saturating_add(1),
            LineGot::Failed => self.faults = self.faults.saturating_add(1),
        }
    }

    // Puts the octets of an answer at the front of the buffer.
    fn put(&self, buf: &mut [u8], answer: LineGot)
        requires { CanAnswer self.now answer (length buf.old) }
        ensures { buf.new ≡ buffer_with answer self.now.left buf.old }
    {
        if let LineGot::Got(count) = answer {
            buf[..count].copy_from_slice(&self.octets[self.at..self.at + count]);
        }
    }
}

impl LineIn for MemoryLine {
    ghost state = { state_of };

    ghost coming = { λ s. None };

    #[tactic(auto, using(crate::proofs::LineLemmas::reads_line))]
    fn read(&mut self, buf: &mut [u8], _wait_ms: u32) -> LineGot
        ensures reads { ReadsLine (state_of self.old) (state_of self.new) result buf.new }
        ensures answer { result ≡ answer_of self.old (length buf.old) }
        ensures after { self.new ≡ after_read self.old result }
    {
        let answer = self.answer(buf.len());
        self.put(buf, answer);
        self.keep(answer);
        self.pass(answer);
        answer
    }
}

impl Scripted for MemoryLine {
    type Next = LineTurn;

    ghost SameButNext = { λ a b. b ≡ record a { next = b.next } };

    ghost next = { λ s. s.next };

    fn next_is(&mut self, answer: &LineTurn) {
        self.next = *answer;
    }
}

impl ScriptedLine for MemoryLine {
    ghost means = { λ turn. None };

    ghost keeps = { λ a b same. ap state_of same };

    ghost answers_it = { λ s. tt };
}
