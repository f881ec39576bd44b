ghost use Rattle.std.specs.Prelude.{◌≡◌, ◌<◌, ◌≤◌, true, IfOk, IfSome, length, slice_get};
ghost use Rattle.ppp_mark.specs.Log.{AreMarks, added, marks_of, no_marks, room_of};
ghost use Rattle.ppp_mark.specs.Table.{is_kind};

use crate::mark::Mark;
use ppp_base::NoMemory;
use std::alloc::Global;
use std::marker::Model;

/// A list of marks, whose room is reserved when it is made. Contracts see the newest first.
#[derive(Drop)]
pub struct Log {
    marks: Vec<Mark>,
    limit: u32,
}

impl Model for Log {
    ghost use Rattle.std.specs.Prelude.{◌≤◌, reverse, vec_len, vec_capacity};
    ghost use Rattle.ppp_mark.specs.Log.{AreMarks, LogState};

    ghost Value = { LogState };

    ghost view = { λ log. record { past = reverse log.marks.items; limit = log.limit } };

    ghost invariant = { λ log. (vec_len log.marks ≤ log.limit) × (log.limit ≤ vec_capacity log.marks) × AreMarks (reverse log.marks.items) };
}

impl Log {
    /// An empty log with room for so many marks.
    pub fn new(alloc: Global, limit: u32) -> Result<Log, NoMemory>
        ensures { IfOk result (λ log. log ≡ no_marks limit) }
    {
        let marks = Vec::with_capacity(alloc, limit as usize)?;
        Ok(Log { marks, limit })
    }

    /// Adds a mark. It takes no memory.
    pub fn add(&mut self, mark: Mark)
        requires room { 0 < room_of self.old }
        requires kind { is_kind mark.kind ≡ true }
        ensures { self.new ≡ added mark self.old }
    {
        let added = self.marks.push(mark);
        prove!(added.is_ok());
    }

    /// How many marks there are.
    pub fn count(&self) -> u32
        ensures count { result ≡ length self.now.past }
        ensures within { length self.now.past ≤ self.now.limit }
    {
        let limit = self.limit;
        let count = self.marks.len();
        prove!(count <= limit as usize);
        count as u32
    }

    /// How many marks may still be added.
    pub fn room(&self) -> u32
        ensures { result ≡ room_of self.now }
    {
        self.limit - self.marks.len() as u32
    }

    /// Mark number `at`, from 0 on, the oldest first. None is past the last one.
    pub fn get(&self, at: u32) -> Option<Mark>
        ensures { result ≡ slice_get (marks_of self.now) at }
    {
        self.marks.get(at as usize).copied()
    }

    /// Its marks, the oldest first.
    pub fn marks(&self) -> &[Mark]
        ensures value { result.now ≡ marks_of self.now }
        ensures kinds { AreMarks (marks_of self.now) }
    {
        &self.marks
    }
}
