ghost use Rattle.std.specs.Prelude.{◌≡◌, ◌≤◌, IfSome, true};
ghost use Rattle.std.specs.Bool.{OnFalse, OnTrue};
ghost use Rattle.ppp_link.specs.Steps.{Steps};
ghost use Rattle.ppp_link.specs.declared.event.LinkEvent.TheVariants as event;
ghost use Rattle.ppp_mark.specs.Table.{is_kind};

use crate::out::{WorldOut, mark_at};
use ppp_base::{LinkId, NoMemory, SignalWord};
use ppp_hooks::HookJob;
use ppp_link::{DialJob, Link, LinkEvent, ReadStep, Reading, Writing};
use ppp_mark::Mark;
use ppp_memory::{ReplayDialer, ReplayLine, ReplaySink};
use ppp_option_words::LinkConfig;
use ppp_outside::{DialNext, LineAnswer, ReplaySpawner, ScriptEnd, SinkNext};
use ppp_secrets::SecretsPair;
use ppp_trace::LineOctets;
use std::alloc::Global;

/// A link with its errands that are out.
#[derive(Drop)]
pub struct LinkPlace {
    pub(crate) link: Link<ReplayDialer, ReplaySpawner>,
    dial: Option<DialJob<ReplayDialer>>,
    reading: Option<Reading<ReplayLine>>,
    job: Option<HookJob<ReplaySpawner>>,
    told: u32,
}

impl LinkPlace {
    /// A link that hasn't begun.
    pub fn new(
        alloc: Global,
        id: LinkId,
        config: &LinkConfig,
        secrets: &SecretsPair,
        seed: u64,
        loglimit: u32,
    ) -> Result<LinkPlace, NoMemory>
        requires least { 4096 ≤ loglimit }
        requires most { loglimit ≤ 1048576 }
    {
        let link = Link::new(
            alloc,
            id,
            config.copy(alloc)?,
            secrets.copy(alloc)?,
            ReplayDialer::new(),
            ReplaySpawner::new(),
            seed,
            loglimit,
        )?;
        Ok(LinkPlace {
            link,
            dial: None,
            reading: None,
            job: None,
            told: 0,
        })
    }

    /// Takes the errands out that wait.
    pub fn take_errands(&mut self) {
        if self.dial.is_none() {
            self.dial = self.link.take_dial();
        }
        if self.reading.is_none() {
            self.reading = self.link.take_reading();
        }
        if self.job.is_none() {
            self.job = self.link.take_job();
        }
    }

    /// An event with which no errand comes back.
    pub fn begins(&mut self) -> bool
        ensures steps { OnTrue result (Steps event.Begin self.old.link self.new.link) }
        ensures stale { OnFalse result (self.new.link ≡ self.old.link) }
    {
        self.link.step(LinkEvent::Begin).is_taken()
    }

    /// A moment.
    pub fn ticks(&mut self, ms: u64) -> bool
        ensures steps { OnTrue result (Steps (event.Tick ms) self.old.link self.new.link) }
        ensures stale { OnFalse result (self.new.link ≡ self.old.link) }
    {
        self.link.step(LinkEvent::Tick(ms)).is_taken()
    }

    /// A signal.
    pub fn hears_signal(&mut self, word: SignalWord) -> bool
        ensures steps { OnTrue result (Steps (event.Signal word) self.old.link self.new.link) }
        ensures stale { OnFalse result (self.new.link ≡ self.old.link) }
    {
        self.link.step(LinkEvent::Signal(word)).is_taken()
    }

    /// The dial that is out answers so.
    pub fn dial_ends(&mut self, answer: DialNext) -> bool
        ensures stale { OnFalse result (self.new.link ≡ self.old.link) }
    {
        let Some(mut job) = self.dial.take() else {
            return false;
        };
        job.next_is(&answer);
        self.link.step(LinkEvent::Dialled(job.run())).is_taken()
    }

    // The turn of a reading.
    fn read(&mut self, step: ReadStep<ReplayLine>) -> bool
        ensures stale { OnFalse result (self.new.link ≡ self.old.link) }
    {
        match step {
            ReadStep::Piece(reading, piece) => {
                self.reading = Some(reading);
                self.link.step(LinkEvent::Bytes(piece)).is_taken()
            }
            ReadStep::Quiet(reading) => {
                self.reading = Some(reading);
                false
            }
            ReadStep::Over(over) => self.link.step(LinkEvent::LineOver(over)).is_taken(),
        }
    }

    // The reading that is out answers so.
    fn reads(&mut self, answer: &LineAnswer) -> bool
        ensures stale { OnFalse result (self.new.link ≡ self.old.link) }
    {
        let Some(mut reading) = self.reading.take() else {
            return false;
        };
        reading.next_is(answer);
        self.read(reading.next(0))
    }

    /// The line gives these octets, of which there must be some.
    pub fn hears(&mut self, octets: &LineOctets) -> bool
        ensures stale { OnFalse result (self.new.link ≡ self.old.link) }
    {
        if octets.is_empty() {
            return false;
        }
        self.reads(&LineAnswer::Got(octets.copy()))
    }

    /// The line gives these octets, where this is the present session and so many octets were taken in it.
    pub fn hears_at(&mut self, session: u32, offset: u64, octets: &LineOctets) -> bool
        ensures stale { OnFalse result (self.new.link ≡ self.old.link) }
    {
        let view = self.link.view();
        if view.session != session || view.taken != offset {
            return false;
        }
        self.hears(octets)
    }

    /// The line has ended.
    pub fn line_ends(&mut self) -> bool
        ensures stale { OnFalse result (self.new.link ≡ self.old.link) }
    {
        self.reads(&LineAnswer::End)
    }

    /// The line has failed.
    pub fn line_fails(&mut self) -> bool
        ensures stale { OnFalse result (self.new.link ≡ self.old.link) }
    {
        self.reads(&LineAnswer::Failed)
    }

    /// The line is left, unless the link wants it.
    pub fn line_left(&mut self) -> bool
        ensures stale { OnFalse result (self.new.link ≡ self.old.link) }
    {
        if self.link.wants_line() {
            return false;
        }
        let Some(reading) = self.reading.take() else {
            return false;
        };
        self.link
            .step(LinkEvent::LineOver(reading.leave()))
            .is_taken()
    }

    /// What the link writes is taken and written, or can't be.
    pub fn sends(&mut self, answer: SinkNext) -> WorldOut {
        let Some(mut writing) = self.link.take_writing() else {
            return WorldOut::silent(false);
        };
        writing.next_is(&answer);
        let written = octets_of(&writing, answer);
        let taken = self.link.step(LinkEvent::Flushed(writing.run())).is_taken();
        WorldOut { taken, written }
    }

    /// The script of this job, where it runs, ends so.
    pub fn hook_ends(&mut self, number: u32, answer: ScriptEnd) -> bool
        ensures stale { OnFalse result (self.new.link ≡ self.old.link) }
    {
        let Some(mut job) = take_numbered(&mut self.job, number) else {
            return false;
        };
        job.next_is(&answer);
        self.link.step(LinkEvent::HookOver(job.run())).is_taken()
    }

    /// Its marks so far count as told.
    pub fn all_told(&mut self) {
        self.told = self.link.log().count();
    }

    /// How many of its marks weren't told.
    pub fn fresh(&self) -> u32 {
        self.link.log().count().saturating_sub(self.told)
    }

    /// Its first mark that wasn't told.
    pub fn next_mark(&mut self) -> Option<Mark>
        ensures { IfSome result (λ m. is_kind m.kind ≡ true) }
    {
        let mark = mark_at(self.link.log(), self.told)?;
        self.told = self.told.saturating_add(1);
        Some(mark)
    }
}

// The octets of a writing, where they go out.
fn octets_of(writing: &Writing<ReplaySink>, answer: SinkNext) -> Option<LineOctets> {
    match answer {
        SinkNext::Takes => LineOctets::from_octets(writing.octets()),
        SinkNext::Fails => None,
    }
}

/// Takes the job that is out, where it has this number.
pub fn take_numbered(
    out: &mut Option<HookJob<ReplaySpawner>>,
    number: u32,
) -> Option<HookJob<ReplaySpawner>> {
    match out {
        Some(job) if job.number() == number => out.take(),
        _ => None,
    }
}
