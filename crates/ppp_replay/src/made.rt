ghost use Rattle.std.specs.Prelude.{◌≤◌};
ghost use Rattle.ppp_trace.specs.declared.whole_trace.TheConstants.{MOST_MADE_STEPS};

use ppp_base::NoMemory;
use ppp_mark::lines::first_line;
use ppp_option_words::Config;
use ppp_outside::{Sink, TextWriter};
use ppp_trace::{Trace, WorldStep, made_trace, read_step};
use ppp_world::World;
use std::alloc::Global;

/// What the run of a made trace came to.
#[derive(Clone, Copy, Debug, PartialEq, Eq)]
pub struct Summary {
    pub steps: u64,
    pub taken: u64,
    pub stale: u64,
    pub marks: u64,
    pub given: u64,
}

impl Summary {
    // Before the first step.
    fn new() -> Summary {
        Summary {
            steps: 0,
            taken: 0,
            stale: 0,
            marks: 0,
            given: 0,
        }
    }

    // Counts a step.
    fn count(&mut self, world: &mut World, step: &WorldStep) {
        let out = world.step(step);
        self.steps = self.steps.saturating_add(1);
        if out.taken {
            self.taken = self.taken.saturating_add(1);
        } else {
            self.stale = self.stale.saturating_add(1);
        }
        self.count_marks(world);
        self.count_given(world);
    }

    // Counts the new marks.
    fn count_marks(&mut self, world: &mut World) {
        'marks: while let Some(_mark) = world.take_mark() {
            self.marks = self.marks.saturating_add(1);
        }
    }

    // Counts the datagrams that were given.
    fn count_given(&mut self, world: &mut World) {
        'given: while let Some(_delivery) = world.take_given() {
            self.given = self.given.saturating_add(1);
        }
    }
}

// Runs the steps of a trace.
fn run_steps(world: &mut World, steps: &[u8], links: u8) -> Summary
    requires { links ≤ 16 }
{
    let mut summary = Summary::new();
    let mut rest = steps;
    'steps: while !rest.is_empty() {
        let (line, others) = first_line(rest);
        if let Some(step) = read_step(line, links) {
            summary.count(world, &step);
        }
        rest = others;
    }
    summary
}

/// How many links there are.
pub fn links_of(config: &Config) -> u8
    ensures { result ≤ 16 }
{
    config.links.as_slice().len() as u8
}

// Runs a trace.
fn run_trace(alloc: Global, trace: Trace) -> Result<Summary, NoMemory> {
    let Trace {
        seed,
        config,
        secrets,
        steps,
    } = trace;
    let links = links_of(&config);
    let mut world = World::new(alloc, &config, secrets, seed)?;
    Ok(run_steps(&mut world, steps.as_slice(), links))
}

/// Runs the trace that is made from a number.
pub fn run_made(alloc: Global, seed: u64, links: u8, steps: u32) -> Result<Summary, NoMemory>
    requires links { (1 ≤ links) × (links ≤ 16) }
    requires steps { steps ≤ MOST_MADE_STEPS }
{
    let trace = made_trace(alloc, seed, links, steps)?;
    run_trace(alloc, trace)
}

/// Writes the line of a summary, and answers whether the whole of it was taken.
pub fn put_summary<O: Sink>(output: &mut O, summary: Summary) -> bool {
    let mut writer = TextWriter::new();
    writer.put(output, b"steps ");
    writer.put_number(output, summary.steps);
    writer.put(output, b" taken ");
    writer.put_number(output, summary.taken);
    writer.put(output, b" stale ");
    writer.put_number(output, summary.stale);
    writer.put(output, b" marks ");
    writer.put_number(output, summary.marks);
    writer.put(output, b" given ");
    writer.put_number(output, summary.given);
    writer.put(output, b"\n");
    writer.finish(output)
}
