ghost use Rattle.std.specs.Prelude.{◌≡◌, ◌≤◌, ◌<◌, ◌++◌, IfOk, OnOk, length};
ghost use Rattle.ppp_trace.specs.IsTrace.{IsFullTrace};
ghost use Rattle.ppp_trace.specs.MadeTrace.{first_lines, link_options, made_head, made_steps, made_text, next_step, turn};

use crate::life::{life_of, step_of};
use crate::made::Making;
use crate::made_line::with_number;
use crate::trace::{Trace, read_trace};
use ppp_base::NoMemory;
use std::alloc::Global;
use std::marker::Model;

/// How many steps a made trace has at most.
pub const MOST_MADE_STEPS: u32 = 200_000;

// What is made, and how many steps each link has done.
#[derive(Drop)]
struct Course {
    made: Making,
    done: [u32; 16],
}

impl Model for Course {
    ghost use Rattle.ppp_trace.specs.MadeTrace.{Turns};

    ghost Value = { Turns };

    ghost view = { λ t. record { made = t.made; done = t.done } };
}

// A link's next step.
fn next_step(alloc: Global, turns: &mut Course, place: u8) -> Result<(), NoMemory>
    requires sixteen { length turns.old.done ≡ 16 }
    requires place { place < 16 }
    ensures { OnOk result (turns.new ≡ next_step place turns.old) }
{
    let done = turns.done[place as usize];
    turns
        .made
        .live(alloc, place + 1, life_of(done), step_of(done))?;
    turns.done[place as usize] = done.saturating_add(1);
    Ok(())
}

// A turn, where a line is left.
#[tactic(auto, unfolding(crate::specs::MadeTrace::turn))]
fn turn(alloc: Global, turns: &mut Course, links: u8) -> Result<(), NoMemory>
    requires sixteen { length turns.old.done ≡ 16 }
    requires links { (1 ≤ links) × (links ≤ 16) }
    ensures { OnOk result (turns.new ≡ turn links turns.old) }
{
    if turns.made.left() == 0 {
        return Ok(());
    }
    let word = turns.made.word();
    next_step(alloc, turns, (word % u32::from(links)) as u8)
}

// The lines of the steps.
#[tactic(auto, unfolding(crate::specs::MadeTrace::made_steps))]
fn made_steps(alloc: Global, seed: u64, links: u8, steps: u32) -> Result<Vec<u8>, NoMemory>
    requires links { (1 ≤ links) × (links ≤ 16) }
    ensures { IfOk result (λ text. text.items ≡ made_steps seed links steps) }
{
    let mut turns = Course {
        made: Making::new(alloc, seed, steps),
        done: [0; 16],
    };
    for _turn in 0..steps {
        turn(alloc, &mut turns, links)?;
    }
    Ok(turns.made.into_text())
}

// The options of a link.
#[tactic(auto, unfolding(crate::specs::MadeTrace::link_options))]
fn add_link(alloc: Global, text: &mut Vec<u8>, link: u8) -> Result<(), NoMemory>
    requires { 1 ≤ link }
    ensures { OnOk result (text.new.items ≡ text.old.items ++ link_options link) }
{
    let number = u64::from(link);
    let first = with_number(alloc, b"link socket h:1 unit ", number - 1, b" 10.0.")?;
    let second = with_number(alloc, first.as_slice(), number, b".1:10.0.")?;
    let line = with_number(alloc, second.as_slice(), number, b".2\n")?;
    text.extend_from_slice(line.as_slice())?;
    Ok(())
}

// The first line, and the options of all links.
#[tactic(auto, unfolding(crate::specs::MadeTrace::first_lines))]
fn first_lines(alloc: Global, seed: u64, links: u8) -> Result<Vec<u8>, NoMemory>
    ensures { IfOk result (λ text. text.items ≡ first_lines seed links) }
{
    let head = with_number(alloc, b"full ", seed, b"\noptions ")?;
    with_number(
        alloc,
        head.as_slice(),
        u64::from(links) + 1,
        b"\nloglimit 65536 nomagic persist holdoff 0 maxfail 0\n",
    )
}

// The first line and the sections.
fn made_head(alloc: Global, seed: u64, links: u8) -> Result<Vec<u8>, NoMemory>
    requires { links ≤ 16 }
    ensures { IfOk result (λ text. text.items ≡ made_head seed links) }
{
    let mut text = first_lines(alloc, seed, links)?;
    for link in 0..links {
        add_link(alloc, &mut text, link + 1)?;
    }
    text.extend_from_slice(b"pap 0\nchap 0\n")?;
    Ok(text)
}

/// The text of the trace that is made from a number, with so many links and lines of steps.
pub fn made_text(alloc: Global, seed: u64, links: u8, steps: u32) -> Result<Vec<u8>, NoMemory>
    requires links { (1 ≤ links) × (links ≤ 16) }
    requires steps { steps ≤ MOST_MADE_STEPS }
    ensures { IfOk result (λ text. text.items ≡ made_text seed links steps) }
{
    let mut text = made_head(alloc, seed, links)?;
    let lines = made_steps(alloc, seed, links, steps)?;
    text.extend_from_slice(lines.as_slice())?;
    Ok(text)
}

/// The trace that is made from a number: what `read_trace` reads in its text.
pub fn made_trace(alloc: Global, seed: u64, links: u8, steps: u32) -> Result<Trace, NoMemory>
    requires links { (1 ≤ links) × (links ≤ 16) }
    requires steps { steps ≤ MOST_MADE_STEPS }
    ensures { IfOk result (IsFullTrace (made_text seed links steps)) }
{
    let text = made_text(alloc, seed, links, steps)?;
    match read_trace(alloc, text.as_slice()) {
        Ok(trace) => Ok(trace),
        Err(_) => Err(NoMemory),
    }
}
