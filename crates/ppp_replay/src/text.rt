ghost use Rattle.std.specs.Prelude.{◌≡◌, ◌+◌, ◌*◌, ◌≤◌, length, option_map, codes, if◌then◌else◌};
ghost use Rattle.std.specs.Bool.{OnFalse, OnTrue};
ghost use Rattle.ppp_outside.specs.Writing.{Breaks, Puts, Writes};
ghost use Rattle.ppp_replay.specs.BareRun.{after_step, run_start};
ghost use Rattle.ppp_replay.specs.BareText.{acts_text, bare_text, line_of, running_text, start_text, told_text};
ghost use Rattle.ppp_bare.specs.declared.bare.TheConstants.{MOST_MARKS};
ghost use Rattle.ppp_trace.specs.declared.TheConstants.{MOST_STEPS};

use crate::act_names::name;
use crate::player::Player;
use ppp_fsm::Act;
use ppp_hooks::HookStart;
use ppp_outside::{Sink, TextWriter};
use ppp_trace::BareStep;

// Puts the acts, joined by commas.
fn put_acts<O: Sink>(writer: &mut TextWriter, output: &mut O, acts: &[Act])
    ensures { Puts writer.old writer.new (O.state output.old) (O.state output.new) (acts_text acts.now) }
{
    let Some((first, others)) = acts.split_first() else {
        return writer.put(output, b"-");
    };
    writer.put(output, name(*first).as_bytes());
    for act in others {
        writer.put(output, b",");
        writer.put(output, name(*act).as_bytes());
    }
}

// Does a step, and puts what it did.
fn put_told<O: Sink>(writer: &mut TextWriter, output: &mut O, player: &mut Player, step: BareStep)
    requires { player.old.marks + 3 ≤ MOST_MARKS }
    ensures put { Puts writer.old writer.new (O.state output.old) (O.state output.new) (told_text player.old.run step) }
    ensures run { player.new.run ≡ after_step player.old.run step }
    ensures marks { player.new.marks ≤ player.old.marks + 3 }
{
    match step {
        BareStep::Event(event) => {
            let acts = player.apply(event);
            put_acts(writer, output, acts.as_slice());
        }
        BareStep::End { job, answer } => {
            if player.end(job, answer) {
                writer.put(output, b"-");
            } else {
                writer.put(output, b"stale");
            }
        }
    }
}

// The words of a start's direction.
fn start_word(up: bool) -> &'static [u8]
    ensures { result.now ≡ (if up then codes " ip-up " else codes " ip-down ") }
{
    if up { b" ip-up " } else { b" ip-down " }
}

// Puts the script that was started, if one was.
fn put_start<O: Sink>(writer: &mut TextWriter, output: &mut O, start: Option<HookStart>)
    ensures { Puts writer.old writer.new (O.state output.old) (O.state output.new) (start_text (option_map (λ (s : HookStart). (s.up, s.opening)) start)) }
{
    let Some(start) = start else {
        return writer.put(output, b"");
    };
    writer.put(output, start_word(start.up));
    writer.put_number(output, u64::from(start.opening));
}

// Puts the job that runs, or that none does.
fn put_running<O: Sink>(writer: &mut TextWriter, output: &mut O, running: Option<u32>)
    ensures { Puts writer.old writer.new (O.state output.old) (O.state output.new) (running_text running) }
{
    match running {
        None => writer.put(output, b" rest"),
        Some(job) => {
            writer.put(output, b" run ");
            writer.put_number(output, u64::from(job));
        }
    }
}

// Does a step, and puts its line.
fn put_line<O: Sink>(
    writer: &mut TextWriter,
    output: &mut O,
    number: u64,
    player: &mut Player,
    step: BareStep,
)
    requires { player.old.marks + 3 ≤ MOST_MARKS }
    ensures put { Puts writer.old writer.new (O.state output.old) (O.state output.new) (line_of number player.old.run step) }
    ensures run { player.new.run ≡ after_step player.old.run step }
    ensures marks { player.new.marks ≤ player.old.marks + 3 }
{
    let before = player.starts();
    writer.put_number(output, number);
    writer.put(output, b" ");
    put_told(writer, output, player, step);
    let state = player.state();
    let counter = player.counter();
    let start = player.start_since(before);
    writer.put(output, b" ");
    writer.put_number(output, u64::from(state));
    writer.put(output, b"/");
    writer.put_number(output, u64::from(counter));
    put_start(writer, output, start);
    put_running(writer, output, player.running());
    writer.put(output, b"\n");
}

/// Writes the text of a bare trace, and answers whether the whole of it was taken.
pub fn put_text<O: Sink>(output: &mut O, mut player: Player, steps: &[BareStep]) -> bool
    requires few { length steps.now ≤ MOST_STEPS }
    requires begun { player ≡ record { run = run_start; marks = 0 } }
    ensures whole { OnTrue result (Writes (O.state output.old) (O.state output.new) (bare_text steps.now)) }
    ensures part { OnFalse result (Breaks (O.state output.old) (O.state output.new) (bare_text steps.now)) }
{
    let mut writer = TextWriter::new();
    let mut number = 0;
    for step in steps {
        number += 1;
        put_line(&mut writer, output, number, &mut player, *step);
    }
    writer.finish(output)
}
